//! Which notes were set? A list for contracts alone.

ghost use Rattle.std.specs.Prelude.{◌≡◌, [], ◌∷◌};

use hb_io::{Name, Text};
use std::marker::Model;
use std::snapshot::Snapshot;

/// The newest note that was set, on top of the notes before it.
#[cycle(set_notes)]
#[derive(Drop)]
enum Newest {
    None,
    Set {
        name: Name,
        order: u8,
        text: Snapshot<Text>,
        before: Snapshot<SetNotes>,
    },
}

/// The notes that were set, which contracts see as a list with the newest first.
///
/// It is for contracts alone and has no bytes: a [`Snapshot`] keeps nothing at run time.
#[cycle(set_notes)]
#[derive(Drop)]
pub(crate) struct SetNotes {
    newest: Snapshot<Newest>,
}

impl Model for SetNotes {
    ghost use Rattle.std.specs.Prelude.{List, length};
    ghost use Rattle.std.proofs.Common.{arith};
    ghost use Rattle.hb_club.specs.ClerkCalls.{SetNote};

    ghost Value = { List SetNote };

    ghost use Rattle.hb_playing.specs.SetNotes.{notes_of};

    ghost view = { λ s. notes_of s.newest.value };

    ghost size = { length };

    ghost size_decreases = { λ a h. Prim.grind arith };
}

impl SetNotes {
    /// No note yet.
    pub(crate) fn new() -> Self
        ensures { result ≡ [] }
    {
        SetNotes {
            newest: Snapshot::of(&Newest::None),
        }
    }

    /// Adds a note as the newest.
    pub(crate) fn add(&mut self, name: &Name, order: u8, text: &Text)
        ensures { self.new ≡ record { name = name.now; order = order; text = text.now } ∷ self.old }
    {
        self.newest = Snapshot::of(&Newest::Set {
            name: *name,
            order,
            text: Snapshot::of(text),
            before: Snapshot::of(self),
        });
    }
}
