//! Which notes of its cards do the players of a table have?

ghost use Rattle.std.specs.Prelude.{◌≡◌, ◌<◌, [], ◌∷◌, IfOk, OnOk, map};
ghost use Rattle.std.specs.List.{range_with_len};
ghost use Rattle.hb_club.specs.ClerkCalls.{note_lists, text_at};

use crate::set_notes::SetNotes;
use hb_io::{Name, Text, Texts};
use hb_replay::Notes;
use std::alloc::{AllocError, Global};
use std::collections::HashMap;
use std::marker::Model;

/// The newest text that each player has noted at each card.
///
/// Contracts see the notes that were set, the newest first, and for how many more there is room.
#[derive(Drop)]
pub struct Notebook {
    texts: HashMap<(Name, u8), Text>,
    notes: SetNotes,
}

impl Model for Notebook {
    ghost use Rattle.hb_playing.specs.HeldNotes.{HeldNotes};

    ghost Value = { HeldNotes };

    ghost use Rattle.hb_playing.specs.Notes.{held, IsNotebook};

    ghost view = { held };

    ghost invariant = { IsNotebook };
}

impl Notebook {
    /// A notebook in which no note was set.
    pub fn new(alloc: Global) -> Self
        ensures { result.notes ≡ [] }
    {
        Notebook {
            texts: HashMap::new(alloc),
            notes: SetNotes::new(),
        }
    }

    /// Makes room for one more note. Without memory for it nothing changes.
    pub fn reserve(&mut self) -> Result<(), AllocError>
        ensures room { OnOk result (0 < self.new.spare) }
        ensures notes { self.new.notes ≡ self.old.notes }
    {
        self.texts.reserve(1)
    }

    /// Sets the text of a player at a card, in place of an older one. It takes no memory.
    pub fn set(&mut self, name: &Name, order: u8, text: Text)
        requires { 0 < self.old.spare }
        ensures { self.new.notes
            ≡ record { name = name.now; order = order; text = text } ∷ self.old.notes }
    {
        self.notes.add(name, order, &text);
        let _ = self.texts.insert((*name, order), text);
    }

    /// The newest text of a player at a card; the empty one if none was set.
    fn text(&self, alloc: Global, name: &Name, order: u8) -> Result<Text, AllocError>
        ensures { IfOk result (λ text. text ≡ text_at name.now order self.now.notes) }
    {
        match self.texts.get(&(*name, order)) {
            Some(text) => Text::copy_of(alloc, text.as_str()),
            None => Text::copy_of(alloc, ""),
        }
    }

    /// The texts of a player at the cards of a deck of this size.
    fn list(&self, alloc: Global, name: &Name, size: u8) -> Result<Texts, AllocError>
        ensures { IfOk result (λ texts. texts ≡
            map (λ order. text_at name.now order self.now.notes) (range_with_len 0 size)) }
    {
        let mut texts = Texts::new(alloc);
        for order in 0..size {
            texts.push(self.text(alloc, name, order)?)?;
        }
        Ok(texts)
    }

    /// The notes as a replay has them: no lists if no note was set, else one for each of the
    /// players, with a text for each card of a deck of this size.
    ///
    /// It takes time and memory in proportion to the lists.
    pub fn lists(&self, alloc: Global, names: &[Name], size: u8) -> Result<Notes, AllocError>
        ensures { IfOk result (λ lists. lists ≡ note_lists names.now size self.now.notes) }
    {
        let mut lists = Notes::new(alloc);
        if self.texts.is_empty() {
            return Ok(lists);
        }
        for name in names {
            lists.push(self.list(alloc, name, size)?)?;
        }
        Ok(lists)
    }
}
