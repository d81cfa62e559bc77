//! How does a call keep what it is asked? A turnstile is handed a call whole.

ghost use Rattle.std.specs.Prelude.{◌≡◌, IfOk};

use hb_club::{ClerkNote, Entry, LobbyEntry};
use hb_io::Text;
use std::alloc::{AllocError, Global};

/// A copy of the entry of a member.
pub(crate) fn copy_of_entry(entry: &Entry) -> Result<Entry, AllocError>
    ensures { IfOk result (λ copy. copy ≡ entry.now) }
{
    entry.clone()
}

/// A copy of an entry of the lobby.
pub(crate) fn copy_of_lobby_entry(entry: &LobbyEntry) -> Result<LobbyEntry, AllocError>
    ensures { IfOk result (λ copy. copy ≡ entry.now) }
{
    entry.clone()
}

/// A copy of a note of the clerk.
pub(crate) fn copy_of_note(alloc: Global, note: &ClerkNote) -> Result<ClerkNote, AllocError>
    ensures { IfOk result (λ copy. copy ≡ note.now) }
{
    match note {
        ClerkNote::Saved { table, id } => Ok(ClerkNote::Saved {
            table: *table,
            id: *id,
        }),
        ClerkNote::Loaded { table, id, text } => Ok(ClerkNote::Loaded {
            table: *table,
            id: *id,
            text: copy_of_text(alloc, text)?,
        }),
    }
}

/// A copy of a text, if there is one.
fn copy_of_text(alloc: Global, text: &Option<Text>) -> Result<Option<Text>, AllocError>
    ensures { IfOk result (λ copy. copy ≡ text.now) }
{
    match text {
        None => Ok(None),
        Some(text) => Ok(Some(Text::copy_of(alloc, text.as_str())?)),
    }
}
