//! Which limits have rooms and the lobby? Each is named once. All are this project's own.

/// With this many kept numbers at a table, a member's further commands are refused there, except
/// those that [`MOST_KEPT_NUMBERS`] is for.
pub const KEPT_NUMBERS: usize = 512;

/// With this many kept numbers at a table, a member's starts, acts, resumes, terminations and
/// closings are refused there too.
pub const MOST_KEPT_NUMBERS: usize = 640;

/// The most bytes of a note.
pub const NOTE_LIMIT: usize = 512;

/// The most watchers of a table.
pub const MOST_WATCHERS: usize = 32;

/// The most names that the lobby binds.
pub const MOST_NAMES: usize = 256;
