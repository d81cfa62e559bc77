//! What does a line of a script say?

use hb_io::Got;

/// The greatest number of a connection of a script. A reader of scripts takes the numbers from 1 to
/// this one, and a run has a session for each.
pub const MOST_CONNECTION: u32 = 256;

/// A line of a script, behind those of its seed and its deck.
#[derive(Debug, Drop)]
pub enum ScriptLine {
    /// The clerk goes through the rooms.
    Clerk { moment: u64 },
    /// A connection gives something.
    Says { moment: u64, conn: u32, got: Got },
}
