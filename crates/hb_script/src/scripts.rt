//! What is a script?

use hb_club::Shoe;
use hb_io::Sequence;
use hb_talk::ScriptLine;

/// A script: the shoe that its first lines give, and its further lines.
#[derive(Debug, Drop)]
pub struct Script {
    /// The seed, and the deck if one is written.
    pub shoe: Shoe,
    /// The lines behind those of the seed and of the deck, in order.
    pub lines: Sequence<ScriptLine>,
}

/// Why a text is no script.
#[derive(Clone, Copy, PartialEq, Eq, Debug)]
pub enum ScriptError {
    /// The line with this number, from 1, is the first outside the grammar.
    Line(usize),
    /// Memory ran out.
    NoMemory,
}
