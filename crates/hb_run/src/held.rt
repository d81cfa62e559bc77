//! What does a run hold between its lines?

ghost use Rattle.std.specs.Prelude.{◌≡◌, ◌+◌};
ghost use Rattle.std.specs.Vec.{vec_len};
ghost use Rattle.hb_talk.specs.declared.scripts.TheConstants.{MOST_CONNECTION};

use hb_desk::Desk;

/// A run of lines that goes on: the session of each connection, by its number, whether the keeper
/// met a fault, and how many bytes of texts the sessions have sent.
#[derive(Drop)]
pub struct ScriptRun {
    pub(crate) desks: Vec<Desk>,
    pub(crate) failed: bool,
    /// The greatest number, if it is as many or more.
    pub(crate) bytes: u64,
    ghost all_connections: { vec_len desks ≡ MOST_CONNECTION + 1 },
}
