//! What does a pass know? Values of these types stand in contracts and proofs alone: no code makes
//! one.

use std::collections::LinkedList;

/// One call, with its reply. A history is a list of these.
pub struct Entry<C, R> {
    /// The number of the pass that made the call.
    pub pass: u64,
    /// What the machine was asked.
    pub call: C,
    /// What it answered.
    pub reply: R,
}

/// How far a pass is in a call.
pub(crate) enum Stage {
    /// It was joined into another, and makes no more calls.
    Spent,
    /// It was just split off, and has no number yet.
    New,
    /// It makes no call at present.
    Idle,
    /// It drew this ticket, and waits for it.
    Waiting(u64),
    /// This ticket, which it drew, is served.
    Inside(u64),
}

/// What a pass knows between two steps.
pub(crate) struct View<C, R> {
    /// How far it is in a call.
    pub(crate) stage: Stage,
    /// Its number. Until it gets its own, a new pass has that of the pass that it comes from.
    pub(crate) number: u64,
    /// How much of the history it has seen.
    pub(crate) seen: LinkedList<Entry<C, R>>,
    /// What a pass that was joined into it had seen, until the load after the join.
    pub(crate) joined: LinkedList<Entry<C, R>>,
    /// It, or a pass that it comes from, found that all tickets were given.
    pub(crate) worn: bool,
}
