//! What is a timer made with, which calls do contracts list, and which limits are there?

/// The most seats that a timer can have. The fewest are two.
pub const MOST_SEATS: usize = 6;

/// The greatest bank and the greatest gain, in milliseconds: some 34 years.
pub const BANK_LIMIT: u64 = 1 << 40;

/// The greatest moment that a timer is made at or accepts, in milliseconds.
pub const MOMENT_LIMIT: u64 = 1 << 53;

/// What a timer is made with. Times and moments are in milliseconds.
#[derive(Clone, Copy, Debug, PartialEq, Eq)]
pub struct Timing {
    /// The bank of each seat before its first turn, at most [`BANK_LIMIT`].
    pub base: u64,
    /// What the bank of a seat gains at the end of each of its turns, at most [`BANK_LIMIT`].
    pub per_turn: u64,
    /// How many seats take turns, from 2 to [`MOST_SEATS`]. They are numbered from 0, and turns go
    /// round by number.
    pub seats: u8,
    /// The seat that has the first turn.
    pub first: u8,
    /// The moment at which the first turn begins, at most [`MOMENT_LIMIT`].
    pub start: u64,
}

/// A call that a timer accepted, with the moment that it named, in milliseconds. Contracts list
/// them.
#[derive(Clone, Copy, Debug, PartialEq, Eq)]
pub enum TimerCall {
    /// The turn ended, and the next seat's turn began.
    TurnEnds(u64),
    /// Time stood still from here on.
    Pauses(u64),
    /// Time ran again.
    Resumes(u64),
    /// Time stood still for good.
    Stops(u64),
}
