//! What do the rows of the table of refusals read of a table and of a member?

/// What the rows read of the latest table, and of the member who sent an entry.
#[derive(Clone, Copy, PartialEq, Eq, Debug)]
pub struct Facts {
    /// The serial of the latest table; 0 if no table was opened.
    pub latest: u32,
    /// The table was opened, and is not closed.
    pub standing: bool,
    /// The member is its host.
    pub host: bool,
    /// A game was started.
    pub started: bool,
    /// A game was loaded.
    pub loaded: bool,
    /// The member is seated.
    pub seated: bool,
    /// The member watches.
    pub watching: bool,
    /// How many are seated.
    pub seats: usize,
    /// How many watch.
    pub watchers: usize,
    /// The game that was started has ended.
    pub ended: bool,
    /// It is kept.
    pub saved: bool,
    /// A load is pending.
    pub loading: bool,
    /// The table was opened for timed games.
    pub timed: bool,
    /// The clock stands still, and can run again.
    pub paused: bool,
    /// How many cards the deck of the game has; 0 if none was started.
    pub cards: usize,
    /// How many players it has; 0 if none was started.
    pub players: u8,
}
