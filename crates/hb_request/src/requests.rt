//! What may a connection ask?

use hb_io::Text;

/// A clue, as a request says it.
#[derive(Clone, Copy, PartialEq, Eq, Debug)]
pub enum WireClue {
    /// The colour with this index among the variant's clue colours, 0 to 5.
    Color(u8),
    /// The rank, 1 to 5.
    Rank(u8),
}

/// An action of a review, as a request says it. Its numbers are 0 to 255.
#[derive(Clone, Copy, PartialEq, Eq, Debug)]
pub enum WireAction {
    /// Plays the card with this order.
    Play { order: u8 },
    /// Discards the card with this order.
    Discard { order: u8 },
    /// Gives a colour clue to a seat.
    Color { to: u8, index: u8 },
    /// Gives a rank clue to a seat.
    Rank { to: u8, rank: u8 },
}

/// What is asked of a table.
#[derive(Clone, Debug, Drop)]
pub enum Ask {
    /// To open it, with these options.
    Open {
        /// The name of a variant.
        variant: Text,
        /// A clue may touch no card.
        empty_clues: bool,
        /// Each hand has one card more.
        extra_card: bool,
        /// Each hand has one card less. Not both card options are set.
        less_card: bool,
        /// The game is timed.
        timed: bool,
        /// The seconds that each seat has at the start: at most 1,000,000, and 120 if the game is
        /// not timed.
        base_s: u32,
        /// The seconds that a seat gains by each turn: at most 1,000,000, and 20 if the game is not
        /// timed.
        per_turn_s: u32,
    },
    /// To take a seat.
    Sit,
    /// To leave the seat.
    Rise,
    /// To start the game.
    Start,
    /// To play the card with this order, 0 to 59.
    Play {
        order: u8,
    },
    /// To discard the card with this order, 0 to 59.
    Discard {
        order: u8,
    },
    /// To give a clue to a seat, 0 to 5.
    Clue {
        to: u8,
        clue: WireClue,
    },
    /// To note a text at the card with this order, 0 to 59.
    Note {
        order: u8,
        text: Text,
    },
    /// To stop the clock.
    Pause,
    /// To let the clock run again.
    Resume,
    /// To end the game.
    Terminate,
    /// To watch, as the seat 0 to 5 sees it or as a guest of no seat.
    Watch {
        shadow: Option<u8>,
    },
    /// To watch no more.
    Leave,
    /// To review the kept game with this id, 1 to 2^53.
    Load {
        id: u64,
    },
    /// To review the game from this turn on.
    Go {
        turn: u16,
    },
    /// To take an action in the review.
    Hypo {
        action: WireAction,
    },
    /// To take the last action of the review back.
    Undo,
    /// To close it.
    Close,
}

/// What a connection may ask.
#[derive(Clone, Debug, Drop)]
pub enum Request {
    /// To be known by this name, which this key of 1 to 64 bytes keeps.
    Hello {
        name: Text,
        key: Text,
    },
    /// To look at a room.
    Look {
        room: u32,
    },
    /// To do something at a table of a room. The table and the request's number are from 1 up.
    Room {
        room: u32,
        table: u32,
        number: u32,
        ask: Ask,
    },
}
