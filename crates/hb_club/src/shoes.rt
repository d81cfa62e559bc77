//! Where do the decks of rooms come from?

use hb_deck::Deck;

/// A seed, and a deck that may be written. A game is dealt the written deck if that is a deck of
/// its variant, and else one that the seed gives for its room and table.
#[derive(Debug, Drop)]
pub struct Shoe {
    pub seed: [u8; 32],
    pub written: Option<Deck>,
}
