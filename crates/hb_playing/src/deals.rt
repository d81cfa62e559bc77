//! Which game is dealt at a table?

ghost use Rattle.std.specs.Prelude.{◌≡◌, ◌*◌, ◌+◌, ◌^◌, ℕ, IfOk, IfErr};
ghost use Rattle.hb_rules.specs.Cards.{cards, IsDeck};
ghost use Rattle.hb_rules.specs.Start.{started};
ghost use Rattle.hb_deck.specs.Shuffle.{shuffle_of};
ghost use Rattle.hb_club.specs.TableFacts.{deck_by};
ghost use Rattle.hb_playing.specs.RoomDeals.{IsDealt, IsNoStart, IsNotDealt, site_with};

use hb_club::Shoe;
use hb_deck::{is_deck, shuffled};
use hb_io::Text;
use hb_rules::{Identity, Options, StartError, Variant};
use hb_suits::variant;
use hb_turns::Game;
use std::alloc::{AllocError, Global};

/// Why no game is dealt, in the order in which the causes are tried, except `NoMemory`, which may
/// come at any point.
#[derive(Clone, Copy, PartialEq, Eq, Debug)]
pub enum DealError {
    /// 1: the name is not that of a variant.
    Variant,
    /// 2: there are not 2 to 6 players.
    Players,
    /// 3: a game of so many players may not start with the options.
    Options,
    /// 4: memory ran out.
    NoMemory,
}

impl From<AllocError> for DealError {
    ghost use Rattle.hb_playing.specs.declared.deals.DealError.TheVariants as cause;

    ghost from_gives = { λ _ error. error ≡ cause.NoMemory };

    fn from(_: AllocError) -> Self {
        DealError::NoMemory
    }
}

/// The stream of a room's seed for a table.
fn stream_of(room: u32, serial: u32) -> u64
    ensures { result ≡ room * 2 ^ 32 + serial }
{
    u64::from(room) * (1 << 32) + u64::from(serial)
}

/// The game of a deck of the variant, before its first act.
fn start(
    variant: &Variant,
    options: &Options,
    players: usize,
    deck: &[Identity],
) -> Result<Game, DealError>
    requires { IsDeck variant.now deck.now }
    ensures started { IfOk result (λ game.
        game ≡ started variant.now options.now players deck.now) }
    ensures refused { IfErr result (IsNoStart options.now players) }
{
    let Ok(players) = u8::try_from(players) else {
        return Err(DealError::Players);
    };
    match Game::start(variant, options, players, deck) {
        Ok(game) => Ok(game),
        Err(StartError::Players) => Err(DealError::Players),
        Err(StartError::BadOptions) => Err(DealError::Options),
        Err(StartError::NotADeck) => unreachable!(),
    }
}

/// The game of the deck that a seed gives for a stream.
fn deal_shuffled(
    alloc: Global,
    seed: &[u8; 32],
    stream: u64,
    variant: &Variant,
    options: &Options,
    players: usize,
) -> Result<Game, DealError>
    ensures started { IfOk result (λ game. game ≡
        started variant.now options.now players (shuffle_of (cards variant.now) seed.now stream)) }
    ensures refused { IfErr result (IsNoStart options.now players) }
{
    let deck = shuffled(alloc, variant, seed, stream)?;
    start(variant, options, players, deck.as_slice())
}

/// The game of the written deck, if there is one and it is a deck of the variant, else of the one
/// that the seed gives for the room and the table.
fn deal_variant(
    alloc: Global,
    shoe: &Shoe,
    room: u32,
    serial: u32,
    variant: &Variant,
    options: &Options,
    players: usize,
) -> Result<Game, DealError>
    ensures started { IfOk result (λ game. (run : ℕ)
        → game ≡ started variant.now options.now players
        (deck_by shoe.now.written (site_with shoe.now room run) variant.now serial)) }
    ensures refused { IfErr result (IsNoStart options.now players) }
{
    let stream = stream_of(room, serial);
    match &shoe.written {
        Some(deck) => {
            if is_deck(variant, deck.as_slice()) {
                start(variant, options, players, deck.as_slice())
            } else {
                deal_shuffled(alloc, &shoe.seed, stream, variant, options, players)
            }
        }
        None => deal_shuffled(alloc, &shoe.seed, stream, variant, options, players),
    }
}

/// The game that a room deals at a table of so many players, which was opened with a variant's name
/// and options: from the written deck of the shoe, if there is one and it is a deck of the variant,
/// else from the deck that the shoe's seed gives for the room and the table.
///
/// It is refused as [`DealError`] says. The deck is never a cause.
pub fn deal(
    alloc: Global,
    shoe: &Shoe,
    room: u32,
    serial: u32,
    name: &Text,
    options: &Options,
    players: usize,
) -> Result<Game, DealError>
    ensures dealt { IfOk result (λ game. (run : ℕ)
        → IsDealt (site_with shoe.now room run) serial (name.now, options.now) players game) }
    ensures refused { IfErr result (IsNotDealt (name.now, options.now) players) }
{
    match variant(name.as_str()) {
        Ok(variant) => deal_variant(alloc, shoe, room, serial, &variant, options, players),
        Err(_) => Err(DealError::Variant),
    }
}
