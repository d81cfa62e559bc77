//! Which act is taken next in a made game?

ghost use Rattle.std.specs.Prelude.{◌≡◌, None};
ghost use Rattle.std.specs.List.{find};
ghost use Rattle.hb_rules.specs.Positions.{current, ended, fits, rule};
ghost use Rattle.hb_rules.specs.Setup.{by};
ghost use Rattle.hb_turns.specs.GameInvariant.{IsPlayed};
ghost use Rattle.hb_script.specs.MadeActs.{fitting_play as fitting_play_of, lowest as lowest_of, lowest_discard as lowest_discard_of, made_action, may_clue as may_clue_at, rank_clue as rank_clue_of};
ghost use Rattle.hb_script.specs.MadeScripts.{no_variant};

use hb_rules::{Action, Clue, EndHow, FULL_TOKENS};
use hb_turns::Game;

/// The order of a seat's lowest card.
fn lowest(game: &Game, seat: u8) -> Option<u8>
    ensures { result ≡ lowest_of game.now seat }
{
    let hand = game.hand(seat);
    hand.as_slice().first().copied()
}

/// The first of some orders that fits.
fn fitting(game: &Game, orders: &[u8]) -> Option<u8>
    ensures { result ≡ find (fits game.now) orders.now }
{
    orders.iter().copied().find(|order| game.fits(*order))
}

/// To play the lowest card of the hand that fits.
fn fitting_play(game: &Game) -> Option<Action>
    ensures is { result ≡ fitting_play_of game.now }
    ensures played { IsPlayed game.now }
{
    let hand = game.hand(game.seat());
    match fitting(game, hand.as_slice()) {
        Some(order) => Some(Action::Play { order }),
        None => None,
    }
}

/// Whether a clue is chosen, if nothing fits: at an even turn with a token held, or with all tokens
/// held.
fn may_clue(game: &Game) -> bool
    requires { ended game.now ≡ None }
    ensures { result ≡ may_clue_at game.now }
{
    let is_even = game.act_count() % 2 == 0;
    (is_even && game.tokens() > 0) || game.tokens() == FULL_TOKENS
}

/// To clue the rank of the next seat's lowest card.
fn rank_clue(game: &Game) -> Option<Action>
    requires { ended game.now ≡ None }
    ensures { result ≡ rank_clue_of game.now }
{
    if !may_clue(game) {
        return None;
    }
    let players = game.players();
    let to = (game.seat() + 1) % players;
    match lowest(game, to) {
        Some(order) => Some(Action::Clue {
            to,
            clue: Clue::Rank(game.card(order).rank),
        }),
        None => None,
    }
}

/// To discard the lowest card of the hand, unless all tokens are held.
fn lowest_discard(game: &Game) -> Option<Action>
    ensures { result ≡ lowest_discard_of game.now }
{
    if game.tokens() >= FULL_TOKENS {
        return None;
    }
    match lowest(game, game.seat()) {
        Some(order) => Some(Action::Discard { order }),
        None => None,
    }
}

/// The action that the seat whose turn it is takes next. It breaks no rule.
pub fn next_action(game: &Game) -> Action
    requires runs { ended game.now ≡ None }
    requires variant { game.now.setup.variant ≡ no_variant }
    ensures is { result ≡ made_action game.now }
    ensures legal { rule game.now (by (current game.now) result) ≡ None }
{
    if let Some(play) = fitting_play(game) {
        return play;
    }
    if let Some(clue) = rank_clue(game) {
        return clue;
    }
    match lowest_discard(game) {
        Some(discard) => discard,
        None => Action::End {
            how: EndHow::Terminated,
        },
    }
}
