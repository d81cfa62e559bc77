//! What line does a viewer read of a hand?

ghost use Rattle.std.specs.Prelude.{◌≡◌, ◌<◌, IfOk, string_bytes};
ghost use Rattle.hb_rules.specs.Observed.{observed};
ghost use Rattle.hb_game_lines.specs.HandLines.{hand_line_of};

use hb_empathy::hand_sets;
use hb_rules::MOST_PLAYERS;
use hb_sight::Blind;
use hb_turns::Game;
use hb_wire::hand_text;
use std::alloc::{AllocError, Global};

/// The line of a seat's hand for a viewer with this blind set: each card with the identities that
/// are possible for the viewer's blind set together with the seat. The seat is below
/// [`MOST_PLAYERS`]; the hand of one past the game's seats has no card.
pub fn hand_line(alloc: Global, game: &Game, blind: Blind, seat: u8) -> Result<String, AllocError>
    requires { seat < MOST_PLAYERS }
    ensures { IfOk result (λ s. string_bytes s ≡ hand_line_of (observed blind.bits game.now) seat) }
{
    let cards = hand_sets(game, blind.with(seat), seat);
    hand_text(alloc, seat, cards.as_slice())
}
