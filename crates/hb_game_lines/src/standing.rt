//! How does a game stand, in the line of its state and the lines of all hands?

ghost use Rattle.std.specs.Prelude.{◌≡◌, ℕ, ◌++◌, IfOk, OnErr, OnOk, map, string_bytes};
ghost use Rattle.std.specs.List.{range_with_len};
ghost use Rattle.hb_rules.specs.Cards.{suit_count};
ghost use Rattle.hb_rules.specs.Observed.{observed};
ghost use Rattle.hb_rules.specs.Positions.{height};
ghost use Rattle.hb_wire.specs.Lines.{state_line as state_line_of};
ghost use Rattle.hb_game_lines.specs.Begins.{BeginsWith};
ghost use Rattle.hb_game_lines.specs.HandLines.{hand_lines_of};
ghost use Rattle.hb_game_lines.specs.Standing.{seen_state, standing_text, state_of};

use crate::hands::hand_line;
use crate::lines::push_line;
use arrayvec::ArrayVec;
use hb_io::Bytes;
use hb_rules::MOST_SUITS;
use hb_sight::Blind;
use hb_suits::suit_count;
use hb_turns::Game;
use hb_wire::{State, state_text};
use std::alloc::{AllocError, Global};

/// The heights of the suits, in suit order.
fn stacks(game: &Game) -> ArrayVec<u8, MOST_SUITS>
    ensures { result.items
        ≡ map (height game.now) (range_with_len 0 (suit_count game.now.setup.variant)) }
{
    let mut heights = ArrayVec::new();
    for suit in 0..suit_count(game.variant()) {
        heights.push(game.stack(suit));
    }
    heights
}

/// How a game stands. It can be read off what any blind set has observed.
pub fn state_of(game: &Game) -> State
    ensures is { result ≡ state_of game.now }
    ensures seen { (blind : ℕ) → result ≡ seen_state (observed blind game.now) }
{
    State {
        current: game.current(),
        deck: game.left(),
        score: game.score(),
        stacks: stacks(game),
        strikes: game.strikes(),
        tokens: game.tokens(),
        turn: game.act_count() as u8,
    }
}

/// The line of a game's state. It can be read off what any blind set has observed.
pub fn state_line(alloc: Global, game: &Game) -> Result<String, AllocError>
    ensures { IfOk result (λ s. (blind : ℕ) →
        string_bytes s ≡ state_line_of (seen_state (observed blind game.now))) }
{
    state_text(alloc, &state_of(game))
}

/// Appends the lines of all hands, in order of seats, for a viewer with this blind set.
fn push_hands(out: &mut Bytes, alloc: Global, blind: Blind, game: &Game) -> Result<(), AllocError>
    ensures written { OnOk result
        (out.new ≡ out.old ++ hand_lines_of (observed blind.bits game.now)) }
    ensures kept { OnErr result (BeginsWith out.new out.old) }
{
    for seat in 0..game.players() {
        let line = hand_line(alloc, game, blind, seat)?;
        push_line(out, &line)?;
    }
    Ok(())
}

/// Appends the line of a game's state and a line for each hand, in order of seats, for a viewer
/// with this blind set. If memory runs out, `out` may hold a part of them.
pub fn push_standing(
    out: &mut Bytes,
    alloc: Global,
    blind: Blind,
    game: &Game,
) -> Result<(), AllocError>
    ensures written { OnOk result
        (out.new ≡ out.old ++ standing_text (observed blind.bits game.now)) }
    ensures kept { OnErr result (BeginsWith out.new out.old) }
{
    let line = state_line(alloc, game)?;
    push_line(out, &line)?;
    push_hands(out, alloc, blind, game)
}
