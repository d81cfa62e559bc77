//! Which line has the state of a game?

ghost use Rattle.std.specs.Prelude.{◌≡◌, IfOk, string_bytes};
ghost use Rattle.hb_wire.specs.Lines.{state_line};

use crate::spelling::{push_number, push_seat, push_wholes};
use arrayvec::ArrayVec;
use hb_rules::MOST_SUITS;
use std::alloc::{AllocError, Global};

/// No line of a state of a game is longer, in bytes.
const USUAL_LEN: usize = 112;

/// How a game stands, as its line says it.
#[derive(Drop, Debug)]
pub struct State {
    /// The seat whose turn it is; none after the end.
    pub current: Option<u8>,
    /// The number of cards that are left in the deck.
    pub deck: u8,
    /// The score, 0 to 30.
    pub score: u8,
    /// The heights of the suits, in suit order.
    pub stacks: ArrayVec<u8, MOST_SUITS>,
    /// The strikes, 0 to 3.
    pub strikes: u8,
    /// The clue tokens held, 0 to 8.
    pub tokens: u8,
    /// The number of acts so far.
    pub turn: u8,
}

/// The line of a state, without a line feed.
#[tactic(auto, unfolding(hb_json::specs::Line::line, json::specs::Print::escape_byte))]
pub fn state_text(alloc: Global, state: &State) -> Result<String, AllocError>
    ensures { IfOk result (λ s. string_bytes s ≡ state_line state.now) }
{
    let mut text = String::with_capacity(alloc, USUAL_LEN)?;
    push_seat(&mut text, "state {\"current\":", state.current)?;
    push_number(&mut text, ",\"deck\":", u64::from(state.deck))?;
    push_number(&mut text, ",\"score\":", u64::from(state.score))?;
    push_wholes(&mut text, ",\"stacks\":", &state.stacks)?;
    push_number(&mut text, ",\"strikes\":", u64::from(state.strikes))?;
    push_number(&mut text, ",\"tokens\":", u64::from(state.tokens))?;
    push_number(&mut text, ",\"turn\":", u64::from(state.turn))?;
    text.push('}')?;
    Ok(text)
}
