//! What does each command write for a replay?

ghost use Rattle.std.specs.Prelude.{◌≡◌, ◌++◌, ◌<◌, ◌≤◌, ◌⊎◌, codes, length, IfErr, IfOk, IsFalse, IsTrue};
ghost use Rattle.hb_replay.specs.Canonical.{canonical_text};
ghost use Rattle.hb_cli.specs.Outputs.{after_first, check_text as text_of_check, has_view as has_view_of, only as only_of, output as output_of, seen_by, watch_text as text_of_watch};
ghost use Rattle.hb_game_lines.specs.Standing.{standing_text};

use crate::status::Stop;
use hb_game_lines::{push_events, push_game, push_standing};
use hb_io::{Bytes, Text};
use hb_replay::{Replay, write};
use hb_rules::{EndHow, MOST_PLAYERS};
use hb_sight::Blind;
use hb_turns::Game;
use hb_words::ReplayCommand;
use std::alloc::{AllocError, Global};

/// The blind set of one seat.
fn only(seat: u8) -> Blind
    requires { seat < MOST_PLAYERS }
    ensures { result.bits ≡ only_of seat }
{
    Blind::none().with(seat)
}

/// The game has the seat and the acts that the command asks for.
fn has_view(command: ReplayCommand, game: &Game) -> bool
    ensures { result ≡ has_view_of command game.now }
{
    match command {
        ReplayCommand::Watch { seat } => seat < game.players(),
        ReplayCommand::Look { seat, turn } => {
            seat < game.players() && usize::from(turn) <= game.act_count()
        }
        ReplayCommand::Check | ReplayCommand::Copy => true,
    }
}

/// What `watch` writes of a game with these names of its variant and its players.
fn watch_text(
    alloc: Global,
    name: &str,
    players: &[Text],
    game: &Game,
    seat: u8,
) -> Result<Bytes, AllocError>
    requires { seat < MOST_PLAYERS }
    ensures { IfOk result (λ text.
        text ≡ text_of_watch name.now players.now (seen_by seat game.now)) }
{
    let mut out = Bytes::new(alloc);
    push_game(&mut out, alloc, name, game.options(), players)?;
    push_events(&mut out, alloc, only(seat), game)?;
    Ok(out)
}

/// What `look` writes of a game.
fn look_text(alloc: Global, game: &Game, seat: u8, turn: u8) -> Result<Bytes, AllocError>
    requires seat { seat < MOST_PLAYERS }
    requires turn { turn ≤ length game.now.past }
    ensures { IfOk result (λ text.
        text ≡ standing_text (seen_by seat (after_first turn game.now))) }
{
    let mut out = Bytes::new(alloc);
    let then = game.prefix(usize::from(turn));
    push_standing(&mut out, alloc, only(seat), &then)?;
    Ok(out)
}

/// What `check` writes of a game.
fn check_text(alloc: Global, game: &Game) -> Result<Bytes, AllocError>
    ensures { IfOk result (λ text. text ≡ text_of_check game.now) }
{
    let players = game.players();
    let acts = game.act_count();
    let score = game.score();
    let end = game.ended().map_or(0, EndHow::number);
    let line = format!(in alloc; "ok {players} {acts} {score} {end}\n")?;
    Ok(Bytes::from_vec(line.into_bytes()))
}

/// What `copy` writes of a replay.
fn copy_text(alloc: Global, replay: &Replay) -> Result<Bytes, AllocError>
    ensures { IfOk result (λ text. text ≡ canonical_text replay.now ++ codes "\n") }
{
    let mut out = write(alloc, replay)?;
    out.extend(b"\n")?;
    Ok(out)
}

/// What a command writes for a replay, or that the replay has no such view.
pub fn output(alloc: Global, command: ReplayCommand, replay: &Replay) -> Result<Bytes, Stop>
    ensures text { IfOk result (λ text.
        IsTrue (has_view_of command replay.now.game) × (text ≡ output_of command replay.now)) }
    ensures stop { IfErr result (λ why. (why ≡ Stop.NoMemory)
        ⊎ ((why ≡ Stop.NoSuchView) × IsFalse (has_view_of command replay.now.game))) }
{
    let game = replay.game();
    if !has_view(command, &game) {
        return Err(Stop::NoSuchView);
    }
    let text = match command {
        ReplayCommand::Watch { seat } => {
            let names = replay.players();
            watch_text(
                alloc,
                replay.variant_name().as_str(),
                names.as_slice(),
                &game,
                seat,
            )?
        }
        ReplayCommand::Look { seat, turn } => look_text(alloc, &game, seat, turn)?,
        ReplayCommand::Check => check_text(alloc, &game)?,
        ReplayCommand::Copy => copy_text(alloc, replay)?,
    };
    Ok(text)
}
