//! What is written of an opening and of a start?

ghost use Rattle.std.specs.Prelude.{◌≡◌, ℕ, ◌*◌, ◌++◌, ◌∷◌, [], List, Option, Some, OnOk, IfOk, filter_map};
ghost use Rattle.hb_club.specs.declared.items.What.TheVariants as what;
ghost use Rattle.hb_club.specs.TableRecord.{HasSeat};
ghost use Rattle.hb_club.specs.Views.{blind_of};
ghost use Rattle.hb_turns.specs.GameInvariant.{IsPlayed};
ghost use Rattle.hb_wire.specs.Lines.{game_line};
ghost use Rattle.hb_view.specs.declared.cursors.Cursor.{Cursor as Kept};
ghost use Rattle.hb_view.specs.StreamClocks.{clock_if as clock_if_of, clock_texts, IsClock};
ghost use Rattle.hb_view.specs.GameTexts.{piece_lines};
ghost use Rattle.hb_view.specs.Writing.{Writes};

use crate::acted::blind_for;
use crate::clocks::Clock;
use crate::cursors::Cursor;
use crate::events::push_deal;
use crate::standing::{clock_if, push_standing};
use crate::texts::push_line;
use hb_club::{Answered, PLACES, Viewer};
use hb_io::{Name, Text, Texts};
use hb_rules::Options;
use hb_timer::Timing;
use hb_turns::Game;
use hb_wire::{WireLine, game_text};
use std::alloc::{AllocError, Global};

/// How many milliseconds a second has.
const SECOND: u64 = 1000;

/// Writes an opening.
pub(crate) fn write_opened(
    out: &mut Texts,
    alloc: Global,
    a: &Answered,
    host: Name,
) -> Result<(), AllocError>
    ensures { OnOk result ((c : Kept) (moment : ℕ) → Writes a.now
        (record { moment = moment; what = what.Opened host }) c c out.old out.new) }
{
    let Some(head) = &a.head else {
        return Ok(());
    };
    let variant = Text::copy_of(alloc, head.name.as_str())?;
    let line = WireLine::Opened {
        host,
        variant,
        options: head.options,
    };
    push_line(out, alloc, &line)
}

/// Appends a name, if there is one.
fn push_name(texts: &mut Texts, alloc: Global, name: Option<Name>) -> Result<(), AllocError>
    ensures { OnOk result (texts.new
        ≡ texts.old ++ filter_map (λ (name : Option (List ℕ)). name) (name ∷ [])) }
{
    match name {
        Some(name) => texts.push(Text::copy_of(alloc, name.as_str())?),
        None => Ok(()),
    }
}

/// The names that are there, as texts.
fn names_of(alloc: Global, names: &[Option<Name>]) -> Result<Texts, AllocError>
    ensures { IfOk result (λ texts.
        texts ≡ filter_map (λ (name : Option (List ℕ)). name) names.now) }
{
    let mut texts = Texts::new(alloc);
    for name in names {
        push_name(&mut texts, alloc, *name)?;
    }
    Ok(texts)
}

/// Appends the text that begins a game.
pub(crate) fn push_game(
    out: &mut Texts,
    alloc: Global,
    name: &str,
    options: &Options,
    players: &[Text],
) -> Result<(), AllocError>
    ensures { OnOk result
        (out.new ≡ out.old ++ game_line name.now options.now players.now ∷ []) }
{
    let text = game_text(alloc, name, options, players)?;
    out.push(Text::from_string(text))
}

/// The clock of a game that starts at a moment.
fn start_clock(game: &Game, moment: u64) -> Clock
    ensures clock { IsClock (record {
      base = game.now.setup.options.base_s * SECOND;
      per_turn = game.now.setup.options.per_turn_s * SECOND;
      seats = game.now.setup.players;
      first = game.now.setup.options.starting;
      start = moment;
    }) [] result }
    ensures played { IsPlayed game.now }
{
    let seats = game.players();
    let options = game.options();
    Clock::start(Timing {
        base: u64::from(options.base_s) * SECOND,
        per_turn: u64::from(options.per_turn_s) * SECOND,
        seats,
        first: options.starting,
        start: moment,
    })
}

/// The game before its first act.
fn start_of(game: &Game) -> Game
    ensures { result ≡ record { setup = game.now.setup; past = [] } }
{
    game.prefix(0)
}

/// Appends the texts of a deal, and of how the game then stands.
fn push_start(
    out: &mut Texts,
    alloc: Global,
    viewer: Viewer,
    game: &Game,
    clock: Clock,
    moment: u64,
) -> Result<(), AllocError>
    requires { game.now.past ≡ [] }
    ensures { HasSeat viewer → OnOk result (out.new
        ≡ out.old ++ piece_lines (blind_of viewer game.now.setup.players) game.now
        (clock_texts (clock_if_of game.now.setup.options.timed (Some clock))
        game.now.setup.players moment)) }
{
    let blind = blind_for(viewer, game.players());
    let clock = clock_if(game.options().timed, Some(clock));
    push_deal(out, alloc, blind, game)?;
    push_standing(out, alloc, blind, game, clock, moment)
}

/// Writes a start.
pub(crate) fn write_started(
    out: &mut Texts,
    alloc: Global,
    a: &Answered,
    next: &mut Cursor,
    names: &[Option<Name>; PLACES],
    moment: u64,
) -> Result<(), AllocError>
    ensures { OnOk result (Writes a.now
        (record { moment = moment; what = what.Started names.now })
        next.old next.new out.old out.new) }
{
    let players = names_of(alloc, names)?;
    let Some(head) = &a.head else {
        return Ok(());
    };
    push_game(
        out,
        alloc,
        head.name.as_str(),
        &head.options,
        players.as_slice(),
    )?;
    let Some(whole) = &a.game else {
        return Ok(());
    };
    let game = start_of(whole);
    let clock = start_clock(whole, moment);
    push_start(out, alloc, next.viewer, &game, clock, moment)?;
    next.game = Some(game);
    next.clock = Some(clock);
    Ok(())
}
