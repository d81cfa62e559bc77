//! What lines does a viewer read of a game: its first, and one for each event that it sees?

ghost use Rattle.std.specs.Prelude.{◌≡◌, ◌++◌, codes, OnErr, OnOk};
ghost use Rattle.std.specs.Option.{option_to_list};
ghost use Rattle.hb_rules.specs.Events.{blank, blanked, deal};
ghost use Rattle.hb_rules.specs.Observed.{observed};
ghost use Rattle.hb_sight.specs.ActEvents.{event_list};
ghost use Rattle.hb_wire.specs.Lines.{event_line, event_lines, game_line};
ghost use Rattle.hb_game_lines.specs.Begins.{BeginsWith};

use crate::lines::push_line;
use hb_io::{Bytes, Text};
use hb_rules::{Event, Options};
use hb_sight::{ActEvents, Blind, dealt_event, next_events};
use hb_turns::Game;
use hb_wire::{event_text, game_text};
use std::alloc::{AllocError, Global};

/// Appends the line that begins a game: its options, with the variant by its name, and its players.
/// If memory runs out, `out` may hold a part of it.
pub fn push_game(
    out: &mut Bytes,
    alloc: Global,
    name: &str,
    options: &Options,
    players: &[Text],
) -> Result<(), AllocError>
    ensures written { OnOk result
        (out.new ≡ out.old ++ (game_line name.now options.now players.now ++ codes "\n")) }
    ensures kept { OnErr result (BeginsWith out.new out.old) }
{
    let line = game_text(alloc, name, options, players)?;
    push_line(out, &line)
}

/// Appends the line of an event as the blind set sees it.
fn push_event(out: &mut Bytes, alloc: Global, blind: Blind, event: Event) -> Result<(), AllocError>
    ensures written { OnOk result
        (out.new ≡ out.old ++ (event_line (blanked blind.bits event) ++ codes "\n")) }
    ensures kept { OnErr result (BeginsWith out.new out.old) }
{
    let line = event_text(alloc, &blind.blank(event))?;
    push_line(out, &line)
}

/// Appends the line of an event, if there is one.
fn push_some(
    out: &mut Bytes,
    alloc: Global,
    blind: Blind,
    event: Option<Event>,
) -> Result<(), AllocError>
    ensures written { OnOk result
        (out.new ≡ out.old ++ event_lines (blank blind.bits (option_to_list event))) }
    ensures kept { OnErr result (BeginsWith out.new out.old) }
{
    match event {
        Some(event) => push_event(out, alloc, blind, event),
        None => Ok(()),
    }
}

/// Appends the lines of an act's events.
fn push_act(out: &mut Bytes, alloc: Global, blind: Blind, told: ActEvents) -> Result<(), AllocError>
    ensures written { OnOk result
        (out.new ≡ out.old ++ event_lines (blank blind.bits (event_list told))) }
    ensures kept { OnErr result (BeginsWith out.new out.old) }
{
    let ActEvents {
        act,
        draw,
        end,
        deck,
    } = told;
    push_some(out, alloc, blind, act)?;
    push_some(out, alloc, blind, draw)?;
    push_some(out, alloc, blind, end)?;
    push_some(out, alloc, blind, deck)
}

/// Appends the lines of the deal.
fn push_deal(out: &mut Bytes, alloc: Global, blind: Blind, game: &Game) -> Result<(), AllocError>
    ensures written { OnOk result
        (out.new ≡ out.old ++ event_lines (blank blind.bits (deal game.now.setup))) }
    ensures kept { OnErr result (BeginsWith out.new out.old) }
{
    for order in 0..game.dealt() {
        push_event(out, alloc, blind, dealt_event(game, order))?;
    }
    Ok(())
}

/// Appends the lines of all events of a game as the blind set sees them. If memory runs out, `out`
/// may hold a part of them.
pub fn push_events(
    out: &mut Bytes,
    alloc: Global,
    blind: Blind,
    game: &Game,
) -> Result<(), AllocError>
    ensures written { OnOk result
        (out.new ≡ out.old ++ event_lines (observed blind.bits game.now).events) }
    ensures kept { OnErr result (BeginsWith out.new out.old) }
{
    push_deal(out, alloc, blind, game)?;
    let mut now = game.prefix(0);
    for i in 0..game.act_count() {
        let told = next_events(&mut now, game.act_at(i));
        push_act(out, alloc, blind, told)?;
    }
    Ok(())
}
