//! Do the callers at the heads of hb_turns, hb_sight, hb_empathy and hb_game_lines do what they
//! say?

use crate::games::{cards, color, discard, in_order, play, rank};
use hb_empathy::hand_sets;
use hb_game_lines::{hand_line, push_events, push_game, push_standing, state_line};
use hb_io::{Bytes, Text};
use hb_rules::{Action, Clue, Event, Identity, Options, Variant};
use hb_sight::{Blind, next_events};
use hb_suits::variant;
use hb_turns::Game;
use std::alloc::{AllocError, Global};
use std::test::Fail;

/// The score after seat 0 has clued the 1s of seat 1, and seat 1 has played its oldest card.
fn first_score(variant: &Variant, deck: &[Identity]) -> Option<u8> {
    let mut game = Game::start(variant, &Options::default(), 2, deck).ok()?;
    let clue = Clue::Rank(1);
    game.act(0, Action::Clue { to: 1, clue }).ok()?;
    game.act(1, Action::Play { order: 5 }).ok()?;
    Some(game.score())
}

/// The last card that was drawn, as seat 0 sees it.
fn last_draw(game: &Game) -> Option<Event> {
    let blind = Blind::none().with(0); // seat 0 does not see its own cards
    let mut now = game.prefix(0); // the game after the acts so far
    let mut last = None;
    for i in 0..game.act_count() {
        let events = next_events(&mut now, game.act_at(i));
        last = events.draw.map(|event| blind.blank(event)).or(last);
    }
    last
}

/// How many cards of its own hand seat 1 can name.
fn named_cards(game: &Game) -> usize {
    let blind = Blind::none().with(1); // seat 1 does not see its own cards
    let sets = hand_sets(game, blind, 1);
    let cards = sets.as_slice().iter();
    cards.filter(|(_, set)| set.count_ones() == 1).count()
}

/// What seat 0 is written of a game: its first line, its events, and how it stands now.
fn written(alloc: Global, game: &Game, players: &[Text]) -> Result<Bytes, AllocError> {
    let blind = Blind::none().with(0); // seat 0 does not see its own cards
    let mut out = Bytes::new(alloc);
    push_game(&mut out, alloc, "No Variant", game.options(), players)?;
    push_events(&mut out, alloc, blind, game)?;
    push_standing(&mut out, alloc, blind, game)?;
    Ok(out)
}

#[test]
fn a_first_card_is_clued_and_played(rt: HostRuntime) -> Result<(), Fail> {
    let deck = cards(
        &rt,
        "b2b2b3b3b4a1a1a1a2a2a3a3a4a4a5b1b1b1b4b5c1c1c1c2c2c3c3c4c4c5",
    )?;
    assert!(rt; first_score(&variant("3 Suits")?, deck.as_slice()) == Some(1));
    Ok(())
}

#[test]
fn seat_0_is_told_of_the_last_draw(rt: HostRuntime) -> Result<(), Fail> {
    let own = last_draw(&in_order(&rt, &[play(0)])?);
    let other = last_draw(&in_order(&rt, &[rank(1, 5), discard(5), rank(1, 5)])?);
    let told = format!(in rt.alloc(); "{own:?} {other:?}")?;
    assert_eq!(rt;
        told.as_str(),
        "Some(Drawn { seat: 0, order: 10, id: None }) \
         Some(Drawn { seat: 1, order: 10, id: Some(Identity { suit: 1, rank: 1 }) })"
    );
    Ok(())
}

/// Seat 1 has a3 a3 a4 a4 a5, and sees both a2s and all a1s. So red and 5 leave only a3 and a4 for
/// the other four, and 3 tells which they are.
#[test]
fn seat_1_names_its_cards(rt: HostRuntime) -> Result<(), Fail> {
    let acts = [color(1, 0), rank(0, 1), rank(1, 5), rank(0, 1), rank(1, 3)];
    assert!(rt; named_cards(&in_order(&rt, &acts[..3])?) == 1);
    assert!(rt; named_cards(&in_order(&rt, &acts)?) == 5);
    Ok(())
}

#[test]
fn seat_0_is_written_a_game(rt: HostRuntime) -> Result<(), Fail> {
    let alloc = rt.alloc();
    let game = in_order(&rt, &[play(0)])?;
    let players = [Text::copy_of(alloc, "Ann")?, Text::copy_of(alloc, "Bob")?];
    let out = written(alloc, &game, &players)?;

    // The game, ten cards that were dealt, a play and a draw, the state and two hands.
    let lines = out.as_slice().iter().filter(|byte| **byte == b'\n');
    assert!(rt; lines.count() == 1 + 10 + 2 + 3);
    let blind = Blind::none().with(0);
    assert!(rt; state_line(alloc, &game)?.starts_with("state {\"current\":1,\"deck\":39,"));
    assert!(rt; hand_line(alloc, &game, blind, 1)?.starts_with("hand {\"seat\":1,\"sets\":[[5,"));
    Ok(())
}
