//! Which events does a blind set see, and how many are there?

use crate::games::{color, discard, end, in_order, play};
use hb_rules::EndHow;
use hb_sight::{Blind, dealt_event, event_at, event_count, events_before, next_events};
use hb_turns::Game;
use std::test::Fail;

/// Seat 0 plays an a1, is clued its cards of suit a, and discards the b1 that it drew.
fn three_acts(rt: &HostRuntime) -> Result<Game, Fail> {
    in_order(rt, &[play(0), color(0, 0), discard(10)])
}

#[test]
fn a_blind_set_sees_its_observation(rt: HostRuntime) -> Result<(), Fail> {
    let game = three_acts(&rt)?;
    let blind = Blind::none().with(0);
    for (k, want) in [
        (0, "Some(Drawn { seat: 0, order: 0, id: None })"),
        (
            5,
            "Some(Drawn { seat: 1, order: 5, id: Some(Identity { suit: 0, rank: 3 }) })",
        ),
        (
            10,
            "Some(Played { seat: 0, order: 0, id: Identity { suit: 0, rank: 1 }, fits: true })",
        ),
        (11, "Some(Drawn { seat: 0, order: 10, id: None })"),
        (
            12,
            "Some(Clued { from: 1, to: 0, clue: Color(0), touched: 30 })",
        ),
        (
            13,
            "Some(Discarded { seat: 0, order: 10, id: Identity { suit: 1, rank: 1 } })",
        ),
        (14, "Some(Drawn { seat: 0, order: 11, id: None })"),
        (15, "None"),
    ] {
        let told = format!(in rt.alloc(); "{:?}", event_at(&game, k, blind))?;
        assert_eq!(rt; told.as_str(), want);
    }
    Ok(())
}

#[test]
fn events_are_counted(rt: HostRuntime) -> Result<(), Fail> {
    let game = three_acts(&rt)?;
    assert!(rt; event_count(&game) == 15 && events_before(&game, 0) == 10);
    assert!(rt; game.act_count() > 1);
    assert!(rt; events_before(&game, 1) == 12 && events_before(&game, 2) == 13);
    Ok(())
}

#[test]
fn the_next_act_has_its_events(rt: HostRuntime) -> Result<(), Fail> {
    let game = in_order(&rt, &[end(EndHow::Timeout)])?;
    assert!(rt; game.act_count() > 0 && game.dealt() > 9);
    let dealt = dealt_event(&game, 9);
    let mut now = game.prefix(0);
    let told = next_events(&mut now, game.act_at(0));
    assert!(rt; told.count() == 2);
    let told = format!(in rt.alloc(); "{dealt:?} {:?}", told.nth(0))?;
    assert_eq!(rt;
        told.as_str(),
        "Drawn { seat: 1, order: 9, id: Some(Identity { suit: 0, rank: 5 }) } \
         Some(Ended { how: Timeout, by: Some(0), score: 0 })"
    );
    Ok(())
}

#[test]
fn seats_are_blind(rt: HostRuntime) {
    let (one, all) = (Blind::none().with(2), Blind::all(3));
    assert!(rt; one.has(2) && !one.has(1) && all.has(2) && !all.has(3) && !Blind::none().has(0));
}
