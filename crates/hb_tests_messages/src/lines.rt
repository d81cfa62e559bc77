//! The text of each line.

use arrayvec::ArrayVec;
use hb_io::{Name, Text, Texts, name};
use hb_request::{FieldName, WireError};
use hb_rules::{Action, Clue, EndHow, Event, Identity, Options};
use hb_wire::{Role, State, WireLine, print_line};
use std::alloc::{AllocError, Global};
use std::test::Fail;

/// The first of these lines that is not printed as its text.
fn first_wrong(
    alloc: Global,
    cases: &[(WireLine, &'static str)],
) -> Result<Option<&'static str>, AllocError> {
    for (line, want) in cases {
        if print_line(alloc, line)?.as_str() != *want {
            return Ok(Some(*want));
        }
    }
    Ok(None)
}

/// A refusal.
fn refused(code: u8, number: u32, review: Option<u8>, rule: Option<u8>) -> WireLine {
    WireLine::Refused {
        code,
        number,
        review,
        rule,
        table: None,
    }
}

/// How somebody sees table 1 of room 1.
fn viewer(role: Role) -> WireLine {
    WireLine::Viewer {
        role,
        room: 1,
        table: 1,
    }
}

#[test]
fn answers_have_their_texts(rt: HostRuntime) -> Result<(), Fail> {
    let alloc = rt.alloc();
    let error = WireError::UnknownCommand;
    let wrong = WireError::Field(FieldName::Order);
    let ann = name("Ann").unwrap();
    let cases = [
        (WireLine::Welcome { name: ann }, r#"welcome {"name":"Ann"}"#),
        (WireLine::Denied { code: 5 }, r#"denied {"code":5}"#),
        (WireLine::Bad { error }, r#"bad {"code":2}"#),
        (
            WireLine::Bad { error: wrong },
            r#"bad {"code":4,"field":"order"}"#,
        ),
        (WireLine::Ok { number: 4 }, r#"ok {"number":4}"#),
        (
            refused(2, 4, None, None),
            r#"refused {"code":2,"number":4}"#,
        ),
        (
            refused(24, 5, Some(2), Some(1)),
            r#"refused {"code":24,"number":5,"review":2,"rule":1}"#,
        ),
        (
            refused(24, 9, Some(1), None),
            r#"refused {"code":24,"number":9,"review":1}"#,
        ),
        (
            WireLine::Refused {
                code: 1,
                number: 11,
                review: None,
                rule: None,
                table: Some(2),
            },
            r#"refused {"code":1,"number":11,"table":2}"#,
        ),
    ];
    assert_eq!(rt; first_wrong(alloc, &cases)?, None);
    Ok(())
}

#[test]
fn what_happens_at_a_table_has_its_text(rt: HostRuntime) -> Result<(), Fail> {
    let alloc = rt.alloc();
    let ann = name("Ann").unwrap();
    let mut banks = ArrayVec::new();
    banks.push(0);
    banks.push(10_000);
    let clue = Clue::Rank(2);
    let cases = [
        (
            viewer(Role::Guest),
            r#"viewer {"role":"guest","room":1,"table":1}"#,
        ),
        (
            viewer(Role::Seat(0)),
            r#"viewer {"role":"seat","room":1,"seat":0,"table":1}"#,
        ),
        (
            viewer(Role::Watcher(None)),
            r#"viewer {"role":"watcher","room":1,"shadow":null,"table":1}"#,
        ),
        (
            WireLine::Opened {
                host: ann,
                variant: Text::copy_of(alloc, "No Variant")?,
                options: Options::default(),
            },
            r#"opened {"host":"Ann","options":{"variant":"No Variant"}}"#,
        ),
        (WireLine::Sat { name: ann }, r#"sat {"name":"Ann"}"#),
        (
            WireLine::Watching {
                name: ann,
                shadow: Some(1),
            },
            r#"watching {"name":"Ann","shadow":1}"#,
        ),
        (
            WireLine::Clock {
                banks,
                moment: 11_000,
                running: None,
            },
            r#"clock {"banks":[0,10000],"moment":11000,"running":null}"#,
        ),
        (WireLine::Resumed { by: ann }, r#"resumed {"by":"Ann"}"#),
        (WireLine::Saved { id: 1 }, r#"saved {"id":1}"#),
        (
            WireLine::Review {
                action: Some(Action::Clue { to: 1, clue }),
                hypos: 1,
                turn: 0,
            },
            r#"review {"action":{"target":1,"type":3,"value":2},"hypos":1,"turn":0}"#,
        ),
        (WireLine::Closed, "closed {}"),
    ];
    assert_eq!(rt; first_wrong(alloc, &cases)?, None);
    Ok(())
}

/// The line that begins a game of these two.
fn game(alloc: Global, host: Name, guest: Name) -> Result<WireLine, AllocError> {
    let mut players = Texts::new(alloc);
    players.push(Text::copy_of(alloc, host.as_str())?)?;
    players.push(Text::copy_of(alloc, guest.as_str())?)?;
    Ok(WireLine::Game {
        variant: Text::copy_of(alloc, "No Variant")?,
        options: Options::default(),
        players,
    })
}

/// The line of [`state`].
const STATE: &str =
    r#"state {"current":1,"deck":14,"score":1,"stacks":[1,0,0],"strikes":0,"tokens":8,"turn":1}"#;

/// How a game of three suits stands after the play of its first card.
fn state() -> WireLine {
    let mut stacks = ArrayVec::new();
    stacks.push(1);
    stacks.push(0);
    stacks.push(0);
    WireLine::State(State {
        current: Some(1),
        deck: 14,
        score: 1,
        stacks,
        strikes: 0,
        tokens: 8,
        turn: 1,
    })
}

#[test]
fn the_lines_of_a_game_have_their_texts(rt: HostRuntime) -> Result<(), Fail> {
    let alloc = rt.alloc();
    let mut cards = ArrayVec::new();
    cards.push((1, 0b11));
    cards.push((10, 1 << 24));
    let id = Identity { suit: 0, rank: 1 };
    let cases = [
        (
            game(alloc, name("Ann").unwrap(), name("Bob").unwrap())?,
            r#"game {"options":{"variant":"No Variant"},"players":["Ann","Bob"]}"#,
        ),
        (
            WireLine::Event(Event::Drawn {
                seat: 0,
                order: 10,
                id: None,
            }),
            r#"draw {"card":null,"order":10,"seat":0}"#,
        ),
        (
            WireLine::Event(Event::Played {
                seat: 0,
                order: 0,
                id,
                fits: true,
            }),
            r#"play {"card":"a1","fits":true,"order":0,"seat":0}"#,
        ),
        (
            WireLine::Event(Event::Clued {
                from: 1,
                to: 0,
                clue: Clue::Color(0),
                touched: 0b11110,
            }),
            r#"clue {"color":0,"from":1,"to":0,"touched":[1,2,3,4]}"#,
        ),
        (
            WireLine::Event(Event::Ended {
                how: EndHow::Terminated,
                by: Some(0),
                score: 0,
            }),
            r#"end {"by":0,"how":4,"score":0}"#,
        ),
        (state(), STATE),
        (
            WireLine::Hand { seat: 0, cards },
            r#"hand {"seat":0,"sets":[[1,"a1a2"],[10,"e5"]]}"#,
        ),
    ];
    assert_eq!(rt; first_wrong(alloc, &cases)?, None);
    Ok(())
}
