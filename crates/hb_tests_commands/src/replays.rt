//! Which replay is made of a game, and why is it refused?

use hb_io::{Text, Texts};
use hb_replay::{Notes, OfGameError, of_game, read, write};
use hb_rules::{Identity, Options, Variant};
use hb_suits::variant;
use hb_turns::Game;
use std::alloc::{AllocError, Global};
use std::test::Fail;

const NAME: &str = "3 Suits";

/// A game of two players on the cards of three suits, each in order of ranks.
fn game(alloc: Global, variant: &Variant, options: &Options) -> Result<Game, Fail> {
    let mut cards = Vec::new(alloc);
    for suit in 0..3 {
        for rank in [1, 1, 1, 2, 2, 3, 3, 4, 4, 5] {
            cards.push(Identity { suit, rank })?;
        }
    }
    Ok(Game::start(variant, options, 2, cards.as_slice())?)
}

/// As many texts.
fn texts(alloc: Global, count: usize) -> Result<Texts, AllocError> {
    let mut texts = Texts::new(alloc);
    for _ in 0..count {
        texts.push(Text::copy_of(alloc, "Ann")?)?;
    }
    Ok(texts)
}

/// As many lists of notes, each with as many notes.
fn notes(alloc: Global, lists: usize, each: usize) -> Result<Notes, AllocError> {
    let mut notes = Notes::new(alloc);
    for _ in 0..lists {
        notes.push(texts(alloc, each)?)?;
    }
    Ok(notes)
}

#[test]
fn a_game_becomes_a_replay_that_reads_back(rt: HostRuntime) -> Result<(), Fail> {
    let alloc = rt.alloc();
    let named = variant(NAME)?;
    let timed = Options {
        timed: true,
        base_s: 9,
        ..Options::default()
    };
    let game = game(alloc, &named, &timed)?;
    let notes = notes(alloc, 64, 2)?;
    let replay = of_game(alloc, &texts(alloc, 2)?, NAME, &game, &notes)?;
    let text = write(alloc, &replay)?;
    let again = read(alloc, text.as_slice())?;
    assert_eq!(rt; write(alloc, &again)?.as_slice(), text.as_slice());
    assert_eq!(rt; again.options(), &timed);
    Ok(())
}

#[test]
fn a_game_that_differs_becomes_none(rt: HostRuntime) -> Result<(), Fail> {
    let alloc = rt.alloc();
    let named = variant(NAME)?;
    let plain = Options::default();
    let short = Options { base_s: 9, ..plain };
    let slow = Options {
        per_turn_s: 21,
        ..plain
    };
    for (players, name, lists, each, options) in [
        (3, NAME, 0, 0, plain),
        (2, "4 Suits", 0, 0, plain),
        (2, "Nobody's Suits", 0, 0, plain),
        (2, NAME, 65, 0, plain),
        (2, NAME, 1, 129, plain),
        (2, NAME, 0, 0, short),
        (2, NAME, 0, 0, slow),
    ] {
        let game = game(alloc, &named, &options)?;
        let players = texts(alloc, players)?;
        let notes = notes(alloc, lists, each)?;
        let answer = of_game(alloc, &players, name, &game, &notes);
        assert!(rt;
            matches!(answer, Err(OfGameError::Differs)),
            "{name} {lists} {each}"
        );
    }
    Ok(())
}
