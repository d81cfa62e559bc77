//! What do both keepers answer to the worked calls?

use crate::games::{game, key};
use hb_io::name;
use hb_keeper::{Fails, KeepError, Keeper, KeeperMemory, Line, When};
use hb_sqlite::KeeperSql;
use std::test::Fail;

#[test]
fn fails_before_and_after_the_work(rt: HostRuntime) -> Result<(), Fail> {
    let alloc = rt.alloc();
    let mut fails = Fails::new(alloc);
    fails.push(2, When::Before)?;
    fails.push(3, When::After)?;
    let mut keeper = KeeperMemory::new(alloc, 0, fails)?;
    let row = game(alloc, &["Ann", "Bob"], 3)?;
    assert_eq!(rt; keeper.open_run(), Ok(1));
    assert_eq!(rt; keeper.put_once(&key(1), &row), Err(KeepError::Fault));
    assert_eq!(rt; keeper.put_once(&key(1), &row), Err(KeepError::Fault));
    assert_eq!(rt; keeper.put_once(&key(1), &row), Ok(1));
    assert_eq!(rt; keeper.get(1), Ok(Some(row)));
    assert_eq!(rt; keeper.get(2), Ok(None));
    let other = game(alloc, &["Ann", "Bob"], 4)?;
    assert_eq!(rt;
        keeper.put_once(&key(1), &other),
        Err(KeepError::KeyDiffers(1))
    );
    Ok(())
}

#[test]
fn lists_a_game_once(rt: HostRuntime) -> Result<(), Fail> {
    let alloc = rt.alloc();
    let mut keeper = KeeperMemory::new(alloc, 0, Fails::new(alloc))?;
    assert_eq!(rt;
        keeper.put_once(&key(1), &game(alloc, &["Ann", "Bob"], 3)?),
        Ok(1)
    );
    assert_eq!(rt;
        keeper.put_once(&key(2), &game(alloc, &["Bob", "Eve"], 5)?),
        Ok(2)
    );
    assert_eq!(rt;
        keeper.put_once(&key(3), &game(alloc, &["Ann", "Ann"], 7)?),
        Ok(3)
    );
    let Some(ann) = name("Ann") else {
        panic!(rt; "a name");
    };
    let first = Line {
        id: 1,
        score: 3,
        how: 1,
    };
    let third = Line {
        id: 3,
        score: 7,
        how: 1,
    };
    let Ok(lines) = keeper.of_member(&ann) else {
        panic!(rt; "lines");
    };
    assert_eq!(rt; lines.as_slice(), [first, third].as_slice());
    Ok(())
}

#[test]
fn a_run_number_is_used_up(rt: HostRuntime) -> Result<(), Fail> {
    let alloc = rt.alloc();
    let greatest = (1 << 63) - 1;
    let mut keeper = KeeperMemory::new(alloc, greatest - 1, Fails::new(alloc))?;
    assert_eq!(rt; keeper.open_run(), Ok(greatest));
    assert_eq!(rt; keeper.open_run(), Err(KeepError::UsedUp));
    Ok(())
}

#[test]
fn a_database_answers_the_worked_calls(rt: HostRuntime) -> Result<(), Fail> {
    let alloc = rt.alloc();
    let Ok(mut keeper) = KeeperSql::open_memory(alloc) else {
        panic!(rt; "a store in memory opens");
    };
    let row = game(alloc, &["Ann", "Bob"], 3)?;
    let other = game(alloc, &["Ann", "Bob"], 4)?;
    let Some(ann) = name("Ann") else {
        panic!(rt; "a name");
    };
    assert_eq!(rt; keeper.open_run(), Ok(1));
    assert_eq!(rt; keeper.put_once(&key(1), &row), Ok(1));
    assert_eq!(rt; keeper.put_once(&key(1), &row), Ok(1));
    assert_eq!(rt; keeper.get(1), Ok(Some(row)));
    assert_eq!(rt; keeper.get(2), Ok(None));
    assert_eq!(rt;
        keeper.put_once(&key(1), &other),
        Err(KeepError::KeyDiffers(1))
    );
    let Ok(lines) = keeper.of_member(&ann) else {
        panic!(rt; "lines");
    };
    assert_eq!(rt;
        lines.as_slice(),
        [Line {
            id: 1,
            score: 3,
            how: 1
        }]
        .as_slice()
    );
    assert_eq!(rt; keeper.open_run(), Ok(2));
    Ok(())
}
