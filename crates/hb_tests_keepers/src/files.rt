//! Does a store in a file open again, by whomever it was made?

use crate::games::{game, key};
use hb_keeper::Keeper;
use hb_sqlite::{KeeperSql, OpenError};
use sqlite::Connection;
use std::test::Fail;

/// The statements that make a store of version 1 without games.
pub(crate) const STATEMENTS: [&str; 6] = [
    "CREATE TABLE version (n INTEGER NOT NULL) STRICT",
    "CREATE TABLE runs (id INTEGER PRIMARY KEY, last INTEGER NOT NULL CHECK (last >= 0)) STRICT",
    "CREATE TABLE games (id INTEGER PRIMARY KEY, run INTEGER NOT NULL, room INTEGER NOT NULL, \
     serial INTEGER NOT NULL, how INTEGER NOT NULL, score INTEGER NOT NULL, body TEXT NOT NULL, \
     UNIQUE (run, room, serial)) STRICT",
    "CREATE TABLE seats (game INTEGER NOT NULL REFERENCES games (id), seat INTEGER NOT NULL, \
     name TEXT NOT NULL, PRIMARY KEY (game, seat)) STRICT",
    "INSERT INTO version VALUES (1)",
    "INSERT INTO runs VALUES (1, 6)",
];

#[test]
fn a_closed_store_opens_again(rt: HostRuntime) -> Result<(), Fail> {
    let alloc = rt.alloc();
    let row = game(alloc, &["Ann", "Bob"], 3)?;
    let Ok(mut keeper) = KeeperSql::open_file(&rt, alloc, "club.db") else {
        panic!(rt; "a new file opens");
    };
    assert_eq!(rt; keeper.open_run(), Ok(1));
    assert_eq!(rt; keeper.put_once(&key(1), &row), Ok(1));
    assert_eq!(rt; keeper.close(), Ok(()));

    let Ok(mut again) = KeeperSql::open_file(&rt, alloc, "club.db") else {
        panic!(rt; "a kept file opens");
    };
    assert_eq!(rt; again.open_run(), Ok(2));
    assert_eq!(rt; again.put_once(&key(1), &row), Ok(1));
    assert_eq!(rt; again.get(1), Ok(Some(row)));
    Ok(())
}

#[test]
fn a_store_made_by_its_text_is_adopted(rt: HostRuntime) -> Result<(), Fail> {
    let alloc = rt.alloc();
    let Ok(mut conn) = Connection::open(&rt, "text.db") else {
        panic!(rt; "a new file opens");
    };
    for statement in STATEMENTS {
        assert!(rt; conn.execute(statement, &[]).is_ok(), "{statement}");
    }
    let Ok(mut keeper) = KeeperSql::adopt(alloc, conn) else {
        panic!(rt; "a store of this text is adopted");
    };
    assert_eq!(rt; keeper.open_run(), Ok(7));
    assert_eq!(rt; keeper.close(), Ok(()));

    let Ok(mut conn) = Connection::open(&rt, "text.db") else {
        panic!(rt; "a kept file opens");
    };
    assert!(rt; conn.execute("UPDATE version SET n = 7", &[]).is_ok());
    assert!(rt; conn.close().is_ok());
    let refused = KeeperSql::open_file(&rt, alloc, "text.db");
    assert!(rt; matches!(refused, Err(OpenError::BadVersion(7))));
    Ok(())
}
