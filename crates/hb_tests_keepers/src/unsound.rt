//! What does a keeper answer over a store whose rows no keeper has written?

use crate::files::STATEMENTS;
use crate::games::{game, key};
use hb_io::name;
use hb_keeper::{KeepError, Keeper};
use hb_sqlite::{KeeperSql, OpenError};
use sqlite::{Connection, Error, MemStore};
use std::alloc::Global;
use std::test::Fail;

/// A store in memory of these statements.
fn store(alloc: Global, more: &[&str]) -> Result<Connection<MemStore>, Error> {
    let mut conn = Connection::open_in_memory(alloc)?;
    for statement in STATEMENTS {
        conn.execute(statement, &[])?;
    }
    for statement in more {
        conn.execute(statement, &[])?;
    }
    Ok(conn)
}

fn keeper(alloc: Global, more: &[&str]) -> Result<KeeperSql<MemStore>, Fail> {
    let conn = store(alloc, more)?;
    Ok(
        KeeperSql::adopt(alloc, conn)
            .ok()
            .ok_or("a store of version 1 is adopted")?,
    )
}

/// What a query of one number shows.
fn number(keeper: KeeperSql<MemStore>, query: &str) -> Result<i64, Error> {
    let mut conn = keeper.into_connection();
    conn.query_row(query, &[])?.get(0)
}

#[test]
fn a_store_of_no_single_version_is_not_opened(rt: HostRuntime) -> Result<(), Fail> {
    let alloc = rt.alloc();
    let none = store(alloc, &["DELETE FROM version"])?;
    assert!(rt; matches!(KeeperSql::adopt(alloc, none), Err(OpenError::Fault)));
    let two = store(alloc, &["INSERT INTO version VALUES (1)"])?;
    assert!(rt; matches!(KeeperSql::adopt(alloc, two), Err(OpenError::Fault)));
    Ok(())
}

#[test]
fn a_missing_run_is_a_fault(rt: HostRuntime) -> Result<(), Fail> {
    let mut keeper = keeper(rt.alloc(), &["DELETE FROM runs"])?;
    assert_eq!(rt; keeper.open_run(), Err(KeepError::Fault));
    assert_eq!(rt; number(keeper, "SELECT count(*) FROM runs")?, 0);
    Ok(())
}

#[test]
fn numbers_out_of_range_and_no_names_are_faults(rt: HostRuntime) -> Result<(), Fail> {
    let alloc = rt.alloc();
    let rows = [
        "INSERT INTO games VALUES (1, 1, 1, 1, 300, 0, '{}'), (2, 1, 1, 2, 1, 0, '{}')",
        "INSERT INTO seats VALUES (1, 0, 'Ann'), (2, 0, '')",
    ];
    let mut keeper = keeper(alloc, &rows)?;
    let Some(ann) = name("Ann") else {
        panic!(rt; "a name");
    };
    let row = game(alloc, &["Ann"], 0)?;
    assert_eq!(rt; keeper.get(1), Err(KeepError::Fault));
    assert_eq!(rt; keeper.get(2), Err(KeepError::Fault));
    assert_eq!(rt; keeper.of_member(&ann), Err(KeepError::Fault));
    assert_eq!(rt; keeper.put_once(&key(1), &row), Err(KeepError::Fault));
    assert_eq!(rt;
        number(keeper, "SELECT count(*) + sum(how) FROM games")?,
        303
    );
    Ok(())
}

#[test]
fn the_greatest_id_is_the_last(rt: HostRuntime) -> Result<(), Fail> {
    let alloc = rt.alloc();
    let rows = ["INSERT INTO games VALUES (9223372036854775807, 1, 1, 1, 1, 0, '{}')"];
    let mut keeper = keeper(alloc, &rows)?;
    let row = game(alloc, &["Ann"], 0)?;
    assert_eq!(rt; keeper.put_once(&key(2), &row), Err(KeepError::UsedUp));
    assert_eq!(rt; number(keeper, "SELECT count(*) FROM games")?, 1);
    Ok(())
}
