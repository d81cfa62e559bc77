//! Which games are kept, and which are lost, if the disks of a store stop in the middle of a call?

use crate::games::{game, key};
use hb_keeper::{GameRow, Keeper};
use hb_sqlite::KeeperSql;
use sqlite::{Connection, FileStore, Options};
use sqlite_disk::{Crash, Disk, Files, Fuse, Memory};
use std::alloc::Global;
use std::test::Fail;

/// No run of a test makes so many calls of a disk.
const NEVER: u64 = 1_000_000;

fn opened<D: Disk + Drop>(alloc: Global, files: Files<D>) -> Option<KeeperSql<FileStore<D>>> {
    if !files.may_be_used() {
        return None;
    }
    match Connection::open_files(alloc, files, Options::new(1)) {
        Ok(conn) => KeeperSql::adopt(alloc, conn).ok(),
        Err(_) => None,
    }
}

fn closed<D: Disk + Drop>(keeper: KeeperSql<FileStore<D>>) -> Files<D> {
    keeper.into_connection().into_store().close()
}

/// A disk with these bytes, which stops after so many calls.
fn disk(alloc: Global, bytes: &[u8], calls: u64) -> Result<Fuse<Memory>, Fail> {
    let mut memory = Memory::new(alloc);
    memory.write_at(0, bytes)?;
    memory.sync()?;
    Ok(Fuse::new(memory, calls))
}

/// The disks of a store, each of which stops after so many calls.
fn disks(alloc: Global, store: &Files<Memory>, calls: u64) -> Result<Files<Fuse<Memory>>, Fail> {
    Ok(Files {
        log: disk(alloc, store.log.bytes(), calls)?,
        db: disk(alloc, store.db.bytes(), calls)?,
    })
}

/// Puts the games up to the first that is not acknowledged, and answers how many are.
fn put_all<D: Disk + Drop>(keeper: &mut KeeperSql<FileStore<D>>, rows: &[GameRow]) -> usize {
    let mut serial = 0u32;
    for place in 0..rows.len() {
        if keeper.put_once(&key(serial), &rows[place]).is_err() {
            return place;
        }
        serial = serial.wrapping_add(1);
    }
    rows.len()
}

/// How many of the games a store keeps: the first ones, each under its place, and no other.
fn kept<D: Disk + Drop>(
    keeper: &mut KeeperSql<FileStore<D>>,
    rows: &[GameRow],
) -> Result<usize, Fail> {
    let mut count = 0;
    for place in 0..rows.len() {
        match keeper.get(place as u64 + 1) {
            Ok(Some(row)) if count == place && row == rows[place] => count += 1,
            Ok(None) => {}
            _ => Err("a store keeps the first games, or answers with no fault")?,
        }
    }
    Ok(count)
}

/// Opens the disks again, and tests what is kept.
fn opens_again<D: Disk + Drop>(
    alloc: Global,
    files: Files<D>,
    rows: &[GameRow],
    acknowledged: usize,
) -> Result<(), Fail> {
    let mut keeper = opened(alloc, files).ok_or("a store opens again")?;
    if kept(&mut keeper, rows)? < acknowledged {
        Err("an acknowledged game is kept")?
    }
    Ok(())
}

fn copies(alloc: Global, files: &Files<Fuse<Memory>>) -> Result<Files<Fuse<Memory>>, Fail> {
    Ok(Files {
        log: disk(alloc, files.log.inner().bytes(), NEVER)?,
        db: disk(alloc, files.db.inner().bytes(), NEVER)?,
    })
}

/// A store without games.
fn empty_store(alloc: Global) -> Result<Files<Memory>, Fail> {
    let files = Files {
        log: Memory::new(alloc),
        db: Memory::new(alloc),
    };
    let keeper = opened(alloc, files).ok_or("a new store opens")?;
    Ok(closed(keeper))
}

fn rows(alloc: Global) -> Result<Vec<GameRow>, Fail> {
    let mut rows = Vec::new(alloc);
    for score in 0..3u8 {
        rows.push(game(alloc, &["Ann", "Bob"], score)?)?;
    }
    Ok(rows)
}

/// Stops both disks after each number of calls in turn, until all games are acknowledged. Where the
/// store opens before they stop, what is left is opened again twice: with all that was written, and
/// without what was not synced.
#[test]
fn disks_that_stop_lose_no_acknowledged_game(rt: HostRuntime) -> Result<(), Fail> {
    let alloc = rt.alloc();
    let store = empty_store(alloc)?;
    let rows = rows(alloc)?;
    let mut is_stopped = false;
    for calls in 0..NEVER {
        let Some(mut keeper) = opened(alloc, disks(alloc, &store, calls)?) else {
            continue;
        };
        let acknowledged = put_all(&mut keeper, &rows);
        let mut files = closed(keeper);
        opens_again(alloc, copies(alloc, &files)?, &rows, acknowledged)?;
        files.log.crash();
        files.db.crash();
        opens_again(alloc, files, &rows, acknowledged)?;
        if acknowledged == rows.len() {
            assert!(rt; is_stopped);
            return Ok(());
        }
        is_stopped = true;
    }
    Err("disks that do not stop keep all games")?
}
