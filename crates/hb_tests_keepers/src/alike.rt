//! Do a keeper in memory and one over a database answer alike?

use crate::games::{game, key};
use hb_io::name;
use hb_keeper::{Fails, Keeper, KeeperMemory};
use hb_sqlite::KeeperSql;
use std::test::Fail;

const PLAYERS: [&str; 4] = ["Ann", "Bob", "Cleo", "Ann"];

/// The next number of a fixed sequence without pattern.
fn next(number: u32) -> u32 {
    number.wrapping_mul(1_103_515_245).wrapping_add(12_345)
}

#[test]
fn both_answer_a_hundred_calls_alike(rt: HostRuntime) -> Result<(), Fail> {
    let alloc = rt.alloc();
    let mut memory = KeeperMemory::new(alloc, 0, Fails::new(alloc))?;
    let Ok(mut database) = KeeperSql::open_memory(alloc) else {
        panic!(rt; "a store in memory opens");
    };
    let mut number = 7;
    for _ in 0..100 {
        number = next(number);
        let choice = number >> 16;
        let first = (choice % 3) as usize;
        match choice % 7 {
            0 => assert_eq!(rt; memory.open_run(), database.open_run()),
            1 | 2 | 3 => {
                let row = game(alloc, &PLAYERS[first..first + 2], (choice % 5) as u8)?;
                let key = key(choice % 20);
                assert_eq!(rt; memory.put_once(&key, &row), database.put_once(&key, &row));
            }
            4 | 5 => {
                let id = u64::from(choice % 25);
                assert_eq!(rt; memory.get(id), database.get(id));
            }
            _ => {
                let Some(player) = name(PLAYERS[first]) else {
                    panic!(rt; "a name");
                };
                assert_eq!(rt; memory.of_member(&player), database.of_member(&player));
            }
        }
    }
    Ok(())
}
