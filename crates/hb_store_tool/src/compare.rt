//! Does a keeper answer calls without pattern as one in memory does?

use crate::games::{game, key_of, player};
use crate::problem::Problem;
use hb_io::Name;
use hb_keeper::{Fails, Keeper, KeeperMemory};
use std::alloc::{AllocError, Global};

/// How many keys the calls use.
const KEYS: u32 = 500;

/// Makes so many calls of the keeper and of one in memory.
pub(crate) fn compare<K: Keeper>(alloc: Global, keeper: &mut K, count: u32) -> Result<(), Problem> {
    let mut memory = KeeperMemory::new(alloc, 0, Fails::new(alloc))?;
    let mut number = 7;
    for call in 0..count {
        number = next(number);
        if !is_alike(alloc, keeper, &mut memory, number >> 4)? {
            return Err(Problem::Differs(call));
        }
    }
    Ok(())
}

/// The next number of a fixed sequence without pattern.
fn next(number: u32) -> u32 {
    number.wrapping_mul(1_103_515_245).wrapping_add(12_345)
}

/// Makes the call that a number chooses.
fn is_alike<K: Keeper>(
    alloc: Global,
    keeper: &mut K,
    memory: &mut KeeperMemory,
    choice: u32,
) -> Result<bool, AllocError> {
    let which = choice / 7;
    match choice % 7 {
        0 => Ok(keeper.open_run() == memory.open_run()),
        1..=3 => {
            let players = [player(which), player(which / 3), player(which / 5)];
            let row = game(alloc, &players, (which % 3) as u8)?;
            let key = key_of(which % KEYS);
            Ok(keeper.put_once(&key, &row) == memory.put_once(&key, &row))
        }
        4 | 5 => {
            let id = u64::from(which % KEYS);
            Ok(keeper.get(id) == memory.get(id))
        }
        _ => match player(which) {
            Some(member) => Ok(lists_alike(keeper, memory, &member)),
            None => Ok(false),
        },
    }
}

fn lists_alike<K: Keeper>(keeper: &mut K, memory: &mut KeeperMemory, member: &Name) -> bool {
    keeper.of_member(member) == memory.of_member(member)
}
