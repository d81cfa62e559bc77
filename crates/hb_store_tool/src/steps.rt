//! What does each step do?

use crate::compare::compare;
use crate::games::{game_of, key_of};
use crate::problem::Problem;
use hb_io::name;
use hb_keeper::Keeper;

/// A step that words ask for.
#[derive(Clone, Copy)]
pub(crate) enum Step<'a> {
    Fill { first: u32, count: u32 },
    List(&'a str),
    Get(u32),
    Compare(u32),
}

pub(crate) fn done<K: Keeper>(
    rt: &HostRuntime,
    keeper: &mut K,
    step: Step<'_>,
) -> Result<(), Problem> {
    match step {
        Step::Fill { first, count } => fill(rt, keeper, first, count),
        Step::List(member) => list(rt, keeper, member),
        Step::Get(id) => get(rt, keeper, id),
        Step::Compare(count) => compare(rt.alloc(), keeper, count),
    }
}

fn fill<K: Keeper>(
    rt: &HostRuntime,
    keeper: &mut K,
    first: u32,
    count: u32,
) -> Result<(), Problem> {
    for number in first..first.saturating_add(count) {
        keeper.put_once(&key_of(number), &game_of(rt.alloc(), number)?)?;
    }
    Ok(())
}

fn list<K: Keeper>(rt: &HostRuntime, keeper: &mut K, member: &str) -> Result<(), Problem> {
    let member = name(member).ok_or(Problem::Words)?;
    for line in keeper.of_member(&member)?.as_slice() {
        println!(rt; "{} {} {}", line.id, line.score, line.how)?;
    }
    Ok(())
}

fn get<K: Keeper>(rt: &HostRuntime, keeper: &mut K, id: u32) -> Result<(), Problem> {
    let Some(row) = keeper.get(u64::from(id))? else {
        println!(rt; "{id} none")?;
        return Ok(());
    };
    println!(rt; "{id} {} {} {}", row.how, row.score, row.text.as_str())?;
    for player in row.names.as_slice() {
        println!(rt; "{}", player.as_str())?;
    }
    Ok(())
}
