//! What does a keeper answer to the steps of a command line?
//!
//! ```text
//! hb_store_tool STORE STEP ..
//! ```
//!
//! STORE is `memory` (a keeper in memory), `sql` (a database in memory) or the path of a store,
//! which is made if there is none, and closed at the end. Each STEP is done in turn:
//!
//! - `fill FIRST COUNT` keeps so many made-up games, from the one with this number on;
//! - `list NAME` writes a line for each game of a member: its id, its score and its end;
//! - `get ID` writes a game: its id, its end, its score, its text and its players;
//! - `compare COUNT` makes so many calls without pattern, and the same of a new keeper in memory,
//!   and fails at the first that is answered otherwise. So the store has to be new.
//!
//! The status is 0, or 1 with a line on the error output that says what failed.
#![tactic(auto)]

mod compare;
mod games;
mod problem;
mod steps;
mod words;

use crate::problem::Problem;
use crate::steps::{Step, done};
use crate::words::steps_of;
use hb_keeper::{Fails, Keeper, KeeperMemory};
use hb_sqlite::KeeperSql;
use std::env;
use std::process::ExitCode;

fn main(rt: HostRuntime) -> ExitCode {
    match executed(&rt) {
        Ok(()) => ExitCode::SUCCESS,
        Err(problem) => {
            let _ = eprintln!(rt; "hb_store_tool: {problem}");
            ExitCode::FAILURE
        }
    }
}

fn executed(rt: &HostRuntime) -> Result<(), Problem> {
    let args = env::args(rt).map_err(|_| Problem::Words)?;
    let arguments: Vec<String> = args.skip(1).collect(rt.alloc())?;
    let mut words = Vec::new(rt.alloc());
    for argument in &arguments {
        words.push(argument.as_str())?;
    }
    let Some((store, steps)) = words.split_first() else {
        return Err(Problem::Words);
    };
    let steps = steps_of(rt.alloc(), steps)?;
    over(rt, store, &steps)
}

/// Does the steps over the store.
fn over(rt: &HostRuntime, store: &str, steps: &[Step<'_>]) -> Result<(), Problem> {
    let alloc = rt.alloc();
    match store {
        "memory" => {
            let mut keeper = KeeperMemory::new(alloc, 0, Fails::new(alloc))?;
            all_done(rt, &mut keeper, steps)
        }
        "sql" => {
            let mut keeper = KeeperSql::open_memory(alloc)?;
            all_done(rt, &mut keeper, steps)
        }
        path => {
            let mut keeper = KeeperSql::open_file(rt, alloc, path)?;
            let outcome = all_done(rt, &mut keeper, steps);
            keeper.close()?;
            outcome
        }
    }
}

fn all_done<K: Keeper>(
    rt: &HostRuntime,
    keeper: &mut K,
    steps: &[Step<'_>],
) -> Result<(), Problem> {
    for step in steps {
        done(rt, keeper, *step)?;
    }
    Ok(())
}
