//! What does the program run on? The words of its command line, the real input and outputs, and the
//! keeper of the store that the words name. All that it does with them is [`hb_cli::run`], or
//! [`hb_server::serve`] if the words ask for a server.
#![tactic(auto)]

mod servers;
mod stores;

use crate::servers::served;
use crate::stores::refused;
use hb_cli::{Status, report_no_memory, run};
use hb_io::{StdSink, StdSource};
use hb_keeper::{Fails, Keeper, KeeperMemory};
use hb_sqlite::KeeperSql;
use hb_words::{Store, command, server_command};
use std::alloc::AllocError;
use std::clone::Clone;
use std::env;
use std::io::ErrorKind;
use std::net::{Net, TcpListener, TcpStream};
use std::process::ExitCode;
use std::sync::Wait;
use std::thread::Threads;

fn main(rt: HostRuntime) -> ExitCode {
    let status = match executed(&rt, &rt) {
        Ok(status) => status,
        Err(_) => report_no_memory(&mut StdSink::new(rt.stderr())),
    };
    ExitCode::from(status.code())
}

/// The words without the program's name. There are none if one of them is not UTF-8, since such
/// words are outside the grammar as well.
fn arguments(rt: &HostRuntime) -> Result<Vec<String>, AllocError> {
    match env::args(rt) {
        Ok(args) => args.skip(1).collect(rt.alloc()),
        Err(error) if error.kind() == ErrorKind::OutOfMemory => Err(AllocError),
        Err(_) => Ok(Vec::new(rt.alloc())),
    }
}

/// Does what the words ask for. A server waits and makes threads and links by `server`.
fn executed<W>(rt: &HostRuntime, server: &W) -> Result<Status, AllocError>
where
    W: Wait
        + Threads
        + Net<Listener = TcpListener, Stream = TcpStream>
        + Clone
        + Send
        + Drop
        + 'static,
{
    let arguments = arguments(rt)?;
    let mut words = Vec::new(rt.alloc());
    for word in &arguments {
        words.push(word.as_str())?;
    }
    if let Some(command) = server_command(&words) {
        return served(*rt, server, &words, &command);
    }
    match command(rt.alloc(), &words)? {
        Some(command) => match command.store() {
            Some(Store::File(path)) => Ok(over_file(rt, &words, path)),
            Some(Store::Memory) | None => over_memory(rt, &words),
        },
        None => over_memory(rt, &words),
    }
}

/// Runs over a keeper in memory, without games and with no call that fails.
fn over_memory(rt: &HostRuntime, words: &[&str]) -> Result<Status, AllocError> {
    let mut keeper = KeeperMemory::new(rt.alloc(), 0, Fails::new(rt.alloc()))?;
    Ok(over(rt, words, &mut keeper))
}

/// Runs over the store in the file of a path, which is closed at the end. A close that fails loses
/// nothing: the store's log stays, and the next opening reads it.
fn over_file(rt: &HostRuntime, words: &[&str], path: &str) -> Status {
    match KeeperSql::open_file(rt, rt.alloc(), path) {
        Ok(mut keeper) => {
            let status = over(rt, words, &mut keeper);
            let _ = keeper.close();
            status
        }
        Err(error) => refused(rt, error),
    }
}

fn over<K: Keeper>(rt: &HostRuntime, words: &[&str], keeper: &mut K) -> Status {
    let mut source = StdSource::new(rt.stdin());
    let mut out = StdSink::new(rt.stdout());
    let mut err = StdSink::new(rt.stderr());
    run(rt.alloc(), words, &mut source, &mut out, &mut err, keeper)
}
