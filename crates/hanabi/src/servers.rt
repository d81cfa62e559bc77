//! What does a server run on? A door at the address that the words name, threads of the system, its
//! clock and random bytes, and the keeper of the store. It ends once standard input has the line
//! `stop`.

use crate::stores::refused;
use hb_cli::{Status, Stop, report, report_no_memory};
use hb_edge::{SystemClock, SystemDice, ThreadSpawner};
use hb_io::StdSink;
use hb_keeper::{Fails, Keeper, KeeperMemory};
use hb_server::serve;
use hb_socket::{Stop as StopWish, TcpDoor};
use hb_sqlite::KeeperSql;
use hb_words::{ServerCommand, Store};
use std::alloc::AllocError;
use std::clone::Clone;
use std::io::{self, ErrorKind};
use std::net::{Net, TcpListener, TcpStream};
use std::sync::Wait;
use std::thread::{self, Threads};

/// The line of standard input that ends a server.
const STOP_LINE: &str = "stop";

/// Makes the wish to stop at the line that asks for it. The end of the input asks for nothing, so
/// that a server without an input runs on.
fn watch(rt: HostRuntime, wish: &StopWish) {
    for line in rt.lines(rt.alloc()) {
        let Ok(line) = line else {
            return;
        };
        if line.as_str() == STOP_LINE {
            wish.ask();
        }
    }
}

/// A door at an address, which is closed once standard input asks for it. It answers the error of
/// the system if that makes no door or no thread.
fn open_door<W>(rt: HostRuntime, server: &W, addr: &str) -> io::Result<TcpDoor<HostRuntime>>
where
    W: Threads + Net<Listener = TcpListener, Stream = TcpStream>,
{
    let wish = StopWish::new(rt.alloc())?;
    let door = TcpDoor::bind(server, rt.alloc(), rt, addr, wish.share()?)?;
    thread::spawn(server, move || watch(rt, &wish))?;
    Ok(door)
}

/// Serves at an open door, with a keeper.
fn serve_with<W, K>(
    rt: HostRuntime,
    server: &W,
    words: &[&str],
    door: &mut TcpDoor<HostRuntime>,
    keeper: &mut K,
) -> Status
where
    W: Wait + Threads + Clone + Send + Drop + 'static,
    K: Keeper,
{
    let Ok(threads) = server.clone() else {
        return report_no_memory(&mut StdSink::new(rt.stderr()));
    };
    let mut spawner = ThreadSpawner::new(threads);
    let mut dice = SystemDice::new(rt);
    let mut err = StdSink::new(rt.stderr());
    serve(
        server,
        rt.alloc(),
        words,
        door,
        &mut spawner,
        SystemClock::new(rt),
        &mut dice,
        &mut err,
        keeper,
    )
}

/// Serves over a keeper in memory, whose games end with the server.
fn over_memory<W>(
    rt: HostRuntime,
    server: &W,
    words: &[&str],
    door: &mut TcpDoor<HostRuntime>,
) -> Result<Status, AllocError>
where
    W: Wait + Threads + Clone + Send + Drop + 'static,
{
    let mut keeper = KeeperMemory::new(rt.alloc(), 0, Fails::new(rt.alloc()))?;
    Ok(serve_with(rt, server, words, door, &mut keeper))
}

/// Serves over the store in the file of a path, which is closed at the end. A close that fails
/// loses nothing: the store's log stays, and the next opening reads it.
fn over_file<W>(
    rt: HostRuntime,
    server: &W,
    words: &[&str],
    door: &mut TcpDoor<HostRuntime>,
    path: &str,
) -> Status
where
    W: Wait + Threads + Clone + Send + Drop + 'static,
{
    match KeeperSql::open_file(&rt, rt.alloc(), path) {
        Ok(mut keeper) => {
            let status = serve_with(rt, server, words, door, &mut keeper);
            let _ = keeper.close();
            status
        }
        Err(error) => refused(&rt, error),
    }
}

/// Serves as the words ask. A door that can't be opened is a door fault, and then no store is
/// opened.
pub(crate) fn served<W>(
    rt: HostRuntime,
    server: &W,
    words: &[&str],
    command: &ServerCommand<'_>,
) -> Result<Status, AllocError>
where
    W: Wait
        + Threads
        + Net<Listener = TcpListener, Stream = TcpStream>
        + Clone
        + Send
        + Drop
        + 'static,
{
    let mut door = match open_door(rt, server, command.address) {
        Ok(door) => door,
        Err(error) if error.kind() == ErrorKind::OutOfMemory => return Err(AllocError),
        Err(_) => {
            let mut err = StdSink::new(rt.stderr());
            return Ok(report(rt.alloc(), &mut err, &Stop::DoorFault));
        }
    };
    match command.store {
        Store::Memory => over_memory(rt, server, words, &mut door),
        Store::File(path) => Ok(over_file(rt, server, words, &mut door, path)),
    }
}
