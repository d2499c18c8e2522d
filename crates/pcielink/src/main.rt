//! `pcielink`, a passive protocol analyser for PCI Express links. It makes the real objects, passes
//! the words of the command line to `run` and ends with its answer.
#![tactic(auto)]

ghost use Rattle.std.specs.Prelude.{◌≡◌, Bool};

use pl_cli::run;
use pl_cli::status::{NO_MEMORY, STORE_FAULT, WRITE_FAULT};
use pl_io::{Door, FileShelf, MemDoor, Sink, StdSink, TcpDoor, write_all};
use pl_keeper::{Keeper, MapKeeper, SqliteKeeper};
use pl_report::store_fault_line;
use pl_watch::{FileWatch, WatchedKeeper};
use sqlite::Connection;
use std::alloc::AllocError;
use std::env::args;
use std::io::{self, ErrorKind};
use std::process::ExitCode;

fn main(rt: HostRuntime) -> ExitCode {
    let status = match words(&rt) {
        Ok(words) => run_words(&rt, &words),
        Err(error) if error.kind() == ErrorKind::InvalidData => run_words(
            &rt,
            &Vec::new(rt.alloc()),
        ),
        Err(_) => NO_MEMORY,
    };
    ExitCode::from(status)
}

/// The words after the program's name. A word that isn't UTF-8 is invalid data.
fn words(rt: &HostRuntime) -> io::Result<Vec<String>> {
    Ok(args(rt)?.skip(1).collect(rt.alloc())?)
}

/// Runs the program on these words.
fn run_words(rt: &HostRuntime, words: &Vec<String>) -> u8 {
    match words
        .iter()
        .map(|word| word.as_str())
        .collect::<Vec<&str>>(rt.alloc())
    {
        Ok(words) => match words.as_slice() {
            ["serve", address, store, _] => serve(rt, &words, address, store),
            _ => judge(rt, &words).unwrap_or(NO_MEMORY),
        },
        Err(_) => NO_MEMORY,
    }
}

/// Serves the archive of this store at this address. Where the store can't be opened its line is
/// all that is written.
fn serve(rt: &HostRuntime, words: &[&str], address: &str, store: &str) -> u8 {
    let mut out = StdSink::new(io::writer(rt));
    let Ok(connection) = Connection::open(rt, store) else {
        return match write_all(&mut out, store_fault_line().as_bytes()) {
            Ok(()) => STORE_FAULT,
            Err(_) => WRITE_FAULT,
        };
    };
    let watch = FileWatch::new(rt, store);
    let mut keeper = WatchedKeeper::new(SqliteKeeper::new(connection), watch);
    let mut door = TcpDoor::bind(rt, address);
    let status = run_over(rt, words, &mut out, &mut door, &mut keeper);
    // what it couldn't copy into the file stands in the log
    let _closed = keeper.into_keeper().into_connection().close();
    status
}

/// Runs the other commands, which use neither a door nor a keeper.
fn judge(rt: &HostRuntime, words: &[&str]) -> Result<u8, AllocError> {
    let mut out = StdSink::new(io::writer(rt));
    let mut door = MemDoor::new(rt.alloc(), Vec::new(rt.alloc()), &[])?;
    let mut keeper = MapKeeper::new(rt.alloc(), &[])?;
    Ok(run_over(rt, words, &mut out, &mut door, &mut keeper))
}

/// Runs the program over the files of the system.
fn run_over<O: Sink, D: Door, K: Keeper>(
    rt: &HostRuntime,
    words: &[&str],
    out: &mut O,
    door: &mut D,
    keeper: &mut K,
) -> u8
    requires { D.is_out door.old ≡ Bool.false }
{
    let mut shelf = FileShelf::new(rt);
    run(rt.alloc(), words, &mut shelf, out, door, keeper)
}
