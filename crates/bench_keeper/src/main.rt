//! Makes calls of an archive in a file, and prints each answer as soon as it came.
//!
//! Words: the file of the archive, or `:memory:`, and then the calls. A call is one word, of parts
//! between commas; BODY is in hexadecimal digits:
//!
//! - `put_profile,BENCH,NAME,BODY` and `profile,BENCH,NAME`,
//! - `put_capture,BENCH,KEY,PROFILE,BODY` and `capture,BENCH,KEY`,
//! - `keys,BENCH`,
//! - `put_captures,FIRST,COUNT,BYTES`: COUNT captures of BYTES bytes each. That of the number N has
//!   the key `kN` in the bench `bM`, where M is N / 64, and the bench's profile `p`.
#![tactic(auto)]

mod calls;

use calls::make_calls;
use pl_keeper::{SqliteKeeper, open_in_memory};
use sqlite::Connection;
use std::env;

fn main(rt: HostRuntime) -> anyhow::Result<()> {
    let words: Vec<String> = env::args(&rt)?.skip(1).collect(rt.alloc())?;
    let [path, calls @ ..] = words.as_slice() else {
        println!(rt; "words: FILE CALL..")?;
        return Ok(());
    };
    if path.as_str() == ":memory:" {
        return Ok(make_calls(&rt, &mut open_in_memory(rt.alloc())?, calls)?);
    }
    let mut keeper = SqliteKeeper::new(Connection::open(&rt, path.as_str())?);
    make_calls(&rt, &mut keeper, calls)?;
    Ok(keeper.into_connection().close()?)
}
