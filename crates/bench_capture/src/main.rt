//! Reads a made capture in pieces of 4,096 bytes, and prints how many items it has and the sum of
//! the last bytes of their bodies. `bench/capture/run` times it beside a memcpy of the same bytes.
//!
//! Words: RECORD BYTES ROUNDS [time]. A capture of about BYTES bytes, whose records have RECORD
//! bytes each, is read ROUNDS times. With `time` it prints the nanoseconds too.
#![tactic(auto)]

mod work;

use std::time::Instant;
use std::{env, io};
use work::Work;

fn main(rt: HostRuntime) -> io::Result<()> {
    let alloc = rt.alloc();
    let words: Vec<String> = env::args(&rt)?.skip(1).collect(alloc)?;
    let Some(work) = Work::from_words(&words) else {
        return println!(rt; "words: RECORD BYTES ROUNDS [time], where RECORD is 18 to 4172");
    };
    let capture = work.capture(alloc)?;
    let start = Instant::now(&rt)?;
    let (items, sum) = work.read(&capture);
    let spent = start.elapsed(&rt)?;
    if work.is_timed {
        println!(rt; "{items} {sum} {} {}", capture.len(), spent.as_nanos())
    } else {
        println!(rt; "{items} {sum}")
    }
}
