//! Computes a CRC of each piece of a made buffer, and prints what all of them come to.
//! `bench/crc/run` times it beside the same work in C.
//!
//! Words: KIND BYTES LEAST MOST ROUNDS [time]. KIND is `crc32` or `crc16`. A buffer of BYTES bytes
//! is cut into pieces of LEAST to MOST bytes, which are gone through ROUNDS times. With `time` it
//! prints the nanoseconds too.
#![tactic(auto)]

mod work;

use std::time::Instant;
use std::{env, io};
use work::Work;

fn main(rt: HostRuntime) -> io::Result<()> {
    let alloc = rt.alloc();
    let words: Vec<String> = env::args(&rt)?.skip(1).collect(alloc)?;
    let Some(work) = Work::from_words(&words) else {
        return println!(rt; "words: crc32|crc16 BYTES LEAST MOST ROUNDS [time]");
    };
    let buffer = work.buffer(alloc)?;
    let pieces = work.pieces(alloc, &buffer)?;
    let start = Instant::now(&rt)?;
    let total = work.total(&pieces);
    let spent = start.elapsed(&rt)?;
    if work.is_timed {
        println!(rt; "{total:08x} {}", spent.as_nanos())
    } else {
        println!(rt; "{total:08x}")
    }
}
