//! Views a made mix of TLPs, and prints what all their fields come to. `bench/tlp/run` times it
//! beside the same work in plain Rust.
//!
//! Words: COUNT ROUNDS [time]. COUNT TLPs are gone through ROUNDS times. With `time` it prints the
//! nanoseconds too.
#![tactic(auto)]

mod mix;
mod total;

use std::time::Instant;
use std::{env, io};

fn main(rt: HostRuntime) -> io::Result<()> {
    let alloc = rt.alloc();
    let words: Vec<String> = env::args(&rt)?.skip(1).collect(alloc)?;
    let (Some(count), Some(rounds)) = (number(&words, 0), number(&words, 1)) else {
        return println!(rt; "words: COUNT ROUNDS [time]");
    };
    let buffer = mix::buffer(alloc, count)?;
    let tlps = mix::tlps(alloc, count, &buffer)?;
    let start = Instant::now(&rt)?;
    let total = total::total(&tlps, rounds);
    let spent = start.elapsed(&rt)?;
    if words.len() > 2 {
        println!(rt; "{total:016x} {}", spent.as_nanos())
    } else {
        println!(rt; "{total:016x}")
    }
}

/// The number in the word at this place.
fn number(words: &[String], place: usize) -> Option<u32> {
    words.get(place)?.parse().ok()
}
