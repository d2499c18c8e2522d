//! Opens and answers requests in one table, to be timed from outside.
//!
//! Words: how many requests are open at once, 1 to 262,143, and how many are opened and answered
//! while so many are. It prints how many of these were found again, and how many are still open.
//!
//! With the one word `longest` it prints how many slots the longest of the searches looks at that
//! fill the largest table with runs of 1,024 tags of 256 requesters.
#![tactic(auto)]

use pl_index::{Table, home};
use std::alloc::{AllocError, Global};
use std::{env, io};

/// What is kept of an open request.
#[derive(Clone, Copy)]
struct Request {
    at: u64,
    first_part: u64,
    wanted: u32,
    got: u32,
}

impl Request {
    /// The request at this position, for 64 DW.
    fn at(position: u32) -> Request {
        Request {
            at: u64::from(position),
            first_part: 0,
            wanted: 64,
            got: 0,
        }
    }
}

fn main(rt: HostRuntime) -> io::Result<()> {
    let mut words = env::args(&rt)?;
    let _program = words.next();
    let first = words.next();
    if first
        .as_ref()
        .is_some_and(|word| word.as_str() == "longest")
    {
        let looks = longest_search(rt.alloc())?;
        println!(rt; "{looks}")?;
        return Ok(());
    }
    let open = first
        .and_then(|word| word.as_str().parse::<u32>().ok())
        .unwrap_or(16)
        .clamp(1, 262_143);
    let requests = words
        .next()
        .and_then(|word| word.as_str().parse::<u32>().ok())
        .unwrap_or(1000);
    let mut table = Table::open(rt.alloc(), open + 1)?;
    let found = traffic(&mut table, open, requests);
    println!(rt; "{found} {}", table.len())?;
    Ok(())
}

/// The key of a request: 256 tags of each requester, one after the other.
fn key(request: u32) -> u32 {
    (request >> 8 & 0xFFFF) << 10 | request & 0xFF
}

/// The slots of the largest table.
const SLOTS: usize = 524_288;

/// How many slots the longest of the searches looks at by which the largest table is filled: with
/// 1,024 tags of each of 256 requesters, one after the other.
fn longest_search(alloc: Global) -> Result<usize, AllocError> {
    let mut full = vec![in alloc; false; SLOTS]?;
    let mut longest = 0;
    for number in 0..262_144u32 {
        let start = home(SLOTS, 0x0100 << 10 | number);
        for look in 1..=SLOTS {
            let at = (start + look - 1) % SLOTS;
            if at < full.len() && !full[at] {
                full[at] = true;
                longest = look.max(longest);
                break;
            }
        }
    }
    Ok(longest)
}

/// Opens so many requests, and then one more each time that the oldest is answered: how many are
/// found again.
fn traffic(table: &mut Table<Request>, open: u32, requests: u32) -> u32 {
    let mut found = 0u32;
    for number in 0..open {
        let _before = table.put(key(number), Request::at(number));
    }
    for number in 0..requests {
        let next = number.wrapping_add(open);
        let _before = table.put(key(next), Request::at(next));
        if let Some(oldest) = table.take(key(number)) {
            found = found.wrapping_add(u32::from(oldest.at == u64::from(number)));
        }
    }
    found
}
