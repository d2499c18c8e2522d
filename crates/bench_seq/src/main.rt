//! Takes and acknowledges TLPs of 64 bytes in one lane, to be timed from outside.
//!
//! Words: the lane's room, 1 to 4,095, and the number of TLPs. It prints how many items break
//! a rule: 0.
#![tactic(auto)]

use pl_seq::{Body, Lane};
use std::{env, io};

fn main(rt: HostRuntime) -> io::Result<()> {
    let mut words = env::args(&rt)?;
    let _program = words.next();
    let room = words
        .next()
        .and_then(|word| word.as_str().parse::<u16>().ok())
        .unwrap_or(16);
    let tlps = words
        .next()
        .and_then(|word| word.as_str().parse::<u32>().ok())
        .unwrap_or(1000);
    let mut lane = Lane::open(rt.alloc(), room.clamp(1, 4095))?;
    let broken = traffic(&mut lane, tlps);
    println!(rt; "{broken}")?;
    Ok(())
}

/// So many TLPs, each acknowledged by the next item: how many of the items break a rule.
fn traffic(lane: &mut Lane, tlps: u32) -> u64 {
    let tlp = [7; 64];
    let mut broken = 0;
    lane.reset();
    for i in 0..tlps {
        if lane.full() {
            break;
        }
        let number = (i % 4096) as u16;
        let at = u64::from(i) * 2 + 1;
        let found = lane.tlp(number, &tlp, Body::Whole, at);
        broken += u64::from(!found.is_empty());
        let found = lane.ack(number, at + 1);
        broken += u64::from(!found.is_empty());
    }
    broken
}
