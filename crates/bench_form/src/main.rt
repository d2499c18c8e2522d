//! Judges three lawful TLPs by the formation rules, each apart, and prints what the verdicts come
//! to: 0. `bench/form/run` times it beside the same rules in plain Rust.
//!
//! Words: ROUNDS [time]. Each TLP is judged so many times into one list, and so many times into a
//! list of its own. With `time` it prints the nanoseconds of both for the read, the write and the
//! completion too.
#![tactic(auto)]

ghost use Rattle.pl_form.specs.Verdicts.{HasHeaderIfWhole};
ghost use Rattle.pl_tlp.specs.Fields.{outcome};
ghost use Rattle.pl_tlp.specs.Fit.{FitsIfWhole};

use pl_base::{Dir, Found};
use pl_form::{judge, judge_into, seen_has_header};
use pl_profile::Profile;
use pl_tlp::{View, view};
use std::time::Instant;
use std::{env, io};

/// A MRd of 128 bytes, a MWr of 16 bytes and a CplD of 16 bytes.
const TLPS: [&[u8]; 3] = [
    &[0x00, 0, 0, 0x20, 1, 0, 0, 0xff, 1, 0, 0, 0],
    &[
        0x40, 0, 0, 4, 1, 0, 0, 0xff, 1, 0, 0, 0, 1, 2, 3, 4, 5, 6, 7, 8, 1, 2, 3, 4, 5, 6, 7, 8,
    ],
    &[
        0x4a, 0, 0, 4, 1, 0, 0, 16, 1, 0, 0, 0, 1, 2, 3, 4, 5, 6, 7, 8, 1, 2, 3, 4, 5, 6, 7, 8,
    ],
];

fn main(rt: HostRuntime) -> io::Result<()> {
    let alloc = rt.alloc();
    let words: Vec<String> = env::args(&rt)?.skip(1).collect(alloc)?;
    let rounds = words
        .first()
        .and_then(|word| word.parse::<u32>().ok())
        .unwrap_or(1);
    let profile = Profile::usual();
    seen_has_header();
    let mut total: u64 = 0;
    for tlp in TLPS {
        let seen = view(tlp);
        let start = Instant::now(&rt)?;
        total = total.wrapping_add(added(&profile, &seen, rounds));
        let handed_down = start.elapsed(&rt)?;
        let start = Instant::now(&rt)?;
        total = total.wrapping_add(judged(&profile, &seen, rounds));
        let returned = start.elapsed(&rt)?;
        if words.len() > 1 {
            print!(rt; "{} {} ", handed_down.as_nanos(), returned.as_nanos())?;
        }
    }
    println!(rt; "{total}")
}

/// What the verdicts on a TLP come to that is judged so many times into one list.
fn added(profile: &Profile, seen: &View, rounds: u32) -> u64
    requires fits { FitsIfWhole (outcome seen.now) }
    requires header { HasHeaderIfWhole (outcome seen.now) }
{
    let mut total: u64 = 0;
    let mut found = Found::new();
    for round in 0..rounds {
        found.clear();
        judge_into(profile, Dir::Up, seen, u64::from(round), &mut found);
        total = total.wrapping_add(folded(&found));
    }
    total
}

/// What the verdicts on a TLP come to that is judged so many times, each time into a list of its
/// own.
fn judged(profile: &Profile, seen: &View, rounds: u32) -> u64
    requires fits { FitsIfWhole (outcome seen.now) }
    requires header { HasHeaderIfWhole (outcome seen.now) }
{
    let mut total: u64 = 0;
    for round in 0..rounds {
        total = total.wrapping_add(judge_once(profile, seen, u64::from(round)));
    }
    total
}

/// What the verdicts on item `at` come to.
#[inline(never)]
fn judge_once(profile: &Profile, seen: &View, at: u64) -> u64
    requires fits { FitsIfWhole (outcome seen.now) }
    requires header { HasHeaderIfWhole (outcome seen.now) }
{
    let found = judge(profile, Dir::Up, seen, at);
    folded(&found)
}

/// The verdicts counted, each with the item that it is on.
fn folded(found: &Found) -> u64 {
    found.as_slice().iter().fold(0, |total, verdict| {
        total.wrapping_add(verdict.at).wrapping_add(1)
    })
}
