//! Makes and answers memory reads of 64 bytes, to be timed from outside.
//!
//! Words: how many requests are open at once, 1 to 262,143, and how many are made and answered
//! while so many are. It prints how many items break a rule, 0, and how many requests are still
//! open.
#![tactic(auto)]

ghost use Rattle.std.specs.Prelude.{◌≡◌, ◌<◌, ◌≤◌, true};
ghost use Rattle.arrayvec.specs.ArrayVec.{array_vec_len};
ghost use Rattle.pl_tlp.specs.Fields.{fields};
ghost use Rattle.pl_tlp.specs.Fit.{Fits};
ghost use Rattle.pl_tlp.specs.Groups as kinds;

use pl_base::{Dir, Found};
use pl_pair::Pairs;
use pl_profile::Profile;
use pl_tlp::{Kind, Tlp};
use std::{env, io};

static DATA: [u8; 64] = [0; 64];

fn main(rt: HostRuntime) -> io::Result<()> {
    let mut words = env::args(&rt)?;
    let _program = words.next();
    let open = words
        .next()
        .and_then(|word| word.as_str().parse::<u32>().ok())
        .unwrap_or(16)
        .clamp(1, 262_143);
    let requests = words
        .next()
        .and_then(|word| word.as_str().parse::<u32>().ok())
        .unwrap_or(1000);
    let mut pairs = Pairs::open(rt.alloc(), open + 1)?;
    let broken = traffic(&mut pairs, &Profile::usual(), open, requests);
    println!(rt; "{broken} {}", pairs.outstanding())?;
    Ok(())
}

/// A read of 16 DW: 256 tags of each requester, one after the other.
#[tactic(auto, unfolding(pl_base::specs::Bits::bits))]
fn read(number: u32) -> Tlp<'static>
    ensures needs { kinds.needs_completion result.kind ≡ true }
    ensures fits { Fits (fields result) }
{
    Tlp {
        kind: Kind::MRd,
        wide: false,
        tc: 0,
        attr: 0,
        at: 0,
        ep: false,
        th: false,
        length: 16,
        requester: (number >> 8 & 0xFFFF) as u16,
        tag: (number & 0xFF) as u16,
        first_be: 0xF,
        last_be: 0xF,
        address: 0x1000,
        code: 0,
        routing: 0,
        completer: 0,
        status: 0,
        bcm: false,
        byte_count: 0,
        lower: 0,
        prefixes: &[],
        payload: &[],
        digest: None,
        header: &[],
    }
}

/// The completion of all of it.
#[tactic(auto, unfolding(pl_base::specs::Bits::bits))]
fn completion(number: u32) -> Tlp<'static>
    ensures is { kinds.is_completion result.kind ≡ true }
    ensures fits { Fits (fields result) }
{
    Tlp {
        kind: Kind::CplD,
        wide: false,
        tc: 0,
        attr: 0,
        at: 0,
        ep: false,
        th: false,
        length: 16,
        requester: (number >> 8 & 0xFFFF) as u16,
        tag: (number & 0xFF) as u16,
        first_be: 0,
        last_be: 0,
        address: 0,
        code: 0,
        routing: 0,
        completer: 0,
        status: 0,
        bcm: false,
        byte_count: 64,
        lower: 0,
        prefixes: &[],
        payload: &DATA,
        digest: None,
        header: &[],
    }
}

/// Makes so many requests, and then one more each time before the oldest is answered: how many
/// items break a rule.
fn traffic(pairs: &mut Pairs, profile: &Profile, open: u32, requests: u32) -> u64 {
    let mut found = Found::new();
    let mut broken = 0;
    for number in 0..open {
        broken += make(pairs, number, u64::from(number), &mut found);
    }
    for number in 0..requests {
        let next = number.wrapping_add(open);
        let at = u64::from(next) * 2;
        broken += make(pairs, next, at, &mut found);
        broken += answer(pairs, profile, number, at + 1, &mut found);
    }
    broken
}

/// A request, if there is room for it: 1 where it breaks a rule.
fn make(pairs: &mut Pairs, number: u32, at: u64, found: &mut Found) -> u64
    requires { array_vec_len found.old ≡ 0 }
    ensures small { result ≤ 1 }
    ensures empty { array_vec_len found.new ≡ 0 }
{
    let request = read(number);
    if pairs.full_for(Dir::Up, &request) {
        return 1;
    }
    pairs.request_into(Dir::Up, &request, at, found);
    is_broken(found)
}

/// The completion of a request: 1 where it breaks a rule.
fn answer(pairs: &mut Pairs, profile: &Profile, number: u32, at: u64, found: &mut Found) -> u64
    requires { array_vec_len found.old ≡ 0 }
    ensures small { result ≤ 1 }
    ensures empty { array_vec_len found.new ≡ 0 }
{
    pairs.completion_into(profile, Dir::Down, &completion(number), at, found);
    is_broken(found)
}

/// 1 where there are verdicts, which are let go.
fn is_broken(found: &mut Found) -> u64
    ensures small { result ≤ 1 }
    ensures empty { array_vec_len found.new ≡ 0 }
{
    if found.is_empty() {
        return 0;
    }
    found.clear();
    1
}
