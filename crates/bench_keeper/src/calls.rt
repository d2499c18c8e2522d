//! The calls that the words say, over any keeper.
ghost use Rattle.std.specs.Prelude.{◌≤◌, length, IfOk};
ghost use Rattle.pl_keeper.specs.Archive.{longest_body};

use hex::FromHexError;
use pl_keeper::{Keeper, LONGEST_BODY};
use std::alloc::Global;
use std::io;
use std::rt::Runtime;

/// Makes one call after the other, and prints each answer on a line.
pub fn make_calls<R: Runtime + AllocGlobal, K: Keeper>(
    rt: &R,
    keeper: &mut K,
    calls: &[String],
) -> io::Result<()> {
    for call in calls {
        make_call(rt, keeper, call.as_str())?;
    }
    Ok(())
}

fn make_call<R: Runtime + AllocGlobal, K: Keeper>(
    rt: &R,
    keeper: &mut K,
    call: &str,
) -> io::Result<()> {
    let alloc = rt.alloc();
    let parts: Vec<&str> = call.split(',').collect(alloc)?;
    match parts.as_slice() {
        ["put_profile", bench, name, digits] => {
            let bytes = bytes_in(alloc, digits)?;
            let put = keeper.put_profile(alloc, bench, name, bytes.as_slice());
            println!(rt; "{put:?}")
        }
        ["put_capture", bench, key, profile, digits] => {
            let bytes = bytes_in(alloc, digits)?;
            let put = keeper.put_capture(alloc, bench, key, profile, bytes.as_slice());
            println!(rt; "{put:?}")
        }
        ["profile", bench, name] => println!(rt; "{:?}", keeper.profile(alloc, bench, name)),
        ["capture", bench, key] => println!(rt; "{:?}", keeper.capture(alloc, bench, key)),
        ["keys", bench] => println!(rt; "{:?}", keeper.keys(alloc, bench)),
        ["put_captures", first, count, bytes] => {
            put_captures(
                rt,
                keeper,
                number_in(first)?,
                number_in(count)?,
                number_in(bytes)?,
            )
        }
        _ => Err(io::Error::from(io::ErrorKind::InvalidInput)),
    }
}

fn number_in(digits: &str) -> io::Result<u32> {
    match digits.parse::<u32>() {
        Ok(number) => Ok(number),
        Err(_) => Err(io::Error::from(io::ErrorKind::InvalidInput)),
    }
}

/// The bytes that the digits spell, if a put takes so many.
fn bytes_in(alloc: Global, digits: &str) -> io::Result<Vec<u8>>
    ensures { IfOk result (λ bytes. length bytes.items ≤ longest_body) }
{
    match hex::decode(alloc, digits) {
        Ok(bytes) if bytes.len() <= LONGEST_BODY => Ok(bytes),
        Err(FromHexError::OutOfMemory) => Err(io::Error::from(io::ErrorKind::OutOfMemory)),
        _ => Err(io::Error::from(io::ErrorKind::InvalidInput)),
    }
}

/// Puts so many captures of so many bytes, and a profile for each of their benches. Of each it
/// prints the number and the answer.
fn put_captures<R: Runtime + AllocGlobal, K: Keeper>(
    rt: &R,
    keeper: &mut K,
    first: u32,
    count: u32,
    bytes: u32,
) -> io::Result<()> {
    let alloc = rt.alloc();
    let body = vec![in alloc; 7u8; (bytes as usize).min(LONGEST_BODY)]?;
    for number in first..first.saturating_add(count) {
        let bench = format!(in alloc; "b{}", number / 64)?;
        let key = format!(in alloc; "k{number}")?;
        if number == first || number % 64 == 0 {
            let _profile = keeper.put_profile(alloc, bench.as_str(), "p", b"vcs = 1\n");
        }
        let put = keeper.put_capture(alloc, bench.as_str(), key.as_str(), "p", body.as_slice());
        println!(rt; "{number} {put:?}")?;
    }
    Ok(())
}
