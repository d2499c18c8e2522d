//! Look-ups over the rows in memory.
ghost use Rattle.std.specs.Prelude.{◌≡◌, length, filter, bytes_eq, option_copied, IfOk};
ghost use Rattle.std.specs.List.{find};
ghost use Rattle.pl_keeper.specs.Archive.{is_profile, is_capture};
ghost use Rattle.pl_keeper.specs.Listing.{Lists, Ascends};

use crate::keeper::KeyRow;
use crate::memory::held::{HeldCapture, HeldProfile};
use std::alloc::{AllocError, Global};

pub(crate) fn find_profile<'a>(
    profiles: &'a [HeldProfile],
    bench: &str,
    name: &str,
) -> Option<&'a HeldProfile>
    ensures { option_copied result ≡ find (is_profile bench.now name.now) profiles.now }
{
    profiles.iter().find(|held| held.is(bench, name))
}

pub(crate) fn find_capture<'a>(
    captures: &'a [HeldCapture],
    bench: &str,
    key: &str,
) -> Option<&'a HeldCapture>
    ensures { option_copied result ≡ find (is_capture bench.now key.now) captures.now }
{
    captures.iter().find(|held| held.is(bench, key))
}

pub(crate) fn count_profiles(profiles: &[HeldProfile], bench: &str) -> usize
    ensures { result ≡ length (filter (λ p. bytes_eq p.bench bench.now) profiles.now) }
{
    profiles.iter().filter(|held| held.is_of(bench)).count()
}

pub(crate) fn count_captures(captures: &[HeldCapture], bench: &str) -> usize
    ensures { result ≡ length (filter (λ c. bytes_eq c.bench bench.now) captures.now) }
{
    captures.iter().filter(|held| held.is_of(bench)).count()
}

/// The lines of a bench's captures, in the order of storing.
fn lines(alloc: Global, captures: &[HeldCapture], bench: &str) -> Result<Vec<KeyRow>, AllocError>
    ensures { IfOk result (λ rows. Lists (filter
        (λ c. bytes_eq c.bench bench.now) captures.now) rows.items) }
{
    let mut rows = Vec::new(alloc);
    for held in captures {
        if held.is_of(bench) {
            rows.push(held.line()?)?;
        }
    }
    Ok(rows)
}

/// The lines of a bench's captures, in ascending order of key.
pub(crate) fn sorted_lines(
    alloc: Global,
    captures: &[HeldCapture],
    bench: &str,
) -> Result<Vec<KeyRow>, AllocError>
    ensures listed { IfOk result (λ rows. Lists (filter
        (λ c. bytes_eq c.bench bench.now) captures.now) rows.items) }
    ensures ascending { IfOk result (λ rows. Ascends rows.items) }
{
    let mut rows = lines(alloc, captures, bench)?;
    rows.sort_unstable_by(|a, b| a.key.cmp(&b.key));
    Ok(rows)
}
