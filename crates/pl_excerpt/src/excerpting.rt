//! An excerpt of one verdict.
ghost use Rattle.std.specs.Prelude.{◌≡◌, ◌≤◌, true, [], IfOk, IsSome};
ghost use Rattle.pl_engine.specs.Engine.{StandsFor};
ghost use Rattle.pl_excerpt.specs.Promise.{Answered, Unwritten};
ghost use Rattle.pl_excerpt.specs.Replaying.{Follows, SinkCause};
ghost use Rattle.pl_excerpt.specs.Searching.{fault_of};
ghost use Rattle.pl_excerpt.specs.Sources.{NoFault, ShelfCause};

use crate::copying::copy;
use crate::finding::find;
use crate::lanes::Lanes;
use crate::outcome::Outcome;
use crate::witnesses::Witnesses;
use pl_base::Stop;
use pl_engine::Engine;
use pl_io::{Shelf, Sink};
use pl_profile::Profile;
use std::alloc::{AllocError, Global};

/// Writes a capture that holds what shows the verdict with this number, from 1, of a capture.
///
/// The items that it holds are those of the verdict: its own, those that it cites, and, where it
/// cites a request, the completions of this between them; and each item of its span that repeats or
/// acknowledges one of them. A gap stands wherever items are left out.
///
/// The capture is read once to find the verdict, and once more to write. All memory is taken before
/// the first opening.
pub fn excerpt<H: Shelf, O: Sink>(
    alloc: Global,
    profile: Profile,
    capture: &str,
    number: u64,
    shelf: &mut H,
    out: &mut O,
) -> Outcome
    requires some { 1 ≤ number }
    ensures answered { H.told shelf.old ≡ true → Answered profile number
        (H.file shelf.old capture.now) result }
    ensures unwritten { Unwritten result (out.new ≡ out.old) }
    ensures shelf_cause { ShelfCause (fault_of result) (H.faults shelf.old) (H.faults shelf.new) }
    ensures never_fails { H.sure shelf.old ≡ true → IsSome (H.file shelf.old capture.now) →
        NoFault (fault_of result) }
    ensures sink_cause { SinkCause result (O.faults out.old) (O.faults out.new) }
{
    match Parts::open(alloc, profile) {
        Ok(parts) => excerpt_with(parts, capture, number, shelf, out),
        Err(_) => Outcome::Stop(Stop::Memory),
    }
}

/// An engine for each reading, and the lanes of the second.
struct Parts {
    first: Engine,
    second: Engine,
    lanes: Lanes,
}

impl Parts {
    /// They take all the memory that they ever use.
    fn open(alloc: Global, profile: Profile) -> Result<Parts, AllocError>
        ensures first { IfOk result (λ parts. StandsFor parts.first []) }
        ensures profile { IfOk result (λ parts. parts.first.profile ≡ profile) }
        ensures second { IfOk result (λ parts. Follows parts.second parts.lanes 1) }
    {
        let first = Engine::open(alloc, profile)?;
        let second = Engine::open(alloc, profile)?;
        let lanes = Lanes::open(alloc, profile.unacknowledged)?;
        Ok(Parts {
            first,
            second,
            lanes,
        })
    }
}

/// The same by these parts, which were just opened.
fn excerpt_with<H: Shelf, O: Sink>(
    parts: Parts,
    capture: &str,
    number: u64,
    shelf: &mut H,
    out: &mut O,
) -> Outcome
    requires some { 1 ≤ number }
    requires first { StandsFor parts.first [] }
    requires second { Follows parts.second parts.lanes 1 }
    ensures answered { H.told shelf.old ≡ true → Answered parts.first.profile number
        (H.file shelf.old capture.now) result }
    ensures unwritten { Unwritten result (out.new ≡ out.old) }
    ensures shelf_cause { ShelfCause (fault_of result) (H.faults shelf.old) (H.faults shelf.new) }
    ensures never_fails { H.sure shelf.old ≡ true → IsSome (H.file shelf.old capture.now) →
        NoFault (fault_of result) }
    ensures sink_cause { SinkCause result (O.faults out.old) (O.faults out.new) }
{
    let Parts {
        mut first,
        mut second,
        lanes,
    } = parts;
    match find(&mut first, number, capture, shelf) {
        Ok(case) => {
            let mut witnesses = Witnesses::new(case, lanes);
            copy(&mut second, &mut witnesses, capture, shelf, out)
        }
        Err(outcome) => outcome,
    }
}
