//! The search for the captures of a bench that break a rule.
ghost use Rattle.std.specs.Prelude.{◌≡◌, ◌≤◌, Some, length};
ghost use Rattle.std.specs.String.{string_bytes};
ghost use Rattle.pl_keeper.specs.Archive.{Archive, longest_body};
ghost use Rattle.pl_search.specs.Answers.{Answers};
ghost use Rattle.pl_search.specs.Causes.{KeeperCause, StaysSure};
ghost use Rattle.pl_search.specs.Hits.{hits_at, hits_in, hits_of};
ghost use Rattle.pl_search.specs.Steps.{Adds};

use crate::error::SearchError;
use crate::found::{MOST_FOUND, Search};
use crate::hit::Hits;
use crate::judging::judge;
use pl_base::Rule;
use pl_keeper::{Keeper, Stored};
use std::alloc::Global;

/// The name of the profile of a capture that was found, and its bytes.
fn parts_of(stored: Stored) -> (String, Vec<u8>)
    ensures profile { string_bytes result.0 ≡ stored.profile }
    ensures bytes { result.1.items ≡ stored.bytes }
{
    let Stored { profile, bytes } = stored;
    (profile, bytes)
}

/// Adds the hits of a capture that was found, and lets its bytes go.
fn add_stored<K: Keeper>(
    alloc: Global,
    keeper: &mut K,
    bench: &str,
    key: &str,
    stored: Stored,
    rule: Rule,
    search: &mut Search,
) -> Result<(), SearchError>
    requires short { length stored.bytes ≤ longest_body }
    ensures adds { K.lives keeper.new → (a : Archive) → K.tells keeper.old a →
        Adds (hits_in a bench.now key.now rule (Some stored)) search.old search.new result }
    ensures same { K.lives keeper.new → (a : Archive) → K.tells keeper.old a →
        K.tells keeper.new a }
    ensures lived { K.lives keeper.new → K.lives keeper.old }
    ensures cause { KeeperCause (K.faults keeper.old) (K.faults keeper.new) result }
    ensures never_falls { K.faults keeper.old ≤ K.faults keeper.new }
    ensures sure { StaysSure (K.sure keeper.old) (K.sure keeper.new) result }
{
    let (profile, bytes) = parts_of(stored);
    let text = keeper.profile(alloc, bench, &profile)?;
    let room = MOST_FOUND.saturating_sub(search.found.as_slice().len());
    let judged = judge(alloc, text, key, &bytes, rule, room)?;
    search.add(alloc, key, &judged)
}

/// Adds the hits of the capture of a key.
fn add_capture<K: Keeper>(
    alloc: Global,
    keeper: &mut K,
    bench: &str,
    key: &str,
    rule: Rule,
    search: &mut Search,
) -> Result<(), SearchError>
    ensures adds { K.lives keeper.new → (a : Archive) → K.tells keeper.old a →
        Adds (hits_at a bench.now key.now rule) search.old search.new result }
    ensures same { K.lives keeper.new → (a : Archive) → K.tells keeper.old a →
        K.tells keeper.new a }
    ensures lived { K.lives keeper.new → K.lives keeper.old }
    ensures cause { KeeperCause (K.faults keeper.old) (K.faults keeper.new) result }
    ensures never_falls { K.faults keeper.old ≤ K.faults keeper.new }
    ensures sure { StaysSure (K.sure keeper.old) (K.sure keeper.new) result }
{
    match keeper.capture(alloc, bench, key)? {
        Some(stored) => add_stored(alloc, keeper, bench, key, stored, rule, search),
        None => Ok(()),
    }
}

/// Where a rule is broken in the captures of a bench: how often, and the first 10,000 hits, by
/// ascending key and in each capture in the order of its verdicts.
///
/// Each capture is judged once, and its bytes are let go before the next is read. Nothing of
/// another bench is read, and nothing is changed.
///
/// # Errors
///
/// `Store` where a call of the keeper failed; `Profile` or `Capture` for the first capture by
/// ascending key that can't be judged to its end; `Memory`, in place of any answer, for want of
/// memory.
pub fn search<K: Keeper>(
    alloc: Global,
    keeper: &mut K,
    bench: &str,
    rule: Rule,
) -> Result<Search, SearchError>
    // Over a keeper that tells its rows the answer is that of the rows.
    ensures answers { K.lives keeper.new → (a : Archive) → K.tells keeper.old a →
        Answers (hits_of a bench.now rule) result }
    ensures same { K.lives keeper.new → (a : Archive) → K.tells keeper.old a →
        K.tells keeper.new a }
    ensures lived { K.lives keeper.new → K.lives keeper.old }
    ensures cause { KeeperCause (K.faults keeper.old) (K.faults keeper.new) result }
    ensures never_falls { K.faults keeper.old ≤ K.faults keeper.new }
    ensures sure { StaysSure (K.sure keeper.old) (K.sure keeper.new) result }
{
    let rows = keeper.keys(alloc, bench)?;
    let mut search = Search {
        total: 0,
        found: Hits::new(alloc),
    };
    for row in &rows {
        add_capture(alloc, keeper, bench, &row.key, rule, &mut search)?;
    }
    Ok(search)
}
