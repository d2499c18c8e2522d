//! The archive in memory.
ghost use Rattle.std.specs.Prelude.{◌≡◌, ◌<◌, ℕ, ◌&&◌, true, nat_lt, IfOk, ⊤};
ghost use Rattle.std.proofs.Common.{arith};
ghost use Rattle.std.proofs.lemmas.Bool.Decides.{nat_tests};
ghost use Rattle.pl_io.specs.FaultPlan.{is_sure, none_from};
ghost use Rattle.pl_keeper.specs.Archive.{Archive, empty_archive};

use crate::compare::compared;
use crate::error::KeepError;
use crate::keeper::{Keeper, KeyRow, Put, Stored};
use crate::limits::{MOST_CAPTURES, MOST_PROFILES};
use crate::memory::held::{HeldCapture, HeldProfile};
use crate::memory::rows::{
    count_captures, count_profiles, find_capture, find_profile, sorted_lines,
};
use pl_io::memory::plan::FaultPlan;
use std::alloc::{AllocError, Global};

mod held;
mod rows;

/// The archive in memory, in the order in which it was stored. It tells its rows, and fails at the
/// calls that it is told.
#[derive(Debug, Drop)]
pub struct MapKeeper {
    profiles: Vec<HeldProfile>,
    captures: Vec<HeldCapture>,
    plan: FaultPlan,
}

impl MapKeeper {
    /// An empty archive. `fails` names the calls, counted from 1 over all five, that answer
    /// `Failed`; no other call does. It is sure where none of these is still to come and its count
    /// is below the last value.
    pub fn new(alloc: Global, fails: &[u64]) -> Result<MapKeeper, AllocError>
        ensures empty { IfOk result (λ keeper. ⟦<Self as Keeper>⟧.tells keeper empty_archive) }
        ensures sure { IfOk result (λ keeper. ⟦<Self as Keeper>⟧.sure keeper
            ≡ none_from 1 fails.now) }
        ensures none_failed { IfOk result (λ keeper. ⟦<Self as Keeper>⟧.faults keeper ≡ 0) }
    {
        Ok(MapKeeper {
            profiles: Vec::new(alloc),
            captures: Vec::new(alloc),
            plan: FaultPlan::new(alloc, fails)?,
        })
    }
}

impl Keeper for MapKeeper {
    ghost tells = { λ k a. a ≡ record {
      profiles = k.profiles.items;
      captures = k.captures.items;
    } };

    ghost lives = { λ _. ⊤ };

    ghost sure = { λ k. is_sure k.plan };

    ghost faults = { λ k. k.plan.faults.value };

    ghost sure_is_below = { λ k sure. Prim.grind (arith, nat_tests) };

    fn profile(
        &mut self,
        alloc: Global,
        bench: &str,
        name: &str,
    ) -> Result<Option<Vec<u8>>, KeepError> {
        self.plan.begin_call()?;
        match find_profile(self.profiles.as_slice(), bench, name) {
            Some(held) => Ok(Some(held.bytes().to_vec(alloc)?)),
            None => Ok(None),
        }
    }

    fn put_profile(
        &mut self,
        alloc: Global,
        bench: &str,
        name: &str,
        bytes: &[u8],
    ) -> Result<Put, KeepError> {
        self.plan.begin_call()?;
        if let Some(held) = find_profile(self.profiles.as_slice(), bench, name) {
            return Ok(compared(held.bytes(), bytes));
        }
        if count_profiles(self.profiles.as_slice(), bench) >= MOST_PROFILES {
            return Ok(Put::Full);
        }
        let held = HeldProfile::new(alloc, bench, name, bytes)?;
        self.profiles.push(held)?;
        Ok(Put::New)
    }

    fn capture(
        &mut self,
        alloc: Global,
        bench: &str,
        key: &str,
    ) -> Result<Option<Stored>, KeepError> {
        self.plan.begin_call()?;
        match find_capture(self.captures.as_slice(), bench, key) {
            Some(held) => Ok(Some(held.stored(alloc)?)),
            None => Ok(None),
        }
    }

    fn put_capture(
        &mut self,
        alloc: Global,
        bench: &str,
        key: &str,
        profile: &str,
        bytes: &[u8],
    ) -> Result<Put, KeepError> {
        self.plan.begin_call()?;
        if let Some(held) = find_capture(self.captures.as_slice(), bench, key) {
            return Ok(held.compared(profile, bytes));
        }
        if find_profile(self.profiles.as_slice(), bench, profile).is_none() {
            return Ok(Put::NoProfile);
        }
        if count_captures(self.captures.as_slice(), bench) >= MOST_CAPTURES {
            return Ok(Put::Full);
        }
        let held = HeldCapture::new(alloc, bench, key, profile, bytes)?;
        self.captures.push(held)?;
        Ok(Put::New)
    }

    fn keys(&mut self, alloc: Global, bench: &str) -> Result<Vec<KeyRow>, KeepError> {
        self.plan.begin_call()?;
        Ok(sorted_lines(alloc, self.captures.as_slice(), bench)?)
    }
}
