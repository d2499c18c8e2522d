//! Which calls of an object in memory fail, and how many have failed.
ghost use Rattle.std.specs.Prelude.{◌≡◌, ◌≤◌, true, IfOk, OnOk, OnErr, IsOk};
ghost use Rattle.pl_io.specs.Faults.{HasCause};
ghost use Rattle.pl_io.specs.FaultPlan.{is_sure, IsCalled, IsFresh, IsPlanned};

use crate::failed::{Failed, FaultCount};
use std::alloc::{AllocError, Global};

/// The number of an object's next call, the numbers of the calls that fail, and the count of
/// faults. Calls are numbered from 1; the number stays at its last value, `2^64 - 1`.
#[derive(Debug, Drop)]
pub struct FaultPlan {
    pub next_call: u64,
    pub fails: Vec<u64>,
    pub faults: FaultCount,
}

impl FaultPlan {
    /// No call was made yet, and those with these numbers will fail.
    pub fn new(alloc: Global, fails: &[u64]) -> Result<FaultPlan, AllocError>
        ensures fresh { IfOk result (λ plan. IsFresh plan fails.now) }
        ensures none_failed { IfOk result (λ plan. plan.faults.value ≡ 0) }
    {
        Ok(FaultPlan {
            next_call: 1,
            fails: fails.to_vec(alloc)?,
            faults: FaultCount::new(),
        })
    }

    /// Begins a call, which fails where the plan names its number.
    pub fn begin_call(&mut self) -> Result<(), Failed>
        ensures planned { OnErr result (IsPlanned self.old) }
        ensures unplanned { OnOk result (IsPlanned self.old → ⊥) }
        ensures called { IsCalled self.old self.new }
        ensures sure { is_sure self.old ≡ true → IsOk result }
        ensures still_sure { OnOk result (is_sure self.new ≡ is_sure self.old) }
        ensures cause { HasCause self.old.faults.value self.new.faults.value result }
        ensures never_falls { self.old.faults.value ≤ self.new.faults.value }
    {
        let planned = self.fails.contains(&self.next_call);
        self.next_call = self.next_call.saturating_add(1);
        if planned {
            Err(self.faults.raise())
        } else {
            Ok(())
        }
    }
}
