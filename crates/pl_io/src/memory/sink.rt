//! Output in memory.
ghost use Rattle.std.specs.Prelude.{◌≡◌, ◌+◌, ◌-◌, ◌<◌, ◌≤◌, ◌⊎◌, ◌↔◌, ℕ, [], ◌++◌, min};
ghost use Rattle.std.specs.Prelude.{Some, None, if◌then◌else◌, IfOk, IsErr, OnErr, length, take};
ghost use Rattle.std.proofs.Common.{arith};
ghost use Rattle.std.proofs.lemmas.Bool.Decides.{nat_tests};
ghost use Rattle.pl_io.specs.Faults.{HasCause};
ghost use Rattle.pl_io.specs.FaultPlan.{IsCalled, IsFresh, IsPlanned, is_sure, none_from};
ghost use Rattle.pl_io.specs.Told.{HasRoom, Lowered};

use crate::failed::Failed;
use crate::memory::plan::FaultPlan;
use crate::memory::reserved::Reserved;
use crate::sink::Sink;
use std::alloc::{AllocError, Global};

/// Output in memory, up to a room that is reserved from the beginning. It tells what was written.
#[derive(Debug, Drop)]
pub struct MemSink {
    output: Reserved,
    /// At most so many bytes are taken by one write.
    take: usize,
    plan: FaultPlan,
    ghost some_take: { 0 < take },
}

impl MemSink {
    /// A sink with nothing written and room for `room` bytes, which it reserves: no later call
    /// takes memory. A write takes as many bytes as `take`, at least 1, the piece and the room
    /// allow. `fails` names the writes that fail, counted from 1. Besides these only the write of
    /// something into a full room fails. The room is told exactly where no write that is still to
    /// come is named.
    pub fn new(
        alloc: Global,
        room: usize,
        take: usize,
        fails: &[u64],
    ) -> Result<MemSink, AllocError>
        requires { 0 < take }
        ensures nothing { IfOk result (λ sink. ⟦<Self as Sink>⟧.written sink ≡ Some []) }
        ensures room { IfOk result (λ sink. ⟦<Self as Sink>⟧.room sink
            ≡ (if none_from 1 fails.now then Some room else None)) }
        ensures left { IfOk result (λ sink. sink.output.left ≡ room) }
        ensures take { IfOk result (λ sink. sink.take ≡ take) }
        ensures plan { IfOk result (λ sink. IsFresh sink.plan fails.now) }
        ensures none_failed { IfOk result (λ sink. ⟦<Self as Sink>⟧.faults sink ≡ 0) }
    {
        Ok(MemSink {
            output: Reserved::new(alloc, room)?,
            take,
            plan: FaultPlan::new(alloc, fails)?,
        })
    }

    /// The bytes written so far.
    pub fn written(&self) -> &[u8]
        ensures { ⟦<Self as Sink>⟧.written self.now ≡ Some result.now }
    {
        &self.output.bytes
    }
}

impl Sink for MemSink {
    ghost written = { λ sink. Some sink.output.bytes.items };

    ghost room = { λ sink. if is_sure sink.plan then Some sink.output.left else None };

    ghost faults = { λ sink. sink.plan.faults.value };

    ghost room_is_below = { λ sink told. Prim.grind (arith, nat_tests) };

    fn write(&mut self, piece: &[u8]) -> Result<usize, Failed>
        // It fails exactly where the plan says so or the room is full, and else takes as much as
        // it may.
        ensures fails { IsErr result
            ↔ (IsPlanned self.old.plan ⊎ ((self.old.output.left ≡ 0) × (0 < length piece.now))) }
        ensures count { IfOk result (λ n.
            n ≡ min (min self.old.take (length piece.now)) self.old.output.left) }
        ensures left { IfOk result (λ n. self.new.output.left ≡ self.old.output.left - n) }
        ensures left_kept { OnErr result (self.new.output.left ≡ self.old.output.left) }
        ensures called { IsCalled self.old.plan self.new.plan }
        ensures same_take { self.new.take ≡ self.old.take }

        ensures bytes { IfOk result (λ n.
            self.new.output.bytes.items ≡ self.old.output.bytes.items ++ take n piece.now) }
        ensures err { OnErr result (self.new.output.bytes.items ≡ self.old.output.bytes.items) }
        ensures room_left { IfOk result (λ n. (k : ℕ) →
            HasRoom (⟦<Self as Sink>⟧.room self.old) (n + k) →
            HasRoom (⟦<Self as Sink>⟧.room self.new) k) }
        ensures room_taken { IfOk result (λ n.
            Lowered (⟦<Self as Sink>⟧.room self.old) n (⟦<Self as Sink>⟧.room self.new)) }
        ensures cause { HasCause self.old.plan.faults.value self.new.plan.faults.value result }
        ensures never_falls { self.old.plan.faults.value ≤ self.new.plan.faults.value }
    {
        self.plan.begin_call()?;
        let count = self.output.append(piece, self.take);
        if count == 0 && !piece.is_empty() {
            return Err(self.plan.faults.raise());
        }
        Ok(count)
    }
}
