//! A connection in memory.
ghost use Rattle.std.specs.Prelude.{◌≡◌, ◌+◌, ◌-◌, ◌<◌, ◌≤◌, ◌⊎◌, ◌↔◌, ◌^◌, ℕ, [], ◌++◌, min};
ghost use Rattle.std.specs.Prelude.{Some, None, if◌then◌else◌, IfOk, IsErr, IsOk, OnOk, OnErr};
ghost use Rattle.std.specs.Prelude.{length, take, drop};
ghost use Rattle.std.proofs.Common.{arith};
ghost use Rattle.std.proofs.lemmas.Bool.Decides.{nat_tests};
ghost use Rattle.pl_io.specs.Faults.{HasCause};
ghost use Rattle.pl_io.specs.FaultPlan.{IsCalled, IsFresh, IsPlanned, is_sure, none_from};
ghost use Rattle.pl_io.specs.MemFiles.{given};
ghost use Rattle.pl_io.specs.Told.{ahead, HasRoom, Lowered};

use crate::conn::Conn;
use crate::failed::Failed;
use crate::memory::file::copy_front;
use crate::memory::plan::FaultPlan;
use crate::memory::reserved::Reserved;
use std::alloc::{AllocError, Global};

/// What a peer sends, and a room for what is sent to it, which is reserved from the beginning. It
/// tells both.
#[derive(Debug, Drop)]
pub struct MemConn {
    bytes: Vec<u8>,
    /// How many of the bytes were read.
    place: usize,
    /// At most so many bytes are given by one read, and taken by one write.
    step: usize,
    sent: Reserved,
    plan: FaultPlan,
    ghost inside: { place ≤ length bytes.items },
    ghost some_step: { 0 < step },
}

impl MemConn {
    /// A peer that sends a copy of `incoming`, with room for `room` bytes to it, which it reserves:
    /// no later call takes memory. A read gives as many bytes as `step`, at least 1, the buffer and
    /// what is still to come allow; a write takes as many as `step`, the piece and the room allow.
    /// `fails` names the calls that fail, counted from 1 over reads and writes. Besides these only
    /// the write of something into a full room fails. The room is told exactly where no call that
    /// is still to come is named.
    pub fn new(
        alloc: Global,
        incoming: &[u8],
        step: usize,
        room: usize,
        fails: &[u64],
    ) -> Result<MemConn, AllocError>
        requires { 0 < step }
        ensures incoming { IfOk result (λ conn.
            ⟦<Self as Conn>⟧.incoming conn ≡ Some incoming.now) }
        ensures nothing { IfOk result (λ conn. ⟦<Self as Conn>⟧.written conn ≡ Some []) }
        ensures room { IfOk result (λ conn. ⟦<Self as Conn>⟧.room conn
            ≡ (if none_from 1 fails.now then Some room else None)) }
        ensures left { IfOk result (λ conn. conn.sent.left ≡ room) }
        ensures step { IfOk result (λ conn. conn.step ≡ step) }
        ensures plan { IfOk result (λ conn. IsFresh conn.plan fails.now) }
        ensures none_failed { IfOk result (λ conn. ⟦<Self as Conn>⟧.faults conn ≡ 0) }
    {
        Ok(MemConn {
            bytes: incoming.to_vec(alloc)?,
            place: 0,
            step,
            sent: Reserved::new(alloc, room)?,
            plan: FaultPlan::new(alloc, fails)?,
        })
    }

    /// What is still to come.
    fn unread(&self) -> &[u8]
        ensures unread { result.now ≡ drop self.now.place self.now.bytes.items }
        ensures fits { length self.now.bytes.items < 2 ^ 64 }
    {
        &self.bytes[self.place..]
    }

    /// The bytes written so far.
    pub fn written(&self) -> &[u8]
        ensures { ⟦<Self as Conn>⟧.written self.now ≡ Some result.now }
    {
        &self.sent.bytes
    }
}

impl Conn for MemConn {
    ghost incoming = { λ conn. Some (drop conn.place conn.bytes.items) };

    ghost written = { λ conn. Some conn.sent.bytes.items };

    ghost room = { λ conn. if is_sure conn.plan then Some conn.sent.left else None };

    ghost faults = { λ conn. conn.plan.faults.value };

    ghost room_is_below = { λ conn told. Prim.grind (arith, nat_tests) };

    fn read(&mut self, buf: &mut [u8]) -> Result<usize, Failed>
        requires { 0 < length buf.old }
        // It fails exactly where the plan says so, and else gives as much as it may.
        ensures fails { IsErr result ↔ IsPlanned self.old.plan }
        ensures count { IfOk result (λ n.
            n ≡ given self.old.step (length buf.old) (⟦<Self as Conn>⟧.incoming self.old)) }
        ensures called { IsCalled self.old.plan self.new.plan }
        ensures same_step { self.new.step ≡ self.old.step }
        ensures sent { self.new.sent ≡ self.old.sent }

        ensures bytes { IfOk result (λ n. ⟦<Self as Conn>⟧.incoming self.old
            ≡ ahead (take n buf.new) (⟦<Self as Conn>⟧.incoming self.new)) }
        ensures most { IfOk result (λ n. n ≤ length buf.new) }
        ensures err { OnErr result (⟦<Self as Conn>⟧.incoming self.new
            ≡ ⟦<Self as Conn>⟧.incoming self.old) }
        ensures still_sure { OnOk result (is_sure self.new.plan ≡ is_sure self.old.plan) }
        ensures cause { HasCause self.old.plan.faults.value self.new.plan.faults.value result }
        ensures never_falls { self.old.plan.faults.value ≤ self.new.plan.faults.value }
    {
        self.plan.begin_call()?;
        let count = copy_front(self.unread(), self.step, buf);
        self.place += count;
        Ok(count)
    }

    fn write(&mut self, piece: &[u8]) -> Result<usize, Failed>
        // It fails exactly where the plan says so or the room is full, and else takes as much as
        // it may.
        ensures fails { IsErr result
            ↔ (IsPlanned self.old.plan ⊎ ((self.old.sent.left ≡ 0) × (0 < length piece.now))) }
        ensures count { IfOk result (λ n.
            n ≡ min (min self.old.step (length piece.now)) self.old.sent.left) }
        ensures left { IfOk result (λ n. self.new.sent.left ≡ self.old.sent.left - n) }
        ensures left_kept { OnErr result (self.new.sent.left ≡ self.old.sent.left) }
        ensures called { IsCalled self.old.plan self.new.plan }
        ensures same_step { self.new.step ≡ self.old.step }
        ensures incoming { ⟦<Self as Conn>⟧.incoming self.new ≡ ⟦<Self as Conn>⟧.incoming self.old }

        ensures bytes { IfOk result (λ n.
            self.new.sent.bytes.items ≡ self.old.sent.bytes.items ++ take n piece.now) }
        ensures err { OnErr result (self.new.sent.bytes.items ≡ self.old.sent.bytes.items) }
        ensures fits { HasRoom (⟦<Self as Conn>⟧.room self.old) (length piece.now) → IsOk result }
        ensures room_left { IfOk result (λ n. (k : ℕ) →
            HasRoom (⟦<Self as Conn>⟧.room self.old) (n + k) →
            HasRoom (⟦<Self as Conn>⟧.room self.new) k) }
        ensures room_taken { IfOk result (λ n.
            Lowered (⟦<Self as Conn>⟧.room self.old) n (⟦<Self as Conn>⟧.room self.new)) }
        ensures cause { HasCause self.old.plan.faults.value self.new.plan.faults.value result }
        ensures never_falls { self.old.plan.faults.value ≤ self.new.plan.faults.value }
    {
        self.plan.begin_call()?;
        let count = self.sent.append(piece, self.step);
        if count == 0 && !piece.is_empty() {
            return Err(self.plan.faults.raise());
        }
        Ok(count)
    }
}
