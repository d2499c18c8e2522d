//! Connections in memory, one after another.
ghost use Rattle.std.specs.Prelude.{◌≡◌, ◌+◌, ◌≤◌, ◌⊎◌, ◌↔◌, [], ◌∷◌, ◌++◌, ℕ, length};
ghost use Rattle.std.specs.Prelude.{true, false, Some, if◌then◌else◌, slice_get};
ghost use Rattle.std.specs.Prelude.{IfOk, IfSome, IfNone, IsErr, OnOk, OnErr};
ghost use Rattle.std.specs.Prelude.{vec_len, vec_capacity};
ghost use Rattle.std.specs.VecDeque.{deque_len};
ghost use Rattle.std.proofs.Common.{arith};
ghost use Rattle.std.proofs.lemmas.Bool.Decides.{nat_tests};
ghost use Rattle.pl_io.specs.Faults.{HasCause};
ghost use Rattle.pl_io.specs.FaultPlan.{IsCalled, IsFresh, IsPlanned, is_sure, none_from};
ghost use Rattle.pl_io.specs.MemLinks.{replies_of, told_links};

use crate::door::Door;
use crate::failed::Failed;
use crate::memory::conn::MemConn;
use crate::memory::plan::FaultPlan;
use std::alloc::{AllocError, Global};
use std::collections::VecDeque;

/// Hands out connections in memory, and keeps those that were closed. It tells its replies.
#[derive(Debug, Drop)]
pub struct MemDoor {
    links: VecDeque<MemConn>,
    /// Oldest first, with room for each link that is left or out.
    closed: Vec<MemConn>,
    is_out: bool,
    plan: FaultPlan,
    ghost reserved: { deque_len links + (vec_len closed + (if is_out then 1 else 0))
        ≤ vec_capacity closed },
}

impl MemDoor {
    /// A door that hands out these links in order, with none out. `fails` names the calls of `next`
    /// that fail, counted from 1; such a call keeps all links that are left. Besides these only a
    /// call after the last link fails. The links are told exactly where no call that is still to
    /// come is named and each link that is left tells its room and has nothing written. No later
    /// call takes memory. After `AllocError` the links are given up.
    pub fn new(alloc: Global, links: Vec<MemConn>, fails: &[u64]) -> Result<MemDoor, AllocError>
        ensures links { IfOk result (λ door. ⟦<Self as Door>⟧.links door
            ≡ told_links (none_from 1 fails.now) links.items) }
        ensures no_replies { IfOk result (λ door. ⟦<Self as Door>⟧.replies door ≡ Some []) }
        ensures not_out { IfOk result (λ door. ⟦<Self as Door>⟧.is_out door ≡ false) }
        ensures held { IfOk result (λ door. door.links.items ≡ links.items) }
        ensures plan { IfOk result (λ door. IsFresh door.plan fails.now) }
        ensures none_failed { IfOk result (λ door. ⟦<Self as Door>⟧.faults door ≡ 0) }
    {
        Ok(MemDoor {
            closed: Vec::with_capacity(alloc, links.len())?,
            links: VecDeque::from(links),
            is_out: false,
            plan: FaultPlan::new(alloc, fails)?,
        })
    }

    /// What the k-th closed link, counted from 0, had written.
    pub fn written(&self, k: usize) -> Option<&[u8]>
        ensures found { IfSome result (λ bytes.
            slice_get (replies_of self.now.closed.items) k ≡ Some bytes.now) }
        ensures absent { IfNone result (length (replies_of self.now.closed.items) ≤ k) }
    {
        match self.closed.get(k) {
            Some(link) => Some(link.written()),
            None => None,
        }
    }
}

impl Door for MemDoor {
    type Link = MemConn;

    ghost links = { λ door. told_links (is_sure door.plan) door.links.items };

    ghost replies = { λ door. Some (replies_of door.closed.items) };

    ghost is_out = { λ door. door.is_out };

    ghost faults = { λ door. door.plan.faults.value };

    ghost links_are_below = { λ door told. Prim.grind (arith, nat_tests) };

    fn next(&mut self) -> Result<MemConn, Failed>
        requires { self.old.is_out ≡ false }
        // It fails exactly where the plan says so or no link is left, and else gives the first.
        ensures fails { IsErr result ↔ (IsPlanned self.old.plan ⊎ (self.old.links.items ≡ [])) }
        ensures first { IfOk result (λ link. self.old.links.items ≡ link ∷ self.new.links.items) }
        ensures kept { OnErr result (self.new.links.items ≡ self.old.links.items) }
        ensures out { OnOk result (self.new.is_out ≡ true) }
        ensures not_out { OnErr result (self.new.is_out ≡ false) }
        ensures closed { self.new.closed.items ≡ self.old.closed.items }
        ensures called { IsCalled self.old.plan self.new.plan }
        ensures still_sure { OnOk result (is_sure self.new.plan ≡ is_sure self.old.plan) }
        ensures cause { HasCause self.old.plan.faults.value self.new.plan.faults.value result }
        ensures never_falls { self.old.plan.faults.value ≤ self.new.plan.faults.value }
    {
        self.plan.begin_call()?;
        match self.links.pop_front() {
            Some(link) => {
                self.is_out = true;
                Ok(link)
            }
            None => Err(self.plan.faults.raise()),
        }
    }

    fn close(&mut self, link: MemConn)
        requires { self.old.is_out ≡ true }
        ensures in_again { self.new.is_out ≡ false }
        ensures closed { self.new.closed.items ≡ self.old.closed.items ++ link ∷ [] }
        ensures links { self.new.links.items ≡ self.old.links.items }
        ensures plan { self.new.plan ≡ self.old.plan }
    {
        self.is_out = false;
        match self.closed.push(link) {
            Ok(()) => {}
            Err(_) => unreachable!(),
        }
    }
}
