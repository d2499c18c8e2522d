//! Files in memory.
ghost use Rattle.std.specs.Prelude.{◌≡◌, ◌≢◌, ◌<◌, ◌≤◌, ◌⊎◌, ◌↔◌, ℕ, List, length, take};
ghost use Rattle.std.specs.Prelude.{true, false, Some, None, is_some, option_map, refl};
ghost use Rattle.std.specs.Prelude.{IfOk, IfSome, IsErr, IsSome, OnOk, OnErr};
ghost use Rattle.std.proofs.Common.{arith};
ghost use Rattle.std.proofs.Props.{props};
ghost use Rattle.std.proofs.lemmas.Bool.Decides.{nat_tests};
ghost use Rattle.pl_io.specs.Faults.{HasCause, raised};
ghost use Rattle.pl_io.specs.FaultPlan.{IsCalled, IsFresh, IsPlanned, is_sure, none_from};
ghost use Rattle.pl_io.specs.MemFiles.{IsInside, file_in, given, opened_name, unread};
ghost use Rattle.pl_io.specs.Told.{ahead};

use crate::failed::Failed;
use crate::memory::file::{MemFile, Opened, newest};
use crate::memory::plan::FaultPlan;
use crate::shelf::Shelf;
use std::alloc::{AllocError, Global};

/// Files in memory by their names. It tells them all.
#[derive(Debug, Drop)]
pub struct MemShelf {
    alloc: Global,
    /// Oldest first: of two with one name the newer is the file of that name.
    files: Vec<MemFile>,
    opened: Option<Opened>,
    /// How often `open` was called.
    opens: u64,
    /// At most so many bytes are given by one read.
    step: usize,
    plan: FaultPlan,
    ghost inside: { IfSome opened (IsInside files.items) } by { Prim.hlevel props },
    ghost some_step: { 0 < step },
}

impl MemShelf {
    /// A shelf with no files. A read gives as many bytes as `step`, at least 1, the buffer and what
    /// is left of the file allow. `fails` names the calls that fail, counted from 1 over open and
    /// read. Besides these only the opening of an absent name fails. The shelf is sure exactly
    /// where no call that is still to come is named.
    pub fn new(alloc: Global, step: usize, fails: &[u64]) -> Result<MemShelf, AllocError>
        requires { 0 < step }
        ensures told { IfOk result (λ shelf. ⟦<Self as Shelf>⟧.told shelf ≡ true) }
        ensures no_files { IfOk result (λ shelf. (name : List ℕ) →
            ⟦<Self as Shelf>⟧.file shelf name ≡ None) }
        ensures closed { IfOk result (λ shelf. ⟦<Self as Shelf>⟧.is_open shelf ≡ false) }
        ensures none_opened { IfOk result (λ shelf. ⟦<Self as Shelf>⟧.opens shelf ≡ 0) }
        ensures no_name { IfOk result (λ shelf. ⟦<Self as Shelf>⟧.open_name shelf ≡ None) }
        ensures sure { IfOk result (λ shelf. ⟦<Self as Shelf>⟧.sure shelf ≡ none_from 1 fails.now) }
        ensures step { IfOk result (λ shelf. shelf.step ≡ step) }
        ensures plan { IfOk result (λ shelf. IsFresh shelf.plan fails.now) }
        ensures none_failed { IfOk result (λ shelf. ⟦<Self as Shelf>⟧.faults shelf ≡ 0) }
    {
        Ok(MemShelf {
            alloc,
            files: Vec::new(alloc),
            opened: None,
            opens: 0,
            step,
            plan: FaultPlan::new(alloc, fails)?,
        })
    }

    /// Puts a file under a name, in place of the one that is there. An open file stays open as it
    /// is, also where it is the one that is replaced. After `AllocError` the shelf is as before.
    pub fn add(&mut self, name: &str, bytes: &[u8]) -> Result<(), AllocError>
        ensures added { OnOk result (⟦<Self as Shelf>⟧.file self.new name.now ≡ Some bytes.now) }
        ensures others { (other : List ℕ) → other ≢ name.now →
            ⟦<Self as Shelf>⟧.file self.new other ≡ ⟦<Self as Shelf>⟧.file self.old other }
        ensures err { OnErr result ((other : List ℕ) →
            ⟦<Self as Shelf>⟧.file self.new other ≡ ⟦<Self as Shelf>⟧.file self.old other) }

        // All else stays.
        ensures is_open { ⟦<Self as Shelf>⟧.is_open self.new ≡ ⟦<Self as Shelf>⟧.is_open self.old }
        ensures step { self.new.step ≡ self.old.step }
        ensures plan { self.new.plan ≡ self.old.plan }
        ensures opens { ⟦<Self as Shelf>⟧.opens self.new ≡ ⟦<Self as Shelf>⟧.opens self.old }
        ensures open_name { ⟦<Self as Shelf>⟧.open_name self.new
            ≡ ⟦<Self as Shelf>⟧.open_name self.old }
        ensures rest { ⟦<Self as Shelf>⟧.rest self.new ≡ ⟦<Self as Shelf>⟧.rest self.old }
        ensures sure { ⟦<Self as Shelf>⟧.sure self.new ≡ ⟦<Self as Shelf>⟧.sure self.old }
        ensures faults { ⟦<Self as Shelf>⟧.faults self.new ≡ ⟦<Self as Shelf>⟧.faults self.old }
    {
        let file = MemFile::new(self.alloc, name, bytes)?;
        self.files.push(file)?;
        Ok(())
    }
}

impl Shelf for MemShelf {
    ghost told = { λ shelf. true };

    ghost file = { λ shelf name. file_in shelf.files.items name };

    ghost is_open = { λ shelf. is_some shelf.opened };

    ghost opens = { λ shelf. shelf.opens };

    ghost open_name = { λ shelf. option_map (opened_name shelf.files.items) shelf.opened };

    ghost rest = { λ shelf. option_map (unread shelf.files.items) shelf.opened };

    ghost sure = { λ shelf. is_sure shelf.plan };

    ghost faults = { λ shelf. shelf.plan.faults.value };

    ghost sure_is_told = { λ shelf _. refl };

    ghost sure_is_below = { λ shelf sure. Prim.grind (arith, nat_tests) };

    fn open(&mut self, name: &str) -> Result<(), Failed>
        // It fails exactly where the plan says so, or no file has the name.
        ensures fails { IsErr result
            ↔ (IsPlanned self.old.plan ⊎ (file_in self.old.files.items name.now ≡ None)) }
        ensures called { IsCalled self.old.plan self.new.plan }
        ensures same_step { self.new.step ≡ self.old.step }
        ensures same_files { self.new.files.items ≡ self.old.files.items }

        ensures whole { OnOk result (IsSome (⟦<Self as Shelf>⟧.rest self.new)
            × (⟦<Self as Shelf>⟧.rest self.new ≡ file_in self.old.files.items name.now)) }
        ensures named { OnOk result (⟦<Self as Shelf>⟧.open_name self.new ≡ Some name.now) }
        ensures closed { OnErr result (is_some self.new.opened ≡ false) }
        ensures counted { self.new.opens ≡ raised self.old.opens }
        ensures still_sure { OnOk result (is_sure self.new.plan ≡ is_sure self.old.plan) }
        ensures cause { HasCause self.old.plan.faults.value self.new.plan.faults.value result }
        ensures never_falls { self.old.plan.faults.value ≤ self.new.plan.faults.value }
    {
        self.opened = None;
        self.opens = self.opens.saturating_add(1);
        self.plan.begin_call()?;
        match newest(&self.files, name) {
            Some(file) => {
                self.opened = Some(Opened { file, place: 0 });
                Ok(())
            }
            None => Err(self.plan.faults.raise()),
        }
    }

    fn read(&mut self, buf: &mut [u8]) -> Result<usize, Failed>
        requires opened { is_some self.old.opened ≡ true }
        requires buffer { 0 < length buf.old }
        // It fails exactly where the plan says so, and else gives as much as it may.
        ensures fails { IsErr result ↔ IsPlanned self.old.plan }
        ensures count { IfOk result (λ n.
            n ≡ given self.old.step (length buf.old) (⟦<Self as Shelf>⟧.rest self.old)) }
        ensures called { IsCalled self.old.plan self.new.plan }
        ensures same_step { self.new.step ≡ self.old.step }
        ensures same_files { self.new.files.items ≡ self.old.files.items }

        ensures bytes { IfOk result (λ n. ⟦<Self as Shelf>⟧.rest self.old
            ≡ ahead (take n buf.new) (⟦<Self as Shelf>⟧.rest self.new)) }
        ensures err { OnErr result (self.new.opened ≡ self.old.opened) }
        ensures opened { is_some self.new.opened ≡ true }
        ensures most { IfOk result (λ n. n ≤ length buf.new) }
        ensures opens { self.new.opens ≡ self.old.opens }
        ensures name_kept { ⟦<Self as Shelf>⟧.open_name self.new
            ≡ ⟦<Self as Shelf>⟧.open_name self.old }
        ensures still_sure { OnOk result (is_sure self.new.plan ≡ is_sure self.old.plan) }
        ensures cause { HasCause self.old.plan.faults.value self.new.plan.faults.value result }
        ensures never_falls { self.old.plan.faults.value ≤ self.new.plan.faults.value }
    {
        self.plan.begin_call()?;
        match &mut self.opened {
            Some(opened) => Ok(opened.read(&self.files, self.step, buf)),
            None => unreachable!(),
        }
    }
}
