//! The engine itself.
ghost use Rattle.std.specs.Prelude.{◌≡◌, ◌+◌, ◌<◌, ◌≤◌, ◌∷◌, ◌^◌, [], List, IfOk, IfErr, OnOk};
ghost use Rattle.std.specs.Prelude.{OnErr, Some, None};
ghost use Rattle.arrayvec.specs.ArrayVec.{array_vec_len};
ghost use Rattle.pl_capture.specs.Entry.{Entry, view as entry, IsLawful};
ghost use Rattle.pl_engine.specs.Counts.{AreBefore};
ghost use Rattle.pl_engine.specs.Parts.{IsReady};

use crate::broken::Broken;
use crate::counts::Counts;
use crate::parts::Parts;
use crate::refused::Refused;
use crate::traffic::Arrivals;
use pl_base::{Dir, Found, MOST_VERDICTS, Tally};
use pl_capture::Item;
use pl_profile::Profile;
use std::alloc::{AllocError, Global};

/// How many notes stand for the latest items, the initial credits, the grants and the marks.
const NOTES: u64 = 512;

/// Judges the items of a capture one after another, under the profile with which it was opened.
///
/// It keeps no item: only the numbers and the unacknowledged TLPs of both lanes, the credits, the
/// open requests, and counts.
#[derive(Drop)]
pub struct Engine {
    profile: Profile,
    items: u64,
    parts: Parts,
    counts: Counts,
    ghost ready: { IsReady profile (items + 1) parts },
    ghost counted: { AreBefore (items + 1) counts },
}

impl Engine {
    ghost use Rattle.pl_engine.specs.Engine.{StandsFor};
    ghost use Rattle.pl_engine.specs.Tally.{open_after, tally_of, unacknowledged_after};
    ghost use Rattle.pl_engine.specs.Verdicts.{blocked, verdicts_at};

    /// An engine that has judged nothing. It takes all the memory that it ever uses.
    ///
    /// # Errors
    ///
    /// Where this memory is wanting.
    pub fn open(alloc: Global, profile: Profile) -> Result<Engine, AllocError>
        ensures stands { IfOk result (λ engine. StandsFor engine []) }
        ensures profile { IfOk result (λ engine. engine.profile ≡ profile) }
        ensures items { IfOk result (λ engine. engine.items ≡ 0) }
    {
        let parts = Parts::open(alloc, &profile)?;
        Ok(Engine {
            profile,
            items: 0,
            parts,
            counts: Counts::new(),
        })
    }

    /// Judges the next item: the verdicts, in the order of the rules. It takes no memory.
    ///
    /// # Errors
    ///
    /// Where the item would be taken and has no room among the unacknowledged TLPs of its
    /// direction, or where it has no room among the open requests; in this order. The engine is
    /// then unchanged.
    pub fn feed(&mut self, item: &Item) -> Result<Found, Refused>
        requires lawful { IsLawful (entry item.now) }
        requires few { self.old.items < 2 ^ 59 }

        // For every history for which the engine stands, the answer is that of the rules.
        ensures refused { (past : List Entry) → StandsFor self.old past → IfErr result (λ refused.
            blocked self.old.profile past (entry item.now) ≡ Some refused) }
        ensures allowed { (past : List Entry) → StandsFor self.old past →
            OnOk result (blocked self.old.profile past (entry item.now) ≡ None) }
        ensures verdicts { (past : List Entry) → StandsFor self.old past → IfOk result (λ found.
            found.items ≡ verdicts_at self.old.profile past (entry item.now)) }
        ensures stands { (past : List Entry) → StandsFor self.old past →
            OnOk result (StandsFor self.new (entry item.now ∷ past)) }

        ensures most { IfOk result (λ found. array_vec_len found ≤ MOST_VERDICTS) }
        ensures profile { self.new.profile ≡ self.old.profile }
        ensures items { OnOk result (self.new.items ≡ self.old.items + 1) }
        ensures err { OnErr result (self.new ≡ self.old) }
    {
        let mut found = Found::new();
        self.feed_into(item, &mut found)?;
        Ok(found)
    }

    /// As [`Engine::feed`], with the verdicts in a list that was empty, and is empty after a
    /// refusal.
    pub fn feed_into(&mut self, item: &Item, found: &mut Found) -> Result<(), Refused>
        requires lawful { IsLawful (entry item.now) }
        requires few { self.old.items < 2 ^ 59 }
        requires none { found.old.items ≡ [] }

        ensures refused { (past : List Entry) → StandsFor self.old past → IfErr result (λ refused.
            blocked self.old.profile past (entry item.now) ≡ Some refused) }
        ensures allowed { (past : List Entry) → StandsFor self.old past →
            OnOk result (blocked self.old.profile past (entry item.now) ≡ None) }
        ensures verdicts { (past : List Entry) → StandsFor self.old past →
            OnOk result (found.new.items ≡ verdicts_at self.old.profile past (entry item.now)) }
        ensures stands { (past : List Entry) → StandsFor self.old past →
            OnOk result (StandsFor self.new (entry item.now ∷ past)) }

        ensures most { array_vec_len found.new ≤ MOST_VERDICTS }
        ensures profile { self.new.profile ≡ self.old.profile }
        ensures items { OnOk result (self.new.items ≡ self.old.items + 1) }
        ensures err { OnErr result (self.new ≡ self.old) }
        ensures none { OnErr result (found.new ≡ found.old) }
    {
        let at = self.items + 1;
        let arrival = self.parts.judge(&self.profile, item, at, found)?;
        self.counts.add(item.dir, arrival, found, &self.parts, at);
        self.items = at;
        Ok(())
    }

    /// How many things it keeps of the items, however many these were: the open requests, the
    /// unacknowledged TLPs of both directions, and 512 for the latest items, the initial credits,
    /// the grants and the marks, which are never more.
    pub fn kept(&self) -> u64
        ensures { (past : List Entry) → StandsFor self.now past →
            result ≡ open_after past
            + (unacknowledged_after Dir.Down past + unacknowledged_after Dir.Up past) + NOTES }
    {
        u64::from(self.parts.pairs.outstanding()) + self.parts.lanes.unacknowledged() + NOTES
    }

    /// What is counted of the items that it judged.
    pub fn tally(&self) -> Tally
        ensures { (past : List Entry) → StandsFor self.now past →
            result ≡ tally_of self.now.profile past }
    {
        let Arrivals {
            down,
            up,
            link_down,
        } = self.counts.arrivals;
        let Broken {
            rules,
            first_at,
            verdicts,
        } = self.counts.broken;
        let outstanding = u64::from(self.counts.peaks.outstanding);
        let unacknowledged_down = u64::from(self.counts.peaks.down);
        let unacknowledged_up = u64::from(self.counts.peaks.up);
        Tally {
            items: self.items,
            tlp: [down.tlp, up.tlp],
            dllp: [down.dllp, up.dllp],
            link_down,
            taken: [down.taken, up.taken],
            repeat: [down.repeat, up.repeat],
            stray: [down.stray, up.stray],
            spoiled: [down.spoiled, up.spoiled],
            nullified: [down.nullified, up.nullified],
            most_outstanding: outstanding,
            most_unacknowledged: [unacknowledged_down, unacknowledged_up],
            rules,
            first_at,
            verdicts,
        }
    }
}
