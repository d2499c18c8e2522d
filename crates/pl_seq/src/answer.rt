//! What an Ack or Nak answers, and what it breaks.
//! PCI Express Base Specification 5.0, chapter 3: a transmitter's test of an Ack or Nak.
ghost use Rattle.std.specs.Prelude.{◌≡◌, ◌<◌, ◌≤◌, Bool, List, [], ◌∷◌, drop};
ghost use Rattle.std.specs.Prelude.{if◌then◌else◌, length};
ghost use Rattle.arrayvec.specs.ArrayVec.{array_vec_len};
ghost use Rattle.pl_seq.specs.Runs.{is_ahead, is_valid, newly_answered};
ghost use Rattle.pl_seq.specs.History.{Event, Ack, counted};
ghost use Rattle.pl_seq.specs.Rules.{lane_verdicts};
ghost use Rattle.pl_seq.specs.Lane.{StandsFor};

use crate::lane::Lane;
use crate::number::after;
use pl_base::{Found, Rule, add_if};

impl Lane {
    /// An Ack or Nak that is valid: it answers so many TLPs more.
    #[tactic(auto, unfolding(crate::specs::Rules::lane_verdicts))]
    pub(crate) fn retire(&mut self, count: u16, number: u16, at: u64)
        requires number { number < 4096 }
        requires valid { is_valid self.old.run number ≡ Bool.true }
        requires count { count ≡ newly_answered self.old.run number }
        requires within { count ≤ length self.old.unacknowledged }
        ensures none { (past : List Event) → StandsFor self.old past →
            lane_verdicts past (Ack number at) ≡ [] }
        ensures stands { (past : List Event) → StandsFor self.old past →
            StandsFor self.new (Ack number at ∷ past) }
        ensures retires { self.new.unacknowledged ≡ drop count self.old.unacknowledged }
        ensures latest { self.new.latest_tlp ≡ self.old.latest_tlp }
        ensures room { self.new.room ≡ self.old.room }
        ensures runs { self.new.runs ≡ self.old.runs }
    {
        self.retry.retire(count);
        self.run.answer(number, count);
    }

    /// An Ack or Nak that isn't valid: S5, or where it is ahead, the beginning of a run behind it.
    /// Apart, since few are.
    #[cold]
    #[inline(never)]
    #[tactic(auto, unfolding(crate::specs::Rules::lane_verdicts))]
    pub(crate) fn miss(&mut self, number: u16, at: u64, found: &mut Found)
        requires number { number < 4096 }
        requires invalid { is_valid self.old.run number ≡ Bool.false }
        requires none { found.old.items ≡ [] }
        ensures verdicts { (past : List Event) → StandsFor self.old past →
            found.new.items ≡ lane_verdicts past (Ack number at) }
        ensures stands { (past : List Event) → StandsFor self.old past →
            StandsFor self.new (Ack number at ∷ past) }
        ensures few { array_vec_len found.new ≤ 1 }
        ensures retires { self.new.unacknowledged ≡ (if is_ahead self.old.run number then []
            else self.old.unacknowledged) }
        ensures latest { self.new.latest_tlp ≡ self.old.latest_tlp }
        ensures room { self.new.room ≡ self.old.room }
        ensures runs { self.new.runs ≡ counted (is_ahead self.old.run number) self.old.runs }
    {
        if self.run.is_ahead(number) {
            self.begin_run(true, Some(after(number)));
        } else {
            let judged = !self.run.is_torn();
            add_if(found, judged, Rule::S5, at, self.latest_taken, None);
        }
    }
}
