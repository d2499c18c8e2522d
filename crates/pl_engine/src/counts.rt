//! What is counted of the items.
ghost use Rattle.std.specs.Prelude.{◌≡◌, ◌+◌, ◌≤◌, ◌∷◌, ◌^◌, [], List};
ghost use Rattle.arrayvec.specs.ArrayVec.{array_vec_len};
ghost use Rattle.pl_capture.specs.Entry.{Entry};
ghost use Rattle.pl_engine.specs.Events.{number_after};
ghost use Rattle.pl_engine.specs.Judges.{Arrived};
ghost use Rattle.pl_engine.specs.Parts.{PartsStandFor};
ghost use Rattle.pl_engine.specs.Verdicts.{verdicts_at};
ghost use Rattle.pl_profile.specs.declared.profile.Profile.{Profile};

use crate::arrival::Arrival;
use crate::broken::Broken;
use crate::parts::{MOST_OF_AN_ITEM, Parts};
use crate::peaks::Peaks;
use crate::traffic::Arrivals;
use pl_base::{Dir, Found};

/// The packets that came, the most that was kept, and how often each rule is broken.
#[derive(Clone, Copy)]
pub(crate) struct Counts {
    pub(crate) arrivals: Arrivals,
    pub(crate) peaks: Peaks,
    pub(crate) broken: Broken,
}

impl Counts {
    ghost use Rattle.pl_engine.specs.Counts.{AreBefore, CountsStandFor};

    /// Nothing came.
    pub(crate) fn new() -> Counts
        ensures stands { (profile : Profile) → CountsStandFor profile result [] }
        ensures before { AreBefore 1 result }
    {
        let arrivals = Arrivals::new();
        let peaks = Peaks::new();
        let broken = Broken::new();
        Counts {
            arrivals,
            peaks,
            broken,
        }
    }

    /// Counts item `at` of this direction, which came so and broke these rules, and behind which
    /// the parts stand so.
    pub(crate) fn add(&mut self, dir: Dir, arrival: Arrival, found: &Found, parts: &Parts, at: u64)
        requires before { AreBefore at self.old }
        requires few { at ≤ 2 ^ 59 }
        requires most { array_vec_len found.now ≤ MOST_OF_AN_ITEM }
        ensures stands { (profile : Profile) (past : List Entry) (x : Entry) →
            CountsStandFor profile self.old past →
            x.dir ≡ dir → Arrived past x arrival → found.now.items ≡ verdicts_at profile past x →
            at ≡ number_after past →
            PartsStandFor profile parts.now (x ∷ past) →
            CountsStandFor profile self.new (x ∷ past) }
        ensures before { AreBefore (at + 1) self.new }
    {
        self.arrivals.come(dir, arrival);
        self.broken.add_all(found, at);
        let outstanding = parts.pairs.outstanding();
        let down = parts.lanes.unacknowledged_of(Dir::Down);
        let up = parts.lanes.unacknowledged_of(Dir::Up);
        self.peaks.rise(outstanding, down, up);
    }
}
