//! What a TLP breaks as it comes: a function for each place where it may stand.
//! PCI Express Base Specification 5.0, chapter 3: the receiver's test of a sequence number, and the
//! replay of TLPs.
ghost use Rattle.std.specs.Prelude.{◌≡◌, ◌≢◌, ◌+◌, ◌<◌, ◌≤◌, ◌&&◌, ◌++◌, Bool, List, [], ◌∷◌};
ghost use Rattle.std.specs.Prelude.{IfSome, Some, is_some, length, nat_le, slice_get};
ghost use Rattle.arrayvec.specs.ArrayVec.{array_vec_len};
ghost use Rattle.pl_seq.specs.Runs.{is_sure, place_of, with_taken};
ghost use Rattle.pl_seq.specs.History.{Event, Tlp, answered, counted, is_taken, opens, original};
ghost use Rattle.pl_seq.specs.History.{original_place};
ghost use Rattle.pl_seq.specs.Rules.{is_out_of_turn, lane_verdicts, position_of};
ghost use Rattle.pl_seq.specs.Rules.{repeats_unacknowledged};
ghost use Rattle.pl_seq.specs.Lane.{StandsFor, latest_position};

use crate::lane::{Lane, Latest};
use crate::number::{MOST_UNACKNOWLEDGED, before};
use crate::place::Place;
use crate::slot::LONGEST_TLP;
use pl_base::{Body, Found, Rule, add_if};

impl Lane {
    /// A TLP that isn't whole, or that `Sequence::is_due` doesn't know to have the next number:
    /// what it breaks of L1 and S1 to S4. Apart, since few are.
    #[cold]
    #[inline(never)]
    pub(crate) fn tlp_apart(
        &mut self,
        found: &mut Found,
        number: u16,
        tlp: &[u8],
        body: Body,
        at: u64,
    )
        requires number { number < 4096 }
        requires size { length tlp.now ≤ LONGEST_TLP }
        requires room { place_of self.old.run number body ≡ Place.Taken →
            length self.old.unacknowledged ≢ self.old.room }
        requires rises { latest_position self.old.latest_tlp < at }
        requires none { found.old.items ≡ [] }
        ensures verdicts { (past : List Event) → StandsFor self.old past →
            found.new.items ≡ lane_verdicts past (Tlp number tlp.now body at) }
        ensures stands { (past : List Event) → StandsFor self.old past →
            StandsFor self.new (Tlp number tlp.now body at ∷ past) }
        ensures few { array_vec_len found.new ≤ 2 }
        ensures few_taken { is_taken (place_of self.old.run number body) ≡ Bool.true →
            array_vec_len found.new ≤ 1 }
        ensures grows { place_of self.old.run number body ≡ Place.Taken →
            length self.new.unacknowledged ≡ length self.old.unacknowledged + 1 }
        ensures alone { place_of self.old.run number body ≡ Place.Opens →
            self.new.unacknowledged ≡ record { at = at; bytes = tlp.now } ∷ [] }
        ensures stays { is_taken (place_of self.old.run number body) ≡ Bool.false →
            self.new.unacknowledged ≡ self.old.unacknowledged }
        ensures latest { latest_position self.new.latest_tlp ≡ at }
        ensures room { self.new.room ≡ self.old.room }
        ensures runs { self.new.runs
            ≡ counted (opens (place_of self.old.run number body)) self.old.runs }
    {
        match self.place(number, body) {
            Place::Taken => self.take(found, number, tlp, at),
            Place::Repeat => self.repeat(found, number, tlp, at),
            Place::Stray => self.stray(found, number, tlp, at),
            Place::Dropped => self.drop_tlp(found, number, tlp, body, at),
            Place::Opens => self.jump(found, number, tlp, at),
        }
    }

    /// A TLP that has the next number: S4.
    #[inline(always)]
    #[tactic(auto, unfolding(crate::specs::Rules::lane_verdicts))]
    pub(crate) fn take(&mut self, found: &mut Found, number: u16, tlp: &[u8], at: u64)
        requires place { place_of self.old.run number Body.Whole ≡ Place.Taken }
        requires number { number < 4096 }
        requires size { length tlp.now ≤ LONGEST_TLP }
        requires room { length self.old.unacknowledged ≢ self.old.room }
        requires rises { latest_position self.old.latest_tlp < at }
        requires none { found.old.items ≡ [] }
        ensures verdicts { (past : List Event) → StandsFor self.old past →
            found.new.items ≡ lane_verdicts past (Tlp number tlp.now Body.Whole at) }
        ensures stands { (past : List Event) → StandsFor self.old past →
            StandsFor self.new (Tlp number tlp.now Body.Whole at ∷ past) }
        ensures few { array_vec_len found.new ≤ 1 }
        ensures grows { length self.new.unacknowledged ≡ length self.old.unacknowledged + 1 }
        ensures latest { latest_position self.new.latest_tlp ≡ at }
        ensures room { self.new.room ≡ self.old.room }
        ensures runs { self.new.runs ≡ self.old.runs }
    {
        let _ = &self.retry;
        if self.is_window_full() {
            add_if(found, true, Rule::S4, at, self.oldest(), None);
        }
        self.admit(number, tlp, at);
    }

    /// Whether 2,047 TLPs are known to be unacknowledged.
    fn is_window_full(&self) -> bool
        ensures { result ≡ (nat_le MOST_UNACKNOWLEDGED (length self.now.unacknowledged)
            && is_sure self.now.run) }
    {
        self.retry.len() >= MOST_UNACKNOWLEDGED && self.run.is_sure()
    }

    /// A TLP that is taken by a jump: a run begins with it. No rule speaks of it. Apart, since few
    /// TLPs are jumps.
    #[cold]
    #[inline(never)]
    #[tactic(auto, unfolding(crate::specs::Rules::lane_verdicts))]
    pub(crate) fn jump(&mut self, found: &mut Found, number: u16, tlp: &[u8], at: u64)
        requires place { place_of self.old.run number Body.Whole ≡ Place.Opens }
        requires number { number < 4096 }
        requires size { length tlp.now ≤ LONGEST_TLP }
        requires rises { latest_position self.old.latest_tlp < at }
        requires none { found.old.items ≡ [] }
        ensures verdicts { (past : List Event) → StandsFor self.old past →
            found.new.items ≡ lane_verdicts past (Tlp number tlp.now Body.Whole at) }
        ensures stands { (past : List Event) → StandsFor self.old past →
            StandsFor self.new (Tlp number tlp.now Body.Whole at ∷ past) }
        ensures few { array_vec_len found.new ≡ 0 }
        ensures alone { self.new.unacknowledged ≡ record { at = at; bytes = tlp.now } ∷ [] }
        ensures latest { latest_position self.new.latest_tlp ≡ at }
        ensures room { self.new.room ≡ self.old.room }
        ensures runs { self.new.runs ≡ counted Bool.true self.old.runs }
    {
        let torn = self.run.is_torn();
        self.begin_run(torn, Some(number));
        self.admit(number, tlp, at);
    }

    /// Takes in a TLP that has the next number.
    #[inline(always)]
    fn admit(&mut self, number: u16, tlp: &[u8], at: u64)
        requires place { place_of self.old.run number Body.Whole ≡ Place.Taken }
        requires number { number < 4096 }
        requires size { length tlp.now ≤ LONGEST_TLP }
        requires room { length self.old.unacknowledged ≢ self.old.room }
        requires rises { latest_position self.old.latest_tlp < at }
        ensures { self.new ≡ record {
          room = self.old.room;
          runs = self.old.runs;
          run = with_taken self.old.run number;
          unacknowledged = self.old.unacknowledged ++ record { at = at; bytes = tlp.now } ∷ [];
          latest_taken = Some at;
          latest_tlp = Some (record { at = at; number = number; body = Body.Whole });
          spoiled_since = Bool.false;
        } }
    {
        self.retry.push(at, tlp);
        self.run.take(number);
        self.latest_taken = Some(at);
        self.latest_tlp = Some(Latest::whole(at, number));
        self.spoiled_since = false;
    }

    /// The position of the oldest unacknowledged TLP.
    fn oldest(&self) -> Option<u64>
        ensures { result ≡ position_of (slice_get self.now.unacknowledged 0) }
    {
        if self.retry.len() == 0 {
            return None;
        }
        let (at, _) = self.retry.get(0);
        Some(at)
    }

    /// A repeat of a TLP that was taken: S2 and S3.
    #[tactic(auto, unfolding(crate::specs::Rules::lane_verdicts))]
    pub(crate) fn repeat(&mut self, found: &mut Found, number: u16, tlp: &[u8], at: u64)
        requires place { place_of self.old.run number Body.Whole ≡ Place.Repeat }
        requires number { number < 4096 }
        requires rises { latest_position self.old.latest_tlp < at }
        requires none { found.old.items ≡ [] }
        ensures verdicts { (past : List Event) → StandsFor self.old past →
            found.new.items ≡ lane_verdicts past (Tlp number tlp.now Body.Whole at) }
        ensures stands { (past : List Event) → StandsFor self.old past →
            StandsFor self.new (Tlp number tlp.now Body.Whole at ∷ past) }
        ensures few { array_vec_len found.new ≤ 2 }
        ensures stays { self.new.unacknowledged ≡ self.old.unacknowledged }
        ensures latest { latest_position self.new.latest_tlp ≡ at }
        ensures room { self.new.room ≡ self.old.room }
        ensures runs { self.new.runs ≡ self.old.runs }
    {
        if let Some(place) = self.unacknowledged_original(number) {
            let (original, bytes) = self.retry.get(place);
            let latest = self.latest_tlp.map(|latest| latest.at);
            let out_of_turn = place != 0 && self.is_out_of_turn(number);
            // Each verdict goes to a place that is known, so the list costs a caller nothing that
            // only asks whether a rule is broken.
            if bytes != tlp {
                add_if(found, true, Rule::S2, at, Some(original), None);
                add_if(found, out_of_turn, Rule::S3, at, latest, Some(original));
            } else {
                add_if(found, out_of_turn, Rule::S3, at, latest, Some(original));
            }
        }
        self.latest_tlp = Some(Latest::whole(at, number));
    }

    /// The place among the unacknowledged TLPs of a repeat's original, if it is one of them.
    #[tactic(auto, using(crate::proofs::Lists::lists))]
    fn unacknowledged_original(&self, number: u16) -> Option<usize>
        requires number { number < 4096 }
        requires place { place_of self.now.run number Body.Whole ≡ Place.Repeat }
        ensures within { IfSome result (λ place. place < length self.now.unacknowledged) }
        ensures found { (past : List Event) → StandsFor self.now past →
            is_some result ≡ repeats_unacknowledged past number Body.Whole }
        ensures place { (past : List Event) → StandsFor self.now past →
            IfSome result (λ place. answered past + place ≡ original_place past number) }
        ensures original { (past : List Event) → StandsFor self.now past →
            IfSome result (λ place. slice_get self.now.unacknowledged place
            ≡ original past number) }
    {
        match self.run.original(number) {
            Some(original) if original >= self.run.answered() => {
                Some((original - self.run.answered()) as usize)
            }
            _ => None,
        }
    }

    /// Whether the latest TLP is whole and isn't numbered one less.
    fn is_out_of_turn(&self, number: u16) -> bool
        requires { number < 4096 }
        ensures { result ≡ is_out_of_turn self.now.latest_tlp number }
    {
        match self.latest_tlp {
            Some(latest) => latest.body == Body::Whole && latest.number != before(number),
            None => false,
        }
    }

    /// A stray TLP: S1.
    #[tactic(auto, unfolding(crate::specs::Rules::lane_verdicts))]
    pub(crate) fn stray(&mut self, found: &mut Found, number: u16, tlp: &[u8], at: u64)
        requires place { place_of self.old.run number Body.Whole ≡ Place.Stray }
        requires rises { latest_position self.old.latest_tlp < at }
        requires none { found.old.items ≡ [] }
        ensures verdicts { (past : List Event) → StandsFor self.old past →
            found.new.items ≡ lane_verdicts past (Tlp number tlp.now Body.Whole at) }
        ensures stands { (past : List Event) → StandsFor self.old past →
            StandsFor self.new (Tlp number tlp.now Body.Whole at ∷ past) }
        ensures few { array_vec_len found.new ≤ 1 }
        ensures stays { self.new.unacknowledged ≡ self.old.unacknowledged }
        ensures latest { latest_position self.new.latest_tlp ≡ at }
        ensures room { self.new.room ≡ self.old.room }
        ensures runs { self.new.runs ≡ self.old.runs }
    {
        add_if(
            found,
            !self.spoiled_since,
            Rule::S1,
            at,
            self.latest_taken,
            None,
        );
        self.latest_tlp = Some(Latest::whole(at, number));
    }

    /// A TLP that its receiver drops: L1.
    #[tactic(auto, unfolding(crate::specs::Rules::lane_verdicts))]
    pub(crate) fn drop_tlp(
        &mut self,
        found: &mut Found,
        number: u16,
        tlp: &[u8],
        body: Body,
        at: u64,
    )
        requires place { place_of self.old.run number body ≡ Place.Dropped }
        requires rises { latest_position self.old.latest_tlp < at }
        requires none { found.old.items ≡ [] }
        ensures verdicts { (past : List Event) → StandsFor self.old past →
            found.new.items ≡ lane_verdicts past (Tlp number tlp.now body at) }
        ensures stands { (past : List Event) → StandsFor self.old past →
            StandsFor self.new (Tlp number tlp.now body at ∷ past) }
        ensures few { array_vec_len found.new ≤ 1 }
        ensures stays { self.new.unacknowledged ≡ self.old.unacknowledged }
        ensures latest { latest_position self.new.latest_tlp ≡ at }
        ensures room { self.new.room ≡ self.old.room }
        ensures runs { self.new.runs ≡ self.old.runs }
    {
        let spoiled = body == Body::Spoiled;
        add_if(found, spoiled, Rule::L1, at, None, None);
        self.spoiled_since |= spoiled;
        self.latest_tlp = Some(Latest { at, number, body });
    }
}
