//! TLPs that their receiver takes.
//! PCI Express Base Specification 5.0, chapter 2, transaction layer, and chapter 3: sequence
//! numbers.
ghost use Rattle.std.specs.Prelude.{◌≡◌, ◌+◌, ◌≤◌, [], Bool, List, OnErr, true, None};
ghost use Rattle.arrayvec.specs.ArrayVec.{array_vec_len};
ghost use Rattle.pl_capture.specs.Entry.{Entry, view as entry, IsLawful};
ghost use Rattle.pl_form.specs.Verdicts.{HasHeaderIfWhole};
ghost use Rattle.pl_seq.specs.History.{is_taken};
ghost use Rattle.pl_seq.specs.Runs.{place_of};
ghost use Rattle.pl_tlp.specs.Captured.{seen_outcome};
ghost use Rattle.pl_tlp.specs.Fields.{Whole};
ghost use Rattle.pl_tlp.specs.Fit.{Fits, FitsIfWhole};
ghost use Rattle.pl_engine.specs.Events.{if_whole, number_after};
ghost use Rattle.pl_engine.specs.Judges.{IsJudged, Judges};
ghost use Rattle.pl_engine.specs.Lanes.{lane_in};
ghost use Rattle.pl_engine.specs.Packets.{sequence_number};
ghost use Rattle.pl_engine.specs.State.{state_of};
ghost use Rattle.pl_engine.specs.Taking.{HasSlot, IsTakenAs};

use crate::flow::spend;
use crate::packet::tlp_of;
use crate::parts::{MOST_OF_AN_ITEM, Parts};
use crate::refused::Refused;
use crate::transactions::{refusal, transact};
use pl_base::{Body, Found};
use pl_capture::{Item, ItemKind};
use pl_form::{judge_seen_into, judge_whole_into};
use pl_profile::Profile;
use pl_seq::Place;
use pl_tlp::{Packet, Seen, see};

impl Parts {
    ghost use Rattle.pl_engine.specs.Parts.{IsReady, PartsStandFor};

    /// A TLP that its receiver takes, unless there is no room for it.
    #[tactic(auto, unfolding(crate::specs::Verdicts::blocked))]
    #[inline(always)]
    pub(crate) fn take(
        &mut self,
        profile: &Profile,
        item: &Item,
        arrived: Body,
        place: Place,
        at: u64,
        found: &mut Found,
    ) -> Result<(), Refused>
        requires kind { item.now.kind ≡ ItemKind.Tlp }
        requires lawful { IsLawful (entry item.now) }
        requires arrived { arrived ≡ state_of (entry item.now) }
        requires place { place ≡ place_of (lane_in item.now.dir self.old.lanes).run
            (sequence_number item.now.body.now) arrived }
        requires taken { is_taken place ≡ true }
        requires ready { IsReady profile.now at self.old }
        requires none { found.old.items ≡ [] }
        ensures judges { (past : List Entry) → PartsStandFor profile.now self.old past →
            at ≡ number_after past →
            Judges profile.now past (entry item.now) self.new result found.new.items }
        ensures refused { OnErr result ((self.new ≡ self.old) × (found.new ≡ found.old)) }
        ensures ready { IsReady profile.now (at + 1) self.new }
        ensures most { array_vec_len found.new ≤ MOST_OF_AN_ITEM }
    {
        if self.lanes.is_full_for(place, item.dir) {
            return Err(Refused::Unacknowledged(profile.unacknowledged));
        }
        let sure = self.lanes.is_sure(place, item.dir);
        match see(tlp_of(item.body)) {
            Seen::Whole(tlp) => self.take_whole(profile, item, arrived, sure, &tlp, at, found),
            Seen::Undefined => {
                self.take_unread(profile, item, arrived, Seen::Undefined, at, found);
                Ok(())
            }
            Seen::WrongSize => {
                self.take_unread(profile, item, arrived, Seen::WrongSize, at, found);
                Ok(())
            }
        }
    }

    /// A well-formed TLP, for which its lane has a slot; there may be no room among the open
    /// requests.
    #[inline(always)]
    fn take_whole<P: Packet>(
        &mut self,
        profile: &Profile,
        item: &Item,
        arrived: Body,
        sure: bool,
        tlp: &P,
        at: u64,
        found: &mut Found,
    ) -> Result<(), Refused>
        requires slot { HasSlot self.old.lanes (entry item.now) arrived }
        requires fits { Fits (P.fields tlp.now) }
        requires header { HasHeaderIfWhole (Whole (P.fields tlp.now)) }
        requires ready { IsReady profile.now at self.old }
        requires none { found.old.items ≡ [] }
        ensures judges { (past : List Entry) → PartsStandFor profile.now self.old past →
            at ≡ number_after past →
            IsTakenAs profile.now past (entry item.now) (Whole (P.fields tlp.now)) sure →
            Judges profile.now past (entry item.now) self.new result found.new.items }
        ensures refused { OnErr result ((self.new ≡ self.old) × (found.new ≡ found.old)) }
        ensures ready { IsReady profile.now (at + 1) self.new }
        ensures most { array_vec_len found.new ≤ MOST_OF_AN_ITEM }
    {
        if let Some(refused) = refusal(&self.pairs, profile, item.dir, sure, tlp) {
            return Err(refused);
        }
        self.lanes.tlp(item, arrived, at, found);
        spend(&mut self.credits, profile, item.dir, tlp, at, found);
        judge_whole_into(profile, item.dir, tlp, at, found);
        transact(&mut self.pairs, profile, item.dir, sure, tlp, at, found);
        Ok(())
    }

    /// A TLP that isn't well-formed, for which its lane has a slot: neither credits nor pairs hear
    /// of it. Apart and by value, since few TLPs are such.
    #[cold]
    #[inline(never)]
    fn take_unread(
        &mut self,
        profile: &Profile,
        item: &Item,
        arrived: Body,
        seen: Seen,
        at: u64,
        found: &mut Found,
    )
        requires slot { HasSlot self.old.lanes (entry item.now) arrived }
        requires unread { if_whole (seen_outcome seen) ≡ None }
        requires fits { FitsIfWhole (seen_outcome seen) }
        requires header { HasHeaderIfWhole (seen_outcome seen) }
        requires ready { IsReady profile.now at self.old }
        requires none { found.old.items ≡ [] }
        ensures judged { (past : List Entry) (sure : Bool) →
            PartsStandFor profile.now self.old past →
            at ≡ number_after past →
            IsTakenAs profile.now past (entry item.now) (seen_outcome seen.entry) sure →
            IsJudged profile.now past (entry item.now) self.new found.new.items }
        ensures ready { IsReady profile.now (at + 1) self.new }
        ensures most { array_vec_len found.new ≤ MOST_OF_AN_ITEM }
    {
        self.lanes.tlp(item, arrived, at, found);
        judge_seen_into(profile, item.dir, &seen, at, found);
    }
}
