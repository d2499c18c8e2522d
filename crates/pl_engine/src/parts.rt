//! The parts that the rules look at: each hears its events of the items, one after another.
ghost use Rattle.std.specs.Prelude.{ℕ, ◌≡◌, ◌+◌, ◌≤◌, ◌∷◌, [], List, IfOk, OnErr};
ghost use Rattle.arrayvec.specs.ArrayVec.{array_vec_len};
ghost use Rattle.pl_capture.specs.Entry.{Entry, view as entry, IsLawful};
ghost use Rattle.pl_engine.specs.Events.{number_after};
ghost use Rattle.pl_engine.specs.Judges.{Arrived, IsJudged, Judges};
ghost use Rattle.pl_profile.specs.declared.profile.Profile.{Profile};

use crate::arrival::Arrival;
use crate::flow::hear;
use crate::lanes::Lanes;
use crate::packet::dllp_of;
use crate::refused::Refused;
use crate::state::body;
use pl_base::{Found, Rule, add_if};
use pl_capture::{Item, ItemKind};
use pl_credit::Credits;
use pl_dllp::Decoded;
use pl_form::MOST_OF_A_TLP;
use pl_pair::{MOST_OF_A_COMPLETION, Pairs};
use pl_profile::Profile;
use std::alloc::{AllocError, Global};

/// The most rules that an item breaks: S4 of its lane, those of the credits, of its formation and
/// of the pairs.
pub(crate) const MOST_OF_AN_ITEM: usize = 1
    + pl_credit::MOST_OF_AN_ITEM
    + MOST_OF_A_TLP
    + MOST_OF_A_COMPLETION;

/// The sequence numbers of both directions, the credits and the open requests.
#[derive(Drop)]
pub(crate) struct Parts {
    pub(crate) lanes: Lanes,
    pub(crate) credits: Credits,
    pub(crate) pairs: Pairs,
}

impl Parts {
    ghost use Rattle.pl_engine.specs.Parts.{IsReady, PartsStandFor};

    /// The parts of a link that was just brought up, with all the memory that they ever use.
    pub(crate) fn open(alloc: Global, profile: &Profile) -> Result<Parts, AllocError>
        ensures stands { IfOk result (λ parts. PartsStandFor profile.now parts []) }
        ensures ready { IfOk result (λ parts. IsReady profile.now 1 parts) }
    {
        let lanes = Lanes::open(alloc, profile.unacknowledged)?;
        let pairs = Pairs::open(alloc, profile.outstanding)?;
        Ok(Parts {
            lanes,
            credits: Credits::new(profile),
            pairs,
        })
    }

    /// Judges item `at`: the verdicts, in a list that was empty, and how it came.
    #[inline(always)]
    pub(crate) fn judge(
        &mut self,
        profile: &Profile,
        item: &Item,
        at: u64,
        found: &mut Found,
    ) -> Result<Arrival, Refused>
        requires lawful { IsLawful (entry item.now) }
        requires ready { IsReady profile.now at self.old }
        requires none { found.old.items ≡ [] }
        ensures judges { (past : List Entry) → PartsStandFor profile.now self.old past →
            at ≡ number_after past →
            Judges profile.now past (entry item.now) self.new result found.new.items }
        ensures arrived { (past : List Entry) → PartsStandFor profile.now self.old past →
            IfOk result (Arrived past (entry item.now)) }
        ensures refused { OnErr result ((self.new ≡ self.old) × (found.new ≡ found.old)) }
        ensures ready { IsReady profile.now (at + 1) self.new }
        ensures most { array_vec_len found.new ≤ MOST_OF_AN_ITEM }
    {
        match item.kind {
            ItemKind::Tlp => self.tlp(profile, item, at, found),
            ItemKind::Dllp => {
                self.dllp(profile, item, at, found);
                Ok(Arrival::Dllp)
            }
            ItemKind::LinkDown => {
                self.link_down();
                Ok(Arrival::LinkDown)
            }
            ItemKind::Gap => {
                self.gap();
                Ok(Arrival::Gap)
            }
        }
    }

    /// A TLP, however it arrived.
    #[inline(always)]
    #[tactic(auto, unfolding(crate::specs::Verdicts::verdicts_at, crate::specs::Verdicts::blocked))]
    fn tlp(
        &mut self,
        profile: &Profile,
        item: &Item,
        at: u64,
        found: &mut Found,
    ) -> Result<Arrival, Refused>
        requires kind { item.now.kind ≡ ItemKind.Tlp }
        requires lawful { IsLawful (entry item.now) }
        requires ready { IsReady profile.now at self.old }
        requires none { found.old.items ≡ [] }
        ensures judges { (past : List Entry) → PartsStandFor profile.now self.old past →
            at ≡ number_after past →
            Judges profile.now past (entry item.now) self.new result found.new.items }
        ensures arrived { (past : List Entry) → PartsStandFor profile.now self.old past →
            IfOk result (Arrived past (entry item.now)) }
        ensures refused { OnErr result ((self.new ≡ self.old) × (found.new ≡ found.old)) }
        ensures ready { IsReady profile.now (at + 1) self.new }
        ensures most { array_vec_len found.new ≤ MOST_OF_AN_ITEM }
    {
        let arrived = body(item);
        let place = self.lanes.place(item, arrived);
        if place.is_taken() {
            self.take(profile, item, arrived, place, at, found)?;
            return Ok(Arrival::Tlp(arrived, place));
        }
        self.lanes.tlp(item, arrived, at, found);
        Ok(Arrival::Tlp(arrived, place))
    }

    /// A DLLP.
    #[inline(always)]
    #[tactic(auto, unfolding(crate::specs::Verdicts::verdicts_at, crate::specs::Verdicts::blocked))]
    fn dllp(&mut self, profile: &Profile, item: &Item, at: u64, found: &mut Found)
        requires kind { item.now.kind ≡ ItemKind.Dllp }
        requires lawful { IsLawful (entry item.now) }
        requires ready { IsReady profile.now at self.old }
        requires none { found.old.items ≡ [] }
        ensures judged { (past : List Entry) → PartsStandFor profile.now self.old past →
            at ≡ number_after past →
            IsJudged profile.now past (entry item.now) self.new found.new.items }
        ensures ready { IsReady profile.now (at + 1) self.new }
        ensures most { array_vec_len found.new ≤ MOST_OF_AN_ITEM }
    {
        let packet = dllp_of(item.body);
        match packet {
            Decoded::Ok(_) => {
                self.lanes.dllp(item.dir, &packet, at, found);
                hear(&mut self.credits, item.dir, &packet, at, found);
            }
            Decoded::BadCrc => {
                add_if(found, true, Rule::L2, at, None, None);
                hear(&mut self.credits, item.dir, &packet, at, found);
            }
            Decoded::Reserved => add_if(found, true, Rule::L3, at, None, None),
        }
    }

    /// A link down begins a new span, and breaks no rule.
    #[cold]
    #[inline(never)]
    #[tactic(auto, unfolding(crate::specs::Verdicts::verdicts_at, crate::specs::Verdicts::blocked))]
    fn link_down(&mut self)
        ensures judged { (profile : Profile) (past : List Entry) (x : Entry) →
            x.kind ≡ ItemKind.LinkDown →
            IsJudged profile past x self.new [] }
        ensures ready { (profile : Profile) (at : ℕ) → IsReady profile at self.old →
            IsReady profile (at + 1) self.new }
    {
        self.lanes.reset();
        self.credits.reset();
        self.pairs.reset();
    }

    /// A gap begins a span of which all parts know that packets were missed, and breaks no rule.
    #[cold]
    #[inline(never)]
    #[tactic(auto, unfolding(crate::specs::Verdicts::verdicts_at, crate::specs::Verdicts::blocked))]
    fn gap(&mut self)
        ensures judged { (profile : Profile) (past : List Entry) (x : Entry) →
            x.kind ≡ ItemKind.Gap →
            IsJudged profile past x self.new [] }
        ensures ready { (profile : Profile) (at : ℕ) → IsReady profile at self.old →
            IsReady profile (at + 1) self.new }
    {
        self.lanes.gap();
        self.credits.gap();
        self.pairs.gap();
    }
}
