//! The second reading: which items an excerpt has.
ghost use Rattle.std.specs.Prelude.{◌≡◌, ◌+◌, ◌<◌, ◌≤◌, ◌∷◌, ℕ, List, length};
ghost use Rattle.pl_capture.specs.Entry.{Entry, IsLawful, view};
ghost use Rattle.pl_seq.specs.Lane.{latest_position};
ghost use Rattle.pl_engine.specs.Events.{number_after};

use crate::case::Case;
use crate::lanes::{Heard, Lanes};
use crate::taken::{Stretch, Taken};
use crate::transaction::{Transaction, answered, requested};
use arrayvec::ArrayVec;
use pl_capture::{Item, ItemKind};

/// The most items of a core: the item of the verdict, two that it cites, and the parts of an open
/// request, of which each brings a DW and together fewer than the 1,024 that are asked for at most.
pub(crate) const MOST_CORE: usize = 1026;

/// The core is larger than any that a verdict has.
#[derive(Drop)]
pub(crate) struct TooMany;

/// The items of a core so far, each with what it is to its lane where it is a taken TLP; the lanes;
/// and the transaction ID of the request that the verdict cites, once that came.
#[derive(Drop)]
pub(crate) struct Witnesses {
    case: Case,
    lanes: Lanes,
    request: Option<Transaction>,
    core: ArrayVec<Option<Taken>, MOST_CORE>,
}

impl Witnesses {
    ghost use Rattle.pl_excerpt.specs.Replaying.{AreReady, HasRoomFor, LanesStandFor};

    /// Nothing came yet.
    pub(crate) fn new(case: Case, lanes: Lanes) -> Witnesses
        ensures case { result.case ≡ case }
        ensures lanes { result.lanes ≡ lanes }
    {
        Witnesses {
            case,
            lanes,
            request: None,
            core: ArrayVec::new(),
        }
    }

    /// The verdict and where the span of its item begins.
    pub(crate) fn case(&self) -> Case
        ensures { result ≡ self.now.case }
    {
        self.case
    }

    /// An item comes as number `at`, for which its lane has room: whether it is selected.
    pub(crate) fn select(&mut self, item: &Item, at: u64) -> Result<bool, TooMany>
        requires lawful { IsLawful (view item.now) }
        requires room { HasRoomFor self.old.lanes (view item.now) }
        requires down { latest_position self.old.lanes.down.latest_tlp < at }
        requires up { latest_position self.old.lanes.up.latest_tlp < at }
        ensures stands { (past : List Entry) → LanesStandFor self.old.lanes past →
            at ≡ number_after past → LanesStandFor self.new.lanes (view item.now ∷ past) }
        ensures ready { (room : ℕ) → AreReady room at self.old.lanes →
            AreReady room (at + 1) self.new.lanes }
        ensures case { self.new.case ≡ self.old.case }
    {
        match item.kind {
            ItemKind::Tlp => self.tlp(item, at),
            ItemKind::Dllp => {
                let again = self.lanes.dllp(item, at);
                self.other(again, at)
            }
            ItemKind::LinkDown => {
                self.lanes.reset();
                self.other(None, at)
            }
            ItemKind::Gap => {
                self.lanes.gap();
                self.other(None, at)
            }
        }
    }

    /// A TLP comes.
    fn tlp(&mut self, item: &Item, at: u64) -> Result<bool, TooMany>
        requires kind { item.now.kind ≡ ItemKind.Tlp }
        requires lawful { IsLawful (view item.now) }
        requires room { HasRoomFor self.old.lanes (view item.now) }
        requires down { latest_position self.old.lanes.down.latest_tlp < at }
        requires up { latest_position self.old.lanes.up.latest_tlp < at }
        ensures stands { (past : List Entry) → LanesStandFor self.old.lanes past →
            at ≡ number_after past → LanesStandFor self.new.lanes (view item.now ∷ past) }
        ensures ready { (room : ℕ) → AreReady room at self.old.lanes →
            AreReady room (at + 1) self.new.lanes }
        ensures case { self.new.case ≡ self.old.case }
    {
        let Heard { taken, again } = self.lanes.tlp(item, at);
        let tells = self.tells_of_core(again, at);
        let is_core = self.case.cites(at) || self.is_part(item, taken, at);
        self.note_request(item, taken, at);
        self.add_if(is_core, taken)?;
        Ok(is_core || tells)
    }

    /// An item comes that is no TLP.
    fn other(&mut self, again: Option<Stretch>, at: u64) -> Result<bool, TooMany>
        ensures case { self.new.case ≡ self.old.case }
        ensures lanes { self.new.lanes ≡ self.old.lanes }
    {
        let tells = self.tells_of_core(again, at);
        let is_core = self.case.cites(at);
        self.add_if(is_core, None)?;
        Ok(is_core || tells)
    }

    /// Whether the TLP is a part of the request that the verdict cites.
    fn is_part(&self, item: &Item, taken: Option<Taken>, at: u64) -> bool
        requires { 6 ≤ length item.now.body.now }
    {
        if taken.is_none() || !self.case.is_in_span(at) {
            return false;
        }
        match (self.request, answered(item)) {
            (Some(request), Some(answered)) => request == answered,
            (Some(_) | None, _) => false,
        }
    }

    /// Whether one of these TLPs is of the core, and the item in the span of the verdict.
    fn tells_of_core(&self, again: Option<Stretch>, at: u64) -> bool {
        match again {
            Some(again) => self.case.is_in_span(at) && has_any(again, self.core.as_slice()),
            None => false,
        }
    }

    /// Notes the transaction ID of a TLP, where it is the request that the verdict cites.
    fn note_request(&mut self, item: &Item, taken: Option<Taken>, at: u64)
        requires { 6 ≤ length item.now.body.now }
        ensures case { self.new.case ≡ self.old.case }
        ensures lanes { self.new.lanes ≡ self.old.lanes }
    {
        if taken.is_some() && self.case.cites_request(at) {
            self.request = requested(item);
        }
    }

    /// Adds an item, where it is of the core.
    fn add_if(&mut self, is_core: bool, taken: Option<Taken>) -> Result<(), TooMany>
        ensures case { self.new.case ≡ self.old.case }
        ensures lanes { self.new.lanes ≡ self.old.lanes }
    {
        if !is_core {
            return Ok(());
        }
        match self.core.try_push(taken) {
            Ok(()) => Ok(()),
            Err(_) => Err(TooMany),
        }
    }
}

/// Whether one of the core is among these TLPs.
fn has_any(again: Stretch, core: &[Option<Taken>]) -> bool {
    for taken in core {
        if let Some(taken) = taken {
            if again.has(taken) {
                return true;
            }
        }
    }
    false
}
