//! The open requests of both directions, and what breaks C1 to C10.
//! PCI Express Base Specification 5.0, chapter 2: transaction ordering and completion rules.
ghost use Rattle.std.specs.Prelude.{◌≡◌, ◌+◌, ◌≤◌, ◌↔◌, List, [], ◌∷◌, ◌++◌, None, IfOk};
ghost use Rattle.std.specs.Prelude.{IsTrue, true};
ghost use Rattle.std.specs.FinMap as map;
ghost use Rattle.arrayvec.specs.ArrayVec.{array_vec_len};
ghost use Rattle.pl_tlp.specs.Fit.{Fits};
ghost use Rattle.pl_index.specs.Table.{entries, limit, LacksRoomFor};
ghost use Rattle.pl_profile.specs.declared.profile.Profile.{Profile};
ghost use Rattle.pl_tlp.specs.Groups as kinds;
ghost use Rattle.pl_pair.specs.History.{Completion, Event, Gap, Request, open_request};
ghost use Rattle.pl_pair.specs.History.{outstanding, request_id};
ghost use Rattle.pl_pair.specs.Pairs.{StandsFor, key_of};
ghost use Rattle.pl_pair.specs.Rules.{pair_verdicts};

use crate::after_part::after_part;
use crate::judging::{MOST_OF_A_COMPLETION, boundary_of, judge_part};
use crate::request::OpenRequest;
use crate::requested::request_of;
use crate::transaction::TransactionId;
use pl_base::{Dir, Found, MOST_VERDICTS, Rule, add_if};
use pl_index::Table;
use pl_profile::Profile;
use pl_tlp::Packet;
use std::alloc::{AllocError, Global};
use std::marker::Model;

/// The open requests of both directions in one span: since the link came up, or since a gap in the
/// capture.
///
/// Pairs keep no history: of each open request they keep what its completions are held against, how
/// much of its data came, and which items verdicts cite. A request is forgotten as soon as a
/// completion ends it.
#[derive(Drop)]
pub struct Pairs {
    table: Table<OpenRequest>,
    room: u32,
    torn: bool,
}

impl Model for Pairs {
    ghost use Rattle.std.specs.Prelude.{◌≡◌, ℕ, Bool, refl};
    ghost use Rattle.std.specs.Coded.{code_by, coded×, coded_bool, coded_ℕ};
    ghost use Rattle.std.specs.FinMap as map;
    ghost use Rattle.std.specs.Ordering.{nat_cmp};
    ghost use Rattle.pl_index.specs.Table.{entries, limit};
    ghost use Rattle.pl_pair.specs.contracts.request.OpenRequest as requests;
    ghost use Rattle.pl_pair.specs.declared.request.OpenRequest.{OpenRequest};
    ghost use Rattle.pl_pair.specs.Pairs.{AreOpen, Kept};

    ghost Value = { Kept };

    ghost coded = { code_by (Bool × (ℕ × map.FinMap nat_cmp OpenRequest))
        (coded× coded_bool (coded× coded_ℕ (map.code coded_ℕ requests.the_row.coded)))
        (λ kept. (kept.torn, kept.table))
        (λ kept. record { table = kept.1; torn = kept.0 }) (λ _. refl) };

    ghost view = { λ p. record { table = p.table; torn = p.torn } };

    ghost invariant = { λ p. (limit p.table ≡ p.room) × AreOpen (entries p.table) };
}

impl Pairs {
    /// The pairs of an empty span, with memory for `room` open requests, 1 to 262,144. No other
    /// call takes memory.
    ///
    /// # Errors
    ///
    /// Where this memory is wanting.
    pub fn open(alloc: Global, room: u32) -> Result<Pairs, AllocError>
        requires some { 1 ≤ room }
        requires few { room ≤ 262144 }
        ensures stands { IfOk result (λ pairs. StandsFor pairs []) }
        ensures room { IfOk result (λ pairs. limit pairs.table ≡ room) }
    {
        let table = Table::open(alloc, room)?;
        Ok(Pairs {
            table,
            room,
            torn: false,
        })
    }

    /// Begins a new span, as after a link down.
    pub fn reset(&mut self)
        ensures stands { StandsFor self.new [] }
        ensures room { limit self.new.table ≡ limit self.old.table }
    {
        self.begin(false);
    }

    /// Begins a torn span, as after a gap in the capture: what came before is forgotten, and a
    /// completion that names no open request breaks nothing, since its request may have come
    /// before the gap.
    pub fn gap(&mut self)
        ensures stands { (past : List Event) → StandsFor self.new (Gap ∷ past) }
        ensures room { limit self.new.table ≡ limit self.old.table }
    {
        self.begin(true);
    }

    /// Begins a span, torn or not, in which no request is open.
    fn begin(&mut self, torn: bool)
        ensures empty { entries self.new.table ≡ map.empty }
        ensures torn { self.new.torn ≡ torn }
        ensures room { limit self.new.table ≡ limit self.old.table }
    {
        self.table.clear();
        self.torn = torn;
    }

    /// How many requests are open.
    pub fn outstanding(&self) -> u32
        ensures now { result ≡ map.len (entries self.now.table) }
        ensures past { (past : List Event) → StandsFor self.now past → result ≡ outstanding past }
        ensures within { result ≤ limit self.now.table }
    {
        self.table.len()
    }

    /// Whether there is no room for this TLP: a request that needs a completion and would be open
    /// beside as many others as there is room for. A request whose transaction ID is in use takes
    /// the place of the open one.
    pub fn full_for<P: Packet>(&self, dir: Dir, tlp: &P) -> bool
        requires { Fits (P.fields tlp.now) }
        ensures now { IsTrue result
            ↔ ((kinds.needs_completion (P.fields tlp.now).kind ≡ true)
            × LacksRoomFor self.now.table (key_of (request_id dir (P.fields tlp.now)))) }
        ensures past { (past : List Event) → StandsFor self.now past → (IsTrue result ↔
            ((kinds.needs_completion (P.fields tlp.now).kind ≡ true)
            × (open_request (request_id dir (P.fields tlp.now)) past ≡ None)
            × (outstanding past ≡ limit self.now.table))) }
    {
        if !tlp.kind().needs_completion() || self.table.len() < self.room {
            return false;
        }
        let id = TransactionId::of_request(dir, tlp);
        self.table.get(id.key()).is_none()
    }

    /// A request that needs a completion travels in direction `dir`, at position `at`: whether it
    /// breaks C2. It takes the place of an open request with its transaction ID. From then on the
    /// pairs stand for the history with it.
    ///
    /// Behind a gap a caller tells of a request only where it is sure: an Ack or Nak has confirmed
    /// the run of its sequence number, which doesn't begin with it. Another takes no place.
    ///
    /// There is room: see `full_for`.
    pub fn request<P: Packet>(&mut self, dir: Dir, tlp: &P, at: u64) -> Found
        requires needs { kinds.needs_completion (P.fields tlp.now).kind ≡ true }
        requires fits { Fits (P.fields tlp.now) }
        requires room { LacksRoomFor self.old.table
            (key_of (request_id dir (P.fields tlp.now))) → ⊥ }
        ensures verdicts { (past : List Event) (profile : Profile) → StandsFor self.old past
            → result.items ≡ pair_verdicts profile past (Request dir (P.fields tlp.now) at) }
        ensures stands { (past : List Event) → StandsFor self.old past
            → StandsFor self.new (Request dir (P.fields tlp.now) at ∷ past) }
        ensures few { array_vec_len result ≤ 1 }
        ensures room { limit self.new.table ≡ limit self.old.table }
    {
        let mut found = Found::new();
        self.request_into(dir, tlp, at, &mut found);
        found
    }

    /// As [`Pairs::request`], with the verdict behind those that were found before.
    #[tactic(auto, unfolding(crate::specs::Rules::pair_verdicts))]
    pub fn request_into<P: Packet>(&mut self, dir: Dir, tlp: &P, at: u64, found: &mut Found)
        requires needs { kinds.needs_completion (P.fields tlp.now).kind ≡ true }
        requires fits { Fits (P.fields tlp.now) }
        requires room { LacksRoomFor self.old.table
            (key_of (request_id dir (P.fields tlp.now))) → ⊥ }
        requires few { array_vec_len found.old + 1 ≤ MOST_VERDICTS }
        ensures verdicts { (past : List Event) (profile : Profile) → StandsFor self.old past
            → found.new.items
            ≡ found.old.items ++ pair_verdicts profile past (Request dir (P.fields tlp.now) at) }
        ensures stands { (past : List Event) → StandsFor self.old past
            → StandsFor self.new (Request dir (P.fields tlp.now) at ∷ past) }
        ensures few { array_vec_len found.new ≤ array_vec_len found.old + 1 }
        ensures room { limit self.new.table ≡ limit self.old.table }
    {
        let id = TransactionId::of_request(dir, tlp);
        let opened = OpenRequest {
            request: request_of(tlp),
            at,
            first_part: None,
            got: 0,
        };
        if let Ok(Some(before)) = self.table.put(id.key(), opened) {
            add_if(found, true, Rule::C2, at, Some(before.at), None);
        }
    }

    /// A completion travels in direction `dir`, at position `at`: what it breaks of C3 to C10, or
    /// where it names no open request C1 alone, and in a torn span nothing. From then on the pairs
    /// stand for the history with it.
    pub fn completion<P: Packet>(&mut self, profile: &Profile, dir: Dir, tlp: &P, at: u64) -> Found
        requires is { kinds.is_completion (P.fields tlp.now).kind ≡ true }
        requires fits { Fits (P.fields tlp.now) }
        ensures verdicts { (past : List Event) → StandsFor self.old past
            → result.items ≡ pair_verdicts profile.now past (Completion dir (P.fields tlp.now) at) }
        ensures stands { (past : List Event) → StandsFor self.old past
            → StandsFor self.new (Completion dir (P.fields tlp.now) at ∷ past) }
        ensures few { array_vec_len result ≤ MOST_OF_A_COMPLETION }
        ensures room { limit self.new.table ≡ limit self.old.table }
    {
        let mut found = Found::new();
        self.completion_into(profile, dir, tlp, at, &mut found);
        found
    }

    /// As [`Pairs::completion`], with the verdicts behind those that were found before.
    #[tactic(auto, unfolding(crate::specs::Rules::pair_verdicts))]
    pub fn completion_into<P: Packet>(
        &mut self,
        profile: &Profile,
        dir: Dir,
        tlp: &P,
        at: u64,
        found: &mut Found,
    )
        requires is { kinds.is_completion (P.fields tlp.now).kind ≡ true }
        requires fits { Fits (P.fields tlp.now) }
        requires few { array_vec_len found.old + MOST_OF_A_COMPLETION ≤ MOST_VERDICTS }
        ensures verdicts { (past : List Event) → StandsFor self.old past
            → found.new.items
            ≡ found.old.items
            ++ pair_verdicts profile.now past (Completion dir (P.fields tlp.now) at) }
        ensures stands { (past : List Event) → StandsFor self.old past
            → StandsFor self.new (Completion dir (P.fields tlp.now) at ∷ past) }
        ensures few { array_vec_len found.new ≤ array_vec_len found.old + MOST_OF_A_COMPLETION }
        ensures room { limit self.new.table ≡ limit self.old.table }
    {
        let key = TransactionId::answered(dir, tlp).key();
        let Some(opened) = self.table.get(key) else {
            add_if(found, !self.torn, Rule::C1, at, None, None);
            return;
        };
        judge_part(found, boundary_of(profile, dir), &opened, tlp, at);
        match after_part(opened, tlp, at) {
            Some(opened) => self.table.set(key, opened),
            None => {
                self.table.take(key);
            }
        }
    }
}
