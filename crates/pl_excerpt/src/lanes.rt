//! The sequence numbers of both directions, and what tells of a TLP again.
//! PCI Express Base Specification 5.0, chapter 3: retried TLPs, Ack and Nak.
ghost use Rattle.std.specs.Prelude.{◌≡◌, ◌≢◌, ◌+◌, ◌<◌, ◌≤◌, ◌∷◌, ℕ, [], List, IfOk, length};
ghost use Rattle.pl_capture.specs.Entry.{Entry, IsLawful, view};
ghost use Rattle.pl_seq.specs.History as events;
ghost use Rattle.pl_seq.specs.Lane.{StandsFor, latest_position};
ghost use Rattle.pl_seq.specs.Runs.{place_of};
ghost use Rattle.pl_engine.specs.Events.{number_after};
ghost use Rattle.pl_engine.specs.Packets as packets;
ghost use Rattle.pl_engine.specs.State.{state_of};

use crate::taken::{Stretch, Taken};
use pl_base::Dir;
use pl_capture::{Item, ItemKind};
use pl_dllp::{Decoded, Dllp};
use pl_engine::{body, dllp_of, sequence_number, tlp_of};
use pl_seq::{Lane, Place};
use std::alloc::{AllocError, Global};

/// The lanes of the TLPs that travel Down, and of those that travel Up.
#[derive(Drop)]
pub(crate) struct Lanes {
    down: Lane,
    up: Lane,
}

/// What a TLP is to its lane: what it is itself, where it is taken, and the original that it
/// repeats.
#[derive(Clone, Copy)]
pub(crate) struct Heard {
    pub(crate) taken: Option<Taken>,
    pub(crate) again: Option<Stretch>,
}

impl Lanes {
    ghost use Rattle.pl_excerpt.specs.Replaying.{AreReady, HasRoomFor, LanesStandFor};

    /// The lanes of an empty span, each with memory for `room` unacknowledged TLPs, 1 to 4,095.
    pub(crate) fn open(alloc: Global, room: u16) -> Result<Lanes, AllocError>
        requires { (0 < room) × (room < 4096) }
        ensures stands { IfOk result (λ lanes. LanesStandFor lanes []) }
        ensures ready { IfOk result (λ lanes. AreReady room 1 lanes) }
    {
        let down = Lane::open(alloc, room)?;
        let up = Lane::open(alloc, room)?;
        Ok(Lanes { down, up })
    }

    /// A TLP item comes as number `at`, for which its lane has room.
    #[tactic(auto, unfolding(pl_engine::specs::Events::lane_events))]
    pub(crate) fn tlp(&mut self, item: &Item, at: u64) -> Heard
        requires kind { item.now.kind ≡ ItemKind.Tlp }
        requires lawful { IsLawful (view item.now) }
        requires room { HasRoomFor self.old (view item.now) }
        requires down { latest_position self.old.down.latest_tlp < at }
        requires up { latest_position self.old.up.latest_tlp < at }
        ensures stands { (past : List Entry) → LanesStandFor self.old past →
            at ≡ number_after past → LanesStandFor self.new (view item.now ∷ past) }
        ensures ready { (room : ℕ) → AreReady room at self.old → AreReady room (at + 1) self.new }
    {
        match item.dir {
            Dir::Down => hear(&mut self.down, item, at),
            Dir::Up => hear(&mut self.up, item, at),
        }
    }

    /// A DLLP item comes as number `at`: the TLPs that it newly acknowledges.
    pub(crate) fn dllp(&mut self, item: &Item, at: u64) -> Option<Stretch>
        requires kind { item.now.kind ≡ ItemKind.Dllp }
        requires lawful { IsLawful (view item.now) }
        ensures stands { (past : List Entry) → LanesStandFor self.old past →
            at ≡ number_after past → LanesStandFor self.new (view item.now ∷ past) }
        ensures ready { (room : ℕ) → AreReady room at self.old → AreReady room (at + 1) self.new }
    {
        match dllp_of(item.body) {
            Decoded::Ok(Dllp::Ack(number) | Dllp::Nak(number)) => match item.dir {
                Dir::Down => Some(acknowledge(&mut self.up, Dir::Up, number, at)),
                Dir::Up => Some(acknowledge(&mut self.down, Dir::Down, number, at)),
            },
            Decoded::Ok(_) | Decoded::BadCrc | Decoded::Reserved => None,
        }
    }

    /// A gap comes.
    pub(crate) fn gap(&mut self)
        ensures stands { (past : List Entry) (x : Entry) → x.kind ≡ ItemKind.Gap →
            LanesStandFor self.new (x ∷ past) }
        ensures ready { (room at : ℕ) → AreReady room at self.old →
            AreReady room (at + 1) self.new }
    {
        self.down.gap();
        self.up.gap();
    }

    /// Begins a new span, as after a link down.
    pub(crate) fn reset(&mut self)
        ensures stands { LanesStandFor self.new [] }
        ensures ready { (room at : ℕ) → AreReady room at self.old →
            AreReady room (at + 1) self.new }
    {
        self.down.reset();
        self.up.reset();
    }
}

/// A TLP comes in its lane.
fn hear(lane: &mut Lane, item: &Item, at: u64) -> Heard
    requires lawful { (6 ≤ length item.now.body.now) × (length item.now.body.now ≤ 4160) }
    requires room { place_of lane.old.run (packets.sequence_number item.now.body.now)
        (state_of (view item.now)) ≡ Place.Taken →
        length lane.old.unacknowledged ≢ lane.old.room }
    requires rises { latest_position lane.old.latest_tlp < at }
    ensures stands { (past : List events.Event) → StandsFor lane.old past →
        StandsFor lane.new (events.Tlp (packets.sequence_number item.now.body.now)
        (packets.tlp_of item.now.body.now) (state_of (view item.now)) at ∷ past) }
    ensures latest { latest_position lane.new.latest_tlp ≡ at }
    ensures room { lane.new.room ≡ lane.old.room }
{
    let number = sequence_number(item.body);
    let arrived = body(item);
    let place = lane.place(number, arrived);
    let again = original(lane, item.dir, number, place);
    let next = lane.next();
    lane.tlp(number, tlp_of(item.body), arrived, at);
    Heard {
        taken: taken(lane, item.dir, next, place),
        again,
    }
}

/// The original of a TLP with this number that stands here, if it is a repeat.
fn original(lane: &Lane, dir: Dir, number: u16, place: Place) -> Option<Stretch>
    requires { number < 4096 }
{
    if place != Place::Repeat {
        return None;
    }
    match lane.original(number) {
        Some(from) => Some(Stretch {
            dir,
            run: lane.runs(),
            from,
            count: 1,
        }),
        None => None,
    }
}

/// What a TLP that stands here is, which came behind so many of its run.
fn taken(lane: &Lane, dir: Dir, next: u64, place: Place) -> Option<Taken> {
    let place = match place {
        Place::Taken => next,
        Place::Opens => 0,
        Place::Repeat | Place::Stray | Place::Dropped => return None,
    };
    Some(Taken {
        dir,
        run: lane.runs(),
        place,
    })
}

/// An Ack or Nak comes: the TLPs of the lane that it newly acknowledges. Where it is ahead, a run
/// begins behind it, and there are none.
fn acknowledge(lane: &mut Lane, dir: Dir, number: u16, at: u64) -> Stretch
    requires { number < 4096 }
    ensures stands { (past : List events.Event) → StandsFor lane.old past →
        StandsFor lane.new (events.Ack number at ∷ past) }
    ensures latest { lane.new.latest_tlp ≡ lane.old.latest_tlp }
    ensures room { lane.new.room ≡ lane.old.room }
{
    let from = lane.answered();
    lane.ack(number, at);
    Stretch {
        dir,
        run: lane.runs(),
        from,
        count: lane.answered().saturating_sub(from),
    }
}
