//! Small captures of one direction that begin with a gap, item 1.
ghost use Rattle.std.specs.Prelude.{◌≤◌};
ghost use Rattle.pl_seq.specs.Lane.{latest_position};

use crate::tests::{Link, broken};
use crate::{Body, Lane, Place};
use pl_base::Rule;
use std::alloc::{AllocError, Global};
use std::process::Abort;
use std::test::Fail;

impl Link {
    /// A lane behind a gap, with this much room.
    fn torn(alloc: Global, room: u16) -> Result<Link, AllocError> {
        let mut lane = Lane::open(alloc, room.clamp(1, 4095))?;
        lane.gap();
        Ok(Link { lane, at: 1 })
    }

    /// A whole TLP that stands here and breaks nothing.
    fn stands(&mut self, rt: &impl Abort, number: u16, place: Place) {
        assert!(rt; number < 4096);
        assert_eq!(rt; self.lane.place(number, Body::Whole), place, "of {number}");
        assert_eq!(rt;
            self.tlp(rt, number, 0, Body::Whole).len(),
            0,
            "of {number}"
        );
    }

    /// An Ack or Nak that breaks nothing.
    fn acks(&mut self, rt: &impl Abort, number: u16) {
        assert_eq!(rt; self.ack(rt, number).len(), 0, "of {number}");
    }
}

#[test]
fn a_capture_may_begin_in_traffic(rt: HostRuntime) -> Result<(), Fail> {
    let mut link = Link::torn(rt.alloc(), 256)?;
    assert_eq!(rt; link.lane.runs(), 1);
    link.stands(&rt, 7, Place::Taken);
    assert_eq!(rt; link.lane.unacknowledged(), 1);
    assert!(rt; !link.lane.confirmed());
    link.acks(&rt, 7);
    assert_eq!(rt; link.lane.unacknowledged(), 0);
    assert!(rt; link.lane.confirmed());
    assert_eq!(rt; link.lane.next(), 1);
    assert_eq!(rt; link.lane.answered(), 1);
    assert_eq!(rt; link.lane.runs(), 1);
    Ok(())
}

#[test]
fn a_run_begins_behind_an_ack_that_is_ahead(rt: HostRuntime) -> Result<(), Fail> {
    let mut link = Link::torn(rt.alloc(), 256)?;
    link.stands(&rt, 5, Place::Taken);
    link.acks(&rt, 7);
    assert_eq!(rt; link.lane.runs(), 2);
    link.stands(&rt, 6, Place::Repeat);
    link.stands(&rt, 8, Place::Taken);
    assert_eq!(rt; link.lane.original(6), None);
    assert_eq!(rt; link.lane.original(8), Some(0));
    link.acks(&rt, 8);
    assert!(rt; link.lane.confirmed());
    assert_eq!(rt;
        link.tlp(&rt, 10, 0, Body::Whole).as_slice(),
        [broken(Rule::S1, 7, Some(5), None)].as_slice()
    );
    Ok(())
}

#[test]
fn a_jump_begins_a_run_where_none_is_confirmed(rt: HostRuntime) -> Result<(), Fail> {
    let mut link = Link::torn(rt.alloc(), 256)?;
    link.stands(&rt, 5, Place::Taken);
    link.stands(&rt, 8, Place::Opens);
    assert_eq!(rt; link.lane.runs(), 2);
    assert_eq!(rt; link.lane.next(), 1);
    link.acks(&rt, 8);
    assert!(rt; link.lane.confirmed());
    assert_eq!(rt; link.lane.place(11, Body::Whole), Place::Stray);
    Ok(())
}

#[test]
fn a_jump_needs_no_room(rt: HostRuntime) -> Result<(), Fail> {
    let mut link = Link::torn(rt.alloc(), 1)?;
    link.stands(&rt, 5, Place::Taken);
    assert!(rt; link.lane.full());
    link.stands(&rt, 8, Place::Opens);
    assert!(rt; link.lane.full());
    // the one that it keeps is the jump
    assert_eq!(rt;
        link.tlp(&rt, 8, 9, Body::Whole).as_slice(),
        [broken(Rule::S2, 4, Some(3), None)].as_slice()
    );
    Ok(())
}

#[test]
fn an_ack_that_is_ahead_ends_a_confirmed_run(rt: HostRuntime) -> Result<(), Fail> {
    let mut link = Link::torn(rt.alloc(), 256)?;
    link.stands(&rt, 5, Place::Taken);
    link.acks(&rt, 5);
    link.acks(&rt, 9);
    assert!(rt; !link.lane.confirmed());
    link.stands(&rt, 6, Place::Repeat);
    assert_eq!(rt; link.lane.next(), 0);
    Ok(())
}

#[test]
fn an_ack_is_ahead_by_at_most_2047(rt: HostRuntime) -> Result<(), Fail> {
    // the first TLP is number 0, so an Ack of 2047 answers 2,048
    for (number, runs, place) in [(2047, 1, Place::Taken), (2046, 2, Place::Repeat)] {
        let mut link = Link::torn(rt.alloc(), 256)?;
        link.stands(&rt, 0, Place::Taken);
        link.acks(&rt, number);
        assert_eq!(rt; link.lane.runs(), runs);
        assert!(rt; !link.lane.confirmed());
        assert_eq!(rt; link.lane.place(1, Body::Whole), place);
    }
    Ok(())
}

#[test]
fn an_ack_before_any_tlp_tells_the_first_number(rt: HostRuntime) -> Result<(), Fail> {
    let mut link = Link::torn(rt.alloc(), 256)?;
    link.acks(&rt, 4095);
    link.stands(&rt, 0, Place::Taken);
    link.stands(&rt, 4095, Place::Repeat);
    // the same Ack again answers none, and confirms nothing
    link.acks(&rt, 4095);
    assert!(rt; !link.lane.confirmed());
    Ok(())
}

#[test]
fn a_gap_behind_a_gap_begins_anew(rt: HostRuntime) -> Result<(), Fail> {
    let mut link = Link::torn(rt.alloc(), 256)?;
    link.stands(&rt, 5, Place::Taken);
    link.acks(&rt, 5);
    link.lane.gap();
    link.lane.gap();
    assert_eq!(rt; link.lane.runs(), 3);
    assert!(rt; !link.lane.confirmed());
    link.stands(&rt, 3000, Place::Taken);
    assert_eq!(rt; link.lane.unacknowledged(), 1);
    Ok(())
}

#[test]
fn a_link_down_ends_a_torn_span(rt: HostRuntime) -> Result<(), Fail> {
    let mut link = Link::torn(rt.alloc(), 256)?;
    link.stands(&rt, 5, Place::Taken);
    link.lane.reset();
    assert_eq!(rt; link.lane.place(5, Body::Whole), Place::Stray);
    assert_eq!(rt;
        link.ack(&rt, 5).as_slice(),
        [broken(Rule::S5, 3, None, None)].as_slice()
    );
    Ok(())
}

#[test]
fn the_window_counts_once_the_run_is_confirmed(rt: HostRuntime) -> Result<(), Fail> {
    for (confirmed, verdicts) in [(false, 0), (true, 1)] {
        let mut link = Link::torn(rt.alloc(), 4095)?;
        link.stands(&rt, 0, Place::Taken);
        if confirmed {
            link.acks(&rt, 0);
        }
        for number in 1..2048 {
            link.stands(&rt, number, Place::Taken);
        }
        let found = link.tlp(&rt, 2048, 0, Body::Whole);
        assert_eq!(rt; found.len(), verdicts);
        if let Some(verdict) = found.get(0) {
            assert_eq!(rt; *verdict, broken(Rule::S4, 2051, Some(4), None));
        }
    }
    Ok(())
}

#[test]
fn a_repeat_without_an_original_is_not_compared(rt: HostRuntime) -> Result<(), Fail> {
    let mut link = Link::torn(rt.alloc(), 256)?;
    link.acks(&rt, 7);
    link.stands(&rt, 8, Place::Taken);
    assert_eq!(rt; link.lane.place(5, Body::Whole), Place::Repeat);
    assert_eq!(rt; link.tlp(&rt, 5, 9, Body::Whole).len(), 0);
    Ok(())
}
