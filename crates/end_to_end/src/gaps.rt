//! Captures with gaps, and captures that begin in traffic.
use crate::desk::{Case, check, judge};
use crate::views::{expect, noted, run};
use pl_notation::Notation;
use std::test::Fail;

#[test]
fn a_capture_that_begins_in_traffic_breaks_nothing(rt: HostRuntime) -> Result<(), Fail> {
    judge(
        rt.alloc(),
        &[
            Case::new(
                "1 gap; 2 Up MRd n=7 tag=3 addr=1000 len=1; 3 Down Ack 7; \
                 4 Down CplD n=40 tag=9 bc=4 la=0 len=1; 5 Up Ack 40",
                0,
                "end items 5 verdicts 0",
            ),
            Case::new(
                "1 gap; 2 Up MWr n=5; 3 Up MWr n=8; 4 Down Ack 8",
                0,
                "end items 4 verdicts 0",
            ),
            // the completion may be of a request that was missed
            Case::new(
                "B0; 13 gap; 14 Down CplD n=0 tag=9 bc=4 la=0 len=1",
                0,
                "end items 14 verdicts 0",
            ),
            Case::new(
                "B0; 13 Down CplD n=0 tag=9 bc=4 la=0 len=1",
                1,
                "item 13 rule C1 first - second -; end items 13 verdicts 1",
            ),
        ],
    )
}

#[test]
fn an_answered_run_has_no_jump(rt: HostRuntime) -> Result<(), Fail> {
    judge(
        rt.alloc(),
        &[
            Case::new(
                "1 gap; 2 Up MWr n=5; 3 Down Ack 7; 4 Up MWr n=6; 5 Up MWr n=8; 6 Down Ack 8; \
                 7 Up MWr n=10",
                1,
                "item 7 rule S1 first 5 second -; end items 7 verdicts 1",
            ),
            // an Ack of what was missed begins a run anew, and item 5 repeats a TLP of it
            Case::new(
                "1 gap; 2 Up MWr n=5; 3 Down Ack 5; 4 Down Ack 9; 5 Up MWr n=6",
                0,
                "end items 5 verdicts 0",
            ),
            // 2,047 ahead: it answers TLPs that were missed, and items 4 and 6 repeat some of them
            Case::new(
                "1 gap; 2 Up MWr n=5; 3 Down Ack 2051; 4 Up MWr n=6; 5 Down Ack 6; 6 Up MWr n=8",
                0,
                "end items 6 verdicts 0",
            ),
            // 2,048 may as well be behind: it tells nothing
            Case::new(
                "1 gap; 2 Up MWr n=5; 3 Down Ack 2052; 4 Up MWr n=6; 5 Down Ack 6; 6 Up MWr n=8",
                1,
                "item 6 rule S1 first 4 second -; end items 6 verdicts 1",
            ),
        ],
    )
}

#[test]
fn a_request_is_open_where_it_is_sure_to_be_new(rt: HostRuntime) -> Result<(), Fail> {
    judge(
        rt.alloc(),
        &[
            // that of item 6 is a jump, and doesn't take the place of that of item 4
            Case::new(
                "1 gap; 2 Up MRd n=5 tag=1 addr=1000 len=1; 3 Down Ack 5; \
                 4 Up MRd n=6 tag=9 addr=1000 len=1; 5 Down Ack 10; \
                 6 Up MRd n=11 tag=9 addr=1000 len=2; 7 Down CplD n=0 tag=9 bc=8 la=0 len=2",
                1,
                "item 7 rule C5 first 4 second -; item 7 rule C6 first 4 second -; \
                 end items 7 verdicts 2",
            ),
            // the first of a run isn't sure: the same tag again breaks no C2
            Case::new(
                "1 gap; 2 Up MRd n=5 tag=1 addr=1000 len=1; 3 Down Ack 5; \
                 4 Up MRd n=6 tag=1 addr=1000 len=1",
                0,
                "end items 4 verdicts 0",
            ),
            Case::new(
                "1 gap; 2 Up MWr n=5; 3 Down Ack 5; 4 Up MRd n=6 tag=1 addr=1000 len=1; \
                 5 Up MRd n=7 tag=1 addr=1000 len=1",
                1,
                "item 5 rule C2 first 4 second -; end items 5 verdicts 1",
            ),
        ],
    )
}

#[test]
fn a_gap_forgets_what_came_before_it(rt: HostRuntime) -> Result<(), Fail> {
    judge(
        rt.alloc(),
        &[
            // the request is answered behind the gap, and the replay repeats nothing that is known
            Case::new(
                "B0; 13 Up MRd n=0 tag=9 addr=1000 len=1; 14 gap; \
                 15 Down CplD n=0 tag=9 bc=8 la=0 len=1",
                0,
                "end items 15 verdicts 0",
            ),
            Case::new(
                "B0; 13 Up MWr n=0; 14 Up MWr n=1; 15 gap; 16 Up MWr n=0 data=01; 17 Up MWr n=1; \
                 18 Down Ack 1",
                0,
                "end items 18 verdicts 0",
            ),
            // grants are heard, but none of them was advertised
            Case::new(
                "B0; 13 gap; 14 Up UpdateFC-P 1/1; 15 Down MWr n=0; 16 gap; 17 gap",
                0,
                "end items 17 verdicts 0",
            ),
            // behind a link down nothing is advertised, and that is known
            Case::new(
                "1 gap; 2 link down; 3 Up MWr n=0",
                1,
                "item 3 rule F1 first - second -; end items 3 verdicts 1",
            ),
        ],
    )
}

#[test]
fn credits_wait_for_an_initfc1_behind_a_gap(rt: HostRuntime) -> Result<(), Fail> {
    judge(
        rt.alloc(),
        &[
            // what a TLP took before is used
            Case::new(
                "1 gap; 2 Up MWr n=5; 3 Down InitFC1-P 1/0; 4 Up MWr n=6",
                1,
                "item 4 rule F9 first 3 second -; end items 4 verdicts 1",
            ),
            // an InitFC2 is no initial, and isn't held against the profile
            Case::new(
                "1 gap; 2 Down InitFC2-P 1/8; 3 Down InitFC1-P 1/8",
                1,
                "item 3 rule F4 first - second -; end items 3 verdicts 1",
            ),
        ],
    )
}

#[test]
fn what_was_missed_is_counted_as_it_comes(rt: HostRuntime) -> Result<(), Fail> {
    let rows = "1 gap; 2 Up MWr n=5; 3 Down Ack 5; 4 Down Ack 9; 5 Up MWr n=6";
    let capture = noted(rt.alloc(), rows)?;
    expect(
        &run(rt.alloc(), &["report", "-", "capture"], &capture)?,
        0,
        "items 5; tlp down 0 up 2; dllp down 2 up 0; link down 0; taken down 0 up 1; \
         repeat down 0 up 1; stray down 0 up 0; spoiled down 0 up 0; nullified down 0 up 0; \
         most outstanding 0; most unacknowledged down 0 up 1; end items 5 verdicts 0",
    )?;
    expect(
        &run(
            rt.alloc(),
            &["list", "-", "capture", "(not (or up down))"],
            &capture,
        )?,
        0,
        "item 1 gap 1; end items 5 shown 1 verdicts 0",
    )
}

#[test]
fn a_jump_needs_no_room_among_the_unacknowledged(rt: HostRuntime) -> Result<(), Fail> {
    judge(
        rt.alloc(),
        &[
            Case::under(
                "unacknowledged = 1",
                "1 gap; 2 Up MWr n=5; 3 Up MWr n=8",
                0,
                "end items 3 verdicts 0",
            ),
            Case::under(
                "unacknowledged = 1",
                "1 gap; 2 Up MWr n=5; 3 Up MWr n=6",
                5,
                "limit unacknowledged 1 at item 3",
            ),
        ],
    )
}

#[test]
fn a_version_1_capture_has_no_gaps(rt: HostRuntime) -> Result<(), Fail> {
    let mut notation = Notation::new(rt.alloc(), 0)?;
    notation.gap()?;
    let mut capture = notation.end()?;
    let outcome = check(rt.alloc(), &capture)?;
    assert!(rt; outcome.is(0, "end items 1 verdicts 0\n"), "{outcome:?}");
    for (version, output) in [
        (1, "malformed 4 at item 1\n"),
        (3, "malformed 2 at item 0\n"),
    ] {
        if let Some(byte) = capture.get_mut(9) {
            *byte = version;
        }
        let outcome = check(rt.alloc(), &capture)?;
        assert!(rt; outcome.is(4, output), "{outcome:?}");
    }
    Ok(())
}
