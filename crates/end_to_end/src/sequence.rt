//! The sequence rules S1 to S5.
ghost use Rattle.std.specs.Prelude.{◌<◌};

use crate::desk::{Case, judge};
use pl_base::{Body, Dir};
use pl_notation::Notation;
use std::alloc::{AllocError, Global};
use std::test::Fail;

/// MWr of one DW at 1000.
pub const WRITE: [u8; 16] = [0x40, 0, 0, 1, 1, 0, 0, 0x0F, 0, 0, 0x10, 0, 0, 0, 0, 0];

/// A bring-up, and then so many writes from number 0 on, each of which is acknowledged at once.
fn acknowledged_writes(alloc: Global, count: u16) -> Result<Notation, AllocError>
    requires { count < 4096 }
{
    let mut notation = Notation::new(alloc, 0)?;
    notation.bring_up()?;
    for number in 0..count {
        notation.tlp(Dir::Up, number, &WRITE, Body::Whole)?;
        notation.ack(Dir::Down, number)?;
    }
    Ok(notation)
}

#[test]
fn a_replay_repeats_what_was_sent(rt: HostRuntime) -> Result<(), Fail> {
    let same = "8203 Up MWr n=4095; 8204 Up MWr n=0; 8205 Down Nak 4094; 8206 Up MWr n=4095; \
         8207 Up MWr n=0";
    Case::new(same, 0, "end items 8207 verdicts 0").judge_behind(
        rt.alloc(),
        acknowledged_writes(rt.alloc(), 4095)?,
    )?;
    let other = "8203 Up MWr n=4095; 8204 Up MWr n=0; 8205 Down Nak 4094; 8206 Up MWr n=4095; \
         8207 Up MWr n=0 data=01";
    Case::new(
        other,
        1,
        "item 8207 rule S2 first 8204 second -; end items 8207 verdicts 1",
    )
    .judge_behind(rt.alloc(), acknowledged_writes(rt.alloc(), 4095)?)
}

#[test]
fn a_number_that_is_too_old_is_no_repeat(rt: HostRuntime) -> Result<(), Fail> {
    let case = Case::new(
        "4111 Up MWr n=1; 4112 Up MWr n=0",
        1,
        "item 4112 rule S1 first 4109 second -; end items 4112 verdicts 1",
    );
    case.judge_behind(rt.alloc(), acknowledged_writes(rt.alloc(), 2049)?)
}

#[test]
fn numbers_that_stray_or_stand_in_another_order(rt: HostRuntime) -> Result<(), Fail> {
    judge(
        rt.alloc(),
        &[
            Case::new(
                "B0; 13 Up MWr n=4095",
                1,
                "item 13 rule S1 first - second -; end items 13 verdicts 1",
            ),
            Case::new(
                "B0; 13 Up MWr n=0; 14 Down Ack 0; 15 Up MWr n=7",
                1,
                "item 15 rule S1 first 13 second -; end items 15 verdicts 1",
            ),
            Case::new(
                "B0; 13 Up MWr n=0; 14 Up MWr n=1; 15 Up MWr n=2; 16 Up MWr n=1",
                1,
                "item 16 rule S3 first 15 second 14; end items 16 verdicts 1",
            ),
        ],
    )
}

#[test]
fn a_repeat_behind_one_that_strayed_or_was_spoiled(rt: HostRuntime) -> Result<(), Fail> {
    judge(
        rt.alloc(),
        &[
            // The latest TLP is stray, and whole.
            Case::new(
                "B0; 13 Up MWr n=0; 14 Up MWr n=1; 15 Up MWr n=2; 16 Up MWr n=9; 17 Up MWr n=1",
                1,
                "item 16 rule S1 first 15 second -; item 17 rule S3 first 16 second 14; \
                 end items 17 verdicts 2",
            ),
            // The latest TLP is spoiled, or nullified.
            Case::new(
                "B0; 13 Up MWr n=0; 14 Up MWr n=1; 15 Up MWr n=2; 16 Up MWr n=3 spoiled; \
                 17 Up MWr n=1",
                1,
                "item 16 rule L1 first - second -; end items 17 verdicts 1",
            ),
            Case::new(
                "B0; 13 Up MWr n=0; 14 Up MWr n=1; 15 Up MWr n=2; 16 Up MWr n=3 nullified; \
                 17 Up MWr n=1",
                0,
                "end items 17 verdicts 0",
            ),
            // A nullified TLP takes no number.
            Case::new(
                "B0; 13 Up MWr n=0 nullified; 14 Up MWr n=0",
                0,
                "end items 14 verdicts 0",
            ),
        ],
    )
}

#[test]
fn an_acknowledgement_of_what_was_not_sent(rt: HostRuntime) -> Result<(), Fail> {
    judge(
        rt.alloc(),
        &[
            Case::new(
                "B0; 13 Down Ack 5",
                1,
                "item 13 rule S5 first - second -; end items 13 verdicts 1",
            ),
            Case::new(
                "B0; 13 Up MWr n=0; 14 Down Ack 0; 15 Down Ack 5",
                1,
                "item 15 rule S5 first 13 second -; end items 15 verdicts 1",
            ),
            // After a link down nothing was taken.
            Case::new(
                "B0; 13 Up MWr n=0; 14 link down; 15 Down Ack 0",
                1,
                "item 15 rule S5 first - second -; end items 15 verdicts 1",
            ),
        ],
    )
}

#[test]
fn more_unacknowledged_packets_than_the_profile_has_end_the_run(
    rt: HostRuntime,
) -> Result<(), Fail> {
    let rows = "B0; 13 Up MWr n=0; 14 Up MWr n=1";
    judge(
        rt.alloc(),
        &[
            Case::under(
                "unacknowledged = 1",
                rows,
                5,
                "limit unacknowledged 1 at item 14",
            ),
            Case::under("unacknowledged = 2", rows, 0, "end items 14 verdicts 0"),
        ],
    )
}
