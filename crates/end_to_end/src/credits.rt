//! The flow control rules F1 to F11.
use crate::desk::{Case, judge};
use crate::sequence::WRITE;
use pl_base::{Body, Dir};
use pl_notation::Notation;
use std::alloc::AllocError;
use std::test::Fail;

/// Writes with these numbers.
fn writes(notation: &mut Notation, from: u16, to: u16) -> Result<(), AllocError> {
    for number in from..to {
        notation.tlp(Dir::Up, number, &WRITE, Body::Whole)?;
    }
    Ok(())
}

#[test]
fn header_credits_wrap(rt: HostRuntime) -> Result<(), Fail> {
    let mut notation = Notation::new(rt.alloc(), 0)?;
    notation.rows("B0 with Down P 127/0")?;
    writes(&mut notation, 0, 127)?;
    notation.rows("140 Down UpdateFC-P 254/0")?;
    writes(&mut notation, 127, 254)?;
    notation.rows("268 Down UpdateFC-P 125/0")?;
    writes(&mut notation, 254, 381)?;
    let case = Case::new(
        "396 Up MWr n=381",
        1,
        "item 396 rule F9 first 268 second -; end items 396 verdicts 1",
    );
    case.judge_behind(rt.alloc(), notation)
}

#[test]
fn each_rule_of_an_advertisement(rt: HostRuntime) -> Result<(), Fail> {
    judge(
        rt.alloc(),
        &[
            Case::new(
                "1 Up MWr n=0",
                1,
                "item 1 rule F1 first - second -; end items 1 verdicts 1",
            ),
            Case::new(
                "1 Down InitFC1-NP 0/0",
                1,
                "item 1 rule F2 first - second -; end items 1 verdicts 1",
            ),
            Case::new(
                "1 Down InitFC1-P 1/8",
                1,
                "item 1 rule F4 first - second -; end items 1 verdicts 1",
            ),
            Case::new(
                "B0; 13 Down UpdateFC-P 0/1",
                1,
                "item 13 rule F5 first 1 second -; end items 13 verdicts 1",
            ),
            Case::new(
                "1 Up InitFC1-P 0/0; 2 Up InitFC1-NP 0/0; 3 Up InitFC1-Cpl 1/1",
                1,
                "item 3 rule F6 first - second -; end items 3 verdicts 1",
            ),
        ],
    )
}

#[test]
fn each_rule_of_the_use_of_credits(rt: HostRuntime) -> Result<(), Fail> {
    judge(
        rt.alloc(),
        &[
            Case::new(
                "1 Down UpdateFC-P 1/1",
                1,
                "item 1 rule F7 first - second -; end items 1 verdicts 1",
            ),
            Case::new(
                "B0 with Down P 255/0",
                1,
                "item 1 rule F8 first - second -; end items 12 verdicts 1",
            ),
            Case::new(
                "B0 with Down P 1/0 HdrScale 10; 13 Up MWr n=0; 14 Up MWr n=1; 15 Up MWr n=2; \
                 16 Up MWr n=3; 17 Up MWr n=4",
                1,
                "item 17 rule F9 first 1 second -; end items 17 verdicts 1",
            ),
            Case::new(
                "1 Down InitFC1-P 0/0 VC 1",
                1,
                "item 1 rule F11 first - second -; end items 1 verdicts 1",
            ),
        ],
    )
}

#[test]
fn the_turn_of_the_classes_is_a_ring(rt: HostRuntime) -> Result<(), Fail> {
    judge(
        rt.alloc(),
        &[
            Case::new(
                "1 Down InitFC1-P 0/0; 2 Down InitFC1-NP 0/0; 3 Down InitFC1-Cpl 0/0; \
                 4 Down InitFC1-P 0/0",
                0,
                "end items 4 verdicts 0",
            ),
            Case::new(
                "1 Down InitFC1-P 0/0; 2 Down InitFC1-P 0/0",
                1,
                "item 2 rule F2 first 1 second -; end items 2 verdicts 1",
            ),
            // One that was out of turn counts too.
            Case::new(
                "1 Down InitFC1-NP 0/0; 2 Down InitFC1-Cpl 0/0; 3 Down InitFC1-P 0/0",
                1,
                "item 1 rule F2 first - second -; end items 3 verdicts 1",
            ),
        ],
    )
}

#[test]
fn a_channel_is_ready_behind_its_three_initials(rt: HostRuntime) -> Result<(), Fail> {
    judge(
        rt.alloc(),
        &[
            Case::new(
                "1 Down InitFC1-P 0/0; 2 Down InitFC1-NP 0/0; 3 Down InitFC2-Cpl 0/0; 4 Up MWr n=0",
                1,
                "item 4 rule F1 first - second -; end items 4 verdicts 1",
            ),
            Case::new(
                "1 Down InitFC1-P 0/0; 2 Down InitFC1-NP 0/0; 3 Down InitFC2-Cpl 0/0; \
                 4 Down InitFC2-P 0/0; 5 Up MWr n=0",
                0,
                "end items 5 verdicts 0",
            ),
            // What was sent before it is used all the same.
            Case::new(
                "1 Up MWr n=0; 2 Down InitFC1-P 1/0; 3 Down InitFC1-NP 0/0; \
                 4 Down InitFC1-Cpl 0/0; \
                 5 Down InitFC2-P 1/0; 6 Up MWr n=1",
                1,
                "item 1 rule F1 first - second -; item 6 rule F9 first 2 second -; \
                 end items 6 verdicts 2",
            ),
            // Credits are judged from the class's initial on.
            Case::new(
                "1 Down InitFC1-P 1/0; 2 Up MWr n=0; 3 Up MWr n=1",
                1,
                "item 2 rule F1 first - second -; item 3 rule F1 first - second -; \
                 item 3 rule F9 first 1 second -; end items 3 verdicts 3",
            ),
        ],
    )
}

/// One header credit in units of 4 is the same advertisement as four in units of 1.
#[test]
fn an_advertisement_is_compared_by_its_value(rt: HostRuntime) -> Result<(), Fail> {
    judge(
        rt.alloc(),
        &[
            Case::new(
                "1 Down InitFC1-P 1/0 HdrScale 10; 2 Down InitFC1-NP 0/0; 3 Down InitFC1-Cpl 0/0; \
                 4 Up InitFC1-P 0/0; 5 Up InitFC1-NP 0/0; 6 Up InitFC1-Cpl 0/0; \
                 7 Down InitFC2-P 4/0; 8 Down InitFC2-NP 0/0; 9 Down InitFC2-Cpl 0/0; \
                 10 Up InitFC2-P 0/0; 11 Up InitFC2-NP 0/0; 12 Up InitFC2-Cpl 0/0",
                0,
                "end items 12 verdicts 0",
            ),
            Case::new(
                "1 Down InitFC1-P 1/0 HdrScale 10; 2 Down InitFC2-P 1/0",
                1,
                "item 2 rule F3 first 1 second -; end items 2 verdicts 1",
            ),
        ],
    )
}

/// 200 credits are more than 127 ahead of none used: a write then takes from them, and is past the
/// half of the ring. Two credits with a data field that must stay 0 serve two writes, of which the
/// second is past the first grant.
#[test]
fn a_wrong_update_is_the_grant_all_the_same(rt: HostRuntime) -> Result<(), Fail> {
    judge(
        rt.alloc(),
        &[
            Case::new(
                "B0 with Down P 1/0; 13 Down UpdateFC-P 200/0; 14 Up MWr n=0",
                1,
                "item 13 rule F8 first 1 second -; item 14 rule F9 first 13 second -; \
                 end items 14 verdicts 2",
            ),
            Case::new(
                "B0 with Down P 1/0; 13 Down UpdateFC-P 2/5; 14 Up MWr n=0; 15 Up MWr n=1",
                1,
                "item 13 rule F5 first 1 second -; end items 15 verdicts 1",
            ),
        ],
    )
}

/// Five DW would be two data credits.
#[test]
fn a_write_of_io_costs_one_data_credit(rt: HostRuntime) -> Result<(), Fail> {
    judge(
        rt.alloc(),
        &[Case::new(
            "B0 with Down NP 2/1; 13 Up IOWr n=0 tag=0 addr=1000 len=5; \
             14 Up IOWr n=1 tag=1 addr=1000 len=1",
            1,
            "item 13 rule M9 first - second -; item 14 rule F10 first 2 second -; \
             end items 14 verdicts 2",
        )],
    )
}
