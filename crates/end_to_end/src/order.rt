//! The verdicts of one item stand in the order of the rules, whichever part of the program finds
//! them.
use crate::desk::{Case, judge};
use crate::sequence::WRITE;
use pl_base::{Body, Dir};
use pl_notation::Notation;
use std::test::Fail;

/// A read past the credits and past its page. Then the last part of an answer, which breaks nine
/// rules: its Traffic Class has no virtual channel and isn't the request's, it has 260 bytes of
/// data for one DW that is wanted, a digest of zeros, a local prefix behind an End-End prefix, the
/// Byte Count of the first part in place of 4, the Lower Address 0 in place of 40, and a kind that
/// answers locked reads.
#[test]
fn formation_stands_behind_flow_control_and_before_completions(
    rt: HostRuntime,
) -> Result<(), Fail> {
    judge(
        rt.alloc(),
        &[
            Case::new(
                "B0 with Down NP 1/1; 13 Up MRd n=0 tag=0 addr=1000 len=1; \
                 14 Up MRd n=1 tag=1 addr=FFC len=2",
                1,
                "item 14 rule F9 first 2 second -; item 14 rule M5 first - second -; \
                 end items 14 verdicts 2",
            ),
            Case::under(
                "tc_vc = [0, 8, 8, 8, 8, 8, 8, 8]",
                "B0; 13 Up MRd n=0 tag=0 addr=103C len=2; 14 Down CplD n=0 tag=0 bc=8 la=3C len=1; \
                 15 Down CplDLk n=1 tag=0 bc=8 la=0 len=65 TC 1 prefix=90000000 prefix=80000000 \
                 digest=00000000",
                1,
                "item 15 rule M16 first - second -; item 15 rule M17 first - second -; \
                 item 15 rule M18 first - second -; item 15 rule M19 first - second -; \
                 item 15 rule C3 first 13 second 14; item 15 rule C5 first 13 second 14; \
                 item 15 rule C6 first 13 second 14; item 15 rule C7 first 13 second 14; \
                 item 15 rule C10 first 13 second 14; end items 15 verdicts 9",
            ),
        ],
    )
}

/// Behind 2,047 writes that nobody acknowledged, a read past its page on a virtual channel without
/// credits.
#[test]
fn sequence_stands_before_flow_control_and_formation(rt: HostRuntime) -> Result<(), Fail> {
    let mut notation = Notation::new(rt.alloc(), 0)?;
    notation.bring_up()?;
    for number in 0..2047 {
        notation.tlp(Dir::Up, number, &WRITE, Body::Whole)?;
    }
    let case = Case::under(
        "vcs = 2\ntc_vc = [0, 1, 8, 8, 8, 8, 8, 8]\n",
        "2060 Up MRd n=2047 tag=0 addr=FFC len=2 TC 1",
        1,
        "item 2060 rule S4 first 13 second -; item 2060 rule F1 first - second -; \
         item 2060 rule M5 first - second -; end items 2060 verdicts 3",
    );
    case.judge_behind(rt.alloc(), notation)
}
