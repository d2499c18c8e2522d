//! The formation rules M1 to M20.
use crate::desk::{Case, judge};
use pl_base::{Body, Dir};
use pl_notation::Notation;
use std::test::Fail;

#[test]
fn memory_requests_stay_in_their_page_and_enable_bytes_without_gaps(
    rt: HostRuntime,
) -> Result<(), Fail> {
    judge(
        rt.alloc(),
        &[
            Case::new(
                "B0; 13 Up MRd n=0 tag=0 addr=FFC len=2; 14 Up MRd n=1 tag=1 addr=FF8 len=2",
                1,
                "item 13 rule M5 first - second -; end items 14 verdicts 1",
            ),
            Case::new(
                "B0; 13 Up MRd n=0 tag=0 addr=1000 len=1 be=F/F",
                1,
                "item 13 rule M7 first - second -; end items 13 verdicts 1",
            ),
            Case::new(
                "B0; 13 Up MWr n=0 addr=8 len=2 be=5/A; 14 Up MWr n=1 addr=4 len=2 be=5/A",
                1,
                "item 14 rule M8 first - second -; end items 14 verdicts 1",
            ),
        ],
    )
}

#[test]
fn requests_and_messages_have_the_form_of_their_kind(rt: HostRuntime) -> Result<(), Fail> {
    judge(
        rt.alloc(),
        &[
            Case::new(
                "B0; 13 Up CfgRd0 n=0 tag=0 len=1",
                1,
                "item 13 rule M10 first - second -; end items 13 verdicts 1",
            ),
            Case::new(
                "B0; 13 Up FetchAdd n=0 tag=0 addr=1000 len=3",
                1,
                "item 13 rule M11 first - second -; end items 13 verdicts 1",
            ),
            Case::new(
                "B0; 13 Up FetchAdd n=0 tag=0 addr=1004 len=2",
                1,
                "item 13 rule M12 first - second -; end items 13 verdicts 1",
            ),
            Case::new(
                "B0; 13 Down Msg n=0 code 18 routing 000",
                1,
                "item 13 rule M13 first - second -; end items 13 verdicts 1",
            ),
            Case::new(
                "B0; 13 Up Msg n=0 code 18 routing 000 TC 1",
                1,
                "item 13 rule M14 first - second -; end items 13 verdicts 1",
            ),
            Case::new(
                "B0; 13 Up MsgD n=0 code 18 routing 000 len=1",
                1,
                "item 13 rule M15 first - second -; end items 13 verdicts 1",
            ),
        ],
    )
}

#[test]
fn translation_requests_and_hints_are_exempt_from_some_rules(rt: HostRuntime) -> Result<(), Fail> {
    judge(
        rt.alloc(),
        &[
            Case::new(
                "B0; 13 Up MRd n=0 tag=0 addr=FFC len=2 AT 01",
                0,
                "end items 13 verdicts 0",
            ),
            Case::new(
                "B0; 13 Up FetchAdd n=0 tag=0 4DW addr=1000 len=1 AT 01",
                1,
                "item 13 rule M6 first - second -; end items 13 verdicts 1",
            ),
            Case::new(
                "B0; 13 Up MWr n=0 addr=1000 len=65 AT 01",
                1,
                "item 13 rule M3 first - second -; end items 13 verdicts 1",
            ),
            Case::new(
                "B0; 13 Up IORd n=0 tag=0 addr=1000 len=1 be=F/3 TH",
                1,
                "item 13 rule M9 first - second -; end items 13 verdicts 1",
            ),
        ],
    )
}

#[test]
fn a_tag_keeps_to_the_bits_in_use(rt: HostRuntime) -> Result<(), Fail> {
    let reads = "B0; 13 Up MRd n=0 tag=105 addr=1000 len=1; 14 Up MRd n=1 tag=5 addr=1000 len=1; \
        15 Down CplD n=0 tag=105 bc=4 la=0 len=1; 16 Down CplD n=1 tag=5 bc=4 la=0 len=1";
    let too_wide = "item 13 rule M20 first - second -; end items 16 verdicts 1";
    judge(
        rt.alloc(),
        &[
            Case::under("tag_bits = 10", reads, 0, "end items 16 verdicts 0"),
            Case::new(reads, 1, too_wide),
            Case::under("tag_bits = 5", reads, 1, too_wide),
            Case::new("B0; 13 Up MWr n=0 tag=105", 0, "end items 13 verdicts 0"),
        ],
    )
}

#[test]
fn the_profile_bounds_sizes_and_tags(rt: HostRuntime) -> Result<(), Fail> {
    let largest = "B0; 13 Up MRd n=0 tag=0 addr=0 len=1024; \
        14 Down CplD n=0 tag=0 bc=4096 la=0 len=1024";
    judge(
        rt.alloc(),
        &[
            Case::under(
                "max_payload = [4096, 4096]\nmax_read = [4096, 4096]\n",
                largest,
                0,
                "end items 14 verdicts 0",
            ),
            Case::new(
                largest,
                1,
                "item 13 rule M4 first - second -; item 14 rule M17 first - second -; \
                 end items 14 verdicts 2",
            ),
            Case::under(
                "tag_bits = 5",
                "B0; 13 Up MRd n=0 tag=20 addr=1000 len=1",
                1,
                "item 13 rule M20 first - second -; end items 13 verdicts 1",
            ),
            Case::under(
                "tag_bits = 5",
                "B0; 13 Up MRd n=0 tag=1F addr=1000 len=1",
                0,
                "end items 13 verdicts 0",
            ),
        ],
    )
}

/// The digests were computed apart from this program.
#[test]
fn digests_and_prefixes_have_their_rules(rt: HostRuntime) -> Result<(), Fail> {
    judge(
        rt.alloc(),
        &[
            Case::new(
                "B0; 13 Up MWr n=0 digest=8D6C3B34",
                0,
                "end items 13 verdicts 0",
            ),
            Case::new(
                "B0; 13 Up MWr n=0 digest=8D6C3B35",
                1,
                "item 13 rule M18 first - second -; end items 13 verdicts 1",
            ),
            Case::new(
                "B0; 13 Up MWr n=0 prefix=90000000 prefix=80000000",
                1,
                "item 13 rule M19 first - second -; end items 13 verdicts 1",
            ),
            Case::new(
                "B0; 13 Up MWr n=0 prefix=80000000 prefix=90000000",
                0,
                "end items 13 verdicts 0",
            ),
        ],
    )
}

/// TCfgRd, which isn't defined here.
const UNDEFINED: [u8; 12] = [0x1B, 0, 0, 1, 0, 0, 0, 0, 0, 0, 0, 0];

/// MWr with Length 2 and the data of Length 1.
const TOO_SHORT: [u8; 16] = [0x40, 0, 0, 2, 1, 0, 0, 0xFF, 0, 0, 0x10, 0, 0, 0, 0, 0];

#[test]
fn a_packet_that_cannot_be_read_has_one_verdict(rt: HostRuntime) -> Result<(), Fail> {
    for (bytes, lines) in [
        (
            UNDEFINED.as_slice(),
            "item 13 rule M1 first - second -; end items 13 verdicts 1",
        ),
        (
            TOO_SHORT.as_slice(),
            "item 13 rule M2 first - second -; end items 13 verdicts 1",
        ),
    ] {
        let mut notation = Notation::new(rt.alloc(), 0)?;
        notation.bring_up()?;
        if bytes.len() <= 16 {
            notation.tlp(Dir::Up, 0, bytes, Body::Whole)?;
        }
        Case::new("", 1, lines).judge_behind(rt.alloc(), notation)?;
    }
    Ok(())
}
