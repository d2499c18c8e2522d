//! The completion rules C1 to C10, and captures of whole transactions.
use crate::desk::{Calls, Case, check_by, judge};
use pl_cli::check_with;
use pl_engine::Engine;
use pl_io::{MemShelf, MemSink};
use pl_notation::{Notation, Outcome};
use pl_profile::Profile;
use std::alloc::Global;
use std::test::Fail;

/// Configuration and memory reads with credits that come back.
pub const TRANSACTIONS: &str = "B1; 13 Down CfgRd0 n=0 req=0000 tag=0 len=1; 14 Up Ack 0; \
    15 Up CplD n=0 req=0000 tag=0 bc=4 la=0 len=1; 16 Down Ack 0; 17 Up UpdateFC-NP 33/32; \
    18 Down UpdateFC-Cpl 33/65; 19 Up MRd n=1 tag=1 addr=1000 len=128; 20 Down Ack 1; \
    21 Down CplD n=1 tag=1 bc=512 la=0 len=64; 22 Down CplD n=2 tag=1 bc=256 la=0 len=64; \
    23 Up Ack 2; 24 Down UpdateFC-NP 33/32";

/// What the program writes of them.
const TRANSACTION_LINES: &str = "end items 24 verdicts 0\n";

fn transactions(alloc: Global) -> Result<Vec<u8>, Fail> {
    let mut notation = Notation::new(alloc, 0)?;
    notation.rows(TRANSACTIONS)?;
    let capture = notation.end()?;
    Ok(capture)
}

#[test]
fn transactions_are_clean_however_the_bytes_are_cut(rt: HostRuntime) -> Result<(), Fail> {
    let capture = transactions(rt.alloc())?;
    for step in [1, 64, 4095, 4096] {
        let outcome = check_by(rt.alloc(), &capture, Calls::of(step), Calls::whole())?;
        assert!(rt;
            outcome.is(0, TRANSACTION_LINES),
            "step {step}: {outcome:?}"
        );
    }
    Ok(())
}

/// The capture has 1,044 bytes: it is opened, read 17 times by 64 bytes, and then found to be at
/// its end.
#[test]
fn transactions_end_in_a_read_fault_wherever_a_call_fails(rt: HostRuntime) -> Result<(), Fail> {
    let capture = transactions(rt.alloc())?;
    assert_eq!(rt; capture.len(), 1044);
    for failing in 1..21 {
        let outcome = check_by(
            rt.alloc(),
            &capture,
            Calls::failing(64, &[failing]),
            Calls::whole(),
        )?;
        let is_right = if failing < 20 {
            outcome.is(7, "read fault\n")
        } else {
            outcome.is(0, TRANSACTION_LINES)
        };
        assert!(rt; is_right, "call {failing}: {outcome:?}");
    }
    Ok(())
}

#[test]
fn transactions_are_clean_to_an_engine_that_was_opened_before(rt: HostRuntime) -> Result<(), Fail> {
    let capture = transactions(rt.alloc())?;
    let mut shelf = MemShelf::new(rt.alloc(), 4096, &[])?;
    shelf.add("capture", &capture)?;
    let mut out = MemSink::new(rt.alloc(), 256, 4096, &[])?;
    let mut engine = Engine::open(rt.alloc(), Profile::usual())?;
    let status = check_with(&mut engine, "capture", &mut shelf, &mut out);
    let output = Vec::from_slice(rt.alloc(), out.written())?;
    let outcome = Outcome { status, output };
    assert!(rt; outcome.is(0, TRANSACTION_LINES), "{outcome:?}");
    Ok(())
}

#[test]
fn reads_are_answered_by_count_address_and_boundary(rt: HostRuntime) -> Result<(), Fail> {
    judge(
        rt.alloc(),
        &[
            Case::new(
                "B0; 13 Up MRd n=0 tag=3 addr=1000 len=1 be=0/0; \
                 14 Down CplD n=0 tag=3 bc=1 la=0 len=1",
                0,
                "end items 14 verdicts 0",
            ),
            Case::new(
                "B0; 13 Up MRd n=0 tag=3 addr=1000 len=1 be=0/0; \
                 14 Down CplD n=0 tag=3 bc=4 la=0 len=1",
                1,
                "item 14 rule C6 first 13 second -; end items 14 verdicts 1",
            ),
            Case::new(
                "B0; 13 Up MRd n=0 tag=0 addr=70 len=16; 14 Down CplD n=0 tag=0 bc=64 la=70 len=4; \
                 15 Down CplD n=1 tag=0 bc=48 la=0 len=12",
                0,
                "end items 15 verdicts 0",
            ),
            Case::new(
                "B0; 13 Up MRd n=0 tag=0 addr=70 len=16; 14 Down CplD n=0 tag=0 bc=64 la=70 len=2; \
                 15 Down CplD n=1 tag=0 bc=56 la=78 len=14",
                1,
                "item 14 rule C9 first 13 second -; end items 15 verdicts 1",
            ),
        ],
    )
}

#[test]
fn all_ten_bits_of_a_tag_tell_transactions_apart(rt: HostRuntime) -> Result<(), Fail> {
    judge(
        rt.alloc(),
        &[
            Case::under(
                "tag_bits = 10",
                "B0; 13 Up MRd n=0 tag=5 addr=1000 len=1; 14 Up MRd n=1 tag=205 addr=1000 len=2; \
                 15 Down CplD n=0 tag=205 bc=8 la=0 len=2; 16 Down CplD n=1 tag=5 bc=4 la=0 len=1",
                0,
                "end items 16 verdicts 0",
            ),
            Case::under(
                "tag_bits = 10",
                "B0; 13 Up MRd n=0 tag=105 addr=1000 len=1; \
                 14 Down MRd n=0 tag=105 addr=1000 len=2; \
                 15 Up CplD n=1 tag=105 bc=8 la=0 len=2; 16 Down CplD n=1 tag=105 bc=4 la=0 len=1",
                0,
                "end items 16 verdicts 0",
            ),
            Case::new(
                "B0; 13 Up MRd n=0 tag=5 addr=1000 len=1; 14 Down CplD n=0 tag=105 bc=4 la=0 len=1",
                1,
                "item 14 rule C1 first - second -; end items 14 verdicts 1",
            ),
        ],
    )
}

#[test]
fn a_tag_is_free_once_its_request_has_ended(rt: HostRuntime) -> Result<(), Fail> {
    judge(
        rt.alloc(),
        &[
            Case::new(
                "B0; 13 Up MRd n=0 tag=9 addr=1000 len=1; 14 Down Cpl n=0 tag=9 status UR; \
                 15 Up MRd n=1 tag=9 addr=1000 len=1",
                0,
                "end items 15 verdicts 0",
            ),
            Case::new(
                "B0; 13 Up MRd n=0 tag=9 addr=1000 len=1; 14 Up MRd n=1 tag=9 addr=1000 len=1",
                1,
                "item 14 rule C2 first 13 second -; end items 14 verdicts 1",
            ),
            // An AtomicOp that got too little data stays open.
            Case::new(
                "B0; 13 Up FetchAdd n=0 tag=0 addr=1000 len=2; 14 Down CplD n=0 tag=0 bc=8 len=1; \
                 15 Up MRd n=1 tag=0 addr=1000 len=1",
                1,
                "item 14 rule C4 first 13 second -; item 15 rule C2 first 13 second -; \
                 end items 15 verdicts 2",
            ),
        ],
    )
}

#[test]
fn more_open_requests_than_the_profile_has_end_the_run(rt: HostRuntime) -> Result<(), Fail> {
    let rows = "B0; 13 Up MRd n=0 tag=0 addr=1000 len=1; 14 Up MRd n=1 tag=1 addr=1000 len=1; \
        15 Up MRd n=2 tag=1 addr=1000 len=1; 16 Up MRd n=3 tag=2 addr=1000 len=1";
    judge(
        rt.alloc(),
        &[
            Case::under(
                "outstanding = 2",
                rows,
                5,
                "item 15 rule C2 first 14 second -; limit outstanding 2 at item 16",
            ),
            Case::under(
                "outstanding = 3",
                rows,
                1,
                "item 15 rule C2 first 14 second -; end items 16 verdicts 1",
            ),
        ],
    )
}

#[test]
fn a_completion_that_answers_nothing_or_otherwise(rt: HostRuntime) -> Result<(), Fail> {
    judge(
        rt.alloc(),
        &[
            Case::new(
                "B0; 13 Down Cpl n=0 tag=9",
                1,
                "item 13 rule C1 first - second -; end items 13 verdicts 1",
            ),
            Case::new(
                "B0; 13 Up MRd n=0 tag=1 addr=1000 len=1; \
                 14 Down CplD n=0 tag=1 bc=4 la=0 len=1 TC 1",
                1,
                "item 14 rule C3 first 13 second -; end items 14 verdicts 1",
            ),
            Case::new(
                "B0; 13 Up MRdLk n=0 tag=1 addr=1000 len=1; 14 Down CplD n=0 tag=1 bc=4 la=0 len=1",
                1,
                "item 14 rule C10 first 13 second -; end items 14 verdicts 1",
            ),
            Case::new(
                "B0; 13 Up MRd n=0 tag=1 addr=1000 len=1; 14 Down Cpl n=0 tag=1 status CRS",
                1,
                "item 14 rule C8 first 13 second -; end items 14 verdicts 1",
            ),
        ],
    )
}

#[test]
fn what_is_judged_of_a_completion_goes_by_its_request(rt: HostRuntime) -> Result<(), Fail> {
    judge(
        rt.alloc(),
        &[
            // The length of a translation's answer is judged, its Byte Count isn't.
            Case::new(
                "B0; 13 Up MRd n=0 tag=0 addr=1000 len=2 AT 01; 14 Down CplD n=0 tag=0 bc=64 len=3",
                1,
                "item 14 rule C5 first 13 second -; end items 14 verdicts 1",
            ),
            // Byte Count and Lower Address are judged without data too, of I/O reads and AtomicOps.
            Case::new(
                "B0; 13 Down IORd n=0 tag=0 len=1; 14 Up Cpl n=0 tag=0 bc=8 la=4",
                1,
                "item 14 rule C4 first 13 second -; item 14 rule C6 first 13 second -; \
                 item 14 rule C7 first 13 second -; end items 14 verdicts 3",
            ),
            Case::new(
                "B0; 13 Up FetchAdd n=0 tag=0 addr=1000 len=1; 14 Down Cpl n=0 tag=0",
                1,
                "item 14 rule C4 first 13 second -; item 14 rule C6 first 13 second -; \
                 end items 14 verdicts 2",
            ),
        ],
    )
}
