//! The bytes of a capture: its cutting, its end and its refusals.
use crate::desk::{Calls, DAMAGED_ACK_LINES, check, check_by};
use pl_notation::{EMPTY, damaged_ack};
use std::test::Fail;

#[test]
fn a_capture_without_items_is_clean(rt: HostRuntime) -> Result<(), Fail> {
    let outcome = check(rt.alloc(), &EMPTY)?;
    assert!(rt; outcome.is(0, "end items 0 verdicts 0\n"), "{outcome:?}");
    Ok(())
}

#[test]
fn a_damaged_dllp_is_found_however_the_bytes_are_cut(rt: HostRuntime) -> Result<(), Fail> {
    let capture = damaged_ack(rt.alloc())?;
    assert_eq!(rt; capture.len(), 72);
    for step in 1..81 {
        let outcome = check_by(rt.alloc(), &capture, Calls::of(step), Calls::whole())?;
        assert!(rt;
            outcome.is(1, DAMAGED_ACK_LINES),
            "step {step}: {outcome:?}"
        );
    }
    Ok(())
}

#[test]
fn the_lines_stay_the_same_however_few_bytes_a_write_takes(rt: HostRuntime) -> Result<(), Fail> {
    let capture = damaged_ack(rt.alloc())?;
    for take in 1..61 {
        let outcome = check_by(rt.alloc(), &capture, Calls::whole(), Calls::of(take))?;
        assert!(rt;
            outcome.is(1, DAMAGED_ACK_LINES),
            "take {take}: {outcome:?}"
        );
    }
    Ok(())
}

#[test]
fn a_capture_without_its_last_byte_is_truncated(rt: HostRuntime) -> Result<(), Fail> {
    let mut capture = damaged_ack(rt.alloc())?;
    assert_eq!(rt; capture.pop(), Some(2));
    let outcome = check(rt.alloc(), &capture)?;
    assert!(rt;
        outcome.is(
            4,
            "item 2 rule L2 first - second -\nmalformed 9 at item 3\n"
        ),
        "{outcome:?}"
    );
    Ok(())
}

#[test]
fn a_wrong_count_and_a_byte_behind_the_end_are_refused(rt: HostRuntime) -> Result<(), Fail> {
    let mut wrong = EMPTY;
    wrong[35] = 1;
    let outcome = check(rt.alloc(), &wrong)?;
    assert!(rt; outcome.is(4, "malformed 7 at item 1\n"), "{outcome:?}");
    let mut longer = Vec::from_slice(rt.alloc(), &EMPTY)?;
    longer.push(0)?;
    let outcome = check(rt.alloc(), &longer)?;
    assert!(rt; outcome.is(4, "malformed 8 at item 2\n"), "{outcome:?}");
    Ok(())
}

#[test]
fn three_bytes_are_a_truncated_header_whatever_they_are(rt: HostRuntime) -> Result<(), Fail> {
    for front in [&EMPTY[..3], b"xyz".as_slice()] {
        let outcome = check(rt.alloc(), front)?;
        assert!(rt; outcome.is(4, "malformed 9 at item 0\n"), "{outcome:?}");
    }
    Ok(())
}

#[test]
fn flit_mode_is_named_and_not_judged(rt: HostRuntime) -> Result<(), Fail> {
    let mut flit = EMPTY;
    flit[10] = 1;
    let outcome = check(rt.alloc(), &flit)?;
    assert!(rt; outcome.is(6, "unsupported 1 at item 0\n"), "{outcome:?}");
    Ok(())
}
