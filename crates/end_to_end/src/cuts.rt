//! A capture that is cut at every length, and an outside that fails at every call.
use crate::desk::{Calls, DAMAGED_ACK_LINES, check, check_by};
use pl_notation::damaged_ack;
use std::test::Fail;

/// What is written of the capture with a damaged Ack where so many of its 72 bytes are there.
fn lines_of_front(length: usize) -> &'static str {
    match length {
        0..=15 => "malformed 9 at item 0\n",
        16..=33 => "malformed 9 at item 1\n",
        34..=51 => "malformed 9 at item 2\n",
        _ => "item 2 rule L2 first - second -\nmalformed 9 at item 3\n",
    }
}

#[test]
fn a_capture_that_is_cut_anywhere_is_truncated_there(rt: HostRuntime) -> Result<(), Fail> {
    let capture = damaged_ack(rt.alloc())?;
    let bytes = capture.as_slice();
    assert_eq!(rt; bytes.len(), 72);
    for length in 0..72 {
        let outcome = check(rt.alloc(), &bytes[..length])?;
        assert!(rt;
            outcome.is(4, lines_of_front(length)),
            "{length}: {outcome:?}"
        );
    }
    Ok(())
}

#[test]
fn a_read_that_fails_ends_with_the_lines_before_it(rt: HostRuntime) -> Result<(), Fail> {
    let capture = damaged_ack(rt.alloc())?;
    for failing in 1..3 {
        let outcome = check_by(
            rt.alloc(),
            &capture,
            Calls::failing(64, &[failing]),
            Calls::whole(),
        )?;
        assert!(rt;
            outcome.is(7, "read fault\n"),
            "call {failing}: {outcome:?}"
        );
    }
    for failing in 3..5 {
        let outcome = check_by(
            rt.alloc(),
            &capture,
            Calls::failing(64, &[failing]),
            Calls::whole(),
        )?;
        assert!(rt;
            outcome.is(7, "item 2 rule L2 first - second -\nread fault\n"),
            "call {failing}: {outcome:?}"
        );
    }
    let outcome = check_by(
        rt.alloc(),
        &capture,
        Calls::failing(64, &[5]),
        Calls::whole(),
    )?;
    assert!(rt; outcome.is(1, DAMAGED_ACK_LINES), "{outcome:?}");
    Ok(())
}

#[test]
fn a_write_that_fails_leaves_what_was_written_before_it(rt: HostRuntime) -> Result<(), Fail> {
    let capture = damaged_ack(rt.alloc())?;
    let lines = DAMAGED_ACK_LINES.as_bytes();
    assert_eq!(rt; lines.len(), 55);
    for failing in 1..56 {
        let outcome = check_by(
            rt.alloc(),
            &capture,
            Calls::whole(),
            Calls::failing(1, &[failing]),
        )?;
        assert_eq!(rt; outcome.status, 8);
        assert_eq!(rt; outcome.output.len() as u64, failing - 1);
        assert!(rt;
            lines.starts_with(&outcome.output),
            "call {failing}: {outcome:?}"
        );
    }
    let outcome = check_by(
        rt.alloc(),
        &capture,
        Calls::whole(),
        Calls::failing(1, &[56]),
    )?;
    assert!(rt; outcome.is(1, DAMAGED_ACK_LINES), "{outcome:?}");
    Ok(())
}
