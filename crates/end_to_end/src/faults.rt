//! Reads and writes that fail, and command lines that are none.
use crate::desk::{Calls, check_by, run_words};
use pl_base::Dir;
use pl_notation::{EMPTY, Notation, damaged_ack};
use std::alloc::{AllocError, Global};
use std::test::Fail;

#[test]
fn a_read_fault_comes_after_the_lines_of_the_whole_items(rt: HostRuntime) -> Result<(), Fail> {
    let capture = damaged_ack(rt.alloc())?;
    let outcome = check_by(
        rt.alloc(),
        &capture,
        Calls::failing(64, &[3]),
        Calls::whole(),
    )?;
    assert!(rt;
        outcome.is(7, "item 2 rule L2 first - second -\nread fault\n"),
        "{outcome:?}"
    );
    Ok(())
}

#[test]
fn a_refusal_in_what_was_read_goes_before_a_read_fault(rt: HostRuntime) -> Result<(), Fail> {
    let mut wrong = EMPTY;
    wrong[35] = 1;
    let outcome = check_by(rt.alloc(), &wrong, Calls::failing(64, &[3]), Calls::whole())?;
    assert!(rt; outcome.is(4, "malformed 7 at item 1\n"), "{outcome:?}");
    Ok(())
}

#[test]
fn nothing_is_written_after_a_write_fault(rt: HostRuntime) -> Result<(), Fail> {
    let capture = damaged_ack(rt.alloc())?;
    let outcome = check_by(
        rt.alloc(),
        &capture,
        Calls::whole(),
        Calls::failing(4096, &[2]),
    )?;
    assert!(rt;
        outcome.is(8, "item 2 rule L2 first - second -\n"),
        "{outcome:?}"
    );
    Ok(())
}

/// What 150 damaged Acks break is written in pieces, and a fault may come within a line.
#[test]
fn a_write_fault_cuts_lines_that_were_gathered(rt: HostRuntime) -> Result<(), Fail> {
    let mut notation = Notation::new(rt.alloc(), 0)?;
    let mut lines = String::new(rt.alloc());
    for number in 1..151 {
        notation.dllp_as_captured(Dir::Up, [0x00, 0x00, 0x0F, 0xFF, 0x25, 0xA9])?;
        lines.push_str(&format!(in rt.alloc(); "item {number} rule L2 first - second -\n")?)?;
    }
    let capture = notation.end()?;
    let outcome = check_by(
        rt.alloc(),
        &capture,
        Calls::whole(),
        Calls::failing(1000, &[3]),
    )?;
    assert!(rt;
        outcome.status == 8 && outcome.output.len() == 2000,
        "{outcome:?}"
    );
    assert!(rt;
        lines.as_bytes().starts_with(&outcome.output),
        "{outcome:?}"
    );
    Ok(())
}

#[test]
fn an_absent_capture_is_a_read_fault(rt: HostRuntime) -> Result<(), Fail> {
    let outcome = run_words(
        rt.alloc(),
        &["check", "-", "absent"],
        &EMPTY,
        Calls::of(1),
        Calls::of(1),
    )?;
    assert!(rt; outcome.is(7, "read fault\n"), "{outcome:?}");
    Ok(())
}

/// Whether the program answers these words with the usage line.
fn is_usage(alloc: Global, words: &[&str]) -> Result<bool, AllocError> {
    let outcome = run_words(alloc, words, &EMPTY, Calls::of(1), Calls::of(1))?;
    Ok(outcome.is(
        2,
        "usage: check PROFILE CAPTURE | list PROFILE CAPTURE FILTER | report PROFILE CAPTURE | \
         trial NUMBER COUNT | serve ADDRESS STORE TURNS\n",
    ))
}

#[test]
fn words_that_are_no_command_get_the_usage_line(rt: HostRuntime) -> Result<(), Fail> {
    assert!(rt; is_usage(rt.alloc(), &[])?, "no words");
    assert!(rt; is_usage(rt.alloc(), &["check"])?, "one word");
    assert!(rt; is_usage(rt.alloc(), &["check", "-"])?, "two words");
    assert!(rt;
        is_usage(rt.alloc(), &["check", "-", "capture", "x"])?,
        "four words"
    );
    assert!(rt;
        is_usage(rt.alloc(), &["Check", "-", "capture"])?,
        "another word"
    );
    assert!(rt; is_usage(rt.alloc(), &["trial", "1", "0"])?, "a count of 0");
    Ok(())
}
