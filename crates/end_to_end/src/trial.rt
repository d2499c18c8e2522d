//! Generated captures: what `trial` reports of them, and which words ask for one.
use crate::desk::{Calls, run_words};
use pl_notation::{EMPTY, Outcome};
use std::alloc::{AllocError, Global};
use std::test::Fail;

/// Runs the program on these words.
fn run(alloc: Global, words: &[&str]) -> Result<Outcome, AllocError> {
    run_words(alloc, words, &EMPTY, Calls::whole(), Calls::whole())
}

#[test]
fn a_trial_counts_what_its_rounds_hold(rt: HostRuntime) -> Result<(), Fail> {
    let outcome = run(rt.alloc(), &["trial", "1", "500"])?;
    assert!(rt; outcome.status == 0, "{outcome:?}");
    assert!(rt;
        outcome.has_lines(
            "items 3012; tlp down 1000 up 500; dllp down 1006 up 506; link down 0; \
             taken down 1000 up 500; repeat down 0 up 0; stray down 0 up 0; spoiled down 0 up 0; \
             nullified down 0 up 0; most outstanding 1; most unacknowledged down 2 up 1; \
             end items 3012 verdicts 0"
        ),
        "{outcome:?}"
    );
    Ok(())
}

#[test]
fn a_trial_may_be_of_one_round_and_of_any_number(rt: HostRuntime) -> Result<(), Fail> {
    for number in ["0", "1", "18446744073709551615"] {
        let outcome = run(rt.alloc(), &["trial", number, "1"])?;
        assert!(rt; outcome.status == 0, "{outcome:?}");
        assert!(rt;
            outcome.has_lines(
                "items 18; tlp down 2 up 1; dllp down 8 up 7; link down 0; taken down 2 up 1; \
                 repeat down 0 up 0; stray down 0 up 0; spoiled down 0 up 0; \
                 nullified down 0 up 0; most outstanding 1; most unacknowledged down 2 up 1; \
                 end items 18 verdicts 0"
            ),
            "{outcome:?}"
        );
    }
    Ok(())
}

#[test]
fn other_words_than_two_numbers_in_their_ranges_are_no_trial(rt: HostRuntime) -> Result<(), Fail> {
    for (number, count) in [
        ("1", "0"),
        ("1", "1000001"),
        ("18446744073709551616", "1"),
        ("100000000000000000000", "1"),
        ("000000000000000000001", "1"),
        ("01", "1"),
        ("00", "1"),
        ("1", "01"),
        ("+1", "1"),
        ("-1", "1"),
        ("0x1", "1"),
        (" 1", "1"),
        ("", "1"),
        ("1", ""),
        ("1", "18446744073709551617"),
    ] {
        let outcome = run(rt.alloc(), &["trial", number, count])?;
        assert!(rt; outcome.is(2, USAGE), "{number} {count}: {outcome:?}");
    }
    for words in [
        ["trial"].as_slice(),
        &["trial", "1"],
        &["trial", "1", "1", "1"],
    ] {
        let outcome = run(rt.alloc(), words)?;
        assert!(rt; outcome.is(2, USAGE), "{outcome:?}");
    }
    Ok(())
}

#[test]
fn a_write_that_fails_ends_a_trial(rt: HostRuntime) -> Result<(), Fail> {
    let outcome = run_words(
        rt.alloc(),
        &["trial", "1", "1"],
        &EMPTY,
        Calls::whole(),
        Calls::failing(4096, &[1]),
    )?;
    assert!(rt; outcome.is(8, ""), "{outcome:?}");
    Ok(())
}

const USAGE: &str = "usage: check PROFILE CAPTURE | list PROFILE CAPTURE FILTER | \
    report PROFILE CAPTURE | trial NUMBER COUNT | serve ADDRESS STORE TURNS\n";
