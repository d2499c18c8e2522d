//! What `list` and `report` show of a capture.
use crate::completions::TRANSACTIONS;
use crate::desk::{Calls, run_words};
use pl_cli::{list_with, report_with};
use pl_engine::Engine;
use pl_filter::parse;
use pl_io::{MemShelf, MemSink};
use pl_notation::{EMPTY, Notation, Outcome, damaged_ack};
use pl_profile::Profile;
use std::alloc::{AllocError, Global};
use std::test::Fail;

/// Checks that the outcome of some words is this status and these lines, which are parted by `;`.
pub fn expect(outcome: &Outcome, status: u8, lines: &str) -> Result<(), Fail> {
    if outcome.status == status && outcome.has_lines(lines) {
        return Ok(());
    }
    let written = str::from_utf8(&outcome.output)?;
    let answered = outcome.status;
    Err(Fail::new(format_args!("status {answered}, {written}")))
}

/// Runs the program on these words, over a capture of the name `capture`.
pub fn run(alloc: Global, words: &[&str], capture: &[u8]) -> Result<Outcome, AllocError> {
    run_words(alloc, words, capture, Calls::whole(), Calls::whole())
}

/// The capture of these rows.
pub fn noted(alloc: Global, rows: &str) -> Result<Vec<u8>, Fail> {
    let mut notation = Notation::new(alloc, 0)?;
    notation.rows(rows)?;
    let capture = notation.end()?;
    Ok(capture)
}

/// Lists the items of these rows for which the filter holds.
fn list(alloc: Global, rows: &str, filter: &str) -> Result<Outcome, Fail> {
    let capture = noted(alloc, rows)?;
    let outcome = run(alloc, &["list", "-", "capture", filter], &capture)?;
    Ok(outcome)
}

/// A filter's text: so many negations are opened, then comes the rest, and so many are closed.
fn negated(alloc: Global, opened: usize, rest: &str, closed: usize) -> Result<String, AllocError> {
    let mut text = String::new(alloc);
    for _ in 0..opened {
        text.push_str("(not ")?;
    }
    text.push_str(rest)?;
    for _ in 0..closed {
        text.push_str(")")?;
    }
    Ok(text)
}

#[test]
fn a_report_counts_what_a_capture_holds(rt: HostRuntime) -> Result<(), Fail> {
    let capture = noted(rt.alloc(), TRANSACTIONS)?;
    let outcome = run(rt.alloc(), &["report", "-", "capture"], &capture)?;
    expect(
        &outcome,
        0,
        "items 24; tlp down 3 up 2; dllp down 10 up 9; link down 0; taken down 3 up 2; \
         repeat down 0 up 0; stray down 0 up 0; spoiled down 0 up 0; nullified down 0 up 0; \
         most outstanding 1; most unacknowledged down 2 up 1; end items 24 verdicts 0",
    )
}

/// Of the six TLPs one is nullified, one is taken and comes again, two skip numbers and one is
/// spoiled.
#[test]
fn a_report_tells_how_each_tlp_arrived_and_which_rules_broke(rt: HostRuntime) -> Result<(), Fail> {
    let rows = "B0; 13 Up MWr n=0 nullified; 14 Up MWr n=0; 15 Up MWr n=0; 16 Up MWr n=5; \
        17 Up MWr n=6; 18 Up MWr n=1 spoiled";
    let capture = noted(rt.alloc(), rows)?;
    let outcome = run(rt.alloc(), &["report", "-", "capture"], &capture)?;
    expect(
        &outcome,
        1,
        "items 18; tlp down 0 up 6; dllp down 6 up 6; link down 0; taken down 0 up 1; \
         repeat down 0 up 1; stray down 0 up 2; spoiled down 0 up 1; nullified down 0 up 1; \
         most outstanding 0; most unacknowledged down 0 up 1; rule L1 1 first 18; \
         rule S1 2 first 16; end items 18 verdicts 3",
    )
}

const NOTHING_COUNTED: &str = "items 0; tlp down 0 up 0; dllp down 0 up 0; link down 0; \
    taken down 0 up 0; repeat down 0 up 0; stray down 0 up 0; spoiled down 0 up 0; \
    nullified down 0 up 0; most outstanding 0; most unacknowledged down 0 up 0;";

#[test]
fn a_report_of_no_items_counts_none(rt: HostRuntime) -> Result<(), Fail> {
    let outcome = run(rt.alloc(), &["report", "-", "capture"], &EMPTY)?;
    let lines = format!(in rt.alloc(); "{NOTHING_COUNTED} end items 0 verdicts 0")?;
    expect(&outcome, 0, &lines)
}

#[test]
fn a_report_counts_the_items_before_a_refusal(rt: HostRuntime) -> Result<(), Fail> {
    let capture = damaged_ack(rt.alloc())?;
    let front = capture.get(..52).unwrap_or(&[]);
    let outcome = run(rt.alloc(), &["report", "-", "capture"], front)?;
    expect(
        &outcome,
        4,
        "items 2; tlp down 0 up 0; dllp down 0 up 2; link down 0; taken down 0 up 0; \
         repeat down 0 up 0; stray down 0 up 0; spoiled down 0 up 0; nullified down 0 up 0; \
         most outstanding 0; most unacknowledged down 0 up 0; rule L2 1 first 2; \
         malformed 9 at item 3",
    )
}

#[test]
fn a_report_of_an_absent_capture_counts_no_items(rt: HostRuntime) -> Result<(), Fail> {
    let outcome = run(rt.alloc(), &["report", "-", "absent"], &EMPTY)?;
    let lines = format!(in rt.alloc(); "{NOTHING_COUNTED} read fault")?;
    expect(&outcome, 7, &lines)?;
    let outcome = run(rt.alloc(), &["list", "-", "absent", "any"], &EMPTY)?;
    expect(&outcome, 7, "read fault")?;
    let outcome = run(rt.alloc(), &["report", "absent", "capture"], &EMPTY)?;
    expect(&outcome, 7, "read fault")?;
    let outcome = run(rt.alloc(), &["list", "absent", "capture", "any"], &EMPTY)?;
    expect(&outcome, 7, "read fault")
}

#[test]
fn a_list_shows_the_items_of_its_filter_with_their_verdicts(rt: HostRuntime) -> Result<(), Fail> {
    let capture = damaged_ack(rt.alloc())?;
    let outcome = run(
        rt.alloc(),
        &["list", "-", "capture", "(and up (not kind=Ack))"],
        &capture,
    )?;
    expect(
        &outcome,
        1,
        "item 2 up dllp badcrc 2; item 2 rule L2 first - second -; end items 2 shown 1 verdicts 1",
    )
}

#[test]
fn a_list_counts_the_verdicts_of_items_that_it_hides(rt: HostRuntime) -> Result<(), Fail> {
    let capture = damaged_ack(rt.alloc())?;
    let outcome = run(rt.alloc(), &["list", "-", "capture", "kind=Ack"], &capture)?;
    expect(
        &outcome,
        1,
        "item 1 up dllp Ack 1; end items 2 shown 1 verdicts 1",
    )
}

#[test]
fn a_list_shows_how_a_tlp_arrived(rt: HostRuntime) -> Result<(), Fail> {
    let rows = "B0; 13 Up MWr n=0 nullified; 14 Up MWr n=0";
    let outcome = list(rt.alloc(), rows, "tlp")?;
    expect(
        &outcome,
        0,
        "item 13 up tlp 0 nullified 13; item 14 up tlp 0 MWr 14; end items 14 shown 2 verdicts 0",
    )
}

#[test]
fn a_message_has_the_tag_of_its_header(rt: HostRuntime) -> Result<(), Fail> {
    let rows = "B0; 13 Up Msg n=0 code 18 routing 000";
    let outcome = list(rt.alloc(), rows, "tag=0")?;
    expect(
        &outcome,
        0,
        "item 13 up tlp 0 Msg 13; end items 13 shown 1 verdicts 0",
    )
}

/// Neither the profile nor the capture is there: the filter is read before them.
#[test]
fn a_filter_that_is_refused_has_its_place(rt: HostRuntime) -> Result<(), Fail> {
    let deep = negated(rt.alloc(), 33, "any", 33)?;
    let crowded = negated(rt.alloc(), 31, "((any", 0)?;
    for (filter, line) in [
        ("(and up)", "filter error 1 at 7"),
        (deep.as_str(), "filter error 2 at 160"),
        (crowded.as_str(), "filter error 1 at 156"),
        ("kind=spoiled", "filter error 1 at 0"),
        ("kind=nullified", "filter error 1 at 0"),
        ("any\tany", "filter error 1 at 0"),
        ("(not any  ", "filter error 1 at 10"),
        ("   ", "filter error 1 at 3"),
    ] {
        let words = ["list", "absent", "absent", filter];
        let outcome = run(rt.alloc(), &words, &EMPTY)?;
        expect(&outcome, 12, line)?;
    }
    Ok(())
}

#[test]
fn a_filter_may_open_32_parentheses(rt: HostRuntime) -> Result<(), Fail> {
    let filter = negated(rt.alloc(), 32, "any", 32)?;
    let outcome = list(rt.alloc(), "1 Up Ack 4095", &filter)?;
    expect(
        &outcome,
        0,
        "item 1 up dllp Ack 1; end items 1 shown 1 verdicts 0",
    )
}

#[test]
fn a_list_over_an_engine_that_is_there_shows_the_same(rt: HostRuntime) -> Result<(), Fail> {
    let mut shelf = MemShelf::new(rt.alloc(), 4096, &[])?;
    shelf.add("capture", &damaged_ack(rt.alloc())?)?;
    let mut out = MemSink::new(rt.alloc(), 4096, 4096, &[])?;
    let mut engine = Engine::open(rt.alloc(), Profile::usual())?;
    let filter = parse(rt.alloc(), "kind=Ack")?;
    let status = list_with(&mut engine, &filter, "capture", &mut shelf, &mut out);
    let output = Vec::from_slice(rt.alloc(), out.written())?;
    expect(
        &Outcome { status, output },
        1,
        "item 1 up dllp Ack 1; end items 2 shown 1 verdicts 1",
    )
}

#[test]
fn a_report_over_an_engine_that_is_there_counts_the_same(rt: HostRuntime) -> Result<(), Fail> {
    let mut shelf = MemShelf::new(rt.alloc(), 4096, &[])?;
    shelf.add("capture", &EMPTY)?;
    let mut out = MemSink::new(rt.alloc(), 4096, 4096, &[])?;
    let mut engine = Engine::open(rt.alloc(), Profile::usual())?;
    let status = report_with(&mut engine, "capture", &mut shelf, &mut out);
    let output = Vec::from_slice(rt.alloc(), out.written())?;
    let lines = format!(in rt.alloc(); "{NOTHING_COUNTED} end items 0 verdicts 0")?;
    expect(&Outcome { status, output }, 0, &lines)
}
