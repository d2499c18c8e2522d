//! An engineer's desk: captures under names, and what the program wrote about them.
ghost use Rattle.std.specs.Prelude.{◌<◌};

use pl_cli::run;
use pl_io::{MemDoor, MemShelf, MemSink};
use pl_keeper::MapKeeper;
use pl_notation::{Notation, Outcome};
use std::alloc::{AllocError, Global};
use std::test::Fail;

/// A capture by its rows, and what `check` answers of it.
#[derive(Clone, Copy)]
pub struct Case<'a> {
    pub profile: &'a str,
    pub rows: &'a str,
    pub status: u8,
    pub lines: &'a str,
}

impl<'a> Case<'a> {
    /// Under the usual profile these rows give this status and these lines, parted by `;`.
    pub fn new(rows: &'a str, status: u8, lines: &'a str) -> Case<'a> {
        Case::under("-", rows, status, lines)
    }

    /// The same under a profile of this text.
    pub fn under(profile: &'a str, rows: &'a str, status: u8, lines: &'a str) -> Case<'a> {
        Case {
            profile,
            rows,
            status,
            lines,
        }
    }

    /// Checks that the capture gives it, noted so far and followed by the rows.
    pub fn judge_behind(&self, alloc: Global, mut notation: Notation) -> Result<(), Fail> {
        notation.rows(self.rows)?;
        let outcome = check_under(alloc, self.profile, &notation.end()?)?;
        if outcome.status == self.status && outcome.has_lines(self.lines) {
            return Ok(());
        }
        let written = str::from_utf8(&outcome.output)?;
        let status = outcome.status;
        Err(Fail::new(format_args!("{} gives {status}, {written}", self.rows)))
    }
}

/// Checks each capture.
pub fn judge(alloc: Global, cases: &[Case<'_>]) -> Result<(), Fail> {
    for case in cases {
        case.judge_behind(alloc, Notation::new(alloc, 0)?)?;
    }
    Ok(())
}

/// What the program answers on these words, over an archive without rows and a door without links.
pub fn answer(
    alloc: Global,
    words: &[&str],
    shelf: &mut MemShelf,
    out: &mut MemSink,
) -> Result<u8, AllocError> {
    let mut door = MemDoor::new(alloc, Vec::new(alloc), &[])?;
    let mut keeper = MapKeeper::new(alloc, &[])?;
    Ok(run(alloc, words, shelf, out, &mut door, &mut keeper))
}

/// Checks a capture under `-`, the usual profile, or else under a profile of this text.
fn check_under(alloc: Global, profile: &str, capture: &[u8]) -> Result<Outcome, AllocError> {
    let mut shelf = MemShelf::new(alloc, 4096, &[])?;
    shelf.add("capture", capture)?;
    shelf.add("profile", profile.as_bytes())?;
    let mut out = MemSink::new(alloc, 4096, 4096, &[])?;
    let name = if profile == "-" { "-" } else { "profile" };
    let status = answer(alloc, &["check", name, "capture"], &mut shelf, &mut out)?;
    let output = Vec::from_slice(alloc, out.written())?;
    Ok(Outcome { status, output })
}

/// The calls of a shelf or a sink: how many bytes each moves at most, and which of them fail,
/// counted from 1.
#[derive(Clone, Copy)]
pub struct Calls<'a> {
    pub most: usize,
    pub failing: &'a [u64],
    ghost some: { 0 < most },
}

impl<'a> Calls<'a> {
    /// Each call moves all that it can.
    pub fn whole() -> Calls<'a> {
        Calls {
            most: 4096,
            failing: &[],
        }
    }

    /// Each call moves at most so many bytes.
    pub fn of(most: usize) -> Calls<'a>
        requires { 0 < most }
    {
        Calls { most, failing: &[] }
    }

    /// The same, where these calls fail.
    pub fn failing(most: usize, failing: &'a [u64]) -> Calls<'a>
        requires { 0 < most }
    {
        Calls { most, failing }
    }
}

/// Runs the program on these words, over one file of the name `capture`.
pub fn run_words(
    alloc: Global,
    words: &[&str],
    capture: &[u8],
    reads: Calls<'_>,
    writes: Calls<'_>,
) -> Result<Outcome, AllocError> {
    let mut shelf = MemShelf::new(alloc, reads.most, reads.failing)?;
    shelf.add("capture", capture)?;
    let mut out = MemSink::new(alloc, 65_536, writes.most, writes.failing)?;
    let status = answer(alloc, words, &mut shelf, &mut out)?;
    let output = Vec::from_slice(alloc, out.written())?;
    Ok(Outcome { status, output })
}

/// Checks a capture under the usual profile.
pub fn check(alloc: Global, capture: &[u8]) -> Result<Outcome, AllocError> {
    check_by(alloc, capture, Calls::whole(), Calls::whole())
}

/// The same by these reads and writes.
pub fn check_by(
    alloc: Global,
    capture: &[u8],
    reads: Calls<'_>,
    writes: Calls<'_>,
) -> Result<Outcome, AllocError> {
    run_words(alloc, &["check", "-", "capture"], capture, reads, writes)
}

/// What the program writes of a damaged Ack.
pub const DAMAGED_ACK_LINES: &str = "item 2 rule L2 first - second -\nend items 2 verdicts 1\n";
