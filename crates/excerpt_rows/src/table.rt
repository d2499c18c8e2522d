//! Captures and their excerpts over files and output in memory.
ghost use Rattle.std.specs.Prelude.{◌<◌};

use pl_excerpt::{Outcome, excerpt};
use pl_io::{MemShelf, MemSink};
use pl_notation::Notation;
use pl_profile::Profile;
use std::alloc::Global;
use std::test::Fail;

/// What an excerpt came to, and what was written.
#[derive(Debug, Drop)]
pub struct Excerpted {
    pub outcome: Outcome,
    pub output: Vec<u8>,
}

/// A capture of these rows, the calls of the shelf and the sink that fail, and how many bytes a
/// read and a write take.
#[derive(Clone, Copy)]
pub struct Table<'a> {
    pub step: usize,
    pub shelf_fails: &'a [u64],
    pub sink_fails: &'a [u64],
    ghost some_step: { 0 < step },
}

impl<'a> Table<'a> {
    /// No call fails.
    pub fn plain() -> Table<'a> {
        Table {
            step: 4096,
            shelf_fails: &[],
            sink_fails: &[],
        }
    }

    /// The excerpt of a capture's verdict.
    pub fn excerpt(&self, alloc: Global, capture: &[u8], number: u64) -> Result<Excerpted, Fail>
        requires { 0 < number }
    {
        let mut shelf = MemShelf::new(alloc, self.step, self.shelf_fails)?;
        shelf.add("capture", capture)?;
        let mut out = MemSink::new(alloc, 4096, self.step, self.sink_fails)?;
        let outcome = excerpt(
            alloc,
            Profile::usual(),
            "capture",
            number,
            &mut shelf,
            &mut out,
        );
        let output = Vec::from_slice(alloc, out.written())?;
        Ok(Excerpted { outcome, output })
    }
}

/// The capture of these rows.
pub fn capture_of(alloc: Global, rows: &str) -> Result<Vec<u8>, Fail> {
    let mut notation = Notation::new(alloc, 0)?;
    notation.rows(rows)?;
    let capture = notation.end()?;
    Ok(capture)
}
