//! The records of an excerpt.
ghost use Rattle.std.specs.Prelude.{◌≡◌, ◌+◌, ◌<◌, ◌≤◌, ◌^◌, true, false};
ghost use Rattle.pl_capture.specs.Entry.{IsLawful, view};
ghost use Rattle.pl_capture.specs.Record.{end_of, header_of, record_of};
ghost use Rattle.pl_excerpt.specs.Excerpt.{gap_at};
ghost use Rattle.pl_excerpt.specs.Writing.{Appends, records_with};

use pl_base::Dir;
use pl_capture::{Item, ItemKind, write_end, write_header_of, write_item};
use pl_io::{Failed, Sink, write_all};

/// The bytes of the longest record: its head, and the body of the longest TLP.
const MOST_RECORD: usize = 12 + 4160;

/// The version of captures that may have gaps.
const WITH_GAPS: u16 = 2;

/// What was written of an excerpt behind its header.
#[derive(Drop)]
pub(crate) struct Written {
    /// How many records.
    records: u64,
    /// The latest item is among them, or there is none.
    follows: bool,
}

impl Written {
    /// Nothing yet.
    pub(crate) fn new() -> Written
        ensures { result ≡ record { records = 0; follows = true } }
    {
        Written {
            records: 0,
            follows: true,
        }
    }

    /// Passes over an item that isn't selected.
    pub(crate) fn skip(&mut self)
        ensures { self.new ≡ record { records = self.old.records; follows = false } }
    {
        self.follows = false;
    }

    /// Writes the record of an item that is selected, behind that of a gap where the item before it
    /// isn't.
    pub(crate) fn item<O: Sink>(&mut self, item: &Item, out: &mut O) -> Result<(), Failed>
        requires lawful { IsLawful (view item.now) }
        requires few { self.old.records < 2 ^ 60 }
        ensures appends { Appends O.Sink result (records_with self.old.follows (view item.now))
            out.old out.new }
        ensures follows { self.new.follows ≡ true }
        ensures records { self.new.records ≤ self.old.records + 2 }
    {
        let follows = self.follows;
        self.follows = true;
        if follows {
            return self.record(item, out);
        }
        match self.record(&gap_of(item.time), out) {
            Ok(()) => self.record(item, out),
            Err(failed) => Err(failed),
        }
    }

    /// Writes the record of an item.
    fn record<O: Sink>(&mut self, item: &Item, out: &mut O) -> Result<(), Failed>
        requires lawful { IsLawful (view item.now) }
        requires few { self.old.records < 2 ^ 61 }
        ensures appends { Appends O.Sink result (record_of (view item.now)) out.old out.new }
        ensures counted { self.new
            ≡ record { records = self.old.records + 1; follows = self.old.follows } }
    {
        self.records += 1;
        let mut record = [0; MOST_RECORD];
        match write_item(item, &mut record) {
            Some(size) => append(&record[..size], out),
            None => unreachable!(),
        }
    }

    /// Writes the end record.
    pub(crate) fn end<O: Sink>(&self, out: &mut O) -> Result<(), Failed>
        ensures appends { Appends O.Sink result (end_of self.now.records 0) out.old out.new }
    {
        let mut record = [0; 20];
        match write_end(self.records, 0, &mut record) {
            Some(size) => append(&record[..size], out),
            None => unreachable!(),
        }
    }
}

/// A gap of this time.
fn gap_of(time: u64) -> Item<'static>
    ensures gap { view result ≡ gap_at time }
    ensures lawful { IsLawful (view result) }
{
    Item {
        kind: ItemKind::Gap,
        dir: Dir::Down,
        bad_end: false,
        time,
        body: &[],
    }
}

/// Writes the header.
pub(crate) fn write_header<O: Sink>(out: &mut O) -> Result<(), Failed>
    ensures appends { Appends O.Sink result (header_of 2 0) out.old out.new }
{
    let mut header = [0; 16];
    match write_header_of(WITH_GAPS, 0, &mut header) {
        Some(size) => append(&header[..size], out),
        None => unreachable!(),
    }
}

/// Appends the bytes.
fn append<O: Sink>(bytes: &[u8], out: &mut O) -> Result<(), Failed>
    ensures appends { Appends O.Sink result bytes.now out.old out.new }
{
    write_all(out, bytes)
}
