//! The second reading: what is selected of the items up to that of the verdict is written.
ghost use Rattle.std.specs.Prelude.{◌≡◌, ◌+◌, ◌*◌, ◌<◌, ◌≤◌, ◌^◌, true, IfErr, OnOk, None};
ghost use Rattle.pl_capture.specs.Entry.{Entry, IsLawful, view};
ghost use Rattle.pl_capture.specs.Standing.{Holding};
ghost use Rattle.pl_excerpt.specs.Replaying.{Follows, IsOfCopy, IsOfCopyIn, Judges};
ghost use Rattle.pl_excerpt.specs.Replaying.{SinkCause, SinkCauseIn};
ghost use Rattle.pl_excerpt.specs.Searching.{fault_in, fault_of};
ghost use Rattle.pl_excerpt.specs.Sources.{Opens, Steady};

use crate::outcome::{Outcome, without_item};
use crate::source::Source;
use crate::witnesses::Witnesses;
use crate::writing::{Written, write_header};
use pl_capture::Item;
use pl_engine::Engine;
use pl_io::{Shelf, Sink};

/// Opens the capture of this name once more, and writes the excerpt.
pub(crate) fn copy<H: Shelf, O: Sink>(
    engine: &mut Engine,
    witnesses: &mut Witnesses,
    capture: &str,
    shelf: &mut H,
    out: &mut O,
) -> Outcome
    requires follows { Follows engine.old witnesses.old.lanes 1 }
    ensures answer { IsOfCopy result }
    ensures shelf { Opens H.Shelf capture.now (fault_of result) shelf.old shelf.new }
    ensures cause { SinkCause result (O.faults out.old) (O.faults out.new) }
{
    match shelf.open(capture) {
        Ok(()) => match write_header(out) {
            Ok(()) => copy_open(engine, witnesses, shelf, out),
            Err(_) => Outcome::WriteFault,
        },
        Err(_) => Outcome::ReadFault,
    }
}

/// Writes the records of the capture that was just opened, and the end record.
fn copy_open<H: Shelf, O: Sink>(
    engine: &mut Engine,
    witnesses: &mut Witnesses,
    shelf: &mut H,
    out: &mut O,
) -> Outcome
    requires opened { H.is_open shelf.old ≡ true }
    requires follows { Follows engine.old witnesses.old.lanes 1 }
    ensures answer { IsOfCopy result }
    ensures shelf { Steady H.Shelf (fault_of result) shelf.old shelf.new }
    ensures cause { SinkCause result (O.faults out.old) (O.faults out.new) }
{
    let mut written = Written::new();
    match copy_items(engine, witnesses, &mut written, shelf, out) {
        Ok(()) => match written.end(out) {
            Ok(()) => Outcome::Done,
            Err(_) => Outcome::WriteFault,
        },
        Err(outcome) => outcome,
    }
}

/// Writes what is selected of the items up to that of the verdict. Err where that isn't reached, or
/// breaks its rule no more.
fn copy_items<H: Shelf, O: Sink>(
    engine: &mut Engine,
    witnesses: &mut Witnesses,
    written: &mut Written,
    shelf: &mut H,
    out: &mut O,
) -> Result<(), Outcome>
    requires opened { H.is_open shelf.old ≡ true }
    requires follows { Follows engine.old witnesses.old.lanes 1 }
    requires none { written.old.records ≡ 0 }
    ensures answer { IsOfCopyIn result }
    ensures shelf { Steady H.Shelf (fault_in result) shelf.old shelf.new }
    ensures cause { SinkCauseIn result (O.faults out.old) (O.faults out.new) }
{
    let last = witnesses.case().at;
    let mut source = Source::new();
    let mut at = 0;
    'items: while at < last {
        at += 1;
        match source.next(shelf) {
            Ok(()) => match copy_lent(&source, at, engine, witnesses, written, out) {
                Ok(()) => {}
                Err(outcome) => return Err(outcome),
            },
            Err(ended) => return Err(without_item(ended)),
        }
    }
    Ok(())
}

/// Judges the item that the source lends, and writes its record where it is selected.
fn copy_lent<O: Sink>(
    source: &Source,
    at: u64,
    engine: &mut Engine,
    witnesses: &mut Witnesses,
    written: &mut Written,
    out: &mut O,
) -> Result<(), Outcome>
    requires holds { (x : Entry) × (source.now.reader.phase ≡ Holding x) }
    requires few { at < 2 ^ 58 }
    requires follows { Follows engine.old witnesses.old.lanes at }
    requires records { written.old.records ≤ 2 * at }
    ensures answer { IsOfCopyIn result }
    ensures no_read { IfErr result (λ outcome. fault_of outcome ≡ None) }
    ensures follows { OnOk result (Follows engine.new witnesses.new.lanes (at + 1)) }
    ensures records { written.new.records ≤ written.old.records + 2 }
    ensures cause { SinkCauseIn result (O.faults out.old) (O.faults out.new) }
{
    match source.item() {
        Some(item) => copy_item(&item, at, engine, witnesses, written, out),
        None => unreachable!(),
    }
}

/// The same for item `at`.
fn copy_item<O: Sink>(
    item: &Item,
    at: u64,
    engine: &mut Engine,
    witnesses: &mut Witnesses,
    written: &mut Written,
    out: &mut O,
) -> Result<(), Outcome>
    requires lawful { IsLawful (view item.now) }
    requires few { at < 2 ^ 58 }
    requires follows { Follows engine.old witnesses.old.lanes at }
    requires records { written.old.records ≤ 2 * at }
    ensures answer { IsOfCopyIn result }
    ensures no_read { IfErr result (λ outcome. fault_of outcome ≡ None) }
    ensures follows { OnOk result (Follows engine.new witnesses.new.lanes (at + 1)) }
    ensures records { written.new.records ≤ written.old.records + 2 }
    ensures cause { SinkCauseIn result (O.faults out.old) (O.faults out.new) }
{
    if !is_judged(item, at, engine, witnesses) {
        return Err(Outcome::Changed);
    }
    match witnesses.select(item, at) {
        Ok(true) => match written.item(item, out) {
            Ok(()) => Ok(()),
            Err(_) => Err(Outcome::WriteFault),
        },
        Ok(false) => {
            written.skip();
            Ok(())
        }
        Err(_) => Err(Outcome::Changed),
    }
}

/// Whether the item is judged, and has the verdict if it is the last.
fn is_judged(item: &Item, at: u64, engine: &mut Engine, witnesses: &Witnesses) -> bool
    requires lawful { IsLawful (view item.now) }
    requires few { engine.old.items < 2 ^ 58 }
    ensures judges { result ≡ true → Judges engine.old engine.new (view item.now) }
{
    let case = witnesses.case();
    match engine.feed(item) {
        Ok(found) => at < case.at || found.as_slice().contains(&case.verdict),
        Err(_) => false,
    }
}
