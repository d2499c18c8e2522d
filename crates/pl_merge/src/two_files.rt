//! Two files, each of packets of one direction, as one capture.
ghost use Rattle.std.specs.Prelude.{◌≡◌, ◌≢◌, ◌⊎◌, ◌++◌, List, ℕ, [], Some, Option, true};
ghost use Rattle.pl_base.specs.declared.link.Dir.TheVariants.{Down, Up};
ghost use Rattle.pl_capture.specs.Record.{end_of};
ghost use Rattle.pl_page.specs.Gathers.{Gathers, Tells, tells};
ghost use Rattle.pl_merge.specs.Closing.{CutsAt, HasCutCause, HasSinkCause, HasShelvesCause};
ghost use Rattle.pl_merge.specs.Closing.{WritesText, halt_status};
ghost use Rattle.pl_merge.specs.Promise.{IsStatus, Merges, WritesBoth};
ghost use Rattle.pl_merge.specs.Sides.{IsBegun, TookHeader};

use crate::end::Halt;
use crate::merging::merge_items;
use crate::side::Side;
use pl_base::Dir;
use pl_io::{Shelf, Sink};
use pl_page::Page;
use pl_status::{CLEAN, READ_FAULT, WRITE_FAULT};

/// Writes one capture of two: the file `down`, whose packets travel down, and the file `up`, whose
/// packets travel up. Link downs and gaps may stand in both, and in each file times never fall.
///
/// The items stand in the order of their times, those of the first file before those of the second
/// at equal times, and each file's in its own order. The header has the greater of the two
/// versions, the end record the greater of the two times. It takes no memory and always returns.
///
/// The answer is the exit status: 0 where both files are lawful to their ends; 4, 5, 6, 15 or 16
/// where one is malformed, longer than 2^40 bytes, of a form that isn't read, has a packet of the
/// wrong direction, or a time that fell: then the items up to that file's last lawful one were
/// written, and no end record; nothing, where its header is refused. 7 where a shelf failed, and 8
/// where the sink did.
pub fn merge<H: Shelf, O: Sink>(
    down: &str,
    up: &str,
    first: &mut H,
    second: &mut H,
    out: &mut O,
) -> u8
    ensures merges { Merges H.Shelf O.Sink down.now up.now first.old first.new
        second.old second.new out.old out.new result }
{
    let mut one = Side::new(Dir::Down);
    let mut two = Side::new(Dir::Up);
    match one.open(down, first) {
        Ok(()) => match two.open(up, second) {
            Ok(()) => write_merged(&mut one, &mut two, first, second, out),
            Err(halt) => halt.status(),
        },
        Err(halt) => halt.status(),
    }
}

/// Writes the capture of two files whose headers were taken.
fn write_merged<H: Shelf, O: Sink>(
    one: &mut Side,
    two: &mut Side,
    first: &mut H,
    second: &mut H,
    out: &mut O,
) -> u8
    requires down { one.old.dir ≡ Down }
    requires up { two.old.dir ≡ Up }
    requires opened { (H.is_open first.old ≡ true) × (H.is_open second.old ≡ true) }
    requires begun { IsBegun one.old × IsBegun two.old }
    ensures writes { (down up : Option (List ℕ)) (a b : List ℕ) →
        TookHeader one.old (H.rest first.old) down → TookHeader two.old (H.rest second.old) up →
        down ≡ Some a → up ≡ Some b → WritesBoth a b (H.rest first.new) (H.rest second.new)
        (tells O.Sink out.old) (tells O.Sink out.new) result }
    ensures status { IsStatus result }
    ensures shelves { HasShelvesCause H.Shelf result first.old first.new second.old second.new }
    ensures cause { HasSinkCause result (O.faults out.old) (O.faults out.new) }
{
    let mut page = Page::new();
    match page.push_header(one.version().max(two.version()), out) {
        Ok(()) => match merge_items(one, two, first, second, &mut page, out) {
            Ok(count) => close(&mut page, count, one.end_time().max(two.end_time()), out),
            Err(halt) => cut(&mut page, halt, out),
        },
        Err(_) => WRITE_FAULT,
    }
}

/// Writes what is gathered and the end record behind it.
fn close<O: Sink>(page: &mut Page, count: u64, time: u64, out: &mut O) -> u8
    ensures writes { (text : List ℕ) (start : Tells) →
        Gathers [] page.old text start (tells O.Sink out.old) →
        WritesText (text ++ end_of count time) CLEAN start (tells O.Sink out.new) result }
    ensures answer { (result ≡ CLEAN) ⊎ (result ≡ WRITE_FAULT) }
    ensures cause { HasSinkCause result (O.faults out.old) (O.faults out.new) }
{
    match page.push_end(count, time, out) {
        Ok(()) => flush(page, CLEAN, out),
        Err(_) => WRITE_FAULT,
    }
}

/// Writes what is gathered, where no more is merged.
fn cut<O: Sink>(page: &mut Page, halt: Halt, out: &mut O) -> u8
    ensures cuts { CutsAt halt page.old (tells O.Sink out.old) (tells O.Sink out.new) result }
    ensures answer { (result ≡ halt_status halt) ⊎ (result ≡ WRITE_FAULT) }
    ensures cause { HasCutCause halt result (O.faults out.old) (O.faults out.new) }
{
    match halt {
        Halt::WriteFault => WRITE_FAULT,
        Halt::ReadFault | Halt::Stops(_) => flush(page, halt.status(), out),
    }
}

/// Writes what is gathered, and answers this status where that went well.
fn flush<O: Sink>(page: &mut Page, status: u8, out: &mut O) -> u8
    requires other { status ≢ WRITE_FAULT }
    ensures writes { (text : List ℕ) (start : Tells) →
        Gathers [] page.old text start (tells O.Sink out.old) →
        WritesText text status start (tells O.Sink out.new) result }
    ensures answer { (result ≡ status) ⊎ (result ≡ WRITE_FAULT) }
    ensures cause { HasSinkCause result (O.faults out.old) (O.faults out.new) }
{
    match page.write(out) {
        Ok(()) => status,
        Err(_) => WRITE_FAULT,
    }
}
