//! The items of two files, one after another by their times.
ghost use Rattle.std.specs.Prelude.{◌≡◌, ◌+◌, ◌<◌, ◌≤◌, ◌⊎◌, ◌++◌, List, ℕ, [], ◌∷◌, length, true};
ghost use Rattle.std.specs.Prelude.{Option, None, OnOk};
ghost use Rattle.pl_base.specs.declared.link.Dir.TheVariants.{Down, Up};
ghost use Rattle.pl_capture.specs.Entry.{Entry};
ghost use Rattle.pl_capture.specs.Record.{record_of};
ghost use Rattle.pl_capture.specs.Standing.{Holding, lent};
ghost use Rattle.pl_page.specs.Gathers.{Gathers, Tells, tells};
ghost use Rattle.pl_merge.specs.Lawful.{limit};
ghost use Rattle.pl_merge.specs.Mixing.{Mixed, Mixes, Passes, ReadBoth, SinkCause};
ghost use Rattle.pl_merge.specs.Mixing.{next_of};
ghost use Rattle.pl_merge.specs.Sides.{Lends, Reached, Steady};

use crate::end::Halt;
use crate::side::Side;
use pl_base::Dir;
use pl_io::{Shelf, Sink};
use pl_page::Page;

/// Gathers the records of both files behind a header, by their times, and answers how many they
/// are. Err where a file isn't lawful to its end, at its last lawful item; or where a call failed.
pub(crate) fn merge_items<H: Shelf, O: Sink>(
    one: &mut Side,
    two: &mut Side,
    first: &mut H,
    second: &mut H,
    page: &mut Page,
    out: &mut O,
) -> Result<u64, Halt>
    requires down { one.old.dir ≡ Down }
    requires up { two.old.dir ≡ Up }
    requires opened { (H.is_open first.old ≡ true) × (H.is_open second.old ≡ true) }
    requires bound { one.old.used + length one.old.left ≤ limit }
    requires bound2 { two.old.used + length two.old.left ≤ limit }
    ensures mixes { (down up : Option (List ℕ)) (head : List ℕ) (start : Tells) →
        Reached one.old (H.rest first.old) down [] → Reached two.old (H.rest second.old) up [] →
        Gathers [] page.old head start (tells O.Sink out.old) →
        Mixes result down up one.new two.new (H.rest first.new) (H.rest second.new)
        page.new head start (tells O.Sink out.new) }
    ensures down { one.new.dir ≡ Down }
    ensures up { two.new.dir ≡ Up }
    ensures shelves { ReadBoth H.Shelf result first.old first.new second.old second.new }
    ensures cause { SinkCause result (O.faults out.old) (O.faults out.new) }
{
    match one.next(first) {
        Ok(()) => match two.next(second) {
            Ok(()) => merge_waiting(one, two, first, second, page, out),
            Err(halt) => Err(halt),
        },
        Err(halt) => Err(halt),
    }
}

/// Gathers the records of both files from the items on that wait.
fn merge_waiting<H: Shelf, O: Sink>(
    one: &mut Side,
    two: &mut Side,
    first: &mut H,
    second: &mut H,
    page: &mut Page,
    out: &mut O,
) -> Result<u64, Halt>
    requires down { one.old.dir ≡ Down }
    requires up { two.old.dir ≡ Up }
    requires opened { (H.is_open first.old ≡ true) × (H.is_open second.old ≡ true) }
    requires bound { one.old.used + length one.old.left ≤ limit }
    requires bound2 { two.old.used + length two.old.left ≤ limit }
    ensures mixes { (down up : Option (List ℕ)) (head : List ℕ) (start : Tells) →
        Mixed down up one.old two.old (H.rest first.old) (H.rest second.old)
        page.old head start (tells O.Sink out.old) 0 →
        Mixes result down up one.new two.new (H.rest first.new) (H.rest second.new)
        page.new head start (tells O.Sink out.new) }
    ensures down { one.new.dir ≡ Down }
    ensures up { two.new.dir ≡ Up }
    ensures shelves { ReadBoth H.Shelf result first.old first.new second.old second.new }
    ensures cause { SinkCause result (O.faults out.old) (O.faults out.new) }
{
    let mut count = 0;
    'items: while let Some(file) = next_file(one, two) {
        match file {
            Dir::Down => match pass(one, first, page, out) {
                Ok(()) => count += 1,
                Err(halt) => return Err(halt),
            },
            Dir::Up => match pass(two, second, page, out) {
                Ok(()) => count += 1,
                Err(halt) => return Err(halt),
            },
        }
    }
    Ok(count)
}

/// The file whose item is next: the first at equal times.
fn next_file(one: &Side, two: &Side) -> Option<Dir>
    ensures { result ≡ next_of (lent one.now.reader.phase) (lent two.now.reader.phase) }
{
    match (one.time(), two.time()) {
        (None, None) => None,
        (Some(_), None) => Some(Dir::Down),
        (None, Some(_)) => Some(Dir::Up),
        (Some(time), Some(other)) if other < time => Some(Dir::Up),
        (Some(_), Some(_)) => Some(Dir::Down),
    }
}

/// Gathers the record of the item that a file lends, and reads on to the next one.
fn pass<H: Shelf, O: Sink>(
    side: &mut Side,
    shelf: &mut H,
    page: &mut Page,
    out: &mut O,
) -> Result<(), Halt>
    requires opened { H.is_open shelf.old ≡ true }
    requires bound { side.old.used + length side.old.left ≤ limit }
    requires holds { (x : Entry) × (side.old.reader.phase ≡ Holding x) }
    ensures passes { (file : Option (List ℕ)) (items : List Entry) (x : Entry) (text : List ℕ)
        (start : Tells) → Lends side.old (H.rest shelf.old) file items x →
        Gathers [] page.old text start (tells O.Sink out.old) →
        Passes result side.new (H.rest shelf.new) file (items ++ x ∷ [])
        page.new (text ++ record_of x) start (tells O.Sink out.new) }
    ensures dir { side.new.dir ≡ side.old.dir }
    ensures on { OnOk result ((side.old.used < side.new.used)
        ⊎ ((side.old.used ≤ side.new.used) × (lent side.new.reader.phase ≡ None))) }
    ensures bound { side.new.used + length side.new.left ≤ limit }
    ensures shelf { Steady H.Shelf result shelf.old shelf.new }
    ensures cause { SinkCause result (O.faults out.old) (O.faults out.new) }
{
    let item = match side.item() {
        Some(item) => item,
        None => unreachable!(),
    };
    match page.push_item(&item, out) {
        Ok(()) => side.next(shelf),
        Err(_) => Err(Halt::WriteFault),
    }
}
