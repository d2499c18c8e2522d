//! What a view shows of an item that was judged.
ghost use Rattle.std.specs.Prelude.{◌≡◌, ◌++◌, IfOk};
ghost use Rattle.pl_io.specs.Faults.{HasCause};
ghost use Rattle.pl_capture.specs.Entry.{IsLawful, view as entry};
ghost use Rattle.pl_report.specs.Lines.{item_text, verdict_text};
ghost use Rattle.pl_cli.specs.Output.{is_listed, item_lines, lines};
ghost use Rattle.pl_cli.specs.Progress.{AreGathered, meant, tells};

use crate::held::Held;
use crate::view::View;
use pl_base::{Found, Verdict};
use pl_capture::Item;
use pl_filter::holds;
use pl_io::{Failed, Sink};
use pl_report::{item_line, verdict_line};

/// Gathers the lines of an item with this number and these verdicts, and answers whether it is
/// listed.
pub(crate) fn gather_item<O: Sink>(
    view: &View<'_>,
    number: u64,
    item: &Item<'_>,
    found: &Found,
    held: &mut Held,
    out: &mut O,
) -> Result<bool, Failed>
    requires lawful { IsLawful (entry item.now) }
    ensures listed { IfOk result (λ listed. listed ≡ is_listed (meant view.now) (entry item.now)) }
    ensures gathered { AreGathered result held.old.bytes.items held.new.bytes.items
        (item_lines (meant view.now) number (entry item.now) found.now.items)
        (tells O.Sink out.old) (tells O.Sink out.new) }
    ensures cause { HasCause (O.faults out.old) (O.faults out.new) result }
{
    match view {
        View::Check => match gather_verdicts(found, held, out) {
            Ok(()) => Ok(false),
            Err(failed) => Err(failed),
        },
        View::List(filter) => {
            if !holds(filter, item) {
                return Ok(false);
            }
            match gather_with_verdicts(number, item, found, held, out) {
                Ok(()) => Ok(true),
                Err(failed) => Err(failed),
            }
        }
        View::Report => Ok(false),
    }
}

/// Gathers the line of an item and those of its verdicts. Apart, since only a list has any.
#[inline(never)]
fn gather_with_verdicts<O: Sink>(
    number: u64,
    item: &Item<'_>,
    found: &Found,
    held: &mut Held,
    out: &mut O,
) -> Result<(), Failed>
    requires lawful { IsLawful (entry item.now) }
    ensures gathered { AreGathered result held.old.bytes.items held.new.bytes.items
        (item_text number (entry item.now) ++ lines found.now.items)
        (tells O.Sink out.old) (tells O.Sink out.new) }
    ensures cause { HasCause (O.faults out.old) (O.faults out.new) result }
{
    match held.push(item_line(number, item).as_bytes(), out) {
        Ok(()) => gather_verdicts(found, held, out),
        Err(failed) => Err(failed),
    }
}

/// Gathers the lines of an item's verdicts.
#[inline(always)]
fn gather_verdicts<O: Sink>(found: &Found, held: &mut Held, out: &mut O) -> Result<(), Failed>
    ensures gathered { AreGathered result held.old.bytes.items held.new.bytes.items
        (lines found.now.items) (tells O.Sink out.old) (tells O.Sink out.new) }
    ensures cause { HasCause (O.faults out.old) (O.faults out.new) result }
{
    for verdict in found.as_slice() {
        match gather_verdict(verdict, held, out) {
            Ok(()) => {}
            Err(failed) => return Err(failed),
        }
    }
    Ok(())
}

/// Gathers the line of a verdict. Apart, since few items have any.
#[cold]
#[inline(never)]
fn gather_verdict<O: Sink>(verdict: &Verdict, held: &mut Held, out: &mut O) -> Result<(), Failed>
    ensures gathered { AreGathered result held.old.bytes.items held.new.bytes.items
        (verdict_text verdict.now) (tells O.Sink out.old) (tells O.Sink out.new) }
    ensures cause { HasCause (O.faults out.old) (O.faults out.new) result }
{
    held.push(verdict_line(verdict).as_bytes(), out)
}
