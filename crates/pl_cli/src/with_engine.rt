//! The commands from the opening of the capture on: no call from here takes memory.
ghost use Rattle.std.specs.Prelude.{◌≡◌, [], true, false, Some, IsSome, IfOk, OnErr};
ghost use Rattle.pl_io.specs.Faults.{HasCause, raised};
ghost use Rattle.pl_engine.specs.Engine.{StandsFor};
ghost use Rattle.pl_filter.specs.Trees.{tree};
ghost use Rattle.pl_cli.specs.Output.{Check, Listing, Report};
ghost use Rattle.pl_cli.specs.Progress.{CaptureJudged, ShelfCause, asked, is_fault, meant};
ghost use Rattle.pl_cli.specs.Progress.{nothing_judged, tells};
ghost use Rattle.pl_cli.specs.WithEngine.{ShowsWith};

use crate::capture::read_pieces;
use crate::closing::close;
use crate::judging::{Ended, Judging};
use crate::status::WRITE_FAULT;
use crate::view::View;
use pl_engine::Engine;
use pl_filter::Filter;
use pl_io::{Failed, Shelf, Sink};

/// Judges the capture of that name with an engine that was just opened, and writes a line for each
/// place where a rule is broken, then the closing line or that of the refusal.
///
/// It takes no memory and always returns. The status is 0 or 1 where the capture was read to its
/// end, 4, 5 or 6 where it is refused, 7 where the shelf failed and 8 where the sink did. The
/// engine then stands for the items that were judged, also after a fault: one within whose lines
/// the sink failed is among them, and others may have been judged behind it.
pub fn check_with<H: Shelf, O: Sink>(
    engine: &mut Engine,
    capture: &str,
    shelf: &mut H,
    out: &mut O,
) -> u8
    requires { StandsFor engine.old [] }
    ensures shows { ShowsWith H.Shelf O.Sink Check capture.now engine.old engine.new
        shelf.old shelf.new out.old out.new result }
{
    show_with(&View::Check, engine, capture, shelf, out)
}

/// Judges the capture as [`check_with`] does, and writes the line of each item for which the filter
/// holds, with the lines of its verdicts, then the closing line of a list or the line of the
/// refusal.
///
/// Memory, the status and what the engine stands for are as there. An item for which the filter
/// doesn't hold is judged and counted all the same.
pub fn list_with<H: Shelf, O: Sink>(
    engine: &mut Engine,
    filter: &Filter,
    capture: &str,
    shelf: &mut H,
    out: &mut O,
) -> u8
    requires { StandsFor engine.old [] }
    ensures shows { ShowsWith H.Shelf O.Sink (Listing (tree filter.now)) capture.now
        engine.old engine.new shelf.old shelf.new out.old out.new result }
{
    show_with(&View::List(filter), engine, capture, shelf, out)
}

/// Judges the capture as [`check_with`] does, and writes what is counted of the items that were
/// judged, then the closing line or that of the refusal.
///
/// Memory, the status and what the engine stands for are as there.
pub fn report_with<H: Shelf, O: Sink>(
    engine: &mut Engine,
    capture: &str,
    shelf: &mut H,
    out: &mut O,
) -> u8
    requires { StandsFor engine.old [] }
    ensures shows { ShowsWith H.Shelf O.Sink Report capture.now engine.old engine.new
        shelf.old shelf.new out.old out.new result }
{
    show_with(&View::Report, engine, capture, shelf, out)
}

/// Judges the capture, and writes what the view shows of it.
pub(crate) fn show_with<H: Shelf, O: Sink>(
    view: &View<'_>,
    engine: &mut Engine,
    capture: &str,
    shelf: &mut H,
    out: &mut O,
) -> u8
    requires { StandsFor engine.old [] }
    ensures shows { ShowsWith H.Shelf O.Sink (meant view.now) capture.now engine.old engine.new
        shelf.old shelf.new out.old out.new result }
{
    let mut judging = Judging::new();
    match read_capture(view, &mut judging, engine, capture, shelf, out) {
        Ok(ended) => {
            let tally = engine.tally();
            close(view, &mut judging, &tally, ended, out)
        }
        Err(_) => WRITE_FAULT,
    }
}

/// Opens the capture, and reads and judges it. Err where the sink failed.
fn read_capture<H: Shelf, O: Sink>(
    view: &View<'_>,
    judging: &mut Judging,
    engine: &mut Engine,
    capture: &str,
    shelf: &mut H,
    out: &mut O,
) -> Result<Ended, Failed>
    requires judging { judging.old ≡ nothing_judged }
    requires engine { StandsFor engine.old [] }
    ensures judged { CaptureJudged (meant view.now) engine.old.profile result
        judging.new engine.new (tells O.Sink out.old) (tells O.Sink out.new)
        (asked H.Shelf capture.now shelf.old shelf.new) }
    ensures opens { H.opens shelf.new ≡ raised (H.opens shelf.old) }
    ensures named { H.told shelf.old ≡ true → H.is_open shelf.new ≡ true →
        H.open_name shelf.new ≡ Some capture.now }
    ensures unopened { H.is_open shelf.new ≡ false → engine.new ≡ engine.old }
    ensures never_fails { H.sure shelf.old ≡ true → IsSome (H.file shelf.old capture.now) →
        IfOk result (λ ended. is_fault ended ≡ false) }
    ensures shelf_cause { IfOk result (λ ended.
        ShelfCause ended (H.faults shelf.old) (H.faults shelf.new)) }
    ensures shelf_kept { OnErr result (H.faults shelf.new ≡ H.faults shelf.old) }
    ensures opened { OnErr result (H.is_open shelf.new ≡ true) }
    ensures cause { HasCause (O.faults out.old) (O.faults out.new) result }
{
    match shelf.open(capture) {
        Ok(()) => match read_pieces(view, judging, engine, shelf, out) {
            Ok(ended) => Ok(ended),
            Err(failed) => Err(failed),
        },
        Err(_) => Ok(Ended::Fault),
    }
}
