//! Reads a capture in pieces, judges each item as soon as it is whole and writes what a view shows
//! of it.
ghost use Rattle.std.specs.Prelude.{◌≡◌, ◌≢◌, ◌+◌, ◌*◌, ◌<◌, ◌≤◌, ◌^◌, ◌++◌, List, [], ℕ, Bool};
ghost use Rattle.std.specs.Prelude.{true, false, Some, None, length, take, Option, IfOk, OnOk};
ghost use Rattle.std.specs.Prelude.{OnErr, IsOk, IsSome};
ghost use Rattle.pl_io.specs.Faults.{HasCause};
ghost use Rattle.pl_io.specs.Told.{plus, ahead, AtEnd, HasRoom, Partly};
ghost use Rattle.pl_capture.specs.Entry.{Entry};
ghost use Rattle.pl_capture.specs.Standing.{Holding};
ghost use Rattle.pl_engine.specs.Engine.{StandsFor};
ghost use Rattle.pl_profile.specs.declared.profile.Profile.{Profile};
ghost use Rattle.pl_cli.specs.Progress.{ItemJudged, LooksBehind, PieceGathered, PieceJudged};
ghost use Rattle.pl_cli.specs.Progress.{ReadJudged, ShelfCause, SoFar, Tells, is_fault, meant};
ghost use Rattle.pl_cli.specs.Progress.{tells};

use crate::held::Held;
use crate::item::gather_item;
use crate::judging::{Ended, Judging};
use crate::view::View;
use pl_base::{Found, MOST_VERDICTS, Stop};
use pl_capture::Step;
use pl_engine::Engine;
use pl_io::{Failed, Shelf, Sink};

/// The bytes of a capture that are judged at most.
const MOST_BYTES: usize = 1 << 40;

/// Reads and judges the open capture, piece by piece. Err where the sink failed.
pub(crate) fn read_pieces<H: Shelf, O: Sink>(
    view: &View<'_>,
    judging: &mut Judging,
    engine: &mut Engine,
    shelf: &mut H,
    out: &mut O,
) -> Result<Ended, Failed>
    requires opened { H.is_open shelf.old ≡ true }
    requires place { judging.old.reader.place ≡ 0 }
    requires items { judging.old.items ≡ 0 }
    requires listed { judging.old.listed ≡ 0 }
    requires verdicts { judging.old.verdicts ≡ 0 }
    requires engine { engine.old.items ≡ 0 }
    ensures judged { (p : Profile) →
        SoFar (meant view.now) p [] judging.old engine.old
        (tells O.Sink out.old) (tells O.Sink out.old) →
        ReadJudged (meant view.now) p result judging.new engine.new
        (tells O.Sink out.old) (tells O.Sink out.new)
        (H.rest shelf.old) (H.rest shelf.new) }
    ensures opened { H.is_open shelf.new ≡ true }
    ensures opens { H.opens shelf.new ≡ H.opens shelf.old }
    ensures name_kept { H.open_name shelf.new ≡ H.open_name shelf.old }
    ensures never_fails { H.sure shelf.old ≡ true → IfOk result (λ ended. is_fault ended ≡ false) }
    ensures shelf_cause { IfOk result (λ ended.
        ShelfCause ended (H.faults shelf.old) (H.faults shelf.new)) }
    ensures shelf_kept { OnErr result (H.faults shelf.new ≡ H.faults shelf.old) }
    ensures cause { HasCause (O.faults out.old) (O.faults out.new) result }
{
    let mut buffer = [0; 4096];
    let mut held = Held::new();
    let mut taken = 0;
    while taken < MOST_BYTES {
        let most = (MOST_BYTES - taken).min(buffer.len());
        let count = match read_front(shelf, &mut buffer, most) {
            Ok(count) => count,
            Err(_) => return Ok(Ended::Fault),
        };
        if count == 0 {
            return Ok(Ended::Whole);
        }
        taken += count;
        match judge_piece(view, judging, engine, &buffer[..count], &mut held, out) {
            Ok(None) => {}
            Ok(Some(stop)) => return Ok(Ended::Refused(stop)),
            Err(failed) => return Err(failed),
        }
    }
    Ok(look_behind(shelf, &mut buffer))
}

/// Reads into the front of the buffer.
pub(crate) fn read_front<H: Shelf>(
    shelf: &mut H,
    buffer: &mut [u8],
    most: usize,
) -> Result<usize, Failed>
    requires opened { H.is_open shelf.old ≡ true }
    requires some { 0 < most }
    requires inside { most ≤ length buffer.old }
    ensures opened { H.is_open shelf.new ≡ true }
    ensures most { IfOk result (λ n. n ≤ most) }
    ensures bytes { IfOk result (λ n.
        H.rest shelf.old ≡ ahead (take n buffer.new) (H.rest shelf.new)) }
    ensures end { IfOk result (λ n. n ≡ 0 → AtEnd (H.rest shelf.old)) }
    ensures err { OnErr result (H.rest shelf.new ≡ H.rest shelf.old) }
    ensures opens { H.opens shelf.new ≡ H.opens shelf.old }
    ensures name_kept { H.open_name shelf.new ≡ H.open_name shelf.old }
    ensures still_told { H.told shelf.new ≡ H.told shelf.old }
    ensures files { (other : List ℕ) → H.file shelf.new other ≡ H.file shelf.old other }
    ensures never_fails { H.sure shelf.old ≡ true → IsOk result }
    ensures still_sure { OnOk result (H.sure shelf.old ≡ true → H.sure shelf.new ≡ true) }
    ensures cause { HasCause (H.faults shelf.old) (H.faults shelf.new) result }
{
    shelf.read(&mut buffer[..most])
}

/// Whether a byte stands behind the most bytes that are judged.
fn look_behind<H: Shelf>(shelf: &mut H, buffer: &mut [u8]) -> Ended
    requires opened { H.is_open shelf.old ≡ true }
    requires some { 0 < length buffer.old }
    ensures opened { H.is_open shelf.new ≡ true }
    ensures bytes { (extra : List ℕ) × (H.rest shelf.old ≡ ahead extra (H.rest shelf.new))
        × LooksBehind result extra (H.rest shelf.new) }
    ensures opens { H.opens shelf.new ≡ H.opens shelf.old }
    ensures name_kept { H.open_name shelf.new ≡ H.open_name shelf.old }
    ensures never_fails { H.sure shelf.old ≡ true → is_fault result ≡ false }
    ensures cause { ShelfCause result (H.faults shelf.old) (H.faults shelf.new) }
{
    match read_front(shelf, buffer, 1) {
        Ok(0) => Ended::Whole,
        Ok(_) => Ended::TooLong,
        Err(_) => Ended::Fault,
    }
}

/// Judges the items that become whole in a piece, up to a refusal, and writes what is shown of
/// them. Nothing is held before, nor behind it.
fn judge_piece<O: Sink>(
    view: &View<'_>,
    judging: &mut Judging,
    engine: &mut Engine,
    piece: &[u8],
    held: &mut Held,
    out: &mut O,
) -> Result<Option<Stop>, Failed>
    requires place { judging.old.reader.place + length piece.now < 2 ^ 58 }
    requires items { judging.old.items + length piece.now < 2 ^ 58 }
    requires listed { judging.old.listed ≤ judging.old.items }
    requires verdicts { judging.old.verdicts ≤ judging.old.items * MOST_VERDICTS }
    requires engine { engine.old.items + length piece.now < 2 ^ 58 }
    requires none { held.old.bytes.items ≡ [] }
    ensures judged { (p : Profile) (before : List ℕ) (start : Tells) →
        SoFar (meant view.now) p before judging.old engine.old start (tells O.Sink out.old) →
        PieceJudged (meant view.now) p (before ++ piece.now) result judging.new engine.new
        start (tells O.Sink out.new) }
    ensures place { OnOk result
        (judging.new.reader.place ≤ judging.old.reader.place + length piece.now) }
    ensures items { OnOk result (judging.new.items ≤ judging.old.items + length piece.now) }
    ensures listed { OnOk result (judging.new.listed ≤ judging.new.items) }
    ensures verdicts { OnOk result (judging.new.verdicts ≤ judging.new.items * MOST_VERDICTS) }
    ensures engine { OnOk result (engine.new.items ≤ engine.old.items + length piece.now) }
    ensures none { OnOk result (held.new.bytes.items ≡ []) }
    ensures cause { HasCause (O.faults out.old) (O.faults out.new) result }
{
    let stop = match judge_items(view, judging, engine, piece, held, out) {
        Ok(stop) => stop,
        Err(failed) => return Err(failed),
    };
    match held.write(out) {
        Ok(()) => Ok(stop),
        Err(failed) => Err(failed),
    }
}

/// Judges the items that become whole in a piece, up to a refusal, and gathers what is shown of
/// them.
fn judge_items<O: Sink>(
    view: &View<'_>,
    judging: &mut Judging,
    engine: &mut Engine,
    piece: &[u8],
    held: &mut Held,
    out: &mut O,
) -> Result<Option<Stop>, Failed>
    requires place { judging.old.reader.place + length piece.now < 2 ^ 58 }
    requires items { judging.old.items + length piece.now < 2 ^ 58 }
    requires listed { judging.old.listed ≤ judging.old.items }
    requires verdicts { judging.old.verdicts ≤ judging.old.items * MOST_VERDICTS }
    requires engine { engine.old.items + length piece.now < 2 ^ 58 }
    requires none { held.old.bytes.items ≡ [] }
    ensures judged { (p : Profile) (before : List ℕ) (start : Tells) →
        SoFar (meant view.now) p before judging.old engine.old start (tells O.Sink out.old) →
        PieceGathered (meant view.now) p (before ++ piece.now) result judging.new engine.new
        held.new.bytes.items start (tells O.Sink out.new) }
    ensures place { OnOk result
        (judging.new.reader.place ≤ judging.old.reader.place + length piece.now) }
    ensures items { OnOk result (judging.new.items ≤ judging.old.items + length piece.now) }
    ensures listed { OnOk result (judging.new.listed ≤ judging.new.items) }
    ensures verdicts { OnOk result (judging.new.verdicts ≤ judging.new.items * MOST_VERDICTS) }
    ensures engine { OnOk result (engine.new.items ≤ engine.old.items + length piece.now) }
    ensures cause { HasCause (O.faults out.old) (O.faults out.new) result }
{
    let mut found = Found::new();
    let mut place = 0;
    while place < piece.len() {
        match judging.reader.feed(&piece[place..]) {
            Step::More => return Ok(None),
            Step::End { used } => place += used,
            Step::Bad(stop) => return Ok(Some(stop)),
            Step::Item { used } => {
                place += used;
                match judge_item(view, judging, engine, &mut found, held, out) {
                    Ok(None) => {}
                    Ok(Some(stop)) => return Ok(Some(stop)),
                    Err(failed) => return Err(failed),
                }
            }
        }
    }
    Ok(None)
}

/// Judges the item that the reader lends, and gathers what is shown of it. Some where the engine
/// refuses it. The list `found` is empty before, and again behind the lines.
fn judge_item<O: Sink>(
    view: &View<'_>,
    judging: &mut Judging,
    engine: &mut Engine,
    found: &mut Found,
    held: &mut Held,
    out: &mut O,
) -> Result<Option<Stop>, Failed>
    requires holds { (x : Entry) × (judging.old.reader.phase ≡ Holding x) }
    requires items { judging.old.items < 2 ^ 58 }
    requires listed { judging.old.listed ≤ judging.old.items }
    requires verdicts { judging.old.verdicts ≤ judging.old.items * MOST_VERDICTS }
    requires engine { engine.old.items < 2 ^ 58 }
    requires none { found.old.items ≡ [] }
    ensures judged { (past : List Entry) (x : Entry) → judging.old.reader.phase ≡ Holding x →
        StandsFor engine.old past → judging.old.items ≡ length past →
        ItemJudged (meant view.now) past x result judging.old judging.new engine.old engine.new
        held.old.bytes.items held.new.bytes.items (tells O.Sink out.old) (tells O.Sink out.new) }
    ensures reader { judging.new.reader ≡ judging.old.reader }
    ensures items { judging.new.items ≤ judging.old.items + 1 }
    ensures listed { judging.new.listed ≤ judging.new.items }
    ensures verdicts { judging.new.verdicts ≤ judging.new.items * MOST_VERDICTS }
    ensures engine { engine.new.items ≤ engine.old.items + 1 }
    ensures none { OnOk result (found.new.items ≡ []) }
    ensures cause { HasCause (O.faults out.old) (O.faults out.new) result }
{
    let item = match judging.reader.item() {
        Some(item) => item,
        None => unreachable!(),
    };
    match engine.feed_into(&item, found) {
        Ok(()) => match gather_item(view, judging.items + 1, &item, found, held, out) {
            Ok(listed) => {
                judging.count(listed, found.len());
                found.clear();
                Ok(None)
            }
            Err(failed) => Err(failed),
        },
        Err(refused) => Ok(Some(refused.stop_at(judging.items + 1))),
    }
}
