//! The judging of a whole capture at once.
ghost use Rattle.std.specs.Prelude.{ℕ, ◌≡◌, ◌≢◌, ◌*◌, ◌<◌, ◌≤◌, ◌∷◌, ◌++◌, ◌^◌, [], List, IfOk};
ghost use Rattle.std.specs.Prelude.{IfErr, OnOk, Some, None, length, take};
ghost use Rattle.pl_capture.specs.Entry.{Entry};
ghost use Rattle.pl_capture.specs.Reading.{reading};
ghost use Rattle.pl_capture.specs.Standing as standing;
ghost use Rattle.pl_engine.specs.Engine.{StandsFor};
ghost use Rattle.pl_engine.specs.Judged.{judged_items, judged_verdicts, stop_of_ending};
ghost use Rattle.pl_engine.specs.Judged.{stop_of_reading};
ghost use Rattle.pl_engine.specs.SoFar.{IsFresh, SoFar};
ghost use Rattle.pl_engine.specs.Verdicts.{refusal};
ghost use Rattle.pl_engine.specs.Wanted.{wanted_of};
ghost use Rattle.pl_profile.specs.declared.profile.Profile.{Profile};

use crate::engine::Engine;
use crate::judged::Judged;
use crate::wanted::Wanted;
use pl_base::{Found, MOST_VERDICTS, Stop};
use pl_capture::{Reader, Step};
use pl_profile::Profile;
use std::alloc::{AllocError, Global};

/// Judges a whole capture: all its items and verdicts are counted, and the first `most` verdicts
/// are kept. All memory is taken before the first byte is looked at, also that for `most` verdicts.
///
/// # Errors
///
/// Where memory is wanting; else as of [`judge_all_with`].
pub fn judge_all(alloc: Global, profile: Profile, bytes: &[u8], most: usize) -> Result<Judged, Stop>
    requires size { length bytes.now < 2 ^ 60 }
    ensures items { IfOk result (λ judged.
        judged.items ≡ length (judged_items profile (reading bytes.now))) }
    ensures total { IfOk result (λ judged.
        judged.total ≡ length (judged_verdicts profile (reading bytes.now))) }
    ensures verdicts { IfOk result (λ judged.
        judged.verdicts.items ≡ take most (judged_verdicts profile (reading bytes.now))) }

    // The end is the right one, and no item is refused.
    ensures ended { OnOk result (stop_of_reading profile (reading bytes.now) ≡ None) }
    ensures refused { IfErr result (λ stop. stop ≢ Stop.Memory →
        stop_of_reading profile (reading bytes.now) ≡ Some stop) }
{
    match open(alloc, profile, most) {
        Ok((engine, judged)) => judge_all_with(engine, judged, bytes),
        Err(_) => Err(Stop::Memory),
    }
}

/// An engine that has judged nothing, and room for `most` verdicts. It sees nothing of what is
/// judged.
pub(crate) fn open(
    alloc: Global,
    profile: Profile,
    most: usize,
) -> Result<(Engine, Judged), AllocError>
    ensures stands { IfOk result (λ opened. StandsFor opened.0 []) }
    ensures profile { IfOk result (λ opened. opened.0.profile ≡ profile) }
    ensures fresh { IfOk result (λ opened. IsFresh opened.1) }
    ensures most { IfOk result (λ opened. opened.1.most ≡ most) }
{
    let engine = Engine::open(alloc, profile)?;
    let judged = Judged::open(alloc, most)?;
    Ok((engine, judged))
}

/// Judges a whole capture by an engine that has judged nothing: all items and verdicts are counted,
/// and the first verdicts are kept, for which there is room. It takes no memory.
///
/// # Errors
///
/// Where an item isn't judged (see [`Engine::feed`]), where the capture is malformed or of an
/// unsupported form, or where it ends before its end record; in this order, with the number of the
/// item.
pub fn judge_all_with(engine: Engine, judged: Judged, bytes: &[u8]) -> Result<Judged, Stop>
    requires engine { StandsFor engine [] }
    requires fresh { IsFresh judged }
    requires size { length bytes.now < 2 ^ 60 }
    ensures items { IfOk result (λ all.
        all.items ≡ length (judged_items engine.profile (reading bytes.now))) }
    ensures total { IfOk result (λ all.
        all.total ≡ length (judged_verdicts engine.profile (reading bytes.now))) }
    ensures verdicts { IfOk result (λ all. all.verdicts.items
        ≡ take judged.most (judged_verdicts engine.profile (reading bytes.now))) }

    // The end is the right one, and no item is refused.
    ensures ended { OnOk result (stop_of_reading engine.profile (reading bytes.now) ≡ None) }
    ensures refused { IfErr result (λ stop.
        stop_of_reading engine.profile (reading bytes.now) ≡ Some stop) }
{
    judge_wanted(engine, judged, Wanted::Every, bytes)
}

/// The same for the verdicts that are wanted: they alone are counted and kept.
pub(crate) fn judge_wanted(
    mut engine: Engine,
    mut judged: Judged,
    wanted: Wanted,
    bytes: &[u8],
) -> Result<Judged, Stop>
    requires engine { StandsFor engine [] }
    requires fresh { IsFresh judged }
    requires size { length bytes.now < 2 ^ 60 }
    ensures items { IfOk result (λ all.
        all.items ≡ length (judged_items engine.profile (reading bytes.now))) }
    ensures total { IfOk result (λ all.
        all.total ≡ length (wanted_of wanted (judged_verdicts engine.profile (reading bytes.now)))) }
    ensures verdicts { IfOk result (λ all. all.verdicts.items
        ≡ take judged.most (wanted_of wanted (judged_verdicts engine.profile (reading bytes.now)))) }

    // The end is the right one, and no item is refused.
    ensures ended { OnOk result (stop_of_reading engine.profile (reading bytes.now) ≡ None) }
    ensures refused { IfErr result (λ stop.
        stop_of_reading engine.profile (reading bytes.now) ≡ Some stop) }
{
    let mut reader = Reader::new();
    let mut found = Found::new();
    let mut place = 0;
    while place < bytes.len() {
        match reader.feed(&bytes[place..]) {
            Step::Item { used } => {
                judge_item(&reader, &mut engine, &mut found, wanted, &mut judged)?;
                place += used;
            }
            Step::End { used } => place += used,
            Step::Bad(stop) => return Err(stop),
            Step::More => place = bytes.len(),
        }
    }
    end_of(&mut reader)?;
    Ok(judged)
}

/// Whether the capture ends here, after its end record, or why not.
fn end_of(reader: &mut Reader) -> Result<(), Stop>
    ensures ended { (bytes : List ℕ) → standing.StandsFor reader.old bytes →
        OnOk result (stop_of_ending (reading bytes).ending ≡ None) }
    ensures refused { (bytes : List ℕ) → standing.StandsFor reader.old bytes →
        IfErr result (λ stop. stop_of_ending (reading bytes).ending ≡ Some stop) }
{
    match reader.finish() {
        Step::Bad(stop) => Err(stop),
        Step::More | Step::Item { .. } | Step::End { .. } => Ok(()),
    }
}

/// Judges the item that the reader lends. The list `found` is empty before and behind.
fn judge_item(
    reader: &Reader,
    engine: &mut Engine,
    found: &mut Found,
    wanted: Wanted,
    judged: &mut Judged,
) -> Result<(), Stop>
    requires holds { (x : Entry) × (reader.now.phase ≡ standing.Holding x) }
    requires engine { engine.old.items < 2 ^ 58 }
    requires items { judged.old.items < 2 ^ 58 }
    requires total { judged.old.total ≤ judged.old.items * MOST_VERDICTS }
    requires none { found.old.items ≡ [] }
    ensures judged { (profile : Profile) (items : List Entry) (x : Entry) →
        reader.now.phase ≡ standing.Holding x →
        SoFar profile wanted items engine.old judged.old →
        OnOk result (SoFar profile wanted (items ++ x ∷ []) engine.new judged.new) }
    ensures refused { (profile : Profile) (items : List Entry) (x : Entry) →
        reader.now.phase ≡ standing.Holding x →
        SoFar profile wanted items engine.old judged.old →
        IfErr result (λ stop. refusal profile [] (items ++ x ∷ []) ≡ Some stop) }
    ensures total { OnOk result (judged.new.total ≤ judged.new.items * MOST_VERDICTS) }
    ensures most { judged.new.most ≡ judged.old.most }
    ensures none { OnOk result (found.new.items ≡ []) }
{
    let item = match reader.item() {
        Some(item) => item,
        None => unreachable!(),
    };
    match engine.feed_into(&item, found) {
        Ok(()) => {
            judged.add(wanted, found.as_slice());
            found.clear();
            Ok(())
        }
        Err(refused) => Err(refused.stop_at(judged.items + 1)),
    }
}
