//! The commands that judge a capture: `check`, `list` and `report`.
ghost use Rattle.std.specs.Prelude.{◌≡◌, ◌≢◌};
ghost use Rattle.pl_cli.specs.Output.{Check, Report};
ghost use Rattle.pl_cli.specs.Progress.{meant};
ghost use Rattle.pl_cli.specs.Promise.{Judges, Lists, Shows};
ghost use Rattle.pl_cli.specs.Source.{RefusesFilter, RefusesProfile};

use crate::closing::write_last;
use crate::profile::{NoProfile, profile_named};
use crate::status::{FILTER, NO_MEMORY, PROFILE, READ_FAULT};
use crate::view::View;
use crate::with_engine::show_with;
use pl_engine::Engine;
use pl_filter::{FilterError, parse};
use pl_io::{Shelf, Sink};
use pl_profile::{Profile, ProfileError};
use pl_report::{filter_error_line, profile_error_line, read_fault_line};
use std::alloc::Global;

/// Judges the capture of that name under a profile: `-` for the usual one, else the name of a file.
///
/// The steps are: the profile is read, the engine takes all its memory, the capture is opened and
/// read to its end. Each verdict's line is written as soon as its item was judged, and the closing
/// line or that of the refusal is the last. The answer is the exit status: 0 or 1 where the capture
/// was read to its end, 3 where the profile is refused, 4, 5 or 6 where the capture is, 7 where the
/// shelf failed, 8 where the sink did, and 9 where memory was wanting, which comes before the
/// capture is opened and writes nothing.
pub fn check<H: Shelf, O: Sink>(
    alloc: Global,
    profile: &str,
    capture: &str,
    shelf: &mut H,
    out: &mut O,
) -> u8
    ensures shows { Shows H.Shelf O.Sink Check profile.now capture.now
        shelf.old shelf.new out.old out.new result }
{
    show(alloc, &View::Check, profile, capture, shelf, out)
}

/// Judges the capture as [`check`] does, and writes the line of each item for which the filter
/// holds, with the lines of its verdicts.
///
/// The filter is read before all else: where its text is refused, the answer is 12 after its line,
/// and nothing is opened; where memory was wanting for it, 9. The rest is as there. The closing
/// line counts all items, those that were shown, and the verdicts of all.
pub fn list<H: Shelf, O: Sink>(
    alloc: Global,
    profile: &str,
    capture: &str,
    filter: &str,
    shelf: &mut H,
    out: &mut O,
) -> u8
    ensures lists { Lists H.Shelf O.Sink profile.now capture.now filter.now
        shelf.old shelf.new out.old out.new result }
{
    match parse(alloc, filter) {
        Ok(filter) => show(alloc, &View::List(&filter), profile, capture, shelf, out),
        Err(error) => refuse_filter(&error, out),
    }
}

/// Judges the capture as [`check`] does, and writes what is counted of its items.
///
/// The lines of the summary are written once no more is read, and then the closing line or that of
/// the refusal or fault. Where the capture couldn't be opened, they count no items; where the
/// profile couldn't be read, there are none. The rest is as there.
pub fn report<H: Shelf, O: Sink>(
    alloc: Global,
    profile: &str,
    capture: &str,
    shelf: &mut H,
    out: &mut O,
) -> u8
    ensures shows { Shows H.Shelf O.Sink Report profile.now capture.now
        shelf.old shelf.new out.old out.new result }
{
    show(alloc, &View::Report, profile, capture, shelf, out)
}

/// Judges the capture under the profile of this name, and writes what the view shows of it.
fn show<H: Shelf, O: Sink>(
    alloc: Global,
    view: &View<'_>,
    profile: &str,
    capture: &str,
    shelf: &mut H,
    out: &mut O,
) -> u8
    ensures shows { Shows H.Shelf O.Sink (meant view.now) profile.now capture.now
        shelf.old shelf.new out.old out.new result }
{
    match profile_named(alloc, profile, shelf) {
        Ok(profile) => show_under(alloc, view, profile, capture, shelf, out),
        Err(none) => refuse_profile(none, out),
    }
}

/// Judges the capture under this profile.
fn show_under<H: Shelf, O: Sink>(
    alloc: Global,
    view: &View<'_>,
    profile: Profile,
    capture: &str,
    shelf: &mut H,
    out: &mut O,
) -> u8
    ensures judges { result ≢ NO_MEMORY → Judges H.Shelf O.Sink (meant view.now) profile capture.now
        shelf.old shelf.new out.old out.new result }
    ensures no_memory { result ≡ NO_MEMORY → (shelf.new ≡ shelf.old) × (out.new ≡ out.old) }
{
    match Engine::open(alloc, profile) {
        Ok(mut engine) => show_with(view, &mut engine, capture, shelf, out),
        Err(_) => NO_MEMORY,
    }
}

/// Writes the line of a filter that is refused, and answers its status.
fn refuse_filter<O: Sink>(error: &FilterError, out: &mut O) -> u8
    ensures refused { RefusesFilter O.Sink error.now out.old out.new result }
{
    match error {
        FilterError::Memory => NO_MEMORY,
        FilterError::Syntax(_) | FilterError::TooDeep(_) => write_last(
            out,
            filter_error_line(error).as_str(),
            FILTER,
        ),
    }
}

/// Writes the line of a profile that can't be had, and answers its status.
fn refuse_profile<O: Sink>(none: NoProfile, out: &mut O) -> u8
    ensures refused { RefusesProfile O.Sink none out.old out.new result }
{
    match none {
        NoProfile::Unreadable => write_last(out, read_fault_line(), READ_FAULT),
        NoProfile::Refused(ProfileError::Memory) => NO_MEMORY,
        NoProfile::Refused(error) => write_last(
            out,
            profile_error_line(error.number()).as_str(),
            PROFILE,
        ),
    }
}
