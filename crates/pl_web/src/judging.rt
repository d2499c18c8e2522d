//! The judging of a capture under a profile of its bench.
ghost use Rattle.std.specs.Prelude.{◌≡◌, ◌≢◌, ◌<◌, ◌≤◌, ◌^◌, IfOk, OnOk, Some, length, option_map};
ghost use Rattle.std.specs.Prelude.{List, ℕ};
ghost use Rattle.pl_capture.specs.Reading.{reading};
ghost use Rattle.pl_engine.specs.Judged.{stop_of_reading};
ghost use Rattle.pl_keeper.specs.Archive.{Archive, profile_at};
ghost use Rattle.pl_profile.specs.ProfileOf.{profile_of};
ghost use Rattle.pl_web.specs.Answers.{AnswersWith};
ghost use Rattle.pl_web.specs.Ended.{KeeperCause, OfKeeper, OnlyMemory, StaysSure};
ghost use Rattle.pl_web.specs.Judged.{Judges};
ghost use Rattle.pl_web.specs.Judging.{by_profile, by_stop, finding, no_profile_text};
ghost use Rattle.pl_web.specs.Judging.{no_profile, stop_answer, unjudged};

use crate::bodies;
use crate::ended::Ended;
use crate::replies::{ended_by, error, unprocessable};
use crate::reply::Reply;
use pl_base::Stop;
use pl_engine::{Judged, judge_all};
use pl_head::Status;
use pl_keeper::Keeper;
use pl_profile::{Profile, ProfileError};
use std::alloc::Global;

/// What the judging of a capture came to.
#[derive(Drop)]
pub enum Judging {
    /// It was judged to its end.
    Judged(Judged),
    /// It wasn't, and this is answered.
    Refused(Reply),
}

/// The profile of a text, or why the text is refused.
pub(crate) fn read_profile(
    alloc: Global,
    text: &[u8],
) -> Result<Result<Profile, ProfileError>, Ended>
    ensures profile { IfOk result (λ read. read ≡ profile_of text.now) }
    ensures memory { OnlyMemory result }
{
    match Profile::read(alloc, text) {
        Err(ProfileError::Memory) => Err(Ended::Memory),
        read => Ok(read),
    }
}

/// The reply to a text that is no profile.
pub(crate) fn refuse_profile(alloc: Global, error: ProfileError) -> Result<Reply, Ended>
    ensures { AnswersWith (no_profile_text error) result }
{
    unprocessable(bodies::numbered(alloc, "profile", u64::from(error.number())))
}

/// The reply to a capture that can't be judged to its end.
pub(crate) fn refuse_stop(alloc: Global, stop: Stop) -> Result<Reply, Ended>
    ensures answer { AnswersWith (stop_answer stop) result }
    ensures judged { OnOk result (stop ≢ Stop.Memory) }
{
    match stop {
        Stop::Malformed(fault, item) => {
            unprocessable(bodies::at_item(alloc, "malformed", item, u64::from(fault.number())))
        }
        Stop::Unsupported(form, item) => {
            unprocessable(bodies::at_item(alloc, "unsupported", item, u64::from(form.number())))
        }
        Stop::Outstanding(limit, item) => unprocessable(bodies::limit_at_item(
            alloc,
            "limit outstanding",
            item,
            u64::from(limit),
        )),
        Stop::Unacknowledged(limit, item) => unprocessable(bodies::limit_at_item(
            alloc,
            "limit unacknowledged",
            item,
            u64::from(limit),
        )),
        Stop::Memory => Err(Ended::Memory),
    }
}

/// Judges a capture under a profile, and keeps the first `most` verdicts.
fn judge_by(alloc: Global, profile: Profile, capture: &[u8], most: usize) -> Result<Judging, Ended>
    requires size { length capture.now < 2 ^ 60 }
    ensures judges { IfOk result (λ judging.
        Judges (by_stop profile (stop_of_reading profile (reading capture.now)))
        capture.now most judging) }
    ensures memory { OnlyMemory result }
{
    match judge_all(alloc, profile, capture, most) {
        Ok(judged) => Ok(Judging::Judged(judged)),
        Err(stop) => Ok(Judging::Refused(refuse_stop(alloc, stop)?)),
    }
}

/// Judges a capture under the profile of a text.
fn judge_text(alloc: Global, text: &[u8], capture: &[u8], most: usize) -> Result<Judging, Ended>
    requires size { length capture.now < 2 ^ 60 }
    ensures judges { IfOk result (λ judging.
        Judges (by_profile capture.now (profile_of text.now)) capture.now most judging) }
    ensures memory { OnlyMemory result }
{
    match read_profile(alloc, text)? {
        Ok(profile) => judge_by(alloc, profile, capture, most),
        Err(error) => Ok(Judging::Refused(refuse_profile(alloc, error)?)),
    }
}

/// No profile of this name is there.
fn refuse_judging(alloc: Global) -> Result<Judging, Ended>
    ensures judges { IfOk result (λ judging. (capture : List ℕ) (most : ℕ) →
        Judges (unjudged no_profile) capture most judging) }
    ensures memory { OnlyMemory result }
{
    Ok(Judging::Refused(error(alloc, Status::NotFound, "no profile")?))
}

/// Judges a capture under a profile of a bench, and keeps the first `most` verdicts.
pub(crate) fn judge<K: Keeper>(
    alloc: Global,
    keeper: &mut K,
    bench: &str,
    profile: &str,
    capture: &[u8],
    most: usize,
) -> Result<Judging, Ended>
    requires size { length capture.now < 2 ^ 60 }
    ensures judges { K.lives keeper.new → (a : Archive) → K.tells keeper.old a →
        IfOk result (λ judging. Judges (finding
        (option_map (λ p. p.bytes) (profile_at a bench.now profile.now)) capture.now)
        capture.now most judging) }
    ensures same { K.lives keeper.new → (a : Archive) → K.tells keeper.old a →
        K.tells keeper.new a }
    ensures lived { K.lives keeper.new → K.lives keeper.old }
    ensures whose { OfKeeper result }
    ensures cause { KeeperCause (K.faults keeper.old) (K.faults keeper.new) result }
    ensures never_falls { K.faults keeper.old ≤ K.faults keeper.new }
    ensures sure { StaysSure (K.sure keeper.old) (K.sure keeper.new) result }
{
    match keeper.profile(alloc, bench, profile) {
        Ok(Some(text)) => judge_text(alloc, &text, capture, most),
        Ok(None) => refuse_judging(alloc),
        Err(error) => Err(ended_by(error)),
    }
}
