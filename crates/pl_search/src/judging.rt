//! The judging of one capture by a rule.
ghost use Rattle.std.specs.Prelude.{◌≡◌, ◌≢◌, ◌<◌, ◌^◌, Err, length, option_map};
ghost use Rattle.pl_capture.specs.Reading.{reading};
ghost use Rattle.pl_engine.specs.Judged.{stop_of_reading};
ghost use Rattle.pl_profile.specs.ProfileOf.{profile_of};
ghost use Rattle.pl_profile.specs.Refusal.{number_of};
ghost use Rattle.pl_search.specs.Answers.{Refuses};
ghost use Rattle.pl_search.specs.Hits.{by_profile, by_stop, text_of};
ghost use Rattle.pl_search.specs.Steps.{Judges};

use crate::error::SearchError;
use crate::hit::Key;
use pl_base::{Rule, Stop};
use pl_engine::{Judged, judge_rule};
use pl_profile::{Profile, ProfileError};
use std::alloc::Global;

/// A capture that isn't judged to its end.
fn refuse_capture(alloc: Global, key: &str, stop: Stop) -> SearchError
    ensures memory { stop ≡ Stop.Memory → result ≡ SearchError.Memory }
    ensures refused { stop ≢ Stop.Memory → Refuses (SearchError.Capture key.now stop) result }
    ensures kept { result ≢ SearchError.Store }
{
    if matches!(stop, Stop::Memory) {
        return SearchError::Memory;
    }
    match Key::new(alloc, key) {
        Ok(key) => SearchError::Capture { key, stop },
        Err(_) => SearchError::Memory,
    }
}

/// A text that is no profile.
fn refuse_profile(alloc: Global, key: &str, error: ProfileError) -> SearchError
    ensures refused { Refuses (SearchError.Profile key.now (number_of error)) result }
    ensures kept { result ≢ SearchError.Store }
{
    match Key::new(alloc, key) {
        Ok(key) => SearchError::Profile {
            key,
            number: error.number(),
        },
        Err(_) => SearchError::Memory,
    }
}

/// Judges a capture under a profile: its verdicts of the rule are counted, and the first `most`
/// kept.
fn judge_by(
    alloc: Global,
    profile: Profile,
    key: &str,
    capture: &[u8],
    rule: Rule,
    most: usize,
) -> Result<Judged, SearchError>
    requires size { length capture.now < 2 ^ 60 }
    ensures judges { Judges (by_stop rule key.now capture.now profile
        (stop_of_reading profile (reading capture.now))) key.now most result }
    ensures kept { result ≢ Err SearchError.Store }
{
    match judge_rule(alloc, profile, capture, rule, most) {
        Ok(judged) => Ok(judged),
        Err(stop) => Err(refuse_capture(alloc, key, stop)),
    }
}

/// Judges it under the profile of a text.
fn judge_text(
    alloc: Global,
    text: &[u8],
    key: &str,
    capture: &[u8],
    rule: Rule,
    most: usize,
) -> Result<Judged, SearchError>
    requires size { length capture.now < 2 ^ 60 }
    ensures judges { Judges (by_profile rule key.now capture.now (profile_of text.now)) key.now most
        result }
    ensures kept { result ≢ Err SearchError.Store }
{
    match Profile::read(alloc, text) {
        Ok(profile) => judge_by(alloc, profile, key, capture, rule, most),
        Err(ProfileError::Memory) => Err(SearchError::Memory),
        Err(error) => Err(refuse_profile(alloc, key, error)),
    }
}

/// Judges it under the profile of a text, or of no text where there is none.
pub(crate) fn judge(
    alloc: Global,
    text: Option<Vec<u8>>,
    key: &str,
    capture: &[u8],
    rule: Rule,
    most: usize,
) -> Result<Judged, SearchError>
    requires size { length capture.now < 2 ^ 60 }
    ensures judges { Judges (by_profile rule key.now capture.now (profile_of
        (text_of (option_map (λ bytes. bytes.items) text)))) key.now most result }
    ensures kept { result ≢ Err SearchError.Store }
{
    match text {
        Some(text) => judge_text(alloc, &text, key, capture, rule, most),
        None => judge_text(alloc, b"", key, capture, rule, most),
    }
}
