//! The judging of a whole capture by one rule.
ghost use Rattle.std.specs.Prelude.{◌≡◌, ◌≢◌, ◌<◌, ◌^◌, IfErr, IfOk, OnOk, None, Some, length, take};
ghost use Rattle.pl_capture.specs.Reading.{reading};
ghost use Rattle.pl_engine.specs.Judged.{judged_items, rule_verdicts, stop_of_reading};

use crate::capture::{judge_wanted, open};
use crate::judged::Judged;
use crate::wanted::Wanted;
use pl_base::{Rule, Stop};
use pl_profile::Profile;
use std::alloc::Global;

/// Judges a whole capture as [`judge_all`](crate::judge_all) does, but of its verdicts only those
/// of one rule are counted, and the first `most` of them kept. All memory is taken before the first
/// byte is looked at, also that for `most` verdicts.
///
/// # Errors
///
/// As of [`judge_all`](crate::judge_all): also where an item is refused that the rule doesn't look
/// at.
pub fn judge_rule(
    alloc: Global,
    profile: Profile,
    bytes: &[u8],
    rule: Rule,
    most: usize,
) -> Result<Judged, Stop>
    requires size { length bytes.now < 2 ^ 60 }
    ensures items { IfOk result (λ judged.
        judged.items ≡ length (judged_items profile (reading bytes.now))) }
    ensures total { IfOk result (λ judged.
        judged.total ≡ length (rule_verdicts rule profile (reading bytes.now))) }
    ensures verdicts { IfOk result (λ judged.
        judged.verdicts.items ≡ take most (rule_verdicts rule profile (reading bytes.now))) }

    // The end is the right one, and no item is refused.
    ensures ended { OnOk result (stop_of_reading profile (reading bytes.now) ≡ None) }
    ensures refused { IfErr result (λ stop. stop ≢ Stop.Memory →
        stop_of_reading profile (reading bytes.now) ≡ Some stop) }
{
    match open(alloc, profile, most) {
        Ok((engine, judged)) => judge_wanted(engine, judged, Wanted::Of(rule), bytes),
        Err(_) => Err(Stop::Memory),
    }
}
