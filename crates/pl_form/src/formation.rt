//! What a taken TLP breaks by itself: M1 to M20.
//! PCI Express Base Specification 5.0, chapter 2, transaction layer protocol.
ghost use Rattle.std.specs.Prelude.{◌≡◌, ◌+◌, ◌≤◌, ◌++◌, length, true};
ghost use Rattle.arrayvec.specs.ArrayVec.{array_vec_len};
ghost use Rattle.pl_tlp.specs.Captured.{seen_outcome};
ghost use Rattle.pl_tlp.specs.Fields.{outcome, Whole};
ghost use Rattle.pl_tlp.specs.Fit.{Fits, FitsIfWhole};
ghost use Rattle.pl_form.specs.Verdicts.{formation_verdicts, kind_verdicts, other_verdicts};
ghost use Rattle.pl_form.specs.Verdicts.{HasHeaderIfWhole};

use crate::atomics::{judge_atomic, judge_operands};
use crate::configuration::judge_configuration;
use crate::digest::breaks_m18;
use crate::memory::{is_too_long, judge_memory};
use crate::messages::judge_message;
use crate::prefixes::breaks_m19;
use crate::traffic::{breaks_m16, breaks_m17, breaks_m20};
use pl_base::{Dir, Found, MOST_VERDICTS, Rule, add_if};
use pl_profile::Profile;
use pl_tlp::{Kind, Packet, Seen, View};

/// The most formation rules that one TLP can break.
pub const MOST_OF_A_TLP: usize = 18;

/// The verdicts on the TLP of item `at`, which travels in direction `dir`: the formation rules that
/// it breaks, in their order, and each cites nothing.
///
/// [`judge_into`] gives the same into a list that is there already, without filling and copying
/// one, and [`judge_seen_into`] where the fields stay in the bytes.
pub fn judge(profile: &Profile, dir: Dir, view: &View, at: u64) -> Found
    requires fits { FitsIfWhole (outcome view.now) }
    requires header { HasHeaderIfWhole (outcome view.now) }
    ensures verdicts { result.items ≡ formation_verdicts profile.now dir (outcome view.now) at }
    ensures most { array_vec_len result ≤ MOST_OF_A_TLP }
{
    let mut found = Found::new();
    judge_into(profile, dir, view, at, &mut found);
    found
}

/// Adds the verdicts on the TLP of item `at`, which travels in direction `dir`, to those that were
/// found before: the formation rules that it breaks, in their order, and each cites nothing.
#[rattlefmt::skip]
#[tactic(auto, unfolding(
    crate::specs::Verdicts::formation_verdicts,
    crate::specs::Verdicts::whole_verdicts,
))]
pub fn judge_into(profile: &Profile, dir: Dir, view: &View, at: u64, found: &mut Found)
    requires fits { FitsIfWhole (outcome view.now) }
    requires header { HasHeaderIfWhole (outcome view.now) }
    requires room { array_vec_len found.old + MOST_OF_A_TLP ≤ MOST_VERDICTS }
    ensures verdicts { found.new.items
        ≡ found.old.items ++ formation_verdicts profile.now dir (outcome view.now) at }
    ensures most { array_vec_len found.new ≤ array_vec_len found.old + MOST_OF_A_TLP }
{
    match view {
        View::Whole(tlp) => judge_whole_into(profile, dir, tlp, at, found),
        View::Undefined => add_if(found, true, Rule::M1, at, None, None),
        View::WrongSize => add_if(found, true, Rule::M2, at, None, None),
    }
}

/// Adds the same verdicts on a TLP whose fields stay in its bytes.
#[rattlefmt::skip]
#[tactic(auto, unfolding(
    crate::specs::Verdicts::formation_verdicts,
    crate::specs::Verdicts::whole_verdicts,
))]
pub fn judge_seen_into(profile: &Profile, dir: Dir, seen: &Seen, at: u64, found: &mut Found)
    requires fits { FitsIfWhole (seen_outcome seen.now) }
    requires header { HasHeaderIfWhole (seen_outcome seen.now) }
    requires room { array_vec_len found.old + MOST_OF_A_TLP ≤ MOST_VERDICTS }
    ensures verdicts { found.new.items
        ≡ found.old.items ++ formation_verdicts profile.now dir (seen_outcome seen.now) at }
    ensures most { array_vec_len found.new ≤ array_vec_len found.old + MOST_OF_A_TLP }
{
    match seen {
        Seen::Whole(captured) => judge_whole_into(profile, dir, captured, at, found),
        Seen::Undefined => add_if(found, true, Rule::M1, at, None, None),
        Seen::WrongSize => add_if(found, true, Rule::M2, at, None, None),
    }
}

/// Adds the same verdicts on a whole TLP, whether its fields are made or stay in its bytes.
#[rattlefmt::skip]
#[tactic(auto, unfolding(
    crate::specs::Verdicts::formation_verdicts,
    crate::specs::Verdicts::whole_verdicts,
))]
pub fn judge_whole_into<P: Packet>(profile: &Profile, dir: Dir, tlp: &P, at: u64, found: &mut Found)
    requires fits { Fits (P.fields tlp.now) }
    requires header { HasHeaderIfWhole (Whole (P.fields tlp.now)) }
    requires room { array_vec_len found.old + MOST_OF_A_TLP ≤ MOST_VERDICTS }
    ensures verdicts { found.new.items
        ≡ found.old.items ++ formation_verdicts profile.now dir (Whole (P.fields tlp.now)) at }
    ensures most { array_vec_len found.new ≤ array_vec_len found.old + MOST_OF_A_TLP }
{
    judge_kind(profile, dir, tlp, at, found);
    judge_other(profile, dir, tlp, at, found);
}

/// Adds what a TLP breaks of M3 to M15. The rules that can't apply to its kind aren't tried.
#[rattlefmt::skip]
#[tactic(auto, unfolding(
    crate::specs::Verdicts::kind_verdicts,
    crate::specs::Verdicts::memory_verdicts,
    crate::specs::Verdicts::configuration_verdicts,
    crate::specs::Verdicts::atomic_verdicts,
    crate::specs::Verdicts::message_verdicts,
))]
fn judge_kind<P: Packet>(profile: &Profile, dir: Dir, tlp: &P, at: u64, found: &mut Found)
    requires length { 1 ≤ (P.fields tlp.now).length }
    requires room { array_vec_len found.old + 13 ≤ MOST_VERDICTS }
    ensures items { found.new.items
        ≡ found.old.items ++ kind_verdicts profile.now dir (P.fields tlp.now) at }
    ensures most { array_vec_len found.new ≤ array_vec_len found.old + 13 }
{
    match tlp.kind() {
        Kind::MRd | Kind::MRdLk | Kind::MWr => judge_memory(profile, dir, tlp, at, found),
        Kind::IORd | Kind::IOWr => judge_configuration(dir, *tlp, at, found),
        Kind::CfgRd0 | Kind::CfgWr0 | Kind::CfgRd1 | Kind::CfgWr1 => {
            judge_configuration(dir, *tlp, at, found)
        }
        Kind::FetchAdd | Kind::Swap | Kind::Cas => {
            judge_operands(profile, dir, *tlp, at, found);
            judge_atomic(*tlp, at, found);
        }
        Kind::Msg => judge_message(dir, *tlp, at, found),
        Kind::MsgD => {
            let too_long = is_too_long(profile, dir, tlp);
            add_if(found, too_long, Rule::M3, at, None, None);
            judge_message(dir, *tlp, at, found);
        }
        Kind::Cpl | Kind::CplD | Kind::CplLk | Kind::CplDLk => {}
    }
}

/// Adds what a TLP breaks of M16 to M20.
#[tactic(auto, unfolding(crate::specs::Verdicts::other_verdicts))]
fn judge_other<P: Packet>(profile: &Profile, dir: Dir, tlp: &P, at: u64, found: &mut Found)
    requires fits { Fits (P.fields tlp.now) }
    requires header { 12 ≤ length (P.fields tlp.now).header }
    requires room { array_vec_len found.old + 5 ≤ MOST_VERDICTS }
    ensures items { found.new.items
        ≡ found.old.items ++ other_verdicts profile.now dir (P.fields tlp.now) at }
    ensures most { array_vec_len found.new ≤ array_vec_len found.old + 5 }
{
    add_if(found, breaks_m16(profile, tlp), Rule::M16, at, None, None);
    let too_long = breaks_m17(profile, dir, tlp);
    add_if(found, too_long, Rule::M17, at, None, None);
    add_if(found, breaks_m18(tlp), Rule::M18, at, None, None);
    add_if(found, breaks_m19(tlp), Rule::M19, at, None, None);
    add_if(found, breaks_m20(profile, tlp), Rule::M20, at, None, None);
}
