//! The rules M9 and M10: I/O and Configuration requests, whose fields are mostly fixed.
//! PCI Express Base Specification 5.0, chapter 2, transaction layer protocol: I/O requests,
//! Configuration requests.
ghost use Rattle.std.specs.Prelude.{◌≡◌, ◌+◌, ◌≤◌, ◌++◌, true};
ghost use Rattle.arrayvec.specs.ArrayVec.{array_vec_len};
ghost use Rattle.pl_tlp.specs.Groups.{is_io_or_configuration_request};
ghost use Rattle.pl_form.specs.Configuration as spec;
ghost use Rattle.pl_form.specs.Verdicts.{configuration_verdicts};

use pl_base::{Dir, Found, MOST_VERDICTS, Rule, add_if};
use pl_tlp::Packet;

/// Adds what a TLP breaks of M9 and M10. Apart and by value, since few TLPs are such requests.
#[inline(never)]
#[tactic(auto, unfolding(crate::specs::Verdicts::configuration_verdicts))]
pub(crate) fn judge_configuration<P: Packet>(dir: Dir, tlp: P, at: u64, found: &mut Found)
    requires { array_vec_len found.old + 2 ≤ MOST_VERDICTS }
    ensures items { found.new.items
        ≡ found.old.items ++ configuration_verdicts dir (P.fields tlp) at }
    ensures most { array_vec_len found.new ≤ array_vec_len found.old + 2 }
{
    add_if(found, breaks_m9(&tlp), Rule::M9, at, None, None);
    add_if(found, breaks_m10(dir, &tlp), Rule::M10, at, None, None);
}

/// M9: an I/O or Configuration request with another value in a fixed field.
fn breaks_m9<P: Packet>(tlp: &P) -> bool
    ensures { result ≡ spec.breaks_m9 (P.fields tlp.now) }
{
    tlp.kind().is_io_or_configuration_request() && !has_fixed_fields(tlp)
}

/// Whether it is one DW in TC 0, with neither relaxed ordering nor no snoop, untranslated, and with
/// no byte enables of a last DW.
#[tactic(auto, using(pl_tlp::proofs::GroupLayouts::register_access))]
fn has_fixed_fields<P: Packet>(tlp: &P) -> bool
    requires { is_io_or_configuration_request (P.fields tlp.now).kind ≡ true }
    ensures { result ≡ spec.has_fixed_fields (P.fields tlp.now) }
{
    tlp.tc() == 0 && tlp.attr() % 4 == 0 && tlp.at() == 0 && tlp.last_be() == 0 && tlp.length() == 1
}

/// M10: a Configuration request that travels towards the Root Complex.
fn breaks_m10<P: Packet>(dir: Dir, tlp: &P) -> bool
    ensures { result ≡ spec.breaks_m10 dir (P.fields tlp.now) }
{
    tlp.kind().is_configuration_request() && matches!(dir, Dir::Up)
}
