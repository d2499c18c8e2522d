//! The rules M11 and M12: the size and the address of the operands of AtomicOps.
//! PCI Express Base Specification 5.0, chapter 2, transaction layer protocol: AtomicOp requests.
ghost use Rattle.std.specs.Prelude.{◌≡◌, ◌==◌, ◌%◌, ◌+◌, ◌≤◌, ◌++◌, None, true};
ghost use Rattle.arrayvec.specs.ArrayVec.{array_vec_len};
ghost use Rattle.pl_form.specs.Atomics as spec;
ghost use Rattle.pl_tlp.specs.Groups as spec_kinds;
ghost use Rattle.pl_form.specs.Memory.{breaks_m6, is_too_long};
ghost use Rattle.pl_form.specs.Verdicts.{atomic_verdicts};
ghost use Rattle.pl_base.specs.Verdict.{verdict_if};

use crate::memory::{breaks_m6, is_too_long};
use pl_base::{Dir, Found, MOST_VERDICTS, Rule, add_if};
use pl_profile::Profile;
use pl_tlp::Packet;

/// Adds what an AtomicOp breaks of M3 to M8: M3 and M6. Apart and by value, since few TLPs are
/// AtomicOps.
#[inline(never)]
pub(crate) fn judge_operands<P: Packet>(
    profile: &Profile,
    dir: Dir,
    tlp: P,
    at: u64,
    found: &mut Found,
)
    requires kind { spec_kinds.is_atomic (P.fields tlp).kind ≡ true }
    requires room { array_vec_len found.old + 2 ≤ MOST_VERDICTS }
    ensures items { found.new.items
        ≡ found.old.items
        ++ (verdict_if (is_too_long profile.now dir (P.fields tlp)) Rule.M3 at None None
        ++ verdict_if (breaks_m6 (P.fields tlp)) Rule.M6 at None None) }
    ensures most { array_vec_len found.new ≤ array_vec_len found.old + 2 }
{
    let too_long = is_too_long(profile, dir, &tlp);
    add_if(found, too_long, Rule::M3, at, None, None);
    add_if(found, breaks_m6(&tlp), Rule::M6, at, None, None);
}

/// Adds what a TLP breaks of M11 and M12. Apart and by value, as the others of AtomicOps.
#[inline(never)]
#[tactic(auto, unfolding(crate::specs::Verdicts::atomic_verdicts))]
pub(crate) fn judge_atomic<P: Packet>(tlp: P, at: u64, found: &mut Found)
    requires { array_vec_len found.old + 2 ≤ MOST_VERDICTS }
    ensures items { found.new.items ≡ found.old.items ++ atomic_verdicts (P.fields tlp) at }
    ensures most { array_vec_len found.new ≤ array_vec_len found.old + 2 }
{
    add_if(found, breaks_m11(&tlp), Rule::M11, at, None, None);
    add_if(found, breaks_m12(&tlp), Rule::M12, at, None, None);
}

/// M11: an AtomicOp whose Length is that of no operand.
fn breaks_m11<P: Packet>(tlp: &P) -> bool
    ensures { result ≡ spec.breaks_m11 (P.fields tlp.now) }
{
    tlp.kind().is_atomic() && !has_operand_length(tlp)
}

/// Whether the Length is that of one operand of 1 or 2 DW, or for Cas of two operands of 1, 2 or 4
/// DW.
fn has_operand_length<P: Packet>(tlp: &P) -> bool
    ensures { result ≡ spec.has_operand_length (P.fields tlp.now) }
{
    if tlp.kind().is_compare_and_swap() {
        matches!(tlp.length(), 2 | 4 | 8)
    } else {
        matches!(tlp.length(), 1 | 2)
    }
}

/// M12: an AtomicOp of such a Length, whose address isn't a multiple of its operand.
fn breaks_m12<P: Packet>(tlp: &P) -> bool
    ensures { result ≡ spec.breaks_m12 (P.fields tlp.now) }
{
    tlp.kind().is_atomic() && has_operand_length(tlp) && !is_aligned(tlp)
}

/// Whether the address is a multiple of the operand.
#[tactic(auto, using(pl_tlp::proofs::GroupLayouts::atomic_access))]
fn is_aligned<P: Packet>(tlp: &P) -> bool
    requires kind { spec_kinds.is_atomic (P.fields tlp.now).kind ≡ true }
    requires operand { spec.has_operand_length (P.fields tlp.now) ≡ true }
    ensures { result ≡ (P.fields tlp.now).address % spec.operand_bytes (P.fields tlp.now) == 0 }
{
    let operand = if tlp.kind().is_compare_and_swap() {
        2 * u64::from(tlp.length())
    } else {
        4 * u64::from(tlp.length())
    };
    tlp.address() % operand == 0
}
