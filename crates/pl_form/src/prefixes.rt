//! The rule M19: local prefixes stand before End-End ones, of which there are at most four.
//! PCI Express Base Specification 5.0, chapter 2, transaction layer protocol: TLP prefix rules.
ghost use Rattle.std.specs.Prelude.{◌≡◌, ◌+◌, ◌*◌, ◌≤◌, length, ◌||◌, nat_lt};
ghost use Rattle.pl_form.specs.Prefixes as spec;

use pl_tlp::Packet;

/// The bytes of a prefix.
pub(crate) const PREFIX: usize = 4;

/// The most End-End prefixes that a TLP may have.
const MOST_END_END: usize = 4;

/// M19: a local prefix stands after an End-End one, or there are more than four End-End ones.
pub(crate) fn breaks_m19<P: Packet>(tlp: &P) -> bool
    ensures { result ≡ spec.breaks_m19 (P.fields tlp.now) }
{
    !tlp.prefixes().is_empty() && are_misplaced(tlp.prefixes())
}

/// The same of prefixes, one at a time. Apart, since few TLPs have any.
#[inline(never)]
fn are_misplaced(prefixes: &[u8]) -> bool
    ensures { result ≡ spec.are_misplaced (spec.end_ends prefixes.now) }
{
    let mut rest = prefixes;
    let mut end_ends = 0;
    let mut late_local = false;
    while rest.len() >= PREFIX {
        if is_end_end(rest[0]) {
            end_ends += 1;
        } else if end_ends > 0 {
            late_local = true;
        }
        rest = &rest[PREFIX..];
    }
    late_local || end_ends > MOST_END_END
}

/// Whether this byte 0 is that of an End-End prefix: bit 4 of its Type is 1.
pub(crate) fn is_end_end(byte: u8) -> bool
    ensures { result ≡ spec.is_end_end byte }
{
    (byte >> 4) & 1 == 1
}
