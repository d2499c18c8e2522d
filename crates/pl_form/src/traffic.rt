//! The rules M16, M17 and M20: traffic classes, completions with data, and tags.
//! PCI Express Base Specification 5.0, chapter 2, transaction layer protocol: TC to VC mapping,
//! TLPs with data payloads, transaction descriptor.
ghost use Rattle.std.specs.Prelude.{◌≡◌};
ghost use Rattle.pl_tlp.specs.Fit.{Fits};
ghost use Rattle.pl_form.specs.Traffic as spec;

use crate::memory::is_too_long;
use pl_base::Dir;
use pl_profile::{NO_CHANNEL, Profile};
use pl_tlp::Packet;

/// M16: the TC has no VC.
#[tactic(auto, unfolding(pl_base::specs::Bits::bits))]
pub(crate) fn breaks_m16<P: Packet>(profile: &Profile, tlp: &P) -> bool
    requires { Fits (P.fields tlp.now) }
    ensures { result ≡ spec.breaks_m16 profile.now (P.fields tlp.now) }
{
    profile.tc_vc[usize::from(tlp.tc())] == NO_CHANNEL
}

/// M17: a completion whose data are longer than Max_Payload_Size.
pub(crate) fn breaks_m17<P: Packet>(profile: &Profile, dir: Dir, tlp: &P) -> bool
    ensures { result ≡ spec.breaks_m17 profile.now dir (P.fields tlp.now) }
{
    tlp.kind().is_completion_with_data() && is_too_long(profile, dir, tlp)
}

/// M20: a request that needs a completion uses Tag[9:5], where the requester has five bits of tag,
/// or Tag[9:8], where it has eight.
pub(crate) fn breaks_m20<P: Packet>(profile: &Profile, tlp: &P) -> bool
    ensures { result ≡ spec.breaks_m20 profile.now (P.fields tlp.now) }
{
    let beyond = match profile.tag_bits {
        5 => tlp.tag() / 32 % 32,
        8 => tlp.tag() / 256 % 4,
        _ => 0,
    };
    beyond != 0 && tlp.kind().needs_completion()
}
