//! The rules M3 to M8: how much a TLP carries or reads, where, and which bytes.
//! PCI Express Base Specification 5.0, chapter 2, transaction layer protocol: TLPs with data
//! payloads, memory requests, byte enables.
ghost use Rattle.std.specs.Prelude.{◌≡◌, ◌+◌, ◌≤◌, ◌++◌, ◌||◌, true};
ghost use Rattle.arrayvec.specs.ArrayVec.{array_vec_len};
ghost use Rattle.pl_tlp.specs.Groups.{is_atomic, is_memory_request};
ghost use Rattle.pl_form.specs.Memory as spec;
ghost use Rattle.pl_form.specs.Verdicts.{memory_verdicts};

use pl_base::{Dir, Found, MOST_VERDICTS, Rule, add_if};
use pl_profile::Profile;
use pl_tlp::{Kind, Packet};

/// The Address Type of a request for translation.
const TRANSLATION_REQUEST: u8 = 1;

/// Adds what a memory request breaks of M3 to M8. A request for translation breaks none but M3.
#[tactic(auto, unfolding(crate::specs::Verdicts::memory_verdicts))]
pub(crate) fn judge_memory<P: Packet>(
    profile: &Profile,
    dir: Dir,
    tlp: &P,
    at: u64,
    found: &mut Found,
)
    requires request { is_memory_request (P.fields tlp.now).kind ≡ true }
    requires length { 1 ≤ (P.fields tlp.now).length }
    requires room { array_vec_len found.old + 6 ≤ MOST_VERDICTS }
    ensures items { found.new.items
        ≡ found.old.items ++ memory_verdicts profile.now dir (P.fields tlp.now) at }
    ensures most { array_vec_len found.new ≤ array_vec_len found.old + 6 }
{
    let too_long = breaks_m3(profile, dir, tlp);
    add_if(found, too_long, Rule::M3, at, None, None);
    if tlp.at() != TRANSLATION_REQUEST {
        let too_much = breaks_m4(profile, dir, tlp);
        add_if(found, too_much, Rule::M4, at, None, None);
        add_if(found, breaks_m5(tlp), Rule::M5, at, None, None);
        add_if(found, breaks_m6(tlp), Rule::M6, at, None, None);
        if !tlp.th() {
            add_if(found, breaks_m7(tlp), Rule::M7, at, None, None);
            add_if(found, breaks_m8(tlp), Rule::M8, at, None, None);
        }
    }
}

/// Whether the data are longer than the Max_Payload_Size of the direction.
pub(crate) fn is_too_long<P: Packet>(profile: &Profile, dir: Dir, tlp: &P) -> bool
    ensures { result ≡ spec.is_too_long profile.now dir (P.fields tlp.now) }
{
    tlp.payload().len() > usize::from(profile.max_payload[dir.index()])
}

/// M3 of a memory request: a write whose data are longer than Max_Payload_Size.
fn breaks_m3<P: Packet>(profile: &Profile, dir: Dir, tlp: &P) -> bool
    requires { is_memory_request (P.fields tlp.now).kind ≡ true }
    ensures { result ≡ spec.breaks_m3 profile.now dir (P.fields tlp.now) }
{
    matches!(tlp.kind(), Kind::MWr) && is_too_long(profile, dir, tlp)
}

/// M4: a memory read of more bytes than Max_Read_Request_Size.
fn breaks_m4<P: Packet>(profile: &Profile, dir: Dir, tlp: &P) -> bool
    requires { spec.is_judged (P.fields tlp.now) ≡ true }
    ensures { result ≡ spec.breaks_m4 profile.now dir (P.fields tlp.now) }
{
    tlp.kind().is_memory_read()
        && 4 * u32::from(tlp.length()) > u32::from(profile.max_read[dir.index()])
}

/// M5: a memory request that goes on behind a boundary of 4 KB.
#[tactic(auto, using(pl_tlp::proofs::GroupLayouts::memory_access))]
fn breaks_m5<P: Packet>(tlp: &P) -> bool
    requires { spec.is_judged (P.fields tlp.now) ≡ true }
    ensures { result ≡ spec.breaks_m5 (P.fields tlp.now) }
{
    tlp.address() % 4096 + 4 * u64::from(tlp.length()) > 4096
}

/// M6: a memory request or AtomicOp with a header of 4 DW, and an address below 4 GB.
#[rattlefmt::skip]
#[tactic(auto, using(
    pl_tlp::proofs::GroupLayouts::memory_access,
    pl_tlp::proofs::GroupLayouts::atomic_access,
))]
pub(crate) fn breaks_m6<P: Packet>(tlp: &P) -> bool
    requires { (spec.is_judged (P.fields tlp.now) || is_atomic (P.fields tlp.now).kind) ≡ true }
    ensures { result ≡ spec.breaks_m6 (P.fields tlp.now) }
{
    tlp.wide() && tlp.address() < 1 << 32
}

/// M7: of one DW, byte enables in the field of the last DW; of more, none in one of both fields.
#[tactic(auto, using(pl_tlp::proofs::GroupLayouts::memory_access))]
fn breaks_m7<P: Packet>(tlp: &P) -> bool
    requires judged { spec.has_byte_enables (P.fields tlp.now) ≡ true }
    requires length { 1 ≤ (P.fields tlp.now).length }
    ensures { result ≡ spec.breaks_m7 (P.fields tlp.now) }
{
    if tlp.length() == 1 {
        tlp.last_be() != 0
    } else {
        tlp.first_be() == 0 || tlp.last_be() == 0
    }
}

/// M8: of more than one DW, a gap in the enabled bytes.
#[tactic(auto, using(pl_tlp::proofs::GroupLayouts::memory_access))]
fn breaks_m8<P: Packet>(tlp: &P) -> bool
    requires judged { spec.has_byte_enables (P.fields tlp.now) ≡ true }
    requires length { 1 ≤ (P.fields tlp.now).length }
    ensures { result ≡ spec.breaks_m8 (P.fields tlp.now) }
{
    tlp.length() != 1
        && tlp.first_be() != 0
        && tlp.last_be() != 0
        && !(reaches_end(tlp.first_be()) && begins_at_start(tlp.last_be()))
        && !is_one_qw(tlp)
}

/// Whether it is two DW that lie in one QW, where gaps are allowed.
#[tactic(auto, using(pl_tlp::proofs::GroupLayouts::memory_access))]
fn is_one_qw<P: Packet>(tlp: &P) -> bool
    requires { spec.is_judged (P.fields tlp.now) ≡ true }
    ensures { result ≡ spec.is_one_qw (P.fields tlp.now) }
{
    tlp.length() == 2 && tlp.address() % 8 == 0
}

/// Whether the enabled bytes go up to the highest of the DW without a gap.
fn reaches_end(enables: u8) -> bool
    ensures { result ≡ spec.reaches_end enables }
{
    matches!(enables, 0b1111 | 0b1110 | 0b1100 | 0b1000)
}

/// Whether the enabled bytes go from the lowest of the DW on without a gap.
fn begins_at_start(enables: u8) -> bool
    ensures { result ≡ spec.begins_at_start enables }
{
    matches!(enables, 0b1111 | 0b0111 | 0b0011 | 0b0001)
}
