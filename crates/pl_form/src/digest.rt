//! The rule M18: the digest of a TLP is its ECRC.
//! PCI Express Base Specification 5.0, chapter 2, transaction layer protocol: ECRC rules.
ghost use Rattle.std.specs.Prelude.{◌≡◌, ◌<◌, ◌≤◌, ◌++◌, ℕ, List, length};
ghost use Rattle.pl_crc.specs.Crc32.{StandsFor};
ghost use Rattle.pl_form.specs.Digest as spec;

use crate::prefixes::{PREFIX, is_end_end};
use pl_crc::Crc32;
use pl_tlp::Packet;

/// M18: it has a digest that isn't its ECRC.
pub(crate) fn breaks_m18<P: Packet>(tlp: &P) -> bool
    requires { 12 ≤ length (P.fields tlp.now).header }
    ensures { result ≡ spec.breaks_m18 (P.fields tlp.now) }
{
    match &tlp.digest() {
        Some(digest) => is_wrong(digest, *tlp),
        None => false,
    }
}

/// Whether a digest isn't the ECRC. Apart and by value, since few TLPs have one.
#[inline(never)]
fn is_wrong<P: Packet>(digest: &[u8; 4], tlp: P) -> bool
    requires { 12 ≤ length (P.fields tlp).header }
    ensures { result ≡ spec.is_wrong_digest (Some digest.now) (spec.ecrc_of (P.fields tlp)) }
{
    digest.as_slice() != ecrc(&tlp).as_slice()
}

/// The ECRC over the End-End prefixes, the header with its two variant bits taken as 1, and the
/// data.
fn ecrc<P: Packet>(tlp: &P) -> [u8; 4]
    requires { 12 ≤ length (P.fields tlp.now).header }
    ensures { result ≡ spec.ecrc_of (P.fields tlp.now) }
{
    let header = tlp.header();
    let mut crc = end_end_prefixes(tlp.prefixes());
    crc.update(&[header[0] | 0b0000_0001, header[1], header[2] | 0b0100_0000]);
    crc.update(&header[3..]);
    crc.update(tlp.payload());
    crc.value()
}

/// The CRC of the End-End prefixes.
fn end_end_prefixes(prefixes: &[u8]) -> Crc32
    ensures { StandsFor result (spec.end_end_prefixes prefixes.now) }
{
    let mut crc = Crc32::new();
    let mut rest = prefixes;
    while rest.len() >= PREFIX {
        let (prefix, behind) = rest.split_at(PREFIX);
        add_end_end(&mut crc, prefix);
        rest = behind;
    }
    crc
}

/// Adds a prefix where it is End-End.
fn add_end_end(crc: &mut Crc32, prefix: &[u8])
    requires { 0 < length prefix.now }
    ensures { (given : List ℕ) → StandsFor crc.old given
        → StandsFor crc.new (given ++ spec.if_end_end prefix.now) }
{
    if is_end_end(prefix[0]) {
        crc.update(prefix);
    }
}
