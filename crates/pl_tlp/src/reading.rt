//! A TLP seen in its bytes: prefixes, header, data and digest.
//! PCI Express Base Specification 5.0, chapter 2, transaction layer protocol: packet definition.
ghost use Rattle.std.specs.Prelude.{◌≡◌, ◌+◌, ◌*◌, ◌≤◌, None, Some, drop, length, take};
ghost use Rattle.std.specs.Prelude.{if◌then◌else◌};
ghost use Rattle.pl_base.specs.Bits.{is_set};
ghost use Rattle.pl_tlp.specs.Captured.{captured_fields, seen_outcome};
ghost use Rattle.pl_tlp.specs.Fields as spec;
ghost use Rattle.pl_tlp.specs.Fields.{fields, outcome, prefix_count, view_of};
ghost use Rattle.pl_tlp.specs.Fit.{FitsIfWhole};
ghost use Rattle.pl_tlp.specs.Header.{td_bits};

use crate::bits::{bits, is_set};
use crate::captured::{Captured, Seen};
use crate::header::{header_fields, length_of};
use crate::kind::{Kind, kind_of};
use crate::tlp::{Tlp, View};

/// The bytes of a header of 3 DW.
pub(crate) const SHORT_HEADER: usize = 12;

/// The bytes of a header of 4 DW.
pub(crate) const WIDE_HEADER: usize = 16;

/// Sees a TLP in its bytes, from the first prefix or the header to the digest; it copies no data.
///
/// WrongSize where the bytes end before a header's byte 0, else Undefined where that byte's Fmt and
/// Type are no kind's, else WrongSize where the size isn't that of the prefixes, the header, the
/// data and the digest.
pub fn view(tlp: &[u8]) -> View<'_>
    ensures outcome { outcome result ≡ view_of tlp.now }
    ensures fits { FitsIfWhole (outcome result) }
{
    match see(tlp) {
        Seen::Whole(captured) => View::Whole(all_fields(&captured)),
        Seen::Undefined => View::Undefined,
        Seen::WrongSize => View::WrongSize,
    }
}

/// Sees the same as [`view`], and leaves the fields in the bytes.
#[inline(always)]
#[tactic(auto, unfolding(crate::specs::Fields::view_of))]
pub fn see(tlp: &[u8]) -> Seen<'_>
    ensures outcome { seen_outcome result ≡ view_of tlp.now }
    ensures fits { FitsIfWhole (seen_outcome result) }
{
    let size = prefixes_size(tlp);
    if size >= tlp.len() {
        return Seen::WrongSize;
    }
    let (prefixes, rest) = tlp.split_at(size);
    match kind_of(rest) {
        Some(kind) => see_kind(kind, prefixes, rest),
        None => Seen::Undefined,
    }
}

/// The bytes of all prefixes at the front, which may end beyond the TLP.
pub(crate) fn prefixes_size(tlp: &[u8]) -> usize
    ensures { result ≡ 4 * prefix_count tlp.now }
{
    let mut size = 0;
    while size < tlp.len() && bits(tlp, size, 7, 5) == 0b100 {
        size += 4;
    }
    size
}

/// What a TLP of this kind is, whose bytes from the header on are `bytes`.
fn see_kind<'a>(kind: Kind, prefixes: &'a [u8], bytes: &'a [u8]) -> Seen<'a>
    ensures { seen_outcome result ≡ spec.view_of_kind (Some kind) prefixes.now bytes.now }
{
    if bytes.len() < SHORT_HEADER {
        return Seen::WrongSize;
    }
    let length_dw = length_of(bytes);
    let data_start = header_size(bytes);
    let data_end = data_start + data_size(bytes, length_dw);
    if bytes.len() != data_end + digest_size(bytes) {
        return Seen::WrongSize;
    }
    Seen::Whole(Captured {
        kind,
        length_dw,
        data_start,
        data_end,
        prefixes,
        bytes,
    })
}

/// All fields of a TLP, read from its bytes.
fn all_fields<'a>(captured: &Captured<'a>) -> Tlp<'a>
    ensures { fields result ≡ captured_fields captured.now }
{
    let bytes = captured.bytes;
    Tlp {
        prefixes: captured.prefixes,
        payload: data_between(bytes, captured.data_start, captured.data_end),
        digest: digest_behind(bytes, captured.data_end),
        header: &bytes[..captured.data_start],
        ..header_fields(captured.kind, bytes)
    }
}

/// The data from one place to another.
#[tactic(auto, using(crate::proofs::Data::between))]
#[inline(always)]
pub(crate) fn data_between(bytes: &[u8], start: usize, end: usize) -> &[u8]
    requires start { start ≤ end }
    requires end { end ≤ length bytes.now }
    ensures { result.now ≡ drop start (take end bytes.now) }
{
    &bytes[start..end]
}

/// The digest behind the data, where the header says that there is one.
pub(crate) fn digest_behind(bytes: &[u8], data_end: usize) -> Option<[u8; 4]>
    requires long { 12 ≤ length bytes.now }
    requires size { length bytes.now ≡ data_end + spec.digest_size bytes.now }
    ensures { result
        ≡ (if is_set td_bits bytes.now then Some (drop data_end bytes.now) else None) }
{
    if is_set(bytes, 2, 7) {
        Some([
            bytes[data_end],
            bytes[data_end + 1],
            bytes[data_end + 2],
            bytes[data_end + 3],
        ])
    } else {
        None
    }
}

/// The size of the header in bytes.
fn header_size(header: &[u8]) -> usize
    requires { 12 ≤ length header.now }
    ensures { result ≡ spec.header_size header.now }
{
    if is_set(header, 0, 5) {
        WIDE_HEADER
    } else {
        SHORT_HEADER
    }
}

/// The size of the data in bytes, by the Length of the header.
fn data_size(header: &[u8], length_dw: u16) -> usize
    requires short { 12 ≤ length header.now }
    requires length { length_dw ≡ spec.length_of header.now }
    requires most { length_dw ≤ 1024 }
    ensures size { result ≡ spec.data_size header.now }
    ensures most { result ≤ 4096 }
{
    if is_set(header, 0, 6) {
        4 * usize::from(length_dw)
    } else {
        0
    }
}

/// The size of the digest in bytes.
fn digest_size(header: &[u8]) -> usize
    requires { 12 ≤ length header.now }
    ensures { result ≡ spec.digest_size header.now }
{
    if is_set(header, 2, 7) { 4 } else { 0 }
}
