//! The fields of a header.
//! PCI Express Base Specification 5.0, chapter 2, transaction layer protocol: common packet header
//! fields, request headers, message headers and completion headers.
ghost use Rattle.std.specs.Prelude.{◌≡◌, ◌*◌, ◌<◌, ◌≤◌, ◌++◌, length};
ghost use Rattle.pl_base.specs.Bits.{value};
ghost use Rattle.pl_base.specs.Bits as spec_bits;
ghost use Rattle.pl_tlp.specs.Fields.{fields, first_dw, byte_count_of, status_in};
ghost use Rattle.pl_tlp.specs.Fields as spec;
ghost use Rattle.pl_tlp.specs.Header as places;
ghost use Rattle.pl_tlp.specs.declared.kind.Layout.TheVariants.{Addressed, Configuration, Message};
ghost use Rattle.pl_tlp.specs.declared.kind.Layout.TheVariants.{Completion};

use crate::bits::{bits, bits_and_byte, is_set, u16_at, u32_at, u64_at};
use crate::kind::{Kind, Layout};
use crate::tlp::Tlp;

/// The fields of a header of this kind; it has no prefixes, data and digest, and lends nothing.
pub(crate) fn header_fields<'a>(kind: Kind, header: &[u8]) -> Tlp<'a>
    requires short { 12 ≤ length header.now }
    requires whole { spec.header_size header.now ≤ length header.now }
    ensures { fields result ≡ spec.header_fields kind header.now }
{
    let common = common_fields(kind, header);
    match kind.layout() {
        Layout::Addressed => addressed(header, common),
        Layout::Configuration => configuration(header, common),
        Layout::Message => message(header, common),
        Layout::Completion => completion(header, common),
    }
}

/// The fields of the first DW.
fn common_fields<'a>(kind: Kind, header: &[u8]) -> Tlp<'a>
    requires { 12 ≤ length header.now }
    ensures { fields result ≡ first_dw kind header.now }
{
    Tlp {
        kind,
        wide: is_set(header, 0, 5),
        tc: bits(header, 1, 6, 4),
        attr: attr_of(header),
        at: bits(header, 2, 3, 2),
        ep: is_set(header, 2, 6),
        th: is_set(header, 1, 0),
        length: length_of(header),
        requester: 0,
        tag: 0,
        first_be: 0,
        last_be: 0,
        address: 0,
        code: 0,
        routing: 0,
        completer: 0,
        status: 0,
        bcm: false,
        byte_count: 0,
        lower: 0,
        prefixes: &[],
        payload: &[],
        digest: None,
        header: &[],
    }
}

/// A request for memory or I/O, or an AtomicOp.
fn addressed<'a>(header: &[u8], common: Tlp<'a>) -> Tlp<'a>
    requires short { 12 ≤ length header.now }
    requires whole { spec.header_size header.now ≤ length header.now }
    requires wide { common.wide ≡ spec_bits.is_set places.wide_bits header.now }
    ensures { fields result ≡ record (fields common.entry) {
      requester = value (places.requester_bits Addressed) header.now;
      tag = value (places.tag_bits Addressed) header.now;
      first_be = value (places.first_be_bits Addressed) header.now;
      last_be = value (places.last_be_bits Addressed) header.now;
      address = 4 * value (places.address_bits Addressed common.entry.wide) header.now;
    } }
{
    Tlp {
        requester: u16_at(header, 4),
        tag: tag_of(header, 6),
        first_be: bits(header, 7, 3, 0),
        last_be: bits(header, 7, 7, 4),
        address: aligned_address(header, common.wide),
        ..common
    }
}

/// A request for configuration space.
fn configuration<'a>(header: &[u8], common: Tlp<'a>) -> Tlp<'a>
    requires short { 12 ≤ length header.now }
    requires whole { spec.header_size header.now ≤ length header.now }
    requires wide { common.wide ≡ spec_bits.is_set places.wide_bits header.now }
    ensures { fields result ≡ record (fields common.entry) {
      requester = value (places.requester_bits Configuration) header.now;
      tag = value (places.tag_bits Configuration) header.now;
      first_be = value (places.first_be_bits Configuration) header.now;
      last_be = value (places.last_be_bits Configuration) header.now;
      address = value (places.address_bits Configuration common.entry.wide) header.now;
    } }
{
    Tlp {
        requester: u16_at(header, 4),
        tag: tag_of(header, 6),
        first_be: bits(header, 7, 3, 0),
        last_be: bits(header, 7, 7, 4),
        address: address_of(header, common.wide),
        ..common
    }
}

/// A message.
fn message<'a>(header: &[u8], common: Tlp<'a>) -> Tlp<'a>
    requires short { 12 ≤ length header.now }
    requires whole { spec.header_size header.now ≤ length header.now }
    requires wide { common.wide ≡ spec_bits.is_set places.wide_bits header.now }
    ensures { fields result ≡ record (fields common.entry) {
      requester = value (places.requester_bits Message) header.now;
      tag = value (places.tag_bits Message) header.now;
      address = value (places.address_bits Message common.entry.wide) header.now;
      code = value (places.code_bits Message) header.now;
      routing = value (places.routing_bits Message) header.now;
    } }
{
    Tlp {
        requester: u16_at(header, 4),
        tag: tag_of(header, 6),
        address: address_of(header, common.wide),
        code: bits(header, 7, 7, 0),
        routing: bits(header, 0, 2, 0),
        ..common
    }
}

/// A completion.
fn completion<'a>(header: &[u8], common: Tlp<'a>) -> Tlp<'a>
    requires { 12 ≤ length header.now }
    ensures { fields result ≡ record (fields common.entry) {
      requester = value (places.requester_bits Completion) header.now;
      tag = value (places.tag_bits Completion) header.now;
      completer = value (places.completer_bits Completion) header.now;
      status = status_in Completion header.now;
      bcm = spec_bits.is_set (places.bcm_bits Completion) header.now;
      byte_count = byte_count_of Completion header.now;
      lower = value (places.lower_bits Completion) header.now;
    } }
{
    Tlp {
        requester: u16_at(header, 8),
        tag: tag_of(header, 10),
        completer: u16_at(header, 4),
        status: status_of(bits(header, 6, 7, 5)),
        bcm: is_set(header, 6, 4),
        byte_count: byte_count(header),
        lower: bits(header, 11, 6, 0),
        ..common
    }
}

/// Attr, whose highest bit stands in byte 1.
#[tactic(auto, using(crate::proofs::Parts::attr_value))]
pub(crate) fn attr_of(header: &[u8]) -> u8
    requires { 12 ≤ length header.now }
    ensures { result ≡ value places.attr_bits header.now }
{
    bits(header, 1, 2, 2) * 4 + bits(header, 2, 5, 4)
}

/// A tag, whose highest bits T9 and T8 stand in byte 1, and the others in the byte that is named.
#[tactic(auto, using(crate::proofs::Parts::tag_value))]
pub(crate) fn tag_of(header: &[u8], byte: usize) -> u16
    requires short { 12 ≤ length header.now }
    requires byte { byte < 12 }
    ensures { result
        ≡ value (spec_bits.bits 1 7 7 ++ spec_bits.bits 1 3 3 ++ spec_bits.bits byte 7 0)
        header.now }
{
    let high = bits(header, 1, 7, 7) * 2 + bits(header, 1, 3, 3);
    u16::from(high) * 256 + u16::from(bits(header, byte, 7, 0))
}

/// An address whose two lowest bits are taken as 0.
#[tactic(auto, using(crate::proofs::Parts::aligned_address))]
pub(crate) fn aligned_address(header: &[u8], wide: bool) -> u64
    requires short { 12 ≤ length header.now }
    requires whole { spec.header_size header.now ≤ length header.now }
    requires wide { wide ≡ spec_bits.is_set places.wide_bits header.now }
    ensures { result ≡ 4 * value (places.address_bits Addressed wide) header.now }
{
    address_of(header, wide) & !0b11
}

/// The address as it stands in the header.
pub(crate) fn address_of(header: &[u8], wide: bool) -> u64
    requires short { 12 ≤ length header.now }
    requires whole { spec.header_size header.now ≤ length header.now }
    requires wide { wide ≡ spec_bits.is_set places.wide_bits header.now }
    ensures { result ≡ value (places.address_bits Message wide) header.now }
{
    if wide {
        u64_at(header, 8)
    } else {
        u64::from(u32_at(header, 8))
    }
}

/// SC, UR, CRS and CA; what is reserved is read as UR.
pub(crate) fn status_of(status: u8) -> u8
    ensures { result ≡ spec.status_of status }
{
    match status {
        0 | 2 | 4 => status,
        _ => 1,
    }
}

/// The Length in DW, of which 0 means the largest.
pub(crate) fn length_of(header: &[u8]) -> u16
    requires { 12 ≤ length header.now }
    ensures length { result ≡ spec.length_of header.now }
    ensures most { result ≤ 1024 }
{
    match bits_and_byte(header, 2, 1) {
        0 => 1024,
        length => length,
    }
}

/// The Byte Count of a completion, of which 0 means the largest.
pub(crate) fn byte_count(header: &[u8]) -> u16
    requires { 12 ≤ length header.now }
    ensures { result ≡ byte_count_of Completion header.now }
{
    match bits_and_byte(header, 6, 3) {
        0 => 4096,
        count => count,
    }
}
