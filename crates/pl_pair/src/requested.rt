//! What a request asks for.
//! PCI Express Base Specification 5.0, chapter 2: byte enables, AtomicOps, and the Byte Count of
//! completions.
ghost use Rattle.std.specs.Prelude.{◌≡◌, ◌<◌, ◌≤◌, ◌+◌, ◌^◌, true};
ghost use Rattle.pl_tlp.specs.Groups.{needs_completion};
ghost use Rattle.pl_pair.specs.Requested as spec;
ghost use Rattle.pl_pair.specs.Parts.{is_translation, remaining};
ghost use Rattle.pl_pair.specs.Rules.{lower_address};

use crate::request::Request;
use pl_tlp::{Kind, Packet};

/// The fields of a request that its completions are held against.
#[tactic(auto, using(pl_tlp::proofs::GroupLayouts::request_access))]
pub(crate) fn request_of<P: Packet>(tlp: &P) -> Request
    requires { needs_completion (P.fields tlp.now).kind ≡ true }
    ensures { result ≡ spec.request_of (P.fields tlp.now) }
{
    Request {
        kind: tlp.kind(),
        tc: tlp.tc(),
        attr: tlp.attr(),
        at: tlp.at(),
        th: tlp.th(),
        length: tlp.length(),
        first_be: tlp.first_be(),
        last_be: tlp.last_be(),
        address: tlp.address(),
    }
}

impl Request {
    /// How many DW of data its completions carry in all: of a compare and swap, whose data are two
    /// operands, one of them comes back.
    pub(crate) fn wanted(&self) -> u16
        ensures value { result ≡ spec.wanted self.now }
        ensures most { result ≤ self.now.length + 1 }
    {
        match self.kind {
            Kind::MRd | Kind::MRdLk | Kind::FetchAdd | Kind::Swap => self.length,
            Kind::Cas => self.length / 2,
            Kind::IORd | Kind::CfgRd0 | Kind::CfgRd1 => 1,
            _ => 0,
        }
    }

    /// Whether it asks for the translation of an address.
    pub(crate) fn is_translation(&self) -> bool
        ensures { result ≡ is_translation self.now }
    {
        self.at == 1
    }

    /// The bytes of the first DW below the lowest one that is asked for.
    pub(crate) fn lead(&self) -> u32
        ensures value { result ≡ spec.lead self.now }
        ensures small { result ≤ 3 }
    {
        if self.th || self.first_be == 0 {
            0
        } else {
            lowest(self.first_be)
        }
    }

    /// The bytes of the last DW above the highest one that is asked for.
    fn trail(&self) -> u32
        ensures value { result ≡ spec.trail self.now }
        ensures small { result ≤ 3 }
    {
        if self.last_be == 0 {
            0
        } else {
            3 - highest(self.last_be)
        }
    }

    /// How many bytes a memory read asks for.
    pub(crate) fn bytes(&self) -> u32
        ensures value { result ≡ spec.bytes self.now }
        ensures most { result ≤ 2 ^ 18 }
    {
        let all = 4 * u32::from(self.length);
        if self.th {
            all
        } else if self.length == 1 {
            bytes_of_one_dw(self.first_be)
        } else {
            all.saturating_sub(self.lead() + self.trail())
        }
    }

    /// How many bytes of a memory read are still to come after `before` DW were brought.
    pub(crate) fn remaining(&self, before: u16) -> u32
        ensures { result ≡ remaining self.now before }
    {
        if before == 0 {
            self.bytes()
        } else {
            (self.lead() + self.bytes()).saturating_sub(4 * u32::from(before))
        }
    }

    /// The low seven bits of the address of the first byte that the next completion of a memory
    /// read brings, after `before` DW were brought.
    pub(crate) fn lower_address(&self, before: u16) -> u32
        ensures { result ≡ lower_address self.now before }
    {
        let start = (self.address % 128) as u32;
        if before == 0 {
            (start + self.lead()) % 128
        } else {
            (start + 4 * u32::from(before)) % 128
        }
    }
}

/// Whether a field of byte enables has a byte of its DW: bit i enables byte i.
fn is_enabled(field: u8, byte: u32) -> bool
    requires { byte < 4 }
    ensures { result ≡ spec.enables field byte }
{
    field >> byte & 1 == 1
}

/// The lowest enabled byte of a DW, where one is enabled.
fn lowest(field: u8) -> u32
    ensures value { result ≡ spec.lowest field }
    ensures small { result ≤ 3 }
{
    if is_enabled(field, 0) {
        0
    } else if is_enabled(field, 1) {
        1
    } else if is_enabled(field, 2) {
        2
    } else {
        3
    }
}

/// The highest enabled byte of a DW, where one is enabled.
fn highest(field: u8) -> u32
    ensures value { result ≡ spec.highest field }
    ensures small { result ≤ 3 }
{
    if is_enabled(field, 3) {
        3
    } else if is_enabled(field, 2) {
        2
    } else if is_enabled(field, 1) {
        1
    } else {
        0
    }
}

/// From the lowest to the highest enabled byte of the only DW; a read of no byte counts as one.
fn bytes_of_one_dw(field: u8) -> u32
    ensures value { result ≡ spec.bytes_of_one_dw field }
    ensures most { result ≤ 4 }
{
    if field == 0 {
        1
    } else {
        highest(field).saturating_sub(lowest(field)) + 1
    }
}
