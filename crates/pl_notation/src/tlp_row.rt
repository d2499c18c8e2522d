//! Rows of TLPs.
use crate::notation::Notation;
use pl_base::{Body, Dir};
use pl_tlp::{Kind, Tlp, encode_into, fits};
use std::alloc::AllocError;

/// All kinds of TLPs.
const KINDS: [Kind; 18] = [
    Kind::MRd,
    Kind::MRdLk,
    Kind::MWr,
    Kind::IORd,
    Kind::IOWr,
    Kind::CfgRd0,
    Kind::CfgWr0,
    Kind::CfgRd1,
    Kind::CfgWr1,
    Kind::Msg,
    Kind::MsgD,
    Kind::Cpl,
    Kind::CplD,
    Kind::CplLk,
    Kind::CplDLk,
    Kind::FetchAdd,
    Kind::Swap,
    Kind::Cas,
];

/// The most prefixes that a row has.
const MOST_PREFIXES: usize = 8;

/// A TLP as a row says it.
#[derive(Clone, Copy)]
pub(crate) struct TlpRow {
    number: u16,
    body: Body,
    /// The fields but for prefixes and data, and for those that are known only once all words are
    /// read.
    fields: Tlp<'static>,
    length: Option<u16>,
    address: Option<u64>,
    /// First and Last DW Byte Enables.
    enables: Option<(u8, u8)>,
    first_data: u8,
    prefixes: [[u8; 4]; MOST_PREFIXES],
    prefix_count: usize,
}

impl TlpRow {
    /// The TLP of this kind and these fields.
    pub fn parse(name: &str, words: &[&str]) -> Option<TlpRow> {
        let kind = KINDS.iter().copied().find(|kind| kind.name() == name)?;
        let mut row = TlpRow::new(kind);
        let mut named: Option<&str> = None;
        for word in words {
            match (named.take(), word.split_once('=')) {
                (Some(field), _) => row.set(field, word)?,
                (None, Some((field, value))) => row.set(field, value)?,
                (None, None) => {
                    if !row.mark(word) {
                        named = Some(word);
                    }
                }
            }
        }
        if named.is_some() { None } else { Some(row) }
    }

    /// A TLP of which no field is given.
    fn new(kind: Kind) -> TlpRow {
        TlpRow {
            number: 0,
            body: Body::Whole,
            fields: blank(kind),
            length: None,
            address: None,
            enables: None,
            first_data: 0,
            prefixes: [[0; 4]; MOST_PREFIXES],
            prefix_count: 0,
        }
    }

    /// Takes a word that stands alone, and says whether it is one.
    fn mark(&mut self, word: &str) -> bool {
        match word {
            "nullified" => self.body = Body::Nullified,
            "spoiled" => self.body = Body::Spoiled,
            "4DW" => self.fields.wide = true,
            "TH" => self.fields.th = true,
            "BCM" => self.fields.bcm = true,
            _ => return false,
        }
        true
    }

    /// Takes a field that every kind has, or else one of some kinds.
    fn set(&mut self, field: &str, value: &str) -> Option<()> {
        match field {
            "n" => self.number = value.parse().ok()?,
            "len" => self.length = Some(value.parse().ok()?),
            "TC" => self.fields.tc = value.parse().ok()?,
            "attr" => self.fields.attr = value.parse().ok()?,
            "AT" => self.fields.at = u8::from_str_radix(value, 2).ok()?,
            "req" => self.fields.requester = u16::from_str_radix(value, 16).ok()?,
            "tag" => self.fields.tag = u16::from_str_radix(value, 16).ok()?,
            "data" => self.first_data = u8::from_str_radix(value, 16).ok()?,
            "digest" => self.fields.digest = Some(four_bytes(value)?),
            "prefix" => return self.add_prefix(four_bytes(value)?),
            _ => return self.set_of_kind(field, value),
        }
        Some(())
    }

    /// Takes a field of requests, messages or completions.
    fn set_of_kind(&mut self, field: &str, value: &str) -> Option<()> {
        match field {
            "addr" => self.address = Some(u64::from_str_radix(value, 16).ok()?),
            "be" => self.enables = Some(byte_enables(value)?),
            "code" => self.fields.code = u8::from_str_radix(value, 16).ok()?,
            "routing" => self.fields.routing = u8::from_str_radix(value, 2).ok()?,
            "status" => self.fields.status = status_of(value)?,
            "bc" => self.fields.byte_count = value.parse().ok()?,
            "la" => self.fields.lower = u8::from_str_radix(value, 16).ok()?,
            _ => return None,
        }
        Some(())
    }

    /// One more prefix.
    fn add_prefix(&mut self, prefix: [u8; 4]) -> Option<()> {
        *self.prefixes.get_mut(self.prefix_count)? = prefix;
        self.prefix_count = self.prefix_count.saturating_add(1);
        Some(())
    }

    /// Adds the TLP where its kind has these fields, and says whether it has.
    pub fn add_to(&self, notation: &mut Notation, dir: Dir) -> Result<bool, AllocError> {
        let mut bytes = [0; 4154];
        match self.write(&mut bytes).and_then(|size| bytes.get(..size)) {
            Some(tlp) if tlp.len() <= 4154 => {
                notation.tlp(dir, self.number, tlp, self.body)?;
                Ok(true)
            }
            _ => Ok(false),
        }
    }

    /// Writes the TLP at the front of `out`, and says how many bytes it has.
    fn write(&self, out: &mut [u8]) -> Option<usize> {
        let fields = self.completed();
        let mut data = [0; 4096];
        data[0] = self.first_data;
        let size = if has_data(fields.kind) {
            usize::from(fields.length).saturating_mul(4)
        } else {
            0
        };
        let tlp = Tlp {
            prefixes: self
                .prefixes
                .as_flattened()
                .get(..self.prefix_count.saturating_mul(4))?,
            payload: data.get(..size)?,
            ..fields
        };
        if !fits(&tlp) {
            return None;
        }
        encode_into(&tlp, out)
    }

    /// The fields but for prefixes and data, with the usual values where the row gives none.
    fn completed(&self) -> Tlp<'static> {
        let is_plain = self.length.is_none() && self.address.is_none();
        let (address, length) = match self.fields.kind {
            Kind::MWr if is_plain => (0x1000, 1),
            _ => (self.address.unwrap_or(0), self.length.unwrap_or(1024)),
        };
        let usual = match self.fields.kind {
            Kind::Msg | Kind::MsgD => (0, 0),
            Kind::Cpl | Kind::CplD | Kind::CplLk | Kind::CplDLk => (0, 0),
            _ if length == 1 => (0xF, 0),
            _ => (0xF, 0xF),
        };
        let (first_be, last_be) = self.enables.unwrap_or(usual);
        Tlp {
            address,
            length,
            first_be,
            last_be,
            ..self.fields
        }
    }
}

/// A TLP of which no field is given: the fields of a number that counts from 1 to a power of two
/// are 0 in the header, which is that power.
fn blank(kind: Kind) -> Tlp<'static> {
    let is_completion = matches!(kind, Kind::Cpl | Kind::CplD | Kind::CplLk | Kind::CplDLk);
    Tlp {
        kind,
        wide: matches!(kind, Kind::Msg | Kind::MsgD),
        tc: 0,
        attr: 0,
        at: 0,
        ep: false,
        th: false,
        length: 1024,
        requester: 0x0100,
        tag: 0,
        first_be: 0,
        last_be: 0,
        address: 0,
        code: 0,
        routing: 0,
        completer: 0,
        status: 0,
        bcm: false,
        byte_count: if is_completion { 4096 } else { 0 },
        lower: 0,
        prefixes: &[],
        payload: &[],
        digest: None,
        header: &[],
    }
}

/// Whether data stand behind the header of this kind.
fn has_data(kind: Kind) -> bool {
    match kind {
        Kind::MWr | Kind::IOWr | Kind::CfgWr0 | Kind::CfgWr1 => true,
        Kind::MsgD | Kind::CplD | Kind::CplDLk => true,
        Kind::FetchAdd | Kind::Swap | Kind::Cas => true,
        _ => false,
    }
}

fn four_bytes(text: &str) -> Option<[u8; 4]> {
    Some(u32::from_str_radix(text, 16).ok()?.to_be_bytes())
}

/// First and Last DW Byte Enables, such as `F/0`.
fn byte_enables(text: &str) -> Option<(u8, u8)> {
    let (first, last) = text.split_once('/')?;
    let first = u8::from_str_radix(first, 16).ok()?;
    let last = u8::from_str_radix(last, 16).ok()?;
    Some((first, last))
}

fn status_of(name: &str) -> Option<u8> {
    match name {
        "SC" => Some(0),
        "UR" => Some(1),
        "CRS" => Some(2),
        "CA" => Some(4),
        _ => None,
    }
}
