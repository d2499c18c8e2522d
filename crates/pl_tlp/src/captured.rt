//! A TLP whose fields stay in its bytes: only its kind, its Length and where its data lie are
//! decided.
//! PCI Express Base Specification 5.0, chapter 2, transaction layer protocol: packet definition.
ghost use Rattle.std.specs.Prelude.{◌≡◌, ◌+◌, length};
ghost use Rattle.pl_tlp.specs.Fields.{data_size, digest_size, header_size, length_of};

use crate::kind::Kind;

/// A whole TLP in its bytes, which are lent and not copied.
///
/// The methods of [`Packet`](crate::Packet) read its fields, each when it is asked for.
#[derive(Clone, Copy, Debug, PartialEq, Eq)]
pub struct Captured<'a> {
    pub(crate) kind: Kind,
    /// The Length in DW, 1 to 1,024.
    pub(crate) length_dw: u16,
    /// Where the data begin in `bytes`, behind the header.
    pub(crate) data_start: usize,
    /// Where they end in `bytes`, before the digest.
    pub(crate) data_end: usize,
    /// The prefixes, 4 bytes each.
    pub(crate) prefixes: &'a [u8],
    /// The header, the data and the digest.
    pub(crate) bytes: &'a [u8],
    ghost length_is: { length_dw ≡ length_of bytes.now },
    ghost start_is: { data_start ≡ header_size bytes.now },
    ghost end_is: { data_end ≡ header_size bytes.now + data_size bytes.now },
    ghost size_is: { length bytes.now
        ≡ header_size bytes.now + data_size bytes.now + digest_size bytes.now },
}

/// What the bytes of a packet are, with the fields of a whole TLP left in them.
#[derive(Clone, Copy, Debug, PartialEq, Eq)]
pub enum Seen<'a> {
    Whole(Captured<'a>),
    /// Byte 0 of the header has a pair of Fmt and Type that isn't defined.
    Undefined,
    /// The packet ends before its header, or its size isn't the one that its header says.
    WrongSize,
}
