//! The fields of a TLP that stay in its bytes.
//! PCI Express Base Specification 5.0, chapter 2, transaction layer protocol: common packet header
//! fields, request headers, message headers and completion headers.
ghost use Rattle.pl_tlp.specs.Captured.{captured_fields};

use crate::bits::{bits, is_set, u16_at};
use crate::captured::Captured;
use crate::header::{address_of, aligned_address, attr_of, byte_count, status_of, tag_of};
use crate::kind::{Kind, Layout};
use crate::packet::Packet;
use crate::reading::{data_between, digest_behind};

impl Packet for Captured<'_> {
    ghost fields = { captured_fields };

    #[inline(always)]
    fn kind(&self) -> Kind {
        self.kind
    }

    #[inline(always)]
    fn wide(&self) -> bool {
        is_set(self.bytes, 0, 5)
    }

    #[inline(always)]
    fn tc(&self) -> u8 {
        bits(self.bytes, 1, 6, 4)
    }

    #[inline(always)]
    fn attr(&self) -> u8 {
        attr_of(self.bytes)
    }

    #[inline(always)]
    fn at(&self) -> u8 {
        bits(self.bytes, 2, 3, 2)
    }

    #[inline(always)]
    fn th(&self) -> bool {
        is_set(self.bytes, 1, 0)
    }

    #[inline(always)]
    fn length(&self) -> u16 {
        self.length_dw
    }

    #[inline(always)]
    fn requester(&self) -> u16 {
        match self.kind.layout() {
            Layout::Completion => u16_at(self.bytes, 8),
            _ => u16_at(self.bytes, 4),
        }
    }

    #[inline(always)]
    fn tag(&self) -> u16 {
        match self.kind.layout() {
            Layout::Completion => tag_of(self.bytes, 10),
            _ => tag_of(self.bytes, 6),
        }
    }

    #[inline(always)]
    fn first_be(&self) -> u8 {
        bits(self.bytes, 7, 3, 0)
    }

    #[inline(always)]
    fn last_be(&self) -> u8 {
        bits(self.bytes, 7, 7, 4)
    }

    #[inline(always)]
    fn address(&self) -> u64 {
        match self.kind.layout() {
            Layout::Configuration => address_of(self.bytes, self.wide()),
            _ => aligned_address(self.bytes, self.wide()),
        }
    }

    #[inline(always)]
    fn code(&self) -> u8 {
        bits(self.bytes, 7, 7, 0)
    }

    #[inline(always)]
    fn routing(&self) -> u8 {
        bits(self.bytes, 0, 2, 0)
    }

    #[inline(always)]
    fn status(&self) -> u8 {
        status_of(bits(self.bytes, 6, 7, 5))
    }

    #[inline(always)]
    fn bcm(&self) -> bool {
        is_set(self.bytes, 6, 4)
    }

    #[inline(always)]
    fn byte_count(&self) -> u16 {
        byte_count(self.bytes)
    }

    #[inline(always)]
    fn lower(&self) -> u8 {
        bits(self.bytes, 11, 6, 0)
    }

    #[inline(always)]
    fn prefixes(&self) -> &[u8] {
        self.prefixes
    }

    #[inline(always)]
    fn header(&self) -> &[u8] {
        &self.bytes[..self.data_start]
    }

    #[inline(always)]
    fn payload(&self) -> &[u8] {
        data_between(self.bytes, self.data_start, self.data_end)
    }

    #[inline(always)]
    fn digest(&self) -> Option<[u8; 4]> {
        digest_behind(self.bytes, self.data_end)
    }
}
