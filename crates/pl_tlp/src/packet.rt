//! The fields of a TLP by methods, wherever they are: made as a [`Tlp`], or left in the bytes.
//! PCI Express Base Specification 5.0, chapter 2, transaction layer protocol: packet definition.
ghost use Rattle.std.specs.Prelude.{◌≡◌, true};
ghost use Rattle.pl_tlp.specs.Fields.{Fields};
ghost use Rattle.pl_tlp.specs.Fields as spec;
ghost use Rattle.pl_tlp.specs.Header.{is_access};
ghost use Rattle.pl_tlp.specs.Kinds.{layout_of};
ghost use Rattle.pl_tlp.specs.declared.kind.Layout.TheVariants.{Completion, Message};

use crate::kind::Kind;
use crate::tlp::Tlp;

/// A whole TLP, whose fields can be asked for. Each method gives the field of [`Tlp`] that has its
/// name.
///
/// A field that only some kinds have is asked of those alone, since its bytes mean something else
/// in the others.
pub trait Packet: Copy {
    ghost fields: { Self → Fields };

    fn kind(&self) -> Kind
        ensures { result ≡ (fields self.now).kind };

    /// Whether the header has 4 DW; else it has 3.
    fn wide(&self) -> bool
        ensures { result ≡ (fields self.now).wide };

    /// Traffic Class, 0 to 7.
    fn tc(&self) -> u8
        ensures { result ≡ (fields self.now).tc };

    /// Attributes, three bits.
    fn attr(&self) -> u8
        ensures { result ≡ (fields self.now).attr };

    /// Address Type, two bits.
    fn at(&self) -> u8
        ensures { result ≡ (fields self.now).at };

    /// Whether processing hints stand in the header.
    fn th(&self) -> bool
        ensures { result ≡ (fields self.now).th };

    /// Length in DW, 1 to 1,024.
    fn length(&self) -> u16
        ensures { result ≡ (fields self.now).length };

    /// Requester ID: bus, device and function.
    fn requester(&self) -> u16
        ensures { result ≡ (fields self.now).requester };

    /// Tag, 0 to 1,023.
    fn tag(&self) -> u16
        ensures { result ≡ (fields self.now).tag };

    /// First DW Byte Enables of a request that isn't a message, four bits.
    fn first_be(&self) -> u8
        requires { is_access (layout_of (fields self.now).kind) ≡ true }
        ensures { result ≡ (fields self.now).first_be };

    /// Last DW Byte Enables of such a request, four bits.
    fn last_be(&self) -> u8
        requires { is_access (layout_of (fields self.now).kind) ≡ true }
        ensures { result ≡ (fields self.now).last_be };

    /// The address of such a request in bytes, or of one for configuration space these bytes of the
    /// header as they are.
    fn address(&self) -> u64
        requires { is_access (layout_of (fields self.now).kind) ≡ true }
        ensures { result ≡ (fields self.now).address };

    /// The code of a message.
    fn code(&self) -> u8
        requires { layout_of (fields self.now).kind ≡ Message }
        ensures { result ≡ (fields self.now).code };

    /// How a message is routed, 0 to 7.
    fn routing(&self) -> u8
        requires { layout_of (fields self.now).kind ≡ Message }
        ensures { result ≡ (fields self.now).routing };

    /// Completion Status of a completion: 0 is SC, 1 UR, 2 CRS and 4 CA.
    fn status(&self) -> u8
        requires { layout_of (fields self.now).kind ≡ Completion }
        ensures { result ≡ (fields self.now).status };

    /// Byte Count Modified of a completion.
    fn bcm(&self) -> bool
        requires { layout_of (fields self.now).kind ≡ Completion }
        ensures { result ≡ (fields self.now).bcm };

    /// Byte Count of a completion, 1 to 4,096.
    fn byte_count(&self) -> u16
        requires { layout_of (fields self.now).kind ≡ Completion }
        ensures { result ≡ (fields self.now).byte_count };

    /// Lower Address of a completion, 0 to 127.
    fn lower(&self) -> u8
        requires { layout_of (fields self.now).kind ≡ Completion }
        ensures { result ≡ (fields self.now).lower };

    /// The prefixes, 4 bytes each.
    fn prefixes(&self) -> &[u8]
        ensures { result.now ≡ (fields self.now).prefixes };

    /// The 12 or 16 bytes of the header as they came.
    fn header(&self) -> &[u8]
        ensures { result.now ≡ (fields self.now).header };

    /// The data, `4 * length` bytes where the kind has data.
    fn payload(&self) -> &[u8]
        ensures { result.now ≡ (fields self.now).payload };

    /// The digest (ECRC).
    fn digest(&self) -> Option<[u8; 4]>
        ensures { result ≡ (fields self.now).digest };
}

impl Packet for Tlp<'_> {
    ghost fields = { spec.fields };

    #[inline(always)]
    fn kind(&self) -> Kind {
        self.kind
    }

    #[inline(always)]
    fn wide(&self) -> bool {
        self.wide
    }

    #[inline(always)]
    fn tc(&self) -> u8 {
        self.tc
    }

    #[inline(always)]
    fn attr(&self) -> u8 {
        self.attr
    }

    #[inline(always)]
    fn at(&self) -> u8 {
        self.at
    }

    #[inline(always)]
    fn th(&self) -> bool {
        self.th
    }

    #[inline(always)]
    fn length(&self) -> u16 {
        self.length
    }

    #[inline(always)]
    fn requester(&self) -> u16 {
        self.requester
    }

    #[inline(always)]
    fn tag(&self) -> u16 {
        self.tag
    }

    #[inline(always)]
    fn first_be(&self) -> u8 {
        self.first_be
    }

    #[inline(always)]
    fn last_be(&self) -> u8 {
        self.last_be
    }

    #[inline(always)]
    fn address(&self) -> u64 {
        self.address
    }

    #[inline(always)]
    fn code(&self) -> u8 {
        self.code
    }

    #[inline(always)]
    fn routing(&self) -> u8 {
        self.routing
    }

    #[inline(always)]
    fn status(&self) -> u8 {
        self.status
    }

    #[inline(always)]
    fn bcm(&self) -> bool {
        self.bcm
    }

    #[inline(always)]
    fn byte_count(&self) -> u16 {
        self.byte_count
    }

    #[inline(always)]
    fn lower(&self) -> u8 {
        self.lower
    }

    #[inline(always)]
    fn prefixes(&self) -> &[u8] {
        self.prefixes
    }

    #[inline(always)]
    fn header(&self) -> &[u8] {
        self.header
    }

    #[inline(always)]
    fn payload(&self) -> &[u8] {
        self.payload
    }

    #[inline(always)]
    fn digest(&self) -> Option<[u8; 4]> {
        self.digest
    }
}
