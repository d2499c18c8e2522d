//! Transaction IDs.
//! PCI Express Base Specification 5.0, chapter 2: transaction descriptor, transaction ID field.
ghost use Rattle.std.specs.Prelude.{◌≡◌};
ghost use Rattle.pl_tlp.specs.Fit.{Fits};
ghost use Rattle.pl_pair.specs.History.{answered_id, request_id};
ghost use Rattle.pl_pair.specs.Pairs.{IsInRange, key_of};

use pl_base::Dir;
use pl_tlp::Packet;

/// The direction of a request, its Requester ID and its Tag of ten bits.
#[derive(Clone, Copy, Debug, PartialEq, Eq)]
pub struct TransactionId {
    pub dir: Dir,
    pub requester: u16,
    pub tag: u16,
}

impl TransactionId {
    /// The transaction ID of a request that travels in direction `dir`.
    pub(crate) fn of_request<P: Packet>(dir: Dir, tlp: &P) -> TransactionId
        requires fits { Fits (P.fields tlp.now) }
        ensures id { result ≡ request_id dir (P.fields tlp.now) }
        ensures range { IsInRange result }
    {
        TransactionId {
            dir,
            requester: tlp.requester(),
            tag: tlp.tag(),
        }
    }

    /// The transaction ID of the request that a completion names which travels in direction `dir`.
    pub(crate) fn answered<P: Packet>(dir: Dir, tlp: &P) -> TransactionId
        requires fits { Fits (P.fields tlp.now) }
        ensures id { result ≡ answered_id dir (P.fields tlp.now) }
        ensures range { IsInRange result }
    {
        TransactionId {
            dir: dir.opposite(),
            requester: tlp.requester(),
            tag: tlp.tag(),
        }
    }

    /// Its key in a table, below 2^27: the direction, the 16 bits of the Requester ID and the ten
    /// of the Tag beside each other.
    pub(crate) fn key(self) -> u32
        requires { IsInRange self }
        ensures { result ≡ key_of self }
    {
        ((self.dir.index() as u32) << 26) + (u32::from(self.requester) << 10) + u32::from(self.tag)
    }
}
