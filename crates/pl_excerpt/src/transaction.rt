//! Transaction IDs.
//! PCI Express Base Specification 5.0, chapter 2: transaction descriptor, transaction ID field.
ghost use Rattle.std.specs.Prelude.{◌≡◌, ◌≤◌, length, Some, option_map};
ghost use Rattle.pl_tlp.specs.Fields.{view_of};
ghost use Rattle.pl_engine.specs.Events.{if_whole};
ghost use Rattle.pl_engine.specs.Packets as packets;
ghost use Rattle.pl_excerpt.specs.CoreItems.{id_if};
ghost use Rattle.pl_excerpt.specs.Transactions.{answered_if, id_of};

use pl_base::Dir;
use pl_capture::Item;
use pl_engine::tlp_of;
use pl_tlp::{Packet, Seen, see};

/// The direction of a request, its Requester ID and its Tag of ten bits.
#[derive(Clone, Copy, PartialEq, Eq)]
pub(crate) struct Transaction {
    dir: Dir,
    requester: u16,
    tag: u16,
}

/// The transaction ID of a TLP item that is a request, where it is well-formed.
pub(crate) fn requested(item: &Item) -> Option<Transaction>
    requires { 6 ≤ length item.now.body.now }
    ensures { option_map id_of result
        ≡ id_if item.now.dir (if_whole (view_of (packets.tlp_of item.now.body.now))) }
{
    match see(tlp_of(item.body)) {
        Seen::Whole(tlp) => Some(Transaction {
            dir: item.dir,
            requester: tlp.requester(),
            tag: tlp.tag(),
        }),
        Seen::Undefined | Seen::WrongSize => None,
    }
}

/// The transaction ID of the request that a TLP item answers, where it is a well-formed completion.
pub(crate) fn answered(item: &Item) -> Option<Transaction>
    requires { 6 ≤ length item.now.body.now }
    ensures { option_map id_of result
        ≡ answered_if item.now.dir (if_whole (view_of (packets.tlp_of item.now.body.now))) }
{
    match see(tlp_of(item.body)) {
        Seen::Whole(tlp) => answered_by(item.dir, &tlp),
        Seen::Undefined | Seen::WrongSize => None,
    }
}

fn answered_by<P: Packet>(dir: Dir, tlp: &P) -> Option<Transaction>
    ensures { option_map id_of result ≡ answered_if dir (Some (P.fields tlp.now)) }
{
    if !tlp.kind().is_completion() {
        return None;
    }
    Some(Transaction {
        dir: dir.opposite(),
        requester: tlp.requester(),
        tag: tlp.tag(),
    })
}
