//! The rules M13 to M15: how each message is routed, where it travels, and what it carries.
//! PCI Express Base Specification 5.0, chapter 2, transaction layer protocol: message requests.
ghost use Rattle.std.specs.Prelude.{◌≡◌, ◌+◌, ◌≤◌, ◌++◌, true};
ghost use Rattle.arrayvec.specs.ArrayVec.{array_vec_len};
ghost use Rattle.pl_tlp.specs.Groups.{is_message};
ghost use Rattle.pl_form.specs.Messages as spec;
ghost use Rattle.pl_form.specs.Verdicts.{message_verdicts};

use crate::table::{Carried, Message, message_of};
use pl_base::{Dir, Found, MOST_VERDICTS, Rule, add_if};
use pl_tlp::Packet;

/// Adds what a TLP breaks of M13 to M15. A message whose code isn't listed breaks none of them.
/// Apart and by value, since few TLPs are messages.
#[inline(never)]
#[rattlefmt::skip]
#[tactic(auto,
    unfolding(crate::specs::Verdicts::message_verdicts),
    using(pl_tlp::proofs::GroupLayouts::message_layout),
)]
pub(crate) fn judge_message<P: Packet>(dir: Dir, tlp: P, at: u64, found: &mut Found)
    requires { array_vec_len found.old + 3 ≤ MOST_VERDICTS }
    ensures items { found.new.items
        ≡ found.old.items ++ message_verdicts dir (P.fields tlp) at }
    ensures most { array_vec_len found.new ≤ array_vec_len found.old + 3 }
{
    if !tlp.kind().is_message() {
        return;
    }
    if let Some(listed) = message_of(tlp.code()) {
        let wrong_way = goes_wrong(&listed, dir, &tlp);
        add_if(found, wrong_way, Rule::M13, at, None, None);
        let wrong_class = listed.only_tc0 && tlp.tc() != 0;
        add_if(found, wrong_class, Rule::M14, at, None, None);
        let wrong_data = !may_be(listed.carried, &tlp);
        add_if(found, wrong_data, Rule::M15, at, None, None);
    }
}

/// Whether it has another routing or travels in the other direction.
#[tactic(auto, using(pl_tlp::proofs::GroupLayouts::message_layout))]
fn goes_wrong<P: Packet>(listed: &Message, dir: Dir, tlp: &P) -> bool
    requires { is_message (P.fields tlp.now).kind ≡ true }
    ensures { result ≡ spec.goes_wrong dir (P.fields tlp.now) listed.now }
{
    !(tlp.routing() == listed.routing && dir.index() == listed.dir.index())
}

/// Whether such a message may carry what this one does.
fn may_be<P: Packet>(carried: Carried, tlp: &P) -> bool
    ensures { result ≡ spec.may_be carried (P.fields tlp.now) }
{
    match carried {
        Carried::Nothing => !tlp.kind().is_message_with_data(),
        Carried::OneDw => tlp.kind().is_message_with_data() && tlp.length() == 1,
        Carried::Either => true,
    }
}
