//! Flow control, item by item: what a TLP spends and what a DLLP grants.
//! PCI Express Base Specification 5.0, chapter 2, flow control.
ghost use Rattle.std.specs.Prelude.{◌≡◌, ◌+◌, ◌≤◌, ◌++◌, List, Some};
ghost use Rattle.arrayvec.specs.ArrayVec.{array_vec_len};
ghost use Rattle.pl_tlp.specs.Fit.{Fits};
ghost use Rattle.pl_credit.specs.Credits.{StandsFor};
ghost use Rattle.pl_credit.specs.Link.{LinkEvent, credit_verdicts};
ghost use Rattle.pl_engine.specs.Events.{grant_in, spending_of, with_event};
ghost use Rattle.pl_engine.specs.Verdicts.{broken_by};

use pl_base::{Dir, Found, MOST_VERDICTS};
use pl_credit::{Credits, MOST_OF_AN_ITEM};
use pl_dllp::{Decoded, Dllp};
use pl_profile::{NO_CHANNEL, Profile};
use pl_tlp::{Packet, cost};

/// A well-formed TLP that is taken comes as number `at`: F1, F9 and F10, behind what was found
/// before. It spends credits where its Traffic Class has a virtual channel.
#[tactic(auto, unfolding(pl_base::specs::Bits::bits))]
pub(crate) fn spend<P: Packet>(
    credits: &mut Credits,
    profile: &Profile,
    dir: Dir,
    tlp: &P,
    at: u64,
    found: &mut Found,
)
    requires profile { credits.old.profile ≡ profile.now }
    requires fits { Fits (P.fields tlp.now) }
    requires few { array_vec_len found.old + MOST_OF_AN_ITEM ≤ MOST_VERDICTS }
    ensures verdicts { (past : List LinkEvent) → StandsFor credits.old past →
        found.new.items ≡ found.old.items ++ broken_by (credit_verdicts profile.now past)
        (spending_of profile.now dir (Some (P.fields tlp.now)) at) }
    ensures stands { (past : List LinkEvent) → StandsFor credits.old past →
        StandsFor credits.new
        (with_event (spending_of profile.now dir (Some (P.fields tlp.now)) at) past) }
    ensures few { array_vec_len found.new ≤ array_vec_len found.old + MOST_OF_AN_ITEM }
    ensures profile { credits.new.profile ≡ credits.old.profile }
{
    let channel = profile.tc_vc[usize::from(tlp.tc())];
    if channel != NO_CHANNEL {
        credits.tlp_into(dir, channel, cost(tlp), at, found);
    }
}

/// A DLLP comes as number `at`: F2 to F8 and F11, behind what was found before.
#[tactic(auto, unfolding(pl_credit::specs::Link::credit_verdicts))]
pub(crate) fn hear(credits: &mut Credits, dir: Dir, packet: &Decoded, at: u64, found: &mut Found)
    requires few { array_vec_len found.old + MOST_OF_AN_ITEM ≤ MOST_VERDICTS }
    ensures verdicts { (past : List LinkEvent) → StandsFor credits.old past →
        found.new.items ≡ found.old.items ++ broken_by (credit_verdicts credits.old.profile past)
        (grant_in dir packet.now at) }
    ensures stands { (past : List LinkEvent) → StandsFor credits.old past →
        StandsFor credits.new (with_event (grant_in dir packet.now at) past) }
    ensures few { array_vec_len found.new ≤ array_vec_len found.old + MOST_OF_AN_ITEM }
    ensures profile { credits.new.profile ≡ credits.old.profile }
{
    match packet {
        Decoded::Ok(Dllp::Flow(fc)) => credits.fc_into(dir, fc, at, found),
        Decoded::BadCrc => credits.spoiled(dir, at),
        _ => {}
    }
}
