//! What a completion brings.
//! PCI Express Base Specification 5.0, chapter 2: completion rules, completion status.
ghost use Rattle.std.specs.Prelude.{◌≡◌, true};
ghost use Rattle.pl_tlp.specs.Fit.{Fits};
ghost use Rattle.pl_tlp.specs.Groups as groups;
ghost use Rattle.pl_tlp.specs.Kinds as kinds;
ghost use Rattle.pl_pair.specs.Parts as spec;
ghost use Rattle.pl_pair.specs.Rules as rules;

use crate::request::Request;
use pl_tlp::Packet;

/// Whether it brings data.
pub(crate) fn has_data<P: Packet>(tlp: &P) -> bool
    requires { Fits (P.fields tlp.now) }
    ensures { result ≡ kinds.has_data (P.fields tlp.now).kind }
{
    !tlp.payload().is_empty()
}

/// The DW of data that it brings.
pub(crate) fn brought<P: Packet>(tlp: &P) -> u16
    requires { Fits (P.fields tlp.now) }
    ensures { result ≡ spec.brought (P.fields tlp.now) }
{
    if has_data(tlp) { tlp.length() } else { 0 }
}

#[tactic(auto, using(pl_tlp::proofs::GroupLayouts::completion_layout))]
pub(crate) fn is_successful<P: Packet>(tlp: &P) -> bool
    requires { groups.is_completion (P.fields tlp.now).kind ≡ true }
    ensures { result ≡ rules.is_successful (P.fields tlp.now) }
{
    tlp.status() == 0
}

/// Whether it succeeds, and its request asks for no translation: then its Byte Count and Lower
/// Address are judged.
pub(crate) fn is_counted<P: Packet>(request: &Request, tlp: &P) -> bool
    requires { groups.is_completion (P.fields tlp.now).kind ≡ true }
    ensures { result ≡ rules.is_counted request.now (P.fields tlp.now) }
{
    is_successful(tlp) && !request.is_translation()
}
