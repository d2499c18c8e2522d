//! What is left of an open request after one more completion.
//! PCI Express Base Specification 5.0, chapter 2: a read may be answered in several completions.
ghost use Rattle.std.specs.Prelude.{◌≡◌, IfSome, true};
ghost use Rattle.pl_tlp.specs.Fit.{Fits};
ghost use Rattle.pl_tlp.specs.Groups.{is_completion};
ghost use Rattle.pl_pair.specs.Pairs.{IsOpen};
ghost use Rattle.pl_pair.specs.Parts as spec;

use crate::part::{brought, has_data, is_successful};
use crate::request::OpenRequest;
use pl_tlp::Packet;

/// What an open request is after the completion at position `at`: none where this ends it.
pub(crate) fn after_part<P: Packet>(opened: OpenRequest, tlp: &P, at: u64) -> Option<OpenRequest>
    requires completion { is_completion (P.fields tlp.now).kind ≡ true }
    requires open { IsOpen opened }
    requires fits { Fits (P.fields tlp.now) }
    ensures after { result ≡ spec.after_part opened (P.fields tlp.now) at }
    ensures open { IfSome result IsOpen }
{
    if ends(&opened, tlp) {
        return None;
    }
    Some(OpenRequest {
        first_part: opened.first_part.or(Some(at)),
        got: opened.got + brought(tlp),
        ..opened
    })
}

/// Whether a completion ends its request.
#[tactic(auto, using(pl_tlp::proofs::GroupLayouts::completion_layout))]
fn ends<P: Packet>(opened: &OpenRequest, tlp: &P) -> bool
    requires completion { is_completion (P.fields tlp.now).kind ≡ true }
    requires open { IsOpen opened.now }
    requires fits { Fits (P.fields tlp.now) }
    ensures { result ≡ spec.ends opened.now.request opened.now.got (P.fields tlp.now) }
{
    let wanted = opened.request.wanted();
    !has_data(tlp)
        || !is_successful(tlp)
        || wanted == 0
        || u32::from(opened.got) + u32::from(tlp.length()) >= u32::from(wanted)
        || (opened.request.is_translation()
            && u32::from(tlp.byte_count()) <= 4 * u32::from(tlp.length()))
}
