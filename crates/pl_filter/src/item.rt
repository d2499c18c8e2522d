//! What an item carries.
//! PCI Express Base Specification 5.0, chapter 2 (TLP types) and chapter 3 (DLLP types, LCRC and
//! nullified TLPs).
ghost use Rattle.std.specs.Prelude.{◌≡◌, ◌≤◌, length};
ghost use Rattle.std.specs.Option.{option_map};
ghost use Rattle.pl_capture.specs.Entry.{view, IsLawful};
ghost use Rattle.pl_dllp.specs.Frame.{frame};
ghost use Rattle.pl_engine.specs.State.{state_of};
ghost use Rattle.pl_tlp.specs.Fields.{outcome};
ghost use Rattle.pl_filter.specs.Items as spec;

use crate::name::Name;
use pl_base::Body;
use pl_capture::{Item, ItemKind};
use pl_dllp::{Decoded, Dllp};
use pl_engine::{body, dllp_of, tlp_of};
use pl_tlp::View;

/// The name of an item: of a whole TLP its kind, `undefined` or `wrongsize`, of a DLLP its type,
/// `other`, `badcrc` or `reserved`. A spoiled or nullified TLP, a link down and a gap have none.
pub fn name_of(item: &Item) -> Option<Name>
    requires { IsLawful (view item.now) }
    ensures { result ≡ spec.item_name (view item.now) }
{
    match item.kind {
        ItemKind::Tlp => match tlp_view(item)? {
            View::Whole(tlp) => Some(Name::Tlp(tlp.kind)),
            View::Undefined => Some(Name::Undefined),
            View::WrongSize => Some(Name::WrongSize),
        },
        ItemKind::Dllp => Some(match dllp_of(item.body) {
            Decoded::Ok(d) => type_name(&d),
            Decoded::BadCrc => Name::BadCrc,
            Decoded::Reserved => Name::Reserved,
        }),
        ItemKind::LinkDown | ItemKind::Gap => None,
    }
}

/// The view of the TLP of this item, where it is a whole one.
pub(crate) fn tlp_view<'a>(item: &Item<'a>) -> Option<View<'a>>
    requires { IsLawful (view item.now) }
    ensures { option_map outcome result ≡ spec.tlp_view item.now.kind (view item.now) }
{
    match item.kind {
        ItemKind::Tlp => match body(item) {
            Body::Whole => Some(pl_tlp::view(tlp_of(item.body))),
            Body::Nullified | Body::Spoiled => None,
        },
        ItemKind::Dllp | ItemKind::LinkDown | ItemKind::Gap => None,
    }
}

/// The name of a DLLP's type.
fn type_name(d: &Dllp) -> Name
    ensures { result ≡ spec.type_name d.now }
{
    match *d {
        Dllp::Ack(_) => Name::Ack,
        Dllp::Nak(_) => Name::Nak,
        Dllp::Flow(fc) => Name::Flow(fc.stage, fc.class),
        Dllp::Other(_, _) => match Name::with_text(d.name().as_bytes()) {
            Some(name) => name,
            None => Name::Other,
        },
    }
}
