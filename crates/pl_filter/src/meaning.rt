//! For which items a filter holds.
ghost use Rattle.std.specs.Prelude.{◌≡◌};
ghost use Rattle.std.specs.Option.{option_map};
ghost use Rattle.pl_tlp.specs.Fields.{fields};
ghost use Rattle.pl_capture.specs.Entry.{view, IsLawful};
ghost use Rattle.pl_filter.specs.Meaning as spec;
ghost use Rattle.pl_filter.specs.Items.{fields_of, item_name};
ghost use Rattle.pl_filter.specs.Trees.{tree};

use crate::filter::{Filter, Test};
use crate::item::{name_of, tlp_view};
use crate::name::Name;
use pl_base::{Body, Dir};
use pl_capture::{Item, ItemKind};
use pl_dllp::Decoded;
use pl_engine::{body, dllp_of, sequence_number};
use pl_tlp::{Tlp, View};

/// Whether a filter holds for an item. It takes no memory.
pub fn holds(f: &Filter, item: &Item) -> bool
    requires { IsLawful (view item.now) }
    ensures { result ≡ spec.holds (tree f.now) (view item.now) }
{
    match f {
        Filter::And(left, right) => holds(left, item) && holds(right, item),
        Filter::Or(left, right) => holds(left, item) || holds(right, item),
        Filter::Not(inner) => !holds(inner, item),
        Filter::Is(test) => passes(*test, item),
    }
}

/// Whether an item passes a test.
fn passes(test: Test, item: &Item) -> bool
    requires { IsLawful (view item.now) }
    ensures { result ≡ spec.passes test (view item.now) }
{
    match test {
        Test::Any => true,
        Test::Up => is_packet(item.kind) && item.dir == Dir::Up,
        Test::Down => is_packet(item.kind) && item.dir == Dir::Down,
        Test::Tlp => item.kind == ItemKind::Tlp,
        Test::Dllp => item.kind == ItemKind::Dllp,
        Test::LinkDown => item.kind == ItemKind::LinkDown,
        Test::Spoiled => is_spoiled(item),
        Test::Nullified => item.kind == ItemKind::Tlp && body(item) == Body::Nullified,
        Test::Kind(name) => is_name(name, item),
        Test::Number(n) => {
            item.kind == ItemKind::Tlp && u64::from(sequence_number(item.body)) == n
        }
        Test::Tag(n) => has_tag(n, item),
        Test::Requester(n) => has_requester(n, item),
        Test::Tc(n) => has_tc(n, item),
        Test::Before(time) => item.time < time,
        Test::After(time) => item.time > time,
    }
}

/// Whether a packet is spoiled.
fn is_spoiled(item: &Item) -> bool
    requires { IsLawful (view item.now) }
    ensures { result ≡ spec.spoiled item.now.kind (view item.now) }
{
    match item.kind {
        ItemKind::Tlp => body(item) == Body::Spoiled,
        ItemKind::Dllp => matches!(dllp_of(item.body), Decoded::BadCrc),
        ItemKind::LinkDown | ItemKind::Gap => false,
    }
}

/// Whether items of this kind are packets, which travel in a direction.
fn is_packet(kind: ItemKind) -> bool
    ensures { result ≡ spec.is_packet kind }
{
    match kind {
        ItemKind::Tlp | ItemKind::Dllp => true,
        ItemKind::LinkDown | ItemKind::Gap => false,
    }
}

/// Whether an item has this name.
#[tactic(auto, using(crate::proofs::Words::names_differ))]
fn is_name(name: Name, item: &Item) -> bool
    requires { IsLawful (view item.now) }
    ensures { result ≡ spec.is_name name (item_name (view item.now)) }
{
    match name_of(item) {
        Some(other) => other == name,
        None => false,
    }
}

fn has_tag(tag: u64, item: &Item) -> bool
    requires { IsLawful (view item.now) }
    ensures { result ≡ spec.is_field (λ f. f.tag) tag (fields_of (view item.now)) }
{
    match fields_of(item) {
        Some(tlp) => u64::from(tlp.tag) == tag,
        None => false,
    }
}

fn has_requester(requester: u64, item: &Item) -> bool
    requires { IsLawful (view item.now) }
    ensures { result ≡ spec.is_field (λ f. f.requester) requester (fields_of (view item.now)) }
{
    match fields_of(item) {
        Some(tlp) => u64::from(tlp.requester) == requester,
        None => false,
    }
}

fn has_tc(tc: u64, item: &Item) -> bool
    requires { IsLawful (view item.now) }
    ensures { result ≡ spec.is_field (λ f. f.tc) tc (fields_of (view item.now)) }
{
    match fields_of(item) {
        Some(tlp) => u64::from(tlp.tc) == tc,
        None => false,
    }
}

/// The fields of a whole TLP of the right size.
fn fields_of<'a>(item: &Item<'a>) -> Option<Tlp<'a>>
    requires { IsLawful (view item.now) }
    ensures { option_map fields result ≡ fields_of (view item.now) }
{
    match tlp_view(item)? {
        View::Whole(tlp) => Some(tlp),
        View::Undefined | View::WrongSize => None,
    }
}
