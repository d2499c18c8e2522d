//! The lines of a list: items, and the closing line.
//! PCI Express Base Specification 5.0, chapter 2 (TLP types), chapter 3 (DLLP types, sequence
//! numbers, spoiled and nullified TLPs).
ghost use Rattle.std.specs.Prelude.{◌≡◌, ◌+◌, ◌≤◌, ◌++◌, IsSome, length};
ghost use Rattle.arrayvec.specs.ArrayString.{array_string_len};
ghost use Rattle.pl_capture.specs.Entry.{view, IsLawful};
ghost use Rattle.pl_engine.specs.State.{state_of};
ghost use Rattle.pl_filter.specs.Items.{item_name};
ghost use Rattle.pl_report.specs.Lines as spec;

use crate::line::{Line, push_number};
use pl_base::{Body, Dir};
use pl_capture::{Item, ItemKind};
use pl_engine::{body, sequence_number};
use pl_filter::name_of;

/// `item I D tlp N K T`, `item I D dllp K T` or `item I link down T`: the number of the item, the
/// direction, the sequence number of a TLP, what the packet carries, and the time in picoseconds.
#[tactic(auto, unfolding(crate::specs::Lines::item_text))]
pub fn item_line(number: u64, item: &Item) -> Line
    requires { IsLawful (view item.now) }
    ensures { result.bytes ≡ spec.item_text number (view item.now) }
{
    let mut line = Line::new();
    line.push_str("item ");
    push_number(&mut line, number);
    push_packet(&mut line, item);
    line.push_str(" ");
    push_number(&mut line, item.time);
    line.push_str("\n");
    line
}

/// `end items I shown S verdicts V`: the items that were judged, those that were shown, and the
/// verdicts on all of them, shown or not.
#[tactic(auto, unfolding(crate::specs::Lines::list_closing_text))]
pub fn list_closing_line(items: u64, shown: u64, verdicts: u64) -> Line
    ensures { result.bytes ≡ spec.list_closing_text items shown verdicts }
{
    let mut line = Line::new();
    line.push_str("end items ");
    push_number(&mut line, items);
    line.push_str(" shown ");
    push_number(&mut line, shown);
    line.push_str(" verdicts ");
    push_number(&mut line, verdicts);
    line.push_str("\n");
    line
}

/// Appends what stands between the number of an item and its time.
fn push_packet(line: &mut Line, item: &Item)
    requires lawful { IsLawful (view item.now) }
    requires room { array_string_len line.old + 60 ≤ 160 }
    ensures bytes { line.new.bytes
        ≡ line.old.bytes ++ spec.packet_text item.now.kind (view item.now) }
    ensures length { array_string_len line.new ≤ array_string_len line.old + 60 }
{
    match item.kind {
        ItemKind::Tlp => {
            line.push_str(direction(item.dir));
            line.push_str(" tlp ");
            push_number(line, u64::from(sequence_number(item.body)));
            line.push_str(" ");
            line.push_str(tlp_text(item));
        }
        ItemKind::Dllp => {
            line.push_str(direction(item.dir));
            line.push_str(" dllp ");
            line.push_str(name_text(item));
        }
        ItemKind::LinkDown => line.push_str(" link down"),
        ItemKind::Gap => line.push_str(" gap"),
    }
}

fn direction(dir: Dir) -> &'static str
    ensures text { result.now ≡ spec.direction_text dir }
    ensures length { length result.now ≤ 5 }
{
    match dir {
        Dir::Down => " down",
        Dir::Up => " up",
    }
}

/// The name of a whole TLP, or how it was dropped. Only a dropped one has its LCRC computed twice.
#[tactic(auto, using(crate::proofs::ItemNames::text_is_short))]
fn tlp_text(item: &Item) -> &'static str
    requires lawful { IsLawful (view item.now) }
    requires tlp { item.now.kind ≡ ItemKind.Tlp }
    ensures text { let x = view item.now in
        result.now ≡ spec.tlp_text (state_of x) (item_name x) }
    ensures length { length result.now ≤ 26 }
{
    match name_of(item) {
        Some(name) => name.text(),
        None => match body(item) {
            Body::Nullified => "nullified",
            Body::Spoiled => "spoiled",
            Body::Whole => unreachable!(),
        },
    }
}

/// The name of an item that has one.
#[tactic(auto, using(crate::proofs::ItemNames::text_is_short))]
fn name_text(item: &Item) -> &'static str
    requires lawful { IsLawful (view item.now) }
    requires named { IsSome (item_name (view item.now)) }
    ensures text { result.now ≡ spec.name_text (item_name (view item.now)) }
    ensures length { length result.now ≤ 26 }
{
    match name_of(item) {
        Some(name) => name.text(),
        None => unreachable!(),
    }
}
