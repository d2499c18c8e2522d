//! The items of a capture, each made as a record.
//! PCI Express Base Specification 5.0, chapter 3 (flow control initialization, Ack) and chapter 2
//! (memory requests, completions).
ghost use Rattle.pl_base.specs.declared.link.Dir.TheVariants.{Down, Up};
ghost use Rattle.std.specs.Prelude.{◌≡◌, ◌%◌, ◌<◌, ◌≤◌, ◌+◌, ◌*◌, get_or, length, replicate};
ghost use Rattle.pl_capture.specs.Record.{record_of};
ghost use Rattle.pl_tlp.specs.Fields.{fields};
ghost use Rattle.pl_tlp.specs.Fit.{Fits};
ghost use Rattle.pl_make.specs.Generated.{IsDraw, bring_up, dllp, round};
ghost use Rattle.pl_make.specs.Generated as spec;
ghost use Rattle.pl_make.specs.Left.{item_at, nothing, unread};
ghost use Rattle.pl_make.specs.Packets.{IsPlain};

use crate::draw::Draw;
use crate::packets::{LONGEST, ack, credits, frame};
use crate::position::{Group, Position};
use crate::record::Record;
use pl_base::{Class, Dir};
use pl_capture::{Item, ItemKind};
use pl_dllp::Stage;
use pl_tlp::{Kind, Tlp};

/// The requester of the reads: bus 1, device 0, function 0.
const REQUESTER: u16 = 0x0100;

impl Position {
    /// Makes the record of the item at this position.
    pub fn put_into(&self, out: &mut Record)
        ensures { unread out.new ≡ record_of (item_at self.now) }
    {
        match self.group {
            Group::FirstInit => put_bring_up(Stage::Init1, 1, self.index, out),
            Group::SecondInit => put_bring_up(Stage::Init2, 7, self.index, out),
            Group::Round => put_round(self.round, self.x, self.index, out),
        }
    }
}

/// Makes the record of an item of the bring-up, whose six items begin with the number `first`.
fn put_bring_up(stage: Stage, first: u64, index: u8, out: &mut Record)
    requires index { index < 6 }
    requires first { first ≤ 7 }
    ensures { unread out.new ≡ record_of (get_or (bring_up stage first) index nothing) }
{
    let time = first + u64::from(index);
    match index {
        0 => put_dllp(time, Dir::Down, &credits(stage, Class::P, 32, 64), out),
        1 => put_dllp(time, Dir::Down, &credits(stage, Class::Np, 32, 32), out),
        2 => put_dllp(time, Dir::Down, &credits(stage, Class::Cpl, 32, 64), out),
        3 => put_dllp(time, Dir::Up, &credits(stage, Class::P, 32, 64), out),
        4 => put_dllp(time, Dir::Up, &credits(stage, Class::Np, 32, 32), out),
        _ => put_dllp(time, Dir::Up, &credits(stage, Class::Cpl, 0, 0), out),
    }
}

/// Makes the record of an item of round k with the generator's number x.
fn put_round(k: u32, x: u64, index: u8, out: &mut Record)
    requires index { index < 6 }
    requires round { k < 1000000 }
    ensures { unread out.new ≡ record_of (get_or (round k x) index nothing) }
{
    let draw = Draw::of(x);
    let number = (k % 4096) as u16;
    let later = ((2 * k + 1) % 4096) as u16;
    let time = 13 + 6 * u64::from(k) + u64::from(index);
    match index {
        0 => put_read(time, k, &draw, out),
        1 => put_dllp(time, Dir::Down, &ack(number), out),
        2 => {
            let number = (2 * k % 4096) as u16;
            let left = draw.before + draw.behind;
            put_completion(time, number, k, left, draw.start(), draw.before, out);
        }
        3 => put_completion(time, later, k, draw.behind, draw.boundary, draw.behind, out),
        4 => put_dllp(time, Dir::Up, &ack(later), out),
        _ => {
            let header = ((33 + k) % 256) as u8;
            let bytes = credits(Stage::Update, Class::Np, header, 32);
            put_dllp(time, Dir::Down, &bytes, out);
        }
    }
}

/// Makes the record of the read of round k.
fn put_read(time: u64, k: u32, draw: &Draw, out: &mut Record)
    requires { IsDraw draw.now }
    ensures { unread out.new ≡ record_of (spec.tlp time Up (k % 4096) (spec.read k draw.now)) }
{
    let read = read(k, draw);
    put_tlp(time, Dir::Up, (k % 4096) as u16, &read, out);
}

/// Makes the record of a completion of `part` DW from `address` on, where `left` DW of the read of
/// round k are still to be answered.
fn put_completion(
    time: u64,
    number: u16,
    k: u32,
    left: u16,
    address: u64,
    part: u16,
    out: &mut Record,
)
    requires number { number < 4096 }
    requires some { 1 ≤ part }
    requires most { part ≤ 16 }
    requires left { part ≤ left }
    requires read { left ≤ 32 }
    ensures { unread out.new
        ≡ record_of (spec.tlp time Down number (spec.completion k left address part)) }
{
    let data = [(k % 256) as u8; 64];
    let completion = completion(k, left, address, part, &data[..4 * usize::from(part)]);
    put_tlp(time, Dir::Down, number, &completion, out);
}

/// The read of round k.
fn read(k: u32, draw: &Draw) -> Tlp<'static>
    requires { IsDraw draw.now }
    ensures { fields result ≡ spec.read k draw.now }
{
    Tlp {
        first_be: 0xf,
        last_be: 0xf,
        address: draw.start(),
        ..plain(Kind::MRd, draw.before + draw.behind, k)
    }
}

/// A completion with these data, `4 * part` bytes.
fn completion(k: u32, left: u16, address: u64, part: u16, payload: &[u8]) -> Tlp<'_>
    requires left { left ≤ 32 }
    requires payload { payload.now ≡ replicate (4 * part) (k % 256) }
    ensures { fields result ≡ spec.completion k left address part }
{
    Tlp {
        byte_count: 4 * left,
        lower: (address % 128) as u8,
        payload,
        ..plain(Kind::CplD, part, k)
    }
}

/// A TLP of round k with no data, whose other fields are 0.
fn plain(kind: Kind, length: u16, k: u32) -> Tlp<'static>
    ensures { fields result ≡ spec.plain kind length (k % 256) }
{
    Tlp {
        kind,
        wide: false,
        tc: 0,
        attr: 0,
        at: 0,
        ep: false,
        th: false,
        length,
        requester: REQUESTER,
        tag: (k % 256) as u16,
        first_be: 0,
        last_be: 0,
        address: 0,
        code: 0,
        routing: 0,
        completer: 0,
        status: 0,
        bcm: false,
        byte_count: 0,
        lower: 0,
        prefixes: &[],
        payload: &[],
        digest: None,
        header: &[],
    }
}

/// Makes the record of a TLP.
fn put_tlp(time: u64, dir: Dir, number: u16, tlp: &Tlp, out: &mut Record)
    requires number { number < 4096 }
    requires fits { Fits (fields tlp.now) }
    requires plain { IsPlain (fields tlp.now) }
    ensures { unread out.new ≡ record_of (spec.tlp time dir number (fields tlp.now)) }
{
    let mut body = [0; LONGEST];
    let size = frame(number, tlp, &mut body);
    out.put_item(&Item {
        kind: ItemKind::Tlp,
        dir,
        bad_end: false,
        time,
        body: &body[..size],
    });
}

/// Makes the record of a DLLP.
fn put_dllp(time: u64, dir: Dir, bytes: &[u8; 6], out: &mut Record)
    ensures { unread out.new ≡ record_of (dllp time dir bytes.now) }
{
    out.put_item(&Item {
        kind: ItemKind::Dllp,
        dir,
        bad_end: false,
        time,
        body: bytes,
    });
}
