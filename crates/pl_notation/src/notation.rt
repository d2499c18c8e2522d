//! A capture that grows by one item a call.
ghost use Rattle.std.specs.Prelude.{◌≤◌, ◌<◌, length};
ghost use Rattle.pl_capture.specs.Entry.{view, IsLawful};
ghost use Rattle.pl_dllp.specs.Encodable.{IsEncodable};

use pl_base::{Body, Class, Dir};
use pl_capture::{Item, ItemKind, write_end, write_header, write_item};
use pl_crc::{crc16, crc32};
use pl_dllp::{Dllp, Fc, Stage, encode};
use std::alloc::{AllocError, Global};

/// A capture, without its end record yet.
#[derive(Drop)]
pub struct Notation {
    bytes: Vec<u8>,
    items: u64,
}

impl Notation {
    /// The header of a capture of this mode, 0 for one that is judged.
    pub fn new(alloc: Global, mode: u8) -> Result<Notation, AllocError> {
        let mut header = [0; 16];
        let _ = write_header(mode, &mut header);
        let bytes = Vec::from_slice(alloc, &header)?;
        Ok(Notation { bytes, items: 0 })
    }

    /// Both ends advertise unlimited credits on VC 0, InitFC1 and then InitFC2 for P, NP and Cpl:
    /// twelve items.
    pub fn bring_up(&mut self) -> Result<(), AllocError> {
        for stage in [Stage::Init1, Stage::Init2] {
            for dir in [Dir::Down, Dir::Up] {
                self.credits(dir, stage, Class::P, 0, 0)?;
                self.credits(dir, stage, Class::Np, 0, 0)?;
                self.credits(dir, stage, Class::Cpl, 0, 0)?;
            }
        }
        Ok(())
    }

    /// An advertisement or update of header and data credits of a class on VC 0, not scaled.
    pub fn credits(
        &mut self,
        dir: Dir,
        stage: Stage,
        class: Class,
        header: u8,
        units: u16,
    ) -> Result<(), AllocError>
        requires { units < 4096 }
    {
        self.packet(
            dir,
            &Dllp::Flow(Fc {
                stage,
                class,
                vc: 0,
                hdr_scale: 0,
                hdr: header,
                data_scale: 0,
                units,
            }),
        )
    }

    /// An Ack.
    pub fn ack(&mut self, dir: Dir, number: u16) -> Result<(), AllocError>
        requires { number < 4096 }
    {
        self.packet(dir, &Dllp::Ack(number))
    }

    /// A DLLP by its fields.
    pub fn packet(&mut self, dir: Dir, dllp: &Dllp) -> Result<(), AllocError>
        requires { IsEncodable dllp.now }
    {
        self.dllp_as_captured(dir, encode(dllp))
    }

    /// A DLLP of these four bytes.
    pub fn dllp(&mut self, dir: Dir, bytes: [u8; 4]) -> Result<(), AllocError> {
        let [first, second] = crc16(&bytes);
        self.dllp_as_captured(dir, [bytes[0], bytes[1], bytes[2], bytes[3], first, second])
    }

    /// A DLLP with its CRC, right or wrong.
    pub fn dllp_as_captured(&mut self, dir: Dir, bytes: [u8; 6]) -> Result<(), AllocError> {
        self.item(&Item {
            kind: ItemKind::Dllp,
            dir,
            bad_end: false,
            time: self.next(),
            body: &bytes,
        })
    }

    /// A TLP with this sequence number that arrived so: a nullified one has a bad end and the
    /// complement of its LCRC, a spoiled one has a wrong LCRC.
    pub fn tlp(&mut self, dir: Dir, number: u16, tlp: &[u8], body: Body) -> Result<(), AllocError>
        requires { length tlp.now ≤ 4154 }
    {
        let mut bytes = [0; 4160];
        let size = tlp.len() + 2;
        bytes[..2].copy_from_slice(&number.to_be_bytes());
        bytes[2..size].copy_from_slice(tlp);
        let mut lcrc = crc32(&bytes[..size]);
        match body {
            Body::Whole => {}
            Body::Nullified => lcrc = [!lcrc[0], !lcrc[1], !lcrc[2], !lcrc[3]],
            Body::Spoiled => lcrc[0] ^= 1,
        }
        bytes[size..size + 4].copy_from_slice(&lcrc);
        self.tlp_as_captured(dir, body == Body::Nullified, &bytes[..size + 4])
    }

    /// A TLP item with its number, LCRC and end as they were captured.
    pub fn tlp_as_captured(
        &mut self,
        dir: Dir,
        bad_end: bool,
        body: &[u8],
    ) -> Result<(), AllocError>
        requires { (6 ≤ length body.now) × (length body.now ≤ 4160) }
    {
        self.item(&Item {
            kind: ItemKind::Tlp,
            dir,
            bad_end,
            time: self.next(),
            body,
        })
    }

    /// A link down.
    pub fn link_down(&mut self) -> Result<(), AllocError> {
        self.item(&Item {
            kind: ItemKind::LinkDown,
            dir: Dir::Down,
            bad_end: false,
            time: self.next(),
            body: &[],
        })
    }

    /// A gap. A capture that has one is of version 2.
    pub fn gap(&mut self) -> Result<(), AllocError> {
        if let Some(version) = self.bytes.get_mut(9) {
            *version = 2;
        }
        self.item(&Item {
            kind: ItemKind::Gap,
            dir: Dir::Down,
            bad_end: false,
            time: self.next(),
            body: &[],
        })
    }

    /// An item with all its fields.
    pub fn item(&mut self, item: &Item) -> Result<(), AllocError>
        requires { IsLawful (view item.now) }
    {
        let mut record = [0; 4172];
        if let Some(size) = write_item(item, &mut record) {
            self.bytes.extend_from_slice(&record[..size])?;
            self.items = self.items.saturating_add(1);
        }
        Ok(())
    }

    /// The capture with its end record.
    pub fn end(self) -> Result<Vec<u8>, AllocError> {
        let Notation { mut bytes, items } = self;
        let mut record = [0; 20];
        let _ = write_end(items, 0, &mut record);
        bytes.extend_from_slice(&record)?;
        Ok(bytes)
    }

    /// Where the capture's memory comes from.
    pub(crate) fn allocator(&self) -> Global {
        *self.bytes.allocator()
    }

    /// The number of the next item, which is also its time.
    pub(crate) fn next(&self) -> u64 {
        self.items.saturating_add(1)
    }
}
