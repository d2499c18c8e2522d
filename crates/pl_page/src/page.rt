//! A page of bytes that aren't written yet.
ghost use Rattle.std.specs.Prelude.{◌≡◌, ◌≢◌, ◌+◌, ◌≤◌, ◌⊎◌, List, ℕ, [], length, take, OnOk, OnErr};
ghost use Rattle.pl_io.specs.Faults.{HasCause};
ghost use Rattle.pl_capture.specs.Entry.{view, IsLawful};
ghost use Rattle.pl_capture.specs.Record.{header_of, record_of, end_of};
ghost use Rattle.pl_page.specs.Gathers.{AreGathered, tells};

use pl_capture::{Item, write_end, write_header_of, write_item};
use pl_io::{Failed, Sink, write_all};
use std::marker::Model;

/// The bytes that a page holds at most. A capture's longest record has 4,172.
pub const ROOM: usize = 16_384;

/// The bytes of a capture's header, and of its end record.
const HEADER: usize = 16;

const END: usize = 20;
/// The bytes of a record before its body.
const HEAD: usize = 12;

/// Bytes in the order in which they came, which aren't written yet. It takes no memory of an
/// allocator.
///
/// Where what comes doesn't fit behind them, they are written first. After `Failed` a part of what
/// was held and came was written, and no more is to be pushed.
#[derive(Drop)]
pub struct Page {
    bytes: [u8; ROOM],
    filled: usize,
}

impl Model for Page {
    ghost use Rattle.std.specs.Prelude.{◌≤◌, List, ℕ, take};
    ghost use Rattle.pl_page.specs.declared.page.TheConstants.{ROOM};

    ghost Value = { List ℕ };

    ghost view = { λ page. take page.filled page.bytes };

    ghost invariant = { λ page. page.filled ≤ ROOM };
}

impl Page {
    /// Nothing is held.
    pub fn new() -> Page
        ensures { result ≡ [] }
    {
        Page {
            bytes: [0; ROOM],
            filled: 0,
        }
    }

    /// Holds bytes behind those before them.
    pub fn push<O: Sink>(&mut self, bytes: &[u8], out: &mut O) -> Result<(), Failed>
        requires short { length bytes.now ≤ ROOM }
        ensures gathered { AreGathered result self.old self.new bytes.now
            (tells O.Sink out.old) (tells O.Sink out.new) }
        ensures cause { HasCause (O.faults out.old) (O.faults out.new) result }
    {
        match self.make_room(bytes.len(), out) {
            Ok(()) => {
                self.bytes[self.filled..self.filled + bytes.len()].copy_from_slice(bytes);
                self.filled += bytes.len();
                Ok(())
            }
            Err(failed) => Err(failed),
        }
    }

    /// Holds the header of a capture of this version, in mode 0, behind the bytes before it.
    pub fn push_header<O: Sink>(&mut self, version: u16, out: &mut O) -> Result<(), Failed>
        requires { version ≡ 1 ⊎ version ≡ 2 }
        ensures gathered { AreGathered result self.old self.new (header_of version 0)
            (tells O.Sink out.old) (tells O.Sink out.new) }
        ensures cause { HasCause (O.faults out.old) (O.faults out.new) result }
    {
        match self.make_room(HEADER, out) {
            Ok(()) => match write_header_of(version, 0, &mut self.bytes[self.filled..]) {
                Some(size) => {
                    self.filled += size;
                    Ok(())
                }
                None => unreachable!(),
            },
            Err(failed) => Err(failed),
        }
    }

    /// Holds the record of an item behind the bytes before it.
    pub fn push_item<O: Sink>(&mut self, item: &Item, out: &mut O) -> Result<(), Failed>
        requires { IsLawful (view item.now) }
        ensures gathered { AreGathered result self.old self.new (record_of (view item.now))
            (tells O.Sink out.old) (tells O.Sink out.new) }
        ensures cause { HasCause (O.faults out.old) (O.faults out.new) result }
    {
        match self.make_room(HEAD + item.body.len(), out) {
            Ok(()) => match write_item(item, &mut self.bytes[self.filled..]) {
                Some(size) => {
                    self.filled += size;
                    Ok(())
                }
                None => unreachable!(),
            },
            Err(failed) => Err(failed),
        }
    }

    /// Holds the end record of a capture behind the bytes before it: the number of records before
    /// it, and its time in picoseconds.
    pub fn push_end<O: Sink>(&mut self, count: u64, time: u64, out: &mut O) -> Result<(), Failed>
        ensures gathered { AreGathered result self.old self.new (end_of count time)
            (tells O.Sink out.old) (tells O.Sink out.new) }
        ensures cause { HasCause (O.faults out.old) (O.faults out.new) result }
    {
        match self.make_room(END, out) {
            Ok(()) => match write_end(count, time, &mut self.bytes[self.filled..]) {
                Some(size) => {
                    self.filled += size;
                    Ok(())
                }
                None => unreachable!(),
            },
            Err(failed) => Err(failed),
        }
    }

    /// Writes what is held where fewer bytes than these would fit behind it.
    fn make_room<O: Sink>(&mut self, size: usize, out: &mut O) -> Result<(), Failed>
        requires short { size ≤ ROOM }
        ensures fits { OnOk result (length self.new + size ≤ ROOM) }
        ensures gathered { AreGathered result self.old self.new []
            (tells O.Sink out.old) (tells O.Sink out.new) }
        ensures cause { HasCause (O.faults out.old) (O.faults out.new) result }
    {
        if ROOM - self.filled < size {
            self.write(out)
        } else {
            Ok(())
        }
    }

    /// Writes all that is held. After `Failed` a part of it was written.
    pub fn write<O: Sink>(&mut self, out: &mut O) -> Result<(), Failed>
        ensures none { OnOk result (self.new ≡ []) }
        ensures some { OnErr result (self.old ≢ []) }
        ensures gathered { AreGathered result self.old self.new []
            (tells O.Sink out.old) (tells O.Sink out.new) }
        ensures cause { HasCause (O.faults out.old) (O.faults out.new) result }
    {
        if self.filled == 0 {
            return Ok(());
        }
        match write_all(out, &self.bytes[..self.filled]) {
            Ok(()) => {
                self.filled = 0;
                Ok(())
            }
            Err(failed) => Err(failed),
        }
    }
}
