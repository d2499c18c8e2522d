//! Lines that are gathered, so that many of them are written at once.
ghost use Rattle.std.specs.Prelude.{◌≡◌, ◌+◌, ◌<◌, ◌≤◌, [], length, OnErr, OnOk};
ghost use Rattle.arrayvec.specs.ArrayVec.{array_vec_len};
ghost use Rattle.pl_io.specs.Faults.{HasCause};
ghost use Rattle.pl_cli.specs.Progress.{AreGathered, tells};

use arrayvec::ArrayVec;
use pl_io::{Failed, Sink, write_all};

/// The bytes that are held at most.
pub(crate) const MOST_HELD: usize = 4096;

/// Bytes of lines that aren't written yet, in their order. It takes no memory of an allocator.
#[derive(Drop)]
pub(crate) struct Held {
    bytes: ArrayVec<u8, MOST_HELD>,
}

impl Held {
    /// Nothing is held.
    pub(crate) fn new() -> Held
        ensures { result.bytes.items ≡ [] }
    {
        Held {
            bytes: ArrayVec::new(),
        }
    }

    /// Holds a line behind those before it, which are written first where it doesn't fit.
    pub(crate) fn push<O: Sink>(&mut self, line: &[u8], out: &mut O) -> Result<(), Failed>
        requires short { length line.now ≤ MOST_HELD }
        ensures gathered { AreGathered result self.old.bytes.items self.new.bytes.items line.now
            (tells O.Sink out.old) (tells O.Sink out.new) }
        ensures cause { HasCause (O.faults out.old) (O.faults out.new) result }
    {
        match self.make_room(line.len(), out) {
            Ok(()) => match self.bytes.try_extend_from_slice(line) {
                Ok(()) => Ok(()),
                Err(_) => unreachable!(),
            },
            Err(failed) => Err(failed),
        }
    }

    /// Writes what is held where fewer bytes than these would fit behind it.
    fn make_room<O: Sink>(&mut self, size: usize, out: &mut O) -> Result<(), Failed>
        requires short { size ≤ MOST_HELD }
        ensures fits { OnOk result (array_vec_len self.new.bytes + size ≤ MOST_HELD) }
        ensures gathered { AreGathered result self.old.bytes.items self.new.bytes.items []
            (tells O.Sink out.old) (tells O.Sink out.new) }
        ensures cause { HasCause (O.faults out.old) (O.faults out.new) result }
    {
        if self.bytes.remaining_capacity() < size {
            self.write(out)
        } else {
            Ok(())
        }
    }

    /// Writes all that is held. After `Failed` a front of it was written.
    pub(crate) fn write<O: Sink>(&mut self, out: &mut O) -> Result<(), Failed>
        ensures none { OnOk result (self.new.bytes.items ≡ []) }
        ensures some { OnErr result (0 < array_vec_len self.old.bytes) }
        ensures gathered { AreGathered result self.old.bytes.items self.new.bytes.items []
            (tells O.Sink out.old) (tells O.Sink out.new) }
        ensures cause { HasCause (O.faults out.old) (O.faults out.new) result }
    {
        if self.bytes.is_empty() {
            return Ok(());
        }
        match write_all(out, self.bytes.as_slice()) {
            Ok(()) => {
                self.bytes.clear();
                Ok(())
            }
            Err(failed) => Err(failed),
        }
    }
}
