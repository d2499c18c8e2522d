//! Output to a writer of the system.
ghost use Rattle.std.specs.Prelude.{◌≡◌, ◌<◌, ◌≤◌, None, IfOk, OnErr, length, take};
ghost use Rattle.std.specs.Io.KnownBytes.{Appends};
ghost use Rattle.std.proofs.lemmas.Bool.{false≢true};
ghost use Rattle.pl_io.specs.Faults.{HasCause};
ghost use Rattle.pl_io.specs.Passed.{AppendsPart};

use crate::failed::{Failed, FaultCount};
use crate::sink::Sink;
use std::io;
use std::io::Write;

/// A writer, as that of standard output. It tells neither what was written nor its room.
#[derive(Drop)]
pub struct StdSink<W: Write> {
    out: W,
    faults: FaultCount,
}

impl<W: Write> StdSink<W> {
    /// A sink over this writer, with no fault.
    pub fn new(out: W) -> StdSink<W>
        ensures { ⟦<Self as Sink>⟧.faults result ≡ 0 }
    {
        StdSink {
            out,
            faults: FaultCount::new(),
        }
    }
}

/// Writes a front of the piece and flushes it, so that nothing waits in a buffer. How many bytes.
///
/// What the writer contains grows by that front; after an error by some front, since the flush may
/// be what failed.
fn write_through<W: Write>(out: &mut W, piece: &[u8]) -> io::Result<usize>
    ensures most { IfOk result (λ n. n ≤ length piece.now) }
    ensures passed { IfOk result (λ n.
        Appends (W.contents out.old) (W.contents out.new) (take n piece.now)) }
    ensures part { OnErr result (AppendsPart (W.contents out.old) (W.contents out.new) piece.now) }
{
    let count = out.write(piece)?;
    out.flush()?;
    Ok(count)
}

impl<W: Write> Sink for StdSink<W> {
    ghost written = { λ sink. None };

    ghost room = { λ sink. None };

    ghost faults = { λ sink. sink.faults.value };

    ghost room_is_below = { λ sink never. absurd (false≢true never) };

    /// A writer that takes nothing of a piece is at fault, and so is one that can't be flushed.
    fn write(&mut self, piece: &[u8]) -> Result<usize, Failed>
        ensures most { IfOk result (λ n. n ≤ length piece.now) }
        ensures some { IfOk result (λ n. 0 < length piece.now → 0 < n) }
        ensures passed { IfOk result (λ n.
            Appends (W.contents self.old.out) (W.contents self.new.out) (take n piece.now)) }
        ensures part { OnErr result (
            AppendsPart (W.contents self.old.out) (W.contents self.new.out) piece.now) }
        ensures cause { HasCause self.old.faults.value self.new.faults.value result }
        ensures never_falls { self.old.faults.value ≤ self.new.faults.value }
    {
        match write_through(&mut self.out, piece) {
            Ok(count) if count > 0 || piece.is_empty() => Ok(count),
            _ => Err(self.faults.raise()),
        }
    }
}
