//! Where output goes.
ghost use Rattle.std.specs.Prelude.{◌≡◌, ◌+◌, ◌<◌, ◌≤◌, List, ℕ, length, take};
ghost use Rattle.std.specs.Prelude.{Option, IfOk, OnOk, OnErr, IsOk, IsSome};
ghost use Rattle.pl_io.specs.Faults.{HasCause, last_count};
ghost use Rattle.pl_io.specs.Told.{plus, HasRoom, Lowered, Partly};

use crate::failed::Failed;

/// Bytes are appended to it. It may tell what was written, and for how many bytes it has room.
pub trait Sink {
    /// What was written, where it is told.
    ghost written: { Self → Option (List ℕ) };

    /// How many more bytes it takes without fail, where it is told.
    ghost room: { Self → Option ℕ };

    /// How often a call has failed.
    ghost faults: { Self → ℕ };

    /// Appends the front of `piece`, and answers how many bytes: at least 1 unless `piece` is
    /// empty.
    ///
    /// After `Failed` nothing was appended.
    fn write(&mut self, piece: &[u8]) -> Result<usize, Failed>
        ensures most { IfOk result (λ n. n ≤ length piece.now) }
        ensures some { IfOk result (λ n. 0 < length piece.now → 0 < n) }
        ensures bytes { IfOk result (λ n.
            written self.new ≡ plus (written self.old) (take n piece.now)) }
        ensures err { OnErr result (written self.new ≡ written self.old) }

        // A piece that fits doesn't fail, and takes its bytes of the room.
        ensures fits { HasRoom (room self.old) (length piece.now) → IsOk result }
        ensures room_left { IfOk result (λ n. (k : ℕ) →
            HasRoom (room self.old) (n + k) → HasRoom (room self.new) k) }
        ensures room_taken { IfOk result (λ n. Lowered (room self.old) n (room self.new)) }

        ensures cause { HasCause (faults self.old) (faults self.new) result }
        ensures never_falls { faults self.old ≤ faults self.new };

    /// Where the room is told, the count is below its last value.
    ghost room_is_below: { (sink : Self) → IsSome (room sink) → faults sink < last_count };
}

/// Appends all the bytes. After `Failed` a prefix of them was appended.
pub fn write_all<S: Sink>(sink: &mut S, bytes: &[u8]) -> Result<(), Failed>
    ensures appended { OnOk result (S.written sink.new ≡ plus (S.written sink.old) bytes.now) }
    ensures part { OnErr result (Partly (S.written sink.old) (S.written sink.new) bytes.now) }
    ensures fits { HasRoom (S.room sink.old) (length bytes.now) → IsOk result }
    ensures room_left { OnOk result ((k : ℕ) →
        HasRoom (S.room sink.old) (length bytes.now + k) → HasRoom (S.room sink.new) k) }
    ensures room_taken { OnOk result (
        Lowered (S.room sink.old) (length bytes.now) (S.room sink.new)) }
    ensures cause { HasCause (S.faults sink.old) (S.faults sink.new) result }
    ensures never_falls { S.faults sink.old ≤ S.faults sink.new }
{
    let mut done = 0;
    while done < bytes.len() {
        done += sink.write(&bytes[done..])?;
    }
    Ok(())
}
