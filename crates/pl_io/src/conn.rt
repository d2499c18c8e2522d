//! One connection to a peer.
ghost use Rattle.std.specs.Prelude.{◌≡◌, ◌+◌, ◌<◌, ◌≤◌, List, ℕ, length, take};
ghost use Rattle.std.specs.Prelude.{Option, IfOk, OnOk, OnErr, IsOk, IsSome};
ghost use Rattle.pl_io.specs.CutShort.{CutShort};
ghost use Rattle.pl_io.specs.Faults.{HasCause, last_count};
ghost use Rattle.pl_io.specs.Told.{plus, ahead, AtEnd, HasRoom, Lowered};

use crate::failed::Failed;

/// Bytes come from a peer, and bytes are sent to it. It has one count of faults for both.
pub trait Conn {
    /// What is still to come from the peer, where it is told.
    ghost incoming: { Self → Option (List ℕ) };

    /// What was written, where it is told.
    ghost written: { Self → Option (List ℕ) };

    /// How many more bytes it takes, where it is told. Then no read fails.
    ghost room: { Self → Option ℕ };

    /// How often a call has failed.
    ghost faults: { Self → ℕ };

    /// Reads into the front of `buf`, and answers how many bytes: 0 only where no more come.
    ///
    /// After `Failed` what comes is as before.
    fn read(&mut self, buf: &mut [u8]) -> Result<usize, Failed>
        requires { 0 < length buf.old }
        ensures most { IfOk result (λ n. n ≤ length buf.new) }
        ensures bytes { IfOk result (λ n.
            incoming self.old ≡ ahead (take n buf.new) (incoming self.new)) }
        ensures end { IfOk result (λ n. n ≡ 0 → AtEnd (incoming self.old)) }
        ensures err { OnErr result (incoming self.new ≡ incoming self.old) }
        ensures written { written self.new ≡ written self.old }
        ensures never_fails { IsSome (room self.old) → IsOk result }
        ensures room { IsSome (room self.old) → room self.new ≡ room self.old }
        ensures cause { HasCause (faults self.old) (faults self.new) result }
        ensures never_falls { faults self.old ≤ faults self.new };

    /// Sends the front of `piece`, and answers how many bytes: at least 1 unless `piece` is empty.
    ///
    /// After `Failed` nothing was sent.
    fn write(&mut self, piece: &[u8]) -> Result<usize, Failed>
        ensures most { IfOk result (λ n. n ≤ length piece.now) }
        ensures some { IfOk result (λ n. 0 < length piece.now → 0 < n) }
        ensures bytes { IfOk result (λ n.
            written self.new ≡ plus (written self.old) (take n piece.now)) }
        ensures err { OnErr result (written self.new ≡ written self.old) }
        ensures incoming { incoming self.new ≡ incoming self.old }

        // A piece that fits doesn't fail, and takes its bytes of the room.
        ensures fits { HasRoom (room self.old) (length piece.now) → IsOk result }
        ensures room_left { IfOk result (λ n. (k : ℕ) →
            HasRoom (room self.old) (n + k) → HasRoom (room self.new) k) }
        ensures room_taken { IfOk result (λ n. Lowered (room self.old) n (room self.new)) }

        ensures cause { HasCause (faults self.old) (faults self.new) result }
        ensures never_falls { faults self.old ≤ faults self.new };

    /// Where the room is told, the count is below its last value.
    ghost room_is_below: { (conn : Self) → IsSome (room conn) → faults conn < last_count };
}

/// Sends all the bytes. After `Failed` a proper prefix of them was sent.
pub fn send_all<C: Conn>(conn: &mut C, bytes: &[u8]) -> Result<(), Failed>
    ensures appended { OnOk result (C.written conn.new ≡ plus (C.written conn.old) bytes.now) }
    ensures part { OnErr result (CutShort (C.written conn.old) (C.written conn.new) bytes.now) }
    ensures incoming { C.incoming conn.new ≡ C.incoming conn.old }
    ensures fits { HasRoom (C.room conn.old) (length bytes.now) → IsOk result }
    ensures room_left { OnOk result ((k : ℕ) →
        HasRoom (C.room conn.old) (length bytes.now + k) → HasRoom (C.room conn.new) k) }
    ensures room_taken { OnOk result (
        Lowered (C.room conn.old) (length bytes.now) (C.room conn.new)) }
    ensures cause { HasCause (C.faults conn.old) (C.faults conn.new) result }
    ensures never_falls { C.faults conn.old ≤ C.faults conn.new }
{
    let mut done = 0;
    while done < bytes.len() {
        done += conn.write(&bytes[done..])?;
    }
    Ok(())
}
