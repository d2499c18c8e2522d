//! Files that can be opened by name and read, one at a time.
ghost use Rattle.std.specs.Prelude.{◌≡◌, ◌<◌, ◌≤◌, List, ℕ, Bool, true, false, length, take};
ghost use Rattle.std.specs.Prelude.{Option, Some, IfOk, OnOk, OnErr, IsOk, IsSome};
ghost use Rattle.pl_io.specs.Faults.{HasCause, last_count, raised};
ghost use Rattle.pl_io.specs.Told.{ahead, AtEnd};

use crate::failed::Failed;

/// Named files, of which at most one is open. No call changes what is under any name.
pub trait Shelf {
    /// Whether the shelf tells its files.
    ghost told: { Self → Bool };

    /// The bytes of the file under a name, or none.
    ghost file: { Self → List ℕ → Option (List ℕ) };

    /// Whether a file is open. This is always told.
    ghost is_open: { Self → Bool };

    /// How often `open` was called, whatever it answered. This is always told.
    ghost opens: { Self → ℕ };

    /// The name of the open file, where the shelf tells its files.
    ghost open_name: { Self → Option (List ℕ) };

    /// What is left of the open file, where it is told.
    ghost rest: { Self → Option (List ℕ) };

    /// Whether the shelf is sure: no read fails, and no opening of one of its files.
    ghost sure: { Self → Bool };

    /// How often a call has failed.
    ghost faults: { Self → ℕ };

    /// Opens the file of this name at its beginning. A file that was open before is closed.
    ///
    /// After `Failed` no file is open.
    fn open(&mut self, name: &str) -> Result<(), Failed>
        ensures opened { OnOk result (is_open self.new ≡ true) }
        ensures closed { OnErr result (is_open self.new ≡ false) }
        ensures whole { OnOk result (told self.old ≡ true →
            IsSome (rest self.new) × (rest self.new ≡ file self.old name.now)) }
        ensures counted { opens self.new ≡ raised (opens self.old) }
        ensures named { OnOk result (told self.old ≡ true → open_name self.new ≡ Some name.now) }

        // What is under the names stays as it was, and as far told.
        ensures still_told { told self.new ≡ told self.old }
        ensures files { (other : List ℕ) → file self.new other ≡ file self.old other }

        ensures never_fails { sure self.old ≡ true → IsSome (file self.old name.now) → IsOk result }
        ensures still_sure { OnOk result (sure self.old ≡ true → sure self.new ≡ true) }
        ensures cause { HasCause (faults self.old) (faults self.new) result }
        ensures never_falls { faults self.old ≤ faults self.new };

    /// Reads into the front of `buf`, and answers how many bytes: 0 only at the end of the file.
    ///
    /// The file stays open. After `Failed` what is left of it is as before.
    fn read(&mut self, buf: &mut [u8]) -> Result<usize, Failed>
        requires opened { is_open self.old ≡ true }
        requires buffer { 0 < length buf.old }
        ensures opened { is_open self.new ≡ true }
        ensures most { IfOk result (λ n. n ≤ length buf.new) }
        ensures bytes { IfOk result (λ n. rest self.old ≡ ahead (take n buf.new) (rest self.new)) }
        ensures end { IfOk result (λ n. n ≡ 0 → AtEnd (rest self.old)) }
        ensures err { OnErr result (rest self.new ≡ rest self.old) }
        ensures opens { opens self.new ≡ opens self.old }
        ensures name_kept { open_name self.new ≡ open_name self.old }

        // What is under the names stays as it was, and as far told.
        ensures still_told { told self.new ≡ told self.old }
        ensures files { (other : List ℕ) → file self.new other ≡ file self.old other }

        ensures never_fails { sure self.old ≡ true → IsOk result }
        ensures still_sure { OnOk result (sure self.old ≡ true → sure self.new ≡ true) }
        ensures cause { HasCause (faults self.old) (faults self.new) result }
        ensures never_falls { faults self.old ≤ faults self.new };

    /// A sure shelf tells its files.
    ghost sure_is_told: { (shelf : Self) → sure shelf ≡ true → told shelf ≡ true };

    /// The count of a sure shelf is below its last value.
    ghost sure_is_below: { (shelf : Self) → sure shelf ≡ true → faults shelf < last_count };
}
