//! The archive as a trait: what it keeps, and what each of its calls answers.
ghost use Rattle.std.specs.Prelude.{◌≡◌, ◌<◌, ◌≤◌, ℕ, Bool, true, option_map, length, IfOk, IfSome};
ghost use Rattle.std.specs.Prelude.{OnErr};
ghost use Rattle.pl_io.specs.Faults.{last_count};
ghost use Rattle.pl_keeper.specs.Archive.{Archive, longest_body, profile_at, capture_at};
ghost use Rattle.pl_keeper.specs.Archive.{captures_of};
ghost use Rattle.pl_keeper.specs.Puts.{put_of_profile, put_of_capture, after_profile};
ghost use Rattle.pl_keeper.specs.Puts.{after_capture};
ghost use Rattle.pl_keeper.specs.Counts.{IsCounted, IsSure};
ghost use Rattle.pl_keeper.specs.Listing.{found_of, Lists, Ascends};

use crate::error::KeepError;
use std::alloc::Global;
use std::marker::Model;

/// What a put answers. Only `New` changes the archive.
///
/// Where the row is there, the answer is `OtherProfile`, `OtherBytes` or `Same`, the first that
/// applies. Where it isn't, the answer is `NoProfile`, `Full` or `New`, the first that applies.
#[derive(Clone, Copy, Debug, PartialEq, Eq)]
pub enum Put {
    /// There was no such row, and it was added.
    New,
    /// The row is there, with the same bytes.
    Same,
    /// The capture is there, under another profile.
    OtherProfile,
    /// The row is there, with other bytes.
    OtherBytes {
        /// How many bytes it has.
        length: u64,
        /// The first place, counted from 0, where one of the two has another byte or has ended.
        place: u64,
    },
    /// The bench has no profile of the capture's name.
    NoProfile,
    /// The bench has 16 profiles, or for a capture 64 captures.
    Full,
}

/// A capture that was found.
#[derive(Debug, Drop)]
pub struct Stored {
    /// The name of the profile under which it was stored.
    pub profile: String,
    pub bytes: Vec<u8>,
}

impl Model for Stored {
    ghost use Rattle.std.specs.Prelude.{string_bytes};
    ghost use Rattle.pl_keeper.specs.Listing.{Found};

    ghost Value = { Found };

    ghost view = { λ s. record { profile = string_bytes s.profile; bytes = s.bytes.items } };
}

/// One line of the list of a bench's captures.
#[derive(Debug, Drop)]
pub struct KeyRow {
    pub key: String,
    /// The name of the capture's profile.
    pub profile: String,
    /// How many bytes the capture has.
    pub length: u64,
}

impl Model for KeyRow {
    ghost use Rattle.std.specs.Prelude.{string_bytes};
    ghost use Rattle.pl_keeper.specs.Listing.{Line};

    ghost Value = { Line };

    ghost view = { λ r. record {
      key = string_bytes r.key;
      profile = string_bytes r.profile;
      length = r.length;
    } };
}

/// Profiles by bench and name, captures by bench and key.
///
/// After an answer other than `New`, and after either error, the archive is as it was. What a call
/// says of the archive is said under `lives` of the keeper as the call leaves it.
pub trait Keeper {
    /// The keeper holds this archive.
    ghost tells: { Self → Archive → Type 0 };

    /// Nothing outside has spoiled what it holds: what was written came back, and nobody else wrote
    /// it.
    ghost lives: { Self → Type 0 };

    /// Whether the keeper is sure: no call fails.
    ghost sure: { Self → Bool };

    /// How often a call has failed.
    ghost faults: { Self → ℕ };

    /// The bytes of a profile, or none where the bench has no profile of this name.
    fn profile(
        &mut self,
        alloc: Global,
        bench: &str,
        name: &str,
    ) -> Result<Option<Vec<u8>>, KeepError>
        ensures found { lives self.new → (a : Archive) → tells self.old a →
            IfOk result (λ found. option_map (λ bytes. bytes.items) found ≡ option_map
            (λ p. p.bytes) (profile_at a bench.now name.now)) }
        ensures short { IfOk result (λ found. IfSome found
            (λ bytes. length bytes.items ≤ longest_body)) }
        ensures same { lives self.new → (a : Archive) → tells self.old a → tells self.new a }
        ensures lived { lives self.new → lives self.old }
        ensures counted { IsCounted (faults self.old) (faults self.new) result }
        ensures never_falls { faults self.old ≤ faults self.new }
        ensures sure { IsSure (sure self.old) (sure self.new) result };

    /// Stores a profile where the bench has none of this name.
    fn put_profile(
        &mut self,
        alloc: Global,
        bench: &str,
        name: &str,
        bytes: &[u8],
    ) -> Result<Put, KeepError>
        requires { length bytes.now ≤ longest_body }
        ensures answer { lives self.new → (a : Archive) → tells self.old a →
            IfOk result (λ put. put ≡ put_of_profile a (record {
              bench = bench.now;
              name = name.now;
              bytes = bytes.now;
            })) }
        ensures rows { lives self.new → (a : Archive) → tells self.old a →
            IfOk result (λ put. tells self.new (after_profile put a (record {
              bench = bench.now;
              name = name.now;
              bytes = bytes.now;
            }))) }
        ensures err { lives self.new → (a : Archive) → tells self.old a →
            OnErr result (tells self.new a) }
        ensures lived { lives self.new → lives self.old }
        ensures counted { IsCounted (faults self.old) (faults self.new) result }
        ensures never_falls { faults self.old ≤ faults self.new }
        ensures sure { IsSure (sure self.old) (sure self.new) result };

    /// A capture and the name of its profile, or none where the bench has no capture of this key.
    fn capture(
        &mut self,
        alloc: Global,
        bench: &str,
        key: &str,
    ) -> Result<Option<Stored>, KeepError>
        ensures found { lives self.new → (a : Archive) → tells self.old a →
            IfOk result (λ found. found ≡ option_map found_of (capture_at a bench.now key.now)) }
        ensures short { IfOk result (λ found. IfSome found
            (λ stored. length stored.bytes ≤ longest_body)) }
        ensures same { lives self.new → (a : Archive) → tells self.old a → tells self.new a }
        ensures lived { lives self.new → lives self.old }
        ensures counted { IsCounted (faults self.old) (faults self.new) result }
        ensures never_falls { faults self.old ≤ faults self.new }
        ensures sure { IsSure (sure self.old) (sure self.new) result };

    /// Stores a capture where the bench has none of this key.
    fn put_capture(
        &mut self,
        alloc: Global,
        bench: &str,
        key: &str,
        profile: &str,
        bytes: &[u8],
    ) -> Result<Put, KeepError>
        requires { length bytes.now ≤ longest_body }
        ensures answer { lives self.new → (a : Archive) → tells self.old a →
            IfOk result (λ put. put ≡ put_of_capture a (record {
              bench = bench.now;
              key = key.now;
              profile = profile.now;
              bytes = bytes.now;
            })) }
        ensures rows { lives self.new → (a : Archive) → tells self.old a →
            IfOk result (λ put. tells self.new (after_capture put a (record {
              bench = bench.now;
              key = key.now;
              profile = profile.now;
              bytes = bytes.now;
            }))) }
        ensures err { lives self.new → (a : Archive) → tells self.old a →
            OnErr result (tells self.new a) }
        ensures lived { lives self.new → lives self.old }
        ensures counted { IsCounted (faults self.old) (faults self.new) result }
        ensures never_falls { faults self.old ≤ faults self.new }
        ensures sure { IsSure (sure self.old) (sure self.new) result };

    /// The captures of a bench, in ascending order of key.
    fn keys(&mut self, alloc: Global, bench: &str) -> Result<Vec<KeyRow>, KeepError>
        ensures listed { lives self.new → (a : Archive) → tells self.old a →
            IfOk result (λ rows. Lists (captures_of a bench.now) rows.items) }
        ensures ascending { lives self.new → (a : Archive) → tells self.old a →
            IfOk result (λ rows. Ascends rows.items) }
        ensures same { lives self.new → (a : Archive) → tells self.old a → tells self.new a }
        ensures lived { lives self.new → lives self.old }
        ensures counted { IsCounted (faults self.old) (faults self.new) result }
        ensures never_falls { faults self.old ≤ faults self.new }
        ensures sure { IsSure (sure self.old) (sure self.new) result };

    /// The count of a sure keeper is below its last value.
    ghost sure_is_below: { (keeper : Self) → sure keeper ≡ true → faults keeper < last_count };
}
