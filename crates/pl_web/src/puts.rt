//! What a request to store something is answered from the rows, and what it makes of them.
ghost use Rattle.std.specs.Prelude.{◌≡◌, ◌≤◌, IfOk, IsOk, length, true};
ghost use Rattle.pl_keeper.specs.Archive.{Archive, longest_body};
ghost use Rattle.pl_keeper.specs.Puts.{put_of_capture, put_of_profile};
ghost use Rattle.pl_profile.specs.ProfileOf.{profile_of};
ghost use Rattle.pl_web.specs.Answers.{Answers, IsAnswer};
ghost use Rattle.pl_web.specs.Ended.{KeeperCause, OfKeeper, OnlyMemory};
ghost use Rattle.pl_web.specs.Ended.{StaysSure};
ghost use Rattle.pl_web.specs.Puts.{capture_stored, capture_sent, profile_stored, profile_sent};
ghost use Rattle.pl_web.specs.Puts.{put_answer};

use crate::bodies;
use crate::ended::Ended;
use crate::judging::{Judging, judge, read_profile, refuse_profile};
use crate::replies::{ended_by, error, in_json};
use crate::reply::Reply;
use pl_head::Status;
use pl_keeper::{Keeper, MOST_CAPTURES, MOST_PROFILES, Put};
use std::alloc::{AllocError, Global};

/// The reply to a put of `sent` bytes, with the body that tells of the row and was made before it.
fn reply_to_put(alloc: Global, put: Put, row: Vec<u8>, sent: u64, most: u64) -> Result<Reply, Ended>
    ensures answer { IfOk result (λ reply. IsAnswer (put_answer row.items sent most put) reply) }
    ensures memory { OnlyMemory result }
    ensures new { put ≡ Put.New → IsOk result }
{
    match put {
        Put::New => in_json(Status::Created, Ok(row)),
        Put::Same => in_json(Status::Success, Ok(row)),
        Put::OtherProfile => error(alloc, Status::Conflict, "other profile"),
        Put::OtherBytes { length, place } => {
            in_json(
                Status::Conflict,
                bodies::difference(alloc, length, place, sent),
            )
        }
        Put::NoProfile => error(alloc, Status::NotFound, "no profile"),
        Put::Full => in_json(Status::Conflict, bodies::limit(alloc, "full", most)),
    }
}

/// Stores the text of a profile. Memory for the reply to a new row is taken before it is stored.
fn put_profile<K: Keeper>(
    alloc: Global,
    keeper: &mut K,
    bench: &str,
    name: &str,
    bytes: &[u8],
) -> Result<Reply, Ended>
    requires short { length bytes.now ≤ longest_body }
    ensures answers { K.lives keeper.new → (a : Archive) → K.tells keeper.old a →
        Answers (profile_stored a (record {
          bench = bench.now;
          name = name.now;
          bytes = bytes.now;
        }) (put_of_profile a (record {
          bench = bench.now;
          name = name.now;
          bytes = bytes.now;
        }))) a (K.tells keeper.new) result }
    ensures lived { K.lives keeper.new → K.lives keeper.old }
    ensures whose { OfKeeper result }
    ensures cause { KeeperCause (K.faults keeper.old) (K.faults keeper.new) result }
    ensures never_falls { K.faults keeper.old ≤ K.faults keeper.new }
    ensures sure { StaysSure (K.sure keeper.old) (K.sure keeper.new) result }
{
    let row = match bodies::profile(alloc, bench, name) {
        Ok(row) => row,
        Err(AllocError) => return Err(Ended::Memory),
    };
    match keeper.put_profile(alloc, bench, name, bytes) {
        Ok(put) => reply_to_put(alloc, put, row, bytes.len() as u64, MOST_PROFILES as u64),
        Err(error) => Err(ended_by(error)),
    }
}

/// Stores a profile, unless its text is refused.
pub(crate) fn store_profile<K: Keeper>(
    alloc: Global,
    keeper: &mut K,
    bench: &str,
    name: &str,
    bytes: &[u8],
) -> Result<Reply, Ended>
    requires short { length bytes.now ≤ longest_body }
    ensures answers { K.lives keeper.new → (a : Archive) → K.tells keeper.old a →
        Answers (profile_sent a (record {
          bench = bench.now;
          name = name.now;
          bytes = bytes.now;
        }) (profile_of bytes.now)) a (K.tells keeper.new) result }
    ensures lived { K.lives keeper.new → K.lives keeper.old }
    ensures whose { OfKeeper result }
    ensures cause { KeeperCause (K.faults keeper.old) (K.faults keeper.new) result }
    ensures never_falls { K.faults keeper.old ≤ K.faults keeper.new }
    ensures sure { StaysSure (K.sure keeper.old) (K.sure keeper.new) result }
{
    match read_profile(alloc, bytes)? {
        Ok(_) => put_profile(alloc, keeper, bench, name, bytes),
        Err(error) => refuse_profile(alloc, error),
    }
}

/// Stores a capture that was judged, of so many items and verdicts. Memory for the reply to a new
/// row is taken before it is stored.
fn put_capture<K: Keeper>(
    alloc: Global,
    keeper: &mut K,
    bench: &str,
    key: &str,
    profile: &str,
    bytes: &[u8],
    items: u64,
    verdicts: u64,
) -> Result<Reply, Ended>
    requires short { length bytes.now ≤ longest_body }
    ensures answers { K.lives keeper.new → (a : Archive) → K.tells keeper.old a →
        Answers (capture_stored a (record {
          bench = bench.now;
          key = key.now;
          profile = profile.now;
          bytes = bytes.now;
        }) items verdicts (put_of_capture a (record {
          bench = bench.now;
          key = key.now;
          profile = profile.now;
          bytes = bytes.now;
        }))) a (K.tells keeper.new) result }
    ensures lived { K.lives keeper.new → K.lives keeper.old }
    ensures whose { OfKeeper result }
    ensures cause { KeeperCause (K.faults keeper.old) (K.faults keeper.new) result }
    ensures never_falls { K.faults keeper.old ≤ K.faults keeper.new }
    ensures sure { StaysSure (K.sure keeper.old) (K.sure keeper.new) result }
{
    let row = match bodies::capture(alloc, bench, key, profile, items, verdicts) {
        Ok(row) => row,
        Err(AllocError) => return Err(Ended::Memory),
    };
    match keeper.put_capture(alloc, bench, key, profile, bytes) {
        Ok(put) => reply_to_put(alloc, put, row, bytes.len() as u64, MOST_CAPTURES as u64),
        Err(error) => Err(ended_by(error)),
    }
}

/// Stores a capture, unless it can't be judged under its profile.
pub(crate) fn store_capture<K: Keeper>(
    alloc: Global,
    keeper: &mut K,
    bench: &str,
    key: &str,
    profile: &str,
    bytes: &[u8],
) -> Result<Reply, Ended>
    requires short { length bytes.now ≤ longest_body }
    ensures answers { K.lives keeper.new → (a : Archive) → K.tells keeper.old a →
        Answers (capture_sent a (record {
          bench = bench.now;
          key = key.now;
          profile = profile.now;
          bytes = bytes.now;
        })) a (K.tells keeper.new) result }
    ensures lived { K.lives keeper.new → K.lives keeper.old }
    ensures whose { OfKeeper result }
    ensures cause { KeeperCause (K.faults keeper.old) (K.faults keeper.new) result }
    ensures never_falls { K.faults keeper.old ≤ K.faults keeper.new }
    ensures sure { StaysSure (K.sure keeper.old) (K.sure keeper.new) result }
{
    match judge(alloc, keeper, bench, profile, bytes, 0)? {
        Judging::Judged(judged) => put_capture(
            alloc,
            keeper,
            bench,
            key,
            profile,
            bytes,
            judged.items,
            judged.total,
        ),
        Judging::Refused(reply) => Ok(reply),
    }
}
