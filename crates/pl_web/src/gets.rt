//! What a request to look something up is answered from the rows. No row changes.
ghost use Rattle.std.specs.Prelude.{◌≡◌, ◌≤◌, IfOk, Some, length, option_map, true};
ghost use Rattle.std.specs.String.{string_bytes};
ghost use Rattle.pl_head.specs.declared.reply.Media.TheVariants.{Json};
ghost use Rattle.pl_head.specs.declared.status.Status.TheVariants.{Success};
ghost use Rattle.pl_keeper.specs.Archive.{Archive, capture_at, longest_body};
ghost use Rattle.pl_keeper.specs.Listing.{found_of};
ghost use Rattle.pl_web.specs.Answers.{Answers};
ghost use Rattle.pl_web.specs.Ended.{KeeperCause, OfKeeper, OnlyMemory, StaysSure};
ghost use Rattle.pl_web.specs.Bodies.{list_body};
ghost use Rattle.pl_web.specs.Gets.{capture_shown, captures_listed, verdicts_shown};

use crate::bodies;
use crate::ended::Ended;
use crate::judging::{Judging, judge};
use crate::replies::{ended_by, error, in_json};
use crate::reply::Reply;
use pl_head::{Media, Status};
use pl_keeper::{Keeper, KeyRow, Stored};
use std::alloc::Global;

/// The most verdicts that are shown.
const MOST_SHOWN: usize = 10_000;

/// The name of the profile of a capture that was found, and its bytes.
fn parts_of(stored: Stored) -> (String, Vec<u8>)
    ensures profile { string_bytes result.0 ≡ stored.profile }
    ensures bytes { result.1.items ≡ stored.bytes }
{
    let Stored { profile, bytes } = stored;
    (profile, bytes)
}

/// The bytes of a capture, which aren't copied.
pub(crate) fn show_capture<K: Keeper>(
    alloc: Global,
    keeper: &mut K,
    bench: &str,
    key: &str,
) -> Result<Reply, Ended>
    ensures answers { K.lives keeper.new → (a : Archive) → K.tells keeper.old a →
        Answers (capture_shown a (option_map found_of (capture_at a bench.now key.now)))
        a (K.tells keeper.new) result }
    ensures lived { K.lives keeper.new → K.lives keeper.old }
    ensures whose { OfKeeper result }
    ensures cause { KeeperCause (K.faults keeper.old) (K.faults keeper.new) result }
    ensures never_falls { K.faults keeper.old ≤ K.faults keeper.new }
    ensures sure { StaysSure (K.sure keeper.old) (K.sure keeper.new) result }
{
    match keeper.capture(alloc, bench, key) {
        Ok(Some(stored)) => {
            let (_, body) = parts_of(stored);
            Ok(Reply {
                status: Status::Success,
                media: Media::Capture,
                body,
            })
        }
        Ok(None) => error(alloc, Status::NotFound, "no capture"),
        Err(error) => Err(ended_by(error)),
    }
}

/// The list of the captures of a bench.
fn list_reply(alloc: Global, bench: &str, rows: &[KeyRow]) -> Result<Reply, Ended>
    ensures status { IfOk result (λ reply. reply.status ≡ Success) }
    ensures media { IfOk result (λ reply. reply.media ≡ Json) }
    ensures body { IfOk result (λ reply. reply.body.items ≡ list_body bench.now rows.now) }
    ensures memory { OnlyMemory result }
{
    in_json(Status::Success, bodies::list(alloc, bench, rows))
}

/// The captures of a bench, by key.
pub(crate) fn list_captures<K: Keeper>(
    alloc: Global,
    keeper: &mut K,
    bench: &str,
) -> Result<Reply, Ended>
    ensures answers { K.lives keeper.new → (a : Archive) → K.tells keeper.old a →
        Answers (captures_listed a bench.now) a (K.tells keeper.new) result }
    ensures lived { K.lives keeper.new → K.lives keeper.old }
    ensures whose { OfKeeper result }
    ensures cause { KeeperCause (K.faults keeper.old) (K.faults keeper.new) result }
    ensures never_falls { K.faults keeper.old ≤ K.faults keeper.new }
    ensures sure { StaysSure (K.sure keeper.old) (K.sure keeper.new) result }
{
    match keeper.keys(alloc, bench) {
        Ok(rows) => list_reply(alloc, bench, &rows),
        Err(error) => Err(ended_by(error)),
    }
}

/// What is wrong with a capture that was found, under the profile that it names.
fn show_verdicts_of<K: Keeper>(
    alloc: Global,
    keeper: &mut K,
    bench: &str,
    key: &str,
    stored: Stored,
) -> Result<Reply, Ended>
    requires short { length stored.bytes ≤ longest_body }
    ensures answers { K.lives keeper.new → (a : Archive) → K.tells keeper.old a →
        Answers (verdicts_shown a bench.now key.now (Some stored)) a (K.tells keeper.new) result }
    ensures lived { K.lives keeper.new → K.lives keeper.old }
    ensures whose { OfKeeper result }
    ensures cause { KeeperCause (K.faults keeper.old) (K.faults keeper.new) result }
    ensures never_falls { K.faults keeper.old ≤ K.faults keeper.new }
    ensures sure { StaysSure (K.sure keeper.old) (K.sure keeper.new) result }
{
    let (profile, bytes) = parts_of(stored);
    match judge(alloc, keeper, bench, &profile, &bytes, MOST_SHOWN)? {
        Judging::Judged(judged) => {
            in_json(
                Status::Success,
                bodies::verdicts(alloc, bench, key, &judged),
            )
        }
        Judging::Refused(reply) => Ok(reply),
    }
}

/// What is wrong with a capture: how many items and verdicts it has, and the first 10,000 of the
/// verdicts.
pub(crate) fn show_verdicts<K: Keeper>(
    alloc: Global,
    keeper: &mut K,
    bench: &str,
    key: &str,
) -> Result<Reply, Ended>
    ensures answers { K.lives keeper.new → (a : Archive) → K.tells keeper.old a →
        Answers (verdicts_shown a bench.now key.now
        (option_map found_of (capture_at a bench.now key.now))) a (K.tells keeper.new) result }
    ensures lived { K.lives keeper.new → K.lives keeper.old }
    ensures whose { OfKeeper result }
    ensures cause { KeeperCause (K.faults keeper.old) (K.faults keeper.new) result }
    ensures never_falls { K.faults keeper.old ≤ K.faults keeper.new }
    ensures sure { StaysSure (K.sure keeper.old) (K.sure keeper.new) result }
{
    match keeper.capture(alloc, bench, key) {
        Ok(Some(stored)) => show_verdicts_of(alloc, keeper, bench, key, stored),
        Ok(None) => error(alloc, Status::NotFound, "no capture"),
        Err(error) => Err(ended_by(error)),
    }
}
