//! What a request with a whole head is answered.
ghost use Rattle.std.specs.Prelude.{◌≡◌, ◌≢◌, ◌≤◌, ◌++◌, ℕ, List, Some, IsSome, Ok};
ghost use Rattle.pl_keeper.specs.Archive.{Archive};
ghost use Rattle.pl_profile.specs.ProfileOf.{profile_of};
ghost use Rattle.pl_web.specs.Answers.{Answers};
ghost use Rattle.pl_web.specs.Ended.{ConnCause, IsUnlost, KeeperCause, StaysSure};
ghost use Rattle.pl_web.specs.Outcome.{outcome_of, with_body};
ghost use Rattle.pl_web.specs.Puts.{capture_sent, profile_sent};
ghost use Rattle.pl_web.specs.Refusals.{longest_body};
ghost use Rattle.pl_web.specs.Requests.{HasShortBody, asked_by, asked_in};

use crate::body::read_body;
use crate::ended::Ended;
use crate::gets::{list_captures, show_capture, show_verdicts};
use crate::hits::show_hits;
use crate::puts::{store_capture, store_profile};
use crate::replies::refuse;
use crate::reply::Reply;
use crate::request::{Request, read_request};
use crate::routes::Routes;
use pl_head::Form;
use pl_io::Conn;
use pl_keeper::Keeper;
use std::alloc::Global;

/// Reads the text of a profile and stores it.
#[tactic(auto, using(crate::proofs::Kept::of_keeper))]
fn receive_profile<C: Conn, K: Keeper>(
    alloc: Global,
    conn: &mut C,
    keeper: &mut K,
    bench: &str,
    name: &str,
    size: u64,
    have: &[u8],
) -> Result<Reply, Ended>
    requires short { size ≤ longest_body }
    ensures answers { K.lives keeper.new → (a : Archive) → K.tells keeper.old a →
        (rest : List ℕ) → C.incoming conn.old ≡ Some rest →
        Answers (with_body a (have.now ++ rest) size (λ bytes. profile_sent a (record {
          bench = bench.now;
          name = name.now;
          bytes = bytes;
        }) (profile_of bytes))) a (K.tells keeper.new) result }
    ensures lived { K.lives keeper.new → K.lives keeper.old }
    ensures sure { StaysSure (K.sure keeper.old) (K.sure keeper.new) result }
    ensures keeper_cause { KeeperCause (K.faults keeper.old) (K.faults keeper.new) result }
    ensures keeper_falls { K.faults keeper.old ≤ K.faults keeper.new }
    ensures written { C.written conn.new ≡ C.written conn.old }
    ensures fits { IsSome (C.room conn.old) → IsUnlost result }
    ensures room { IsSome (C.room conn.old) → C.room conn.new ≡ C.room conn.old }
    ensures conn_cause { ConnCause (C.faults conn.old) (C.faults conn.new) result }
    ensures conn_falls { C.faults conn.old ≤ C.faults conn.new }
{
    let bytes = read_body(alloc, conn, have, size as usize)?;
    store_profile(alloc, keeper, bench, name, &bytes)
}

/// Reads a capture and stores it.
#[tactic(auto, using(crate::proofs::Kept::of_keeper))]
fn receive_capture<C: Conn, K: Keeper>(
    alloc: Global,
    conn: &mut C,
    keeper: &mut K,
    bench: &str,
    profile: &str,
    key: &str,
    size: u64,
    have: &[u8],
) -> Result<Reply, Ended>
    requires short { size ≤ longest_body }
    ensures answers { K.lives keeper.new → (a : Archive) → K.tells keeper.old a →
        (rest : List ℕ) → C.incoming conn.old ≡ Some rest →
        Answers (with_body a (have.now ++ rest) size (λ bytes. capture_sent a (record {
          bench = bench.now;
          key = key.now;
          profile = profile.now;
          bytes = bytes;
        }))) a (K.tells keeper.new) result }
    ensures lived { K.lives keeper.new → K.lives keeper.old }
    ensures sure { StaysSure (K.sure keeper.old) (K.sure keeper.new) result }
    ensures keeper_cause { KeeperCause (K.faults keeper.old) (K.faults keeper.new) result }
    ensures keeper_falls { K.faults keeper.old ≤ K.faults keeper.new }
    ensures written { C.written conn.new ≡ C.written conn.old }
    ensures fits { IsSome (C.room conn.old) → IsUnlost result }
    ensures room { IsSome (C.room conn.old) → C.room conn.new ≡ C.room conn.old }
    ensures conn_cause { ConnCause (C.faults conn.old) (C.faults conn.new) result }
    ensures conn_falls { C.faults conn.old ≤ C.faults conn.new }
{
    let bytes = read_body(alloc, conn, have, size as usize)?;
    store_capture(alloc, keeper, bench, key, profile, &bytes)
}

/// What a request asks for, with the bytes that were read behind its head.
#[tactic(auto, using(crate::proofs::Kept::of_keeper))]
fn answer_asked<C: Conn, K: Keeper>(
    alloc: Global,
    conn: &mut C,
    keeper: &mut K,
    request: Request<'_>,
    have: &[u8],
) -> Result<Reply, Ended>
    requires short { HasShortBody request }
    ensures answers { K.lives keeper.new → (a : Archive) → K.tells keeper.old a →
        (rest : List ℕ) → C.incoming conn.old ≡ Some rest →
        Answers (outcome_of a (have.now ++ rest) (asked_in (Ok request.entry)))
        a (K.tells keeper.new) result }
    ensures lived { K.lives keeper.new → K.lives keeper.old }
    ensures sure { StaysSure (K.sure keeper.old) (K.sure keeper.new) result }
    ensures keeper_cause { KeeperCause (K.faults keeper.old) (K.faults keeper.new) result }
    ensures keeper_falls { K.faults keeper.old ≤ K.faults keeper.new }
    ensures written { C.written conn.new ≡ C.written conn.old }
    ensures fits { IsSome (C.room conn.old) → IsUnlost result }
    ensures room { IsSome (C.room conn.old) → C.room conn.new ≡ C.room conn.old }
    ensures conn_cause { ConnCause (C.faults conn.old) (C.faults conn.new) result }
    ensures conn_falls { C.faults conn.old ≤ C.faults conn.new }
{
    match request {
        Request::PutProfile {
            bench,
            profile,
            length,
        } => receive_profile(alloc, conn, keeper, bench, profile, length, have),
        Request::PutCapture {
            bench,
            profile,
            key,
            length,
        } => receive_capture(alloc, conn, keeper, bench, profile, key, length, have),
        Request::ListCaptures { bench } => list_captures(alloc, keeper, bench),
        Request::GetCapture { bench, key } => show_capture(alloc, keeper, bench, key),
        Request::GetVerdicts { bench, key } => show_verdicts(alloc, keeper, bench, key),
        Request::GetHits { bench, rule } => show_hits(alloc, keeper, bench, rule),
    }
}

/// A request by its method, its target and the form of its body, with the bytes that were read
/// behind its head.
pub(crate) fn answer_request<C: Conn, K: Keeper>(
    alloc: Global,
    routes: &Routes,
    conn: &mut C,
    keeper: &mut K,
    method: &[u8],
    target: &str,
    form: Form,
    have: &[u8],
) -> Result<Reply, Ended>
    ensures answers { K.lives keeper.new → (a : Archive) → K.tells keeper.old a →
        (rest : List ℕ) → C.incoming conn.old ≡ Some rest →
        Answers (outcome_of a (have.now ++ rest) (asked_by method.now target.now form))
        a (K.tells keeper.new) result }
    ensures lived { K.lives keeper.new → K.lives keeper.old }
    ensures sure { StaysSure (K.sure keeper.old) (K.sure keeper.new) result }
    ensures keeper_cause { KeeperCause (K.faults keeper.old) (K.faults keeper.new) result }
    ensures keeper_falls { K.faults keeper.old ≤ K.faults keeper.new }
    ensures written { C.written conn.new ≡ C.written conn.old }
    ensures fits { IsSome (C.room conn.old) → IsUnlost result }
    ensures room { IsSome (C.room conn.old) → C.room conn.new ≡ C.room conn.old }
    ensures conn_cause { ConnCause (C.faults conn.old) (C.faults conn.new) result }
    ensures conn_falls { C.faults conn.old ≤ C.faults conn.new }
{
    match read_request(routes, method, target, form) {
        Ok(request) => answer_asked(alloc, conn, keeper, request, have),
        Err(refusal) => refuse(alloc, refusal),
    }
}
