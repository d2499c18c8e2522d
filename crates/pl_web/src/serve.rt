//! One request of a connection, from its bytes to those of the reply.
ghost use Rattle.std.specs.Prelude.{◌≡◌, ◌≢◌, ◌<◌, ◌≤◌, ◌++◌, ◌⊎◌, ℕ, List, true, false, Some};
ghost use Rattle.std.specs.Prelude.{IsSome, length, take, drop, map};
ghost use Rattle.httparse.specs.Grammar.{RequestHead, print_request};
ghost use Rattle.httparse.specs.Spans.{IsRequestAt, IsRequestOf, IsRequestWithin, name_and_value};
ghost use Rattle.pl_head.specs.Form.{form_of};
ghost use Rattle.pl_head.specs.Opening.{BeginsAs, OpeningReads, filled_of};
ghost use Rattle.pl_head.specs.Reply.{code_of, reply_bytes};
ghost use Rattle.pl_io.specs.Faults.{Rose};
ghost use Rattle.pl_keeper.specs.Archive.{Archive};
ghost use Rattle.pl_web.specs.Answers.{Answers, AnswersText};
ghost use Rattle.pl_web.specs.Ended.{ConnCause, IsUnlost, KeeperCause};
ghost use Rattle.pl_web.specs.Ended.{StaysSure};
ghost use Rattle.pl_web.specs.Outcome.{outcome_of};
ghost use Rattle.pl_web.specs.Requests.{asked_by};
ghost use Rattle.pl_web.specs.Served.{EndsEarly, Grew, Replies, Sends, memory_reply, store_reply};

use crate::answer::answer_request;
use crate::bodies;
use crate::ended::Ended;
use crate::replies::{error, in_json};
use crate::reply::Reply;
use crate::routes::Routes;
use httparse::spans::{HeaderSpan, RequestSpans};
use pl_head::{HEAD_LIMIT, HeadRoom, Media, Opening, Status, read_form, read_front, send_reply};
use pl_io::Conn;
use pl_keeper::Keeper;
use std::alloc::{AllocError, Global};

/// A request whose whole head stands at the front of the bytes that were read.
fn answer_whole<C: Conn, K: Keeper>(
    alloc: Global,
    routes: &Routes,
    conn: &mut C,
    keeper: &mut K,
    text: &[u8],
    fields: &[HeaderSpan],
    head: RequestSpans,
) -> Result<Reply, Ended>
    requires within { IsRequestWithin text.now fields.now head }
    requires whole { IsRequestOf text.now fields.now head }
    ensures answers { K.lives keeper.new → (a : Archive) → K.tells keeper.old a →
        (h : RequestHead) → IsRequestAt text.now fields.now head h →
        (rest : List ℕ) → C.incoming conn.old ≡ Some rest →
        Answers (outcome_of a (drop (length (print_request h)) (text.now ++ rest))
        (asked_by h.method h.target (form_of (map name_and_value h.fields))))
        a (K.tells keeper.new) result }
    ensures lived { K.lives keeper.new → K.lives keeper.old }
    ensures sure { StaysSure (K.sure keeper.old) (K.sure keeper.new) result }
    ensures keeper_cause { KeeperCause (K.faults keeper.old) (K.faults keeper.new) result }
    ensures keeper_falls { K.faults keeper.old ≤ K.faults keeper.new }
    ensures written { C.written conn.new ≡ C.written conn.old }
    ensures fits { IsSome (C.room conn.old) → IsUnlost result }
    ensures room { IsSome (C.room conn.old) → C.room conn.new ≡ C.room conn.old }
    ensures conn_cause { ConnCause (C.faults conn.old) (C.faults conn.new) result }
    ensures conn_falls { C.faults conn.old ≤ C.faults conn.new }
{
    let form = read_form(text, &fields[..head.headers]);
    let method = head.method.of(text);
    match std::str::from_utf8(head.path.of(text)) {
        Ok(target) => answer_request(
            alloc,
            routes,
            conn,
            keeper,
            method,
            target,
            form,
            &text[head.len..],
        ),
        Err(_) => unreachable!(),
    }
}

/// The answer to bytes that begin so. All that comes is those that were read, and then the rest.
fn answer_opening<C: Conn, K: Keeper>(
    alloc: Global,
    routes: &Routes,
    conn: &mut C,
    keeper: &mut K,
    opening: Opening,
    buf: &[u8],
    fields: &[HeaderSpan],
) -> Result<Reply, Ended>
    requires buffer { length buf.now ≡ HEAD_LIMIT }
    requires reads { OpeningReads buf.now fields.now opening }
    ensures answers { K.lives keeper.new → (a : Archive) → K.tells keeper.old a →
        (rest : List ℕ) → C.incoming conn.old ≡ Some rest →
        BeginsAs (take (filled_of opening) buf.now ++ rest) buf.now fields.now opening →
        AnswersText (take (filled_of opening) buf.now ++ rest) a (K.tells keeper.new) result }
    ensures lived { K.lives keeper.new → K.lives keeper.old }
    ensures sure { StaysSure (K.sure keeper.old) (K.sure keeper.new) result }
    ensures keeper_cause { KeeperCause (K.faults keeper.old) (K.faults keeper.new) result }
    ensures keeper_falls { K.faults keeper.old ≤ K.faults keeper.new }
    ensures written { C.written conn.new ≡ C.written conn.old }
    ensures fits { IsSome (C.room conn.old) → IsUnlost result }
    ensures room { IsSome (C.room conn.old) → C.room conn.new ≡ C.room conn.old }
    ensures conn_cause { ConnCause (C.faults conn.old) (C.faults conn.new) result }
    ensures conn_falls { C.faults conn.old ≤ C.faults conn.new }
{
    match opening {
        Opening::Whole { head, filled } => {
            answer_whole(alloc, routes, conn, keeper, &buf[..filled], fields, head)
        }
        Opening::Bad { .. } => error(alloc, Status::BadRequest, "head"),
        Opening::Long => in_json(
            Status::PayloadTooLarge,
            bodies::limit(alloc, "limit", HEAD_LIMIT as u64),
        ),
        Opening::Short { .. } => Err(Ended::Gone),
    }
}

/// Reads a request into room for its head, and answers it; nothing is sent.
fn answer_in<C: Conn, K: Keeper>(
    alloc: Global,
    routes: &Routes,
    conn: &mut C,
    keeper: &mut K,
    buf: &mut [u8],
    fields: &mut [HeaderSpan],
) -> Result<Reply, Ended>
    requires buffer { length buf.old ≡ HEAD_LIMIT }
    requires field_room { 8192 ≤ length fields.old }
    ensures answers { K.lives keeper.new → (a : Archive) → K.tells keeper.old a →
        (text : List ℕ) → C.incoming conn.old ≡ Some text →
        AnswersText text a (K.tells keeper.new) result }
    ensures lived { K.lives keeper.new → K.lives keeper.old }
    ensures sure { StaysSure (K.sure keeper.old) (K.sure keeper.new) result }
    ensures keeper_cause { KeeperCause (K.faults keeper.old) (K.faults keeper.new) result }
    ensures keeper_falls { K.faults keeper.old ≤ K.faults keeper.new }
    ensures written { C.written conn.new ≡ C.written conn.old }
    ensures fits { IsSome (C.room conn.old) → IsUnlost result }
    ensures room { IsSome (C.room conn.old) → C.room conn.new ≡ C.room conn.old }
    ensures conn_cause { ConnCause (C.faults conn.old) (C.faults conn.new) result }
    ensures conn_falls { C.faults conn.old ≤ C.faults conn.new }
{
    match read_front(conn, buf, fields) {
        Ok(opening) => answer_opening(alloc, routes, conn, keeper, opening, buf, fields),
        Err(_) => Err(Ended::Lost),
    }
}

/// The same, with room of its own.
fn answer<C: Conn, K: Keeper>(
    alloc: Global,
    routes: &Routes,
    conn: &mut C,
    keeper: &mut K,
) -> Result<Reply, Ended>
    ensures answers { K.lives keeper.new → (a : Archive) → K.tells keeper.old a →
        (text : List ℕ) → C.incoming conn.old ≡ Some text →
        AnswersText text a (K.tells keeper.new) result }
    ensures lived { K.lives keeper.new → K.lives keeper.old }
    ensures sure { StaysSure (K.sure keeper.old) (K.sure keeper.new) result }
    ensures keeper_cause { KeeperCause (K.faults keeper.old) (K.faults keeper.new) result }
    ensures keeper_falls { K.faults keeper.old ≤ K.faults keeper.new }
    ensures written { C.written conn.new ≡ C.written conn.old }
    ensures fits { IsSome (C.room conn.old) → IsUnlost result }
    ensures room { IsSome (C.room conn.old) → C.room conn.new ≡ C.room conn.old }
    ensures conn_cause { ConnCause (C.faults conn.old) (C.faults conn.new) result }
    ensures conn_falls { C.faults conn.old ≤ C.faults conn.new }
{
    match HeadRoom::new(alloc) {
        Ok(mut room) => answer_in(
            alloc,
            routes,
            conn,
            keeper,
            &mut room.bytes,
            &mut room.fields,
        ),
        Err(AllocError) => Err(Ended::Memory),
    }
}

/// What became of a request.
#[derive(Clone, Copy, Debug, PartialEq, Eq)]
pub struct Served {
    /// The status of the reply, or 0 where there was none.
    pub status: u16,
    /// Whether the whole reply was sent.
    pub sent: bool,
}

/// Sends a reply.
#[tactic(auto, using(crate::proofs::Sent::sends))]
fn send<C: Conn>(conn: &mut C, status: Status, media: Media, body: &[u8]) -> Served
    ensures status { result.status ≡ code_of status }
    ensures small { result.status < 1000 }
    ensures sends { Sends (C.room conn.old) (C.written conn.old) (C.written conn.new) result.sent
        (reply_bytes status media body.now) }
    ensures incoming { C.incoming conn.new ≡ C.incoming conn.old }
    ensures appended { Grew (C.written conn.old) (C.written conn.new) }
    ensures kept { result.sent ≡ true → C.faults conn.new ≡ C.faults conn.old }
    ensures failed { result.sent ≡ false → Rose (C.faults conn.old) (C.faults conn.new) }
    ensures never_falls { C.faults conn.old ≤ C.faults conn.new }
{
    let done = send_reply(conn, status, media, body);
    Served {
        status: status.code(),
        sent: done.is_ok(),
    }
}

/// Reads one request of a connection, answers it from the rows of the keeper and sends the reply.
///
/// The status is that of the reply, also where only a part of it was sent, and 0 where there is
/// none: a read failed, or the peer ended within its request. Then nothing was sent and no row
/// changed. 500 is for want of memory, 503 for a call of the keeper that failed; neither changes a
/// row. The room for a head is 278,528 bytes; a body's memory is taken as its bytes come.
#[tactic(auto, using(crate::proofs::Sent::grows))]
pub fn serve_one<C: Conn, K: Keeper>(
    alloc: Global,
    routes: &Routes,
    conn: &mut C,
    keeper: &mut K,
) -> Served
    // The reply and the rows are those of the bytes that came, however the reads were cut.
    ensures replies { K.lives keeper.new → (a : Archive) → K.tells keeper.old a →
        (text : List ℕ) → C.incoming conn.old ≡ Some text →
        result.status ≢ 0 → result.status ≢ 500 → result.status ≢ 503 →
        Replies text a (K.tells keeper.new) (C.room conn.old) (C.written conn.old)
        (C.written conn.new) result }

    // Without a reply nothing was sent and no row changed: a read failed, or the request ended
    // early.
    ensures silent { result.status ≡ 0 → (C.written conn.new ≡ C.written conn.old)
        × (result.sent ≡ false) × (K.faults keeper.new ≡ K.faults keeper.old) }
    ensures gone { K.lives keeper.new → (a : Archive) → K.tells keeper.old a →
        (text : List ℕ) → C.incoming conn.old ≡ Some text → result.status ≡ 0 →
        K.tells keeper.new a
        × (Rose (C.faults conn.old) (C.faults conn.new) ⊎ EndsEarly text a) }

    // Want of memory and a failed keeper have replies of their own, and change no row.
    ensures memory { result.status ≡ 500 → Sends (C.room conn.old) (C.written conn.old)
        (C.written conn.new) result.sent memory_reply }
    ensures store { result.status ≡ 503 → Sends (C.room conn.old) (C.written conn.old)
        (C.written conn.new) result.sent store_reply
        × Rose (K.faults keeper.old) (K.faults keeper.new) }
    ensures rows { K.lives keeper.new → (a : Archive) → K.tells keeper.old a →
        (text : List ℕ) → C.incoming conn.old ≡ Some text →
        (result.status ≡ 500) ⊎ (result.status ≡ 503) → K.tells keeper.new a }

    // Whatever comes, the status has three digits or is 0, and bytes are only appended.
    ensures small { result.status < 1000 }
    ensures appended { Grew (C.written conn.old) (C.written conn.new) }

    // Faults are counted, and come from nowhere else.
    ensures keeper_kept { result.status ≢ 503 → K.faults keeper.new ≡ K.faults keeper.old }
    ensures keeper_falls { K.faults keeper.old ≤ K.faults keeper.new }
    ensures sure { K.sure keeper.old ≡ true →
        (result.status ≢ 503) × (K.sure keeper.new ≡ true) }
    ensures lived { K.lives keeper.new → K.lives keeper.old }
    ensures kept { result.sent ≡ true → C.faults conn.new ≡ C.faults conn.old }
    ensures quiet { IsSome (C.room conn.old) → result.status ≡ 0 →
        C.faults conn.new ≡ C.faults conn.old }
    ensures unsent { result.sent ≡ false → result.status ≢ 0 →
        Rose (C.faults conn.old) (C.faults conn.new) }
    ensures conn_falls { C.faults conn.old ≤ C.faults conn.new }
{
    match answer(alloc, routes, conn, keeper) {
        Ok(reply) => send(conn, reply.status, reply.media, &reply.body),
        Err(Ended::Gone) => Served {
            status: 0,
            sent: false,
        },
        Err(Ended::Lost) => Served {
            status: 0,
            sent: false,
        },
        Err(Ended::Store) => send(
            conn,
            Status::ServiceUnavailable,
            Media::Json,
            b"{\"error\":\"store\"}",
        ),
        Err(Ended::Memory) => send(
            conn,
            Status::InternalServerError,
            Media::Json,
            b"{\"error\":\"memory\"}",
        ),
    }
}
