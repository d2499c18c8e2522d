//! Reads as far as the head of a request ends (RFC 9112, chapters 2 to 5), and no further than any
//! head may go.
ghost use Rattle.std.specs.Prelude.{◌≡◌, ◌<◌, ◌≤◌, List, ℕ, Some, length, take, IfOk, IsOk, IsSome};
ghost use Rattle.pl_io.specs.Faults.{HasCause};
ghost use Rattle.pl_io.specs.Told.{ahead};
ghost use Rattle.pl_head.specs.Opening.{BeginsAs, filled_of, Looks, OpeningReads};

use httparse::Status;
use httparse::spans::{EMPTY_HEADER_SPAN, HeaderSpan, RequestSpans, parse_request};
use pl_io::{Conn, Failed};
use std::alloc::{AllocError, Global};

/// The most bytes of a head.
pub const HEAD_LIMIT: usize = 16_384;

/// How many fields there is room for. A field has at least two bytes, so no head has more.
pub const FIELD_ROOM: usize = 8_192;

/// Room for one head and the places of its fields, 278,528 bytes, taken at once.
#[derive(Debug, Drop)]
pub struct HeadRoom {
    pub bytes: Vec<u8>,
    pub fields: Vec<HeaderSpan>,
}

impl HeadRoom {
    /// Takes the room. This is all the memory that reading a head wants.
    pub fn new(alloc: Global) -> Result<HeadRoom, AllocError>
        ensures bytes { IfOk result (λ room. length room.bytes.items ≡ HEAD_LIMIT) }
        ensures fields { IfOk result (λ room. length room.fields.items ≡ FIELD_ROOM) }
    {
        Ok(HeadRoom {
            bytes: vec![in alloc; 0; HEAD_LIMIT]?,
            fields: vec![in alloc; EMPTY_HEADER_SPAN; FIELD_ROOM]?,
        })
    }
}

/// How the bytes that came begin. `filled` counts those that were read, at most 16,384.
#[derive(Clone, Copy, Debug, PartialEq, Eq)]
pub enum Opening {
    /// A whole head; bytes of the body may follow among those that were read.
    Whole { head: RequestSpans, filled: usize },
    /// No bytes can follow that make a head of them.
    Bad { filled: usize },
    /// As many bytes as a head may have, and no whole head.
    Long,
    /// The peer ended within its head.
    Short { filled: usize },
}

/// What the bytes so far are.
#[derive(Clone, Copy, Debug, PartialEq, Eq)]
enum Look {
    Whole(RequestSpans),
    Unfinished,
    Bad,
}

/// Looks for a head at the front of the bytes.
fn look_at(bytes: &[u8], fields: &mut [HeaderSpan]) -> Look
    requires size { length bytes.now ≤ HEAD_LIMIT }
    requires room { FIELD_ROOM ≤ length fields.old }
    ensures { Looks bytes.now fields.new result }
{
    match parse_request(bytes, fields) {
        Ok(Status::Complete(head)) => Look::Whole(head),
        Ok(Status::Partial) => Look::Unfinished,
        Err(_) => Look::Bad,
    }
}

/// Reads a request into `buf` as far as its head ends, or until it is clear that none comes.
///
/// After `Failed` the bytes read so far are lost, and the connection's count of faults rose.
/// Nothing is sent.
pub fn read_front<C: Conn>(
    conn: &mut C,
    buf: &mut [u8],
    fields: &mut [HeaderSpan],
) -> Result<Opening, Failed>
    requires buffer { length buf.old ≡ HEAD_LIMIT }
    requires room { FIELD_ROOM ≤ length fields.old }
    ensures reads { IfOk result (λ opening. OpeningReads buf.new fields.new opening) }
    ensures bytes { IfOk result (λ opening. C.incoming conn.old
        ≡ ahead (take (filled_of opening) buf.new) (C.incoming conn.new)) }

    // Where all that comes is told, the answer is that of the whole text, however it is cut.
    ensures front { IfOk result (λ opening. (text : List ℕ) → C.incoming conn.old ≡ Some text
        → BeginsAs text buf.new fields.new opening) }

    ensures written { C.written conn.new ≡ C.written conn.old }
    ensures never_fails { IsSome (C.room conn.old) → IsOk result }
    ensures room_kept { IsSome (C.room conn.old) → C.room conn.new ≡ C.room conn.old }
    ensures cause { HasCause (C.faults conn.old) (C.faults conn.new) result }
    ensures never_falls { C.faults conn.old ≤ C.faults conn.new }
{
    let mut filled = 0;
    loop {
        match look_at(&buf[..filled], fields) {
            Look::Whole(head) => return Ok(Opening::Whole { head, filled }),
            Look::Unfinished => {}
            Look::Bad => return Ok(Opening::Bad { filled }),
        }
        if filled == buf.len() {
            return Ok(Opening::Long);
        }
        let count = conn.read(&mut buf[filled..])?;
        if count == 0 {
            return Ok(Opening::Short { filled });
        }
        filled += count;
    }
}
