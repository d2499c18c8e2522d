//! The bytes of a reply.
ghost use Rattle.std.specs.Prelude.{◌≡◌, ◌+◌, ◌≤◌, ◌++◌, List, ℕ, length, decimal, Option, OnOk};
ghost use Rattle.std.specs.Prelude.{OnErr, IsOk};
ghost use Rattle.arrayvec.specs.ArrayString.{array_string_len};
ghost use Rattle.pl_io.specs.CutShort.{CutShort};
ghost use Rattle.pl_io.specs.Faults.{HasCause};
ghost use Rattle.pl_io.specs.Told.{plus, HasRoom, Lowered};
ghost use Rattle.pl_head.specs.Reply.{heading, media_type, reply_bytes};

use crate::status::Status;
use arrayvec::ArrayString;
use itoa::Buffer;
use pl_io::{Conn, Failed, send_all};

/// What a body is.
#[derive(Clone, Copy, Debug, PartialEq, Eq)]
pub enum Media {
    Json,
    /// The bytes of a capture.
    Capture,
}

impl Media {
    /// The name of its media type.
    fn name(self) -> &'static str
        ensures { result.now ≡ media_type self }
    {
        match self {
            Media::Json => "application/json",
            Media::Capture => "application/octet-stream",
        }
    }
}

/// Room for the lines before a body, of which none takes memory: at most 174 bytes.
type Heading = ArrayString<256>;

/// Adds the digits of a number.
fn push_number(heading: &mut Heading, number: u64)
    requires { array_string_len heading.old + 20 ≤ 256 }
    ensures bytes { heading.new.bytes ≡ heading.old.bytes ++ decimal number }
    ensures len { array_string_len heading.new ≤ array_string_len heading.old + 20 }
{
    heading.push_str(Buffer::new().format(number));
}

/// The lines before a body of `size` bytes.
#[tactic(auto, using(crate::proofs::Lengths::lengths), unfolding(crate::specs::Reply::heading))]
fn make_heading(status: Status, media: Media, size: u64) -> Heading
    ensures { result.bytes ≡ heading status media size }
{
    let mut lines = Heading::new();
    lines.push_str("HTTP/1.1 ");
    push_number(&mut lines, u64::from(status.code()));
    lines.push_str(" ");
    lines.push_str(status.reason());
    lines.push_str("\r\nContent-Type: ");
    lines.push_str(media.name());
    lines.push_str("\r\nContent-Length: ");
    push_number(&mut lines, size);
    lines.push_str("\r\n");
    lines.push_str(status.allow_line());
    lines.push_str("Connection: close\r\n\r\n");
    lines
}

/// Sends a whole reply: its lines, then `body`. It takes no memory.
///
/// After `Failed` a proper prefix of the reply was sent, and the connection's count of faults rose;
/// where the connection has room for the reply it doesn't fail. What comes from the peer isn't
/// touched.
pub fn send_reply<C: Conn>(
    conn: &mut C,
    status: Status,
    media: Media,
    body: &[u8],
) -> Result<(), Failed>
    ensures sent { OnOk result (C.written conn.new
        ≡ plus (C.written conn.old) (reply_bytes status media body.now)) }
    ensures part { OnErr result (
        CutShort (C.written conn.old) (C.written conn.new) (reply_bytes status media body.now)) }
    ensures incoming { C.incoming conn.new ≡ C.incoming conn.old }
    ensures fits { HasRoom (C.room conn.old) (length (reply_bytes status media body.now))
        → IsOk result }
    ensures room_taken { OnOk result (Lowered (C.room conn.old)
        (length (reply_bytes status media body.now)) (C.room conn.new)) }
    ensures cause { HasCause (C.faults conn.old) (C.faults conn.new) result }
    ensures never_falls { C.faults conn.old ≤ C.faults conn.new }
{
    let lines = make_heading(status, media, body.len() as u64);
    send_all(conn, lines.as_bytes())?;
    send_all(conn, body)
}
