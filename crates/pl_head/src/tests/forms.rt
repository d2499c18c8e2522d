//! What the fields of a head say of the body.
ghost use Rattle.std.specs.Prelude.{◌≡◌, length};
ghost use Rattle.pl_head.specs.Opening.{OpeningReads};

use crate::{Form, HEAD_LIMIT, HeadRoom, Opening, read_form, read_front};
use httparse::spans::HeaderSpan;
use pl_io::MemConn;
use std::alloc::Global;
use std::test::Fail;

/// The form of what was read, if it begins with a whole head.
fn form_read(buf: &[u8], fields: &[HeaderSpan], opening: Opening) -> Option<Form>
    requires buffer { length buf.now ≡ HEAD_LIMIT }
    requires reads { OpeningReads buf.now fields.now opening }
{
    match opening {
        Opening::Whole { head, filled } => {
            Some(read_form(&buf[..filled], &fields[..head.headers]))
        }
        _ => None,
    }
}

/// The form of a request with these fields.
fn form(alloc: Global, fields: &str) -> Result<Option<Form>, Fail> {
    let request = format!(in alloc; "PUT /a HTTP/1.1\r\n{fields}\r\n")?;
    let mut room = HeadRoom::new(alloc)?;
    let mut conn = MemConn::new(alloc, request.as_bytes(), 300, 0, &[])?;
    let opening = read_front(&mut conn, &mut room.bytes, &mut room.fields)?;
    Ok(form_read(&room.bytes, &room.fields, opening))
}

const FORMS: [(&str, Form); 12] = [
    ("Host: a\r\n", Form::Without),
    ("Content-Length: 5\r\n", Form::Length(5)),
    ("A: b\r\nCONTENT-length:007\r\n", Form::Length(7)),
    (
        "Content-Length: 9999999999999999999\r\n",
        Form::Length(9_999_999_999_999_999_999),
    ),
    ("Content-Length: 00000000000000000005\r\n", Form::Refused),
    ("Content-Length: +5\r\n", Form::Refused),
    ("Content-Length: 5 5\r\n", Form::Refused),
    ("Content-Length:\r\n", Form::Refused),
    (
        "Content-Length: 5\r\nA: b\r\ncontent-length: 5\r\n",
        Form::Refused,
    ),
    (
        "Content-Length: 5\r\nTransfer-Encoding: chunked\r\n",
        Form::Refused,
    ),
    (
        "transfer-encoding: chunked\r\nContent-Length: 5\r\n",
        Form::Refused,
    ),
    ("Transfer-Encoding: identity\r\n", Form::Refused),
];

#[test]
fn each_form_is_as_its_fields_say(rt: HostRuntime) -> Result<(), Fail> {
    for (fields, wanted) in FORMS {
        assert_eq!(rt; form(rt.alloc(), fields)?, Some(wanted), "{fields}");
    }
    Ok(())
}
