//! Bodies, byte for byte.

use pl_head::{Method, Status};
use pl_web::{Refusal, bodies};
use std::test::Fail;

#[test]
fn members_ascend_by_key(rt: HostRuntime) -> Result<(), Fail> {
    let alloc = rt.alloc();
    let body = bodies::error(alloc, "no capture")?;
    assert_eq!(rt; body.as_slice(), b"{\"error\":\"no capture\"}".as_slice());
    let body = bodies::limit(alloc, "limit", 4_194_304)?;
    assert_eq!(rt;
        body.as_slice(),
        b"{\"error\":\"limit\",\"limit\":4194304}".as_slice()
    );
    let body = bodies::numbered(alloc, "profile", 3)?;
    assert_eq!(rt;
        body.as_slice(),
        b"{\"error\":\"profile\",\"number\":3}".as_slice()
    );
    let body = bodies::difference(alloc, 10, 9, 18_446_744_073_709_551_615)?;
    let wanted =
        "{\"error\":\"other bytes\",\"length\":10,\"place\":9,\"sent\":18446744073709551615}";
    assert_eq!(rt; body.as_slice(), wanted.as_bytes());
    let body = bodies::profile(alloc, "b1", "gen3")?;
    assert_eq!(rt;
        body.as_slice(),
        b"{\"bench\":\"b1\",\"profile\":\"gen3\"}".as_slice()
    );
    Ok(())
}

#[test]
fn a_text_stands_between_quotes(rt: HostRuntime) -> Result<(), Fail> {
    let body = bodies::profile(rt.alloc(), "\"\\/\u{7f}", "\u{8}\t\n\u{c}\r\u{1f}\u{e9}")?;
    let wanted = "{\"bench\":\"\\\"\\\\/\u{7f}\",\"profile\":\"\\b\\t\\n\\f\\r\\u001f\u{e9}\"}";
    assert_eq!(rt; body.as_slice(), wanted.as_bytes());
    Ok(())
}

#[test]
fn each_refusal_has_its_reply(rt: HostRuntime) -> Result<(), Fail> {
    let replies = [
        (Refusal::Framing, Status::BadRequest, "{\"error\":\"form\"}"),
        (Refusal::Route, Status::NotFound, "{\"error\":\"route\"}"),
        (
            Refusal::WrongMethod(Method::Put),
            Status::MethodNotAllowed(Method::Put),
            "{\"error\":\"method\"}",
        ),
        (Refusal::Name, Status::BadRequest, "{\"error\":\"name\"}"),
        (Refusal::NoRule, Status::NotFound, "{\"error\":\"rule\"}"),
        (
            Refusal::NoLength,
            Status::LengthRequired,
            "{\"error\":\"length required\"}",
        ),
        (
            Refusal::TooLong,
            Status::PayloadTooLarge,
            "{\"error\":\"limit\",\"limit\":4194304}",
        ),
    ];
    for (refusal, status, wanted) in replies {
        assert_eq!(rt; refusal.status(), status);
        let body = refusal.body(rt.alloc())?;
        assert_eq!(rt; body.as_slice(), wanted.as_bytes());
    }
    Ok(())
}
