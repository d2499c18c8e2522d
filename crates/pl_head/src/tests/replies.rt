//! Replies, byte for byte.

use crate::{Media, Method, Status, send_reply};
use pl_io::{Failed, MemConn};
use std::alloc::{AllocError, Global};
use std::test::Fail;

/// A reply whose body is `{}`, by its status line and its field `Allow`.
fn reply(alloc: Global, status_line: &str, allow: &str) -> Result<String, AllocError> {
    let media = "Content-Type: application/json";
    let rest = "Connection: close\r\n\r\n{}";
    format!(in alloc; "{status_line}\r\n{media}\r\nContent-Length: 2\r\n{allow}{rest}")
}

const REPLIES: [(Status, &str, &str); 12] = [
    (Status::Success, "HTTP/1.1 200 OK", ""),
    (Status::Created, "HTTP/1.1 201 Created", ""),
    (Status::BadRequest, "HTTP/1.1 400 Bad Request", ""),
    (Status::NotFound, "HTTP/1.1 404 Not Found", ""),
    (
        Status::MethodNotAllowed(Method::Get),
        "HTTP/1.1 405 Method Not Allowed",
        "Allow: GET\r\n",
    ),
    (
        Status::MethodNotAllowed(Method::Put),
        "HTTP/1.1 405 Method Not Allowed",
        "Allow: PUT\r\n",
    ),
    (Status::Conflict, "HTTP/1.1 409 Conflict", ""),
    (Status::LengthRequired, "HTTP/1.1 411 Length Required", ""),
    (
        Status::PayloadTooLarge,
        "HTTP/1.1 413 Payload Too Large",
        "",
    ),
    (
        Status::UnprocessableEntity,
        "HTTP/1.1 422 Unprocessable Entity",
        "",
    ),
    (
        Status::InternalServerError,
        "HTTP/1.1 500 Internal Server Error",
        "",
    ),
    (
        Status::ServiceUnavailable,
        "HTTP/1.1 503 Service Unavailable",
        "",
    ),
];

#[test]
fn each_status_has_its_lines(rt: HostRuntime) -> Result<(), Fail> {
    for (status, status_line, allow) in REPLIES {
        let mut conn = MemConn::new(rt.alloc(), b"", 7, 256, &[])?;
        send_reply(&mut conn, status, Media::Json, b"{}")?;
        let wanted = reply(rt.alloc(), status_line, allow)?;
        assert_eq!(rt; conn.written(), wanted.as_bytes());
    }
    Ok(())
}

#[test]
fn a_capture_follows_its_lines_as_it_is(rt: HostRuntime) -> Result<(), Fail> {
    let mut conn = MemConn::new(rt.alloc(), b"", 9, 256, &[])?;
    send_reply(&mut conn, Status::Success, Media::Capture, b"a\0\xff\r\n")?;
    let mut wanted = Vec::new(rt.alloc());
    wanted.extend_from_slice(b"HTTP/1.1 200 OK\r\nContent-Type: application/octet-stream\r\n")?;
    wanted.extend_from_slice(b"Content-Length: 5\r\nConnection: close\r\n\r\na\0\xff\r\n")?;
    assert_eq!(rt; conn.written(), wanted.as_slice());
    Ok(())
}

#[test]
fn a_reply_that_does_not_fit_is_cut(rt: HostRuntime) -> Result<(), Fail> {
    let mut conn = MemConn::new(rt.alloc(), b"", 256, 20, &[])?;
    let answer = send_reply(&mut conn, Status::Success, Media::Json, b"{}");
    assert_eq!(rt; answer, Err(Failed));
    assert_eq!(rt; conn.written(), b"HTTP/1.1 200 OK\r\nCon".as_slice());
    Ok(())
}
