//! Requests of tests, and whether they are answered as they should be.

ghost use Rattle.std.specs.Prelude.{◌<◌};

use pl_io::MemConn;
use pl_keeper::MapKeeper;
use pl_web::{Routes, Served, serve_one};
use std::alloc::Global;
use std::test::Fail;

/// Two Acks, of which the second has a wrong CRC.
pub(crate) const CAPTURE: [u8; 72] = [
    0x50, 0x43, 0x49, 0x45, 0x4C, 0x49, 0x4E, 0x4B, 0x00, 0x01, 0x00, 0, 0, 0, 0, 0, // header
    0x01, 0x01, 0x00, 0x06, 0, 0, 0, 0, 0, 0, 0, 1, 0x00, 0x00, 0x0F, 0xFF, 0x25, 0xA8, // item 1
    0x01, 0x01, 0x00, 0x06, 0, 0, 0, 0, 0, 0, 0, 2, 0x00, 0x00, 0x0F, 0xFF, 0x25, 0xA9, // item 2
    0x03, 0x00, 0x00, 0x08, 0, 0, 0, 0, 0, 0, 0, 2, 0, 0, 0, 0, 0, 0, 0, 2, // end
];

/// A capture without items.
pub(crate) const EMPTY: [u8; 36] = [
    0x50, 0x43, 0x49, 0x45, 0x4C, 0x49, 0x4E, 0x4B, 0x00, 0x01, 0x00, 0, 0, 0, 0, 0, // header
    0x03, 0x00, 0x00, 0x08, 0, 0, 0, 0, 0, 0, 0, 1, 0, 0, 0, 0, 0, 0, 0, 0, // end
];

/// A peer that sends a head and a body, so many bytes at a time.
pub(crate) fn peer(alloc: Global, head: &str, body: &[u8], step: usize) -> Result<MemConn, Fail>
    requires { 0 < step }
{
    let mut text = Vec::from_slice(alloc, head.as_bytes())?;
    text.extend_from_slice(body)?;
    Ok(MemConn::new(alloc, &text, step, 1000, &[])?)
}

/// Whether a head and a body are answered with this status and this body.
pub(crate) fn answers(
    alloc: Global,
    keeper: &mut MapKeeper,
    head: &str,
    body: &[u8],
    status: u16,
    wanted: &[u8],
) -> Result<bool, Fail> {
    let routes = Routes::new(alloc)?;
    let mut conn = peer(alloc, head, body, 7)?;
    let served = serve_one(alloc, &routes, &mut conn, keeper);
    let mut end = Vec::from_slice(alloc, b"\r\n\r\n")?;
    end.extend_from_slice(wanted)?;
    Ok(served == Served { status, sent: true } && conn.written().ends_with(&end))
}

/// Whether an upload is answered with this status and this body.
pub(crate) fn put(
    alloc: Global,
    keeper: &mut MapKeeper,
    target: &str,
    body: &[u8],
    status: u16,
    wanted: &str,
) -> Result<bool, Fail> {
    let length = body.len();
    let head = format!(in alloc; "PUT {target} HTTP/1.1\r\nContent-Length: {length}\r\n\r\n")?;
    answers(alloc, keeper, &head, body, status, wanted.as_bytes())
}
