//! How requests begin.
ghost use Rattle.std.specs.Prelude.{◌<◌};

use crate::{HeadRoom, Opening, read_front};
use pl_io::{Failed, MemConn};
use std::alloc::{AllocError, Global};
use std::test::Fail;

/// How a request begins that comes in pieces of `step` bytes.
fn front(alloc: Global, request: &[u8], step: usize) -> Result<Opening, Fail>
    requires { 0 < step }
{
    let mut room = HeadRoom::new(alloc)?;
    let mut conn = MemConn::new(alloc, request, step, 0, &[])?;
    let opening = read_front(&mut conn, &mut room.bytes, &mut room.fields)?;
    Ok(opening)
}

/// A head with a value of so many bytes; the rest of it is 26 bytes.
fn long_head(alloc: Global, value: u32) -> Result<Vec<u8>, AllocError> {
    let mut head = Vec::new(alloc);
    head.extend_from_slice(b"GET / HTTP/1.1\r\nLong: ")?;
    for _ in 0..value {
        head.push(b'v')?;
    }
    head.extend_from_slice(b"\r\n\r\n")?;
    Ok(head)
}

#[test]
fn a_head_of_exactly_the_limit_is_whole(rt: HostRuntime) -> Result<(), Fail> {
    let head = long_head(rt.alloc(), 16_384 - 26)?;
    assert_eq!(rt; head.len(), 16_384);
    let opening = front(rt.alloc(), &head, 20_000)?;
    assert!(rt; matches!(opening, Opening::Whole { filled: 16_384, .. }));
    Ok(())
}

#[test]
fn a_head_of_one_byte_more_is_too_long(rt: HostRuntime) -> Result<(), Fail> {
    let head = long_head(rt.alloc(), 16_385 - 26)?;
    assert_eq!(rt; front(rt.alloc(), &head, 20_000)?, Opening::Long);
    Ok(())
}

#[test]
fn one_byte_less_than_the_limit_without_a_head_is_cut_short(rt: HostRuntime) -> Result<(), Fail> {
    let mut head = long_head(rt.alloc(), 16_384 - 26)?;
    head.pop();
    let opening = front(rt.alloc(), &head, 20_000)?;
    assert_eq!(rt; opening, Opening::Short { filled: 16_383 });
    Ok(())
}

#[test]
fn no_head_begins_with_a_byte_0(rt: HostRuntime) -> Result<(), Fail> {
    let opening = front(rt.alloc(), b"\0GET / HTTP/1.1\r\n\r\n", 1)?;
    assert_eq!(rt; opening, Opening::Bad { filled: 1 });
    Ok(())
}

#[test]
fn a_head_is_whole_at_its_last_byte(rt: HostRuntime) -> Result<(), Fail> {
    let opening = front(rt.alloc(), b"PUT /a HTTP/1.0\r\nA: b\r\n\r\nbody", 1)?;
    match opening {
        Opening::Whole { head, filled } => {
            assert_eq!(rt; (filled, head.len), (25, 25));
            assert_eq!(rt; (head.version, head.headers), (0, 1));
        }
        _ => assert!(rt; false),
    }
    Ok(())
}

#[test]
fn a_peer_may_end_within_its_head(rt: HostRuntime) -> Result<(), Fail> {
    for step in [1, 5, 40] {
        let opening = front(rt.alloc(), b"GET /a HTTP/1.1\r\nA: b\r\n", step)?;
        assert_eq!(rt; opening, Opening::Short { filled: 23 });
    }
    Ok(())
}

#[test]
fn a_read_that_fails_ends_it(rt: HostRuntime) -> Result<(), Fail> {
    let mut room = HeadRoom::new(rt.alloc())?;
    let mut conn = MemConn::new(rt.alloc(), b"GET / HTTP/1.1\r\n\r\n", 4, 0, &[3])?;
    let opening = read_front(&mut conn, &mut room.bytes, &mut room.fields);
    assert_eq!(rt; opening, Err(Failed));
    Ok(())
}
