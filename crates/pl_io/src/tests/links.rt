//! Connections and doors as they are worked out by hand.
ghost use Rattle.std.specs.Prelude.{◌≡◌, false, IfOk, OnOk};

use crate::{Conn, Door, Failed, MemConn, MemDoor, send_all};
use std::alloc::{AllocError, Global};
use std::test::Fail;

const REQUEST: &[u8] = b"a first line";

/// What comes from the peer, as far as 20 reads give it.
pub fn incoming<C: Conn>(alloc: Global, conn: &mut C) -> Result<Vec<u8>, Fail> {
    let mut bytes = Vec::new(alloc);
    let mut buf = [0; 8];
    for _ in 0..20 {
        let count = conn.read(&mut buf)?;
        bytes.extend_from_slice(&buf[..count])?;
    }
    Ok(bytes)
}

#[test]
fn what_a_peer_sends_is_read_in_order(rt: HostRuntime) -> Result<(), Fail> {
    for step in [1, 3, 80] {
        let mut conn = MemConn::new(rt.alloc(), REQUEST, step, 0, &[])?;
        assert_eq!(rt;
            incoming(rt.alloc(), &mut conn)?.as_slice(),
            REQUEST,
            "step {step}"
        );
    }
    Ok(())
}

#[test]
fn reads_and_writes_are_counted_together(rt: HostRuntime) -> Result<(), Fail> {
    let mut conn = MemConn::new(rt.alloc(), REQUEST, 3, 8, &[3])?;
    let mut buf = [0; 8];
    assert_eq!(rt; conn.read(&mut buf), Ok(3));
    assert_eq!(rt; conn.write(b"abcd"), Ok(3));
    assert_eq!(rt; conn.read(&mut buf), Err(Failed));
    assert_eq!(rt; send_all(&mut conn, b"defgh"), Ok(()));
    assert_eq!(rt; conn.write(b"i"), Err(Failed));
    assert_eq!(rt; conn.written(), b"abcdefgh".as_slice());
    assert_eq!(rt;
        incoming(rt.alloc(), &mut conn)?.as_slice(),
        b"irst line".as_slice()
    );
    Ok(())
}

fn two_links(alloc: Global, fails: &[u64]) -> Result<MemDoor, AllocError>
    ensures { IfOk result (λ door. ⟦<MemDoor as Door>⟧.is_out door ≡ false) }
{
    let mut links = Vec::new(alloc);
    for request in [b"one", b"two"] {
        links.push(MemConn::new(alloc, request, 2, 9, &[])?)?;
    }
    MemDoor::new(alloc, links, fails)
}

/// Sends what comes from the next peer back to it.
fn echo<D: Door>(alloc: Global, door: &mut D) -> Result<(), Fail>
    requires { D.is_out door.old ≡ false }
    ensures { OnOk result (D.is_out door.new ≡ false) }
{
    let mut link = door.next()?;
    let bytes = incoming(alloc, &mut link)?;
    send_all(&mut link, &bytes)?;
    door.close(link);
    Ok(())
}

fn is_reply(door: &MemDoor, k: usize, bytes: &[u8]) -> bool {
    match door.written(k) {
        Some(written) => written == bytes,
        None => false,
    }
}

#[test]
fn links_come_and_are_kept_in_order(rt: HostRuntime) -> Result<(), Fail> {
    let mut door = two_links(rt.alloc(), &[2])?;
    echo(rt.alloc(), &mut door)?;
    assert!(rt; is_reply(&door, 0, b"one"));
    assert!(rt; door.written(1).is_none());
    assert!(rt; door.next().is_err());
    echo(rt.alloc(), &mut door)?;
    assert!(rt; is_reply(&door, 1, b"two"));
    assert!(rt; door.next().is_err());
    Ok(())
}
