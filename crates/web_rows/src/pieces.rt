//! However a request comes, it is answered the same; and what is lost on the way.

use crate::asking::{answers, peer};
use pl_io::MemConn;
use pl_keeper::MapKeeper;
use pl_web::{Routes, Served, serve_one};
use std::test::Fail;

const NO_REPLY: Served = Served {
    status: 0,
    sent: false,
};

#[test]
fn a_body_may_come_byte_by_byte_with_more_behind_it(rt: HostRuntime) -> Result<(), Fail> {
    let alloc = rt.alloc();
    let routes = Routes::new(alloc)?;
    let mut keeper = MapKeeper::new(alloc, &[])?;
    let head = "PUT /benches/b1/profiles/p1 HTTP/1.0\r\ncontent-length: 08\r\n\r\n";
    let mut conn = peer(alloc, head, b"vcs = 1\nGET / HTTP/1.1\r\n\r\n", 1)?;
    let served = serve_one(alloc, &routes, &mut conn, &mut keeper);
    assert_eq!(rt;
        served,
        Served {
            status: 201,
            sent: true
        }
    );
    Ok(())
}

#[test]
fn a_peer_that_ends_within_its_request_is_not_answered(rt: HostRuntime) -> Result<(), Fail> {
    let alloc = rt.alloc();
    let routes = Routes::new(alloc)?;
    let mut keeper = MapKeeper::new(alloc, &[])?;
    let head = "PUT /benches/b1/profiles/p1 HTTP/1.1\r\nContent-Length: 9\r\n\r\n";
    let mut conn = peer(alloc, head, b"vcs = 1\n", 100)?;
    assert_eq!(rt; serve_one(alloc, &routes, &mut conn, &mut keeper), NO_REPLY);
    assert!(rt; conn.written().is_empty());
    let mut conn = peer(alloc, "GET /benches/b1/captures HTTP/1.1\r\n", b"", 100)?;
    assert_eq!(rt; serve_one(alloc, &routes, &mut conn, &mut keeper), NO_REPLY);
    assert!(rt; conn.written().is_empty());
    Ok(())
}

#[test]
fn a_reply_without_room_is_cut(rt: HostRuntime) -> Result<(), Fail> {
    let alloc = rt.alloc();
    let routes = Routes::new(alloc)?;
    let mut keeper = MapKeeper::new(alloc, &[])?;
    let asked = b"GET /x HTTP/1.1\r\n\r\n";
    let mut conn = MemConn::new(alloc, asked, 5, 12, &[])?;
    let served = serve_one(alloc, &routes, &mut conn, &mut keeper);
    assert_eq!(rt;
        served,
        Served {
            status: 404,
            sent: false
        }
    );
    assert!(rt; b"HTTP/1.1 404".starts_with(conn.written()));
    Ok(())
}

#[test]
fn a_head_of_16384_bytes_is_whole_or_too_long(rt: HostRuntime) -> Result<(), Fail> {
    let alloc = rt.alloc();
    let mut keeper = MapKeeper::new(alloc, &[])?;
    let fill = "a".repeat(alloc, 16_384 - 45)?;
    let head = format!(in alloc; "GET /benches/b1/captures HTTP/1.1\r\nFill: {fill}\r\n\r\n")?;
    let list = b"{\"bench\":\"b1\",\"captures\":[]}";
    assert_eq!(rt; head.len(), 16_384);
    assert!(rt; answers(alloc, &mut keeper, &head, b"", 200, list)?);
    let head = format!(in alloc; "GET /benches/b1/captures HTTP/1.1\r\nFill: {fill}aa")?;
    let long = b"{\"error\":\"limit\",\"limit\":16384}";
    assert!(rt; answers(alloc, &mut keeper, &head, b"\r\n\r\n", 413, long)?);
    Ok(())
}
