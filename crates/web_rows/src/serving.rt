//! Requests from their bytes to those of the replies, over an archive in memory.

use crate::asking::{CAPTURE, EMPTY, answers, put};
use pl_io::MemConn;
use pl_keeper::{Keeper, MapKeeper};
use pl_web::{Routes, Served, serve_one};
use std::alloc::Global;
use std::test::Fail;

#[test]
fn a_repeated_upload_acts_once(rt: HostRuntime) -> Result<(), Fail> {
    let alloc = rt.alloc();
    let mut keeper = MapKeeper::new(alloc, &[])?;
    let stored = "{\"bench\":\"b1\",\"profile\":\"p1\"}";
    assert!(rt;
        put(
            alloc,
            &mut keeper,
            "/benches/b1/profiles/p1",
            b"vcs = 1\n",
            201,
            stored
        )?
    );
    let upload = "/benches/b1/profiles/p1/captures/k1";
    let row = "{\"bench\":\"b1\",\"items\":2,\"key\":\"k1\",\"profile\":\"p1\",\"verdicts\":1}";
    assert!(rt; put(alloc, &mut keeper, upload, &CAPTURE, 201, row)?);
    assert!(rt; put(alloc, &mut keeper, upload, &CAPTURE, 200, row)?);
    let other = "{\"error\":\"other bytes\",\"length\":72,\"place\":16,\"sent\":36}";
    assert!(rt; put(alloc, &mut keeper, upload, &EMPTY, 409, other)?);
    let list = "{\"bench\":\"b1\",\
                \"captures\":[{\"key\":\"k1\",\"length\":72,\"profile\":\"p1\"}]}";
    let asked = "GET /benches/b1/captures HTTP/1.1\r\n\r\n";
    assert!(rt; answers(alloc, &mut keeper, asked, b"", 200, list.as_bytes())?);
    Ok(())
}

#[test]
fn a_capture_is_shown_with_its_verdicts_and_its_bytes(rt: HostRuntime) -> Result<(), Fail> {
    let alloc = rt.alloc();
    let mut keeper = MapKeeper::new(alloc, &[])?;
    let _ = keeper.put_profile(alloc, "b1", "p1", b"vcs = 1\n");
    let _ = keeper.put_capture(alloc, "b1", "k1", "p1", &CAPTURE);
    let verdicts = "{\"bench\":\"b1\",\"items\":2,\"key\":\"k1\",\"total\":1,\
                    \"verdicts\":[{\"at\":2,\"first\":null,\"rule\":\"L2\",\"second\":null}]}";
    let asked = "GET /benches/b1/captures/k1/verdicts HTTP/1.1\r\n\r\n";
    assert!(rt; answers(alloc, &mut keeper, asked, b"", 200, verdicts.as_bytes())?);
    let asked = "GET /benches/b1/captures/k1 HTTP/1.1\r\n\r\n";
    assert!(rt; answers(alloc, &mut keeper, asked, b"", 200, &CAPTURE)?);
    Ok(())
}

/// A capture of 10,001 Acks with a wrong CRC.
fn many_broken_acks(alloc: Global) -> Result<Vec<u8>, Fail> {
    let (header, ack, end) = (&CAPTURE[..16], &CAPTURE[34..52], &CAPTURE[52..70]);
    let mut capture = Vec::from_slice(alloc, header)?;
    for _ in 0..10_001 {
        capture.extend_from_slice(ack)?;
    }
    capture.extend_from_slice(end)?;
    capture.extend_from_slice(&[0x27, 0x11])?;
    Ok(capture)
}

#[test]
fn all_verdicts_are_counted_and_the_first_10_000_are_shown(rt: HostRuntime) -> Result<(), Fail> {
    let alloc = rt.alloc();
    let mut keeper = MapKeeper::new(alloc, &[])?;
    let capture = many_broken_acks(alloc)?;
    assert!(rt; capture.len() == 16 + 10_001 * 18 + 20);
    let _ = keeper.put_profile(alloc, "b1", "p1", b"");
    let _ = keeper.put_capture(alloc, "b1", "k1", "p1", &capture);
    let routes = Routes::new(alloc)?;
    let asked = b"GET /benches/b1/captures/k1/verdicts HTTP/1.1\r\n\r\n";
    let mut conn = MemConn::new(alloc, asked, 100_000, 1_000_000, &[])?;
    let served = serve_one(alloc, &routes, &mut conn, &mut keeper);
    assert!(rt;
        served
            == Served {
                status: 200,
                sent: true
            }
    );
    let counts = b"\"items\":10001,\"key\":\"k1\",\"total\":10001,".as_slice();
    assert!(rt;
        conn.written()
            .windows(counts.len())
            .any(|part| part == counts)
    );
    let last = b"{\"at\":10000,\"first\":null,\"rule\":\"L2\",\"second\":null}]}";
    assert!(rt; conn.written().ends_with(last));
    Ok(())
}

#[test]
fn a_failed_keeper_is_answered_with_503(rt: HostRuntime) -> Result<(), Fail> {
    let alloc = rt.alloc();
    let mut keeper = MapKeeper::new(alloc, &[1])?;
    let asked = "GET /benches/b1/captures HTTP/1.1\r\n\r\n";
    assert!(rt;
        answers(
            alloc,
            &mut keeper,
            asked,
            b"",
            503,
            b"{\"error\":\"store\"}"
        )?
    );
    let list = b"{\"bench\":\"b1\",\"captures\":[]}";
    assert!(rt; answers(alloc, &mut keeper, asked, b"", 200, list)?);
    Ok(())
}
