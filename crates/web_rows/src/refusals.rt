//! Requests that the rows, a profile or a capture refuse: of two reasons the first counts.

use crate::asking::{CAPTURE, EMPTY, answers, put};
use pl_keeper::{Keeper, MapKeeper};
use std::test::Fail;

#[test]
fn what_cannot_be_read_is_refused_before_the_row_that_is_there(
    rt: HostRuntime,
) -> Result<(), Fail> {
    let alloc = rt.alloc();
    let mut keeper = MapKeeper::new(alloc, &[])?;
    let _ = keeper.put_profile(alloc, "b1", "p1", b"vcs = 1\n");
    let _ = keeper.put_capture(alloc, "b1", "k1", "p1", &CAPTURE);
    let profile = "/benches/b1/profiles/p1";
    let refused = "{\"error\":\"profile\",\"number\":2}";
    assert!(rt; put(alloc, &mut keeper, profile, b"foo = 1", 422, refused)?);
    let upload = "/benches/b1/profiles/p1/captures/k1";
    let cut = "{\"error\":\"malformed\",\"item\":3,\"number\":9}";
    assert!(rt; put(alloc, &mut keeper, upload, &CAPTURE[..71], 422, cut)?);
    let mut flit = CAPTURE;
    flit[10] = 1;
    let mode = "{\"error\":\"unsupported\",\"item\":0,\"number\":1}";
    assert!(rt; put(alloc, &mut keeper, upload, &flit, 422, mode)?);
    Ok(())
}

#[test]
fn a_row_refuses_another_profile_before_other_bytes(rt: HostRuntime) -> Result<(), Fail> {
    let alloc = rt.alloc();
    let mut keeper = MapKeeper::new(alloc, &[])?;
    let _ = keeper.put_profile(alloc, "b1", "p1", b"vcs = 1\n");
    let _ = keeper.put_profile(alloc, "b1", "p2", b"vcs = 1\n");
    let _ = keeper.put_capture(alloc, "b1", "k1", "p1", &CAPTURE);
    let profile = "/benches/b1/profiles/p1";
    let differs = "{\"error\":\"other bytes\",\"length\":8,\"place\":6,\"sent\":8}";
    assert!(rt; put(alloc, &mut keeper, profile, b"vcs = 2\n", 409, differs)?);
    let upload = "/benches/b1/profiles/p2/captures/k1";
    let owned = "{\"error\":\"other profile\"}";
    assert!(rt; put(alloc, &mut keeper, upload, &EMPTY, 409, owned)?);
    let upload = "/benches/b1/profiles/p3/captures/k1";
    let unknown = "{\"error\":\"no profile\"}";
    assert!(rt; put(alloc, &mut keeper, upload, b"", 404, unknown)?);
    let upload = "/benches/b2/profiles/p1/captures/k1";
    assert!(rt; put(alloc, &mut keeper, upload, &CAPTURE, 404, unknown)?);
    Ok(())
}

#[test]
fn a_bench_shows_its_own_captures_alone(rt: HostRuntime) -> Result<(), Fail> {
    let alloc = rt.alloc();
    let mut keeper = MapKeeper::new(alloc, &[])?;
    let _ = keeper.put_profile(alloc, "b1", "p1", b"vcs = 1\n");
    let _ = keeper.put_capture(alloc, "b1", "k1", "p1", &CAPTURE);
    let none = b"{\"error\":\"no capture\"}";
    let asked = "GET /benches/b2/captures/k1 HTTP/1.1\r\n\r\n";
    assert!(rt; answers(alloc, &mut keeper, asked, b"", 404, none)?);
    let asked = "GET /benches/b2/captures/k1/verdicts HTTP/1.1\r\n\r\n";
    assert!(rt; answers(alloc, &mut keeper, asked, b"", 404, none)?);
    let asked = "GET /benches/b2/captures HTTP/1.1\r\n\r\n";
    let list = b"{\"bench\":\"b2\",\"captures\":[]}";
    assert!(rt; answers(alloc, &mut keeper, asked, b"", 200, list)?);
    let asked = "GET /benches/b2/rules/L2 HTTP/1.1\r\n\r\n";
    let found = b"{\"bench\":\"b2\",\"found\":[],\"rule\":\"L2\",\"total\":0}";
    assert!(rt; answers(alloc, &mut keeper, asked, b"", 200, found)?);
    let asked = "GET /benches/b1/rules/L2 HTTP/1.1\r\n\r\n";
    let found = "{\"bench\":\"b1\",\"found\":[{\"at\":2,\"key\":\"k1\"}],\
                 \"rule\":\"L2\",\"total\":1}";
    assert!(rt; answers(alloc, &mut keeper, asked, b"", 200, found.as_bytes())?);
    Ok(())
}

#[test]
fn refusals_before_the_rows_have_their_statuses(rt: HostRuntime) -> Result<(), Fail> {
    let alloc = rt.alloc();
    let mut keeper = MapKeeper::new(alloc, &[])?;
    let asked = "GET /x HTTP/1.1\r\n\r\n";
    assert!(rt;
        answers(
            alloc,
            &mut keeper,
            asked,
            b"",
            404,
            b"{\"error\":\"route\"}"
        )?
    );
    let asked = "PUT /benches/b1/captures HTTP/1.1\r\n\r\n";
    assert!(rt;
        answers(
            alloc,
            &mut keeper,
            asked,
            b"",
            405,
            b"{\"error\":\"method\"}"
        )?
    );
    let asked = "GET /benches/B1/captures HTTP/1.1\r\n\r\n";
    assert!(rt; answers(alloc, &mut keeper, asked, b"", 400, b"{\"error\":\"name\"}")?);
    let asked = "PUT /benches/b1/profiles/p2 HTTP/1.1\r\n\r\n";
    let wanted = b"{\"error\":\"length required\"}";
    assert!(rt; answers(alloc, &mut keeper, asked, b"", 411, wanted)?);
    let asked = "PUT /benches/b1/profiles/p2 HTTP/1.1\r\nContent-Length: 4194305\r\n\r\n";
    let wanted = b"{\"error\":\"limit\",\"limit\":4194304}";
    assert!(rt; answers(alloc, &mut keeper, asked, b"", 413, wanted)?);
    let asked = "DELETE /nowhere HTTP/1.1\r\nContent-Length: 1\r\nContent-Length: 1\r\n\r\n";
    assert!(rt; answers(alloc, &mut keeper, asked, b"", 400, b"{\"error\":\"form\"}")?);
    assert!(rt;
        answers(
            alloc,
            &mut keeper,
            "GET\r\n",
            b"",
            400,
            b"{\"error\":\"head\"}"
        )?
    );
    Ok(())
}
