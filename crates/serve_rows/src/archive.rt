//! The archive over links in memory: the lines of a run that serves them, and its status.

use pl_cli::{run, serve};
use pl_io::{MemConn, MemDoor, MemShelf, MemSink};
use pl_keeper::{Keeper, MapKeeper};
use pl_notation::{Outcome, damaged_ack};
use std::alloc::{AllocError, Global};
use std::test::Fail;

const LIST: &[u8] = b"GET /benches/b1/captures HTTP/1.1\r\n\r\n";

/// A link whose peer sends these bytes and of which these calls fail.
fn link(alloc: Global, sent: &[u8], failing: &[u64]) -> Result<MemConn, AllocError> {
    MemConn::new(alloc, sent, 100, 1000, failing)
}

/// A link whose peer puts a body.
fn upload(alloc: Global, target: &str, body: &[u8]) -> Result<MemConn, AllocError> {
    let length = body.len();
    let head = format!(in alloc; "PUT {target} HTTP/1.1\r\nContent-Length: {length}\r\n\r\n")?;
    let mut sent = Vec::from_slice(alloc, head.as_bytes())?;
    sent.extend_from_slice(body)?;
    link(alloc, &sent, &[])
}

/// What so many turns over these links write, in an output of so many bytes.
fn serve_into(
    alloc: Global,
    room: usize,
    turns: u32,
    links: Vec<MemConn>,
    keeper: &mut MapKeeper,
) -> Result<Outcome, AllocError> {
    let mut door = MemDoor::new(alloc, links, &[])?;
    let mut out = MemSink::new(alloc, room, 1000, &[])?;
    let status = serve(alloc, turns, &mut out, &mut door, keeper);
    let output = Vec::from_slice(alloc, out.written())?;
    Ok(Outcome { status, output })
}

#[test]
fn each_link_finds_the_rows_that_those_before_it_left(rt: HostRuntime) -> Result<(), Fail> {
    let alloc = rt.alloc();
    let mut keeper = MapKeeper::new(alloc, &[])?;
    let capture = damaged_ack(alloc)?;
    let target = "/benches/b1/profiles/p1/captures/k1";
    let mut links = Vec::new(alloc);
    links.push(upload(alloc, target, &capture)?)?;
    links.push(upload(alloc, "/benches/b1/profiles/p1", b"vcs = 1\n")?)?;
    links.push(upload(alloc, target, &capture)?)?;
    links.push(upload(alloc, target, &capture)?)?;
    let verdicts = b"GET /benches/b1/captures/k1/verdicts HTTP/1.1\r\n\r\n";
    links.push(link(alloc, verdicts, &[])?)?;
    let outcome = serve_into(alloc, 1000, 5, links, &mut keeper)?;
    let lines = "served 404; served 201; served 201; served 200; served 200";
    assert!(rt;
        outcome.status == 0 && outcome.has_lines(lines),
        "{outcome:?}"
    );
    Ok(())
}

#[test]
fn a_link_that_fails_does_not_hold_the_next(rt: HostRuntime) -> Result<(), Fail> {
    let alloc = rt.alloc();
    let mut keeper = MapKeeper::new(alloc, &[])?;
    let mut links = Vec::new(alloc);
    links.push(link(alloc, LIST, &[])?)?;
    links.push(link(alloc, LIST, &[1])?)?;
    links.push(link(alloc, LIST, &[])?)?;
    let outcome = serve_into(alloc, 1000, 3, links, &mut keeper)?;
    assert!(rt;
        outcome.is(0, "served 200\nserved 0\nserved 200\n"),
        "{outcome:?}"
    );
    Ok(())
}

/// The peer is gone before its reply, or takes only the front of it.
#[test]
fn an_upload_whose_reply_fails_is_stored(rt: HostRuntime) -> Result<(), Fail> {
    let alloc = rt.alloc();
    for room in [0, 20] {
        let mut keeper = MapKeeper::new(alloc, &[])?;
        let target = b"PUT /benches/b1/profiles/p1 HTTP/1.1\r\nContent-Length: 8\r\n\r\nvcs = 1\n";
        let mut links = Vec::new(alloc);
        links.push(MemConn::new(alloc, target, 100, room, &[])?)?;
        links.push(link(alloc, target, &[])?)?;
        let outcome = serve_into(alloc, 1000, 2, links, &mut keeper)?;
        assert!(rt;
            outcome.is(0, "served 0\nserved 200\n"),
            "{room}: {outcome:?}"
        );
        let stored = keeper.profile(alloc, "b1", "p1")?.ok_or("no profile")?;
        assert_eq!(rt; stored.as_slice(), b"vcs = 1\n".as_slice());
    }
    Ok(())
}

#[test]
fn a_failed_keeper_is_answered_behind_the_last_turn(rt: HostRuntime) -> Result<(), Fail> {
    let alloc = rt.alloc();
    let mut keeper = MapKeeper::new(alloc, &[1])?;
    let mut links = Vec::new(alloc);
    links.push(link(alloc, LIST, &[])?)?;
    links.push(link(alloc, LIST, &[])?)?;
    let outcome = serve_into(alloc, 1000, 3, links, &mut keeper)?;
    let lines = "served 503\nserved 200\nstore fault\n";
    assert!(rt; outcome.is(10, lines), "{outcome:?}");
    Ok(())
}

#[test]
fn a_door_without_links_ends_the_run(rt: HostRuntime) -> Result<(), Fail> {
    let alloc = rt.alloc();
    let mut keeper = MapKeeper::new(alloc, &[])?;
    let outcome = serve_into(alloc, 1000, 3, Vec::new(alloc), &mut keeper)?;
    assert!(rt; outcome.is(11, "door fault\n"), "{outcome:?}");
    Ok(())
}

#[test]
fn a_line_that_is_not_written_ends_the_run(rt: HostRuntime) -> Result<(), Fail> {
    let alloc = rt.alloc();
    let mut keeper = MapKeeper::new(alloc, &[])?;
    let mut links = Vec::new(alloc);
    links.push(link(alloc, LIST, &[])?)?;
    links.push(link(alloc, LIST, &[])?)?;
    let outcome = serve_into(alloc, 12, 3, links, &mut keeper)?;
    assert!(rt;
        outcome.status == 8 && outcome.output.starts_with(b"served 200\n"),
        "{outcome:?}"
    );
    Ok(())
}

/// What the program answers on the words `serve ADDRESS STORE` and these turns, over one link.
fn answered(alloc: Global, turns: &str) -> Result<Outcome, AllocError> {
    let mut links = Vec::new(alloc);
    links.push(link(alloc, LIST, &[])?)?;
    let mut door = MemDoor::new(alloc, links, &[])?;
    let mut keeper = MapKeeper::new(alloc, &[])?;
    let mut shelf = MemShelf::new(alloc, 1, &[])?;
    let mut out = MemSink::new(alloc, 1000, 1000, &[])?;
    let words = ["serve", "127.0.0.1:8080", "archive.db", turns];
    let status = run(alloc, &words, &mut shelf, &mut out, &mut door, &mut keeper);
    let output = Vec::from_slice(alloc, out.written())?;
    Ok(Outcome { status, output })
}

#[test]
fn the_last_word_says_how_many_links_are_served(rt: HostRuntime) -> Result<(), Fail> {
    let outcome = answered(rt.alloc(), "1")?;
    assert!(rt; outcome.is(0, "served 200\n"), "{outcome:?}");
    let outcome = answered(rt.alloc(), "2")?;
    assert!(rt; outcome.is(11, "served 200\ndoor fault\n"), "{outcome:?}");
    for turns in ["0", "1000001", "01", "x"] {
        let outcome = answered(rt.alloc(), turns)?;
        assert!(rt;
            outcome.status == 2 && outcome.output.starts_with(b"usage: "),
            "{turns}: {outcome:?}"
        );
    }
    Ok(())
}
