//! What strangers send to an archive that has a capture, and a store that fails at any call.

use pl_cli::serve;
use pl_io::{MemConn, MemDoor, MemSink};
use pl_keeper::MapKeeper;
use pl_notation::damaged_ack;
use std::alloc::{AllocError, Global};
use std::test::Fail;

const LIST: &[u8] = b"GET /benches/b1/captures HTTP/1.1\r\n\r\n";

/// The list of a bench that has the capture k1 alone.
const BEFORE: &str =
    "{\"bench\":\"b1\",\"captures\":[{\"key\":\"k1\",\"length\":72,\"profile\":\"p1\"}]}";

/// A request for this, as `PUT /x`, with these lines behind it and then a body.
fn request(alloc: Global, line: &str, lines: &str, body: &[u8]) -> Result<Vec<u8>, AllocError> {
    let head = format!(in alloc; "{line} HTTP/1.1\r\n{lines}\r\n\r\n")?;
    let mut bytes = Vec::from_slice(alloc, head.as_bytes())?;
    bytes.extend_from_slice(body)?;
    Ok(bytes)
}

/// A link whose peer sends these bytes.
fn link(alloc: Global, sent: &[u8]) -> Result<MemConn, AllocError> {
    MemConn::new(alloc, sent, 65_536, 1000, &[])
}

/// What comes of a stranger's visit.
#[derive(Debug, Drop)]
struct Visit {
    /// The status of the run, and its lines.
    status: u8,
    lines: Vec<u8>,
    /// What the stranger is answered.
    reply: Vec<u8>,
    /// What is answered afterwards to one who asks for the captures of the bench.
    listed: Vec<u8>,
}

/// A profile and the capture k1 are put, with three calls of the keeper, then the stranger sends
/// these bytes, and then the list of captures is asked for. These calls of the keeper fail.
fn receive(alloc: Global, sent: &[u8], failing: &[u64]) -> Result<Visit, Fail> {
    let capture = damaged_ack(alloc)?;
    let profile = request(
        alloc,
        "PUT /benches/b1/profiles/p1",
        "Content-Length: 8",
        b"vcs = 1\n",
    )?;
    let upload = request(
        alloc,
        "PUT /benches/b1/profiles/p1/captures/k1",
        "Content-Length: 72",
        &capture,
    )?;
    let mut links = Vec::new(alloc);
    links.push(link(alloc, &profile)?)?;
    links.push(link(alloc, &upload)?)?;
    links.push(link(alloc, sent)?)?;
    links.push(link(alloc, LIST)?)?;
    let mut door = MemDoor::new(alloc, links, &[])?;
    let mut keeper = MapKeeper::new(alloc, failing)?;
    let mut out = MemSink::new(alloc, 1000, 1000, &[])?;
    let status = serve(alloc, 4, &mut out, &mut door, &mut keeper);
    Ok(Visit {
        status,
        lines: Vec::from_slice(alloc, out.written())?,
        reply: Vec::from_slice(alloc, door.written(2).ok_or("no such link")?)?,
        listed: Vec::from_slice(alloc, door.written(3).ok_or("no such link")?)?,
    })
}

impl Visit {
    /// Whether these are the lines of the run, the front and the end of the stranger's reply, and
    /// the end of the list.
    fn is(&self, lines: &str, front: &str, end: &str, listed: &str) -> bool {
        self.lines.as_slice() == lines.as_bytes()
            && self.reply.starts_with(front.as_bytes())
            && self.reply.ends_with(end.as_bytes())
            && self.listed.ends_with(listed.as_bytes())
    }
}

/// Checks that a stranger who sends these bytes has a reply of this status, as `400 Bad Request`,
/// and this body, and that the archive is as before.
fn judge(alloc: Global, sent: &[u8], status: &str, body: &str) -> Result<(), Fail> {
    let visit = receive(alloc, sent, &[])?;
    let code = status.get(0..3).ok_or("no status")?;
    let lines = format!(in alloc; "served 201\nserved 201\nserved {code}\nserved 200\n")?;
    let front = format!(in alloc; "HTTP/1.1 {status}\r\n")?;
    let end = format!(in alloc; "\r\n\r\n{body}")?;
    if visit.status == 0 && visit.is(&lines, &front, &end, BEFORE) {
        return Ok(());
    }
    Err(Fail::new(format_args!("not {status}, {body}: {visit:?}")))
}

#[test]
fn what_begins_no_head_is_refused_at_once(rt: HostRuntime) -> Result<(), Fail> {
    let alloc = rt.alloc();
    judge(alloc, &[0], "400 Bad Request", "{\"error\":\"head\"}")
}

#[test]
fn a_head_without_an_end_is_refused_at_its_limit(rt: HostRuntime) -> Result<(), Fail> {
    let alloc = rt.alloc();
    let mut sent = Vec::from_slice(alloc, b"GET /x HTTP/1.1\r\nA: ")?;
    let letters = vec![in alloc; b'a'; 16_364]?;
    sent.extend_from_slice(&letters)?;
    assert_eq!(rt; sent.len(), 16_384);
    let body = "{\"error\":\"limit\",\"limit\":16384}";
    judge(alloc, &sent, "413 Payload Too Large", body)
}

#[test]
fn a_body_of_another_form_is_refused_before_its_path(rt: HostRuntime) -> Result<(), Fail> {
    let alloc = rt.alloc();
    for lines in [
        "Content-Length: 1\r\nContent-Length: 1",
        "Content-Length: +5",
        "Transfer-Encoding: chunked",
    ] {
        let sent = request(alloc, "PUT /x", lines, &[])?;
        judge(alloc, &sent, "400 Bad Request", "{\"error\":\"form\"}")?;
    }
    Ok(())
}

const PUT_K2: &str = "PUT /benches/b1/profiles/p1/captures/k2";

#[test]
fn the_longest_body_is_judged_and_a_longer_one_is_refused(rt: HostRuntime) -> Result<(), Fail> {
    let alloc = rt.alloc();
    let body = vec![in alloc; b'x'; 4_194_304]?;
    let longest = request(alloc, PUT_K2, "Content-Length: 4194304", &body)?;
    let malformed = "{\"error\":\"malformed\",\"item\":0,\"number\":1}";
    judge(alloc, &longest, "422 Unprocessable Entity", malformed)?;
    let longer = request(alloc, PUT_K2, "Content-Length: 4194305", &body)?;
    let limit = "{\"error\":\"limit\",\"limit\":4194304}";
    judge(alloc, &longer, "413 Payload Too Large", limit)
}

/// An upload under k2 of the bytes that k1 has.
fn upload(alloc: Global) -> Result<Vec<u8>, Fail> {
    let capture = damaged_ack(alloc)?;
    Ok(request(alloc, PUT_K2, "Content-Length: 72", &capture)?)
}

#[test]
fn an_upload_that_is_cut_anywhere_changes_nothing(rt: HostRuntime) -> Result<(), Fail> {
    let alloc = rt.alloc();
    let upload = upload(alloc)?;
    let lines = "served 201\nserved 201\nserved 0\nserved 200\n";
    for length in 0..upload.len() {
        let visit = receive(alloc, &upload[..length], &[])?;
        assert!(rt;
            visit.status == 0 && visit.reply.is_empty() && visit.is(lines, "", "", BEFORE),
            "{length}: {visit:?}"
        );
    }
    Ok(())
}

/// The upload takes two calls of the keeper; the third is the one for the list.
#[test]
fn an_upload_changes_nothing_wherever_a_call_of_the_store_fails(
    rt: HostRuntime,
) -> Result<(), Fail> {
    let alloc = rt.alloc();
    let upload = upload(alloc)?;
    let front = "HTTP/1.1 503 Service Unavailable\r\n";
    let end = "{\"error\":\"store\"}";
    for failing in [4, 5] {
        let visit = receive(alloc, &upload, &[failing])?;
        let lines = "served 201\nserved 201\nserved 503\nserved 200\nstore fault\n";
        assert!(rt;
            visit.status == 10 && visit.is(lines, front, end, BEFORE),
            "call {failing}: {visit:?}"
        );
    }
    let visit = receive(alloc, &upload, &[6])?;
    let lines = "served 201\nserved 201\nserved 201\nserved 503\nstore fault\n";
    let created = "HTTP/1.1 201 Created\r\n";
    assert!(rt;
        visit.status == 10 && visit.is(lines, created, "\"verdicts\":1}", end),
        "{visit:?}"
    );
    Ok(())
}
