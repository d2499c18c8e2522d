//! The archive over HTTP, from the bytes of requests to those of their replies, over each keeper.

use crate::exchange::{Exchange, judge};
use pl_cli::serve;
use pl_io::{MemSink, TcpDoor};
use pl_keeper::{Keeper, MapKeeper, SqliteKeeper, open_in_memory};
use pl_notation::{EMPTY, Notation, damaged_ack};
use sqlite::Connection;
use std::alloc::Global;
use std::io::{Read, Write};
use std::net::{Shutdown, TcpStream};
use std::test::Fail;

const PUT_PROFILE: &str = "PUT /benches/b1/profiles/p1 HTTP/1.1\r\nContent-Length: 8";

const PUT_CAPTURE: &str = "PUT /benches/b1/profiles/p1/captures/k1 HTTP/1.1\r\nContent-Length: 72";

const PROFILE: &str = "{\"bench\":\"b1\",\"profile\":\"p1\"}";

const CAPTURE: &str =
    "{\"bench\":\"b1\",\"items\":2,\"key\":\"k1\",\"profile\":\"p1\",\"verdicts\":1}";

const VERDICTS: Exchange<'_> = Exchange {
    head: "GET /benches/b1/captures/k1/verdicts HTTP/1.1",
    sent: &[],
    status: "200 OK",
    answered: "{\"bench\":\"b1\",\"items\":2,\"key\":\"k1\",\"total\":1,\
               \"verdicts\":[{\"at\":2,\"first\":null,\"rule\":\"L2\",\"second\":null}]}",
};

/// A capture is put under a profile, again, and with other bytes, and its verdicts are asked for.
fn put_and_judge<K: Keeper>(alloc: Global, keeper: &mut K) -> Result<u8, Fail> {
    let capture = damaged_ack(alloc)?;
    let shorter = "PUT /benches/b1/profiles/p1/captures/k1 HTTP/1.1\r\nContent-Length: 36";
    let differs = "{\"error\":\"other bytes\",\"length\":72,\"place\":16,\"sent\":36}";
    let exchanges = [
        Exchange::new(PUT_PROFILE, "201 Created", PROFILE).with(b"vcs = 1\n"),
        Exchange::new(PUT_CAPTURE, "201 Created", CAPTURE).with(&capture),
        Exchange::new(PUT_CAPTURE, "200 OK", CAPTURE).with(&capture),
        Exchange::new(shorter, "409 Conflict", differs).with(&EMPTY),
        VERDICTS,
    ];
    judge(alloc, keeper, &exchanges)
}

#[test]
fn an_upload_acts_once(rt: HostRuntime) -> Result<(), Fail> {
    let mut keeper = MapKeeper::new(rt.alloc(), &[])?;
    assert_eq!(rt; put_and_judge(rt.alloc(), &mut keeper)?, 0);
    let mut keeper = open_in_memory(rt.alloc())?;
    assert_eq!(rt; put_and_judge(rt.alloc(), &mut keeper)?, 0);
    Ok(())
}

/// What requests are answered that find no row, no route or no room.
const REFUSALS: [Exchange<'_>; 6] = [
    Exchange {
        head: "GET /x HTTP/1.1",
        sent: &[],
        status: "404 Not Found",
        answered: "{\"error\":\"route\"}",
    },
    Exchange {
        head: "PUT /benches/b1/captures HTTP/1.1",
        sent: &[],
        status: "405 Method Not Allowed",
        answered: "{\"error\":\"method\"}",
    },
    Exchange {
        head: "PUT /benches/b1/profiles/p2 HTTP/1.1",
        sent: &[],
        status: "411 Length Required",
        answered: "{\"error\":\"length required\"}",
    },
    Exchange {
        head: "PUT /benches/b1/profiles/p2 HTTP/1.1\r\nContent-Length: 4194305",
        sent: &[],
        status: "413 Payload Too Large",
        answered: "{\"error\":\"limit\",\"limit\":4194304}",
    },
    Exchange {
        head: "GET /benches/B1/captures HTTP/1.1",
        sent: &[],
        status: "400 Bad Request",
        answered: "{\"error\":\"name\"}",
    },
    Exchange {
        head: "GET /benches//captures HTTP/1.1",
        sent: &[],
        status: "404 Not Found",
        answered: "{\"error\":\"route\"}",
    },
];

/// A bench shows its own rows, another one has none of them, and other requests are refused.
fn list_and_refuse<K: Keeper>(alloc: Global, keeper: &mut K) -> Result<u8, Fail> {
    let _ = put_and_judge(alloc, keeper)?;
    let capture = damaged_ack(alloc)?;
    let listed =
        "{\"bench\":\"b1\",\"captures\":[{\"key\":\"k1\",\"length\":72,\"profile\":\"p1\"}]}";
    let none = "{\"bench\":\"b2\",\"captures\":[]}";
    let elsewhere = "PUT /benches/b2/profiles/p1/captures/k1 HTTP/1.1\r\nContent-Length: 72";
    let no_profile = "{\"error\":\"no profile\"}";
    let exchanges = [
        Exchange::new("GET /benches/b2/captures HTTP/1.1", "200 OK", none),
        Exchange::new("GET /benches/b1/captures HTTP/1.1", "200 OK", listed),
        Exchange::new(elsewhere, "404 Not Found", no_profile).with(&capture),
    ];
    let _ = judge(alloc, keeper, &exchanges)?;
    judge(alloc, keeper, &REFUSALS)
}

#[test]
fn a_bench_shows_its_own_rows_and_each_refusal_has_its_reply(rt: HostRuntime) -> Result<(), Fail> {
    let mut keeper = MapKeeper::new(rt.alloc(), &[])?;
    assert_eq!(rt; list_and_refuse(rt.alloc(), &mut keeper)?, 0);
    let mut keeper = open_in_memory(rt.alloc())?;
    assert_eq!(rt; list_and_refuse(rt.alloc(), &mut keeper)?, 0);
    Ok(())
}

const STORE: Exchange<'_> = Exchange {
    head: "GET /benches/b1/captures HTTP/1.1",
    sent: &[],
    status: "503 Service Unavailable",
    answered: "{\"error\":\"store\"}",
};

/// A keeper in memory whose first call fails, and a database whose tables are of another form.
#[test]
fn a_failed_keeper_is_answered_and_ends_the_run_with_its_status(
    rt: HostRuntime,
) -> Result<(), Fail> {
    let mut keeper = MapKeeper::new(rt.alloc(), &[1])?;
    assert_eq!(rt; judge(rt.alloc(), &mut keeper, &[STORE])?, 10);
    let mut db = Connection::open_in_memory(rt.alloc())?;
    db.execute_batch("CREATE TABLE captures (bench TEXT) STRICT")?;
    let mut keeper = SqliteKeeper::new(db);
    assert_eq!(rt; judge(rt.alloc(), &mut keeper, &[STORE])?, 10);
    Ok(())
}

/// Its tag of six bits breaks M20 where a profile has five, and no rule under the usual one.
fn wide_tag(alloc: Global) -> Result<Vec<u8>, Fail> {
    let mut notation = Notation::new(alloc, 0)?;
    notation.rows("B0; Up MRd n=0 tag=20 addr=1000 len=1")?;
    Ok(notation.end()?)
}

/// The same capture under two profiles of a bench.
fn judge_by_rows<K: Keeper>(alloc: Global, keeper: &mut K) -> Result<u8, Fail> {
    let capture = wide_tag(alloc)?;
    let put_five = "PUT /benches/b1/profiles/five HTTP/1.1\r\nContent-Length: 12";
    let five = "{\"bench\":\"b1\",\"profile\":\"five\"}";
    let put_usual = "PUT /benches/b1/profiles/usual HTTP/1.1\r\nContent-Length: 0";
    let usual = "{\"bench\":\"b1\",\"profile\":\"usual\"}";
    let put_k5 = "PUT /benches/b1/profiles/five/captures/k5 HTTP/1.1\r\nContent-Length: 282";
    let k5 = "{\"bench\":\"b1\",\"items\":13,\"key\":\"k5\",\"profile\":\"five\",\"verdicts\":1}";
    let put_k8 = "PUT /benches/b1/profiles/usual/captures/k8 HTTP/1.1\r\nContent-Length: 282";
    let k8 = "{\"bench\":\"b1\",\"items\":13,\"key\":\"k8\",\"profile\":\"usual\",\"verdicts\":0}";
    let broken = "{\"bench\":\"b1\",\"items\":13,\"key\":\"k5\",\"total\":1,\
                  \"verdicts\":[{\"at\":13,\"first\":null,\"rule\":\"M20\",\"second\":null}]}";
    let clean = "{\"bench\":\"b1\",\"items\":13,\"key\":\"k8\",\"total\":0,\"verdicts\":[]}";
    let get_k5 = "GET /benches/b1/captures/k5/verdicts HTTP/1.1";
    let get_k8 = "GET /benches/b1/captures/k8/verdicts HTTP/1.1";
    let exchanges = [
        Exchange::new(put_five, "201 Created", five).with(b"tag_bits = 5"),
        Exchange::new(put_usual, "201 Created", usual),
        Exchange::new(put_k5, "201 Created", k5).with(&capture),
        Exchange::new(put_k8, "201 Created", k8).with(&capture),
        Exchange::new(get_k5, "200 OK", broken),
        Exchange::new(get_k8, "200 OK", clean),
    ];
    judge(alloc, keeper, &exchanges)
}

#[test]
fn verdicts_are_those_under_the_profile_of_the_row(rt: HostRuntime) -> Result<(), Fail> {
    let mut keeper = MapKeeper::new(rt.alloc(), &[])?;
    assert_eq!(rt; judge_by_rows(rt.alloc(), &mut keeper)?, 0);
    let mut keeper = open_in_memory(rt.alloc())?;
    assert_eq!(rt; judge_by_rows(rt.alloc(), &mut keeper)?, 0);
    Ok(())
}

/// Three peers of this machine send their requests before the first turn, and each has its reply.
#[test]
fn peers_over_tcp_are_answered_one_after_another(rt: HostRuntime) -> Result<(), Fail> {
    let address = "127.0.0.1:47100";
    let capture = damaged_ack(rt.alloc())?;
    let exchanges = [
        Exchange::new(PUT_PROFILE, "201 Created", PROFILE).with(b"vcs = 1\n"),
        Exchange::new(PUT_CAPTURE, "201 Created", CAPTURE).with(&capture),
        VERDICTS,
    ];
    let mut door = TcpDoor::bind(&rt, address);
    let mut peers = Vec::new(rt.alloc());
    for exchange in &exchanges {
        let mut peer = TcpStream::connect(&rt, address)?;
        peer.write_all(&exchange.request(rt.alloc())?)?;
        peer.shutdown(Shutdown::Write)?;
        peers.push(peer)?;
    }
    let mut keeper = open_in_memory(rt.alloc())?;
    let mut out = MemSink::new(rt.alloc(), 1000, 1000, &[])?;
    assert_eq!(rt; serve(rt.alloc(), 3, &mut out, &mut door, &mut keeper), 0);
    let lines = b"served 201\nserved 201\nserved 200\n";
    assert_eq!(rt; out.written(), lines.as_slice());
    for (peer, exchange) in peers.iter_mut().zip(&exchanges) {
        let mut reply = Vec::new(rt.alloc());
        peer.read_to_end(&mut reply)?;
        exchange.judge(rt.alloc(), &reply)?;
    }
    Ok(())
}
