//! Where the captures of a bench break a rule, asked over links, over each keeper.
ghost use Rattle.std.specs.Prelude.{◌≤◌, IfOk, length};
ghost use Rattle.pl_keeper.specs.Archive.{longest_body};

use crate::exchange::{Exchange, judge};
use pl_base::Dir;
use pl_keeper::{Keeper, MapKeeper, open_in_memory};
use pl_notation::{EMPTY, Notation, damaged_ack};
use std::alloc::{AllocError, Global};
use std::test::Fail;

const L2: &str = "GET /benches/b1/rules/L2 HTTP/1.1";

/// The bytes of a row, of which a keeper takes at most 4,194,304.
fn row(bytes: &[u8]) -> Result<&[u8], Fail>
    ensures { IfOk result (λ row. length row.now ≤ longest_body) }
{
    if bytes.len() > 4_194_304 {
        return Err(Fail::new(format_args!("a row that is too long")));
    }
    Ok(bytes)
}

/// Puts a profile and these captures under it, past the links: a keeper takes any bytes.
fn put<K: Keeper>(
    alloc: Global,
    keeper: &mut K,
    profile: &[u8],
    captures: &[(&str, &[u8])],
) -> Result<(), Fail> {
    let _ = keeper.put_profile(alloc, "b1", "p1", row(profile)?)?;
    for (key, bytes) in captures {
        let _ = keeper.put_capture(alloc, "b1", key, "p1", row(bytes)?)?;
    }
    Ok(())
}

/// Three captures come in another order than that of their keys, and one of them has no items.
fn ask_for_hits<K: Keeper>(alloc: Global, keeper: &mut K) -> Result<u8, Fail> {
    let broken = damaged_ack(alloc)?;
    let captures = [
        ("k3", broken.as_slice()),
        ("k1", EMPTY.as_slice()),
        ("k2", broken.as_slice()),
    ];
    put(alloc, keeper, b"vcs = 1\n", &captures)?;
    let found = "{\"bench\":\"b1\",\"found\":[{\"at\":2,\"key\":\"k2\"},{\"at\":2,\"key\":\"k3\"}],\
                 \"rule\":\"L2\",\"total\":2}";
    let kept = "{\"bench\":\"b1\",\"found\":[],\"rule\":\"C10\",\"total\":0}";
    let elsewhere = "{\"bench\":\"b2\",\"found\":[],\"rule\":\"L2\",\"total\":0}";
    let exchanges = [
        Exchange::new(L2, "200 OK", found),
        Exchange::new("GET /benches/b1/rules/C10 HTTP/1.1", "200 OK", kept),
        Exchange::new("GET /benches/b2/rules/L2 HTTP/1.1", "200 OK", elsewhere),
    ];
    judge(alloc, keeper, &exchanges)
}

#[test]
fn the_hits_of_a_rule_are_those_of_one_bench_by_key(rt: HostRuntime) -> Result<(), Fail> {
    let mut keeper = MapKeeper::new(rt.alloc(), &[])?;
    assert_eq!(rt; ask_for_hits(rt.alloc(), &mut keeper)?, 0);
    let mut keeper = open_in_memory(rt.alloc())?;
    assert_eq!(rt; ask_for_hits(rt.alloc(), &mut keeper)?, 0);
    Ok(())
}

/// The method comes first, then the name of the bench, then the rule.
#[test]
fn a_request_for_hits_is_refused_in_an_order(rt: HostRuntime) -> Result<(), Fail> {
    let alloc = rt.alloc();
    let no_rule = "{\"error\":\"rule\"}";
    let exchanges = [
        Exchange::new(
            "PUT /benches/B1/rules/Z9 HTTP/1.1",
            "405 Method Not Allowed",
            "{\"error\":\"method\"}",
        ),
        Exchange::new(
            "GET /benches/B1/rules/Z9 HTTP/1.1",
            "400 Bad Request",
            "{\"error\":\"name\"}",
        ),
        Exchange::new(
            "GET /benches/b1/rules/Z9 HTTP/1.1",
            "404 Not Found",
            no_rule,
        ),
        Exchange::new(
            "GET /benches/b1/rules/l2 HTTP/1.1",
            "404 Not Found",
            no_rule,
        ),
        Exchange::new(
            "GET /benches/b1/rules/M21 HTTP/1.1",
            "404 Not Found",
            no_rule,
        ),
        Exchange::new(
            "GET /benches/b1/rules/L2/x HTTP/1.1",
            "404 Not Found",
            "{\"error\":\"route\"}",
        ),
    ];
    let mut keeper = MapKeeper::new(alloc, &[])?;
    assert_eq!(rt; judge(alloc, &mut keeper, &exchanges)?, 0);
    Ok(())
}

/// A capture of so many Acks with a wrong CRC.
fn damaged_acks(alloc: Global, count: u32) -> Result<Vec<u8>, AllocError> {
    let mut notation = Notation::new(alloc, 0)?;
    for _ack in 0..count {
        notation.dllp_as_captured(Dir::Up, [0x00, 0x00, 0x0F, 0xFF, 0x25, 0xA9])?;
    }
    notation.end()
}

/// The answer with the first 10,000 hits where two captures, k1 and k2, break L2 at 6,000 items
/// each.
fn first_hits(alloc: Global) -> Result<String, AllocError> {
    let mut text = String::from_str(
        alloc,
        "{\"bench\":\"b1\",\"found\":[{\"at\":1,\"key\":\"k1\"}",
    )?;
    for at in 2..6001 {
        text.push_str(&format!(in alloc; ",{{\"at\":{at},\"key\":\"k1\"}}")?)?;
    }
    for at in 1..4001 {
        text.push_str(&format!(in alloc; ",{{\"at\":{at},\"key\":\"k2\"}}")?)?;
    }
    text.push_str("],\"rule\":\"L2\",\"total\":12000}")?;
    Ok(text)
}

#[test]
fn all_hits_are_counted_and_the_first_10_000_are_shown(rt: HostRuntime) -> Result<(), Fail> {
    let alloc = rt.alloc();
    let broken = damaged_acks(alloc, 6000)?;
    let mut keeper = MapKeeper::new(alloc, &[])?;
    let captures = [("k2", broken.as_slice()), ("k1", broken.as_slice())];
    put(alloc, &mut keeper, b"", &captures)?;
    let found = first_hits(alloc)?;
    assert_eq!(rt;
        judge(alloc, &mut keeper, &[Exchange::new(L2, "200 OK", &found)])?,
        0
    );
    Ok(())
}

/// Uploads are judged, so such rows come about by another hand alone.
#[test]
fn the_first_capture_that_is_not_judged_to_its_end_counts(rt: HostRuntime) -> Result<(), Fail> {
    let alloc = rt.alloc();
    let broken = damaged_ack(alloc)?;
    let captures = [("k2", b"x".as_slice()), ("k1", broken.as_slice())];
    let mut keeper = MapKeeper::new(alloc, &[])?;
    put(alloc, &mut keeper, b"", &captures)?;
    let malformed = "{\"error\":\"malformed\",\"item\":0,\"number\":9}";
    let refused = Exchange::new(L2, "422 Unprocessable Entity", malformed);
    assert_eq!(rt; judge(alloc, &mut keeper, &[refused])?, 0);
    let mut keeper = MapKeeper::new(alloc, &[])?;
    put(alloc, &mut keeper, b"tag_bits = 9\n", &captures)?;
    let profile = "{\"error\":\"profile\",\"number\":4}";
    let refused = Exchange::new(L2, "422 Unprocessable Entity", profile);
    assert_eq!(rt; judge(alloc, &mut keeper, &[refused])?, 0);
    Ok(())
}

/// The profile and the capture are put by two calls of the keeper; then it is asked for the keys,
/// for the capture and for its profile.
#[test]
fn a_search_fails_wherever_a_call_of_the_store_does(rt: HostRuntime) -> Result<(), Fail> {
    let alloc = rt.alloc();
    let broken = damaged_ack(alloc)?;
    let found =
        "{\"bench\":\"b1\",\"found\":[{\"at\":2,\"key\":\"k1\"}],\"rule\":\"L2\",\"total\":1}";
    let answered = Exchange::new(L2, "200 OK", found);
    let failed = Exchange::new(L2, "503 Service Unavailable", "{\"error\":\"store\"}");
    for failing in [3, 4, 5] {
        let mut keeper = MapKeeper::new(alloc, &[failing])?;
        put(alloc, &mut keeper, b"", &[("k1", broken.as_slice())])?;
        let status = judge(alloc, &mut keeper, &[failed, answered])?;
        assert!(rt; status == 10, "call {failing}: {status}");
    }
    let mut keeper = MapKeeper::new(alloc, &[6])?;
    put(alloc, &mut keeper, b"", &[("k1", broken.as_slice())])?;
    assert_eq!(rt; judge(alloc, &mut keeper, &[answered])?, 0);
    Ok(())
}
