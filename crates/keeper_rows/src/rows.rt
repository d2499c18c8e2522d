//! The archive as it is worked out by hand, over each keeper.

use pl_keeper::{
    KeepError, Keeper, KeyRow, LONGEST_BODY, MapKeeper, Put, SqliteKeeper, Stored, open_in_memory,
};
use sqlite::{Connection, params};
use std::alloc::Global;
use std::process::Abort;
use std::test::Fail;

/// 64 characters, one of which SQL quotes.
const QUOTED: &str = "it's-sixty-four-characters-long-abcdefghijklmnopqrstuvwxyz012345";

/// A row, and under which profile where it is a capture.
#[derive(Clone, Copy)]
struct Row {
    bench: &'static str,
    name: &'static str,
    profile: Option<&'static str>,
    bytes: &'static [u8],
}

const fn profile(bench: &'static str, name: &'static str, bytes: &'static [u8]) -> Row {
    Row {
        bench,
        name,
        profile: None,
        bytes,
    }
}

const fn capture(
    bench: &'static str,
    name: &'static str,
    profile: &'static str,
    bytes: &'static [u8],
) -> Row {
    Row {
        bench,
        name,
        profile: Some(profile),
        bytes,
    }
}

/// Puts a row of at most the longest body.
fn put<K: Keeper>(keeper: &mut K, alloc: Global, row: &Row) -> Result<Put, KeepError> {
    if row.bytes.len() > LONGEST_BODY {
        return Err(KeepError::Failed);
    }
    match row.profile {
        Some(profile) => keeper.put_capture(alloc, row.bench, row.name, profile, row.bytes),
        None => keeper.put_profile(alloc, row.bench, row.name, row.bytes),
    }
}

/// Puts each row, and looks at its answer.
fn put_each<K: Keeper>(rt: &impl Abort, alloc: Global, keeper: &mut K, rows: &[(Row, Put)]) {
    for (row, answer) in rows {
        assert_eq!(rt;
            put(keeper, alloc, row),
            Ok(*answer),
            "{} {}",
            row.bench,
            row.name
        );
    }
}

/// The captures of a bench, each as `key profile length` and a semicolon.
fn listed<K: Keeper>(keeper: &mut K, alloc: Global, bench: &str) -> Result<String, Fail> {
    let mut text = String::new(alloc);
    for row in keeper.keys(alloc, bench)? {
        let KeyRow {
            key,
            profile,
            length,
        } = row;
        text.push_str(format!(in alloc; "{key} {profile} {length};")?.as_str())?;
    }
    Ok(text)
}

/// Puts over one row, and up to the last profile that a bench may have.
fn a_day_at_a_bench<K: Keeper>(rt: &impl Abort, alloc: Global, keeper: &mut K) {
    let other = |place| Put::OtherBytes { length: 8, place };
    put_each(
        rt,
        alloc,
        keeper,
        &[
            (profile("b1", "p1", b"vcs = 1\n"), Put::New),
            (profile("b1", "p1", b"vcs = 1\n"), Put::Same),
            (profile("b1", "p1", b"vcs = 2\n"), other(6)),
            (profile("b1", "p1", b"vcs = 1"), other(7)),
            (capture("b1", "k1", "p9", &[0]), Put::NoProfile),
            (capture("b1", "k1", "p1", &[0]), Put::New),
        ],
    );
    for name in [
        "p2", "p3", "p4", "p5", "p6", "p7", "p8", "p9", "p10", "p11", "p12", "p13", "p14", "p15",
        "p16",
    ] {
        put_each(rt, alloc, keeper, &[(profile("b1", name, &[]), Put::New)]);
    }
    put_each(
        rt,
        alloc,
        keeper,
        &[
            (capture("b1", "k1", "p2", &[0]), Put::OtherProfile),
            (profile("b1", "p17", &[]), Put::Full),
            (profile("b2", "p1", &[]), Put::New),
        ],
    );
}

/// As many captures as a bench may have, the last key first.
fn a_full_bench<K: Keeper>(rt: &impl Abort, alloc: Global, keeper: &mut K) -> Result<(), Fail> {
    put_each(rt, alloc, keeper, &[(profile("b", "p", &[]), Put::New)]);
    for k in 0..64u32 {
        let key = format!(in alloc; "k{:02}", 63 - k)?;
        let put = keeper.put_capture(alloc, "b", key.as_str(), "p", &[1, 2]);
        assert_eq!(rt; put, Ok(Put::New), "{key}");
    }
    put_each(
        rt,
        alloc,
        keeper,
        &[
            (capture("b", "k64", "p", &[]), Put::Full),
            (capture("b", "k64", "q", &[]), Put::NoProfile),
            (capture("b", "k63", "p", &[1, 2]), Put::Same),
        ],
    );
    Ok(())
}

/// Bodies and names that a text could spoil.
fn odd_rows<K: Keeper>(rt: &impl Abort, alloc: Global, keeper: &mut K) -> Result<(), Fail> {
    put_each(
        rt,
        alloc,
        keeper,
        &[
            (profile(QUOTED, QUOTED, &[0, 10, 0]), Put::New),
            (capture(QUOTED, QUOTED, QUOTED, &[]), Put::New),
        ],
    );
    let profile = keeper.profile(alloc, QUOTED, QUOTED)?.ok_or("no profile")?;
    assert_eq!(rt; profile.as_slice(), [0, 10, 0].as_slice());
    let Stored { profile, bytes } = keeper.capture(alloc, QUOTED, QUOTED)?.ok_or("no capture")?;
    assert_eq!(rt; profile.as_str(), QUOTED);
    assert_eq!(rt; bytes.len(), 0);
    assert!(rt; keeper.profile(alloc, QUOTED, "p")?.is_none());
    assert!(rt; keeper.capture(alloc, "b", QUOTED)?.is_none());
    Ok(())
}

/// Keys are listed byte by byte, whatever the order of storing.
fn keys_in_order<K: Keeper>(rt: &impl Abort, alloc: Global, keeper: &mut K) -> Result<(), Fail> {
    put_each(rt, alloc, keeper, &[(profile("b", "p", &[]), Put::New)]);
    for key in ["ab", "b", "a", "a-", "B"] {
        put_each(
            rt,
            alloc,
            keeper,
            &[(capture("b", key, "p", &[1]), Put::New)],
        );
    }
    let keys = listed(keeper, alloc, "b")?;
    assert_eq!(rt; keys.as_str(), "B p 1;a p 1;a- p 1;ab p 1;b p 1;");
    Ok(())
}

/// The longest body is found as it was put, and listed with its length.
fn a_longest_body<K: Keeper>(rt: &impl Abort, alloc: Global, keeper: &mut K) -> Result<(), Fail> {
    let body = vec![in alloc; 7u8; LONGEST_BODY]?;
    assert_eq!(rt;
        keeper.put_profile(alloc, "b", "p", body.as_slice()),
        Ok(Put::New)
    );
    let back = keeper.profile(alloc, "b", "p")?.ok_or("no profile")?;
    assert!(rt; back.as_slice() == body.as_slice());
    assert_eq!(rt;
        keeper.put_capture(alloc, "b", "k", "p", body.as_slice()),
        Ok(Put::New)
    );
    let back = keeper.capture(alloc, "b", "k")?.ok_or("no capture")?;
    assert!(rt; back.bytes.as_slice() == body.as_slice());
    assert_eq!(rt; listed(keeper, alloc, "b")?.as_str(), "k p 4194304;");
    Ok(())
}

#[test]
fn rows_in_memory(rt: HostRuntime) -> Result<(), Fail> {
    let mut keeper = MapKeeper::new(rt.alloc(), &[])?;
    a_day_at_a_bench(&rt, rt.alloc(), &mut keeper);
    assert_eq!(rt; listed(&mut keeper, rt.alloc(), "b1")?.as_str(), "k1 p1 1;");
    a_full_bench(&rt, rt.alloc(), &mut keeper)?;
    odd_rows(&rt, rt.alloc(), &mut MapKeeper::new(rt.alloc(), &[])?)?;
    keys_in_order(&rt, rt.alloc(), &mut MapKeeper::new(rt.alloc(), &[])?)?;
    a_longest_body(&rt, rt.alloc(), &mut MapKeeper::new(rt.alloc(), &[])?)
}

#[test]
fn rows_in_a_database(rt: HostRuntime) -> Result<(), Fail> {
    let mut keeper = open_in_memory(rt.alloc())?;
    a_day_at_a_bench(&rt, rt.alloc(), &mut keeper);
    assert_eq!(rt; listed(&mut keeper, rt.alloc(), "b1")?.as_str(), "k1 p1 1;");
    a_full_bench(&rt, rt.alloc(), &mut keeper)?;
    odd_rows(&rt, rt.alloc(), &mut open_in_memory(rt.alloc())?)?;
    keys_in_order(&rt, rt.alloc(), &mut open_in_memory(rt.alloc())?)?;
    a_longest_body(&rt, rt.alloc(), &mut open_in_memory(rt.alloc())?)
}

/// The k-th call fails and no other, and a put that failed is New when it is tried again.
#[test]
fn the_planned_call_fails(rt: HostRuntime) -> Result<(), Fail> {
    for k in 1..6u64 {
        let mut keeper = MapKeeper::new(rt.alloc(), &[k])?;
        let fails = [
            keeper.put_profile(rt.alloc(), "b", "p", &[]).is_err(),
            keeper.put_capture(rt.alloc(), "b", "k", "p", &[]).is_err(),
            keeper.profile(rt.alloc(), "b", "p").is_err(),
            keeper.capture(rt.alloc(), "b", "k").is_err(),
            keeper.keys(rt.alloc(), "b").is_err(),
        ];
        assert_eq!(rt; fails, [k == 1, k == 2, k == 3, k == 4, k == 5], "call {k}");
        let again = |failed| if failed { Put::New } else { Put::Same };
        put_each(
            &rt,
            rt.alloc(),
            &mut keeper,
            &[
                (profile("b", "p", &[]), again(k == 1)),
                (capture("b", "k", "p", &[]), again(k <= 2)),
            ],
        );
    }
    Ok(())
}

/// A keeper tells what an earlier one stored, and a row that SQL added under a number of its own.
#[test]
fn one_keeper_after_the_other(rt: HostRuntime) -> Result<(), Fail> {
    let mut first = open_in_memory(rt.alloc())?;
    let rows = [profile("b", "p", &[1]), capture("b", "k", "p", &[2, 0])];
    put_each(
        &rt,
        rt.alloc(),
        &mut first,
        &rows.map(|row| (row, Put::New)),
    );
    let mut db = first.into_connection();
    db.execute(
        "INSERT INTO captures (rowid, bench, label, profile, body) \
         VALUES (-5, 'b', 'a', 'p', x'00')",
        &[],
    )?;
    let mut second = SqliteKeeper::new(db);
    put_each(
        &rt,
        rt.alloc(),
        &mut second,
        &rows.map(|row| (row, Put::Same)),
    );
    put_each(
        &rt,
        rt.alloc(),
        &mut second,
        &[(capture("b", "z", "p", &[]), Put::New)],
    );
    assert_eq!(rt;
        listed(&mut second, rt.alloc(), "b")?.as_str(),
        "a p 1;k p 2;z p 0;"
    );
    Ok(())
}

/// Other tables don't stand in the way.
#[test]
fn a_database_with_another_table(rt: HostRuntime) -> Result<(), Fail> {
    let mut db = Connection::open_in_memory(rt.alloc())?;
    db.execute_batch("CREATE TABLE notes (x TEXT) STRICT")?;
    a_day_at_a_bench(&rt, rt.alloc(), &mut SqliteKeeper::new(db));
    Ok(())
}

/// A table of our name and of another form is at fault, and nothing is written.
#[test]
fn a_database_with_other_profiles(rt: HostRuntime) -> Result<(), Fail> {
    let mut db = Connection::open_in_memory(rt.alloc())?;
    db.execute_batch("CREATE TABLE profiles (bench TEXT, name TEXT) STRICT")?;
    let mut keeper = SqliteKeeper::new(db);
    let failed = [
        put(&mut keeper, rt.alloc(), &profile("b", "p", &[])).err(),
        put(&mut keeper, rt.alloc(), &capture("b", "k", "p", &[])).err(),
        keeper.profile(rt.alloc(), "b", "p").err(),
        keeper.capture(rt.alloc(), "b", "k").err(),
        keeper.keys(rt.alloc(), "b").err(),
    ];
    assert_eq!(rt; failed, [Some(KeepError::Failed); 5]);
    let mut db = keeper.into_connection();
    assert_eq!(rt;
        db.query_all("SELECT name FROM sqlite_schema", &[])?.len(),
        1
    );
    assert_eq!(rt; db.query_all("SELECT name FROM profiles", &[])?.len(), 0);
    Ok(())
}

/// A body that is longer than a put may make is at fault.
#[test]
fn a_longer_row(rt: HostRuntime) -> Result<(), Fail> {
    let mut keeper = open_in_memory(rt.alloc())?;
    assert_eq!(rt; keeper.put_profile(rt.alloc(), "b", "p", &[]), Ok(Put::New));
    let body = vec![in rt.alloc(); 7u8; LONGEST_BODY + 1]?;
    let mut db = keeper.into_connection();
    db.execute(
        "INSERT INTO captures (bench, label, profile, body) VALUES ('b', 'k', 'p', ?1)",
        params![body.as_slice()],
    )?;
    let mut keeper = SqliteKeeper::new(db);
    assert_eq!(rt;
        keeper.capture(rt.alloc(), "b", "k").err(),
        Some(KeepError::Failed)
    );
    assert_eq!(rt; keeper.keys(rt.alloc(), "b").err(), Some(KeepError::Failed));
    Ok(())
}
