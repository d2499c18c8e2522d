//! A search over an archive in memory.

use crate::{Search, SearchError, search};
use pl_base::Rule;
use pl_keeper::{KeepError, Keeper, LONGEST_BODY, MapKeeper};
use std::alloc::{AllocError, Global};
use std::test::Fail;

/// Two DLLPs Up: an Ack of 4095, and the same with a wrong last byte.
const DAMAGED: [u8; 72] = [
    0x50, 0x43, 0x49, 0x45, 0x4C, 0x49, 0x4E, 0x4B, 0x00, 0x01, 0x00, 0, 0, 0, 0, 0, // header
    0x01, 0x01, 0x00, 0x06, 0, 0, 0, 0, 0, 0, 0, 1, 0x00, 0x00, 0x0F, 0xFF, 0x25, 0xA8, // item 1
    0x01, 0x01, 0x00, 0x06, 0, 0, 0, 0, 0, 0, 0, 2, 0x00, 0x00, 0x0F, 0xFF, 0x25, 0xA9, // item 2
    0x03, 0x00, 0x00, 0x08, 0, 0, 0, 0, 0, 0, 0, 2, 0, 0, 0, 0, 0, 0, 0, 2, // end
];

/// A capture without items.
const EMPTY: [u8; 36] = [
    0x50, 0x43, 0x49, 0x45, 0x4C, 0x49, 0x4E, 0x4B, 0x00, 0x01, 0x00, 0, 0, 0, 0, 0, // header
    0x03, 0x00, 0x00, 0x08, 0, 0, 0, 0, 0, 0, 0, 1, 0, 0, 0, 0, 0, 0, 0, 0, // end
];

/// A bench with two captures that break L2 and one that breaks nothing, beside another bench. These
/// calls of the keeper fail; the first seven are the puts.
fn benches(alloc: Global, fails: &[u64]) -> Result<MapKeeper, KeepError> {
    let mut keeper = MapKeeper::new(alloc, fails)?;
    keeper.put_profile(alloc, "b1", "p1", b"")?;
    keeper.put_capture(alloc, "b1", "k3", "p1", &DAMAGED)?;
    keeper.put_capture(alloc, "b1", "k2", "p1", &EMPTY)?;
    keeper.put_capture(alloc, "b1", "k1", "p1", &DAMAGED)?;
    keeper.put_profile(alloc, "b2", "p1", b"")?;
    keeper.put_capture(alloc, "b2", "k0", "p1", &DAMAGED)?;
    keeper.put_capture(alloc, "b2", "k4", "p1", &EMPTY[..35])?;
    Ok(keeper)
}

/// What is found, as `total key at;key at;`, or why nothing is.
fn told(alloc: Global, answer: Result<Search, SearchError>) -> Result<String, Fail> {
    match answer {
        Ok(search) => {
            let mut text = format!(in alloc; "{}", search.total)?;
            for hit in search.found.as_slice() {
                let (key, at) = (hit.key.as_str(), hit.at);
                text.push_str(format!(in alloc; " {key} {at};")?.as_str())?;
            }
            Ok(text)
        }
        Err(SearchError::Store) => Ok(format!(in alloc; "store")?),
        Err(SearchError::Profile { key, number }) => {
            Ok(format!(in alloc; "profile {} {number}", key.as_str())?)
        }
        Err(SearchError::Capture { key, stop }) => {
            Ok(format!(in alloc; "capture {} {stop:?}", key.as_str())?)
        }
        Err(SearchError::Memory) => Ok(format!(in alloc; "memory")?),
    }
}

#[test]
fn the_hits_of_a_bench_stand_by_key(rt: HostRuntime) -> Result<(), Fail> {
    let alloc = rt.alloc();
    let mut keeper = benches(alloc, &[])?;
    for (bench, rule, expected) in [
        ("b1", Rule::L2, "2 k1 2; k3 2;"),
        ("b1", Rule::L3, "0"),
        ("b3", Rule::L2, "0"),
    ] {
        let found = told(alloc, search(alloc, &mut keeper, bench, rule))?;
        assert_eq!(rt; found.as_str(), expected, "{bench}");
    }
    Ok(())
}

#[test]
fn the_first_refused_capture_by_key_is_told(rt: HostRuntime) -> Result<(), Fail> {
    let alloc = rt.alloc();
    let mut keeper = benches(alloc, &[])?;
    let found = told(alloc, search(alloc, &mut keeper, "b2", Rule::L2))?;
    assert_eq!(rt; found.as_str(), "capture k4 Malformed(Truncated, 1)");
    keeper.put_profile(alloc, "b2", "p2", b"vcs = 9")?;
    keeper.put_capture(alloc, "b2", "k3", "p2", &EMPTY)?;
    let found = told(alloc, search(alloc, &mut keeper, "b2", Rule::L2))?;
    assert_eq!(rt; found.as_str(), "profile k3 4");
    Ok(())
}

#[test]
fn each_call_of_the_keeper_may_fail(rt: HostRuntime) -> Result<(), Fail> {
    let alloc = rt.alloc();
    for call in 8..15 {
        let mut keeper = benches(alloc, &[call])?;
        let found = told(alloc, search(alloc, &mut keeper, "b1", Rule::L2))?;
        assert_eq!(rt; found.as_str(), "store", "{call}");
    }
    Ok(())
}

/// So many damaged DLLPs, each of which breaks L2.
fn damaged(alloc: Global, count: u16) -> Result<Vec<u8>, AllocError> {
    let mut bytes = Vec::from_slice(alloc, &DAMAGED[..16])?;
    for _ in 0..count {
        bytes.extend_from_slice(&DAMAGED[34..52])?;
    }
    bytes.extend_from_slice(&DAMAGED[52..70])?;
    bytes.extend_from_slice(&count.to_be_bytes())?;
    Ok(bytes)
}

/// A bench with two captures of so many hits.
fn twice(alloc: Global, capture: &[u8]) -> Result<MapKeeper, Fail> {
    let mut keeper = MapKeeper::new(alloc, &[])?;
    if capture.len() > LONGEST_BODY {
        return Err(Fail::new("too long"));
    }
    keeper.put_profile(alloc, "b1", "p1", b"")?;
    keeper.put_capture(alloc, "b1", "k2", "p1", capture)?;
    keeper.put_capture(alloc, "b1", "k1", "p1", capture)?;
    Ok(keeper)
}

#[test]
fn of_many_hits_the_first_are_shown(rt: HostRuntime) -> Result<(), Fail> {
    let alloc = rt.alloc();
    let mut keeper = twice(alloc, &damaged(alloc, 6_000)?)?;
    let found = search(alloc, &mut keeper, "b1", Rule::L2)?;
    let hits = found.found.as_slice();
    assert_eq!(rt; (found.total, hits.len()), (12_000, 10_000));
    for (place, key, at) in [(0, "k1", 1), (5_999, "k1", 6_000), (9_999, "k2", 4_000)] {
        let hit = hits.get(place).ok_or("no hit")?;
        assert_eq!(rt; (hit.key.as_str(), hit.at), (key, at));
    }
    Ok(())
}
