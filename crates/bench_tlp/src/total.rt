//! What the fields of TLPs come to.
use pl_tlp::{Tlp, View, view};

/// The fields of all TLPs, in each round, folded into one number.
pub fn total(tlps: &[&[u8]], rounds: u32) -> u64 {
    let mut total: u64 = 0;
    for _ in 0..rounds {
        for tlp in tlps {
            total = total.wrapping_mul(31).wrapping_add(seen(tlp));
        }
    }
    total
}

fn seen(tlp: &[u8]) -> u64 {
    match view(tlp) {
        View::Whole(whole) => folded(&whole),
        View::Undefined => 1,
        View::WrongSize => 2,
    }
}

/// The fields, each shifted to a place of its own.
fn folded(tlp: &Tlp) -> u64 {
    let digest = match tlp.digest {
        Some(bytes) => u64::from(u32::from_be_bytes(bytes)),
        None => 0,
    };
    let parts = [
        tlp.kind as u64,
        u64::from(tlp.wide) << 5,
        u64::from(tlp.tc) << 6,
        u64::from(tlp.attr) << 9,
        u64::from(tlp.at) << 12,
        u64::from(tlp.ep) << 14,
        u64::from(tlp.th) << 15,
        u64::from(tlp.length) << 16,
        u64::from(tlp.requester) << 27,
        u64::from(tlp.tag) << 43,
        u64::from(tlp.first_be) << 53,
        u64::from(tlp.last_be) << 57,
        tlp.address.rotate_left(9),
        u64::from(tlp.code) << 40,
        u64::from(tlp.routing) << 61,
        u64::from(tlp.completer) << 11,
        u64::from(tlp.status) << 30,
        u64::from(tlp.bcm) << 33,
        u64::from(tlp.byte_count) << 34,
        u64::from(tlp.lower) << 47,
        (tlp.prefixes.len() as u64) << 7,
        (tlp.payload.len() as u64) << 21,
        (tlp.header.len() as u64) << 1,
        digest << 17,
    ];
    parts.iter().fold(0, |total, part| total ^ *part)
}
