//! What is written of a TLP and is seen as the same fields, and what it costs.
use super::{blank, whole};
use crate::{Class, Cost, Kind, Tlp, View, cost, encode_into, fits, view};

/// Fields of each layout at their greatest, before prefixes, data and digest are set.
fn full(kind: Kind) -> Tlp<'static> {
    let common = Tlp {
        tc: 7,
        attr: 7,
        at: 3,
        ep: true,
        th: true,
        requester: 0xffff,
        tag: 0x3ff,
        ..blank(kind)
    };
    match kind {
        Kind::Msg | Kind::MsgD => Tlp {
            wide: true,
            address: u64::MAX,
            code: 255,
            routing: 7,
            ..common
        },
        Kind::Cpl | Kind::CplD | Kind::CplLk | Kind::CplDLk => Tlp {
            completer: 0xffff,
            status: 4,
            bcm: true,
            byte_count: 4096,
            lower: 127,
            ..common
        },
        _ => Tlp {
            first_be: 15,
            last_be: 15,
            address: 0xffff_fffc,
            ..common
        },
    }
}

/// Whether what is written of a TLP is seen as the same fields.
fn is_read_back(tlp: &Tlp) -> bool {
    let mut out = [0xaa; 4200];
    if !fits(tlp) {
        return false;
    }
    let Some(size) = encode_into(tlp, &mut out) else {
        return false;
    };
    whole(&out[..size]).is_some_and(|seen| seen
        == (Tlp {
            header: seen.header,
            ..*tlp
        }))
}

/// Each kind, whether it has data, its class, and its data credits at a Length of 5 DW.
const ALL: [(Kind, bool, Class, u16); 18] = [
    (Kind::MRd, false, Class::Np, 0),
    (Kind::MRdLk, false, Class::Np, 0),
    (Kind::MWr, true, Class::P, 2),
    (Kind::IORd, false, Class::Np, 0),
    (Kind::IOWr, true, Class::Np, 1),
    (Kind::CfgRd0, false, Class::Np, 0),
    (Kind::CfgWr0, true, Class::Np, 1),
    (Kind::CfgRd1, false, Class::Np, 0),
    (Kind::CfgWr1, true, Class::Np, 1),
    (Kind::Msg, false, Class::P, 0),
    (Kind::MsgD, true, Class::P, 2),
    (Kind::Cpl, false, Class::Cpl, 0),
    (Kind::CplD, true, Class::Cpl, 2),
    (Kind::CplLk, false, Class::Cpl, 0),
    (Kind::CplDLk, true, Class::Cpl, 2),
    (Kind::FetchAdd, true, Class::Np, 2),
    (Kind::Swap, true, Class::Np, 2),
    (Kind::Cas, true, Class::Np, 2),
];

#[test]
fn each_kind_is_read_back(rt: HostRuntime) {
    let data = [0x5a; 4100];
    for (kind, has_data, _, _) in ALL {
        for length in [1, 1024] {
            let size = if has_data { 4 * usize::from(length) } else { 0 };
            let tlp = Tlp {
                length,
                payload: &data[..size],
                ..full(kind)
            };
            assert!(rt; is_read_back(&tlp), "{kind:?} of length {length}");
            assert!(rt;
                !fits(&Tlp {
                    payload: &data[..size ^ 4],
                    ..tlp
                }),
                "{kind:?}"
            );
        }
    }
}

#[test]
fn wide_addresses_are_read_back(rt: HostRuntime) {
    for (kind, size) in [
        (Kind::MRd, 0),
        (Kind::MRdLk, 0),
        (Kind::MWr, 4),
        (Kind::FetchAdd, 4),
        (Kind::Swap, 4),
        (Kind::Cas, 4),
    ] {
        let tlp = Tlp {
            wide: true,
            address: 0xfedc_ba98_7654_3210,
            payload: &[1, 2, 3, 4][..size],
            ..blank(kind)
        };
        assert!(rt; is_read_back(&tlp), "{kind:?}");
        assert!(rt; !fits(&Tlp { wide: false, ..tlp }), "{kind:?}");
    }
}

/// Five prefixes: the first two local, the others End-End.
const PREFIXES: [u8; 20] = [
    0x80, 1, 2, 3, 0x8f, 4, 5, 6, 0x90, 7, 8, 9, 0x9e, 10, 11, 12, 0x9f, 13, 14, 15,
];

#[test]
fn prefixes_and_a_digest_are_read_back(rt: HostRuntime) {
    for count in 0..=5 {
        let tlp = Tlp {
            prefixes: &PREFIXES[..4 * count],
            digest: Some([1, 2, 3, 4]),
            ..full(Kind::MRd)
        };
        assert!(rt; is_read_back(&tlp), "{count} prefixes");
    }
    assert!(rt;
        !fits(&Tlp {
            prefixes: &PREFIXES[..6],
            ..full(Kind::MRd)
        })
    );
}

#[test]
fn a_status_that_is_reserved_is_read_as_unsupported_request(rt: HostRuntime) {
    for (field, status) in [
        (0, 0),
        (1, 1),
        (2, 2),
        (3, 1),
        (4, 4),
        (5, 1),
        (6, 1),
        (7, 1),
    ] {
        let bytes = [0x0a, 0, 0, 1, 0, 0, field << 5, 4, 1, 0, 0, 0];
        let seen = whole(&bytes).map(|seen| seen.status);
        assert_eq!(rt; seen, Some(status));
        let completion = Tlp {
            status: field,
            ..full(Kind::Cpl)
        };
        assert_eq!(rt; fits(&completion), field == status);
    }
}

#[test]
fn a_tlp_that_is_cut_or_followed_by_a_byte_has_a_wrong_size(rt: HostRuntime) {
    let tlp = Tlp {
        prefixes: &PREFIXES,
        payload: &[1, 2, 3, 4],
        digest: Some([5, 6, 7, 8]),
        ..full(Kind::MWr)
    };
    assert!(rt; fits(&tlp));
    let mut out = [0; 41];
    assert_eq!(rt; encode_into(&tlp, &mut out[..39]), None);
    assert_eq!(rt; encode_into(&tlp, &mut out), Some(40));
    for end in 0..40 {
        assert_eq!(rt; view(&out[..end]), View::WrongSize, "cut at {end}");
    }
    assert_eq!(rt; view(&out), View::WrongSize);
}

#[test]
fn the_cost_of_a_tlp_is_its_header_and_each_4_dw_of_data(rt: HostRuntime) {
    for (kind, _, class, units) in ALL {
        let tlp = Tlp {
            length: 5,
            ..blank(kind)
        };
        assert_eq!(rt;
            cost(&tlp),
            Cost {
                class,
                header: 1,
                units
            },
            "{kind:?}"
        );
    }
}
