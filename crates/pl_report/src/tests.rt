//! The lines as the written texts give them, over packets whose CRCs were computed elsewhere.
ghost use Rattle.std.specs.Prelude.{IfSome};
ghost use Rattle.pl_capture.specs.Entry.{IsLawful, view};

mod verdicts;

use crate::*;
use pl_base::{Dir, Form, Malformed, Rule, Stop, Tally, Verdict};
use pl_capture::{Item, ItemKind};
use pl_filter::FilterError;
use std::test::Fail;

/// MWr of one DW, sequence number abc.
const WRITE: [u8; 22] = [
    0x0a, 0xbc, 0x40, 0x00, 0x00, 0x01, 0x01, 0x00, 0x00, 0x0f, 0x00, 0x00, 0x10, 0x00, 0xde, 0xad,
    0xbe, 0xef, 0xe0, 0xd0, 0x02, 0x8a,
];

/// MWr of one DW without its data, sequence number 1.
const CUT: [u8; 18] = [
    0x00, 0x01, 0x40, 0x00, 0x00, 0x01, 0x01, 0x00, 0x00, 0x0f, 0x00, 0x00, 0x10, 0x00, 0xef, 0x86,
    0x0d, 0x2f,
];

/// A pair of Fmt and Type that isn't defined, sequence number 2.
const UNDEFINED: [u8; 18] = [
    0x00, 0x02, 0x5f, 0x00, 0x00, 0x01, 0x01, 0x00, 0x00, 0x0f, 0x00, 0x00, 0x10, 0x00, 0xac, 0x98,
    0x4b, 0xec,
];

/// MRd with the complement of its LCRC, sequence number 3.
const NULLIFIED: [u8; 18] = [
    0x00, 0x03, 0x00, 0x00, 0x00, 0x01, 0x01, 0x00, 0x00, 0x0f, 0x00, 0x00, 0x10, 0x00, 0xab, 0x7b,
    0xcd, 0x80,
];

const NAK: [u8; 6] = [0x10, 0x00, 0x00, 0x05, 0x7d, 0x70];

const UPDATE_NP: [u8; 6] = [0x90, 0x08, 0x40, 0x20, 0x39, 0xf7];

const VENDOR_70: [u8; 6] = [0x70, 0x00, 0x00, 0x00, 0x33, 0xf5];

const RESERVED_03: [u8; 6] = [0x03, 0x00, 0x00, 0x00, 0x3d, 0xca];

const SPOILED_ACK: [u8; 6] = [0x00, 0x00, 0x0f, 0xff, 0x25, 0xa9];

/// A TLP away from the Root Complex.
fn tlp(body: &[u8], bad_end: bool) -> Option<Item<'_>>
    ensures { IfSome result (λ item. IsLawful (view item)) }
{
    if body.len() < 6 || body.len() > 4160 {
        return None;
    }
    Some(Item {
        kind: ItemKind::Tlp,
        dir: Dir::Down,
        bad_end,
        time: 100,
        body,
    })
}

/// A DLLP towards the Root Complex.
fn dllp(body: &[u8; 6]) -> Item<'_>
    ensures { IsLawful (view result) }
{
    Item {
        kind: ItemKind::Dllp,
        dir: Dir::Up,
        bad_end: false,
        time: u64::MAX,
        body,
    }
}

fn link_down() -> Item<'static>
    ensures { IsLawful (view result) }
{
    Item {
        kind: ItemKind::LinkDown,
        dir: Dir::Down,
        bad_end: false,
        time: 0,
        body: &[],
    }
}

#[test]
fn the_line_of_a_tlp_says_what_it_is_or_how_it_was_dropped(rt: HostRuntime) -> Result<(), Fail> {
    for (body, bad_end, line) in [
        (WRITE.as_slice(), false, "item 7 down tlp 2748 MWr 100\n"),
        (CUT.as_slice(), false, "item 7 down tlp 1 wrongsize 100\n"),
        (
            UNDEFINED.as_slice(),
            false,
            "item 7 down tlp 2 undefined 100\n",
        ),
        (
            NULLIFIED.as_slice(),
            true,
            "item 7 down tlp 3 nullified 100\n",
        ),
        (
            NULLIFIED.as_slice(),
            false,
            "item 7 down tlp 3 spoiled 100\n",
        ),
        (WRITE.as_slice(), true, "item 7 down tlp 2748 spoiled 100\n"),
    ] {
        let item = tlp(body, bad_end).ok_or("the length of a TLP")?;
        assert_eq!(rt; item_line(7, &item).as_str(), line);
    }
    Ok(())
}

#[test]
fn the_line_of_a_dllp_says_its_type_and_that_of_a_link_down_its_time(rt: HostRuntime) {
    for (body, line) in [
        (&NAK, "item 1 up dllp Nak 18446744073709551615\n"),
        (
            &UPDATE_NP,
            "item 1 up dllp UpdateFC-NP 18446744073709551615\n",
        ),
        (&VENDOR_70, "item 1 up dllp other 18446744073709551615\n"),
        (
            &RESERVED_03,
            "item 1 up dllp reserved 18446744073709551615\n",
        ),
        (&SPOILED_ACK, "item 1 up dllp badcrc 18446744073709551615\n"),
    ] {
        assert_eq!(rt; item_line(1, &dllp(body)).as_str(), line);
    }
    assert_eq!(rt;
        item_line(u64::MAX, &link_down()).as_str(),
        "item 18446744073709551615 link down 0\n"
    );
}

#[test]
fn a_summary_has_a_line_for_each_count_and_for_each_broken_rule(rt: HostRuntime) {
    let mut tally = Tally::new();
    tally.items = 24;
    tally.tlp = [7, 2];
    tally.dllp = [6, 8];
    tally.link_down = 1;
    tally.taken = [3, 1];
    tally.repeat = [0, 1];
    tally.stray = [1, 0];
    tally.spoiled = [2, 0];
    tally.nullified = [1, 0];
    tally.most_outstanding = 3;
    tally.most_unacknowledged = [2, 1];
    tally.rules[Rule::L1.index()] = 2;
    tally.first_at[Rule::L1.index()] = 5;
    tally.rules[Rule::C10.index()] = 1;
    tally.first_at[Rule::C10.index()] = 23;
    tally.verdicts = 3;
    let lines = [
        "items 24\n",
        "tlp down 7 up 2\n",
        "dllp down 6 up 8\n",
        "link down 1\n",
        "taken down 3 up 1\n",
        "repeat down 0 up 1\n",
        "stray down 1 up 0\n",
        "spoiled down 2 up 0\n",
        "nullified down 1 up 0\n",
        "most outstanding 3\n",
        "most unacknowledged down 2 up 1\n",
        "rule L1 2 first 5\n",
        "rule C10 1 first 23\n",
    ];
    for (k, text) in lines.iter().enumerate() {
        let line = summary_line(&tally, k).expect(&rt, "past the last line");
        assert_eq!(rt; line.as_str(), *text);
    }
    assert!(rt; summary_line(&tally, lines.len()).is_none());
    assert!(rt; summary_line(&tally, usize::MAX).is_none());
}

#[test]
fn a_summary_of_no_items_has_its_eleven_counts_and_no_rule(rt: HostRuntime) {
    let tally = Tally::new();
    let first = summary_line(&tally, 0).expect(&rt, "the first line");
    assert_eq!(rt; first.as_str(), "items 0\n");
    let last = summary_line(&tally, 10).expect(&rt, "the last line");
    assert_eq!(rt; last.as_str(), "most unacknowledged down 0 up 0\n");
    assert!(rt; summary_line(&tally, 11).is_none());
}

#[test]
fn a_verdict_names_its_rule_and_the_packets_that_show_it(rt: HostRuntime) {
    let credit = Verdict {
        rule: Rule::F9,
        at: 396,
        first: Some(268),
        second: None,
    };
    assert_eq!(rt;
        verdict_line(&credit).as_str(),
        "item 396 rule F9 first 268 second -\n"
    );
    let replay = Verdict {
        rule: Rule::S3,
        at: 16,
        first: Some(15),
        second: Some(14),
    };
    assert_eq!(rt;
        verdict_line(&replay).as_str(),
        "item 16 rule S3 first 15 second 14\n"
    );
}

#[test]
fn the_largest_numbers_fit_a_line(rt: HostRuntime) {
    let last = Verdict {
        rule: Rule::M20,
        at: u64::MAX,
        first: Some(u64::MAX),
        second: Some(0),
    };
    assert_eq!(rt;
        verdict_line(&last).as_str(),
        "item 18446744073709551615 rule M20 first 18446744073709551615 second 0\n"
    );
    assert_eq!(rt;
        closing_line(0, u64::MAX).as_str(),
        "end items 0 verdicts 18446744073709551615\n"
    );
    assert_eq!(rt;
        list_closing_line(u64::MAX, 0, 1).as_str(),
        "end items 18446744073709551615 shown 0 verdicts 1\n"
    );
}

#[test]
fn each_refusal_has_its_line(rt: HostRuntime) {
    for (stop, line) in [
        (
            Stop::Malformed(Malformed::Truncated, 3),
            "malformed 9 at item 3\n",
        ),
        (
            Stop::Unsupported(Form::Flit, 0),
            "unsupported 1 at item 0\n",
        ),
        (Stop::Outstanding(2, 16), "limit outstanding 2 at item 16\n"),
        (
            Stop::Unacknowledged(1, 14),
            "limit unacknowledged 1 at item 14\n",
        ),
        (Stop::Memory, ""),
    ] {
        assert_eq!(rt; stop_line(&stop).as_str(), line);
    }
    assert_eq!(rt; profile_error_line(5).as_str(), "profile error 5\n");
    for (error, line) in [
        (FilterError::Syntax(7), "filter error 1 at 7\n"),
        (FilterError::TooDeep(160), "filter error 2 at 160\n"),
        (FilterError::Memory, ""),
    ] {
        assert_eq!(rt; filter_error_line(&error).as_str(), line);
    }
}

#[test]
fn the_fixed_lines_end_with_a_line_feed(rt: HostRuntime) {
    assert_eq!(rt; read_fault_line(), "read fault\n");
    assert_eq!(rt; length_line(), "limit length 1099511627776\n");
    assert!(rt; usage_line().starts_with("usage: check PROFILE CAPTURE | list "));
}
