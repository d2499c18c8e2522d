//! Filters as engineers write them, over packets whose CRCs were computed elsewhere.
ghost use Rattle.std.specs.Prelude.{IfSome};
ghost use Rattle.pl_capture.specs.Entry.{IsLawful, view};

use pl_base::{Class, Dir};
use pl_capture::{Item, ItemKind};
use pl_dllp::Stage;
use pl_filter::{Filter, FilterError, Name, Test, holds, name_of, parse, print};
use pl_tlp::Kind;
use std::process::Abort;
use std::test::Fail;

/// MRd, sequence number 2, Requester ID 0100, Tag 7, TC 3.
const READ: [u8; 18] = [
    0x00, 0x02, 0x00, 0x30, 0x00, 0x01, 0x01, 0x00, 0x07, 0x0f, 0x00, 0x00, 0x10, 0x00, 0x75, 0x26,
    0xcb, 0x97,
];

/// PM_PME, sequence number 0, Requester ID 0100.
const MESSAGE: [u8; 22] = [
    0x00, 0x00, 0x30, 0x00, 0x00, 0x01, 0x01, 0x00, 0x00, 0x18, 0x00, 0x00, 0x00, 0x00, 0x00, 0x00,
    0x00, 0x00, 0x2d, 0xff, 0x28, 0xc7,
];

/// A read with sequence number 1 that lacks the last DW of its header.
const CUT: [u8; 14] = [
    0x00, 0x01, 0x00, 0x00, 0x00, 0x80, 0x01, 0x00, 0x01, 0xff, 0x0e, 0x75, 0xb2, 0xc9,
];

/// An empty TLP with sequence number 0 and the complement of its LCRC.
const NULLIFIED: [u8; 6] = [0x00, 0x00, 0x00, 0xed, 0x26, 0xbe];

const NAK_5: [u8; 6] = [0x10, 0x00, 0x00, 0x05, 0x7d, 0x70];

const UPDATE_NP: [u8; 6] = [0x90, 0x08, 0x40, 0x20, 0x39, 0xf7];

const VENDOR_70: [u8; 6] = [0x70, 0x00, 0x00, 0x00, 0x33, 0xf5];

const RESERVED_03: [u8; 6] = [0x03, 0x00, 0x00, 0x00, 0x3d, 0xca];

const SPOILED_ACK: [u8; 6] = [0x00, 0x00, 0x0f, 0xff, 0x25, 0xa9];

/// A TLP towards the Root Complex.
fn tlp(body: &[u8], bad_end: bool) -> Option<Item<'_>>
    ensures { IfSome result (λ item. IsLawful (view item)) }
{
    if body.len() < 6 || body.len() > 4160 {
        return None;
    }
    Some(Item {
        kind: ItemKind::Tlp,
        dir: Dir::Up,
        bad_end,
        time: 100,
        body,
    })
}

/// A DLLP away from the Root Complex.
fn dllp(body: &[u8; 6]) -> Item<'_>
    ensures { IsLawful (view result) }
{
    Item {
        kind: ItemKind::Dllp,
        dir: Dir::Down,
        bad_end: false,
        time: 200,
        body,
    }
}

fn link_down() -> Item<'static>
    ensures { IsLawful (view result) }
{
    Item {
        kind: ItemKind::LinkDown,
        dir: Dir::Down,
        bad_end: false,
        time: 300,
        body: &[],
    }
}

/// Each filter holds, or doesn't, as it stands beside it.
fn judge(
    rt: &impl Abort,
    alloc: std::alloc::Global,
    item: &Item,
    rows: &[(&str, bool)],
) -> Result<(), FilterError>
    requires { IsLawful (view item.now) }
{
    for (text, wanted) in rows {
        let f = parse(alloc, text)?;
        assert_eq!(rt; holds(&f, item), *wanted, "{text}");
    }
    Ok(())
}

/// A filter of so many negations.
fn nested(alloc: std::alloc::Global, depth: usize) -> Result<String, std::alloc::AllocError> {
    let mut text = String::new(alloc);
    for _ in 0..depth {
        text.push_str("(not ")?;
    }
    text.push_str("any")?;
    for _ in 0..depth {
        text.push_str(")")?;
    }
    Ok(text)
}

#[test]
fn a_filter_is_refused_at_the_first_token_that_none_has_there(rt: HostRuntime) -> Result<(), Fail> {
    for (text, at) in [
        ("(and up)", 7),
        ("", 0),
        ("   ", 3),
        ("(not any  ", 10),
        ("up down", 3),
        ("(any)", 1),
        ("not", 0),
        ("up\t", 0),
        ("(or up \u{e9})", 7),
        ("kind=spoiled", 0),
        ("kind=nullified", 0),
        ("kind=mrd", 0),
        ("number=", 0),
        ("number=+1", 0),
        ("number=18446744073709551616", 0),
        ("number=000000000000000000001", 0),
        ("time=1", 0),
    ] {
        assert_eq!(rt;
            parse(rt.alloc(), text).err(),
            Some(FilterError::Syntax(at)),
            "{text}"
        );
    }
    let mut deep = String::new(rt.alloc());
    for _ in 0..31 {
        deep.push_str("(not ")?;
    }
    deep.push_str("((any")?;
    assert_eq!(rt;
        parse(rt.alloc(), deep.as_str()).err(),
        Some(FilterError::Syntax(156))
    );
    Ok(())
}

#[test]
fn the_33rd_parenthesis_is_too_deep(rt: HostRuntime) -> Result<(), Fail> {
    let deepest = nested(rt.alloc(), 32)?;
    let f = parse(rt.alloc(), deepest.as_str())?;
    assert_eq!(rt; print(rt.alloc(), &f)?.as_str(), deepest.as_str());
    let deeper = nested(rt.alloc(), 33)?;
    assert_eq!(rt;
        parse(rt.alloc(), deeper.as_str()).err(),
        Some(FilterError::TooDeep(160))
    );
    Ok(())
}

#[test]
fn a_filter_has_one_printed_text(rt: HostRuntime) -> Result<(), Fail> {
    for (text, printed) in [
        ("(and up (not kind=Ack))", "(and up (not kind=Ack))"),
        (" ( or  time<007(not down) )", "(or time<7 (not down))"),
        (
            "requester=18446744073709551615",
            "requester=18446744073709551615",
        ),
        (
            "kind=PM_Active_State_Request_L1",
            "kind=PM_Active_State_Request_L1",
        ),
    ] {
        let f = parse(rt.alloc(), text)?;
        assert_eq!(rt; print(rt.alloc(), &f)?.as_str(), printed);
    }
    Ok(())
}

#[test]
fn the_filters_of_the_document_are_filters(rt: HostRuntime) -> Result<(), Fail> {
    for text in [
        "(and up kind=Nak)",
        "(and time>3999999 time<5000001)",
        "(and tag=7 requester=256)",
        "spoiled",
        "(or spoiled nullified)",
        "(and down number=2048)",
        "(or kind=InitFC1-P (or kind=InitFC1-NP kind=InitFC1-Cpl))",
        "(and down (or kind=UpdateFC-P kind=UpdateFC-NP))",
        "(or kind=Cpl kind=CplLk)",
        "(and tlp (not (or tc=0 (or spoiled nullified))))",
        "(not (or kind=Ack (or kind=UpdateFC-P (or kind=UpdateFC-NP kind=UpdateFC-Cpl))))",
    ] {
        let f = parse(rt.alloc(), text)?;
        assert_eq!(rt; print(rt.alloc(), &f)?.as_str(), text);
    }
    Ok(())
}

#[test]
fn a_tlp_is_found_by_its_fields(rt: HostRuntime) -> Result<(), Fail> {
    let read = tlp(&READ, false).ok_or("a read")?;
    judge(
        &rt,
        rt.alloc(),
        &read,
        &[
            ("any", true),
            ("up", true),
            ("down", false),
            ("tlp", true),
            ("dllp", false),
            ("linkdown", false),
            ("spoiled", false),
            ("nullified", false),
            ("kind=MRd", true),
            ("kind=MRdLk", false),
            ("kind=undefined", false),
            ("number=2", true),
            ("number=4098", false),
            ("tag=7", true),
            ("tag=263", false),
            ("requester=256", true),
            ("requester=1", false),
            ("tc=3", true),
            ("tc=0", false),
            ("time<100", false),
            ("time<101", true),
            ("time>100", false),
            ("time>99", true),
        ],
    )?;
    // A message has a Tag, too.
    let message = tlp(&MESSAGE, false).ok_or("a message")?;
    judge(
        &rt,
        rt.alloc(),
        &message,
        &[
            ("kind=Msg", true),
            ("tag=0", true),
            ("requester=256", true),
            ("tc=0", true),
        ],
    )?;
    Ok(())
}

#[test]
fn a_tlp_that_is_not_whole_has_a_number_and_no_fields(rt: HostRuntime) -> Result<(), Fail> {
    let cut = tlp(&CUT, false).ok_or("a cut read")?;
    judge(
        &rt,
        rt.alloc(),
        &cut,
        &[
            ("kind=wrongsize", true),
            ("kind=MRd", false),
            ("number=1", true),
            ("tag=1", false),
            ("requester=256", false),
            ("tc=0", false),
        ],
    )?;
    let spoiled = tlp(&READ, true).ok_or("a read with a bad end")?;
    judge(
        &rt,
        rt.alloc(),
        &spoiled,
        &[
            ("spoiled", true),
            ("nullified", false),
            ("kind=MRd", false),
            ("number=2", true),
            ("tag=7", false),
        ],
    )?;
    let nullified = tlp(&NULLIFIED, true).ok_or("a nullified TLP")?;
    judge(
        &rt,
        rt.alloc(),
        &nullified,
        &[
            ("spoiled", false),
            ("nullified", true),
            ("kind=wrongsize", false),
            ("number=0", true),
            ("tag=0", false),
        ],
    )?;
    Ok(())
}

#[test]
fn a_dllp_is_found_by_its_type(rt: HostRuntime) -> Result<(), Fail> {
    judge(
        &rt,
        rt.alloc(),
        &dllp(&NAK_5),
        &[
            ("dllp", true),
            ("tlp", false),
            ("down", true),
            ("up", false),
            ("kind=Nak", true),
            ("kind=Ack", false),
            ("number=5", false),
        ],
    )?;
    judge(
        &rt,
        rt.alloc(),
        &dllp(&UPDATE_NP),
        &[("kind=UpdateFC-NP", true), ("kind=UpdateFC-P", false)],
    )?;
    judge(
        &rt,
        rt.alloc(),
        &dllp(&VENDOR_70),
        &[("kind=other", true), ("kind=Vendor", false)],
    )?;
    judge(
        &rt,
        rt.alloc(),
        &dllp(&RESERVED_03),
        &[
            ("kind=reserved", true),
            ("kind=badcrc", false),
            ("spoiled", false),
        ],
    )?;
    judge(
        &rt,
        rt.alloc(),
        &dllp(&SPOILED_ACK),
        &[
            ("kind=badcrc", true),
            ("kind=Ack", false),
            ("spoiled", true),
        ],
    )?;
    judge(
        &rt,
        rt.alloc(),
        &link_down(),
        &[
            ("any", true),
            ("linkdown", true),
            ("up", false),
            ("down", false),
            ("kind=other", false),
            ("time>299", true),
        ],
    )?;
    Ok(())
}

#[test]
fn items_have_names(rt: HostRuntime) -> Result<(), Fail> {
    let read = tlp(&READ, false).ok_or("a read")?;
    assert_eq!(rt; name_of(&read), Some(Name::Tlp(Kind::MRd)));
    assert_eq!(rt;
        name_of(&dllp(&UPDATE_NP)),
        Some(Name::Flow(Stage::Update, Class::Np))
    );
    assert_eq!(rt; name_of(&link_down()), None);
    let spoiled = tlp(&READ, true).ok_or("a read with a bad end")?;
    assert_eq!(rt; name_of(&spoiled), None);
    assert_eq!(rt; Name::with_text(b"PM_Enter_L23"), Some(Name::PmEnterL23));
    assert_eq!(rt; FilterError::TooDeep(160).number(), 2);
    Ok(())
}
