//! The link rules L1 to L3.
use crate::desk::check;
use pl_base::{Body, Dir};
use pl_notation::Notation;
use std::test::Fail;

#[test]
fn a_reserved_dllp_type_breaks_l3(rt: HostRuntime) -> Result<(), Fail> {
    let mut notation = Notation::new(rt.alloc(), 0)?;
    notation.dllp(Dir::Up, [0x03, 0, 0, 0])?;
    let outcome = check(rt.alloc(), &notation.end()?)?;
    assert!(rt;
        outcome.is(
            1,
            "item 1 rule L3 first - second -\nend items 1 verdicts 1\n"
        ),
        "{outcome:?}"
    );
    Ok(())
}

#[test]
fn a_wrong_lcrc_bit_breaks_l1(rt: HostRuntime) -> Result<(), Fail> {
    let mut notation = Notation::new(rt.alloc(), 0)?;
    notation.tlp(Dir::Up, 0, &[], Body::Spoiled)?;
    let outcome = check(rt.alloc(), &notation.end()?)?;
    assert!(rt;
        outcome.is(
            1,
            "item 1 rule L1 first - second -\nend items 1 verdicts 1\n"
        ),
        "{outcome:?}"
    );
    Ok(())
}

#[test]
fn a_bad_end_with_a_right_lcrc_breaks_l1(rt: HostRuntime) -> Result<(), Fail> {
    let mut notation = Notation::new(rt.alloc(), 0)?;
    notation.tlp_as_captured(Dir::Up, true, &[0, 0, 0xFF, 0x12, 0xD9, 0x41])?;
    let outcome = check(rt.alloc(), &notation.end()?)?;
    assert!(rt;
        outcome.is(
            1,
            "item 1 rule L1 first - second -\nend items 1 verdicts 1\n"
        ),
        "{outcome:?}"
    );
    Ok(())
}

#[test]
fn a_nullified_tlp_breaks_nothing(rt: HostRuntime) -> Result<(), Fail> {
    let mut notation = Notation::new(rt.alloc(), 0)?;
    notation.tlp(Dir::Up, 0, &[], Body::Nullified)?;
    notation.link_down()?;
    let outcome = check(rt.alloc(), &notation.end()?)?;
    assert!(rt; outcome.is(0, "end items 2 verdicts 0\n"), "{outcome:?}");
    Ok(())
}
