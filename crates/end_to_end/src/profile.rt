//! The profile of a command.
use crate::desk::{DAMAGED_ACK_LINES, answer};
use pl_io::{MemShelf, MemSink};
use pl_notation::{Outcome, damaged_ack};
use std::alloc::{AllocError, Global};
use std::test::Fail;

/// Checks the capture with a damaged Ack under this profile.
fn check_under(alloc: Global, name: &str, profile: &[u8]) -> Result<Outcome, AllocError> {
    let capture = damaged_ack(alloc)?;
    let mut shelf = MemShelf::new(alloc, 4096, &[])?;
    shelf.add("capture", &capture)?;
    shelf.add("profile", profile)?;
    let mut out = MemSink::new(alloc, 256, 4096, &[])?;
    let status = answer(alloc, &["check", name, "capture"], &mut shelf, &mut out)?;
    let output = Vec::from_slice(alloc, out.written())?;
    Ok(Outcome { status, output })
}

#[test]
fn a_profile_is_read_from_its_file(rt: HostRuntime) -> Result<(), Fail> {
    let outcome = check_under(rt.alloc(), "profile", b"vcs = 1\n")?;
    assert!(rt; outcome.is(1, DAMAGED_ACK_LINES), "{outcome:?}");
    Ok(())
}

#[test]
fn a_profile_that_is_absent_is_a_read_fault(rt: HostRuntime) -> Result<(), Fail> {
    let outcome = check_under(rt.alloc(), "absent", b"vcs = 1\n")?;
    assert!(rt; outcome.is(7, "read fault\n"), "{outcome:?}");
    Ok(())
}

#[test]
fn each_refusal_of_a_profile_has_its_number(rt: HostRuntime) -> Result<(), Fail> {
    let outcome = check_under(rt.alloc(), "profile", b"vcs =")?;
    assert!(rt; outcome.is(3, "profile error 1\n"), "{outcome:?}");
    let outcome = check_under(rt.alloc(), "profile", b"foo = 1")?;
    assert!(rt; outcome.is(3, "profile error 2\n"), "{outcome:?}");
    let outcome = check_under(rt.alloc(), "profile", b"vcs = \"1\"")?;
    assert!(rt; outcome.is(3, "profile error 3\n"), "{outcome:?}");
    for text in ["max_payload = [300, 256]", "tag_bits = 9"] {
        let outcome = check_under(rt.alloc(), "profile", text.as_bytes())?;
        assert!(rt; outcome.is(3, "profile error 4\n"), "{text}: {outcome:?}");
    }
    Ok(())
}

#[test]
fn a_profile_of_65537_bytes_is_too_long(rt: HostRuntime) -> Result<(), Fail> {
    let spaces = vec![in rt.alloc(); b' '; 65_537]?;
    let outcome = check_under(rt.alloc(), "profile", &spaces)?;
    assert!(rt; outcome.is(3, "profile error 5\n"), "{outcome:?}");
    Ok(())
}
