//! Which items an excerpt has, and when there is none.
use crate::table::{Table, capture_of};
use pl_excerpt::Outcome;
use std::alloc::Global;
use std::test::Fail;

/// A read whose two completions break where they shouldn't.
const BOUNDARY: &str = "B0; 13 Up MRd n=0 tag=0 addr=70 len=16; \
    14 Down CplD n=0 tag=0 bc=64 la=70 len=2; 15 Down CplD n=1 tag=0 bc=56 la=78 len=14";

/// A request whose transaction ID is in use.
const IN_USE: &str = "B0; 13 Up MRd n=0 tag=9 addr=1000 len=1; 14 Down Ack 0; \
    15 Up MRd n=1 tag=9 addr=1000 len=1";

/// The places of the records in an excerpt, and the end: the first byte of each record is its kind,
/// its time is the number of its item.
fn shape_of(alloc: Global, output: &[u8]) -> Result<Vec<(u8, u8)>, Fail> {
    let mut shape = Vec::new(alloc);
    let mut rest = output.get(16..).ok_or("no header")?;
    for _ in 0..output.len() {
        let Some((head, behind)) = rest.split_at_checked(12) else {
            return Ok(shape);
        };
        shape.push((head[0], head[11]))?;
        let size = usize::from(head[2]) * 256 + usize::from(head[3]);
        rest = behind.get(size..).ok_or("cut record")?;
    }
    Ok(shape)
}

#[test]
fn a_completion_is_shown_with_its_request(rt: HostRuntime) -> Result<(), Fail> {
    let capture = capture_of(rt.alloc(), BOUNDARY)?;
    let first = Table::plain().excerpt(rt.alloc(), &capture, 1)?;
    assert_eq!(rt; first.outcome, Outcome::Done);
    assert_eq!(rt; first.output.len(), 116);
    let shape = shape_of(rt.alloc(), &first.output)?;
    assert_eq!(rt;
        shape.as_slice(),
        [(4, 13), (0, 13), (0, 14), (3, 0)].as_slice()
    );
    let second = Table::plain().excerpt(rt.alloc(), &capture, 2)?;
    assert_eq!(rt; second.outcome, Outcome::NoVerdict);
    assert!(rt; second.output.is_empty());
    Ok(())
}

#[test]
fn an_ack_of_the_core_is_shown(rt: HostRuntime) -> Result<(), Fail> {
    let capture = capture_of(rt.alloc(), IN_USE)?;
    let excerpt = Table::plain().excerpt(rt.alloc(), &capture, 1)?;
    assert_eq!(rt; excerpt.outcome, Outcome::Done);
    assert_eq!(rt; excerpt.output.len(), 126);
    let shape = shape_of(rt.alloc(), &excerpt.output)?;
    assert_eq!(rt;
        shape.as_slice(),
        [(4, 13), (0, 13), (1, 14), (0, 15), (3, 0)].as_slice()
    );
    Ok(())
}

#[test]
fn repeats_and_parts_of_the_core_are_shown(rt: HostRuntime) -> Result<(), Fail> {
    let rows = "B0; 13 Up MRd n=0 tag=5 addr=1000 len=64; 14 Up MRd n=1 tag=6 addr=1000 len=1; \
        15 Up MRd n=0 tag=5 addr=1000 len=64; 16 Down CplD n=0 tag=5 bc=256 la=0 len=16; \
        17 Down CplD n=1 tag=6 bc=4 la=0 len=1; 18 Up Ack 0; 19 Down Ack 1; 20 Up Ack 1; \
        21 Down CplD n=2 tag=5 bc=191 la=40 len=48";
    let capture = capture_of(rt.alloc(), rows)?;
    let excerpt = Table::plain().excerpt(rt.alloc(), &capture, 1)?;
    assert_eq!(rt; excerpt.outcome, Outcome::Done);
    let shape = shape_of(rt.alloc(), &excerpt.output)?;
    assert_eq!(rt;
        shape.as_slice(),
        [
            (4, 13),
            (0, 13),
            (4, 15),
            (0, 15),
            (0, 16),
            (4, 18),
            (1, 18),
            (1, 19),
            (4, 21),
            (0, 21),
            (3, 0),
        ]
        .as_slice()
    );
    Ok(())
}

#[test]
fn a_refusal_behind_the_verdict_is_passed_over(rt: HostRuntime) -> Result<(), Fail> {
    let capture = capture_of(rt.alloc(), "Up Ack 4095; Up Ack 7")?;
    let cut = &capture[..capture.len().saturating_sub(1)];
    let first = Table::plain().excerpt(rt.alloc(), cut, 1)?;
    assert_eq!(rt; first.outcome, Outcome::Done);
    let second = Table::plain().excerpt(rt.alloc(), cut, 2)?;
    assert!(rt; matches!(second.outcome, Outcome::Stop(_)), "{second:?}");
    Ok(())
}
