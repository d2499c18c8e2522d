//! Reads and writes that fail.
use crate::table::{Table, capture_of};
use pl_excerpt::Outcome;
use std::test::Fail;

/// A request whose transaction ID is in use.
const IN_USE: &str = "B0; 13 Up MRd n=0 tag=9 addr=1000 len=1; 14 Down Ack 0; \
    15 Up MRd n=1 tag=9 addr=1000 len=1";

#[test]
fn a_front_is_written_wherever_a_call_fails(rt: HostRuntime) -> Result<(), Fail> {
    let capture = capture_of(rt.alloc(), IN_USE)?;
    let whole = Table::plain().excerpt(rt.alloc(), &capture, 1)?;
    for call in 1..24 {
        let fails = [call];
        let cut = Table {
            step: 64,
            shelf_fails: &fails,
            sink_fails: &[],
        };
        let excerpt = cut.excerpt(rt.alloc(), &capture, 1)?;
        let is_right = matches!(excerpt.outcome, Outcome::ReadFault | Outcome::Done);
        assert!(rt; is_right, "{call}: {excerpt:?}");
        assert!(rt;
            whole.output.starts_with(&excerpt.output),
            "{call}: {excerpt:?}"
        );
    }
    for call in 1..8 {
        let fails = [call];
        let cut = Table {
            step: 64,
            shelf_fails: &[],
            sink_fails: &fails,
        };
        let excerpt = cut.excerpt(rt.alloc(), &capture, 1)?;
        let is_right = matches!(excerpt.outcome, Outcome::WriteFault | Outcome::Done);
        assert!(rt; is_right, "{call}: {excerpt:?}");
        assert!(rt;
            whole.output.starts_with(&excerpt.output),
            "{call}: {excerpt:?}"
        );
    }
    Ok(())
}
