//! What the engine counts of a capture, and how much it keeps of it.
use crate::completions::TRANSACTIONS;
use pl_base::Tally;
use pl_cli::check_with;
use pl_engine::Engine;
use pl_io::{MemShelf, MemSink};
use pl_notation::Notation;
use pl_profile::Profile;
use std::alloc::Global;
use std::test::Fail;

/// An engine that judged these rows under the usual profile.
fn engine_behind(alloc: Global, rows: &str) -> Result<Engine, Fail> {
    let mut notation = Notation::new(alloc, 0)?;
    notation.rows(rows)?;
    let mut shelf = MemShelf::new(alloc, 4096, &[])?;
    shelf.add("capture", &notation.end()?)?;
    let mut out = MemSink::new(alloc, 4096, 4096, &[])?;
    let mut engine = Engine::open(alloc, Profile::usual())?;
    if check_with(&mut engine, "capture", &mut shelf, &mut out) != 0 {
        return Err(Fail::new(format_args!("{rows} breaks a rule")));
    }
    Ok(engine)
}

#[test]
fn transactions_are_counted_and_leave_nothing_to_keep(rt: HostRuntime) -> Result<(), Fail> {
    let engine = engine_behind(rt.alloc(), TRANSACTIONS)?;
    let expected = Tally {
        items: 24,
        tlp: [3, 2],
        dllp: [10, 9],
        taken: [3, 2],
        most_outstanding: 1,
        most_unacknowledged: [2, 1],
        ..Tally::new()
    };
    assert_eq!(rt; engine.tally(), expected);
    assert_eq!(rt; engine.kept(), 512);
    Ok(())
}

#[test]
fn a_nullified_tlp_is_counted_and_takes_no_number(rt: HostRuntime) -> Result<(), Fail> {
    let rows = "B0; 13 Up MWr n=0 nullified; 14 Up MWr n=0; 15 Up MRd n=1 tag=1 addr=1000 len=1";
    let engine = engine_behind(rt.alloc(), rows)?;
    let expected = Tally {
        items: 15,
        tlp: [0, 3],
        dllp: [6, 6],
        taken: [0, 2],
        nullified: [0, 1],
        most_outstanding: 1,
        most_unacknowledged: [0, 2],
        ..Tally::new()
    };
    assert_eq!(rt; engine.tally(), expected);
    assert_eq!(rt; engine.kept(), 512 + 1 + 2);
    Ok(())
}
