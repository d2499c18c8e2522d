//! The command `trial`: the report of a capture that two numbers make.
ghost use Rattle.std.specs.Prelude.{◌≤◌};
ghost use Rattle.pl_cli.specs.Promise.{Trials};

use crate::status::NO_MEMORY;
use crate::with_engine::report_with;
use pl_engine::Engine;
use pl_io::Sink;
use pl_make::Maker;
use pl_profile::Profile;
use std::alloc::Global;

/// Judges the generated capture of `count` rounds, 1 to 1,000,000, drawn from `number`, under the
/// usual profile, and writes what is counted of its items.
///
/// The capture is made while it is read, and no more than a record of it is kept. The lines and the
/// exit status are those of [`report`](crate::report) for a file with the same bytes under `-`. 7
/// never comes, since no file is read; 9 comes where memory was wanting for the engine, before the
/// capture is opened, and writes nothing.
pub fn trial<O: Sink>(alloc: Global, number: u64, count: u32, out: &mut O) -> u8
    requires some { 1 ≤ count }
    requires most { count ≤ 1000000 }
    ensures { Trials O.Sink number count out.old out.new result }
{
    match Engine::open(alloc, Profile::usual()) {
        Ok(mut engine) => {
            let mut maker = Maker::new(number, count);
            report_with(&mut engine, "capture", &mut maker, out)
        }
        Err(_) => NO_MEMORY,
    }
}
