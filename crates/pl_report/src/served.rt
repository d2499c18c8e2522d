//! The lines of a run that serves the archive.
ghost use Rattle.std.specs.Prelude.{◌≡◌};
ghost use Rattle.pl_report.specs.ServedLines.{door_fault_text, served_text, store_fault_text};

use crate::line::{Line, push_number};

/// `served S`: the status of a reply, or 0 where none was sent whole.
#[tactic(auto, unfolding(crate::specs::ServedLines::served_text))]
pub fn served_line(status: u16) -> Line
    ensures { result.bytes ≡ served_text status }
{
    let mut line = Line::new();
    line.push_str("served ");
    push_number(&mut line, u64::from(status));
    line.push_str("\n");
    line
}

/// The line of an archive a call of which failed.
#[tactic(auto, unfolding(crate::specs::ServedLines::store_fault_text))]
pub fn store_fault_line() -> &'static str
    ensures { result.now ≡ store_fault_text }
{
    "store fault\n"
}

/// The line of a door that gave no link.
#[tactic(auto, unfolding(crate::specs::ServedLines::door_fault_text))]
pub fn door_fault_line() -> &'static str
    ensures { result.now ≡ door_fault_text }
{
    "door fault\n"
}
