//! The closing line of a capture that was read to its end.
ghost use Rattle.std.specs.Prelude.{◌≡◌};
ghost use Rattle.pl_report.specs.Lines.{closing_text};

use crate::line::{Line, push_number};

/// `end items I verdicts V`: the items that were judged, and the verdicts that were written.
#[tactic(auto, unfolding(crate::specs::Lines::closing_text))]
pub fn closing_line(items: u64, verdicts: u64) -> Line
    ensures { result.bytes ≡ closing_text items verdicts }
{
    let mut line = Line::new();
    line.push_str("end items ");
    push_number(&mut line, items);
    line.push_str(" verdicts ");
    push_number(&mut line, verdicts);
    line.push_str("\n");
    line
}
