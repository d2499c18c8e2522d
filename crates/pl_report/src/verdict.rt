//! The line of a verdict.
ghost use Rattle.std.specs.Prelude.{◌≡◌, ◌+◌, ◌≤◌, ◌++◌};
ghost use Rattle.arrayvec.specs.ArrayString.{array_string_len};
ghost use Rattle.pl_report.specs.Lines.{cited, verdict_text};

use crate::line::{Line, push_number};
use pl_base::Verdict;

/// `item I rule R first X second Y`: the judged item, the broken rule and the cited earlier items,
/// each a number or `-` where the rule cites none.
#[tactic(auto, using(crate::proofs::Names::short), unfolding(crate::specs::Lines::verdict_text))]
pub fn verdict_line(v: &Verdict) -> Line
    ensures { result.bytes ≡ verdict_text v.now }
{
    let mut line = Line::new();
    line.push_str("item ");
    push_number(&mut line, v.at);
    line.push_str(" rule ");
    line.push_str(v.rule.name());
    line.push_str(" first ");
    push_cited(&mut line, v.first);
    line.push_str(" second ");
    push_cited(&mut line, v.second);
    line.push_str("\n");
    line
}

/// Appends a cited item.
fn push_cited(line: &mut Line, item: Option<u64>)
    requires { array_string_len line.old + 20 ≤ 160 }
    ensures bytes { line.new.bytes ≡ line.old.bytes ++ cited item }
    ensures length { array_string_len line.new ≤ array_string_len line.old + 20 }
{
    match item {
        Some(number) => push_number(line, number),
        None => line.push_str("-"),
    }
}
