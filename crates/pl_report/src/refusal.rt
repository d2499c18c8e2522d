//! The lines of the refusals.
ghost use Rattle.std.specs.Prelude.{◌≡◌, ◌≤◌, length};
ghost use Rattle.pl_report.specs.Lines.{refusal_text, stop_text, profile_error_text};
ghost use Rattle.pl_report.specs.Lines.{placed_text, filter_error_text, length_text};
ghost use Rattle.pl_report.specs.Lines.{read_fault_text, usage_text};

use crate::line::{Line, push_number};
use pl_base::Stop;
use pl_filter::FilterError;

/// The line of a refusal in the capture; empty for want of memory, for which nothing is written.
#[tactic(auto, unfolding(crate::specs::Lines::stop_text))]
pub fn stop_line(stop: &Stop) -> Line
    ensures { result.bytes ≡ stop_text stop.now }
{
    match *stop {
        Stop::Malformed(kind, item) => refusal_line("malformed", u64::from(kind.number()), item),
        Stop::Unsupported(form, item) => refusal_line(
            "unsupported",
            u64::from(form.number()),
            item,
        ),
        Stop::Outstanding(limit, item) => refusal_line("limit outstanding", u64::from(limit), item),
        Stop::Unacknowledged(limit, item) => refusal_line(
            "limit unacknowledged",
            u64::from(limit),
            item,
        ),
        Stop::Memory => Line::new(),
    }
}

/// `NAME N at item I`.
fn refusal_line(name: &str, number: u64, item: u64) -> Line
    requires { length name.now ≤ 20 }
    ensures { result.bytes ≡ refusal_text name.now number item }
{
    let mut line = Line::new();
    line.push_str(name);
    line.push_str(" ");
    push_number(&mut line, number);
    line.push_str(" at item ");
    push_number(&mut line, item);
    line.push_str("\n");
    line
}

/// `profile error N`: the number of the profile's refusal.
#[tactic(auto, unfolding(crate::specs::Lines::profile_error_text))]
pub fn profile_error_line(number: u8) -> Line
    ensures { result.bytes ≡ profile_error_text number }
{
    let mut line = Line::new();
    line.push_str("profile error ");
    push_number(&mut line, u64::from(number));
    line.push_str("\n");
    line
}

/// `filter error N at P`: the number of the filter's refusal, and the bytes of its text before the
/// place. Empty for want of memory, for which nothing is written.
#[tactic(auto, unfolding(crate::specs::Lines::filter_error_text))]
pub fn filter_error_line(error: &FilterError) -> Line
    ensures { result.bytes ≡ filter_error_text error.now }
{
    match *error {
        FilterError::Syntax(at) | FilterError::TooDeep(at) => placed_line(error.number(), at),
        FilterError::Memory => Line::new(),
    }
}

/// `filter error N at P`.
fn placed_line(number: u8, at: usize) -> Line
    ensures { result.bytes ≡ placed_text number at }
{
    let mut line = Line::new();
    line.push_str("filter error ");
    push_number(&mut line, u64::from(number));
    line.push_str(" at ");
    push_number(&mut line, at as u64);
    line.push_str("\n");
    line
}

/// The line of a capture that is longer than 2^40 bytes.
#[tactic(auto, unfolding(crate::specs::Lines::length_text))]
pub fn length_line() -> &'static str
    ensures { result.now ≡ length_text }
{
    "limit length 1099511627776\n"
}

/// The line of a file that couldn't be read.
#[tactic(auto, unfolding(crate::specs::Lines::read_fault_text))]
pub fn read_fault_line() -> &'static str
    ensures { result.now ≡ read_fault_text }
{
    "read fault\n"
}

/// The line of a faulty command line.
#[tactic(auto, unfolding(crate::specs::Lines::usage_text))]
pub fn usage_line() -> &'static str
    ensures { result.now ≡ usage_text }
{
    "usage: check PROFILE CAPTURE | list PROFILE CAPTURE FILTER \
     | report PROFILE CAPTURE | trial NUMBER COUNT | serve ADDRESS STORE TURNS\n"
}
