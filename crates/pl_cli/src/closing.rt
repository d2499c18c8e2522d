//! The last lines, and the status with which they stand.
ghost use Rattle.std.specs.Prelude.{◌≡◌, ◌≢◌, ◌+◌, ℕ, true, length, IsOk, OnErr, OnOk};
ghost use Rattle.std.specs.List.{concat};
ghost use Rattle.pl_io.specs.Faults.{HasCause};
ghost use Rattle.pl_io.specs.Told.{plus, HasRoom, Partly};
ghost use Rattle.pl_report.specs.Lines.{stop_text};
ghost use Rattle.pl_report.specs.Summary.{summary_lines};
ghost use Rattle.pl_cli.specs.Output as spec;
ghost use Rattle.pl_cli.specs.Output.{cause_status, last_text, stop_status, summary};
ghost use Rattle.pl_cli.specs.Progress.{is_fault, last_cause, last_lines, meant};
ghost use Rattle.pl_cli.specs.Promise.{Answers};

use crate::judging::{Ended, Judging};
use crate::status::{
    BROKEN, CLEAN, LIMIT, MALFORMED, NO_MEMORY, READ_FAULT, UNSUPPORTED, WRITE_FAULT,
};
use crate::view::View;
use pl_base::{Stop, Tally};
use pl_capture::Step;
use pl_io::{Failed, Sink, write_all};
use pl_report::{
    Line, closing_line, length_line, list_closing_line, read_fault_line, stop_line, summary_line,
};

/// Writes the last lines of a capture, and answers the status.
pub(crate) fn close<O: Sink>(
    view: &View<'_>,
    judging: &mut Judging,
    tally: &Tally,
    ended: Ended,
    out: &mut O,
) -> u8
    ensures closed { Answers O.Sink
        (last_lines (meant view.now) tally.now judging.old (last_cause ended judging.old.reader))
        (cause_status judging.old.verdicts (last_cause ended judging.old.reader))
        out.old out.new result }
    ensures fault { result ≡ READ_FAULT → is_fault ended ≡ true }
    ensures faulted { is_fault ended ≡ true → result ≢ WRITE_FAULT → result ≡ READ_FAULT }
{
    match write_summary(view, tally, out) {
        Ok(()) => close_behind(view, judging, ended, out),
        Err(_) => WRITE_FAULT,
    }
}

/// Writes what stands before the last line.
fn write_summary<O: Sink>(view: &View<'_>, tally: &Tally, out: &mut O) -> Result<(), Failed>
    ensures appended { OnOk result (O.written out.new
        ≡ plus (O.written out.old) (summary (meant view.now) tally.now)) }
    ensures part { OnErr result (Partly (O.written out.old) (O.written out.new)
        (summary (meant view.now) tally.now)) }
    ensures fits { HasRoom (O.room out.old) (length (summary (meant view.now) tally.now)) →
        IsOk result }
    ensures room_left { OnOk result ((k : ℕ) →
        HasRoom (O.room out.old) (length (summary (meant view.now) tally.now) + k) →
        HasRoom (O.room out.new) k) }
    ensures cause { HasCause (O.faults out.old) (O.faults out.new) result }
{
    match view {
        View::Check | View::List(_) => Ok(()),
        View::Report => write_counts(tally, out),
    }
}

/// Writes the lines of a report that say what was counted.
fn write_counts<O: Sink>(tally: &Tally, out: &mut O) -> Result<(), Failed>
    ensures appended { OnOk result (O.written out.new
        ≡ plus (O.written out.old) (concat (summary_lines tally.now))) }
    ensures part { OnErr result (Partly (O.written out.old) (O.written out.new)
        (concat (summary_lines tally.now))) }
    ensures fits { HasRoom (O.room out.old) (length (concat (summary_lines tally.now))) →
        IsOk result }
    ensures room_left { OnOk result ((k : ℕ) →
        HasRoom (O.room out.old) (length (concat (summary_lines tally.now)) + k) →
        HasRoom (O.room out.new) k) }
    ensures cause { HasCause (O.faults out.old) (O.faults out.new) result }
{
    let mut k = 0;
    while let Some(line) = summary_line(tally, k) {
        match write_all(out, line.as_bytes()) {
            Ok(()) => k += 1,
            Err(failed) => return Err(failed),
        }
    }
    Ok(())
}

/// Writes the last line, and answers the status.
fn close_behind<O: Sink>(view: &View<'_>, judging: &mut Judging, ended: Ended, out: &mut O) -> u8
    ensures closed { Answers O.Sink (last_text (meant view.now) judging.old.items judging.old.listed
        judging.old.verdicts (last_cause ended judging.old.reader))
        (cause_status judging.old.verdicts (last_cause ended judging.old.reader))
        out.old out.new result }
    ensures fault { result ≡ READ_FAULT → is_fault ended ≡ true }
    ensures faulted { is_fault ended ≡ true → result ≢ WRITE_FAULT → result ≡ READ_FAULT }
{
    match ended {
        Ended::Whole => close_whole(view, judging, out),
        Ended::Fault => write_last(out, read_fault_line(), READ_FAULT),
        Ended::TooLong => write_last(out, length_line(), LIMIT),
        Ended::Refused(stop) => refuse(&stop, out),
    }
}

/// The last line of a file that was read to its end: the capture may lack its own end.
fn close_whole<O: Sink>(view: &View<'_>, judging: &mut Judging, out: &mut O) -> u8
    ensures closed { Answers O.Sink
        (last_text (meant view.now) judging.old.items judging.old.listed judging.old.verdicts
        (last_cause Ended.Whole judging.old.reader))
        (cause_status judging.old.verdicts (last_cause Ended.Whole judging.old.reader))
        out.old out.new result }
    ensures no_fault { result ≢ READ_FAULT }
{
    match judging.reader.finish() {
        Step::Bad(stop) => refuse(&stop, out),
        Step::More | Step::Item { .. } | Step::End { .. } => {
            let line = closing(view, judging);
            let status = if judging.verdicts == 0 { CLEAN } else { BROKEN };
            write_last(out, line.as_str(), status)
        }
    }
}

/// The closing line of a capture that ended with its end record.
fn closing(view: &View<'_>, judging: &Judging) -> Line
    ensures { result.bytes ≡ spec.closing (meant view.now) judging.now.items judging.now.listed
        judging.now.verdicts }
{
    match view {
        View::Check | View::Report => closing_line(judging.items, judging.verdicts),
        View::List(_) => list_closing_line(judging.items, judging.listed, judging.verdicts),
    }
}

/// Writes the line of a refusal, and answers its status.
fn refuse<O: Sink>(stop: &Stop, out: &mut O) -> u8
    ensures closed { Answers O.Sink (stop_text stop.now) (stop_status stop.now)
        out.old out.new result }
    ensures no_fault { result ≢ READ_FAULT }
{
    let status = match stop {
        Stop::Malformed(_, _) => MALFORMED,
        Stop::Unsupported(_, _) => UNSUPPORTED,
        Stop::Outstanding(_, _) | Stop::Unacknowledged(_, _) => LIMIT,
        Stop::Memory => NO_MEMORY,
    };
    write_last(out, stop_line(stop).as_str(), status)
}

/// Writes the last line. The status is the given one, or that of a fault of the sink.
pub(crate) fn write_last<O: Sink>(out: &mut O, line: &str, status: u8) -> u8
    requires { status ≢ WRITE_FAULT }
    ensures closed { Answers O.Sink line.now status out.old out.new result }
    ensures known { result ≢ WRITE_FAULT → result ≡ status }
{
    match write_all(out, line.as_bytes()) {
        Ok(()) => status,
        Err(_) => WRITE_FAULT,
    }
}
