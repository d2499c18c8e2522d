//! The lines that sum up the items of a capture.
ghost use Rattle.std.specs.Prelude.{◌≡◌, ◌+◌, ◌<◌, ◌≤◌, ◌++◌, ◌↔◌, length, slice_get};
ghost use Rattle.std.specs.Prelude.{IfSome, IsNone, Some};
ghost use Rattle.std.specs.List.{filter};
ghost use Rattle.arrayvec.specs.ArrayString.{array_string_len};
ghost use Rattle.pl_report.specs.Summary.{count_text, count_lines, directions_text, is_broken};
ghost use Rattle.pl_report.specs.Summary.{every_rule, named, rule_text, summary_lines};

use crate::line::{Line, push_number};
use pl_base::{Dir, RULES, Rule, Tally};

/// How many lines stand before those of the rules.
const COUNTS: usize = 11;

/// The k-th line of the summary, from 0, or None past the last: eleven lines with what the tally
/// counts, and then `rule R N first I` for each rule with a verdict, in the order of the rules.
pub fn summary_line(tally: &Tally, k: usize) -> Option<Line>
    ensures line { IfSome result (λ line. slice_get (summary_lines tally.now) k ≡ Some line.bytes) }
    ensures past { IsNone result ↔ (length (summary_lines tally.now) ≤ k) }
{
    if k < COUNTS {
        return Some(count_line(tally, k));
    }
    let rule = broken_rule(tally, k - COUNTS)?;
    Some(rule_line(tally, rule))
}

/// The k-th of the lines with what the tally counts, from 0.
fn count_line(tally: &Tally, k: usize) -> Line
    requires { k < COUNTS }
    ensures { slice_get (count_lines tally.now) k ≡ Some result.bytes }
{
    match k {
        0 => one_count("items", tally.items),
        1 => two_counts("tlp", tally.tlp),
        2 => two_counts("dllp", tally.dllp),
        3 => one_count("link down", tally.link_down),
        4 => two_counts("taken", tally.taken),
        5 => two_counts("repeat", tally.repeat),
        6 => two_counts("stray", tally.stray),
        7 => two_counts("spoiled", tally.spoiled),
        8 => two_counts("nullified", tally.nullified),
        9 => one_count("most outstanding", tally.most_outstanding),
        10 => two_counts("most unacknowledged", tally.most_unacknowledged),
        _ => unreachable!(),
    }
}

/// `W N`.
fn one_count(word: &str, count: u64) -> Line
    requires { length word.now ≤ 20 }
    ensures { result.bytes ≡ count_text word.now count }
{
    let mut line = Line::new();
    line.push_str(word);
    line.push_str(" ");
    push_number(&mut line, count);
    line.push_str("\n");
    line
}

/// `W down A up B`: a count of each direction.
fn two_counts(word: &str, counts: [u64; 2]) -> Line
    requires { length word.now ≤ 20 }
    ensures { result.bytes ≡ directions_text word.now counts }
{
    let mut line = Line::new();
    line.push_str(word);
    line.push_str(" down ");
    push_number(&mut line, counts[Dir::Down.index()]);
    line.push_str(" up ");
    push_number(&mut line, counts[Dir::Up.index()]);
    line.push_str("\n");
    line
}

/// The k-th of the rules with a verdict, from 0, or None past the last.
fn broken_rule(tally: &Tally, k: usize) -> Option<Rule>
    ensures { result ≡ slice_get (filter (is_broken tally.now) every_rule) k }
{
    every_rule()
        .iter()
        .copied()
        .filter(|rule| tally.rules[rule.index()] > 0)
        .nth(k)
}

/// The rule with this printed name, as `C9`, or None where no rule has it. Names are told apart by
/// case.
pub fn rule_named(name: &str) -> Option<Rule>
    ensures { result ≡ named name.now }
{
    every_rule()
        .iter()
        .copied()
        .find(|rule| rule.name() == name)
}

/// Every rule, in the order of their indices.
#[tactic(auto, unfolding(crate::specs::Summary::every_rule))]
fn every_rule() -> &'static [Rule; RULES]
    ensures { result.now ≡ every_rule }
{
    &[
        Rule::L1,
        Rule::L2,
        Rule::L3,
        Rule::S1,
        Rule::S2,
        Rule::S3,
        Rule::S4,
        Rule::S5,
        Rule::F1,
        Rule::F2,
        Rule::F3,
        Rule::F4,
        Rule::F5,
        Rule::F6,
        Rule::F7,
        Rule::F8,
        Rule::F9,
        Rule::F10,
        Rule::F11,
        Rule::M1,
        Rule::M2,
        Rule::M3,
        Rule::M4,
        Rule::M5,
        Rule::M6,
        Rule::M7,
        Rule::M8,
        Rule::M9,
        Rule::M10,
        Rule::M11,
        Rule::M12,
        Rule::M13,
        Rule::M14,
        Rule::M15,
        Rule::M16,
        Rule::M17,
        Rule::M18,
        Rule::M19,
        Rule::M20,
        Rule::C1,
        Rule::C2,
        Rule::C3,
        Rule::C4,
        Rule::C5,
        Rule::C6,
        Rule::C7,
        Rule::C8,
        Rule::C9,
        Rule::C10,
    ]
}

/// `rule R N first I`: a rule, its verdicts, and the first item that breaks it.
#[tactic(auto, using(crate::proofs::Names::short))]
fn rule_line(tally: &Tally, rule: Rule) -> Line
    ensures { result.bytes ≡ rule_text tally.now rule }
{
    let mut line = Line::new();
    line.push_str("rule ");
    line.push_str(rule.name());
    line.push_str(" ");
    push_number(&mut line, tally.rules[rule.index()]);
    line.push_str(" first ");
    push_number(&mut line, tally.first_at[rule.index()]);
    line.push_str("\n");
    line
}
