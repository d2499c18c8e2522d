//! From a filter to its text.
ghost use Rattle.std.specs.Prelude.{◌≡◌, ◌++◌, ◌≤◌, IfOk, Ok, OnOk, decimal};
ghost use Rattle.std.specs.String.{string_bytes};
ghost use Rattle.pl_filter.specs.Answers.{IsAnswer};
ghost use Rattle.pl_filter.specs.Fitting.{NumberFits, NumbersFit};
ghost use Rattle.pl_filter.specs.Tests.{front_of, printed, value_text};
ghost use Rattle.pl_filter.specs.Trees.{nesting, tree};

use crate::filter::{Filter, Test};
use itoa::Buffer;
use std::alloc::{AllocError, Global};

/// The one printed text of a filter: one space between parts, none beside the edge of a
/// parenthesis, and numbers without leading zeros. Its filter is this one where at most 32
/// parentheses are open at once.
#[tactic(auto, using(crate::proofs::Printed::printed_answer))]
pub fn print(alloc: Global, f: &Filter) -> Result<String, AllocError>
    ensures text { IfOk result (λ text. string_bytes text ≡ printed (tree f.now)) }
    ensures reads_back { nesting (tree f.now) ≤ 32
        → IfOk result (λ text. IsAnswer (string_bytes text) (Ok (tree f.now))) }
{
    let mut text = String::new(alloc);
    push_filter(&mut text, f)?;
    Ok(text)
}

/// Appends a filter.
fn push_filter(text: &mut String, f: &Filter) -> Result<(), AllocError>
    ensures text { OnOk result
        (string_bytes text.new ≡ string_bytes text.old ++ printed (tree f.now)) }
    ensures fits { OnOk result (NumbersFit (tree f.now)) }
{
    match f {
        Filter::And(left, right) => {
            text.push_str("(and ")?;
            push_filter(text, left)?;
            text.push_str(" ")?;
            push_filter(text, right)?;
            text.push_str(")")
        }
        Filter::Or(left, right) => {
            text.push_str("(or ")?;
            push_filter(text, left)?;
            text.push_str(" ")?;
            push_filter(text, right)?;
            text.push_str(")")
        }
        Filter::Not(inner) => {
            text.push_str("(not ")?;
            push_filter(text, inner)?;
            text.push_str(")")
        }
        Filter::Is(test) => push_test(text, *test),
    }
}

/// Appends a test.
fn push_test(text: &mut String, test: Test) -> Result<(), AllocError>
    ensures text { OnOk result
        (string_bytes text.new ≡ string_bytes text.old ++ (front_of test ++ value_text test)) }
    ensures fits { NumberFits test }
{
    text.push_str(test.front())?;
    match test {
        Test::Kind(name) => text.push_str(name.text()),
        Test::Number(n)
        | Test::Tag(n)
        | Test::Requester(n)
        | Test::Tc(n)
        | Test::Before(n)
        | Test::After(n) => push_number(text, n),
        _ => Ok(()),
    }
}

/// Appends a number without leading zeros.
fn push_number(text: &mut String, n: u64) -> Result<(), AllocError>
    ensures { OnOk result (string_bytes text.new ≡ string_bytes text.old ++ decimal n) }
{
    text.push_str(Buffer::new().format(n))
}
