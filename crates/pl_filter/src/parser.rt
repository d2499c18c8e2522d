//! From a text to its filter.
ghost use Rattle.std.specs.Prelude.{◌≡◌, ◌≤◌, ◌≢◌, Err, IfOk, Result, length};
ghost use Rattle.pl_filter.specs.Answers.{IsAnswer, answered};
ghost use Rattle.pl_filter.specs.Reading.{Gives, reading, tokens_at, filter_seen};
ghost use Rattle.pl_filter.specs.Reading.{close_in, filter_in, negation_in, operation_in, pair_in};
ghost use Rattle.pl_filter.specs.Trees.{Tree, tree};

use crate::error::FilterError;
use crate::filter::{Filter, Test};
use crate::token::{Token, next_token};
use crate::word::Operator;
use std::alloc::Global;

/// How many parentheses may be open at once.
const MOST_OPEN: u8 = 32;

/// The filter of a text. The text is judged from the left.
///
/// `Syntax` comes at the first byte of the first token that no filter has there, and at the length
/// of a text that ends early; `TooDeep` comes at a parenthesis that would be the 33rd one open
/// where a filter may have one. Places count bytes. `Memory` may come in place of a filter or of a
/// later refusal.
pub fn parse(alloc: Global, text: &str) -> Result<Filter, FilterError>
    ensures right { answered result ≢ Err FilterError.Memory → IsAnswer text.now (answered result) }
    ensures only { (a : Result Tree FilterError) → IsAnswer text.now a
        → answered result ≢ Err FilterError.Memory → answered result ≡ a }
{
    whole(alloc, text.as_bytes())
}

#[tactic(auto, unfolding(crate::specs::Reading::reading))]
fn whole(alloc: Global, text: &[u8]) -> Result<Filter, FilterError>
    ensures { Gives tree result (reading text.now) }
{
    let (filter, end) = filter_at(alloc, text, 0, MOST_OPEN)?;
    match next_token(text, end) {
        None => Ok(filter),
        Some(next) => Err(FilterError::Syntax(next.at)),
    }
}

/// The filter from this place on and the place behind it, where so many more parentheses may be
/// opened.
#[cycle(parser)]
fn filter_at(
    alloc: Global,
    text: &[u8],
    from: usize,
    left: u8,
) -> Result<(Filter, usize), FilterError>
    requires { from ≤ length text.now }
    ensures read { Gives (filter_seen text.now) result (filter_in text.now left from) }
    ensures within { IfOk result (λ x. x.1 ≤ length text.now) }
{
    let Some(next) = next_token(text, from) else {
        return Err(FilterError::Syntax(text.len()));
    };
    match next.token {
        Token::Word(word) => match Test::read(word) {
            Some(test) => Ok((Filter::Is(test), next.end)),
            None => Err(FilterError::Syntax(next.at)),
        },
        Token::Close => Err(FilterError::Syntax(next.at)),
        Token::Open if left == 0 => Err(FilterError::TooDeep(next.at)),
        Token::Open => operation_at(alloc, text, next.end, left - 1),
    }
}

/// What stands behind an opening parenthesis, up to the one that closes it.
#[cycle(parser)]
#[tactic(auto, unfolding(crate::specs::Reading::read_operation))]
fn operation_at(
    alloc: Global,
    text: &[u8],
    from: usize,
    left: u8,
) -> Result<(Filter, usize), FilterError>
    requires { from ≤ length text.now }
    ensures read { Gives (filter_seen text.now) result (operation_in text.now left from) }
    ensures within { IfOk result (λ x. x.1 ≤ length text.now) }
{
    let Some(next) = next_token(text, from) else {
        return Err(FilterError::Syntax(text.len()));
    };
    let Token::Word(word) = next.token else {
        return Err(FilterError::Syntax(next.at));
    };
    match Operator::read(word) {
        None => Err(FilterError::Syntax(next.at)),
        Some(Operator::Not) => negation_at(alloc, text, next.end, left),
        Some(Operator::And) => {
            let (first, second, end) = pair_at(alloc, text, next.end, left)?;
            Ok((Filter::And(first, second), end))
        }
        Some(Operator::Or) => {
            let (first, second, end) = pair_at(alloc, text, next.end, left)?;
            Ok((Filter::Or(first, second), end))
        }
    }
}

/// One filter and the parenthesis that closes its negation.
#[cycle(parser)]
#[tactic(auto, unfolding(crate::specs::Reading::read_negation))]
fn negation_at(
    alloc: Global,
    text: &[u8],
    from: usize,
    left: u8,
) -> Result<(Filter, usize), FilterError>
    requires { from ≤ length text.now }
    ensures read { Gives (filter_seen text.now) result (negation_in text.now left from) }
    ensures within { IfOk result (λ x. x.1 ≤ length text.now) }
{
    let (inner, end) = filter_at(alloc, text, from, left)?;
    let end = close_at(text, end)?;
    Ok((Filter::Not(Box::new(alloc, inner)?), end))
}

/// Two filters and the parenthesis that closes their conjunction or disjunction.
#[cycle(parser)]
#[tactic(auto, unfolding(crate::specs::Reading::read_pair))]
fn pair_at(
    alloc: Global,
    text: &[u8],
    from: usize,
    left: u8,
) -> Result<(Box<Filter>, Box<Filter>, usize), FilterError>
    requires { from ≤ length text.now }
    ensures read { Gives (λ x. (tree x.0.value, tree x.1.value, tokens_at text.now x.2)) result
        (pair_in text.now left from) }
    ensures within { IfOk result (λ x. x.2 ≤ length text.now) }
{
    let (first, end) = filter_at(alloc, text, from, left)?;
    let (second, end) = filter_at(alloc, text, end, left)?;
    let end = close_at(text, end)?;
    Ok((Box::new(alloc, first)?, Box::new(alloc, second)?, end))
}

/// The place behind a closing parenthesis.
#[tactic(auto, unfolding(crate::specs::Reading::read_close))]
fn close_at(text: &[u8], from: usize) -> Result<usize, FilterError>
    requires { from ≤ length text.now }
    ensures read { Gives (tokens_at text.now) result (close_in text.now from) }
    ensures within { IfOk result (λ x. x ≤ length text.now) }
{
    match next_token(text, from) {
        None => Err(FilterError::Syntax(text.len())),
        Some(next) => match next.token {
            Token::Close => Ok(next.end),
            Token::Open | Token::Word(_) => Err(FilterError::Syntax(next.at)),
        },
    }
}
