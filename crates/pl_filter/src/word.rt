//! The words of a filter: operators and tests.
ghost use Rattle.std.specs.Prelude.{◌≡◌, length};
ghost use Rattle.pl_filter.specs.Reading.{like, number_in, operator_in, operator_text};
ghost use Rattle.pl_filter.specs.Reading.{test_in, with_value, without_value};
ghost use Rattle.pl_filter.specs.Reading as spec;
ghost use Rattle.pl_filter.specs.Tests.{front_of};

use crate::filter::Test;
use crate::name::Name;

/// What stands behind an opening parenthesis.
#[derive(Clone, Copy)]
pub(crate) enum Operator {
    Not,
    And,
    Or,
}

const OPERATORS: [Operator; 3] = [Operator::Not, Operator::And, Operator::Or];

/// A test of each front; the values don't count.
const SAMPLES: [Test; 15] = [
    Test::Any,
    Test::Up,
    Test::Down,
    Test::Tlp,
    Test::Dllp,
    Test::LinkDown,
    Test::Spoiled,
    Test::Nullified,
    Test::Kind(Name::Other),
    Test::Number(0),
    Test::Tag(0),
    Test::Requester(0),
    Test::Tc(0),
    Test::Before(0),
    Test::After(0),
];

/// The digits of the greatest number, 2^64 - 1.
const MOST_DIGITS: usize = 20;

impl Operator {
    fn text(self) -> &'static str
        ensures { result.now ≡ operator_text self }
    {
        match self {
            Operator::Not => "not",
            Operator::And => "and",
            Operator::Or => "or",
        }
    }

    /// The operator that a word is, or None where it is none.
    #[tactic(auto, unfolding(crate::specs::Reading::operator_in))]
    pub(crate) fn read(word: &[u8]) -> Option<Operator>
        ensures { result ≡ operator_in word.now }
    {
        OPERATORS
            .iter()
            .copied()
            .find(|operator| operator.text().as_bytes() == word)
    }
}

impl Test {
    /// The word of a test, up to its value where it has one.
    pub(crate) fn front(self) -> &'static str
        ensures { result.now ≡ front_of self }
    {
        match self {
            Test::Any => "any",
            Test::Up => "up",
            Test::Down => "down",
            Test::Tlp => "tlp",
            Test::Dllp => "dllp",
            Test::LinkDown => "linkdown",
            Test::Spoiled => "spoiled",
            Test::Nullified => "nullified",
            Test::Kind(_) => "kind=",
            Test::Number(_) => "number=",
            Test::Tag(_) => "tag=",
            Test::Requester(_) => "requester=",
            Test::Tc(_) => "tc=",
            Test::Before(_) => "time<",
            Test::After(_) => "time>",
        }
    }

    /// The test that a word is, or None where it is none.
    #[tactic(auto, unfolding(crate::specs::Reading::test_in))]
    pub(crate) fn read(word: &[u8]) -> Option<Test>
        ensures { result ≡ test_in word.now }
    {
        first_like(&SAMPLES, word)
    }

    /// The test of a word that begins with the front of this one, or None where it is none.
    #[tactic(auto, unfolding(crate::specs::Reading::like))]
    fn like(self, word: &[u8]) -> Option<Test>
        ensures { result ≡ like self word.now }
    {
        match word.strip_prefix(self.front().as_bytes()) {
            Some(value) => self.with_value(value),
            None => None,
        }
    }

    /// The test with the front of this one and this value.
    fn with_value(self, value: &[u8]) -> Option<Test>
        ensures { result ≡ with_value self value.now }
    {
        match self {
            Test::Kind(_) => Name::with_text(value).map(Test::Kind),
            Test::Number(_) => number(value).map(Test::Number),
            Test::Tag(_) => number(value).map(Test::Tag),
            Test::Requester(_) => number(value).map(Test::Requester),
            Test::Tc(_) => number(value).map(Test::Tc),
            Test::Before(_) => number(value).map(Test::Before),
            Test::After(_) => number(value).map(Test::After),
            plain => plain.without_value(value),
        }
    }

    fn without_value(self, value: &[u8]) -> Option<Test>
        ensures { result ≡ without_value self value.now }
    {
        if value.is_empty() { Some(self) } else { None }
    }
}

/// The number of one to twenty digits, or None where there are other bytes or it doesn't fit.
#[tactic(auto, unfolding(crate::specs::Reading::number_in))]
fn number(digits: &[u8]) -> Option<u64>
    ensures { result ≡ number_in digits.now }
{
    if digits.is_empty() || digits.len() > MOST_DIGITS {
        return None;
    }
    let mut value: u64 = 0;
    for digit in digits {
        if !digit.is_ascii_digit() {
            return None;
        }
        value = value
            .checked_mul(10)?
            .checked_add(u64::from(*digit - b'0'))?;
    }
    Some(value)
}

/// The test of a word by the first sample with whose front it begins.
fn first_like(samples: &[Test], word: &[u8]) -> Option<Test>
    ensures { result ≡ spec.first_like samples.now word.now }
{
    for sample in samples {
        if let Some(test) = sample.like(word) {
            return Some(test);
        }
    }
    None
}
