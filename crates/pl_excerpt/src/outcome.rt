//! What an excerpt came to.
ghost use Rattle.std.specs.Prelude.{◌≡◌};
ghost use Rattle.pl_excerpt.specs.Answer as spec;

use crate::source::Ended;
use pl_base::Stop;

/// What came of an excerpt.
#[derive(Clone, Copy, Debug, PartialEq, Eq)]
pub enum Outcome {
    /// The excerpt was written whole.
    Done,
    /// The capture was read to its end and has fewer verdicts.
    NoVerdict,
    /// The capture is refused before the verdict, or memory was wanting.
    Stop(Stop),
    /// The capture has fewer verdicts in as many bytes as are judged, and is longer.
    Length,
    /// The capture that was read a second time doesn't have the verdict.
    Changed,
    /// The capture couldn't be opened or read.
    ReadFault,
    /// The sink failed.
    WriteFault,
}

/// What a search comes to that ends before the verdict.
pub(crate) fn without_verdict(ended: Ended) -> Outcome
    ensures { result ≡ spec.without_verdict ended }
{
    match ended {
        Ended::Whole => Outcome::NoVerdict,
        Ended::Refused(stop) => Outcome::Stop(stop),
        Ended::TooLong => Outcome::Length,
        Ended::Fault => Outcome::ReadFault,
    }
}

/// What a copy comes to that ends before the item of the verdict.
pub(crate) fn without_item(ended: Ended) -> Outcome
    ensures { result ≡ spec.without_item ended }
{
    match ended {
        Ended::Whole | Ended::Refused(_) | Ended::TooLong => Outcome::Changed,
        Ended::Fault => Outcome::ReadFault,
    }
}
