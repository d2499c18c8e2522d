//! The verdict of which an excerpt is made.
ghost use Rattle.std.specs.Prelude.{◌≡◌};
ghost use Rattle.pl_excerpt.specs.CoreItems as spec;

use pl_base::{Rule, Verdict};

/// A verdict, the number of its item, and where the span of that begins.
#[derive(Clone, Copy)]
pub(crate) struct Case {
    pub(crate) verdict: Verdict,
    pub(crate) at: u64,
    /// The number of the link down or gap behind which the span begins, or 0.
    pub(crate) start: u64,
}

impl Case {
    /// Whether the item with this number stands before that of the verdict, and in its span.
    pub(crate) fn is_in_span(&self, at: u64) -> bool
        ensures { result ≡ spec.is_in_span self.now at }
    {
        self.start < at && at < self.at
    }

    /// Whether it is the item of the verdict or one that it cites.
    pub(crate) fn cites(&self, at: u64) -> bool
        ensures { result ≡ spec.is_cited self.now at }
    {
        self.at == at || is(self.verdict.first, at) || is(self.verdict.second, at)
    }

    /// Whether it is the open request that the verdict cites, as those on transactions do but for
    /// C1.
    pub(crate) fn cites_request(&self, at: u64) -> bool
        ensures { result ≡ spec.cites_as_request self.now at }
    {
        self.verdict.rule.index() >= Rule::C2.index() && is(self.verdict.first, at)
    }
}

/// Whether an item with this number is cited.
fn is(cited: Option<u64>, at: u64) -> bool
    ensures { result ≡ spec.is_number cited at }
{
    cited == Some(at)
}
