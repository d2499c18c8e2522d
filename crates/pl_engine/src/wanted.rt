//! Which verdicts of a capture are asked for.
ghost use Rattle.std.specs.Prelude.{◌≡◌};
ghost use Rattle.pl_engine.specs.Wanted.{is_wanted};

use pl_base::{Rule, Verdict};

/// The verdicts that are counted and kept.
#[derive(Clone, Copy)]
pub(crate) enum Wanted {
    /// All of them.
    Every,
    /// Those of this rule.
    Of(Rule),
}

impl Wanted {
    /// Whether a verdict is counted and kept.
    pub(crate) fn wants(self, verdict: &Verdict) -> bool
        ensures { result ≡ is_wanted self verdict.now }
    {
        match self {
            Wanted::Every => true,
            Wanted::Of(rule) => verdict.rule.index() == rule.index(),
        }
    }
}
