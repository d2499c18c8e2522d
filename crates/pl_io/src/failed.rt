//! The one error of the outside, and the count of it.
ghost use Rattle.std.specs.Prelude.{◌≡◌, ◌≤◌};
ghost use Rattle.pl_io.specs.Faults.{Rose};

use thiserror::Error;

/// A call failed. The object's count of faults rose in that call, or stands at its last value.
#[derive(Clone, Copy, Debug, PartialEq, Eq, Error)]
#[error("the call failed")]
pub struct Failed;

/// How often the calls of an object have failed. At its last value, `2^64 - 1`, the count stays.
#[derive(Clone, Copy, Debug)]
pub struct FaultCount {
    pub value: u64,
}

impl FaultCount {
    /// No call has failed yet.
    pub fn new() -> FaultCount
        ensures { result.value ≡ 0 }
    {
        FaultCount { value: 0 }
    }

    /// Counts a call that fails.
    pub fn raise(&mut self) -> Failed
        ensures rose { Rose self.old.value self.new.value }
        ensures never_falls { self.old.value ≤ self.new.value }
    {
        self.value = self.value.saturating_add(1);
        Failed
    }
}
