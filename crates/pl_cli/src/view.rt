//! What a command shows of a capture.
use pl_filter::Filter;

/// What is written of the items of a capture, and before the last line.
#[derive(Debug, Drop)]
pub(crate) enum View<'a> {
    /// The verdicts.
    Check,
    /// The items for which the filter holds, each with its verdicts.
    List(&'a Filter),
    /// What is counted of the items.
    Report,
}
