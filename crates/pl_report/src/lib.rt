//! What the program writes, by its exact bytes: line by line items, verdicts, the summary, closing
//! lines and refusals, and as JSON the verdicts on a stored capture.
//!
//! Numbers are decimal without leading zeros, and every line ends with LF.
#![tactic(auto)]

mod as_json;
mod closing;
mod line;
mod list;
mod refusal;
mod served;
mod summary;
mod verdict;

pub use as_json::verdicts_json;
pub use closing::closing_line;
pub use line::Line;
pub use list::{item_line, list_closing_line};
pub use refusal::{
    filter_error_line, length_line, profile_error_line, read_fault_line, stop_line, usage_line,
};
pub use served::{door_fault_line, served_line, store_fault_line};
pub use summary::{rule_named, summary_line};
pub use verdict::verdict_line;

#[cfg(test)]
mod tests;
