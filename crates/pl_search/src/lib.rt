//! Where a rule is broken in the captures of a bench.
#![tactic(auto)]

mod by_rule;
mod error;
mod found;
mod hit;
mod judging;

pub use by_rule::search;
pub use error::SearchError;
pub use found::{MOST_FOUND, Search};
pub use hit::{Hit, Hits, Key};

#[cfg(test)]
mod tests;
