//! The formation rules: is one TLP well built for this port?
//! PCI Express Base Specification 5.0, chapter 2, transaction layer protocol: packet definition.
#![tactic(auto)]

mod atomics;
mod configuration;
mod digest;
mod formation;
mod laws;
mod memory;
mod messages;
mod prefixes;
mod table;
mod traffic;

pub use formation::{MOST_OF_A_TLP, judge, judge_into, judge_seen_into, judge_whole_into};
pub use laws::seen_has_header;

#[cfg(test)]
mod tests;
