//! An excerpt of one verdict: a capture that holds the packets which show that a rule is broken,
//! and what of the link tells of them again.
#![tactic(auto)]

mod case;
mod copying;
mod excerpting;
mod finding;
mod lanes;
mod outcome;
mod source;
mod taken;
mod transaction;
mod witnesses;
mod writing;

pub use excerpting::excerpt;
pub use outcome::Outcome;
