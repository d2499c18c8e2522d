//! Filters over packets. They stand apart from pl_filter, since the proof of a crate's tests proves
//! the whole crate once more.
#![tactic(auto)]

#[cfg(test)]
mod rows;
