//! One capture of two that were each taken of one direction.
#![tactic(auto)]

mod end;
mod merging;
mod side;
mod two_files;

pub use two_files::merge;
