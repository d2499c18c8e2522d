//! Captures that two numbers make, byte by byte while they are read: large valid link traffic to
//! try and time the analyser with, which takes no memory and no file.
#![tactic(auto)]

mod draw;
mod items;
mod laws;
mod maker;
mod making;
mod name;
mod packets;
mod position;
mod record;

pub use laws::read_as_items;
pub use maker::Maker;

#[cfg(test)]
mod tests;
