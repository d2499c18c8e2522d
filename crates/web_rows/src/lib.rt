//! The archive's requests, over rows in memory. They stand apart from pl_web, since the proof of a
//! crate's tests proves the whole crate once more.
#![tactic(auto)]

#[cfg(test)]
mod asking;
#[cfg(test)]
mod bodies;
#[cfg(test)]
mod paths;
#[cfg(test)]
mod pieces;
#[cfg(test)]
mod refusals;
#[cfg(test)]
mod requests;
#[cfg(test)]
mod serving;
