//! The archive's rows, over each keeper. They stand apart from pl_keeper, since the proof of a
//! crate's tests proves the whole crate once more.
#![tactic(auto)]

#[cfg(test)]
mod rows;
