//! Excerpts of captures that are noted by their rows.
#![tactic(auto)]

#[cfg(test)]
mod excerpts;
#[cfg(test)]
mod faults;
#[cfg(test)]
mod table;
