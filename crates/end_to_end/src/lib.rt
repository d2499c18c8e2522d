//! Captures through the whole program, over files and output in memory.
#![tactic(auto)]

#[cfg(test)]
mod capture;
#[cfg(test)]
mod completions;
#[cfg(test)]
mod counting;
#[cfg(test)]
mod credits;
#[cfg(test)]
mod cuts;
#[cfg(test)]
mod desk;
#[cfg(test)]
mod faults;
#[cfg(test)]
mod formation;
#[cfg(test)]
mod gaps;
#[cfg(test)]
mod link;
#[cfg(test)]
mod notation;
#[cfg(test)]
mod order;
#[cfg(test)]
mod profile;
#[cfg(test)]
mod sequence;
#[cfg(test)]
mod trial;
#[cfg(test)]
mod views;
