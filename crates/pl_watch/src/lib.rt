//! A keeper whose store is watched: no call reaches a store that is lost.
#![tactic(auto)]

mod file;
mod keeper;
mod watch;

pub use file::FileWatch;
pub use keeper::WatchedKeeper;
pub use watch::Watch;

#[cfg(test)]
mod tests;
