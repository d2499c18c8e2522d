//! The archive of a bench: port profiles, and captures under keys, each kept with the profile that
//! it was taken under.
//!
//! `Keeper` is the archive as the program sees it. `SqliteKeeper` keeps it in two tables of a
//! database, in memory or in a file that SQLite reads; `MapKeeper` keeps it in memory and fails at
//! the calls that it is told.
#![tactic(auto)]

mod compare;
mod database;
mod error;
mod keeper;
mod limits;
mod memory;

pub use database::{SqliteKeeper, lives_in_memory, open_in_memory};
pub use error::KeepError;
pub use keeper::{Keeper, KeyRow, Put, Stored};
pub use limits::{LONGEST_BODY, MOST_CAPTURES, MOST_PROFILES};
pub use memory::MapKeeper;
