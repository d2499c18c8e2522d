//! Captures for tests, written item by item as an engineer notes them: direction, packet, fields.
//!
//! CRCs are right unless a row says otherwise, an item's time is its number, and the end record
//! counts right.
#![tactic(auto)]

mod bring_up;
mod captures;
mod dllp_row;
mod notation;
mod outcome;
mod rows;
mod tlp_row;

pub use captures::{EMPTY, damaged_ack};
pub use notation::Notation;
pub use outcome::Outcome;
pub use rows::RowError;
