//! Bytes that are gathered, so that many of them are written at once: the lines of a command, and
//! the records of a capture.
#![tactic(auto)]

mod page;

pub use page::{Page, ROOM};
