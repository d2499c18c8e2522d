//! The outside as the program sees it: what can be read and written, and how often that failed.
//!
//! Programs are written over the traits. The memory forms tell all that they hold, so that a proof
//! can name it; the adapters stand on files and on standard output, and tell only their counts.
#![tactic(auto)]

mod conn;
mod door;
mod failed;
mod files;
pub mod memory;
mod shelf;
mod sink;
mod standard_output;
mod tcp;
mod timed;

pub use conn::{Conn, send_all};
pub use door::Door;
pub use failed::{Failed, FaultCount};
pub use files::FileShelf;
pub use memory::{MemConn, MemDoor, MemShelf, MemSink};
pub use shelf::Shelf;
pub use sink::{Sink, write_all};
pub use standard_output::StdSink;
pub use tcp::{TcpConn, TcpDoor};
pub use timed::TimedStream;

#[cfg(test)]
mod tests;
