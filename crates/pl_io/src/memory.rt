//! The outside in memory. These objects tell all that they hold, and fail at the calls that they
//! are told.
mod conn;
mod door;
mod file;
pub mod plan;
mod reserved;
mod shelf;
mod sink;

pub use conn::MemConn;
pub use door::MemDoor;
pub use shelf::MemShelf;
pub use sink::MemSink;
