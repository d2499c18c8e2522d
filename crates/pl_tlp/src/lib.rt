//! Transaction layer packets: their fields, as lent from the bytes of the packet.
#![tactic(auto)]

mod bits;
mod captured;
mod captured_fields;
mod credit_cost;
mod encode;
mod fitting;
mod groups;
mod header;
mod header_bytes;
mod kind;
mod packet;
mod reading;
mod tlp;

pub use captured::{Captured, Seen};
pub use credit_cost::cost;
pub use encode::encode_into;
pub use fitting::fits;
pub use kind::Kind;
pub use packet::Packet;
pub use pl_base::Class;
pub use reading::{see, view};
pub use tlp::{Cost, Tlp, View};

#[cfg(test)]
mod tests;
