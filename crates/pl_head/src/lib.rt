//! HTTP/1.x at the edge of the archive: how a request begins, and the bytes of a reply.
//!
//! A request begins with a whole head, or is refused before anything else is looked at; the fields
//! of a head say how long its body is. Both follow RFC 9112.
#![tactic(auto)]

mod form;
mod front;
pub mod laws;
mod reply;
mod status;

pub use form::{Form, read_form};
pub use front::{FIELD_ROOM, HEAD_LIMIT, HeadRoom, Opening, read_front};
pub use reply::{Media, send_reply};
pub use status::{Method, Status};

#[cfg(test)]
mod tests;
