//! What is asked of the archive over HTTP, and what it answers.
#![tactic(auto)]

mod answer;
pub mod bodies;
mod body;
mod ended;
mod gets;
mod hits;
mod judging;
pub mod laws;
mod link;
mod names;
mod puts;
mod refusal;
mod replies;
mod reply;
mod request;
mod routes;
mod serve;

pub use link::serve_link;
pub use names::{is_name, segment};
pub use refusal::{LONGEST_BODY, Refusal};
pub use request::{Request, read_request};
pub use routes::{Kind, Routes};
pub use serve::{Served, serve_one};
