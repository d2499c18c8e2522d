//! Requests and replies as they are worked out by hand.

mod forms;
mod fronts;
mod replies;
