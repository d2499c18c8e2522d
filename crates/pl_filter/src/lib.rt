//! Filters of the items of a capture: their text, their meaning, and the names of what items carry.
#![tactic(auto)]

mod error;
mod filter;
mod item;
mod meaning;
mod name;
mod parser;
mod printer;
mod token;
mod word;

pub use error::FilterError;
pub use filter::{Filter, Test};
pub use item::name_of;
pub use meaning::holds;
pub use name::Name;
pub use parser::parse;
pub use printer::print;
