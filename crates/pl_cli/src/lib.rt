//! The commands of the program, from the words of the command line to the exit status.
#![tactic(auto)]

mod capture;
mod closing;
mod command_line;
mod commands;
mod generated;
mod held;
mod item;
mod judging;
mod numbers;
mod profile;
mod serving;
pub mod status;
mod view;
mod with_engine;

pub use command_line::run;
pub use commands::{check, list, report};
pub use generated::trial;
pub use serving::serve;
pub use with_engine::{check_with, list_with, report_with};
