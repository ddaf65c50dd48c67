//! The command line: which words are which command, with which options, or with which model to generate.
//!
//! The table of commands is one of `clap`, and a line means what `clap` states of that table. Every other list of
//! words, a request for help or for a version, a number out of its range and a family of models that there is not are
//! no command line.
#![tactic(auto)]

pub mod command;
mod options;
pub mod recipe;
mod table;

pub use command::{Command, command_of};
pub use cps_gen::Family;
pub use cps_options::Options;
pub use recipe::Recipe;
