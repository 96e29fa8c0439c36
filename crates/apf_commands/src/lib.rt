//! What a command line of the program `apf` asks for, read by `clap`.
//!
//! - `entries`: what a command is: its name, its texts of help and the kind of its arguments.
//! - `level_commands`, `trace_commands`: the commands.
//! - `commands`: the program's command line, by the kinds of arguments.
//! - `level_name`: the name of a level that is served.
//! - `patience`: how long a request waits before it gives up.
//! - `words`: the command that a command line names, with its texts and numbers.
//!
//! A new command whose arguments are of a kind that is there needs an entry, a line in `specs/Commands`, and in `apf_cli` what
//! the program does with it.
#![tactic(auto)]

mod commands;
mod entries;
mod level_commands;
mod level_name;
mod patience;
mod trace_commands;
mod words;

pub use patience::{read_patience, read_time};
pub use words::{Action, Arguments, Asked, Chosen, read_words};
