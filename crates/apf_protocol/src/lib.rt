//! The protocol of a live level: one line in, a command or the first fault; an answer, its line.
//!
//! - `fault`: why a line is no command, and how that is written.
//! - `head`: the words of a line, before its object is read.
//! - `numeral`: the numbers of a line.
//! - `cut`: bytes cut at a blank.
//! - `form`: reads the words of a line.
//! - `arrival`: reads what an arrival's object asks.
//! - `command`: what a line commands.
//! - `answer`: what is answered, and how that is written.
//! - `laws`: what the definitions of the readers say of the lines as they are written.
#![tactic(auto)]

mod answer;
mod arrival;
mod command;
mod cut;
mod fault;
mod form;
mod head;
mod laws;
mod numeral;

pub use answer::{Answer, Arrived, FirstLine, Given, Tried};
pub use arrival::Arrival;
pub use command::{Command, read_command};
pub use fault::{FaultKind, Found, LineFault};
pub use form::{Form, MOST_RAN, read_form};
pub use head::Head;
pub use laws::{
    every_arrival_fault_is_shown, every_form_is_its_line, every_line_of_a_form_is_read,
};
