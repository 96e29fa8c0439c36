//! The texts of what a level did: the lines of a transcript, and the four lines of a book.
//!
//! - `line`: a line of a transcript, and how a decision is written.
//! - `totals`: the lines of a book.
#![tactic(auto)]

mod line;
mod totals;

pub use line::{Line, decision_name, write_line, write_lines};
pub use totals::Totals;
