//! Cuts what is read into lines.
//!
//! - `lines`: the bytes that were read and are not yet cut off, of which the next line is cut.
#![tactic(auto)]

mod lines;

pub use lines::{Cut, Lines};
