//! Reads a trace of any length in pieces, and hands out its requests in the order of their arrivals.
//!
//! - `fault`: why no request is handed out.
//! - `stage`: what a reader does next.
//! - `reader`: the reader. Lines may come late by as many places as it has for requests.
//! - `laws`: what is true of whatever was read.
#![tactic(auto)]

mod fault;
mod laws;
mod reader;
mod stage;

pub use fault::ReadFault;
pub use laws::{every_reading_is_in_order, every_short_trace_is_read_alike};
pub use reader::{MOST_LINES, TraceReader, WINDOW};
pub use stage::Stage;
