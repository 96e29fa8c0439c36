//! Reads an audit log of any length in pieces, and hands out its chosen requests in the order of their arrivals.
//!
//! - `fault`: why no request is handed out.
//! - `stage`: what a reader does next.
//! - `given`: what a line gives.
//! - `reader`: the reader, which holds this many requests that lines may come late by as many places.
//! - `laws`: what is true of whatever was read.
#![tactic(auto)]

mod fault;
mod given;
mod laws;
mod reader;
mod stage;

pub use fault::ReadFault;
pub use laws::{every_reading_is_in_order, every_short_log_is_read_alike};
pub use reader::{AuditReader, WINDOW};
pub use stage::Stage;
