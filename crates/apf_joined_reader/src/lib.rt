//! Reads an audit log and the server's own log beside it: each request with what its line says of it.
//!
//! - `fault`: why no request is handed out.
//! - `counts`: how many requests have a line, and for how many it names the same schema.
//! - `joining`: one request and its line.
//! - `reader`: the reader of both.
#![tactic(auto)]

mod counts;
mod fault;
mod joining;
mod reader;

pub use counts::{Counts, Differs};
pub use fault::JoinFault;
pub use reader::JoinedReader;
