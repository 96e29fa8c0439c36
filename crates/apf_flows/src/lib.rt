//! The flows of a trace, and what is written of them.
//!
//! - `flows`: which requests are of one flow.
//! - `json`: a text as JSON has it.
//! - `names`: the names of a flow, and its hash.
//! - `requests`: the requests file of a trace.
#![tactic(auto)]

mod flows;
mod json;
mod names;
mod requests;

pub use flows::{Flows, flows_of};
pub use json::{write_escaped, write_text};
pub use names::{write_hash, write_names, write_of_names};
pub use requests::write_requests;
