//! Reads a trace: requests with the times of their arrivals and runs, one JSON object a line.
//!
//! - `fault`: why a trace is refused.
//! - `request`: what one line asks for.
//! - `newest`: the hashes of the newest flows.
//! - `value`: the request that a JSON value is.
//! - `flat`: the JSON value that the bytes of a line are.
//! - `object`: what reads one object after another.
//! - `line`: the request that the bytes of a line are.
//! - `trace`: the requests of a whole trace.
#![tactic(auto)]

mod fault;
mod flat;
mod line;
mod newest;
mod object;
mod request;
mod trace;
mod value;

pub use fault::TraceFault;
pub use line::{LineReader, MAX_BYTES, MAX_LINES};
pub use object::ObjectReader;
pub use request::{FlowNames, TraceRequest};
pub use trace::{First, first_line, read_trace};
pub use value::is_trace_key;
