//! Reads the events of an audit log of a Kubernetes API server, and writes the lines of the trace of their requests.
//!
//! - `fault`: why an audit log is refused.
//! - `choice`: which requests are chosen, and what makes a flow.
//! - `times`: the instants, waits and runs that an event says.
//! - `event`: which events are taken, and what is taken of one.
//! - `joining`: what the server's own log says of a request besides.
//! - `line`: what the bytes of a line give.
//! - `estimates`: how long requests run that were turned away.
//! - `arrivals`: the times of arrivals from the first on.
//! - `trace`: the line of a request.
//! - `laws`: what holds of every log and trace.
#![tactic(auto)]

mod arrivals;
mod choice;
mod estimates;
mod event;
mod fault;
mod joining;
mod laws;
mod line;
mod times;
mod trace;

pub use arrivals::arrives_at;
pub use choice::{By, Choice};
pub use estimates::Estimates;
pub use event::{Beside, MAX_ID, MAX_NAME, Outcome, Taken};
pub use fault::AuditFault;
pub use laws::{every_estimate_is_in_range, every_trace_fits};
pub use line::{MAX_LINE, is_begun, read_line};
pub use times::read_instant;
pub use trace::write_request;
