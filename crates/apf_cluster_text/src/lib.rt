//! What the program prints of a cluster: its levels and schemas, which schema a request is of, and the faults of objects.
//!
//! - `path`: the path of a key, and what may stand there.
//! - `found`: what stands at a place of a text of objects.
//! - `faults`: the line of a fault.
//! - `listing`: the levels and schemas.
//! - `matching`: the schema of a request.
//! - `log_lines`: the lines of an audit log, which is read in pieces.
//! - `events`: the requests of an audit log. `unsaid`: what such a log does not say of them.
//! - `server_lines`: what the server's own log says of them. `server_faults`: the line of a fault of that log. `said`: a text of it.
#![tactic(auto)]

mod events;
mod faults;
mod found;
mod listing;
mod log_lines;
mod matching;
mod path;
mod said;
mod server_faults;
mod server_lines;
mod unsaid;

pub use events::{LogFault, write_log};
pub use faults::write_object_fault;
pub use listing::write_cluster;
pub use log_lines::{Found, LogLines};
pub use matching::write_match;
pub use server_faults::write_server_fault;
pub use server_lines::write_server_object;
pub use unsaid::write_unsaid;
