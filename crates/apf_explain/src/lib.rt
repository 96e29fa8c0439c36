//! Says the first fault of a level's files, of a trace or of an audit log to a person: one line with the file, the place, the key, the value and
//! what has to stand there.
//!
//! - `fault`: why a line is not written.
//! - `place`: where a fault is, which a line begins with.
//! - `found`: what stands in a file, as a person reads it.
//! - `wanted`: what has to stand there.
//! - `keys`: the keys of an object, and the first one that is unknown.
//! - `json`: what the files that are JSON share.
//! - `config`: the line of a config file.
//! - `dealer`: the line of a config whose hands can't be dealt.
//! - `flow`: what is wrong with the flow of a request.
//! - `members`: the line of one request.
//! - `requests`: the line of a requests file.
//! - `objects`: the line of a cluster's objects that are no JSON, or are another file.
//! - `script`: the line of a script file.
//! - `likeness`: which file the bytes are that stand in the place of another one.
//! - `reason`: why bytes are no JSON.
//! - `lines`: the lines of a file that has a JSON value on each.
//! - `traces`: the line of a trace's fault.
//! - `audits`: the line of an audit log's fault.
//! - `laws`: what the readers' faults say of the values that the lines name.
//!
//! `Place`, `Keys`, `Wanted`, `is_arrival_key`, `line_reason`, `value_at` and the `write_` functions are shared with the protocol of a live
//! level, whose faults are said in the same words.
#![tactic(auto)]

mod audits;
mod config;
mod dealer;
mod fault;
mod flow;
mod found;
mod json;
mod keys;
mod laws;
mod likeness;
mod lines;
mod members;
mod objects;
mod place;
mod reason;
mod requests;
mod script;
mod traces;
mod wanted;

pub use audits::explain_audit_line;
pub use config::explain_config;
pub use dealer::explain_dealer;
pub use fault::ExplainFault;
pub use flow::write_bad_flow;
pub use json::{value_at, write_unwanted};
pub use keys::{Keys, is_arrival_key, write_unknown_key};
pub use laws::{
    every_audit_fault_is_shown, every_config_fault_is_shown, every_flow_fault_is_told,
    every_request_fault_is_shown, every_script_fault_is_shown, every_trace_fault_is_shown,
    every_unknown_key_is_named,
};
pub use likeness::begins_as_trace;
pub use lines::write_column;
pub use objects::{explain_objects, explain_other};
pub use place::{Part, Place};
pub use reason::line_reason;
pub use requests::explain_requests;
pub use script::explain_script;
pub use traces::{explain_trace, explain_trace_line};
pub use wanted::Wanted;
