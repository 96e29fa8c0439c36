//! Reads the files of a priority level: a config, requests and a script.
//!
//! - `json`: what the files that are JSON share.
//! - `config`: the config file.
//! - `requests`: the requests file.
//! - `script`: the script file.
//!
//! `read_config` and `read_requests` are two steps each: `parse`, and `judge_config` or `judge_requests`. Who says a fault to a
//! person takes the steps, and keeps what was parsed; and he takes `judge_script`, whose fault has what stands there.
//!
//! `value_of`, `text_at`, `flow_of`, `number_or` and `line_end` are shared with the readers of traces and audit logs;
//! `is_config_key`, `is_request_key` and the largest numbers with what says a fault to a person.
#![tactic(auto)]

mod config;
mod json;
mod laws;
mod requests;
mod script;

pub use apf_model::{Config, Response};
pub use config::{ConfigFault, ConfigKey, MAX_HAND_SIZE, is_config_key, judge_config, read_config};
pub use json::{Parsed, parse, text_at, value_of};
pub use laws::{every_item_is_counted, every_key_is_a_member, every_text_is_what_was_read};
pub use requests::{
    MAX_WORK, Request, RequestFault, flow_of, is_request_key, judge_requests, number_or,
    read_requests,
};
pub use script::{
    Command, InScript, MAX_LINES, RefusedScript, ScriptFault, judge_script, line_end, read_script,
};
