//! Runs a priority level from what its files say: by a script in one thread, or by workers in threads of their own.
//!
//! - `fault`: why a replay or a run came to nothing.
//! - `line`, `totals`, `services`, `waits`, `transcript`: what is told, and how it is written.
//! - `asks`: what a level asks of each request. `record`: what a replay notes. `recorder`: a level in one thread, and
//!   what is noted of it.
//! - `replaying`: replays a script.
//! - `plan`: which level and which requests a run is of. `operator`: a worker's Station, and `worker` a worker with
//!   its share of the requests. `crew`: all workers, dealt out, started and joined. `finished`: what they gave back.
//! - `running`: runs requests by workers. `book`: writes what a run reports.
//! - `rounds`: the same in rounds, on a level whose slots are used again.
#![tactic(auto)]

mod asks;
mod batch;
mod book;
mod crew;
mod fault;
mod finished;
mod operator;
mod plan;
mod record;
mod recorder;
mod replaying;
pub mod rounds;
mod running;
mod services;
mod totals;
mod transcript;
mod waits;
mod worker;

pub use apf_files::{
    Command, Config, ConfigFault, ConfigKey, Request, RequestFault, Response, ScriptFault,
    read_config, read_requests, read_script,
};
pub use apf_gate::GateFault;
pub use apf_level::{LevelFault, Report, Running};
pub use book::write_book;
pub use fault::{ReplayFault, RunFault};
pub use replaying::replay;
pub use running::run;
pub use services::Service;
pub use transcript::{Transcript, WriteFault};
pub use worker::Work;
