//! One level behind a pipe: takes a line of its protocol, carries it out, and writes the answer.
//!
//! - `tally`: the numbers of a level. `queues`: what each queue was given. `state`: both, kept beside a level.
//! - `acting`: what the commands that change something do, and how that is counted.
//! - `following`: what follows of the events of the queues.
//! - `replies`: what a command is answered. `moves`: the lines of those who left a queue.
//! - `metrics`: the numbers for Prometheus.
//! - `service`: a level with its slots, which takes one line after another.
//! - `laws`: what the definitions say of widths, of how many ever arrived, and of what is written.
//! - `serving`: reads lines to the end of the input, and answers them.
#![tactic(auto)]

mod acting;
mod following;
mod laws;
mod metrics;
mod moves;
mod queues;
mod replies;
mod service;
mod serving;
mod state;
mod tally;

pub use laws::{every_request_is_counted, every_text_is_written, every_width_is_kept};
pub use service::Service;
pub use serving::{ServeFault, serve};
pub use tally::Tally;
