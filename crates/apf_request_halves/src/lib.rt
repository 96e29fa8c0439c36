//! Finds the lines of requests in a kube-apiserver's own log by their ids, and holds those that are not yet asked for.
//!
//! - `fault`: why no line is answered.
//! - `held`: the lines that are held, by their ids.
//! - `judged`: what is made of a line.
//! - `halves`: the lines of a log, of which each is answered to who asks for its id.
#![tactic(auto)]

mod fault;
mod halves;
mod held;
mod judged;

pub use fault::HalvesFault;
pub use halves::{HELD, MAX_LINE, MORE_LINES, REACH, RequestHalves};
