//! A priority level as one plain value, for one thread: its gate, its queues and all of its tokens. No call waits, and none
//! takes a lock. Several levels stand in one `Vec`.
//!
//! - `level`: the level, by its slots.
//! - `answer`: what a request asks for, what the calls of the level answer, and what a settlement changed. `fault`: why it is not opened.
//! - `batch`: a level all of whose requests are known beforehand.
//! - `admitting`: the arrival of a request. `reading`: what one that waits reads.
//! - `owner`: a gate, its book and all of its tokens in one hand, so that no exchange is ever lost.
//! - `laws`: what is true of every call.
#![tactic(auto)]

mod admitting;
mod answer;
mod batch;
mod fault;
mod laws;
mod level;
mod owner;
mod reading;

pub use answer::{Answer, Ask, Place, Settlement};
pub use apf_book::{Charge, Settling};
pub use fault::OpenFault;
pub use laws::every_call_keeps_seats;
pub use level::LocalLevel;
