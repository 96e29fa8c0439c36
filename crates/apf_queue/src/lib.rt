//! The queues of a priority level, and which of them is dispatched from next.
//!
//! Contracts see the queues as lists of requests, with the numbers of virtual time (`specs/View`).
//! In the order of the data's way:
//!
//! - `fault`: what is refused.
//! - `nodes`: rings of nodes that are linked both ways, in one slice.
//! - `rings`: one ring for each queue, in which a request can be taken out of any place.
//! - `virtual_time`: what a request that enters or is dispatched does to the numbers.
//! - `choice`: the head that is dispatched from next.
//! - `queues`: the queues themselves.
#![tactic(auto)]

mod choice;
mod fault;
mod nodes;
mod queues;
mod rings;
mod virtual_time;

pub use choice::Chosen;
pub use fault::{Full, QueueFault};
pub use queues::Queues;
