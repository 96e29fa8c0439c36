//! The hands of the flows of a trace of any length, and who shares their queues.
//!
//! - `firsts`: the first request of each flow, while the trace is read in pieces.
//! - `dealt`: the flows with their hands of queues.
//! - `holders`: which flows hold each queue.
//! - `sharers`: the flows that share a queue with one flow, in order.
//! - `sharing`: who shares the queues of one flow's hand, each by name.
//! - `alike`: which flows have the same queues in their hands.
//! - `brief`: how many share the queues of a hand, and some of those that cover it.
//! - `hands`: what is written of all hands, and of one flow's.
//! - `trace`: what is written of the flows of a trace.
#![tactic(auto)]

mod alike;
mod brief;
mod dealt;
mod firsts;
mod hands;
mod holders;
mod sharers;
mod sharing;
mod trace;

pub use firsts::{Firsts, read_firsts};
pub use hands::{HandsFault, has_flow, write_hands, write_hands_of};
pub use trace::{FlowsFault, write_flows};
