//! The definitions of `apf_model` computed: plainly, slowly, on small inputs.
//!
//! Nothing of a running level uses this. It is here so that worked examples can be run against the
//! definitions themselves: each call's contract says that its answer is the definition's.
//!
//! A history is a slice with the newest event first, as in the definitions, so that `&history[k..]`
//! is the history as it stood before its newest `k` events.
//! In the order of the data's way:
//!
//! - `queues`: which requests wait, and which queue is the shortest.
//! - `legal`: whether a history is legal.
//! - `virtual_time`: the numbers of virtual time. `heads`: the choice of the queue that is dispatched
//!   from next. `fair`: whether a history is fair.
//! - `stretch`: the service of a queue in a stretch of a history.
//! - `stats`: the numbers of a history, and what became of each request.
//! - `agreement`: whether a history agrees with the decisions.
//! - `world`: the world of a level after its steps.
#![tactic(auto)]

mod agreement;
mod fair;
mod heads;
mod legal;
mod queues;
mod stats;
mod stretch;
mod virtual_time;
mod world;

pub use agreement::{agrees, decided, executes_arrivals};
pub use fair::is_fair;
pub use heads::choice;
pub use legal::{is_legal, names_requests};
pub use queues::{shortest, waiting};
pub use stats::{Stats, stats_of, status};
pub use stretch::{is_never_empty, service};
pub use virtual_time::{Numbers, names_queues, numbers_of};
pub use world::{World, are_widths};
