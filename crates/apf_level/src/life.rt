//! A priority level for a server's whole life: its slots are used again, without end.
//!
//! In the order of the data's way:
//!
//! - `naming`: which level a type is of.
//! - `tokens`: a slot, by what became of its request so far. `answers`: what calls answer.
//! - `owing`: what is owed once room was made, or a request was cancelled.
//! - `queued`: what stands under the lock of a level with queues. `unqueued`: of one without. `shared`: the lock of either.
//! - `level`: the level, and how it begins.
//! - `renewing`: a slot goes on to its next request.
//! - `admission`: the steps of a request outside the lock, by `attempts` of `apf_line`. `arriving`: those that may take it.
//! - `stations`: the calls of a Station. `locked`: those that take the lock.
//! - `end`: how a level ends. What it tells then, and what is true of every history of a level, is `apf_line`'s.

mod admission;
mod answers;
mod arriving;
mod end;
mod level;
mod locked;
mod naming;
mod owing;
mod queued;
mod renewing;
mod shared;
mod stations;
mod tokens;
mod unqueued;

pub use answers::{Admit, Begin, Begun, Poll, Renewed, Tried, TryAdmit};
pub use apf_line::{
    Newest, Report, every_life_history_isolates, every_life_wait_is_bounded, every_queue_was_dealt,
    no_life_request_is_forgotten,
};
pub use level::{Level, LevelFault, Opened};
pub use locked::Locked;
pub use naming::Naming;
pub use owing::{Owed, OwedStrike, Owes};
pub use tokens::{Done, Executing, Pass, Running, Waiting};
