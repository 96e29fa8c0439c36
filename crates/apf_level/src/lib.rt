//! A priority level: its gate, and what stands under its lock.
//!
//! In the order of the data's way:
//!
//! - `naming`: which level a type is of.
//! - `tokens`: a request at a level, by what became of it so far. `answers`: what calls answer.
//! - `queued`: what stands under the lock of a level with queues. `unqueued`: of one without. `shared`: the lock of either.
//! - `owing`: what is owed once room was made, or a request was cancelled.
//! - `level`: the level, and how it begins.
//! - `admission`: how a request takes its seats outside the lock, by `attempts` of `apf_line`, and how it gives them back.
//!   `arriving`: the steps that may take the lock.
//! - `stations`: the calls of a Station. `locked`: those that take the lock.
//! - `hearing`, `finish`, `report`, `end`: how a level ends, and what it tells then.
//! - `laws`: what is true of every report.
//! - `life`: a level for a server's whole life, whose slots are used again.
#![tactic(auto)]

mod admission;
mod answers;
mod arriving;
mod end;
mod finish;
mod hearing;
mod laws;
mod level;
pub mod life;
mod locked;
mod naming;
mod owing;
mod queued;
mod report;
mod shared;
mod stations;
mod tokens;
mod unqueued;

pub use answers::{Admit, Begin, Begun, Poll, Tried, TryAdmit};
pub use apf_stats::{Board, StatsPass, Window, open as open_statistics};
pub use laws::{every_report_keeps_the_promises, every_reported_wait_is_bounded};
pub use level::{Ends, Level, LevelFault, Opened};
pub use locked::Locked;
pub use naming::Naming;
pub use owing::{Owed, OwedStrike, Owes, Owing};
pub use report::{Counts, Report};
pub use tokens::{Done, Running, Waiting};
