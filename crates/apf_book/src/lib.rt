//! The book of a priority level: what a level is opened with, its queues and its log, and the Desk that
//! steps for them.
//!
//! In the order of the data's way:
//!
//! - `config`: the settings of a level, what a request asks of it, and the costs that it may have.
//! - `fault`: why a book is refused.
//! - `histories`: the laws of histories, for proofs.
//! - `settling`: whether what requests take is settled.
//! - `life`: the queues of slots, and every history that they are of.
//! - `life_event`: their events, `life_stats` how many there were, `recent_events` the newest of them, each in a `row`.
//! - `stats`: the numbers of a log.
//! - `stretch`: the services of two queues in a stretch of a log.
//! - `overtaking`: the wait of a request in a log, and what is granted while it lasts.
//! - `arrived`: what becomes of an arrival.
//! - `handing`: an arrival is handed to the Desk.
//! - `serving`: the Desk serves the head of a queue, `dispatching` what a try to serve all that fit came to.
//! - `life_book`: queues of slots and recent events with the Desk.
//! - `book`: the same of a batch, with its whole log.
//! - `laws`: what is true of every book.
#![tactic(auto)]

mod arrived;
mod book;
mod dispatching;
mod fault;
mod handing;
mod histories;
mod laws;
mod life;
mod life_book;
mod life_event;
mod life_stats;
mod overtaking;
mod recent_events;
mod row;
mod serving;
mod settling;
mod stats;
mod stretch;

pub use apf_history::Charge;
pub use apf_model::{Ask, Config, Response, are_costs};
pub use arrived::Arrived;
pub use book::Book;
pub use dispatching::TryDispatch;
pub use fault::BookFault;
pub use laws::{
    every_book_is_kept, every_dispatched_wait_is_bounded, every_ended_book_agrees,
    no_request_is_forgotten, no_virtual_time_is_large,
};
pub use life_book::LifeBook;
pub use life_event::LifeEvent;
pub use life_stats::LifeStats;
pub use overtaking::{Wait, overtaken};
pub use recent_events::Copied;
pub use settling::Settling;
pub use stats::Stats;
pub use stretch::balance;
