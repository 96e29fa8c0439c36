//! Histories of the queues: what may follow, what every legal history keeps, and every fair one.
//!
//! The definitions stand in `specs/` and are the product's public meaning: histories (`History`) and
//! their order (`Order`), the choice of a queue and virtual time (`Fair`), and what is reported
//! (`Outcome`).
//! In the order of the data's way:
//!
//! - `events`: the events of a history, and what they make of a request.
//! - `histories`: every legal history is in order, and every fair one balanced.
#![tactic(auto)]

mod events;
mod histories;

pub use events::{Charge, Event, LogEntry, Status};
pub use histories::{
    every_charge_is_of_one_that_executes, every_fair_history_is_balanced,
    every_fair_history_isolates, every_fair_history_stands, every_legal_history_is_in_order,
    every_settled_log_balances, every_settled_log_isolates, every_settled_log_stands,
    every_settled_wait_is_bounded, every_unsettled_log_is_fair, every_wait_is_bounded,
};
