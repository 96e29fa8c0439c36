//! The model of a priority level: what its words, its queues and its log mean.
//!
//! The definitions stand in `specs/` and are the product's public meaning: the world of a level and
//! the steps that change it (`World`), and schedules of steps (`Schedule`). Those of histories stand
//! in `apf_history`, and are passed on under their names here.
//! In the order of the data's way:
//!
//! - `response`: what a level does with an arrival that does not fit. `config`: the settings of a level, what a request
//!   asks of it, and the costs that it may have.
//! - `moves`: the kinds of step, and where a request is on its way.
//! - `laws`: every schedule is safe.
#![tactic(auto)]

mod config;
mod laws;
mod moves;
mod response;

pub use apf_history::{
    Event, Status, every_fair_history_is_balanced, every_fair_history_isolates,
    every_legal_history_is_in_order, every_wait_is_bounded,
};
pub use config::{Ask, Config, are_costs};
pub use laws::{every_schedule_is_safe, every_world_adds_up};
pub use moves::{Move, Stage};
pub use response::Response;
