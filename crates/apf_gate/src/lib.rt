//! The lock-free words of a level, under one rule.
//!
//! One table has the level word and a decision word for each request. Every thread may step on them, each with
//! a token of its own: a Pass for each request, one Desk, and Stations. In the order of the data's way:
//!
//! - `record`: what a token knows, changed by its own steps alone. It stands in contracts.
//! - `rule`: the table, and what holds of it between any two steps.
//! - `plays`: what each kind of step tells.
//! - `gate`: the words, as the calls share them.
//! - `open`: how a gate begins, `fault` why it may not.
//! - `ticket`: what names a request for ever, `counts` how many were decided so.
//! - `pass`, `desk`, `station`: the tokens and their calls, `joined` those of a Pass with the Desk, `joined_station`
//!   that of a Station with the Desk, `answers` what they answer.
//! - `sleep`: sleeping until a request is decided.
//! - `end`: how a gate ends, and what its words said; `life_end`: how one ends whose slots were used again.
//! - `here`: what all tokens know together, while the gate goes on.
//! - `laws`: what follows for the tokens that were handed in, and while requests wait.
#![tactic(auto)]

mod answers;
mod counts;
mod desk;
mod end;
mod fault;
mod gate;
mod here;
mod joined;
mod joined_station;
mod laws;
mod life_end;
mod open;
mod pass;
mod plays;
mod record;
mod rule;
mod sleep;
mod station;
mod ticket;

pub use answers::{Cancel, Close, Read, Renew, TryEnter, TryGrant, TrySetLimit, TryTake};
pub use counts::Counts;
pub use desk::Desk;
pub use end::Words;
pub use fault::GateFault;
pub use gate::Gate;
pub use laws::{
    all_are_told_the_same, every_end_agrees, every_end_for_life_agrees, every_state_is_explained,
    no_dispatch_is_lost, no_exchange_is_lost, no_step_is_hidden, nobody_came_between,
};
pub use life_end::LifeWords;
pub use open::Opened;
pub use pass::Pass;
pub use station::Station;
pub use ticket::Ticket;
