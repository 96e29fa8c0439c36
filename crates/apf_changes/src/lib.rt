//! What is changed of a cluster, to see what it would do then: the changes of a text, and the cluster with them.
//!
//! - `change`: what a change asks for.
//! - `fault`: why a change is refused.
//! - `texts`: a text without its beginning or its end, and around the last of a character.
//! - `amount`: the numbers of a text, and what they are where another number stands.
//! - `reading`: the change that a text asks for.
//! - `scenario`: a cluster, the seats of its server, and how often each request comes.
//! - `order`: the order of schemas.
//! - `level`: the settings of a level with a change.
//! - `levels`: the levels with a change.
//! - `schemas`: the schemas with a change.
//! - `numbers`: the other numbers with a change.
//! - `applying`: a scenario with changes.
//! - `laws`: what holds of every text, and of every change.
#![tactic(auto)]

mod amount;
mod applying;
mod change;
mod fault;
mod laws;
mod level;
mod levels;
mod numbers;
mod order;
mod reading;
mod scenario;
mod schemas;
mod texts;

pub use applying::{Refused, apply, apply_all};
pub use change::{Amount, Change, LevelChange, LevelNumber, Response, SchemaChange};
pub use fault::{Bounds, ChangeFault, Wanted};
pub use laws::{
    every_change_keeps_the_order, every_change_keeps_the_ranges, every_key_is_read,
    every_text_has_its_sides,
};
pub use numbers::{last_of, nominal_seats, rate_of};
pub use reading::read_change;
pub use scenario::{Assigned, MAX_RATE, Scenario};
