//! What a request is charged where a level is charged by time: its width times what its flow's requests took so far.
//!
//! - `mean`: the mean of how long requests ran.
//! - `known`: the flows of one set, each with its mean.
//! - `means`: the means of many flows, in a table of fixed size, and what a flow's next request is expected to take.
//! - `charges`: by what a level's requests are charged, and what that comes to.
#![tactic(auto)]

mod charges;
mod known;
mod mean;
mod means;

pub use charges::{ChargedBy, Charges};
pub use mean::Mean;
pub use means::Means;
