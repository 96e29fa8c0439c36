//! From a request's flow to its hand of queues: the flow hash and the shuffle-sharding dealer.
//!
//! The modules, in the order of the data's way:
//!
//! - `hash`: the names of a flow become a number, [`flow_hash`];
//! - `fault`: why a dealer's sizes are refused, [`DealerFault`];
//! - `dealer`: a [`Dealer`] deals a hand of distinct queues by that number.
//!
//! Nothing here allocates, blocks or panics, and no number wraps.
#![tactic(auto)]

mod dealer;
mod fault;
mod hash;

pub use dealer::Dealer;
pub use fault::DealerFault;
pub use hash::flow_hash;
