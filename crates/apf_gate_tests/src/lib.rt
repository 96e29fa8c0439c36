//! The tests of `apf_gate`, by its public calls alone.
//!
//! They stand in a crate of their own, as a crate with tests is proved twice. What they share:
//!
//! - `stage`: how far a token is. It is no test itself, as `specs/` name it.
//! - `requests`, `desks`, `stations`: the calls of each kind of token, with no more in their contracts than tests need.
//! - `stand`: a gate with all its tokens. `endings`: what its words say at its end.
//! - `crews`: the threads, each with tokens of its own. `asserts`: assertions as calls.
//!
//! In one thread:
//!
//! - `rows`: worked examples, from a gate's opening to its end, `cancels` those of cancelled requests.
//! - `levels`: over-wide requests, levels without queues, limits. `refusals`: closing and refusing.
//! - `renewals`: slots that are used again, `lives` by four threads a million times.
//! - `faults`: why a gate is not opened. `sizes`: the smallest gate and the largest.
//! - `memory`: each allocation refused in turn.
//! - `parking`: nobody sleeps on a request that is decided.
//! - `owner`: the calls of one owner of all tokens.
//!
//! In threads beside one another, whose steps come in any order. Such a test says which orders it is for,
//! makes rounds until each of them came, and fails if one never does:
//!
//! - `serving`: requests that take seats while limits change.
//! - `cancelling`: eight that cancel a request which waits, or which the Desk grants.
//! - `closing`: eight that close a level.
//! - `sleeping`: those who sleep until a request is decided.
#![tactic(auto)]

#[cfg(test)]
mod asserts;
#[cfg(test)]
mod cancelling;
#[cfg(test)]
mod cancels;
#[cfg(test)]
mod closing;
#[cfg(test)]
mod crews;
#[cfg(test)]
mod desks;
#[cfg(test)]
mod endings;
#[cfg(test)]
mod faults;
#[cfg(test)]
mod levels;
#[cfg(test)]
mod lives;
#[cfg(test)]
mod memory;
#[cfg(test)]
mod owner;
#[cfg(test)]
mod parking;
#[cfg(test)]
mod refusals;
#[cfg(test)]
mod renewals;
#[cfg(test)]
mod requests;
#[cfg(test)]
mod rows;
#[cfg(test)]
mod serving;
#[cfg(test)]
mod sizes;
#[cfg(test)]
mod sleeping;
mod stage;
#[cfg(test)]
mod stand;
#[cfg(test)]
mod stations;

pub use stage::{Serving, Stage};
