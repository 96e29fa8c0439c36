//! The tests of the Book over a gate, by the public calls of both alone.
//!
//! They stand in a crate of their own, as a crate with tests is proved twice. What they share:
//!
//! - `marks`: the gate that the parts of a level are of, in their types.
//! - `requests`: a Pass with how far its request is. `stations`: the calls of a Station that name a request.
//! - `opening`: opens the gate and the book of a level.
//! - `level`: a level that is driven by commands, in one thread.
//! - `scripts`: a script with the answers and events that it is to have.
//! - `judging`: the plain program judges a level that ended.
//! - `shared`: a book under a lock, and what threads do with it.
//! - `asserts`: assertions as calls.
//!
//! In one thread:
//!
//! - `rows`: worked scripts.
//! - `stretches`: the services of two queues in a stretch of a log. `overtaking`: what is granted while a request
//!   waits.
//! - `memory`: each allocation refused in turn.
//! - `faults`: what the faults print.
//!
//! - `life`: a book for life, over a gate whose slots are used again, in one thread.
//!
//! In threads beside one another, in rounds until each order came:
//!
//! - `serving`: requests are run through a book under a lock, while some are cancelled.
//! - `grants`: requests that wait are dispatched while they are cancelled, and some grants are lost.
#![tactic(auto)]

#[cfg(test)]
mod asserts;
#[cfg(test)]
mod faults;
#[cfg(test)]
mod grants;
#[cfg(test)]
mod judging;
#[cfg(test)]
mod level;
#[cfg(test)]
mod life;
#[cfg(test)]
mod marks;
#[cfg(test)]
mod memory;
#[cfg(test)]
mod opening;
#[cfg(test)]
mod overtaking;
#[cfg(test)]
mod requests;
#[cfg(test)]
mod rows;
#[cfg(test)]
mod scripts;
#[cfg(test)]
mod serving;
#[cfg(test)]
mod shared;
#[cfg(test)]
mod stations;
#[cfg(test)]
mod stretches;
