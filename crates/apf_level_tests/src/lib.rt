//! The tests of a level, by the public calls of `apf_session` and `apf_level` alone.
//!
//! They stand in a crate of their own, as a crate with tests is proved twice. What they share:
//!
//! - `opening`: the settings and the requests of a level.
//! - `scenes`: what is played on a level. `endings`: what it tells at its end.
//! - `scripts`: a script with the answers that it is to have. `debts`: what its steps made owed.
//! - `crowds`: the requests that run at once.
//!
//! In one thread:
//!
//! - `rows`: worked scripts, `strikes` those of cancelled requests, `limits` those of limits, over-wide requests
//!   and levels without queues, `costs` those of levels whose dispatches are charged costs.
//!
//! In many threads:
//!
//! - `taking`: requests take seats outside the lock. `reading`: the statistics are read while requests run.
//! - `closing`, `cancelling`: eight Stations close a level, and cancel a request.
//! - `sleeping`: who sleeps is woken, and two by one dispatch. `admitting`: many sleep and wake each other.
//! - `losing`: who loses its decision to a cancel dispatches.
//!
//! Beside it:
//!
//! - `life`: a level for a server's whole life. `stats`: the statistics, which a level publishes.
//! - `asserts`: assertions as calls.
#![tactic(auto)]

#[cfg(test)]
mod admitting;
#[cfg(test)]
mod asserts;
#[cfg(test)]
mod cancelling;
#[cfg(test)]
mod closing;
#[cfg(test)]
mod costs;
#[cfg(test)]
mod crowds;
#[cfg(test)]
mod debts;
#[cfg(test)]
mod endings;
#[cfg(test)]
mod life;
#[cfg(test)]
mod limits;
#[cfg(test)]
mod losing;
#[cfg(test)]
mod opening;
#[cfg(test)]
mod reading;
#[cfg(test)]
mod rows;
#[cfg(test)]
mod scenes;
#[cfg(test)]
mod scripts;
#[cfg(test)]
mod sleeping;
#[cfg(test)]
mod stats;
#[cfg(test)]
mod strikes;
#[cfg(test)]
mod taking;
