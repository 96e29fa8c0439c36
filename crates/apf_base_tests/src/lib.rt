//! The tests of the crates at the bottom, by their public calls alone: `apf_words`, `apf_flow`,
//! `apf_short`, `apf_times`, `apf_lending`, and the definitions of `apf_history` and `apf_model`, as `apf_plain` computes them.
//!
//! They stand in a crate of their own, as a crate with tests is proved twice.
//!
//! - `words`: level words, decisions, marks and the limits. `flow`: flow hashes and hands.
//! - `short`: which request of memory is refused.
//! - `histories`: worked histories. `judges`: which histories are legal, fair and agree.
//! - `worlds`: the worlds of a level after worked steps.
//! - `times`: percentiles, waits and windows. `lending`: seats that are divided.
//! - `asserts`: assertions as calls.
#![tactic(auto)]

#[cfg(test)]
mod asserts;
#[cfg(test)]
mod flow;
#[cfg(test)]
mod histories;
#[cfg(test)]
mod judges;
#[cfg(test)]
mod lending;
#[cfg(test)]
mod short;
#[cfg(test)]
mod times;
#[cfg(test)]
mod words;
#[cfg(test)]
mod worlds;
