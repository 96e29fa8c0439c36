//! The tests of `apf_run`, by its public calls alone, that no script can make of the built program: of settings, requests and commands which no reader lets
//! through, and of texts that it never prints.
//!
//! They stand in a crate of their own, as a crate with tests is proved twice. The others are in the scripts of `tests/`: `turns.py` has what workers do and when,
//! `workers.py` and `rounds.py` what their books say, `memory.py` runs that are refused memory, and `rooms.py` writers without room.
//!
//! - `refused`: what is out of range. `absent`: numbers of what is not there.
//! - `texts`: what the faults print.
//! - `asserts`: assertions as calls. `fault`: why a test came to nothing.
#![tactic(auto)]

#[cfg(test)]
mod absent;
#[cfg(test)]
mod asserts;
#[cfg(test)]
mod fault;
#[cfg(test)]
mod refused;
#[cfg(test)]
mod texts;
