//! The tests of `apf_queue`, by its public calls alone: worked rows, and random calls against plain lists
//! and the plain program.
//!
//! They stand in a crate of their own, as a crate with tests is proved twice.
//!
//! - `rows`: worked rows of calls, and shapes. `numbers`: worked rows of virtual time.
//! - `memory`: each allocation refused in turn.
//! - `again`: requests that are pushed again a million times.
//! - `random`: many random calls on eight queues, whose answers are those of plain lists.
//! - `agreement`: many more for several numbers of queues, also compared with what `apf_plain`
//!   computes of the history so far.
//! - `levels`: queues beside plain lists, with their history. `slow`: the plain lists.
//! - `draws`: random numbers. `asserts`: assertions as calls.
#![tactic(auto)]

#[cfg(test)]
mod again;
#[cfg(test)]
mod agreement;
#[cfg(test)]
mod asserts;
#[cfg(test)]
mod draws;
#[cfg(test)]
mod levels;
#[cfg(test)]
mod memory;
#[cfg(test)]
mod numbers;
#[cfg(test)]
mod random;
#[cfg(test)]
mod rows;
#[cfg(test)]
mod slow;
