//! What is kept beside a level: its numbers, what each queue was given, how much of its log was read, and what its requests are
//! charged.

use crate::tally::Tally;
use apf_charges::Charges;
use apf_protocol::Given;

/// What a request asked.
#[derive(Clone, Copy, Debug, PartialEq, Eq)]
pub struct Asked {
    /// The hash of its flow.
    pub flow: u64,
    /// Its cost, which its dispatch is charged.
    pub cost: u32,
}

/// What is kept beside a level.
#[derive(Drop)]
pub struct ServiceState {
    /// The numbers.
    pub tally: Tally,
    /// What each queue was given, in the order of their numbers.
    pub queues: Vec<Given>,
    /// The place up to which the events of the queues were read, of all that there ever were.
    pub seen: u64,
    /// What requests are charged.
    pub charges: Charges,
    /// What the newest request of each slot asked.
    pub asked: Vec<Asked>,
}
