//! By what a level's requests are charged, and what that comes to.

ghost use Rattle.std.specs.Prelude.{◌≡◌, ◌≤◌, IfOk, IfSome, IfNone};
ghost use Rattle.apf_charges.specs.Charging.{opening_charges, cost_for, charges_with, charge_of, named};

use crate::means::Means;
use std::alloc::{AllocError, Global};

/// By what a level's requests are charged.
#[derive(Clone, Copy, Debug, PartialEq, Eq)]
pub enum ChargedBy {
    /// Their seats times what their flows' requests took so far.
    Time,
    /// Their seats.
    Seats,
}

impl ChargedBy {
    /// What a word of a command line names: `time` or `seats`.
    pub fn named(word: &str) -> Option<ChargedBy>
        ensures { result ≡ named word.now }
    {
        match word {
            "time" => Some(ChargedBy::Time),
            "seats" => Some(ChargedBy::Seats),
            _ => None,
        }
    }
}

/// What a level's requests are charged, with what it takes to know that.
#[derive(Drop)]
pub enum Charges {
    /// Their seats times what their flows' requests took so far.
    Time(Means<Global>),
    /// Their seats.
    Seats,
}

impl Charges {
    /// Nothing ran. All memory is taken here.
    ///
    /// # Errors
    ///
    /// `AllocError` if memory was refused.
    pub fn new(alloc: Global, by: ChargedBy) -> Result<Charges, AllocError>
        ensures { IfOk result (λ c. c ≡ opening_charges by) }
    {
        match by {
            ChargedBy::Time => Ok(Charges::Time(Means::new(alloc)?)),
            ChargedBy::Seats => Ok(Charges::Seats),
        }
    }

    /// The cost of a request of this flow and width, which its dispatch is charged: the one that it was given, or what it is expected
    /// to take in microseconds of a seat, or by seats its width.
    pub fn cost_of(&self, flow: u64, width: u32, given: Option<u32>) -> u32
        requires some { 1 ≤ width }
        requires given { IfSome given (λ cost. 1 ≤ cost) }
        ensures cost { result ≡ cost_for self.now flow width given }
        ensures some { 1 ≤ result }
    {
        match given {
            Some(cost) => cost,
            None => match self {
                Charges::Time(means) => means.cost_of(flow, width),
                Charges::Seats => width,
            },
        }
    }

    /// A request of the flow ran this many microseconds.
    pub fn learn(&mut self, flow: u64, micros: u64)
        ensures { self.new ≡ charges_with self.old flow micros }
    {
        match self {
            Charges::Time(means) => means.learn(flow, micros),
            Charges::Seats => {}
        }
    }

    /// What a queue is said to have been charged for a request of this width and cost: the cost, or by seats the width.
    pub fn charge_of(&self, width: u32, cost: u32) -> u32
        ensures { result ≡ charge_of self.now width cost }
    {
        match self {
            Charges::Time(_) => cost,
            Charges::Seats => width,
        }
    }
}
