//! What a request asks for, and what the calls of a level answer.

ghost use Rattle.std.specs.Prelude.{◌≡◌};
ghost use Rattle.apf_local.specs.Tries.{answer_of_try, place_of_try};

use apf_book::Charge;
use apf_line::attempts::Tried;
use apf_words::Decision;

/// What a request asks for.
#[derive(Clone, Copy, Debug, PartialEq, Eq)]
pub struct Ask {
    /// The seats that the request takes while it executes, 1 to 20,000.
    pub width: u32,
    /// The hash of the request's flow, which its hand of queues is dealt by: any 64 bits.
    pub hash: u64,
    /// What its dispatch is charged, 1 to 4,294,967,295 in a unit of the caller's.
    pub cost: u32,
}

/// What a settlement changed. The unit is that of costs.
#[derive(Clone, Copy, Debug, PartialEq, Eq)]
pub struct Settlement {
    /// The queue, and what it was charged for the request.
    pub charge: Charge,
    /// What it is charged in place of that: what the request took.
    pub took: u64,
}

/// Where a slot's request is.
#[derive(Clone, Copy, Debug, PartialEq, Eq)]
pub enum Place {
    /// The slot is free: its request is over, or none came yet.
    Free,
    /// Its next request is there, and asks for this. It did not arrive yet.
    Fresh(Ask),
    /// It waits in a queue.
    Waits,
    /// It executes.
    Runs,
}

impl Place {
    // Where a request is that tried to take its seats.
    pub(crate) fn of_try(tried: Tried) -> Place
        ensures { result ≡ place_of_try tried }
    {
        match tried {
            Tried::Run => Place::Runs,
            Tried::Over(_decision, _waiting) => Place::Free,
            Tried::Blocked | Tried::Raced => Place::Free,
        }
    }
}

/// What became of a slot's request by a call.
#[derive(Clone, Copy, Debug, PartialEq, Eq)]
pub enum Answer {
    /// It executes.
    Run,
    /// It is decided so, and was not executed.
    Over(Decision),
    /// It could not be admitted now. It did not arrive, and its slot is free.
    Busy,
    /// It waits.
    Waits,
    /// It gave its seats back.
    Released,
    /// The slot's numbers are used up: a slot is given 2^46 times. Nothing was done.
    Spent,
    /// The call is not for a slot whose request is where this one is. Nothing was done.
    Wrong,
}

impl Answer {
    // What is answered of a request that tried to take its seats.
    pub(crate) fn of_try(tried: Tried) -> Answer
        ensures { result ≡ answer_of_try tried }
    {
        match tried {
            Tried::Run => Answer::Run,
            Tried::Over(decision, _waiting) => Answer::Over(decision),
            Tried::Blocked | Tried::Raced => Answer::Busy,
        }
    }
}
