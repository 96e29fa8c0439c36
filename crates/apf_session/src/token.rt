//! What a request holds, by what became of it so far, as contracts see it.

use apf_gate::Pass;
use apf_level::{Done, Running, Waiting};

/// What a request holds.
pub enum Token {
    /// It did not arrive.
    Fresh(Pass),
    /// It entered a queue.
    Waiting(Waiting),
    /// It executes.
    Running(Running),
    /// It is decided, and holds no seats.
    Done(Done),
    /// Nothing, where there is no request.
    Gone,
}
