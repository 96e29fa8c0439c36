//! What a slot holds, by what became of its request so far, as contracts see it.

use apf_level::life::{Done, Running, Waiting};

/// What a slot holds.
pub enum Token {
    /// Its request is over, or none came yet.
    Free(Done),
    /// Its request entered a queue.
    Waiting(Waiting),
    /// Its request executes.
    Running(Running),
    /// Nothing, where there is no slot.
    Gone,
}
