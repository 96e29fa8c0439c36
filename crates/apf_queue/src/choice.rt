//! What is dispatched next.

ghost use Rattle.std.specs.Prelude.{ℕ, ◌<◌, ◌≤◌};
ghost use Rattle.apf_model.specs.Fair.{steps_round};
ghost use Rattle.apf_least.specs.Least.{IsReachedBy};

/// What is dispatched next.
#[derive(Clone, Copy, Debug, PartialEq, Eq)]
pub struct Chosen {
    /// The queue that is dispatched from.
    pub queue: u32,
    /// Its first request.
    pub request: u32,
    /// What its dispatch is charged.
    pub cost: u32,
}

// The queue after the robin, from which the count goes round.
pub fn queue_after(queues: u32, robin: u32) -> u32
    requires is_queue { robin < queues }
    requires few { queues ≤ 1024 }
    ensures is_queue { result < queues }
    ensures round { (q p : ℕ) → q < queues → p < queues → IsReachedBy result q p → steps_round queues robin q ≤ steps_round queues robin p }
{
    let after = robin + 1;
    if after < queues { after } else { 0 }
}
