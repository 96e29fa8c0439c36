//! Both sides of the bound, kept while a level goes on.

ghost use Rattle.std.specs.Prelude.{◌≡◌, ℕ, ◌+◌, ◌*◌, ◌<◌, ◌≤◌, ◌∷◌, [], List, IfOk};
ghost use Rattle.apf_words.specs.Limits.{max_queues};
ghost use Rattle.apf_history.specs.declared.events.Event.TheVariants.{Enter, Full, Dispatch, Strike};
ghost use Rattle.apf_history.specs.declared.events.LogEntry.{LogEntry};
ghost use Rattle.apf_history.specs.declared.events.LogEntry.TheVariants.{Happens, Spends, Settles};
ghost use Rattle.apf_history.specs.Numbered.{width};
ghost use Rattle.apf_history.specs.Charged.{IsSettled, AreMeasures};
ghost use Rattle.apf_bound.specs.Bounds.{AreSides};
ghost use Rattle.apf_bound.specs.Kept.{IsKeptOf, IsRanged, queues_of};

use crate::furthest::Furthest;
use crate::judged::Judged;
use crate::laws::histories_are_counted;
use crate::stretches::Stretches;
use std::alloc::{AllocError, Global};
use std::marker::Model;

/// Both sides of the bound: how far the seat-times of two queues came apart while one of them was never empty, and what
/// that may be.
#[derive(Clone, Copy, Debug, PartialEq, Eq)]
pub struct Sides {
    /// The pair that came furthest apart. There is none if no request ever waited, or if there is but one queue.
    pub furthest: Option<Furthest>,
    /// The largest cost of a request that entered a queue.
    pub largest_cost: u32,
    /// By how much requests that executed were misjudged at the most: those of one queue, or those of one queue and
    /// another way those of a second one.
    pub slack: u64,
}

impl Sides {
    /// What the difference may be at most: twice the largest cost, and three times the slack.
    pub fn limit(&self) -> u128
        ensures { result ≡ 2 * self.now.largest_cost + 3 * self.now.slack }
    {
        2 * u128::from(self.largest_cost) + 3 * u128::from(self.slack)
    }
}

/// Keeps both sides of the bound while a level goes on.
///
/// It is told each entry of the level's log, in their order. All memory is taken as it is opened: two numbers for each ordered pair of
/// queues, and five for each queue.
#[derive(Drop)]
pub struct Bound {
    stretches: Stretches,
    judged: Judged,
    largest_cost: u32,
}

impl Model for Bound {
    ghost use Rattle.apf_bound.specs.Kept.{BoundView, IsShaped};

    ghost Value = { BoundView };

    ghost view = { λ b. record { stretches = b.stretches; judged = b.judged; largest_cost = b.largest_cost } };

    ghost invariant = { λ b. IsShaped (record { stretches = b.stretches; judged = b.judged; largest_cost = b.largest_cost }) };
}

impl Bound {
    /// Nothing happened yet.
    ///
    /// # Errors
    ///
    /// `AllocError` if memory was refused.
    pub fn new(alloc: Global, queues: u32) -> Result<Bound, AllocError>
        requires { queues ≤ max_queues }
        ensures queues { IfOk result (λ b. queues_of b ≡ queues) }
        ensures kept { IfOk result (λ b. (costs : List ℕ) (measure : ℕ → ℕ) (hands : ℕ → List ℕ) (limit : ℕ) → IsKeptOf costs measure hands limit [] b) }
    {
        Ok(Bound {
            stretches: Stretches::new(alloc, queues)?,
            judged: Judged::new(alloc, queues)?,
            largest_cost: 0,
        })
    }

    /// Of how many queues it is.
    pub fn queues(&self) -> u32
        ensures { result ≡ queues_of self.now }
    {
        self.stretches.queues()
    }

    /// A request of this cost enters the queue.
    pub fn enter(&mut self, queue: u32, cost: u32)
        requires { queue < queues_of self.old }
        ensures queues { queues_of self.new ≡ queues_of self.old }
        ensures kept { (costs : List ℕ) (measure : ℕ → ℕ) (hands : ℕ → List ℕ) (limit : ℕ) (l : List LogEntry) (r : ℕ)
            → width costs r ≡ cost
            → IsKeptOf costs measure hands limit l self.old → IsKeptOf costs measure hands limit (Happens (Enter r queue) ∷ l) self.new }
    {
        histories_are_counted();
        self.stretches.enter(queue);
        self.largest_cost = self.largest_cost.max(cost);
    }

    /// A request is refused, as its queue is full. There is nothing to keep of that.
    pub fn refuse(&self)
        ensures { (costs : List ℕ) (measure : ℕ → ℕ) (hands : ℕ → List ℕ) (limit : ℕ) (l : List LogEntry) (r queue : ℕ)
            → IsKeptOf costs measure hands limit l self.now → IsKeptOf costs measure hands limit (Happens (Full r queue) ∷ l) self.now }
    {}

    /// A request of this cost is dispatched from the queue. It takes so much when it executes.
    pub fn dispatch(&mut self, queue: u32, cost: u32, measured: u64)
        requires { queue < queues_of self.old }
        ensures queues { queues_of self.new ≡ queues_of self.old }
        ensures kept { (costs : List ℕ) (measure : ℕ → ℕ) (hands : ℕ → List ℕ) (limit : ℕ) (l : List LogEntry) (r : ℕ)
            → width costs r ≡ cost → measure r ≡ measured
            → IsKeptOf costs measure hands limit l self.old → IsKeptOf costs measure hands limit (Happens (Dispatch r queue) ∷ l) self.new }
    {
        histories_are_counted();
        self.stretches.dispatch(queue, measured);
        self.judged.begin(queue, measured, u64::from(cost));
    }

    /// A request is struck out of the queue.
    pub fn strike(&mut self, queue: u32)
        requires { queue < queues_of self.old }
        ensures queues { queues_of self.new ≡ queues_of self.old }
        ensures kept { (costs : List ℕ) (measure : ℕ → ℕ) (hands : ℕ → List ℕ) (limit : ℕ) (l : List LogEntry) (r : ℕ)
            → IsKeptOf costs measure hands limit l self.old → IsKeptOf costs measure hands limit (Happens (Strike r queue) ∷ l) self.new }
    {
        histories_are_counted();
        self.stretches.leave(queue);
    }

    /// A request that executes from the queue has run so long that the second charge stands in the place of the first.
    pub fn spend(&mut self, queue: u32, charge: u64, next: u64)
        requires { queue < queues_of self.old }
        ensures queues { queues_of self.new ≡ queues_of self.old }
        ensures kept { (costs : List ℕ) (measure : ℕ → ℕ) (hands : ℕ → List ℕ) (limit : ℕ) (l : List LogEntry) (r : ℕ)
            → IsKeptOf costs measure hands limit l self.old → IsKeptOf costs measure hands limit (Spends r queue charge next ∷ l) self.new }
    {
        histories_are_counted();
        self.judged.change(queue, charge, next);
    }

    /// A request that executed from the queue, and was charged this, is settled: it took so much.
    pub fn settle(&mut self, queue: u32, charge: u64, took: u64)
        requires { queue < queues_of self.old }
        ensures queues { queues_of self.new ≡ queues_of self.old }
        ensures kept { (costs : List ℕ) (measure : ℕ → ℕ) (hands : ℕ → List ℕ) (limit : ℕ) (l : List LogEntry) (r : ℕ)
            → IsKeptOf costs measure hands limit l self.old → IsKeptOf costs measure hands limit (Settles r queue charge took ∷ l) self.new }
    {
        histories_are_counted();
        self.judged.end(queue, took, charge);
    }

    /// Both sides of the bound, of the log so far.
    ///
    /// They are exact if the log is settled, of requests that have these costs and take this, and no sum of those passes
    /// 64 bits.
    pub fn sides(&self) -> Sides
        ensures { (costs : List ℕ) (measure : ℕ → ℕ) (hands : ℕ → List ℕ) (limit : ℕ) (l : List LogEntry)
            → IsKeptOf costs measure hands limit l self.now
            → IsSettled (queues_of self.now) costs hands limit l → AreMeasures measure l → IsRanged costs measure l
            → AreSides (queues_of self.now) costs measure l result }
    {
        Sides {
            furthest: self.stretches.furthest(),
            largest_cost: self.largest_cost,
            slack: self.judged.slack(),
        }
    }
}
