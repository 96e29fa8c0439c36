//! By how much the requests that execute are misjudged.

ghost use Rattle.std.specs.Prelude.{◌≡◌, ℕ, ◌+◌, ◌-◌, ◌<◌, ◌≤◌, min, max, List, length, slice_index, slice_set, IfOk};
ghost use Rattle.apf_words.specs.Limits.{max_queues};
ghost use Rattle.apf_bound.specs.Stretched.{largest};
ghost use Rattle.apf_bound.specs.Misjudged.{IsGap, IsRaisedTo};

use std::alloc::{AllocError, Global};
use std::marker::Model;

/// By how much the requests that execute from the queues are misjudged, and were at the most.
#[derive(Drop)]
pub(crate) struct Judged {
    // of each queue, what the requests that execute from it will have taken, and what is charged for them
    taken: Vec<u64>,
    charged: Vec<u64>,
    slack: u64,
}

impl Model for Judged {
    ghost use Rattle.std.specs.Prelude.{◌≡◌, length};
    ghost use Rattle.apf_bound.specs.Misjudged.{JudgedView};

    ghost Value = { JudgedView };

    ghost view = { λ j. record { taken = j.taken.items; charged = j.charged.items; slack = j.slack } };

    ghost invariant = { λ j. length j.taken.items ≡ length j.charged.items };
}

// By how much one of these is more than that of the others at the same place, at the most.
fn gap(more: &[u64], less: &[u64]) -> u64
    requires { length more.now ≡ length less.now }
    ensures { IsGap more.now less.now result }
{
    let mut gap = 0;
    for place in 0..more.len() {
        gap = more[place].saturating_sub(less[place]).max(gap);
    }
    gap
}

impl Judged {
    /// Nothing executes.
    ///
    /// # Errors
    ///
    /// `AllocError` if memory was refused.
    pub(crate) fn new(alloc: Global, queues: u32) -> Result<Judged, AllocError>
        ensures queues { IfOk result (λ j. length j.taken ≡ queues) }
        ensures as_many { IfOk result (λ j. length j.charged ≡ queues) }
        ensures taken { IfOk result (λ j. (q : ℕ) → slice_index j.taken q ≡ 0) }
        ensures charged { IfOk result (λ j. (q : ℕ) → slice_index j.charged q ≡ 0) }
        ensures slack { IfOk result (λ j. j.slack ≡ 0) }
    {
        Ok(Judged {
            taken: vec![in alloc; 0u64; queues as usize]?,
            charged: vec![in alloc; 0u64; queues as usize]?,
            slack: 0,
        })
    }

    // This is what the requests that execute from the queue will have taken, and what is charged for them.
    fn judge(&mut self, queue: u32, taken: u64, charged: u64)
        requires { queue < length self.old.taken }
        ensures taken { self.new.taken ≡ slice_set self.old.taken queue taken }
        ensures charged { self.new.charged ≡ slice_set self.old.charged queue charged }
        ensures slack { IsRaisedTo self.new.taken self.new.charged self.old.slack self.new.slack }
    {
        self.taken[queue as usize] = taken;
        self.charged[queue as usize] = charged;
        let under = gap(&self.taken, &self.charged);
        let over = gap(&self.charged, &self.taken);
        self.slack = under.saturating_add(over).max(self.slack);
    }

    /// A request begins that was dispatched from the queue. It will have taken so much, and this is charged for it.
    pub(crate) fn begin(&mut self, queue: u32, measured: u64, charge: u64)
        requires { queue < length self.old.taken }
        ensures taken { self.new.taken ≡ slice_set self.old.taken queue (min (slice_index self.old.taken queue + measured) largest) }
        ensures charged { self.new.charged ≡ slice_set self.old.charged queue (min (slice_index self.old.charged queue + charge) largest) }
        ensures slack { IsRaisedTo self.new.taken self.new.charged self.old.slack self.new.slack }
    {
        let taken = self.taken[queue as usize].saturating_add(measured);
        let charged = self.charged[queue as usize].saturating_add(charge);
        self.judge(queue, taken, charged);
    }

    /// A request ends that was dispatched from the queue.
    pub(crate) fn end(&mut self, queue: u32, measured: u64, charge: u64)
        requires { queue < length self.old.taken }
        ensures taken { self.new.taken ≡ slice_set self.old.taken queue (slice_index self.old.taken queue - measured) }
        ensures charged { self.new.charged ≡ slice_set self.old.charged queue (slice_index self.old.charged queue - charge) }
        ensures slack { IsRaisedTo self.new.taken self.new.charged self.old.slack self.new.slack }
    {
        let taken = self.taken[queue as usize].saturating_sub(measured);
        let charged = self.charged[queue as usize].saturating_sub(charge);
        self.judge(queue, taken, charged);
    }

    /// For a request that executes from the queue the second charge stands in the place of the first.
    pub(crate) fn change(&mut self, queue: u32, charge: u64, next: u64)
        requires { queue < length self.old.taken }
        ensures taken { self.new.taken ≡ slice_set self.old.taken queue (slice_index self.old.taken queue) }
        ensures charged { self.new.charged ≡ slice_set self.old.charged queue (min (slice_index self.old.charged queue - charge + next) largest) }
        ensures slack { IsRaisedTo self.new.taken self.new.charged self.old.slack self.new.slack }
    {
        let taken = self.taken[queue as usize];
        let charged = self.charged[queue as usize]
            .saturating_sub(charge)
            .saturating_add(next);
        self.judge(queue, taken, charged);
    }

    /// By how much those that executed at one moment were misjudged at the most.
    pub(crate) fn slack(&self) -> u64
        ensures { result ≡ self.now.slack }
    {
        self.slack
    }
}
