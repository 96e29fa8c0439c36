//! How far each pair of queues came apart.

ghost use Rattle.std.specs.Prelude.{◌≡◌, ◌≢◌, ℕ, ◌+◌, ◌-◌, ◌*◌, ◌<◌, ◌≤◌, ◌==◌, ◌&&◌, nat_lt, not, min, max, if◌then◌else◌, Bool, false, true, List, length, slice_index, slice_index_or, slice_set, IfOk};
ghost use Rattle.apf_words.specs.Limits.{max_queues};
ghost use Rattle.apf_bound.specs.Pairs.{cell};
ghost use Rattle.apf_bound.specs.Stretched.{IsBestOf, IsPair, IsPairBelow, IsPairUntil, further_of as the_further_of, is_passed, ahead_after, raised, largest};

use crate::furthest::Furthest;
use crate::pairs::Pairs;
use std::alloc::{AllocError, Global};
use std::marker::Model;

/// How far each pair of queues came apart while the first of them was never empty.
#[derive(Drop)]
pub(crate) struct Stretches {
    queues: u32,
    // how many requests wait in each queue, and whether one ever did
    waiting: Vec<u64>,
    waited: Vec<bool>,
    // of each pair, how far the second queue is ahead: since it is so most, and at the most
    ahead: Pairs,
    most: Pairs,
}

impl Model for Stretches {
    ghost use Rattle.std.specs.Prelude.{◌≡◌, ◌≤◌, length};
    ghost use Rattle.apf_words.specs.Limits.{max_queues};
    ghost use Rattle.apf_bound.specs.Stretched.{StretchesView};

    ghost Value = { StretchesView };

    ghost view = { λ s. record { queues = s.queues; waiting = s.waiting.items; waited = s.waited.items; ahead = s.ahead; most = s.most } };

    ghost invariant = { λ s. (s.queues ≤ max_queues) × (length s.waiting.items ≡ s.queues) × (length s.waited.items ≡ s.queues) × (s.ahead.queues ≡ s.queues) × (s.most.queues ≡ s.queues) };
}

// The best so far, or this one if it is further.
fn further_of(best: Option<Furthest>, one: Furthest) -> Furthest
    ensures { result ≡ the_further_of best one }
{
    match best {
        Some(best) if best.ahead >= one.ahead => best,
        _ => one,
    }
}

impl Stretches {
    /// Nothing happened yet.
    ///
    /// # Errors
    ///
    /// `AllocError` if memory was refused.
    pub(crate) fn new(alloc: Global, queues: u32) -> Result<Stretches, AllocError>
        requires { queues ≤ max_queues }
        ensures queues { IfOk result (λ s. s.queues ≡ queues) }
        ensures each { IfOk result (λ s. (length s.waiting ≡ queues) × (length s.waited ≡ queues)) }
        ensures waiting { IfOk result (λ s. (q : ℕ) → slice_index s.waiting q ≡ 0) }
        ensures waited { IfOk result (λ s. (q : ℕ) → slice_index_or s.waited q false ≡ false) }
        ensures ahead { IfOk result (λ s. (a b : ℕ) → cell s.ahead a b ≡ 0) }
        ensures most { IfOk result (λ s. (a b : ℕ) → cell s.most a b ≡ 0) }
    {
        Ok(Stretches {
            queues,
            waiting: vec![in alloc; 0u64; queues as usize]?,
            waited: vec![in alloc; false; queues as usize]?,
            ahead: Pairs::new(alloc, queues)?,
            most: Pairs::new(alloc, queues)?,
        })
    }

    /// Of how many queues it is.
    pub(crate) fn queues(&self) -> u32
        ensures { result ≡ self.now.queues }
    {
        self.queues
    }

    /// A request enters the queue.
    pub(crate) fn enter(&mut self, queue: u32)
        requires { queue < self.old.queues }
        ensures queues { self.new.queues ≡ self.old.queues }
        ensures waiting { self.new.waiting ≡ slice_set self.old.waiting queue (min (slice_index self.old.waiting queue + 1) largest) }
        ensures waited { self.new.waited ≡ slice_set self.old.waited queue true }
        ensures ahead { self.new.ahead ≡ self.old.ahead }
        ensures most { self.new.most ≡ self.old.most }
    {
        let at = queue as usize;
        self.waiting[at] = self.waiting[at].saturating_add(1);
        self.waited[at] = true;
    }

    /// A request leaves the queue.
    pub(crate) fn leave(&mut self, queue: u32)
        requires { queue < self.old.queues }
        ensures queues { self.new.queues ≡ self.old.queues }
        ensures waiting { self.new.waiting ≡ slice_set self.old.waiting queue (slice_index self.old.waiting queue - 1) }
        ensures waited { self.new.waited ≡ self.old.waited }
        ensures ahead { (a b : ℕ) → b < self.old.queues → cell self.new.ahead a b
            ≡ (if (a == queue) && not (nat_lt 1 (slice_index self.old.waiting queue)) then 0 else cell self.old.ahead a b) }
        ensures most { self.new.most ≡ self.old.most }
    {
        let at = queue as usize;
        let left = self.waiting[at].saturating_sub(1);
        self.waiting[at] = left;
        if left == 0 {
            self.ahead.clear(queue);
        }
    }

    // The requests of the other queue took so much more, if this one is another that is waited in.
    fn pass(&mut self, busy: u32, other: u32, by: u64)
        requires busy { busy < self.old.queues }
        requires other { other < self.old.queues }
        ensures queues { self.new.queues ≡ self.old.queues }
        ensures waiting { self.new.waiting ≡ self.old.waiting }
        ensures waited { self.new.waited ≡ self.old.waited }
        ensures ahead { (a b : ℕ) → b < self.old.queues → cell self.new.ahead a b
            ≡ (if (a == busy) && is_passed self.old other a b then raised by (cell self.old.ahead a b) else cell self.old.ahead a b) }
        ensures most { (a b : ℕ) → b < self.old.queues → cell self.new.most a b
            ≡ (if (a == busy) && is_passed self.old other a b then max (cell self.old.most a b) (raised by (cell self.old.ahead a b)) else cell self.old.most a b) }
    {
        if busy == other || self.waiting[busy as usize] == 0 {
            return;
        }
        let ahead = self.ahead.get(busy, other).saturating_add(by);
        let most = self.most.get(busy, other).max(ahead);
        self.ahead.set(busy, other, ahead);
        self.most.set(busy, other, most);
    }

    // The requests of this queue took so much more than those of each other one that is waited in.
    fn pass_all(&mut self, other: u32, by: u64)
        requires { other < self.old.queues }
        ensures queues { self.new.queues ≡ self.old.queues }
        ensures waiting { self.new.waiting ≡ self.old.waiting }
        ensures waited { self.new.waited ≡ self.old.waited }
        ensures ahead { (a b : ℕ) → a < self.old.queues → b < self.old.queues → cell self.new.ahead a b
            ≡ (if is_passed self.old other a b then raised by (cell self.old.ahead a b) else cell self.old.ahead a b) }
        ensures most { (a b : ℕ) → a < self.old.queues → b < self.old.queues → cell self.new.most a b
            ≡ (if is_passed self.old other a b then max (cell self.old.most a b) (raised by (cell self.old.ahead a b)) else cell self.old.most a b) }
    {
        for busy in 0..self.queues {
            self.pass(busy, other, by);
        }
    }

    /// A request is dispatched from the queue, which takes so much.
    pub(crate) fn dispatch(&mut self, queue: u32, measured: u64)
        requires { queue < self.old.queues }
        ensures queues { self.new.queues ≡ self.old.queues }
        ensures waiting { self.new.waiting ≡ slice_set self.old.waiting queue (slice_index self.old.waiting queue - 1) }
        ensures waited { self.new.waited ≡ self.old.waited }
        ensures ahead { (a b : ℕ) → a < self.old.queues → b < self.old.queues → cell self.new.ahead a b ≡ ahead_after self.old queue measured a b }
        ensures most { (a b : ℕ) → a < self.old.queues → b < self.old.queues → cell self.new.most a b
            ≡ (if is_passed self.old queue a b then max (cell self.old.most a b) (raised measured (cell self.old.ahead a b)) else cell self.old.most a b) }
    {
        self.ahead.lower(queue, measured);
        self.leave(queue);
        self.pass_all(queue, measured);
    }

    // The best pair so far, or one of this queue that is further.
    fn further(&self, busy: u32, best: Option<Furthest>) -> Option<Furthest>
        requires busy { busy < self.now.queues }
        requires waited { slice_index_or self.now.waited busy false ≡ true }
        requires best { IsBestOf (cell self.now.most) (IsPairBelow self.now busy) best }
        ensures { IsBestOf (cell self.now.most) (IsPairBelow self.now (busy + 1)) result }
    {
        let mut best = best;
        for other in 0..self.queues {
            if other != busy {
                let ahead = self.most.get(busy, other);
                best = Some(further_of(best, Furthest { busy, other, ahead }));
            }
        }
        best
    }

    /// The pair that came furthest apart, and among equals the first.
    pub(crate) fn furthest(&self) -> Option<Furthest>
        ensures { IsBestOf (cell self.now.most) (IsPair self.now) result }
    {
        let mut best = None;
        for busy in 0..self.queues {
            if self.waited[busy as usize] {
                best = self.further(busy, best);
            }
        }
        best
    }
}
