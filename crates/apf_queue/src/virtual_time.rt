//! The numbers of virtual time.
//!
//! Each queue has its own virtual time, `next`: where the service of its next request starts. The
//! level's virtual time never falls behind the start of what it dispatches.

ghost use Rattle.std.specs.Prelude.{◌≡◌, ℕ, ◌+◌, ◌-◌, ◌<◌, ◌≤◌, ◌^◌, ◌↔◌, List, length, slice_index, replicate, IsTrue, IfOk};
ghost use Rattle.apf_model.specs.Fair.{after_enter, after_dispatch};
ghost use Rattle.apf_model.specs.Charged.{after_charge};
ghost use Rattle.apf_queue.specs.TimeView.{numbers_of};
ghost use Rattle.apf_queue.specs.View.{latest_time, settle_time};

use std::alloc::{AllocError, Allocator};
use std::marker::Model;

// Up to this, the number of a queue may grow.
const LATEST_TIME: u128 = 1 << 127;

// The latest time at which a charge is set right.
const SETTLE_TIME: u128 = 1 << 126;

// The numbers of a level's virtual time, in the unit of costs.
#[derive(Drop)]
pub struct VirtualTime<A: Allocator> {
    next: Vec<u128, A>,
    level: u128,
    robin: u32,
}

impl<A: Allocator> Model for VirtualTime<A> {
    ghost use Rattle.apf_queue.specs.TimeView.{TimeView};

    ghost Value = { TimeView };

    ghost view = { λ s. record { next = s.next.items; virtual_time = s.level; robin = s.robin } };
}

impl<A: Allocator> VirtualTime<A> {
    // The numbers before anything happened: all are 0, and the robin stands at the last queue.
    pub fn new(alloc: A, queues: u32) -> Result<VirtualTime<A>, AllocError>
        requires { 0 < queues }
        ensures { IfOk result (λ t. t ≡ record { next = replicate queues 0; virtual_time = 0; robin = queues - 1 }) }
    {
        Ok(VirtualTime {
            next: vec![in alloc; 0; queues as usize]?,
            level: 0,
            robin: queues - 1,
        })
    }

    // The queue that was dispatched from last.
    pub fn robin(&self) -> u32
        ensures { result ≡ self.now.robin }
    {
        self.robin
    }

    // Whether virtual time may go on in the queue.
    pub fn has_time(&self, queue: u32) -> bool
        requires { queue < length self.now.next }
        ensures { IsTrue result ↔ (slice_index self.now.next queue ≤ latest_time) }
    {
        self.next[queue as usize] <= LATEST_TIME
    }

    // Whether a request of the queue may be settled.
    pub fn may_settle(&self, queue: u32) -> bool
        requires { queue < length self.now.next }
        ensures { IsTrue result ↔ (slice_index self.now.next queue ≤ settle_time) }
    {
        self.next[queue as usize] <= SETTLE_TIME
    }

    // The virtual finish of the queue, whose first request is of this cost.
    pub fn finish(&self, queue: u32, cost: u32) -> u128
        requires is_queue { queue < length self.now.next }
        requires fits { slice_index self.now.next queue + cost < 2 ^ 128 }
        ensures { result ≡ slice_index self.now.next queue + cost }
    {
        self.next[queue as usize] + u128::from(cost)
    }

    // A request enters the queue, in which this many wait: one that was empty starts no earlier than
    // the level's virtual time.
    pub fn enter(&mut self, queue: u32, len: u32)
        requires { queue < length self.old.next }
        ensures numbers { (requests : List ℕ) → length requests ≡ len → numbers_of self.new ≡ after_enter queue requests (numbers_of self.old) }
        ensures one_for_each { length self.new.next ≡ length self.old.next }
    {
        if len == 0 {
            let next = self.next[queue as usize];
            self.next[queue as usize] = next.max(self.level);
        }
    }

    // A request of this cost is dispatched from the queue.
    pub fn dispatch(&mut self, queue: u32, cost: u32)
        requires is_queue { queue < length self.old.next }
        requires fits { slice_index self.old.next queue + cost < 2 ^ 128 }
        ensures numbers { numbers_of self.new ≡ after_dispatch queue cost (numbers_of self.old) }
        ensures one_for_each { length self.new.next ≡ length self.old.next }
    {
        let next = self.next[queue as usize];
        self.level = self.level.max(next);
        self.next[queue as usize] = next + u128::from(cost);
        self.robin = queue;
    }

    // The queue is charged what was measured in place of what it was charged for a request.
    pub fn settle(&mut self, queue: u32, charged: u64, measured: u64)
        requires is_queue { queue < length self.old.next }
        requires covered { charged ≤ slice_index self.old.next queue }
        requires fits { slice_index self.old.next queue + measured < 2 ^ 128 }
        ensures numbers { numbers_of self.new ≡ after_charge queue charged measured (numbers_of self.old) }
        ensures one_for_each { length self.new.next ≡ length self.old.next }
    {
        let next = self.next[queue as usize];
        self.next[queue as usize] = next + u128::from(measured) - u128::from(charged);
    }
}
