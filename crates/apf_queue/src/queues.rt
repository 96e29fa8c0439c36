//! The queues of a level.

ghost use Rattle.std.specs.Prelude.{◌≡◌, ◌≢◌, ◌≤◌, ◌<◌, ◌↔◌, ◌+◌, ◌^◌, ℕ, List, [], ◌∷◌, ◌++◌, length, slice_index, All, Contains, IsTrue, IsErr, IsErrOf, OnOk, OnErr, IfOk, IfSome, IfNone, MatchOption};
ghost use Rattle.apf_model.specs.History.{IsShortest};
ghost use Rattle.apf_model.specs.Fair.{opening_numbers, IsChoice};
ghost use Rattle.apf_queue.specs.RingsView.{without};
ghost use Rattle.apf_queue.specs.View.{IsQueueShape, opening_view, queue_count, request_count, queue_in, numbers_in, StandsNowhere, NothingWaits, Enters, struck, Dispatches, Settles, IsHead, IsChosen, HasTime, MaySettle, max_charge};
ghost use Rattle.apf_queue.specs.Consistent.{finish_at};

use crate::choice::{Chosen, queue_after};
use crate::fault::{Full, QueueFault};
use crate::rings::Rings;
use crate::virtual_time::VirtualTime;
use apf_least::{LeastTree, NO_NUMBER};
use apf_words::{MAX_QUEUE_LENGTH, MAX_QUEUES, MAX_REQUESTS};
use std::alloc::Allocator;
use std::marker::Model;

/// The queues of a priority level.
///
/// Requests and queues are named by their numbers, from 0. A request that stands in no queue may be
/// pushed, however often its number stood in a queue before.
#[derive(Drop)]
pub struct Queues<A: Allocator> {
    length_limit: u32,
    rings: Rings<A>,
    time: VirtualTime<A>,
    // The virtual finish of each queue, so that the least is found at once.
    finishes: LeastTree<A>,
}

// Clauses see the queues as lists of requests, with the numbers of virtual time.
impl<A: Allocator> Model for Queues<A> {
    ghost use Rattle.apf_queue.specs.View.{QueuesView};
    ghost use Rattle.apf_queue.specs.Consistent.{AreKept};

    ghost Value = { QueuesView };

    ghost view = { λ s. record {
      queues = s.rings.queues;
      costs = s.rings.costs;
      next = s.time.next;
      virtual_time = s.time.virtual_time;
      robin = s.time.robin;
      length_limit = s.length_limit;
    } };

    ghost invariant = { λ s. AreKept s.rings s.time s.finishes s.length_limit };
}

// Whether the numbers are in range.
fn is_shape(queues: u32, length_limit: u32, requests: u32) -> bool
    ensures { IsTrue result ↔ IsQueueShape queues length_limit requests }
{
    (1..=MAX_QUEUES).contains(&queues)
        && (1..=MAX_QUEUE_LENGTH).contains(&length_limit)
        && requests <= MAX_REQUESTS
}

// The virtual finish of the queue, or `NO_NUMBER` if it is empty.
fn finish_in<A: Allocator>(rings: &Rings<A>, time: &VirtualTime<A>, queue: u32) -> u128
    requires is_queue { queue < length rings.now.queues }
    requires one_next_each { length time.now.next ≡ length rings.now.queues }
    requires fits { (r : ℕ) → slice_index time.now.next queue + slice_index rings.now.costs r < 2 ^ 128 }
    ensures { result ≡ finish_at rings.now time.now queue }
{
    match rings.first(queue) {
        None => NO_NUMBER,
        Some(request) => time.finish(queue, rings.cost(request)),
    }
}

impl<A: Allocator + Copy> Queues<A> {
    /// Queues, all empty, for this many requests. All memory is taken here: of the order of the
    /// number of requests and of queues, whatever the length limit is.
    ///
    /// There are 1 to 1,024 queues, each of 1 to 10,000 requests at a time, and at most 10,000
    /// requests.
    ///
    /// # Errors
    ///
    /// `BadShape` exactly if one of the numbers is out of range, and `NoMemory` if memory was
    /// refused.
    pub fn new(
        alloc: A,
        queues: u32,
        length_limit: u32,
        requests: u32,
    ) -> Result<Queues<A>, QueueFault>
        ensures bad_shape { IsErrOf result QueueFault.BadShape ↔ (¬ IsQueueShape queues length_limit requests) }
        ensures shape { OnOk result (IsQueueShape queues length_limit requests) }
        ensures opening { IfOk result (λ s. s ≡ opening_view queues length_limit requests) }
        ensures numbers { IfOk result (λ s. numbers_in s ≡ opening_numbers queues) }
    {
        if !is_shape(queues, length_limit, requests) {
            return Err(QueueFault::BadShape);
        }
        Ok(Queues {
            length_limit,
            rings: Rings::new(alloc, queues, requests)?,
            time: VirtualTime::new(alloc, queues)?,
            finishes: LeastTree::new(alloc, queues)?,
        })
    }
}

impl<A: Allocator> Queues<A> {
    /// How many requests wait in the queue.
    pub fn len(&self, queue: u32) -> u32
        requires { queue < queue_count self.now }
        ensures { result ≡ length (queue_in self.now queue) }
    {
        self.rings.len(queue)
    }

    /// The shortest queue of the hand: the one in which the fewest requests wait, and among equals
    /// the one that was dealt first.
    pub fn shortest(&self, hand: &[u32]) -> u32
        requires has_cards { 0 < length hand.now }
        requires are_queues { All (λ q. q < queue_count self.now) hand.now }
        ensures { IsShortest (queue_in self.now) hand.now result }
    {
        let mut place = 0;
        let mut fewest = self.len(hand[0]);
        for (i, queue) in hand.iter().enumerate() {
            let len = self.len(*queue);
            if len < fewest {
                place = i;
                fewest = len;
            }
        }
        hand[place]
    }

    /// The queue in which the request stands, or `None` if it stands in none.
    pub fn queue_of(&self, request: u32) -> Option<u32>
        requires { request < request_count self.now }
        ensures stands { (q : ℕ) → (result ≡ Some q) ↔ Contains (queue_in self.now q) request }
        ensures nowhere { IfNone result (StandsNowhere self.now request) }
    {
        self.rings.queue_of(request)
    }

    /// Puts the request, whose dispatch is charged this cost, at the end of the queue. A queue that was
    /// empty starts no earlier than the level's virtual time.
    ///
    /// The request stands in no queue now, which `queue_of` tells. A cost is 1 to 4,294,967,295.
    ///
    /// # Errors
    ///
    /// `Full` exactly if the queue holds as many requests as the length limit says; then nothing
    /// changes.
    pub fn push(&mut self, queue: u32, request: u32, cost: u32) -> Result<(), Full>
        requires is_queue { queue < queue_count self.old }
        requires is_request { request < request_count self.old }
        requires has_cost { 1 ≤ cost }
        requires is_nowhere { StandsNowhere self.old request }
        ensures full { IsErr result ↔ (length (queue_in self.old queue) ≡ self.old.length_limit) }
        ensures unchanged { OnErr result (self.new ≡ self.old) }
        ensures enters { OnOk result (Enters self.old self.new queue request cost) }
    {
        let len = self.rings.len(queue);
        if len == self.length_limit {
            return Err(Full);
        }
        self.rings.push(queue, request, cost);
        self.time.enter(queue, len);
        if len > 0 {
            // its first request stays, and so does its finish
            return Ok(());
        }
        let finish = finish_in(&self.rings, &self.time, queue);
        self.finishes.set(queue, finish);
        Ok(())
    }

    /// Takes the request out of its place, and tells the queue in which it stood: `None`, with
    /// nothing changed, if it stood in none. The numbers of virtual time stay as they were.
    pub fn remove(&mut self, request: u32) -> Option<u32>
        requires { request < request_count self.old }
        ensures stood { (q : ℕ) → (result ≡ Some q) ↔ Contains (queue_in self.old q) request }
        ensures none { IfNone result (self.new ≡ self.old) }
        ensures some { IfSome result (λ q. self.new ≡ struck self.old q request) }
        ensures in_place { (q : ℕ) (before after : List ℕ) → queue_in self.old q ≡ before ++ request ∷ after
            → without request (queue_in self.old q) ≡ before ++ after }
    {
        let queue = self.rings.remove(request)?;
        let finish_left = finish_in(&self.rings, &self.time, queue);
        self.finishes.set(queue, finish_left);
        Some(queue)
    }

    /// What is dispatched next: among the queues that are not empty and have the least virtual
    /// finish, the first request of the one that is reached first when counting round from the queue
    /// after the one that was dispatched from last. `None` exactly if nothing waits.
    pub fn choose(&self) -> Option<Chosen>
        ensures { MatchOption result (NothingWaits self.now) (IsChosen self.now) }
    {
        let queue = self.choice()?;
        self.chosen_of(queue)
    }

    /// Dispatches what `choose` gives now: takes it out of its queue, and moves the numbers of
    /// virtual time on by its cost.
    ///
    /// Virtual time may go on in that queue, which `has_time` tells. It always may before the 2^80th
    /// dispatch or settlement.
    pub fn dispatch(&mut self, chosen: Chosen)
        requires chosen { IsChosen self.old chosen }
        requires time { HasTime self.old chosen.queue }
        ensures { Dispatches self.old self.new chosen.queue chosen.cost }
    {
        let _ = self.rings.remove(chosen.request);
        self.time.dispatch(chosen.queue, chosen.cost);
        let finish_left = finish_in(&self.rings, &self.time, chosen.queue);
        self.finishes.set(chosen.queue, finish_left);
    }

    /// Charges the queue what was measured in place of what it was charged for one of its requests that execute: its
    /// number changes by the difference, and nothing else changes.
    ///
    /// What it was charged is part of its number. Virtual time may go on in the queue, which `has_time` tells.
    pub fn settle(&mut self, queue: u32, charged: u64, measured: u64)
        requires is_queue { queue < queue_count self.old }
        requires covered { charged ≤ slice_index self.old.next queue }
        requires low { measured ≤ max_charge }
        requires time { HasTime self.old queue }
        ensures { Settles self.old self.new queue charged measured }
    {
        self.time.settle(queue, charged, measured);
        let finish_now = finish_in(&self.rings, &self.time, queue);
        self.finishes.set(queue, finish_now);
    }

    /// Whether virtual time may go on in the queue: whether its number is at most 2^127.
    pub fn has_time(&self, queue: u32) -> bool
        requires { queue < queue_count self.now }
        ensures { IsTrue result ↔ HasTime self.now queue }
    {
        self.time.has_time(queue)
    }

    /// Whether a request of the queue may be settled: whether the queue's number is at most 2^126. Then it stays so
    /// small that virtual time may go on through all dispatches that there can be.
    pub fn may_settle(&self, queue: u32) -> bool
        requires { queue < queue_count self.now }
        ensures { IsTrue result ↔ MaySettle self.now queue }
    {
        self.time.may_settle(queue)
    }

    // How many queues there are.
    fn queue_count(&self) -> u32
        ensures { result ≡ queue_count self.now }
    {
        self.rings.queue_count()
    }

    // What would be dispatched from the queue, or `None` if it is empty.
    fn chosen_of(&self, queue: u32) -> Option<Chosen>
        requires { queue < queue_count self.now }
        ensures { MatchOption result (queue_in self.now queue ≡ []) (IsHead self.now queue) }
    {
        let request = self.rings.first(queue)?;
        Some(Chosen {
            queue,
            request,
            cost: self.rings.cost(request),
        })
    }

    // The queue of least virtual finish that is reached first when counting round from the queue after
    // the robin, or `None` if nothing waits.
    fn choice(&self) -> Option<u32>
        ensures { MatchOption result (NothingWaits self.now) (IsChoice (queue_count self.now) self.now.costs (queue_in self.now) (numbers_in self.now)) }
    {
        let after = queue_after(self.queue_count(), self.time.robin());
        self.finishes.first_least(after)
    }
}
