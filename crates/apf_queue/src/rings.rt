//! The requests of each queue, in a ring.
//!
//! Nodes `0..requests` are the requests, and node `requests + q` is the head of queue q's ring: the
//! node after it is the queue's first request, and the node before it the last. A request that
//! stands in no queue is alone.

ghost use Rattle.std.specs.Prelude.{◌≡◌, ◌≢◌, ℕ, ◌+◌, ◌<◌, ◌≤◌, ◌^◌, ◌↔◌, List, [], ◌∷◌, ◌++◌, length, slice_index, slice_get, slice_set, replicate, Contains, IsNone, IfSome, IfOk, IfNone};
ghost use Rattle.apf_queue.specs.Nodes.{alone_nodes};
ghost use Rattle.apf_queue.specs.RingsView.{ring, without};

use crate::nodes::{Node, link, unlink};
use std::alloc::{AllocError, Allocator};
use std::marker::Model;

// The rings of the queues.
#[derive(Drop)]
pub struct Rings<A: Allocator> {
    requests: u32,
    nodes: Vec<Node, A>,
    // How many requests stand in each queue.
    lengths: Vec<u32, A>,
}

// Clauses see the queues as lists of requests, and the cost of each.
impl<A: Allocator> Model for Rings<A> {
    ghost use Rattle.std.specs.Prelude.{ℕ, ◌+◌, ◌<◌, ◌^◌, take, length};
    ghost use Rattle.apf_queue.specs.Nodes.{next_nodes, previous_nodes, queues_of, costs_of};
    ghost use Rattle.apf_queue.specs.RingsView.{RingsView, rings_from, ring_at, AreRings};

    ghost Value = { RingsView };

    ghost view = { λ s. record { queues = rings_from (next_nodes s.nodes.items) s.requests s.lengths.items; costs = take s.requests (costs_of s.nodes.items); requests = s.requests } };

    ghost invariant = { λ s. AreRings s.requests (next_nodes s.nodes.items) (previous_nodes s.nodes.items) (queues_of s.nodes.items) s.lengths.items
        (ring_at s.requests (next_nodes s.nodes.items) s.lengths.items) };
}

// This many nodes, each alone and in no queue.
fn nodes_alone<A: Allocator>(alloc: A, count: u32) -> Result<Vec<Node, A>, AllocError>
    ensures { IfOk result (λ v. v.items ≡ alone_nodes count) }
{
    let mut nodes = Vec::with_capacity(alloc, count as usize)?;
    for number in 0..count {
        nodes.push_reserved(Node::alone(number));
    }
    Ok(nodes)
}

impl<A: Allocator + Copy> Rings<A> {
    // This many queues, all empty, for this many requests.
    pub fn new(alloc: A, queues: u32, requests: u32) -> Result<Rings<A>, AllocError>
        requires { queues + requests < 2 ^ 32 }
        ensures { IfOk result (λ s. s ≡ record { queues = replicate queues []; costs = replicate requests 0; requests = requests }) }
    {
        Ok(Rings {
            requests,
            nodes: nodes_alone(alloc, requests + queues)?,
            lengths: vec![in alloc; 0; queues as usize]?,
        })
    }
}

impl<A: Allocator> Rings<A> {
    // How many queues there are.
    pub fn queue_count(&self) -> u32
        ensures { result ≡ length self.now.queues }
    {
        self.lengths.len() as u32
    }

    // How many requests stand in the queue.
    pub fn len(&self, queue: u32) -> u32
        requires { queue < length self.now.queues }
        ensures { result ≡ length (ring self.now queue) }
    {
        self.lengths[queue as usize]
    }

    // The first request of the queue.
    pub fn first(&self, queue: u32) -> Option<u32>
        requires { queue < length self.now.queues }
        ensures first { result ≡ slice_get (ring self.now queue) 0 }
        ensures is_request { IfSome result (λ r. r < self.now.requests) }
    {
        if self.lengths[queue as usize] == 0 {
            return None;
        }
        Some(self.nodes[(self.requests + queue) as usize].next)
    }

    // The queue in which the request stands.
    pub fn queue_of(&self, request: u32) -> Option<u32>
        requires { request < self.now.requests }
        ensures { (q : ℕ) → (result ≡ Some q) ↔ Contains (ring self.now q) request }
    {
        self.nodes[request as usize].queue()
    }

    // What the dispatch of the request is charged.
    pub fn cost(&self, request: u32) -> u32
        requires { request < self.now.requests }
        ensures { result ≡ slice_index self.now.costs request }
    {
        self.nodes[request as usize].cost
    }

    // Puts the request, which stands in no queue, at the end of the queue. Its dispatch is charged this.
    pub fn push(&mut self, queue: u32, request: u32, cost: u32)
        requires is_queue { queue < length self.old.queues }
        requires is_request { request < self.old.requests }
        requires is_nowhere { (q : ℕ) → ¬ Contains (ring self.old q) request }
        requires has_room { length (ring self.old queue) < 10000 }
        ensures { self.new ≡ record self.old { queues = slice_set self.old.queues queue (ring self.old queue ++ request ∷ []); costs = slice_set self.old.costs request cost } }
    {
        let head = self.requests + queue;
        link(&mut self.nodes, head, request, queue, cost);
        self.lengths[queue as usize] += 1;
    }

    // Takes the request out of the queue in which it stands, and tells that queue.
    pub fn remove(&mut self, request: u32) -> Option<u32>
        requires { request < self.old.requests }
        ensures stood { (q : ℕ) → (result ≡ Some q) ↔ Contains (ring self.old q) request }
        ensures none { IfNone result (self.new ≡ self.old) }
        ensures some { IfSome result (λ q. self.new ≡ record self.old { queues = slice_set self.old.queues q (without request (ring self.old q)) }) }
        ensures in_place { (q : ℕ) (before after : List ℕ) → ring self.old q ≡ before ++ request ∷ after
            → without request (ring self.old q) ≡ before ++ after }
    {
        let queue = self.nodes[request as usize].queue()?;
        unlink(&mut self.nodes, request);
        self.lengths[queue as usize] -= 1;
        Some(queue)
    }
}
