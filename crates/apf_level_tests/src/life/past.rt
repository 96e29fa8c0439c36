//! All that ever came to a level, and what the plain program says of it.

use crate::asserts::is;
use apf_book::LifeEvent;
use apf_gate::{Counts, Ticket};
use apf_model::Event;
use apf_plain::{is_fair, names_queues, names_requests};
use apf_words::Decision;
use std::alloc::Global;
use std::process::Abort;

/// How many queues there are, how many a hand has, and how many may wait in one.
pub const QUEUES: u32 = 3;

pub const HAND: u32 = 2;

pub const LENGTH: u32 = 1;

/// All that ever came: each request's ticket, cost and hand of queues, by its place among the requests, and the log
/// of them, the oldest event first.
#[derive(Drop)]
pub struct Past {
    pub tickets: Vec<Ticket>,
    costs: Vec<u32>,
    hands: Vec<u32>,
    pub log: Vec<Event>,
    /// How many were told that they are decided so.
    pub told: Counts,
}

impl Past {
    /// Nothing came yet.
    pub fn new(alloc: Global) -> Past {
        Past {
            tickets: Vec::new(alloc),
            costs: Vec::new(alloc),
            hands: Vec::new(alloc),
            log: Vec::new(alloc),
            told: Counts::default(),
        }
    }

    /// A request more.
    pub fn comes<R: Abort>(&mut self, rt: &R, ticket: Ticket, cost: u32, hand: &[u32]) {
        let Ok(()) = self.tickets.push(ticket) else {
            panic!(rt; "memory")
        };
        let Ok(()) = self.costs.push(cost) else {
            panic!(rt; "memory")
        };
        let Ok(()) = self.hands.extend_from_slice(hand) else {
            panic!(rt; "memory")
        };
    }

    /// One more was told that it is decided so.
    pub fn hears(&mut self, decision: Decision) {
        let count = match decision {
            Decision::Execute => &mut self.told.executed,
            Decision::QueueFull => &mut self.told.queue_full,
            Decision::Closed => &mut self.told.closed,
            Decision::ConcurrencyLimit => &mut self.told.concurrency_limit,
            Decision::Cancelled => &mut self.told.cancelled,
        };
        *count = count.wrapping_add(1);
    }

    // The place of a request among all.
    fn place<R: Abort>(&self, rt: &R, ticket: Ticket) -> u32 {
        let Some(place) = self.tickets.iter().position(|one| *one == ticket) else {
            panic!(rt; "an event of nobody")
        };
        let Ok(place) = u32::try_from(place) else {
            panic!(rt; "many requests")
        };
        place
    }

    /// The event, of a request by its place.
    pub fn event<R: Abort>(&self, rt: &R, event: LifeEvent) -> Event {
        match event {
            LifeEvent::Enter(ticket, queue) => Event::Enter(self.place(rt, ticket), queue),
            LifeEvent::Full(ticket, queue) => Event::Full(self.place(rt, ticket), queue),
            LifeEvent::Dispatch(ticket, queue) => Event::Dispatch(self.place(rt, ticket), queue),
            LifeEvent::Strike(ticket, queue) => Event::Strike(self.place(rt, ticket), queue),
        }
    }

    /// An event more.
    pub fn happens<R: Abort>(&mut self, rt: &R, event: LifeEvent) {
        let event = self.event(rt, event);
        let Ok(()) = self.log.push(event) else {
            panic!(rt; "memory")
        };
    }

    /// The plain program judges the log: it is of these requests and queues, and fair by their costs and hands.
    pub fn judge<R: Abort>(&self, rt: &R, alloc: Global) {
        let Ok(mut history) = self.log.to_vec(alloc) else {
            panic!(rt; "memory")
        };
        history.reverse();
        let history = history.as_slice();
        let few = history.len() < 1000 && self.costs.len() < 1000;
        assert!(rt; few);
        assert!(rt; names_requests(self.costs.len() as u32, history));
        let of_queues = names_queues(QUEUES, history);
        assert!(rt; of_queues);
        let fair = is_fair(
            alloc,
            QUEUES,
            self.costs.as_slice(),
            self.hands.as_slice(),
            HAND,
            LENGTH,
            history,
        );
        is(rt, fair, Ok(true));
    }
}
