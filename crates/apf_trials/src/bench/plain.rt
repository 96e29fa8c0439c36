//! Requests that wait in line one after another, under one lock: what a level keeps, as plain numbers and lists, over
//! queues that are chosen by a scan or by a tree. Nothing is proved of its answers, which are compared with what is
//! expected at the end.

use crate::bench::course::{REQUESTS, picos_each};
use crate::bench::queueing::Queueing;
use crate::bench::shuffle::Shuffle;
use apf_flow::Dealer;
use apf_model::Event;
use std::alloc::{AllocError, Global};
use std::sync::{Mutex, Wait};
use std::time::{Clock, Instant};

// The codes of decisions. The last is that of a request that is rejected.
const UNDECIDED: u8 = 0;

const EXECUTES: u8 = 1;

const REJECTED: u8 = 2;

// The numbers of the log.
#[derive(Clone, Copy)]
struct Numbers {
    entered: u32,
    dispatched: u32,
    full: u32,
}

// A level whose requests take one seat each.
#[derive(Drop)]
struct Line<Q: Queueing> {
    is_closed: bool,
    waiters: u32,
    seats: u32,
    limit: u32,
    length_limit: u32,
    queues: Q,
    decisions: Vec<u8>,
    log: Vec<Event>,
    numbers: Numbers,
}

impl<Q: Queueing> Line<Q> {
    fn new(alloc: Global, queues: Q) -> Result<Line<Q>, AllocError> {
        Ok(Line {
            is_closed: false,
            waiters: 0,
            seats: 0,
            limit: 1,
            length_limit: 50,
            queues,
            decisions: vec![in alloc; UNDECIDED; REQUESTS as usize]?,
            log: Vec::with_capacity(alloc, 2 * REQUESTS as usize)?,
            numbers: Numbers {
                entered: 0,
                dispatched: 0,
                full: 0,
            },
        })
    }

    fn decide(&mut self, request: u32, decision: u8) -> u8 {
        if let Some(word) = self.decisions.get_mut(request as usize) {
            *word = decision;
        }
        decision
    }

    // The shortest queue of the hand, and how many wait there.
    fn shortest(&self, hand: &[u32]) -> (u32, u32) {
        let mut best = (0, u32::MAX);
        for queue in hand {
            let length = self.queues.len(*queue);
            if length < best.1 {
                best = (*queue, length);
            }
        }
        best
    }

    // The request takes its seat, enters the shortest queue of its hand, or is rejected. Tells its decision.
    fn begin(&mut self, request: u32, hand: &[u32]) -> u8 {
        if self.is_closed {
            return self.decide(request, REJECTED);
        }
        if self.waiters == 0 && self.seats < self.limit {
            self.seats = self.seats.wrapping_add(1);
            return self.decide(request, EXECUTES);
        }
        let (queue, length) = self.shortest(hand);
        if length >= self.length_limit {
            let _ = self.log.push(Event::Full(request, queue));
            self.numbers.full = self.numbers.full.wrapping_add(1);
            return self.decide(request, REJECTED);
        }
        self.queues.push(queue, request, 1);
        self.waiters = self.waiters.wrapping_add(1);
        let _ = self.log.push(Event::Enter(request, queue));
        self.numbers.entered = self.numbers.entered.wrapping_add(1);
        self.dispatch();
        self.poll(request)
    }

    // Tells the request's decision.
    fn poll(&self, request: u32) -> u8 {
        match self.decisions.get(request as usize) {
            Some(decision) => *decision,
            None => REJECTED,
        }
    }

    // Gives the seat back. Says whether requests wait.
    fn release(&mut self) -> bool {
        self.seats = self.seats.wrapping_sub(1);
        self.waiters != 0
    }

    // Dispatches while there is room.
    fn dispatch(&mut self) {
        for _turn in 0..self.waiters {
            if self.seats >= self.limit {
                return;
            }
            let Some((queue, request)) = self.queues.dispatch() else {
                return;
            };
            self.waiters = self.waiters.wrapping_sub(1);
            self.seats = self.seats.wrapping_add(1);
            self.decide(request, EXECUTES);
            let _ = self.log.push(Event::Dispatch(request, queue));
            self.numbers.dispatched = self.numbers.dispatched.wrapping_add(1);
        }
    }

    // How many requests execute or did.
    fn executed(&self) -> u32 {
        let mut count = 0u32;
        for decision in self.decisions.as_slice() {
            if *decision == EXECUTES {
                count = count.wrapping_add(1);
            }
        }
        count
    }

    // Whether each request executed, and each but the first one waited before.
    fn is_served(&self) -> bool {
        self.seats == 0
            && self.waiters == 0
            && self.executed() == REQUESTS
            && self.numbers.entered == REQUESTS - 1
            && self.numbers.dispatched == REQUESTS - 1
            && self.numbers.full == 0
    }
}

// The request waits until the one before it has given its seat back, and is dispatched. Says whether it did so.
fn follow<Q: Queueing, R: Wait>(rt: &R, line: &Mutex<Line<Q>>, request: u32, hand: &[u32]) -> bool {
    if line.lock(rt).begin(request, hand) != UNDECIDED {
        return false;
    }
    if line.lock(rt).release() {
        line.lock(rt).dispatch();
    }
    line.lock(rt).poll(request) == EXECUTES
}

// Serves the requests, each behind the one before it. A hand is dealt before the lock is taken.
fn serve_line<Q: Queueing, R: Wait>(
    rt: &R,
    line: &Mutex<Line<Q>>,
    dealer: Dealer,
    shuffle: Shuffle,
) -> bool {
    if line.lock(rt).begin(0, &[0]) != EXECUTES {
        return false;
    }
    for request in 1..REQUESTS {
        let hand = dealer.deal(shuffle.ask(request).hash);
        if !follow(rt, line, request, hand.as_slice()) {
            return false;
        }
    }
    !line.lock(rt).release()
}

/// How long a request in line takes under one lock, in picoseconds: `None` if there was no memory or clock, or
/// the answers are not those that are expected.
pub fn plain<Q: Queueing, R: Clock + Wait>(rt: &R, alloc: Global, shuffle: Shuffle) -> Option<u64> {
    let dealer = Dealer::new(shuffle.queues, shuffle.hand).ok()?;
    let queues = Q::new(alloc, shuffle.queues)?;
    let line = Mutex::new(Line::new(alloc, queues).ok()?);
    let start = Instant::now(rt).ok()?;
    let ends = serve_line(rt, &line, dealer, shuffle);
    let picos = picos_each(rt, start, REQUESTS)?;
    if !ends || !line.lock(rt).is_served() {
        return None;
    }
    Some(picos)
}
