//! A log judged plainly: what each queue was charged, and the choice by it, in plain lists.

use apf_model::Event;
use std::alloc::{AllocError, Global};
use std::process::Abort;

/// What happened, of requests by their places.
#[derive(Clone, Copy, Debug, PartialEq, Eq)]
pub enum Happening {
    /// The queues' event.
    Event(Event),
    /// The request has run, and took so much. The book said whether it settled that.
    Took(u32, u64, bool),
    /// The request, which executed still, had taken so much. The book said whether that changed a charge.
    HasTaken(u32, u64, bool),
}

// A queue: who waits in it, and where the service of its next request starts.
#[derive(Drop)]
struct Line {
    waiting: Vec<u32>,
    next: u128,
}

// What is charged for a request that executes: its queue, and how much.
#[derive(Clone, Copy, Debug, PartialEq, Eq)]
struct Running {
    request: u32,
    queue: u32,
    amount: u64,
}

/// A level's queues, as plain lists.
#[derive(Drop)]
pub struct Plain {
    lines: Vec<Line>,
    costs: Vec<u32>,
    running: Vec<Running>,
    level_time: u128,
    robin: u32,
    /// How many charges were settled.
    pub settled: u32,
    /// How many charges grew.
    pub grown: u32,
}

impl Plain {
    /// This many empty queues, and the costs of all requests that come.
    pub fn new(alloc: Global, queues: u32, costs: &[u32]) -> Result<Plain, AllocError> {
        let mut lines = Vec::new(alloc);
        for _ in 0..queues {
            lines.push(Line {
                waiting: Vec::new(alloc),
                next: 0,
            })?;
        }
        Ok(Plain {
            lines,
            costs: Vec::from_slice(alloc, costs)?,
            running: Vec::new(alloc),
            level_time: 0,
            robin: queues.saturating_sub(1),
            settled: 0,
            grown: 0,
        })
    }

    fn cost(&self, request: u32) -> u64 {
        u64::from(self.costs.get(request as usize).copied().unwrap_or(0))
    }

    // The virtual finish of the queue, if anything waits there.
    fn finish(&self, queue: u32) -> Option<u128> {
        let line = self.lines.get(queue as usize)?;
        let head = line.waiting.first()?;
        Some(line.next.saturating_add(u128::from(self.cost(*head))))
    }

    // The queue of least finish, the first of these after the robin.
    fn choice(&self) -> Option<u32> {
        let count = u32::try_from(self.lines.len()).unwrap_or(0);
        let mut best: Option<(u128, u32)> = None;
        for step in 1..=count {
            let queue = self.robin.wrapping_add(step) % count.max(1);
            if let Some(finish) = self.finish(queue) {
                if best.is_none_or(|(least, _)| finish < least) {
                    best = Some((finish, queue));
                }
            }
        }
        best.map(|(_, queue)| queue)
    }

    fn enter(&mut self, rt: &impl Abort, request: u32, queue: u32) {
        let now = self.level_time;
        let Some(line) = self.lines.get_mut(queue as usize) else {
            panic!(rt; "no such queue")
        };
        if line.waiting.is_empty() {
            line.next = line.next.max(now);
        }
        let Ok(()) = line.waiting.push(request) else {
            panic!(rt; "memory")
        };
    }

    fn dispatch(&mut self, rt: &impl Abort, request: u32, queue: u32) {
        assert_eq!(rt; self.choice(), Some(queue));
        let amount = self.cost(request);
        let Some(line) = self.lines.get_mut(queue as usize) else {
            panic!(rt; "no such queue")
        };
        assert_eq!(rt; line.waiting.first(), Some(&request));
        line.waiting.remove(0);
        self.level_time = self.level_time.max(line.next);
        line.next = line.next.saturating_add(u128::from(amount));
        self.robin = queue;
        let running = Running {
            request,
            queue,
            amount,
        };
        let Ok(()) = self.running.push(running) else {
            panic!(rt; "memory")
        };
    }

    fn strike(&mut self, rt: &impl Abort, request: u32, queue: u32) {
        let Some(line) = self.lines.get_mut(queue as usize) else {
            panic!(rt; "no such queue")
        };
        line.waiting.retain(|one| *one != request);
    }

    // The queue is charged another amount in place of what it was.
    fn charge(&mut self, rt: &impl Abort, was: Running, amount: u64) {
        let Some(line) = self.lines.get_mut(was.queue as usize) else {
            panic!(rt; "no such queue")
        };
        let more = line.next.saturating_add(u128::from(amount));
        assert!(rt; more >= u128::from(was.amount));
        line.next = more.saturating_sub(u128::from(was.amount));
    }

    fn took(&mut self, rt: &impl Abort, request: u32, amount: u64, said: bool) {
        let found = self
            .running
            .iter()
            .find(|one| one.request == request)
            .copied();
        assert_eq!(rt; said, found.is_some());
        let Some(was) = found else {
            return;
        };
        self.charge(rt, was, amount);
        self.running.retain(|one| one.request != request);
        self.settled = self.settled.wrapping_add(1);
    }

    fn has_taken(&mut self, rt: &impl Abort, request: u32, amount: u64, said: bool) {
        let found = self
            .running
            .iter()
            .find(|one| one.request == request)
            .copied();
        assert_eq!(rt; said, found.is_some_and(|was| was.amount < amount));
        let Some(was) = found else {
            return;
        };
        if was.amount >= amount {
            return;
        }
        self.charge(rt, was, amount);
        for one in self.running.iter_mut() {
            if one.request == request {
                one.amount = amount;
            }
        }
        self.grown = self.grown.wrapping_add(1);
    }

    /// The next thing happens: a Dispatch is of the choice, and the book said of each charge what is so.
    pub fn happens(&mut self, rt: &impl Abort, what: Happening) {
        match what {
            Happening::Event(Event::Enter(request, queue)) => self.enter(rt, request, queue),
            Happening::Event(Event::Dispatch(request, queue)) => self.dispatch(rt, request, queue),
            Happening::Event(Event::Strike(request, queue)) => self.strike(rt, request, queue),
            Happening::Event(Event::Full(..)) => {}
            Happening::Took(request, amount, said) => self.took(rt, request, amount, said),
            Happening::HasTaken(request, amount, said) => self.has_taken(rt, request, amount, said),
        }
    }
}
