//! Queues beside plain lists, with the history of what happened to them.

use crate::asserts::is;
use crate::draws::Xorshift;
use crate::slow::Slow;
use apf_checked::Checked;
use apf_model::Event;
use apf_plain::{choice, names_queues, waiting};
use apf_queue::Chosen;
use std::alloc::Global;
use std::process::Abort;
use std::test::Fail;

// How many requests a level has, and how many a queue of it holds.
pub const REQUESTS: u32 = 24;

pub const LENGTH_LIMIT: u32 = 5;

// The place in a queue from which a request is struck.
#[derive(Clone, Copy)]
pub enum Place {
    Head,
    Middle,
    End,
}

// How many times each kind of answer came.
#[derive(Default, Drop)]
pub struct Seen {
    pub pushed: u32,
    pub full: u32,
    pub heads: u32,
    pub middles: u32,
    pub ends: u32,
    pub dispatched: u32,
    pub plainly: u32,
}

// Queues, the costs of the requests, and the history, the newest event first.
#[derive(Drop)]
pub struct Level {
    alloc: Global,
    queues: u32,
    checked: Checked,
    slow: Slow,
    costs: Vec<u32>,
    history: Vec<Event>,
    // The queue into which each request so far was to be put.
    drawn: Vec<u32>,
}

impl Level {
    // A level of this many queues, whose requests have costs of at most this.
    pub fn new(
        alloc: Global,
        queues: u32,
        greatest: u32,
        random: &mut Xorshift,
    ) -> Result<Level, Fail> {
        let mut costs = Vec::new(alloc);
        for _ in 0..REQUESTS {
            costs.push(1u32.saturating_add(random.below(greatest)))?;
        }
        Ok(Level {
            alloc,
            queues,
            checked: Checked::new(alloc, queues, LENGTH_LIMIT, REQUESTS)?,
            slow: Slow::new(alloc, queues, LENGTH_LIMIT)?,
            costs,
            history: Vec::new(alloc),
            drawn: Vec::new(alloc),
        })
    }

    // The next request enters the queue.
    pub fn push(&mut self, rt: &impl Abort, queue: u32, seen: &mut Seen) -> Result<(), Fail> {
        let request = u32::try_from(self.drawn.len()).unwrap_or(REQUESTS);
        let Some(cost) = self.costs.get(request as usize).copied() else {
            return Ok(());
        };
        let has_room = self.slow.push(queue, request, cost)?;
        let answer = self.checked.push(queue, request, cost);
        let has_entered = matches!(answer, Some(Ok(())));
        assert!(rt; answer.is_some());
        is(rt, has_entered, has_room);
        self.drawn.push(queue)?;
        if has_room {
            self.history.insert(0, Event::Enter(request, queue))?;
            seen.pushed = seen.pushed.saturating_add(1);
        } else {
            seen.full = seen.full.saturating_add(1);
        }
        Ok(())
    }

    // A request is struck out of this place of the queue into which some request was put.
    pub fn strike(
        &mut self,
        rt: &impl Abort,
        place: Place,
        random: &mut Xorshift,
        seen: &mut Seen,
    ) -> Result<(), Fail> {
        let some = random.below(u32::try_from(self.drawn.len()).unwrap_or(0)) as usize;
        let Some(queue) = self.drawn.get(some).copied() else {
            return Ok(());
        };
        let last = self.slow.len(queue).saturating_sub(1);
        let at = match place {
            Place::Head => 0,
            Place::End => last,
            Place::Middle => {
                1usize.saturating_add(random.below(u32::try_from(last).unwrap_or(0)) as usize)
            }
        };
        let Some(request) = self.slow.at(queue, at) else {
            return Ok(());
        };
        is(rt, self.slow.remove(request), Some(queue));
        is(rt, self.checked.remove(request), Some(Some(queue)));
        is(rt, self.checked.remove(request), Some(None));
        self.history.insert(0, Event::Strike(request, queue))?;
        if at == 0 {
            seen.heads = seen.heads.saturating_add(1);
        } else if at == last {
            seen.ends = seen.ends.saturating_add(1);
        } else {
            seen.middles = seen.middles.saturating_add(1);
        }
        Ok(())
    }

    // What the plain program chooses after this history.
    fn plainly_chosen(&self, rt: &impl Abort) -> Result<Option<Chosen>, Fail> {
        let history = self.history.as_slice();
        let named = names_queues(self.queues, history);
        assert!(rt; named && history.len() < 1_000);
        let Some(queue) = choice(self.alloc, self.queues, self.costs.as_slice(), history)? else {
            return Ok(None);
        };
        let Some(request) = waiting(self.alloc, history, queue)?.first().copied() else {
            return Ok(None);
        };
        let cost = self.costs.get(request as usize).copied().unwrap_or(0);
        Ok(Some(Chosen {
            queue,
            request,
            cost,
        }))
    }

    // What is dispatched next is compared with the plain lists, and with the plain program if it is so asked.
    pub fn dispatch(
        &mut self,
        rt: &impl Abort,
        plainly: bool,
        seen: &mut Seen,
    ) -> Result<(), Fail> {
        let chosen = self.checked.choose();
        if plainly {
            is(rt, chosen, self.plainly_chosen(rt)?);
            seen.plainly = seen.plainly.saturating_add(1);
        }
        is(rt, self.slow.dispatch(), chosen);
        is(rt, self.checked.dispatch(), chosen);
        if let Some(next) = chosen {
            self.history
                .insert(0, Event::Dispatch(next.request, next.queue))?;
            seen.dispatched = seen.dispatched.saturating_add(1);
        }
        Ok(())
    }
}
