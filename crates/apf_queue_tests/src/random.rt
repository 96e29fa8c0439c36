//! Many random calls, whose answers are compared with those of plain lists.

use crate::asserts::is;
use crate::draws::Xorshift;
use crate::slow::Slow;
use apf_checked::Checked;
use std::alloc::Global;
use std::process::Abort;
use std::test::Fail;

const QUEUES: u32 = 8;

const LENGTH_LIMIT: u32 = 5;

// So few that each is pushed again and again, with another cost.
const REQUESTS: u32 = 64;

// How many times each kind of answer came.
#[derive(Default, Drop)]
struct Seen {
    pushed: u32,
    full: u32,
    struck: u32,
    dispatched: u32,
}

impl Seen {
    fn count_push(&mut self, had_room: bool) {
        if had_room {
            self.pushed = self.pushed.saturating_add(1);
        } else {
            self.full = self.full.saturating_add(1);
        }
    }

    fn count_strike(&mut self) {
        self.struck = self.struck.saturating_add(1);
    }

    fn count_dispatch(&mut self, has_chosen: bool) {
        if has_chosen {
            self.dispatched = self.dispatched.saturating_add(1);
        }
    }
}

// The queues, plain lists beside them, and how many times each kind of answer came.
#[derive(Drop)]
struct Both {
    queues: Checked,
    slow: Slow,
    seen: Seen,
}

impl Both {
    fn new(alloc: Global) -> Result<Both, Fail> {
        let slow = Slow::new(alloc, QUEUES, LENGTH_LIMIT)?;
        let queues = Checked::new(alloc, QUEUES, LENGTH_LIMIT, REQUESTS)?;
        let seen = Seen::default();
        Ok(Both { queues, slow, seen })
    }

    fn push(&mut self, rt: &impl Abort, queue: u32, request: u32, cost: u32) -> Result<(), Fail> {
        if let Some(answer) = self.queues.push(queue, request, cost) {
            let has_room = self.slow.push(queue, request, cost)?;
            is(rt, answer.is_ok(), has_room);
            self.seen.count_push(has_room);
        }
        Ok(())
    }

    // Removes a request that may wait in any queue or in none.
    fn remove(&mut self, rt: &impl Abort, request: u32) {
        let queue = self.slow.remove(request);
        is(rt, self.queues.queue_of(request), Some(queue));
        is(rt, self.queues.remove(request), Some(queue));
        is(rt, self.queues.queue_of(request), Some(None));
    }

    // Removes the request at this place of the queue, if there is one.
    fn strike(&mut self, rt: &impl Abort, queue: u32, place: usize) {
        if let Some(request) = self.slow.at(queue, place) {
            is(rt, self.slow.remove(request), Some(queue));
            is(rt, self.queues.remove(request), Some(Some(queue)));
            self.seen.count_strike();
        }
    }

    fn dispatch(&mut self, rt: &impl Abort) {
        let chosen = self.slow.dispatch();
        is(rt, self.queues.dispatch(), chosen);
        self.seen.count_dispatch(chosen.is_some());
    }

    fn choose(&mut self, rt: &impl Abort) {
        is(rt, self.queues.choose(), self.slow.choose());
    }

    fn len(&mut self, rt: &impl Abort, queue: u32) {
        let Some(len) = self.queues.len(queue) else {
            panic!(rt; "no such queue")
        };
        is(rt, len as usize, self.slow.len(queue));
    }

    fn shortest(&mut self, rt: &impl Abort, hand: &[u32]) {
        is(rt, self.queues.shortest(hand), self.slow.shortest(hand));
    }

    // One random call.
    fn call(&mut self, rt: &impl Abort, random: &mut Xorshift) -> Result<(), Fail> {
        let queue = random.below(QUEUES);
        match random.below(8) {
            0 | 1 => {
                let request = random.below(REQUESTS);
                let cost = 1u32.saturating_add(random.below(20_000));
                self.push(rt, queue, request, cost)?;
            }
            2 => self.remove(rt, random.below(REQUESTS)),
            3 => self.strike(rt, queue, random.below(LENGTH_LIMIT) as usize),
            4 => self.dispatch(rt),
            5 => self.choose(rt),
            6 => self.len(rt, queue),
            _ => {
                let hand = [queue, random.below(QUEUES), random.below(QUEUES)];
                self.shortest(rt, &hand);
            }
        }
        Ok(())
    }
}

#[test]
fn answers_are_those_of_plain_lists(rt: HostRuntime) -> Result<(), Fail> {
    let mut random = Xorshift::new(88_172_645_463_325_252);
    let mut both = Both::new(rt.alloc())?;
    for _ in 0..100_000 {
        both.call(&rt, &mut random)?;
    }
    let seen = &both.seen;
    assert!(rt;
        seen.pushed > 1_000 && seen.struck > 1_000 && seen.dispatched > 1_000 && seen.full > 100
    );
    Ok(())
}
