//! Requests whose numbers are pushed again and again.

use crate::asserts::is;
use crate::slow::Slow;
use apf_checked::Checked;
use std::alloc::Global;
use std::process::Abort;
use std::test::Fail;

// How many times the two requests are pushed.
const ROUNDS: u32 = 1_000_000;

// The cost of a request in a round: 1 to 20,000, and another one in each of this many rounds.
fn cost_in(round: u32) -> u32 {
    1 + round.wrapping_mul(7) % 20_000
}

// Two queues, and plain lists beside them.
#[derive(Drop)]
struct Both {
    queues: Checked,
    slow: Slow,
}

impl Both {
    fn new(alloc: Global) -> Result<Both, Fail> {
        let slow = Slow::new(alloc, 2, 2)?;
        let queues = Checked::new(alloc, 2, 2, 2)?;
        Ok(Both { queues, slow })
    }

    // The request is pushed if it waits nowhere, and then it can't be pushed again.
    fn push(&mut self, rt: &impl Abort, queue: u32, request: u32, cost: u32) -> Result<(), Fail> {
        if self.queues.queue_of(request) == Some(None) {
            let has_room = self.slow.push(queue, request, cost)?;
            assert!(rt; has_room);
            is(rt, self.queues.push(queue, request, cost), Some(Ok(())));
        }
        is(rt, self.queues.push(0, request, 1), None);
        Ok(())
    }

    fn remove(&mut self, rt: &impl Abort, request: u32) {
        is(
            rt,
            self.queues.remove(request),
            Some(self.slow.remove(request)),
        );
    }

    fn dispatch(&mut self, rt: &impl Abort) {
        is(rt, self.queues.dispatch(), self.slow.dispatch());
    }

    // Both requests are pushed, and one of them leaves its queue, by a dispatch or struck out of it.
    fn one_round(&mut self, rt: &impl Abort, round: u32) -> Result<(), Fail> {
        for request in 0..2 {
            let number = round.wrapping_add(request);
            self.push(rt, number % 2, request, cost_in(number))?;
        }
        if round % 4 == 3 {
            self.remove(rt, round / 4 % 2);
        } else {
            self.dispatch(rt);
        }
        Ok(())
    }
}

#[test]
fn a_request_is_pushed_a_million_times(rt: HostRuntime) -> Result<(), Fail> {
    let mut both = Both::new(rt.alloc())?;
    for round in 0..ROUNDS {
        both.one_round(&rt, round)?;
    }
    Ok(())
}
