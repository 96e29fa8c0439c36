//! Worked rows on two queues: the numbers of virtual time and the virtual finishes at places of a row.
//!
//! The numbers were worked out by hand. They are compared with what the plain program computes of the
//! history, and with what the queues choose, which tells of them: the calls so far are made on new
//! queues, one queue or both are emptied by strikes, which move no number, and a request of each cost
//! in turn is put there. R is told by a third queue, which was empty all the time and so starts at R.

use crate::asserts::{is, is_at};
use apf_checked::Checked;
use apf_model::Event::{self, Dispatch, Enter, Strike};
use apf_plain::{choice, names_queues, numbers_of, waiting};
use apf_queue::Chosen;
use std::alloc::{AllocError, Global};
use std::process::Abort;
use std::test::Fail;

// The two requests that are put into the queues after the calls of a row, and how much they cost.
const PROBES: [u32; 2] = [8, 9];

const GREATEST_COST: u32 = 5;

// What happened, in the order of time, and the costs of the requests.
#[derive(Clone, Copy)]
struct Row<'a> {
    costs: &'a [u32],
    events: &'a [Event],
}

// What was worked out for a place of a row: the numbers `next` of the two queues, R, the robin, and the
// finishes of the two queues, where something waits.
#[derive(Clone, Copy)]
struct Numbers {
    next: (u64, u64),
    virtual_time: u64,
    robin: u32,
    finishes: (Option<u64>, Option<u64>),
}

// The queue that is chosen by these finishes: of the equal ones the first one after the robin.
fn chosen_by(finishes: &[Option<u64>], robin: u32) -> Option<u32> {
    let mut best: Option<(u64, u32)> = None;
    let after = (robin as usize).saturating_add(1);
    for queue in (after..finishes.len()).chain(0..after.min(finishes.len())) {
        if let Some(Some(finish)) = finishes.get(queue).copied() {
            if best.is_none_or(|(least, _)| finish < least) {
                best = Some((finish, u32::try_from(queue).unwrap_or(0)));
            }
        }
    }
    best.map(|(_, queue)| queue)
}

impl Numbers {
    // The finish of a queue, in which a request of this cost stands alone, or is as it was if the cost
    // is 0.
    fn finish(&self, next: u64, finish: Option<u64>, cost: u32) -> Option<u64> {
        if cost == 0 {
            return finish;
        }
        Some(next.max(self.virtual_time).saturating_add(u64::from(cost)))
    }

    // The queue that is chosen where requests of these costs stand alone.
    fn choice_beside(&self, costs: (u32, u32)) -> Option<u32> {
        let first = self.finish(self.next.0, self.finishes.0, costs.0);
        let second = self.finish(self.next.1, self.finishes.1, costs.1);
        chosen_by(&[first, second], self.robin)
    }

    // The queue that is chosen of three, where requests of these costs stand alone in the first one and
    // in the third one, which was empty all the time.
    fn choice_with_third(&self, has_dispatched: bool, costs: (u32, u32)) -> Option<u32> {
        let first = self.finish(self.next.0, None, costs.0);
        let third = self.finish(0, None, costs.1);
        let robin = if has_dispatched { self.robin } else { 2 };
        chosen_by(&[first, None, third], robin)
    }
}

fn push(rt: &impl Abort, queues: &mut Checked, queue: u32, request: u32, cost: u32) {
    is(rt, queues.push(queue, request, cost), Some(Ok(())));
}

fn dispatch(rt: &impl Abort, queues: &mut Checked, queue: u32, request: u32, cost: u32) {
    let next = Chosen {
        queue,
        request,
        cost,
    };
    is(rt, queues.dispatch(), Some(next));
}

fn strike(rt: &impl Abort, queues: &mut Checked, queue: u32, request: u32) {
    is(rt, queues.remove(request), Some(Some(queue)));
}

// The requests that wait in the queue are struck.
fn empty(rt: &impl Abort, queues: &mut Checked, waiting: &[u32], queue: u32) {
    for request in waiting {
        strike(rt, queues, queue, *request);
    }
}

// The queue is emptied, and a request of this cost is put there, unless the cost is 0.
fn probe(rt: &impl Abort, queues: &mut Checked, waiting: &[u32], place: (u32, u32), cost: u32) {
    let (queue, request) = place;
    if cost == 0 {
        return;
    }
    empty(rt, queues, waiting, queue);
    push(rt, queues, queue, request, cost);
}

// Asserts that these queues choose this one at a place of a row, with requests of these costs.
fn chooses(rt: &impl Abort, queues: &Checked, want: Option<u32>, place: usize, costs: (u32, u32)) {
    let found = queues.choose().map(|next| next.queue);
    is_at(rt, found, want, (place, costs));
}

impl Row<'_> {
    fn cost(&self, request: u32) -> u32 {
        self.costs.get(request as usize).copied().unwrap_or(0)
    }

    // What happened before this place.
    fn before(&self, place: usize) -> &[Event] {
        self.events.get(..place).unwrap_or(self.events)
    }

    // The history at this place, the newest event first.
    fn history(&self, alloc: Global, place: usize) -> Result<Vec<Event>, AllocError> {
        let mut history = Vec::from_slice(alloc, self.before(place))?;
        history.reverse();
        Ok(history)
    }

    // This many new queues on which the calls so far are made, each of which answers what happened.
    fn queues(
        &self,
        rt: &impl Abort,
        alloc: Global,
        count: u32,
        place: usize,
    ) -> Result<Checked, Fail> {
        let mut queues = Checked::new(alloc, count, 10, 10)?;
        for event in self.before(place) {
            self.make(rt, &mut queues, *event);
        }
        Ok(queues)
    }

    fn make(&self, rt: &impl Abort, queues: &mut Checked, event: Event) {
        match event {
            Enter(request, queue) => push(rt, queues, queue, request, self.cost(request)),
            Dispatch(request, queue) => dispatch(rt, queues, queue, request, self.cost(request)),
            Strike(request, queue) => strike(rt, queues, queue, request),
            Event::Full(..) => panic!(rt; "no row has one"),
        }
    }

    // The plain program computes these numbers and finishes of the history at this place.
    fn are_plainly(
        &self,
        rt: &impl Abort,
        alloc: Global,
        place: usize,
        want: &Numbers,
    ) -> Result<(), Fail> {
        let history = self.history(alloc, place)?;
        let history = history.as_slice();
        self.has_numbers(rt, alloc, history, want)?;
        self.finishes(rt, alloc, history, 0, want.next.0, want.finishes.0)?;
        self.finishes(rt, alloc, history, 1, want.next.1, want.finishes.1)
    }

    // The numbers of the history, and its choice.
    fn has_numbers(
        &self,
        rt: &impl Abort,
        alloc: Global,
        history: &[Event],
        want: &Numbers,
    ) -> Result<(), Fail> {
        assert!(rt; names_queues(2, history));
        assert!(rt; history.len() < 1 << 20);
        let numbers = numbers_of(alloc, 2, self.costs, history)?;
        let next = [want.next.0, want.next.1];
        is(rt, numbers.next.as_slice(), next.as_slice());
        is(rt, numbers.virtual_time, want.virtual_time);
        is(rt, numbers.robin, want.robin);
        let chosen = choice(alloc, 2, self.costs, history)?;
        is(rt, chosen, want.choice_beside((0, 0)));
        Ok(())
    }

    // The finish of a queue that has this number `next`.
    fn finishes(
        &self,
        rt: &impl Abort,
        alloc: Global,
        history: &[Event],
        queue: u32,
        next: u64,
        want: Option<u64>,
    ) -> Result<(), Fail> {
        let waiting = waiting(alloc, history, queue)?;
        let found = waiting.first().map(|request| next.saturating_add(u64::from(self.cost(
            *request,
        ))));
        is(rt, found, want);
        Ok(())
    }

    // The queues choose by these numbers and finishes at this place.
    fn are_chosen_by(
        &self,
        rt: &impl Abort,
        alloc: Global,
        place: usize,
        want: &Numbers,
    ) -> Result<(), Fail> {
        let history = self.history(alloc, place)?;
        let first = waiting(alloc, history.as_slice(), 0)?;
        let second = waiting(alloc, history.as_slice(), 1)?;
        let wait = (first.as_slice(), second.as_slice());
        for cost in 0..=GREATEST_COST {
            for beside in 0..=GREATEST_COST {
                let costs = (cost, beside);
                let choice = want.choice_beside(costs);
                self.choose_beside(rt, alloc, place, wait, costs, choice)?;
            }
        }
        Ok(())
    }

    // Of two queues, in which these wait and then requests of these costs alone, this one is chosen.
    fn choose_beside(
        &self,
        rt: &impl Abort,
        alloc: Global,
        place: usize,
        wait: (&[u32], &[u32]),
        costs: (u32, u32),
        want: Option<u32>,
    ) -> Result<(), Fail> {
        let [request, other] = PROBES;
        let mut queues = self.queues(rt, alloc, 2, place)?;
        probe(rt, &mut queues, wait.0, (0, request), costs.0);
        probe(rt, &mut queues, wait.1, (1, other), costs.1);
        chooses(rt, &queues, want, place, costs);
        Ok(())
    }

    // A third queue, which was empty all the time, starts at the level's virtual time.
    fn is_at(
        &self,
        rt: &impl Abort,
        alloc: Global,
        place: usize,
        want: &Numbers,
    ) -> Result<(), Fail> {
        let history = self.history(alloc, place)?;
        let first = waiting(alloc, history.as_slice(), 0)?;
        let second = waiting(alloc, history.as_slice(), 1)?;
        let wait = (first.as_slice(), second.as_slice());
        let has_dispatched = self.has_dispatched(place);
        for cost in 1..=GREATEST_COST {
            for beside in 1..=GREATEST_COST {
                let costs = (cost, beside);
                let choice = want.choice_with_third(has_dispatched, costs);
                self.choose_with_third(rt, alloc, place, wait, costs, choice)?;
            }
        }
        Ok(())
    }

    // Whether a request was dispatched before this place.
    fn has_dispatched(&self, place: usize) -> bool {
        for event in self.before(place) {
            if let Dispatch(..) = *event {
                return true;
            }
        }
        false
    }

    // Of three queues, in the first two of which these wait, and then requests of these costs alone in the first and
    // in the third, this one is chosen.
    fn choose_with_third(
        &self,
        rt: &impl Abort,
        alloc: Global,
        place: usize,
        wait: (&[u32], &[u32]),
        costs: (u32, u32),
        want: Option<u32>,
    ) -> Result<(), Fail> {
        let [request, other] = PROBES;
        let mut queues = self.queues(rt, alloc, 3, place)?;
        probe(rt, &mut queues, wait.0, (0, request), costs.0);
        empty(rt, &mut queues, wait.1, 1);
        probe(rt, &mut queues, &[], (2, other), costs.1);
        chooses(rt, &queues, want, place, costs);
        Ok(())
    }

    // The numbers and finishes at this place are these.
    fn are(&self, rt: &impl Abort, alloc: Global, place: usize, want: Numbers) -> Result<(), Fail> {
        self.are_plainly(rt, alloc, place, &want)?;
        self.are_chosen_by(rt, alloc, place, &want)?;
        self.is_at(rt, alloc, place, &want)
    }
}

#[test]
fn numbers_of_virtual_time(rt: HostRuntime) -> Result<(), Fail> {
    let row = Row {
        costs: &[1, 3, 3, 1, 1],
        events: &[
            Enter(1, 0),
            Enter(2, 0),
            Enter(3, 1),
            Enter(4, 1),
            Dispatch(3, 1),
            Dispatch(4, 1),
            Dispatch(1, 0),
            Dispatch(2, 0),
        ],
    };
    for (place, next, virtual_time, robin, finishes) in [
        (4, (0, 0), 0, 1, (Some(3), Some(1))),
        (5, (0, 1), 0, 1, (Some(3), Some(2))),
        (6, (0, 2), 1, 1, (Some(3), None)),
        (7, (3, 2), 1, 0, (Some(6), None)),
        (8, (6, 2), 3, 0, (None, None)),
    ] {
        let want = Numbers {
            next,
            virtual_time,
            robin,
            finishes,
        };
        row.are(&rt, rt.alloc(), place, want)?;
    }
    is(&rt, row.queues(&rt, rt.alloc(), 2, 8)?.dispatch(), None);
    Ok(())
}

#[test]
fn a_tie_goes_to_the_queue_after_the_robin(rt: HostRuntime) -> Result<(), Fail> {
    let row = Row {
        costs: &[1, 1, 1, 2],
        events: &[
            Enter(1, 0),
            Enter(2, 0),
            Enter(3, 1),
            Dispatch(1, 0),
            Dispatch(3, 1),
            Dispatch(2, 0),
        ],
    };
    let want = Numbers {
        next: (1, 0),
        virtual_time: 0,
        robin: 0,
        finishes: (Some(2), Some(2)),
    };
    row.are(&rt, rt.alloc(), 4, want)?;
    is(&rt, row.queues(&rt, rt.alloc(), 2, 6)?.dispatch(), None);
    Ok(())
}

#[test]
fn a_strike_moves_no_number(rt: HostRuntime) -> Result<(), Fail> {
    let row = Row {
        costs: &[5, 1, 3],
        events: &[
            Enter(0, 0),
            Enter(1, 0),
            Enter(2, 1),
            Strike(0, 0),
            Dispatch(1, 0),
            Dispatch(2, 1),
        ],
    };
    let want = Numbers {
        next: (0, 0),
        virtual_time: 0,
        robin: 1,
        finishes: (Some(1), Some(3)),
    };
    row.are(&rt, rt.alloc(), 4, want)?;
    is(&rt, row.queues(&rt, rt.alloc(), 2, 6)?.dispatch(), None);
    Ok(())
}
