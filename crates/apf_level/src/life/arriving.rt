//! The arrival of a request, and its wait.

ghost use Rattle.std.specs.Prelude.{◌≡◌, ◌≤◌, Option, Some};
ghost use Rattle.apf_book.specs.declared.life_event.LifeEvent.{LifeEvent};
ghost use Rattle.apf_words.specs.Limits.{max_cost};
ghost use Rattle.apf_flow.specs.Deal.{hand_of};
ghost use Rattle.apf_model.specs.declared.response.Response.TheVariants.{Queue};
ghost use Rattle.apf_gate.specs.Traces.{asked_in};
ghost use Rattle.apf_gate.specs.Tokens.{pass_gate};
ghost use Rattle.apf_line.specs.Tokens.{IsOf, IsInLine};
ghost use Rattle.apf_level.specs.InPlace.{IsDecided};
ghost use Rattle.apf_level.specs.LifeInPlace.{begin_of, poll_of, IsLeftBy, HasEnteredIf};
ghost use Rattle.apf_level.specs.LifeAdmission.{polled_pass, admitted_pass, begun_of, IsAdmittedTold, SaysWaiting, Polls};
ghost use Rattle.apf_level.specs.LifeArrivals.{Logs, LogsInLine, TraceGoesOn};
ghost use Rattle.apf_line.specs.Attempts.{IsFreshPass};
ghost use Rattle.apf_level.specs.LifeCalls.{AfterBegin};

use crate::life::answers::{Admit, Begin, Begun, Enqueued, Poll, Tried};
use crate::life::level::Level;
use crate::life::naming::Naming;
use crate::life::queued::QueuedLock;
use crate::life::shared::Shared;
use crate::life::tokens::{Done, Pass, Running, Waiting};
use apf_book::LifeEvent;
use apf_words::Decision;
use std::hint;
use std::sync::Wait;

// How many times a decision is read before its reader sleeps.
const READINGS_AWAKE: u32 = 100;

impl<K: Naming> Level<K> {
    /// The request arrives: it takes its seats, or enters a queue, or is decided otherwise. On a level without
    /// queues it never waits.
    ///
    /// It takes the lock only where requests wait or it does not fit, or to dispatch where its decision was
    /// lost and requests waited when its seats were given back. Its hand of queues is dealt before the lock.
    pub fn begin<R: Wait>(&self, rt: &R, pass: Pass) -> Begin
        requires own { pass_gate pass.token ≡ K.level.gate }
        ensures after { AfterBegin pass.token result }
        ensures queues { SaysWaiting result → self.now.shape.response ≡ Queue }
        ensures logs { (event : Option LifeEvent) × Logs K.level pass.token.pass.knows.trace pass.token.pass.number (hand_of K.level.sizes pass.hash) pass.cost result event }
    {
        let (begun, _event) = self.begin_with_event(rt, pass);
        begun
    }

    /// As `begin`. Answers also the event that the history got by the arrival: the request's Enter or Full, which
    /// name its queue, or none, of a request that took its seats or was decided without a queue.
    pub fn begin_with_event<R: Wait>(&self, rt: &R, pass: Pass) -> (Begin, Option<LifeEvent>)
        requires own { pass_gate pass.token ≡ K.level.gate }
        ensures after { AfterBegin pass.token result.0 }
        ensures queues { SaysWaiting result.0 → self.now.shape.response ≡ Queue }
        ensures logs { Logs K.level pass.token.pass.knows.trace pass.token.pass.number (hand_of K.level.sizes pass.hash) pass.cost result.0 result.1 }
    {
        let Pass {
            mut pass,
            hash,
            cost,
        } = pass;
        let (begun, event) = self.arrive_with_event(rt, &mut pass, hash, cost);
        (begun.with_entered(pass, event.is_some()), event)
    }

    /// Reads the decision of a request that waits, by one load. One that is cancelled leaves its queue, and then
    /// others are dispatched.
    pub fn poll<R: Wait>(&self, rt: &R, waiting: Waiting) -> Poll
        requires own { pass_gate waiting ≡ K.level.gate }
        ensures same { IsOf waiting (polled_pass result) }
        ensures answer { Polls waiting.pass result }
    {
        let Waiting { mut pass } = waiting;
        match self.read_decision(rt, &mut pass) {
            Begun::Run => Poll::Run(Running {
                pass,
                entered: true,
            }),
            Begun::Over(decision) => Poll::Over(Done { pass }, decision),
            Begun::Waits => Poll::Still(Waiting { pass }),
        }
    }

    /// The request arrives, and its caller waits until it is decided. After some readings it sleeps; a
    /// dispatch or a cancel by any thread wakes it.
    pub fn admit<R: Wait>(&self, rt: &R, pass: Pass) -> Admit
        requires own { pass_gate pass.token ≡ K.level.gate }
        ensures same { IsOf pass.token (admitted_pass result) }
        ensures goes_on { TraceGoesOn pass.token (admitted_pass result) }
        ensures told { IsAdmittedTold result }
        ensures logs { (event : Option LifeEvent) × Logs K.level pass.token.pass.knows.trace pass.token.pass.number (hand_of K.level.sizes pass.hash) pass.cost (begun_of result) event }
    {
        let Pass {
            mut pass,
            hash,
            cost,
        } = pass;
        let (begun, entered) = self.arrive_and_wait(rt, &mut pass, hash, cost);
        match begun {
            Begun::Run => Admit::Run(Running { pass, entered }),
            Begun::Over(decision) => Admit::Over(Done { pass }, decision),
            Begun::Waits => unreachable!(),
        }
    }

    /// The request arrives, of a flow with this hash, and its dispatch is charged this cost: it takes its seats,
    /// or enters a queue, or is decided otherwise. On a level without queues it never waits. Says also, of one that executes,
    /// whether it entered a queue. The slot's Pass stays in its place, that of a request that executes, is over or waits, by
    /// the answer.
    ///
    /// It takes the lock only where requests wait or it does not fit, or to dispatch where its decision was
    /// lost and requests waited when its seats were given back. Its hand of queues is dealt before the lock.
    #[inline]
    pub fn arrive<R: Wait>(
        &self,
        rt: &R,
        pass: &mut apf_gate::Pass,
        hash: u64,
        cost: u32,
    ) -> (Begun, bool)
        requires fresh { IsFreshPass K.level.gate pass.old }
        requires some_cost { 1 ≤ cost }
        requires low_cost { cost ≤ max_cost }
        requires asked { asked_in pass.old.pass.knows.trace pass.old.pass.number ≡ Some (record { hash = hash; cost = cost }) }
        ensures left { IsLeftBy result.0 pass.new }
        ensures goes_on { TraceGoesOn pass.old pass.new }
        ensures after { AfterBegin pass.old (begin_of result.0 pass.new) }
        ensures queues { SaysWaiting (begin_of result.0 pass.new) → self.now.shape.response ≡ Queue }
        ensures entered { HasEnteredIf result.0 result.1 pass.new }
        ensures logs { (event : Option LifeEvent) × Logs K.level pass.old.pass.knows.trace pass.old.pass.number (hand_of K.level.sizes hash) cost (begin_of result.0 pass.new) event }
    {
        let (begun, event) = self.arrive_with_event(rt, pass, hash, cost);
        (begun, event.is_some())
    }

    /// As `arrive`. Answers the event that the history got by the arrival: the request's Enter or Full, which name its
    /// queue, or none, of a request that took its seats or was decided without a queue.
    #[inline(always)]
    pub fn arrive_with_event<R: Wait>(
        &self,
        rt: &R,
        pass: &mut apf_gate::Pass,
        hash: u64,
        cost: u32,
    ) -> (Begun, Option<LifeEvent>)
        requires fresh { IsFreshPass K.level.gate pass.old }
        requires some_cost { 1 ≤ cost }
        requires low_cost { cost ≤ max_cost }
        requires asked { asked_in pass.old.pass.knows.trace pass.old.pass.number ≡ Some (record { hash = hash; cost = cost }) }
        ensures left { IsLeftBy result.0 pass.new }
        ensures goes_on { TraceGoesOn pass.old pass.new }
        ensures after { AfterBegin pass.old (begin_of result.0 pass.new) }
        ensures queues { SaysWaiting (begin_of result.0 pass.new) → self.now.shape.response ≡ Queue }
        ensures logs { Logs K.level pass.old.pass.knows.trace pass.old.pass.number (hand_of K.level.sizes hash) cost (begin_of result.0 pass.new) result.1 }
    {
        let (tried, owes) = self.attempt(pass);
        self.dispatch_if_owed(rt, owes);
        match tried {
            Tried::Run => (Begun::Run, None),
            Tried::Over(decision, _waiting) => (Begun::Over(decision), None),
            Tried::Blocked | Tried::Raced => self.arrive_late(rt, pass, hash, cost),
        }
    }

    // The request, which did not take its seats at once, arrives: it tries again, until it loses no exchange.
    #[inline(never)]
    fn arrive_late<R: Wait>(
        &self,
        rt: &R,
        pass: &mut apf_gate::Pass,
        hash: u64,
        cost: u32,
    ) -> (Begun, Option<LifeEvent>)
        requires fresh { IsFreshPass K.level.gate pass.old }
        requires some_cost { 1 ≤ cost }
        requires low_cost { cost ≤ max_cost }
        requires asked { asked_in pass.old.pass.knows.trace pass.old.pass.number ≡ Some (record { hash = hash; cost = cost }) }
        ensures left { IsLeftBy result.0 pass.new }
        ensures goes_on { TraceGoesOn pass.old pass.new }
        ensures after { AfterBegin pass.old (begin_of result.0 pass.new) }
        ensures queues { SaysWaiting (begin_of result.0 pass.new) → self.now.shape.response ≡ Queue }
        ensures logs { Logs K.level pass.old.pass.knows.trace pass.old.pass.number (hand_of K.level.sizes hash) cost (begin_of result.0 pass.new) result.1 }
    {
        let (mut tried, owes) = self.attempt(pass);
        self.dispatch_if_owed(rt, owes);
        for _ in rt.forever() {
            match tried {
                Tried::Run => return (Begun::Run, None),
                Tried::Over(decision, _waiting) => return (Begun::Over(decision), None),
                Tried::Blocked => match &self.shared {
                    Shared::Queued(queued) => {
                        return self.enqueue(rt, queued, pass, hash, cost);
                    }
                    // without queues a request is busy after a lost exchange alone
                    Shared::Unqueued(_unqueued) => {}
                },
                Tried::Raced => {}
            }
            let (again, owes) = self.take(pass);
            self.dispatch_if_owed(rt, owes);
            tried = again;
        }
        unreachable!()
    }

    // The request asks, and arrives under the lock.
    fn enqueue<R: Wait>(
        &self,
        rt: &R,
        queued: &QueuedLock<K>,
        pass: &mut apf_gate::Pass,
        hash: u64,
        cost: u32,
    ) -> (Begun, Option<LifeEvent>)
        requires fresh { IsFreshPass K.level.gate pass.old }
        requires some_cost { 1 ≤ cost }
        requires low_cost { cost ≤ max_cost }
        requires asked { asked_in pass.old.pass.knows.trace pass.old.pass.number ≡ Some (record { hash = hash; cost = cost }) }
        ensures left { IsLeftBy result.0 pass.new }
        ensures goes_on { TraceGoesOn pass.old pass.new }
        ensures after { AfterBegin pass.old (begin_of result.0 pass.new) }
        ensures logs { LogsInLine K.level pass.old.pass.knows.trace pass.old.pass.number (hand_of K.level.sizes hash) cost (begin_of result.0 pass.new) result.1 }
        ensures queues { self.now.shape.response ≡ Queue }
    {
        self.gate.ask(pass);
        let hand = queued.dealer.deal(hash);
        let ticket = pass.ticket();
        let enqueued = queued
            .lock
            .lock(rt)
            .arrive(rt, &self.gate, pass, hand.as_slice(), cost);
        match enqueued {
            Enqueued::Entered(queue) => {
                let begun = self.read_decision(rt, pass);
                (begun, Some(LifeEvent::Enter(ticket, queue)))
            }
            Enqueued::Full(queue) => (
                Begun::Over(Decision::QueueFull),
                Some(LifeEvent::Full(ticket, queue)),
            ),
            Enqueued::Over(decision) => (Begun::Over(decision), None),
        }
    }

    /// Reads the decision of a request that waits, by one load. One that is cancelled leaves its queue, and then
    /// others are dispatched. The slot's Pass stays in its place, that of a request that executes, is over or
    /// still waits, by the answer.
    pub fn read_decision<R: Wait>(&self, rt: &R, pass: &mut apf_gate::Pass) -> Begun
        requires own { pass_gate pass.old ≡ K.level.gate }
        requires waits { IsInLine pass.old }
        ensures left { IsLeftBy result pass.new }
        ensures same { IsOf pass.old pass.new }
        ensures goes_on { TraceGoesOn pass.old pass.new }
        ensures answer { Polls pass.old.pass (poll_of result pass.new) }
    {
        match self.gate.told(pass) {
            None => Begun::Waits,
            Some(Decision::Execute) => Begun::Run,
            Some(decision) => {
                self.shared.withdraw(rt, &self.gate, pass);
                Begun::Over(decision)
            }
        }
    }

    /// The request arrives, of a flow with this hash, and its dispatch is charged this cost. Its caller waits
    /// until it is decided: it executes, or is over. Says also whether it entered a queue. After some readings the caller
    /// sleeps; a dispatch or a cancel by any thread wakes it. The slot's Pass stays in its place.
    pub fn arrive_and_wait<R: Wait>(
        &self,
        rt: &R,
        pass: &mut apf_gate::Pass,
        hash: u64,
        cost: u32,
    ) -> (Begun, bool)
        requires fresh { IsFreshPass K.level.gate pass.old }
        requires some_cost { 1 ≤ cost }
        requires low_cost { cost ≤ max_cost }
        requires asked { asked_in pass.old.pass.knows.trace pass.old.pass.number ≡ Some (record { hash = hash; cost = cost }) }
        ensures left { IsLeftBy result.0 pass.new }
        ensures same { IsOf pass.old pass.new }
        ensures goes_on { TraceGoesOn pass.old pass.new }
        ensures told { IsDecided result.0 pass.new }
        ensures entered { HasEnteredIf result.0 result.1 pass.new }
        ensures logs { (event : Option LifeEvent) × Logs K.level pass.old.pass.knows.trace pass.old.pass.number (hand_of K.level.sizes hash) cost (begin_of result.0 pass.new) event }
    {
        let (begun, entered) = self.arrive(rt, pass, hash, cost);
        match begun {
            Begun::Run => return (Begun::Run, entered),
            Begun::Over(decision) => return (Begun::Over(decision), entered),
            Begun::Waits => {}
        }
        let mut readings = 0;
        for _ in rt.forever() {
            match self.read_decision(rt, pass) {
                Begun::Run => return (Begun::Run, true),
                Begun::Over(decision) => return (Begun::Over(decision), true),
                Begun::Waits => {}
            }
            if readings < READINGS_AWAKE {
                readings += 1;
                if readings == READINGS_AWAKE {
                    self.shared.will_sleep(rt, pass.ticket());
                }
                hint::spin_loop();
            } else {
                self.gate.park(rt, pass.ticket().number);
            }
        }
        unreachable!()
    }
}
