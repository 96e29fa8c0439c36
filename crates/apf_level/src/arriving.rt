//! The arrival of a request, and its wait.

ghost use Rattle.std.specs.Prelude.{◌≡◌, Option};
ghost use Rattle.apf_history.specs.declared.events.Event.{Event};
ghost use Rattle.apf_model.specs.declared.response.Response.TheVariants.{Queue};
ghost use Rattle.apf_gate.specs.Tokens.{pass_gate};
ghost use Rattle.apf_line.specs.Tokens.{IsOf};
ghost use Rattle.apf_level.specs.Tokens.{IsInLine};
ghost use Rattle.apf_level.specs.InPlace.{begin_of, poll_of, IsLeftBy, SaysWaits, IsDecided};
ghost use Rattle.apf_level.specs.Admission.{polled_pass, admitted_pass, IsAdmittedTold, SaysWaiting, Polls, IsNotExecuted};
ghost use Rattle.apf_level.specs.Arrivals.{Logs};
ghost use Rattle.apf_line.specs.Attempts.{IsFreshPass};
ghost use Rattle.apf_level.specs.LevelCalls.{AfterBegin};

use crate::answers::{Admit, Begin, Begun, Enqueued, Poll, Tried};
use crate::level::Level;
use crate::naming::Naming;
use crate::queued::QueuedLock;
use crate::shared::Shared;
use crate::tokens::{Done, Running, Waiting};
use apf_gate::Pass;
use apf_model::Event;
use apf_words::Decision;
use std::hint;
use std::sync::Wait;

// How many times a decision is read before its reader sleeps.
const READINGS_AWAKE: u32 = 100;

impl<K: Naming> Level<K> {
    /// The request arrives: it takes its seats, or enters a queue, or is decided otherwise. On a level without
    /// queues it never waits.
    ///
    /// It takes the lock only where requests wait or it does not fit, or to dispatch where its decision was
    /// lost and requests waited when its seats were given back.
    pub fn begin<R: Wait>(&self, rt: &R, mut pass: Pass) -> Begin
        requires { IsFreshPass K.level.gate pass }
        ensures after { AfterBegin pass result }
        ensures queues { SaysWaiting result → self.now.gate.shape.response ≡ Queue }
    {
        self.arrive(rt, &mut pass).with(pass)
    }

    /// As `begin`. Answers also the event that the log got by the arrival: the request's Enter or Full, which
    /// name its queue, or none, of a request that took its seats or was decided without a queue.
    pub fn begin_with_event<R: Wait>(&self, rt: &R, mut pass: Pass) -> (Begin, Option<Event>)
        requires { IsFreshPass K.level.gate pass }
        ensures after { AfterBegin pass result.0 }
        ensures queues { SaysWaiting result.0 → self.now.gate.shape.response ≡ Queue }
        ensures logs { Logs K.level pass.pass.number result.0 result.1 }
    {
        let (begun, event) = self.arrive_with_event(rt, &mut pass);
        (begun.with(pass), event)
    }

    /// Reads the decision of a request that waits, by one load. One that is cancelled is struck, and then
    /// others are dispatched.
    pub fn poll<R: Wait>(&self, rt: &R, waiting: Waiting) -> Poll
        requires own { pass_gate waiting ≡ K.level.gate }
        ensures same { IsOf waiting (polled_pass result) }
        ensures answer { Polls waiting.pass result }
        ensures not_executed { IsNotExecuted result }
    {
        let Waiting { mut pass } = waiting;
        match self.read_decision(rt, &mut pass) {
            Begun::Run => Poll::Run(Running { pass }),
            Begun::Over(decision) => Poll::Over(Done { pass }, decision),
            Begun::Waits => Poll::Still(Waiting { pass }),
        }
    }

    /// The request arrives, and its caller waits until it is decided. After some readings it sleeps; a
    /// dispatch or a cancel by any thread wakes it.
    pub fn admit<R: Wait>(&self, rt: &R, mut pass: Pass) -> Admit
        requires { IsFreshPass K.level.gate pass }
        ensures same { IsOf pass (admitted_pass result) }
        ensures told { IsAdmittedTold result }
    {
        match self.arrive_and_wait(rt, &mut pass) {
            Begun::Run => Admit::Run(Running { pass }),
            Begun::Over(decision) => Admit::Over(Done { pass }, decision),
            Begun::Waits => unreachable!(),
        }
    }

    /// The request arrives: it takes its seats, or enters a queue, or is decided otherwise. On a level without
    /// queues it never waits. The Pass stays in its place, that of a request that executes, is over or waits, by the answer.
    ///
    /// It takes the lock only where requests wait or it does not fit, or to dispatch where its decision was
    /// lost and requests waited when its seats were given back.
    #[inline]
    pub fn arrive<R: Wait>(&self, rt: &R, pass: &mut Pass) -> Begun
        requires { IsFreshPass K.level.gate pass.old }
        ensures left { IsLeftBy result pass.new }
        ensures after { AfterBegin pass.old (begin_of result pass.new) }
        ensures queues { SaysWaits result → self.now.gate.shape.response ≡ Queue }
        ensures logs { (event : Option Event) × Logs K.level pass.old.pass.number (begin_of result pass.new) event }
    {
        let (begun, _event) = self.arrive_with_event(rt, pass);
        begun
    }

    /// As `arrive`. Answers also the event that the log got by the arrival: the request's Enter or Full, which name its
    /// queue, or none, of a request that took its seats or was decided without a queue.
    #[inline(always)]
    pub fn arrive_with_event<R: Wait>(&self, rt: &R, pass: &mut Pass) -> (Begun, Option<Event>)
        requires { IsFreshPass K.level.gate pass.old }
        ensures left { IsLeftBy result.0 pass.new }
        ensures after { AfterBegin pass.old (begin_of result.0 pass.new) }
        ensures queues { SaysWaits result.0 → self.now.gate.shape.response ≡ Queue }
        ensures logs { Logs K.level pass.old.pass.number (begin_of result.0 pass.new) result.1 }
    {
        let (tried, owes) = self.attempt(pass);
        self.dispatch_if_owed(rt, owes);
        match tried {
            Tried::Run => (Begun::Run, None),
            Tried::Over(decision, _waiting) => (Begun::Over(decision), None),
            Tried::Blocked | Tried::Raced => self.arrive_late(rt, pass),
        }
    }

    // The request, which did not take its seats at once, arrives: it tries again, until it loses no exchange.
    #[inline(never)]
    fn arrive_late<R: Wait>(&self, rt: &R, pass: &mut Pass) -> (Begun, Option<Event>)
        requires { IsFreshPass K.level.gate pass.old }
        ensures left { IsLeftBy result.0 pass.new }
        ensures after { AfterBegin pass.old (begin_of result.0 pass.new) }
        ensures queues { SaysWaits result.0 → self.now.gate.shape.response ≡ Queue }
        ensures logs { Logs K.level pass.old.pass.number (begin_of result.0 pass.new) result.1 }
    {
        let (mut tried, owes) = self.attempt(pass);
        self.dispatch_if_owed(rt, owes);
        for _ in rt.forever() {
            match tried {
                Tried::Run => return (Begun::Run, None),
                Tried::Over(decision, _waiting) => return (Begun::Over(decision), None),
                Tried::Blocked => match &self.shared {
                    Shared::Queued(queued) => return self.enqueue(rt, queued, pass),
                    // without queues a request is busy after a lost exchange alone
                    Shared::Unqueued(_unqueued) => {}
                },
                Tried::Raced => {}
            }
            let (again, owes) = self.take(pass);
            self.dispatch_if_owed(rt, owes);
            tried = again;
        }
        unreachable!()
    }

    // The request asks, and arrives under the lock.
    fn enqueue<R: Wait>(
        &self,
        rt: &R,
        queued: &QueuedLock<K>,
        pass: &mut Pass,
    ) -> (Begun, Option<Event>)
        requires { IsFreshPass K.level.gate pass.old }
        ensures left { IsLeftBy result.0 pass.new }
        ensures after { AfterBegin pass.old (begin_of result.0 pass.new) }
        ensures logs { Logs K.level pass.old.pass.number (begin_of result.0 pass.new) result.1 }
        ensures queues { self.now.gate.shape.response ≡ Queue }
    {
        self.gate.ask(pass);
        let request = self.number(pass);
        let enqueued = queued.lock.lock(rt).arrive(rt, &self.gate, pass);
        match enqueued {
            Enqueued::Entered(queue) => {
                let begun = self.read_decision(rt, pass);
                (begun, Some(Event::Enter(request, queue)))
            }
            Enqueued::Full(queue) => (
                Begun::Over(Decision::QueueFull),
                Some(Event::Full(request, queue)),
            ),
            Enqueued::Over(decision) => (Begun::Over(decision), None),
        }
    }

    /// Reads the decision of a request that waits, by one load. One that is cancelled is struck, and then
    /// others are dispatched. The Pass stays in its place, that of a request that executes, is over or still
    /// waits, by the answer.
    pub fn read_decision<R: Wait>(&self, rt: &R, pass: &mut Pass) -> Begun
        requires own { pass_gate pass.old ≡ K.level.gate }
        requires waits { IsInLine pass.old }
        ensures left { IsLeftBy result pass.new }
        ensures same { IsOf pass.old pass.new }
        ensures answer { Polls pass.old.pass (poll_of result pass.new) }
        ensures not_executed { IsNotExecuted (poll_of result pass.new) }
    {
        match self.gate.told(pass) {
            None => Begun::Waits,
            Some(Decision::Execute) => Begun::Run,
            Some(Decision::Cancelled) => {
                let request = self.number(pass);
                self.lock(rt).strike(rt, request);
                Begun::Over(Decision::Cancelled)
            }
            Some(decision) => Begun::Over(decision),
        }
    }

    /// The request arrives, and its caller waits until it is decided: it executes, or is over. After some
    /// readings the caller sleeps; a dispatch or a cancel by any thread wakes it. The Pass stays in its place.
    pub fn arrive_and_wait<R: Wait>(&self, rt: &R, pass: &mut Pass) -> Begun
        requires { IsFreshPass K.level.gate pass.old }
        ensures left { IsLeftBy result pass.new }
        ensures same { IsOf pass.old pass.new }
        ensures told { IsDecided result pass.new }
    {
        match self.arrive(rt, pass) {
            Begun::Run => return Begun::Run,
            Begun::Over(decision) => return Begun::Over(decision),
            Begun::Waits => {}
        }
        let mut readings = 0;
        for _ in rt.forever() {
            match self.read_decision(rt, pass) {
                Begun::Run => return Begun::Run,
                Begun::Over(decision) => return Begun::Over(decision),
                Begun::Waits => {}
            }
            if readings < READINGS_AWAKE {
                readings += 1;
                if readings == READINGS_AWAKE {
                    self.shared.will_sleep(rt, self.number(pass));
                }
                hint::spin_loop();
            } else {
                self.gate.park(rt, pass.number());
            }
        }
        unreachable!()
    }
}
