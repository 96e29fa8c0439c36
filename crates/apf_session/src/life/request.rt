//! A slot of a level, whose requests come one after another.

ghost use Rattle.std.specs.Prelude.{◌≡◌, ◌≢◌, ◌≤◌, Option, Some};
ghost use Rattle.apf_book.specs.declared.life_event.LifeEvent.{LifeEvent};
ghost use Rattle.apf_words.specs.Limits.{max_cost, max_width};
ghost use Rattle.apf_words.specs.declared.decision.Decision.TheVariants.{Execute};
ghost use Rattle.apf_gate.specs.Records.{told_own};
ghost use Rattle.apf_gate.specs.Slots.{IsTicket};
ghost use Rattle.apf_gate.specs.Tokens.{pass_gate};
ghost use Rattle.apf_level.specs.LifeArrivals.{TraceGoesOn};
ghost use Rattle.apf_session.specs.declared.life.answer.Answer.TheVariants as answers;
ghost use Rattle.apf_session.specs.declared.life.answer.Place.TheVariants as places;
ghost use Rattle.apf_session.specs.declared.life.token.Token.TheVariants as tokens;
ghost use Rattle.apf_session.specs.LifeRequests.{number_in, place_of, Answers, Arrives, Tries, TriesAs, Polls, LogsFor, ReleasesAs, FinishesAs, owed_by};

use crate::life::answer::{Answer, Place};
use apf_book::LifeEvent;
use apf_gate::Ticket;
use apf_level::Owing;
use apf_level::life::{Begun, Done, Level, Naming, Owes, Poll, Running, Tried, Waiting};
use apf_model::Ask;
use std::marker::{Model, PhantomData};
use std::sync::Wait;

/// A slot of the level that K names, for one request after another. It must be spent, by `end`.
pub struct Request<K: Naming> {
    pass: apf_gate::Pass,
    place: Place,
    // Of one that executes: whether it was dispatched from a queue. Else it took its seats on arrival.
    entered: bool,
    of: PhantomData<K>,
}

impl<K: Naming> Model for Request<K> {
    ghost use Rattle.apf_session.specs.declared.life.token.Token.{Token};
    ghost use Rattle.apf_session.specs.LifeRequests.{token_at, IsPlacedOf};

    ghost Value = { Token };

    ghost view = { λ r. token_at r.place r.pass };

    ghost invariant = { λ r. IsPlacedOf K.level r.place r.entered r.pass };
}

/// Gives the seats back, and dispatches if requests wait.
pub fn release<K: Naming, R: Wait>(rt: &R, level: &Level<K>, running: Running) -> Done
    requires { pass_gate running ≡ K.level.gate }
    ensures own { pass_gate result ≡ K.level.gate }
    ensures same { result.pass.number ≡ running.pass.number }
    ensures goes_on { TraceGoesOn running result }
    ensures told { told_own result.pass ≡ Some Execute }
{
    let (done, owes) = level.release(running);
    level.dispatch_if_owed(rt, owes);
    done
}

// Waits until the request is decided, and gives its seats back.
fn wait<K: Naming, R: Wait>(rt: &R, level: &Level<K>, mut waiting: Waiting) -> Done
    requires { pass_gate waiting ≡ K.level.gate }
    ensures own { pass_gate result ≡ K.level.gate }
    ensures same { result.pass.number ≡ waiting.pass.number }
{
    for _ in rt.forever() {
        waiting = match level.poll(rt, waiting) {
            Poll::Run(running) => return release(rt, level, running),
            Poll::Over(done, _decision) => return done,
            Poll::Still(waiting) => waiting,
        };
    }
    unreachable!()
}

impl<K: Naming> Request<K> {
    /// A free slot.
    pub fn new(slot: Done) -> Request<K>
        requires own { pass_gate slot ≡ K.level.gate }
        ensures free { result ≡ tokens.Free slot }
    {
        Request {
            pass: slot.into_pass(),
            place: Place::Free,
            entered: false,
            of: PhantomData,
        }
    }

    /// What names the slot's newest request for ever.
    pub fn ticket(&self) -> Ticket
        ensures number { result.number ≡ number_in self.now }
        ensures is_ticket { IsTicket K.level.gate.shape result.number }
    {
        self.pass.ticket()
    }

    /// Where the slot's request is.
    pub fn place(&self) -> Place
        ensures { result ≡ place_of self.now }
    {
        self.place
    }

    /// The next request of a free slot arrives, which asks for this: it takes its seats, or enters a queue, or is
    /// decided otherwise. Its dispatch is charged its width. Answers `Run`, `Waits` or `Over`, or `Spent`.
    #[inline]
    pub fn arrive<R: Wait>(&mut self, rt: &R, level: &Level<K>, ask: Ask) -> Answer
        requires some_width { 1 ≤ ask.width }
        requires narrow { ask.width ≤ max_width }
        ensures arrives { Arrives K.level ask.width self.old result self.new }
        ensures logs { (event : Option LifeEvent) × LogsFor K.level self.new ask.hash ask.width result event }
    {
        let (answer, _event) = self.arrive_with_cost(rt, level, ask, ask.width);
        answer
    }

    /// As `arrive`. Answers also the event that the history got by the arrival: the request's Enter or Full, which name its
    /// queue, or none.
    #[inline]
    pub fn arrive_with_event<R: Wait>(
        &mut self,
        rt: &R,
        level: &Level<K>,
        ask: Ask,
    ) -> (Answer, Option<LifeEvent>)
        requires some_width { 1 ≤ ask.width }
        requires narrow { ask.width ≤ max_width }
        ensures arrives { Arrives K.level ask.width self.old result.0 self.new }
        ensures logs { LogsFor K.level self.new ask.hash ask.width result.0 result.1 }
    {
        self.arrive_with_cost(rt, level, ask, ask.width)
    }

    /// As `arrive_with_event`, but its dispatch is charged this cost, of 1 to 4,294,967,295 in a unit of the caller's.
    #[inline(always)]
    pub fn arrive_with_cost<R: Wait>(
        &mut self,
        rt: &R,
        level: &Level<K>,
        ask: Ask,
        cost: u32,
    ) -> (Answer, Option<LifeEvent>)
        requires some_width { 1 ≤ ask.width }
        requires narrow { ask.width ≤ max_width }
        requires some_cost { 1 ≤ cost }
        requires low_cost { cost ≤ max_cost }
        ensures arrives { Arrives K.level ask.width self.old result.0 self.new }
        ensures logs { LogsFor K.level self.new ask.hash cost result.0 result.1 }
    {
        if self.place != Place::Free {
            return (Answer::Wrong, None);
        }
        if !level.renew_slot(&mut self.pass, ask, cost) {
            return (Answer::Spent, None);
        }
        let (begun, event) = level.arrive_with_event(rt, &mut self.pass, ask.hash, cost);
        self.entered = event.is_some();
        match begun {
            Begun::Run => {
                self.place = Place::Runs;
                (Answer::Run, event)
            }
            Begun::Over(decision) => {
                self.place = Place::Free;
                (Answer::Over(decision), event)
            }
            Begun::Waits => {
                self.place = Place::Waits;
                (Answer::Waits, event)
            }
        }
    }

    /// The next request of a free slot arrives, which asks for this, and its caller sleeps until it is decided. Answers
    /// `Run` or `Over`, or `Spent`.
    pub fn admit<R: Wait>(&mut self, rt: &R, level: &Level<K>, ask: Ask) -> Answer
        requires some_width { 1 ≤ ask.width }
        requires narrow { ask.width ≤ max_width }
        ensures arrives { Arrives K.level ask.width self.old result self.new }
        ensures logs { (event : Option LifeEvent) × LogsFor K.level self.new ask.hash ask.width result event }
        ensures decided { result ≢ answers.Waits }
    {
        if self.place != Place::Free {
            return Answer::Wrong;
        }
        if !level.renew_slot(&mut self.pass, ask, ask.width) {
            return Answer::Spent;
        }
        let (begun, entered) = level.arrive_and_wait(rt, &mut self.pass, ask.hash, ask.width);
        self.entered = entered;
        match begun {
            Begun::Run => {
                self.place = Place::Runs;
                Answer::Run
            }
            Begun::Over(decision) => {
                self.place = Place::Free;
                Answer::Over(decision)
            }
            Begun::Waits => unreachable!(),
        }
    }

    /// The next request of a free slot, which asks for this, is admitted, if nobody waits and it fits. It takes no lock,
    /// and never enters a queue. Answers `Run`, `Tried` or `Busy`, or `Spent`. Where requests waited when its seats were
    /// given back, a dispatch is owed.
    #[inline]
    pub fn try_arrive(&mut self, level: &Level<K>, ask: Ask) -> (Answer, Owes<K>)
        requires some_width { 1 ≤ ask.width }
        requires narrow { ask.width ≤ max_width }
        ensures tries { Tries K.level ask.width self.old result.0 self.new }
        ensures steps { TriesAs ask.width ask.hash self.old result.0 self.new }
        ensures owes { result.1 ≡ owed_by result.0 }
    {
        if self.place != Place::Free {
            return (Answer::Wrong, Owing::nothing());
        }
        if !level.renew_slot(&mut self.pass, ask, ask.width) {
            return (Answer::Spent, Owing::nothing());
        }
        self.entered = false;
        let (tried, owes) = level.attempt(&mut self.pass);
        match tried {
            Tried::Run => {
                self.place = Place::Runs;
                (Answer::Run, owes)
            }
            Tried::Over(decision, waiting) => {
                self.place = Place::Free;
                (Answer::Tried(decision, waiting), owes)
            }
            Tried::Blocked | Tried::Raced => (Answer::Busy, owes),
        }
    }

    /// Reads the decision of a request that waits. One that is cancelled leaves its queue. Answers `Run`, `Waits` or
    /// `Over`.
    pub fn poll<R: Wait>(&mut self, rt: &R, level: &Level<K>) -> Answer
        ensures polls { Polls self.old result self.new }
    {
        if self.place != Place::Waits {
            return Answer::Wrong;
        }
        match level.read_decision(rt, &mut self.pass) {
            Begun::Run => {
                self.entered = true;
                self.place = Place::Runs;
                Answer::Run
            }
            Begun::Over(decision) => {
                self.place = Place::Free;
                Answer::Over(decision)
            }
            Begun::Waits => Answer::Waits,
        }
    }

    /// A request that executes gives its seats back, by one step. Answers `Released`. Where requests waited then, a
    /// dispatch is owed.
    #[inline]
    pub fn release(&mut self, level: &Level<K>) -> (Answer, Owes<K>)
        ensures answers { Answers places.Runs self.old result.0 self.new }
        ensures steps { ReleasesAs self.old result.0 self.new }
        ensures owes { result.1 ≡ owed_by result.0 }
    {
        if self.place != Place::Runs {
            return (Answer::Wrong, Owing::nothing());
        }
        let owes = level.give_back(&mut self.pass);
        self.place = Place::Free;
        (Answer::Released(owes.waits()), owes)
    }

    /// A request that executes gives its seats back. Then requests that wait are dispatched. Answers `Released`.
    #[inline]
    pub fn finish<R: Wait>(&mut self, rt: &R, level: &Level<K>) -> Answer
        ensures answers { Answers places.Runs self.old result self.new }
        ensures steps { ReleasesAs self.old result self.new }
    {
        let (answer, owes) = self.release(level);
        level.dispatch_if_owed(rt, owes);
        answer
    }

    /// As `finish`, of a request that ran this many microseconds. If it was dispatched from a queue, what it took is settled
    /// before its seats go back, on a level that was opened by `open_settling`: its queue is charged its width times this
    /// time, 1 to 2^46 microseconds of a seat, in place of what it was charged for it. A request that took its seats on
    /// arrival was never charged.
    pub fn finish_measured<R: Wait>(&mut self, rt: &R, level: &Level<K>, micros: u64) -> Answer
        ensures answers { Answers places.Runs self.old result self.new }
        ensures steps { FinishesAs self.old result self.new }
    {
        if self.place != Place::Runs {
            return Answer::Wrong;
        }
        let owes = level.give_back_measured(rt, &mut self.pass, self.entered, micros);
        let waiting = owes.waits();
        self.place = Place::Free;
        level.dispatch_if_owed(rt, owes);
        Answer::Released(waiting)
    }

    /// Brings its request to its end: its caller waits until it is decided, and it gives its seats back. Then requests
    /// that wait are dispatched.
    pub fn end<R: Wait>(self, rt: &R, level: &Level<K>) -> Done
        ensures own { pass_gate result ≡ K.level.gate }
        ensures number { result.pass.number ≡ number_in self }
    {
        let Request {
            mut pass,
            place,
            entered: _,
            of: _,
        } = self;
        match place {
            Place::Free => Done::of(pass),
            Place::Waits => wait(rt, level, Waiting::of(pass)),
            Place::Runs => {
                let owes = level.give_back(&mut pass);
                level.dispatch_if_owed(rt, owes);
                Done::of(pass)
            }
        }
    }
}
