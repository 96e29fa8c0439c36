//! One request of a level, from its arrival to its end.

ghost use Rattle.std.specs.Prelude.{◌≡◌, ◌≢◌, ◌<◌, ◌≤◌, length, Some, None};
ghost use Rattle.apf_words.specs.Limits.{max_requests};
ghost use Rattle.apf_words.specs.declared.decision.Decision.TheVariants.{Execute};
ghost use Rattle.apf_gate.specs.declared.record.State.TheVariants as states;
ghost use Rattle.apf_gate.specs.Records.{told_own};
ghost use Rattle.apf_gate.specs.Tokens.{pass_gate};
ghost use Rattle.apf_session.specs.declared.answer.Place.TheVariants as places;
ghost use Rattle.apf_session.specs.Requests.{place_of, told_by, Answers, LogsFor, SaysWhere, TriesAs, ReadsAs, ReleasesAs, owed_by};

use crate::answer::{Answer, Place};
use apf_gate::Pass;
use apf_level::{Begun, Done, Level, Naming, Owes, Owing, Poll, Running, Tried, Waiting};
use apf_model::Event;
use std::marker::{Model, PhantomData};
use std::sync::Wait;

/// A request of the level that K names. It must be spent, by `end`.
pub struct Request<K: Naming> {
    pass: Pass,
    place: Place,
    of: PhantomData<K>,
}

impl<K: Naming> Model for Request<K> {
    ghost use Rattle.apf_session.specs.Requests.{RequestView, token_at, IsPlacedOf};

    ghost Value = { RequestView };

    ghost view = { λ r. record { number = r.pass.pass.number; token = token_at r.place r.pass } };

    ghost invariant = { λ r. IsPlacedOf K.level r.place r.pass };
}

/// Gives the seats back, and dispatches if requests wait.
pub fn release<K: Naming, R: Wait>(rt: &R, level: &Level<K>, running: Running) -> Done
    requires { pass_gate running ≡ K.level.gate }
    ensures own { pass_gate result ≡ K.level.gate }
    ensures same { result.pass.number ≡ running.pass.number }
    ensures told { told_own result.pass ≡ Some Execute }
{
    let (done, owes) = level.release_owing(running);
    level.dispatch_if_owed(rt, owes);
    done
}

// Waits until the request is decided, and gives its seats back.
fn wait<K: Naming, R: Wait>(rt: &R, level: &Level<K>, mut waiting: Waiting) -> Done
    requires { pass_gate waiting ≡ K.level.gate }
    ensures own { pass_gate result ≡ K.level.gate }
    ensures same { result.pass.number ≡ waiting.pass.number }
{
    for _ in rt.forever() {
        waiting = match level.poll(rt, waiting) {
            Poll::Run(running) => return release(rt, level, running),
            Poll::Over(done, _decision) => return done,
            Poll::Still(waiting) => waiting,
        };
    }
    unreachable!()
}

impl<K: Naming> Request<K> {
    /// A request that did not arrive yet.
    pub fn new(pass: Pass) -> Request<K>
        requires own { pass_gate pass ≡ K.level.gate }
        requires fresh { pass.pass.state ≡ states.Fresh }
        requires few { length K.level.gate.shape.widths ≤ max_requests }
        ensures number { result.number ≡ pass.pass.number }
        ensures away { place_of result.token ≡ places.Away }
    {
        Request {
            pass,
            place: Place::Away,
            of: PhantomData,
        }
    }

    /// The request's number, from 0.
    pub fn number(&self) -> u32
        ensures number { result ≡ self.now.number }
        ensures inside { result < length K.level.gate.shape.widths }
    {
        self.pass.number() as u32
    }

    /// Where it is on its way.
    pub fn place(&self) -> Place
        ensures { result ≡ place_of self.now.token }
    {
        self.place
    }

    /// Admits it, if nobody waits and it fits. It takes no lock. Answers `Run`, `Tried` or `Busy`. Where requests waited when
    /// its seats were given back, a dispatch is owed.
    #[inline]
    pub fn try_admit(&mut self, level: &Level<K>) -> (Answer, Owes<K>)
        ensures answers { Answers places.Away self.old result.0 self.new }
        ensures steps { TriesAs self.old.token result.0 self.new.token }
        ensures owes { result.1 ≡ owed_by result.0 }
    {
        if self.place != Place::Away {
            return (Answer::Wrong, Owing::nothing());
        }
        let (tried, owes) = level.attempt(&mut self.pass);
        match tried {
            Tried::Run => {
                self.place = Place::Runs;
                (Answer::Run, owes)
            }
            Tried::Over(decision, waiting) => {
                self.place = Place::Over;
                (Answer::Tried(decision, waiting), owes)
            }
            Tried::Blocked | Tried::Raced => (Answer::Busy, owes),
        }
    }

    /// It arrives: it takes its seats, or enters a queue, or is decided otherwise. Answers `Run`, `Waits` or `Over`.
    #[inline]
    pub fn begin<R: Wait>(&mut self, rt: &R, level: &Level<K>) -> Answer
        ensures answers { Answers places.Away self.old result self.new }
        ensures kind { SaysWhere result }
    {
        if self.place != Place::Away {
            return Answer::Wrong;
        }
        match level.arrive(rt, &mut self.pass) {
            Begun::Run => {
                self.place = Place::Runs;
                Answer::Run
            }
            Begun::Over(decision) => {
                self.place = Place::Over;
                Answer::Over(decision)
            }
            Begun::Waits => {
                self.place = Place::Waits;
                Answer::Waits
            }
        }
    }

    /// As `begin`. Answers also the event that the log got by the arrival: the request's Enter or Full, which name
    /// its queue, or none, of a request that took its seats or was decided without a queue.
    pub fn begin_with_event<R: Wait>(&mut self, rt: &R, level: &Level<K>) -> (Answer, Option<Event>)
        ensures answers { Answers places.Away self.old result.0 self.new }
        ensures kind { SaysWhere result.0 }
        ensures logs { LogsFor K.level self.old.number result.0 self.new.token result.1 }
    {
        if self.place != Place::Away {
            return (Answer::Wrong, None);
        }
        let (begun, event) = level.arrive_with_event(rt, &mut self.pass);
        match begun {
            Begun::Run => {
                self.place = Place::Runs;
                (Answer::Run, event)
            }
            Begun::Over(decision) => {
                self.place = Place::Over;
                (Answer::Over(decision), event)
            }
            Begun::Waits => {
                self.place = Place::Waits;
                (Answer::Waits, event)
            }
        }
    }

    /// It arrives, and its caller sleeps until it is decided. Answers `Run` or `Over`.
    pub fn admit<R: Wait>(&mut self, rt: &R, level: &Level<K>) -> Answer
        ensures answers { Answers places.Away self.old result self.new }
        ensures kind { SaysWhere result }
        ensures decided { result ≢ Answer.Waits }
    {
        if self.place != Place::Away {
            return Answer::Wrong;
        }
        match level.arrive_and_wait(rt, &mut self.pass) {
            Begun::Run => {
                self.place = Place::Runs;
                Answer::Run
            }
            Begun::Over(decision) => {
                self.place = Place::Over;
                Answer::Over(decision)
            }
            Begun::Waits => unreachable!(),
        }
    }

    /// Reads the decision of a request that waits. One that is cancelled is struck. Answers `Run`, `Waits` or `Over`.
    pub fn poll<R: Wait>(&mut self, rt: &R, level: &Level<K>) -> Answer
        ensures answers { Answers places.Waits self.old result self.new }
        ensures kind { SaysWhere result }
        ensures reads { ReadsAs self.old.token result self.new.token }
    {
        if self.place != Place::Waits {
            return Answer::Wrong;
        }
        match level.read_decision(rt, &mut self.pass) {
            Begun::Run => {
                self.place = Place::Runs;
                Answer::Run
            }
            Begun::Over(decision) => {
                self.place = Place::Over;
                Answer::Over(decision)
            }
            Begun::Waits => Answer::Waits,
        }
    }

    /// A request that executes gives its seats back, by one step. Answers `Released`. Where requests waited then, a dispatch
    /// is owed.
    #[inline]
    pub fn release(&mut self, level: &Level<K>) -> (Answer, Owes<K>)
        ensures answers { Answers places.Runs self.old result.0 self.new }
        ensures steps { ReleasesAs self.old.token result.0 self.new.token }
        ensures owes { result.1 ≡ owed_by result.0 }
    {
        if self.place != Place::Runs {
            return (Answer::Wrong, Owing::nothing());
        }
        let owes = level.give_back(&mut self.pass);
        self.place = Place::Over;
        (Answer::Released(owes.waits()), owes)
    }

    /// A request that executes gives its seats back. Then requests that wait are dispatched. Answers `Released`.
    #[inline]
    pub fn finish<R: Wait>(&mut self, rt: &R, level: &Level<K>) -> Answer
        ensures answers { Answers places.Runs self.old result self.new }
        ensures steps { ReleasesAs self.old.token result self.new.token }
    {
        let (answer, owes) = self.release(level);
        level.dispatch_if_owed(rt, owes);
        answer
    }

    /// Brings it to its end: it arrives if it did not, its caller waits until it is decided, and it gives its seats
    /// back. Then requests that wait are dispatched.
    pub fn end<R: Wait>(self, rt: &R, level: &Level<K>) -> Done
        ensures own { pass_gate result ≡ K.level.gate }
        ensures number { result.pass.number ≡ self.number }
        ensures told { told_by self.token ≢ None → told_own result.pass ≡ told_by self.token }
    {
        let Request {
            mut pass,
            place,
            of: _,
        } = self;
        match place {
            Place::Away => match level.arrive_and_wait(rt, &mut pass) {
                Begun::Run => release(rt, level, Running::of(pass)),
                Begun::Over(_decision) => Done::of(pass),
                Begun::Waits => unreachable!(),
            },
            Place::Waits => wait(rt, level, Waiting::of(pass)),
            Place::Runs => release(rt, level, Running::of(pass)),
            Place::Over => Done::of(pass),
        }
    }
}
