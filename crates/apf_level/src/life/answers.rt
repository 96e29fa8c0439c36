//! What the calls of a request answer.

ghost use Rattle.std.specs.Prelude.{◌≡◌};
ghost use Rattle.apf_level.specs.LifeInPlace.{begin_of, IsLeftBy, HasEnteredIf};

pub use crate::answers::{Begun, Enqueued, Tried};
use crate::life::tokens::{Done, Pass, Running, Waiting};
use apf_words::Decision;

/// What became of a slot that was to be used again.
#[must_use]
pub enum Renewed {
    /// Its next request is there.
    Fresh(Pass),
    /// Its numbers are used up: a slot is given 2^46 times. Nothing changed.
    Spent(Done),
}

/// What became of an attempt to be admitted.
#[must_use]
pub enum TryAdmit {
    /// It executes.
    Run(Running),
    /// It is decided so. Where the bool is true requests waited when its seats were given back, and a dispatch is
    /// owed.
    Over(Done, Decision, bool),
    /// Requests wait, it does not fit, or the level word changed in between. On a level without queues,
    /// the last alone.
    Busy(Pass),
}

impl Begun {
    /// The same of an arrival, with its Pass, whose request entered a queue or not.
    pub(crate) fn with_entered(self, pass: apf_gate::Pass, entered: bool) -> Begin
        requires left { IsLeftBy self pass }
        requires entered { HasEnteredIf self entered pass }
        ensures { result ≡ begin_of self pass }
    {
        match self {
            Begun::Run => Begin::Run(Running { pass, entered }),
            Begun::Over(decision) => Begin::Over(Done { pass }, decision),
            Begun::Waits => Begin::Waiting(Waiting { pass }),
        }
    }
}

/// What became of an arrival.
#[must_use]
pub enum Begin {
    /// It executes.
    Run(Running),
    /// It is decided so.
    Over(Done, Decision),
    /// It waits in a queue.
    Waiting(Waiting),
}

/// What was read of a request that waits.
#[must_use]
pub enum Poll {
    /// It executes.
    Run(Running),
    /// It is decided so.
    Over(Done, Decision),
    /// It is not decided.
    Still(Waiting),
}

/// What became of a request in the end.
#[must_use]
pub enum Admit {
    /// It executes.
    Run(Running),
    /// It is decided so.
    Over(Done, Decision),
}
