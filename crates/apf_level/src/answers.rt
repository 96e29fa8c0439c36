//! What the calls of a request answer.

ghost use Rattle.std.specs.Prelude.{◌≡◌};
ghost use Rattle.apf_level.specs.InPlace.{begin_of, IsLeftBy};

use crate::tokens::{Done, Running, Waiting};
use apf_gate::Pass;
pub use apf_line::attempts::Tried;
use apf_words::Decision;

/// What became of an attempt to be admitted.
#[must_use]
pub enum TryAdmit {
    /// It executes.
    Run(Running),
    /// It is decided so. Where the bool is true requests waited when its seats were given back, and the
    /// caller owes a dispatch.
    Over(Done, Decision, bool),
    /// Requests wait, it does not fit, or the level word changed in between. On a level without queues,
    /// the last alone.
    Busy(Pass),
}

/// What became of an arrival.
#[must_use]
pub enum Begin {
    /// It executes.
    Run(Running),
    /// It is decided so.
    Over(Done, Decision),
    /// It waits in a queue.
    Waiting(Waiting),
}

/// What became of an arrival, or was read of a request that waits. Its Pass stays in its place.
#[must_use]
#[derive(Clone, Copy, PartialEq, Eq)]
pub enum Begun {
    /// It executes.
    Run,
    /// It is decided so.
    Over(Decision),
    /// It waits.
    Waits,
}

impl Begun {
    /// The same of an arrival, with its Pass.
    pub(crate) fn with(self, pass: Pass) -> Begin
        requires { IsLeftBy self pass }
        ensures { result ≡ begin_of self pass }
    {
        match self {
            Begun::Run => Begin::Run(Running { pass }),
            Begun::Over(decision) => Begin::Over(Done { pass }, decision),
            Begun::Waits => Begin::Waiting(Waiting { pass }),
        }
    }
}

/// What became of an arrival under the lock.
#[must_use]
pub enum Enqueued {
    /// It entered this queue.
    Entered(u32),
    /// This queue was full: it is decided so.
    Full(u32),
    /// It is decided so, and no queue has to do with it.
    Over(Decision),
}

/// What was read of a request that waits.
#[must_use]
pub enum Poll {
    /// It executes.
    Run(Running),
    /// It is decided so.
    Over(Done, Decision),
    /// It is not decided.
    Still(Waiting),
}

/// What became of a request in the end.
#[must_use]
pub enum Admit {
    /// It executes.
    Run(Running),
    /// It is decided so.
    Over(Done, Decision),
}
