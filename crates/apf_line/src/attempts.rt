//! The steps by which a request takes its seats, outside the lock, at the gate of any level.

ghost use Rattle.std.specs.Prelude.{◌≡◌, false};
ghost use Rattle.apf_gate.specs.Records.{KnowsMore};
ghost use Rattle.apf_line.specs.Attempts.{IsFreshPass, HasQueuesIf, IsKeptBy, AfterAttempt, Attempts, TakesOrDecides, Takes};

use apf_gate::{Gate, Pass, TryTake};
use apf_words::Decision;
use std::alloc::Global;

/// What became of an attempt to be admitted, and why it is busy. Its Pass stays in its place.
#[must_use]
#[derive(Clone, Copy, PartialEq, Eq)]
pub enum Tried {
    /// It executes.
    Run,
    /// It is decided so. Where the bool is true requests waited when its seats were given back, and a dispatch is owed.
    Over(Decision, bool),
    /// Requests wait, or it does not fit. Never on a level without queues.
    Blocked,
    /// The level word changed in between.
    Raced,
}

/// Admits the request, if nobody waits and it fits, and says why not where it is busy. The Pass stays in its place: it is
/// then that of a request that executes, is over, or is fresh as before, by the answer.
#[inline]
pub fn attempt(gate: &Gate<Global>, has_queues: bool, pass: &mut Pass) -> Tried
    requires fresh { IsFreshPass gate.now pass.old }
    requires queues { HasQueuesIf has_queues gate.now.shape.response }
    ensures kept { IsKeptBy result pass.new }
    ensures after { AfterAttempt pass.old result pass.new }
    ensures more { KnowsMore pass.old.pass.knows pass.new.pass.knows }
    ensures steps { Attempts pass.old.pass result pass.new }
    ensures never_entered { pass.old.pass.entered ≡ false }
{
    let _number = pass.number();
    if let Some(decision) = gate.told(pass) {
        return Tried::Over(decision, false);
    }
    take(gate, has_queues, pass)
}

/// Takes the seats, if nobody waits and they fit, and decides: what `attempt` does once it read that nothing is decided.
/// Seats that were taken while the request was cancelled are given back. At a gate without queues, a request that finds no
/// seats is rejected.
#[inline]
pub fn take(gate: &Gate<Global>, has_queues: bool, pass: &mut Pass) -> Tried
    requires fresh { IsFreshPass gate.now pass.old }
    requires queues { HasQueuesIf has_queues gate.now.shape.response }
    ensures kept { IsKeptBy result pass.new }
    ensures after { AfterAttempt pass.old result pass.new }
    ensures more { KnowsMore pass.old.pass.knows pass.new.pass.knows }
    ensures steps { TakesOrDecides pass.old.pass result pass.new }
    ensures takes { Takes pass.old.pass result pass.new.pass }
{
    match gate.try_take(pass) {
        TryTake::Taken => {
            let decision = gate.decide(pass, Decision::Execute);
            if decision == Decision::Execute {
                return Tried::Run;
            }
            let waiting = gate.release(pass);
            Tried::Over(decision, waiting)
        }
        TryTake::Closed => {
            let decision = gate.decide(pass, Decision::Closed);
            Tried::Over(decision, false)
        }
        TryTake::Waiters => Tried::Blocked,
        TryTake::NoRoom if has_queues => Tried::Blocked,
        TryTake::NoRoom => {
            let decision = gate.decide(pass, Decision::ConcurrencyLimit);
            Tried::Over(decision, false)
        }
        TryTake::Raced => Tried::Raced,
    }
}
