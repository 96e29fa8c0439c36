//! What a level's calls do under its lock, by its response.

ghost use Rattle.std.specs.Prelude.{◌≡◌, ◌≢◌, true, Some, None};
ghost use Rattle.apf_words.specs.declared.decision.Decision.TheVariants.{Execute, Cancelled};
ghost use Rattle.apf_gate.specs.Records.{told_own};
ghost use Rattle.apf_gate.specs.Slots.{IsTicket};
ghost use Rattle.apf_gate.specs.Tokens.{pass_gate};
ghost use Rattle.apf_line.specs.Tokens.{IsOf, IsInLine};
ghost use Rattle.apf_line.specs.Attempts.{HasQueuesIf};
ghost use Rattle.apf_level.specs.LifeArrivals.{TraceGoesOn};

use crate::life::naming::Naming;
use crate::life::queued::QueuedLock;
use crate::life::unqueued::UnqueuedLock;
use apf_gate::{Gate, Pass, Ticket};
use std::alloc::Global;
use std::sync::Wait;

/// The lock of a level with queues, or of one without.
#[derive(Drop)]
pub enum Shared<K: Naming> {
    Queued(QueuedLock<K>),
    Unqueued(UnqueuedLock<K>),
}

impl<K: Naming> Shared<K> {
    // Whether the level has queues.
    pub(crate) fn has_queues(&self) -> bool
        ensures { HasQueuesIf result K.level.gate.shape.response }
    {
        match self {
            Shared::Queued(_queued) => true,
            Shared::Unqueued(_unqueued) => false,
        }
    }

    /// The Pass's request, which was told that it does not execute, leaves its queue, and its Pass hears that.
    pub fn withdraw<R: Wait>(&self, rt: &R, gate: &Gate<Global>, pass: &mut Pass)
        requires own { gate.now ≡ K.level.gate }
        requires own_pass { pass_gate pass.old ≡ K.level.gate }
        requires waits { IsInLine pass.old }
        requires is_told { told_own pass.old.pass ≢ None }
        requires not_executed { told_own pass.old.pass ≢ Some Execute }
        ensures same { IsOf pass.old pass.new }
        ensures left { pass.new.pass.left ≡ true }
        ensures state { pass.new.pass.state ≡ pass.old.pass.state }
        ensures told { told_own pass.new.pass ≡ told_own pass.old.pass }
        ensures cancelled { told_own pass.new.pass ≡ Some Cancelled }
        ensures goes_on { TraceGoesOn pass.old pass.new }
    {
        match self {
            Shared::Queued(queued) => queued.lock.lock(rt).withdraw(rt, gate, pass),
            // nobody enters a queue of a level without queues
            Shared::Unqueued(_unqueued) => unreachable!(),
        }
    }

    /// Somebody may sleep from now on until the request is decided.
    pub fn will_sleep<R: Wait>(&self, rt: &R, request: Ticket)
        requires is_request { IsTicket K.level.gate.shape request.number }
    {
        match self {
            Shared::Queued(queued) => queued.lock.lock(rt).will_sleep(request),
            Shared::Unqueued(_unqueued) => {}
        }
    }
}
