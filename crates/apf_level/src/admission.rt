//! The steps of a request outside the lock.

ghost use Rattle.std.specs.Prelude.{◌≡◌, ◌<◌, ◌==◌, length, not, true, false, Some};
ghost use Rattle.apf_words.specs.Level.{Level as Word};
ghost use Rattle.apf_words.specs.Limits.{max_requests};
ghost use Rattle.apf_words.specs.declared.decision.Decision.TheVariants.{Execute};
ghost use Rattle.apf_gate.specs.Records.{told_own};
ghost use Rattle.apf_gate.specs.PassSteps.{PassSubtractsLevel};
ghost use Rattle.apf_gate.specs.Tokens.{pass_gate};
ghost use Rattle.apf_line.specs.Tokens.{IsOf};
ghost use Rattle.apf_level.specs.Tokens.{IsRunning, IsDone};
ghost use Rattle.apf_level.specs.Admission.{tried_pass, IsTriedTold, TriesToAdmit, SaysOpen};
ghost use Rattle.apf_level.specs.InPlace.{IsKeptInBatch};
ghost use Rattle.apf_line.specs.Attempts.{IsFreshPass, Attempts, TakesOrDecides, AfterAttempt};
ghost use Rattle.apf_level.specs.Owing.{owed_by};

use crate::answers::{Tried, TryAdmit};
use crate::level::Level;
use crate::naming::Naming;
use crate::owing::{Owes, Owing, owes_if};
use crate::tokens::{Done, Running};
use apf_gate::Pass;
use apf_line::attempts;

impl<K: Naming> Level<K> {
    /// Admits the request, if nobody waits and it fits. It takes no lock.
    ///
    /// It reads the decision, and where that is not written makes a load of the level word; where that
    /// showed room an exchange; and an exchange of the decision word, unless it answers busy. Seats that were
    /// taken while the request was cancelled are given back.
    pub fn try_admit(&self, mut pass: Pass) -> TryAdmit
        requires { IsFreshPass K.level.gate pass }
        ensures same { IsOf pass (tried_pass result) }
        ensures told { IsTriedTold result }
        ensures steps { TriesToAdmit pass.pass result }
        ensures stays_closed { pass.pass.knows.saw_closed ≡ true → ¬ SaysOpen result }
    {
        let _request = self.number(&pass);
        match attempts::attempt(&self.gate, self.shared.has_queues(), &mut pass) {
            Tried::Run => TryAdmit::Run(Running { pass }),
            Tried::Over(decision, waiting) => TryAdmit::Over(Done { pass }, decision, waiting),
            Tried::Blocked | Tried::Raced => TryAdmit::Busy(pass),
        }
    }

    // The number of a request of this level.
    pub(crate) fn number(&self, pass: &Pass) -> u32
        requires own { pass_gate pass.now ≡ K.level.gate }
        ensures number { result ≡ pass.now.pass.number }
        ensures inside { result < length K.level.gate.shape.widths }
        ensures small { pass.now.pass.number < max_requests }
    {
        let _ = &self.gate;
        pass.number() as u32
    }

    /// Admits the request, if nobody waits and it fits, and says why not where it is busy. The Pass stays in
    /// its place: it is then that of a request that executes, is over, or is fresh as before, by the answer.
    ///
    /// It takes no lock, and makes the steps of `try_admit`. Where requests waited when its seats were given
    /// back, a dispatch is owed.
    #[inline]
    pub fn attempt(&self, pass: &mut Pass) -> (Tried, Owes<K>)
        requires { IsFreshPass K.level.gate pass.old }
        ensures kept { IsKeptInBatch result.0 pass.new }
        ensures after { AfterAttempt pass.old result.0 pass.new }
        ensures steps { Attempts pass.old.pass result.0 pass.new }
        ensures never_entered { pass.old.pass.entered ≡ false }
        ensures owes { result.1 ≡ owed_by result.0 }
    {
        let _request = self.number(pass);
        let tried = attempts::attempt(&self.gate, self.shared.has_queues(), pass);
        (tried, owes_of(tried))
    }

    // Takes the seats, if nobody waits and they fit, and decides: what `attempt` does once it read that
    // nothing is decided.
    #[inline]
    pub(crate) fn take(&self, pass: &mut Pass) -> (Tried, Owes<K>)
        requires { IsFreshPass K.level.gate pass.old }
        ensures kept { IsKeptInBatch result.0 pass.new }
        ensures after { AfterAttempt pass.old result.0 pass.new }
        ensures steps { TakesOrDecides pass.old.pass result.0 pass.new }
        ensures owes { result.1 ≡ owed_by result.0 }
    {
        let _request = self.number(pass);
        let tried = attempts::take(&self.gate, self.shared.has_queues(), pass);
        (tried, owes_of(tried))
    }

    /// Gives the request's seats back, by one step on the level word. Where requests waited then, the
    /// caller owes a dispatch.
    pub fn release(&self, running: Running) -> (Done, bool)
        requires own { pass_gate running ≡ K.level.gate }
        ensures same { IsOf running result.0 }
        ensures told { told_own result.0.pass ≡ Some Execute }
        ensures answer { (level : Word) × PassSubtractsLevel running.pass level result.0.pass × (result.1 ≡ not (level.waiters == 0)) }
    {
        let Running { mut pass } = running;
        let waiting = self.gate.release(&mut pass);
        (Done { pass }, waiting)
    }

    /// As `release`, but where requests waited the dispatch is owed by a value that must be spent.
    pub fn release_owing(&self, running: Running) -> (Done, Owes<K>)
        requires own { pass_gate running ≡ K.level.gate }
        ensures same { IsOf running result.0 }
        ensures told { told_own result.0.pass ≡ Some Execute }
        ensures answer { (level : Word) × PassSubtractsLevel running.pass level result.0.pass × (result.1 ≡ not (level.waiters == 0)) }
    {
        let Running { mut pass } = running;
        let owes = self.give_back(&mut pass);
        (Done { pass }, owes)
    }

    /// Gives the seats of a request that executes back, by one step on the level word. Where requests waited
    /// then, a dispatch is owed. The Pass stays in its place, that of a request that is over.
    #[inline]
    pub fn give_back(&self, pass: &mut Pass) -> Owes<K>
        requires own { pass_gate pass.old ≡ K.level.gate }
        requires runs { IsRunning pass.old }
        ensures done { IsDone pass.new }
        ensures same { IsOf pass.old pass.new }
        ensures told { told_own pass.new.pass ≡ Some Execute }
        ensures answer { (level : Word) × PassSubtractsLevel pass.old.pass level pass.new.pass × (result ≡ not (level.waiters == 0)) }
    {
        owes_if(self.gate.release(pass))
    }
}

// What is owed after an attempt that came to this.
fn owes_of<K: Naming>(tried: Tried) -> Owes<K>
    ensures { result ≡ owed_by tried }
{
    match tried {
        Tried::Over(_decision, waiting) => owes_if(waiting),
        Tried::Run | Tried::Blocked | Tried::Raced => Owing::nothing(),
    }
}
