//! The steps of a request outside the lock.

ghost use Rattle.std.specs.Prelude.{◌≡◌, ◌==◌, not, true, false, Some};
ghost use Rattle.apf_words.specs.Level.{Level as Word};
ghost use Rattle.apf_words.specs.declared.decision.Decision.TheVariants.{Execute};
ghost use Rattle.apf_gate.specs.Records.{told_own, KnowsMore};
ghost use Rattle.apf_gate.specs.PassSteps.{PassSubtractsLevel};
ghost use Rattle.apf_gate.specs.Tokens.{pass_gate};
ghost use Rattle.apf_line.specs.Tokens.{IsOf, IsRunning, IsDone};
ghost use Rattle.apf_level.specs.LifeAdmission.{tried_pass, IsTriedTold, AsksAgain, TriesToAdmit, SaysOpen, owed_by_try};
ghost use Rattle.apf_line.specs.Attempts.{IsFreshPass, Attempts, TakesOrDecides, IsKeptBy, AfterAttempt};
ghost use Rattle.apf_level.specs.Owing.{owed_by};
ghost use Rattle.apf_level.specs.LifeArrivals.{TraceGoesOn};
ghost use Rattle.apf_level.specs.LifeReleases.{Executes, ReleasesMeasured};

use crate::Owing;
use crate::life::answers::{Tried, TryAdmit};
use crate::life::level::Level;
use crate::life::naming::Naming;
use crate::life::owing::{Owes, owes_if};
use crate::life::tokens::{Done, Pass, Running};
use apf_line::attempts;
use apf_words::Decision;
use std::sync::Wait;

impl<K: Naming> Level<K> {
    /// Admits the request, if nobody waits and it fits. It takes no lock.
    ///
    /// It reads the decision, and where that is not written makes a load of the level word; where that
    /// showed room an exchange; and an exchange of the decision word, unless it answers busy. Seats that were
    /// taken while the request was cancelled are given back. Where requests waited then, a dispatch is owed.
    pub fn try_admit(&self, pass: Pass) -> (TryAdmit, Owes<K>)
        requires own { pass_gate pass.token ≡ K.level.gate }
        ensures same { IsOf pass.token (tried_pass result.0) }
        ensures told { IsTriedTold result.0 }
        ensures again { AsksAgain pass result.0 }
        ensures steps { TriesToAdmit pass.token.pass result.0 }
        ensures stays_closed { pass.token.pass.knows.saw_closed ≡ true → ¬ SaysOpen result.0 }
        ensures owes { result.1 ≡ owed_by_try result.0 }
    {
        let Pass {
            mut pass,
            hash,
            cost,
        } = pass;
        let (tried, owes) = self.attempt(&mut pass);
        match tried {
            Tried::Run => {
                let running = Running {
                    pass,
                    entered: false,
                };
                (TryAdmit::Run(running), owes)
            }
            Tried::Over(decision, waiting) => {
                (TryAdmit::Over(Done { pass }, decision, waiting), owes)
            }
            Tried::Blocked | Tried::Raced => (TryAdmit::Busy(Pass { pass, hash, cost }), owes),
        }
    }

    /// Admits the request, if nobody waits and it fits, and says why not where it is busy. The slot's Pass stays
    /// in its place: it is then that of a request that executes, is over, or is fresh as before, by the answer.
    ///
    /// It takes no lock, and makes the steps of `try_admit`. Where requests waited when its seats were given
    /// back, a dispatch is owed.
    #[inline]
    pub fn attempt(&self, pass: &mut apf_gate::Pass) -> (Tried, Owes<K>)
        requires fresh { IsFreshPass K.level.gate pass.old }
        ensures kept { IsKeptBy result.0 pass.new }
        ensures after { AfterAttempt pass.old result.0 pass.new }
        ensures more { KnowsMore pass.old.pass.knows pass.new.pass.knows }
        ensures steps { Attempts pass.old.pass result.0 pass.new }
        ensures never_entered { pass.old.pass.entered ≡ false }
        ensures owes { result.1 ≡ owed_by result.0 }
    {
        let tried = attempts::attempt(&self.gate, self.shared.has_queues(), pass);
        (tried, owes_of(tried))
    }

    // Takes the seats, if nobody waits and they fit, and decides: what `attempt` does once it read that
    // nothing is decided.
    #[inline]
    pub(crate) fn take(&self, pass: &mut apf_gate::Pass) -> (Tried, Owes<K>)
        requires fresh { IsFreshPass K.level.gate pass.old }
        ensures kept { IsKeptBy result.0 pass.new }
        ensures after { AfterAttempt pass.old result.0 pass.new }
        ensures more { KnowsMore pass.old.pass.knows pass.new.pass.knows }
        ensures steps { TakesOrDecides pass.old.pass result.0 pass.new }
        ensures owes { result.1 ≡ owed_by result.0 }
    {
        let tried = attempts::take(&self.gate, self.shared.has_queues(), pass);
        (tried, owes_of(tried))
    }

    /// Gives the request's seats back, by one step on the level word. Where requests waited then, a dispatch is
    /// owed.
    pub fn release(&self, running: Running) -> (Done, Owes<K>)
        requires own { pass_gate running ≡ K.level.gate }
        ensures same { IsOf running result.0 }
        ensures goes_on { TraceGoesOn running result.0 }
        ensures told { told_own result.0.pass ≡ Some Execute }
        ensures answer { (level : Word) × PassSubtractsLevel running.pass level result.0.pass × (result.1 ≡ not (level.waiters == 0)) }
    {
        let Running {
            mut pass,
            entered: _,
        } = running;
        let owes = self.give_back(&mut pass);
        (Done { pass }, owes)
    }

    /// Gives the seats of a request that executes back, by one step on the level word. Where requests waited
    /// then, a dispatch is owed. The slot's Pass stays in its place, that of a request that is over.
    #[inline]
    pub fn give_back(&self, pass: &mut apf_gate::Pass) -> Owes<K>
        requires own { pass_gate pass.old ≡ K.level.gate }
        requires runs { IsRunning pass.old }
        ensures done { IsDone pass.new }
        ensures same { IsOf pass.old pass.new }
        ensures goes_on { TraceGoesOn pass.old pass.new }
        ensures told { told_own pass.new.pass ≡ Some Execute }
        ensures answer { (level : Word) × PassSubtractsLevel pass.old.pass level pass.new.pass × (result ≡ not (level.waiters == 0)) }
    {
        owes_if(self.gate.release(pass))
    }

    /// As `release`, of a request that ran this many microseconds. If it was dispatched from a queue, what it took is settled
    /// before its seats go back, under the level's lock, and others are dispatched then: no dispatch is owed.
    /// If it took its seats on arrival, it was never charged, and this is `release`, outside the lock.
    ///
    /// What it took is its width times this time, 1 to 2^46 microseconds of a seat: see `Locked::finish`. Only a level
    /// that was opened by `open_settling` settles it.
    pub fn release_measured<R: Wait>(
        &self,
        rt: &R,
        running: Running,
        micros: u64,
    ) -> (Done, Owes<K>)
        requires own { pass_gate running ≡ K.level.gate }
        ensures same { IsOf running result.0 }
        ensures told { told_own result.0.pass ≡ Some Execute }
        ensures answer { ReleasesMeasured running.pass result.1 result.0.pass }
    {
        let Running { mut pass, entered } = running;
        let owes = self.give_back_measured(rt, &mut pass, entered, micros);
        (Done { pass }, owes)
    }

    /// The same, of a request that entered a queue or not. The slot's Pass stays in its place, that of a request that is
    /// over.
    pub fn give_back_measured<R: Wait>(
        &self,
        rt: &R,
        pass: &mut apf_gate::Pass,
        entered: bool,
        micros: u64,
    ) -> Owes<K>
        requires own { pass_gate pass.old ≡ K.level.gate }
        requires runs { Executes entered pass.old }
        ensures done { IsDone pass.new }
        ensures same { IsOf pass.old pass.new }
        ensures told { told_own pass.new.pass ≡ Some Execute }
        ensures answer { ReleasesMeasured pass.old.pass result pass.new.pass }
    {
        if !entered {
            return self.give_back(pass);
        }
        self.lock(rt).finish(rt, pass, micros);
        Owing::nothing()
    }
}

// What is owed after an attempt that came to this.
fn owes_of<K: Naming>(tried: Tried) -> Owes<K>
    ensures { result ≡ owed_by tried }
{
    match tried {
        Tried::Over(_decision, waiting) => owes_if(waiting),
        Tried::Run | Tried::Blocked | Tried::Raced => Owing::nothing(),
    }
}
