//! A request of a gate, by how far it is. A call that is not for it yet, or not any more, answers `None`.

ghost use Rattle.std.specs.Prelude.{◌≡◌, ◌≤◌, Some};
ghost use Rattle.apf_words.specs.Limits.{max_width};
ghost use Rattle.apf_model.specs.declared.response.Response.TheVariants.{Reject};
ghost use Rattle.apf_gate.specs.declared.record.State.TheVariants as states;
ghost use Rattle.apf_gate.specs.Records.{told_own};
ghost use Rattle.apf_gate.specs.PassCalls.{MayWrite, MayRelease};
ghost use Rattle.apf_gate.specs.PassSteps.{MayRenew};
ghost use Rattle.apf_gate.specs.Tokens.{pass_gate};
ghost use Rattle.apf_gate_tests.specs.Stages.{IsAt};

use crate::stage::Stage;
use apf_gate::{Gate, Pass, Renew, TryTake};
use apf_words::Decision;
use std::alloc::Global;

/// A request.
#[derive(Drop)]
pub struct Request {
    pub pass: Pass,
    pub stage: Stage,
    pub ghost is_at: { IsAt stage pass.pass },
}

impl Request {
    /// A request that did not arrive.
    pub fn new(pass: Pass) -> Request
        requires { pass.pass.state ≡ states.Fresh }
        ensures { result.pass ≡ pass }
    {
        Request {
            pass,
            stage: Stage::Fresh,
        }
    }

    /// Tries to take its seats.
    pub fn take(&mut self, gate: &Gate<Global>) -> Option<TryTake>
        requires { pass_gate self.old.pass ≡ gate.now }
        ensures { pass_gate self.new.pass ≡ gate.now }
    {
        match self.stage {
            Stage::Fresh | Stage::Closed | Stage::NoRoom => Some(self.take_fresh(gate)),
            _ => None,
        }
    }

    fn take_fresh(&mut self, gate: &Gate<Global>) -> TryTake
        requires own { pass_gate self.old.pass ≡ gate.now }
        requires fresh { self.old.pass.pass.state ≡ states.Fresh }
        ensures { pass_gate self.new.pass ≡ gate.now }
    {
        let answer = gate.try_take(&mut self.pass);
        self.stage = match answer {
            TryTake::Taken => Stage::Took,
            TryTake::Closed => Stage::Closed,
            TryTake::NoRoom => Stage::NoRoom,
            TryTake::Waiters | TryTake::Raced => Stage::Fresh,
        };
        answer
    }

    /// Asks for what others decide.
    pub fn ask(&mut self, gate: &Gate<Global>) -> Option<Option<Decision>>
        requires { pass_gate self.old.pass ≡ gate.now }
        ensures { pass_gate self.new.pass ≡ gate.now }
    {
        match self.stage {
            Stage::Fresh | Stage::Closed | Stage::NoRoom => Some(self.ask_fresh(gate)),
            _ => None,
        }
    }

    fn ask_fresh(&mut self, gate: &Gate<Global>) -> Option<Decision>
        requires own { pass_gate self.old.pass ≡ gate.now }
        requires fresh { self.old.pass.pass.state ≡ states.Fresh }
        ensures { pass_gate self.new.pass ≡ gate.now }
    {
        let answer = gate.ask(&mut self.pass);
        self.stage = Stage::InLine;
        answer
    }

    /// Reads its decision.
    pub fn told(&mut self, gate: &Gate<Global>) -> Option<Decision>
        requires { pass_gate self.old.pass ≡ gate.now }
        ensures { pass_gate self.new.pass ≡ gate.now }
    {
        let told = gate.told(&mut self.pass);
        self.stage = match (self.stage, told) {
            (Stage::Told(decision), _) => Stage::Told(decision),
            (Stage::Entered | Stage::Granted, Some(Decision::Execute)) => Stage::Granted,
            (Stage::Entered, _) => Stage::Entered,
            _ => Stage::Over,
        };
        told
    }

    /// Writes execute.
    pub fn execute(&mut self, gate: &Gate<Global>) -> Option<Decision>
        requires { pass_gate self.old.pass ≡ gate.now }
        ensures { pass_gate self.new.pass ≡ gate.now }
    {
        let Stage::Took = self.stage else {
            return None;
        };
        let decision = gate.decide(&mut self.pass, Decision::Execute);
        self.stage = Stage::Told(decision);
        Some(decision)
    }

    /// Writes that the level is closed.
    pub fn refuse_closed(&mut self, gate: &Gate<Global>) -> Option<Decision>
        requires { pass_gate self.old.pass ≡ gate.now }
        ensures { pass_gate self.new.pass ≡ gate.now }
    {
        let Stage::Closed = self.stage else {
            return None;
        };
        Some(self.refuse(gate, Decision::Closed))
    }

    /// Writes that there is no room, on a level without queues.
    pub fn refuse_limit(&mut self, gate: &Gate<Global>) -> Option<Decision>
        requires own { pass_gate self.old.pass ≡ gate.now }
        requires rejects { gate.now.shape.response ≡ Reject }
        ensures { pass_gate self.new.pass ≡ gate.now }
    {
        let Stage::NoRoom = self.stage else {
            return None;
        };
        Some(self.refuse(gate, Decision::ConcurrencyLimit))
    }

    fn refuse(&mut self, gate: &Gate<Global>, decision: Decision) -> Decision
        requires own { pass_gate self.old.pass ≡ gate.now }
        requires may { MayWrite self.old.pass.pass decision }
        ensures { pass_gate self.new.pass ≡ gate.now }
    {
        let answer = gate.decide(&mut self.pass, decision);
        self.stage = Stage::Over;
        answer
    }

    /// Gives its seats back. Says whether requests waited.
    pub fn release(&mut self, gate: &Gate<Global>) -> Option<bool>
        requires { pass_gate self.old.pass ≡ gate.now }
        ensures { pass_gate self.new.pass ≡ gate.now }
    {
        match self.stage {
            Stage::Told(decision) => Some(self.give_back(gate, decision)),
            Stage::Granted => Some(self.give_back(gate, Decision::Execute)),
            _ => None,
        }
    }

    fn give_back(&mut self, gate: &Gate<Global>, told: Decision) -> bool
        requires own { pass_gate self.old.pass ≡ gate.now }
        requires stands { MayRelease self.old.pass.pass }
        requires told { told_own self.old.pass.pass ≡ Some told }
        ensures { pass_gate self.new.pass ≡ gate.now }
    {
        let waiting = gate.release(&mut self.pass);
        self.stage = Stage::Back(told);
        waiting
    }

    /// Leaves the request for the next one of its slot, of this width. Its flow has the hash 7, and its dispatch is
    /// charged 20.
    pub fn renew(&mut self, gate: &Gate<Global>, width: u32) -> Option<Renew>
        requires own { pass_gate self.old.pass ≡ gate.now }
        requires some { 1 ≤ width }
        requires narrow { width ≤ max_width }
        ensures { pass_gate self.new.pass ≡ gate.now }
    {
        match self.stage {
            Stage::Fresh => Some(self.leave(gate, width)),
            Stage::Back(_) => Some(self.leave(gate, width)),
            _ => None,
        }
    }

    fn leave(&mut self, gate: &Gate<Global>, width: u32) -> Renew
        requires own { pass_gate self.old.pass ≡ gate.now }
        requires may { MayRenew self.old.pass.pass }
        requires some { 1 ≤ width }
        requires narrow { width ≤ max_width }
        ensures { pass_gate self.new.pass ≡ gate.now }
    {
        let answer = gate.renew(&mut self.pass, width, 7, 20);
        if let Renew::Began(_) = answer {
            self.stage = Stage::Fresh;
        }
        answer
    }

    /// The Pass.
    pub fn into_pass(self) -> Pass
        ensures { result ≡ self.pass }
    {
        let Request { pass, stage: _ } = self;
        pass
    }
}
