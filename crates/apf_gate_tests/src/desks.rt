//! The Desk of a gate, by how far it is with the one request that it serves. A call that is not for it yet, or not
//! any more, answers `None`.

ghost use Rattle.std.specs.Prelude.{◌≡◌, true, [], None};
ghost use Rattle.apf_model.specs.declared.response.Response.TheVariants.{Queue};
ghost use Rattle.apf_gate.specs.DeskCalls.{MayHand, MayRefuse};
ghost use Rattle.apf_gate.specs.Tokens.{pass_gate, desk_gate};
ghost use Rattle.apf_gate_tests.specs.Stages.{IsNamed, Serves};

use crate::requests::Request;
use crate::stage::{Serving, Stage};
use apf_gate::{Desk, Gate, TryEnter, TryGrant};
use apf_words::{Decision, LevelWord};
use std::alloc::Global;

/// The Desk, and how far it is with the request that it serves.
#[derive(Drop)]
pub struct StagedDesk {
    pub desk: Desk,
    serving: Serving,
    // Whether it saw the level closed.
    saw_closed: bool,
    ghost serves: { Serves serving desk.desk },
    ghost closed: { saw_closed ≡ true → desk.desk.knows.saw_closed ≡ true },
}

impl StagedDesk {
    /// A Desk that served nobody.
    pub fn new(desk: Desk) -> StagedDesk
        requires services { desk.desk.services ≡ [] }
        requires held { desk.desk.held ≡ None }
        ensures { result.desk ≡ desk }
    {
        StagedDesk {
            desk,
            serving: Serving::Idle,
            saw_closed: false,
        }
    }

    /// Reads the level word.
    pub fn view(&mut self, gate: &Gate<Global>) -> LevelWord
        requires { desk_gate self.old.desk ≡ gate.now }
        ensures { desk_gate self.new.desk ≡ gate.now }
    {
        let level = gate.view(&mut self.desk);
        self.serving = match self.serving {
            Serving::Idle => Serving::Idle,
            _ => Serving::Over,
        };
        self.saw_closed = level.closed();
        level
    }

    /// Enters a request that is in line.
    pub fn enter(&mut self, gate: &Gate<Global>, request: &mut Request) -> Option<TryEnter>
        requires own_desk { desk_gate self.old.desk ≡ gate.now }
        requires own_pass { pass_gate request.old.pass ≡ gate.now }
        requires has_queues { gate.now.shape.response ≡ Queue }
        ensures own_desk { desk_gate self.new.desk ≡ gate.now }
        ensures own_pass { pass_gate request.new.pass ≡ gate.now }
    {
        let Serving::Idle = self.serving else {
            return None;
        };
        let Stage::InLine = request.stage else {
            return None;
        };
        Some(self.enter_in_line(gate, request))
    }

    fn enter_in_line(&mut self, gate: &Gate<Global>, request: &mut Request) -> TryEnter
        requires own_desk { desk_gate self.old.desk ≡ gate.now }
        requires own_pass { pass_gate request.old.pass ≡ gate.now }
        requires has_queues { gate.now.shape.response ≡ Queue }
        requires may { MayHand (record { pass = request.old.pass.pass; desk = self.old.desk.desk }) }
        requires held { self.old.desk.desk.held ≡ None }
        ensures own_desk { desk_gate self.new.desk ≡ gate.now }
        ensures own_pass { pass_gate request.new.pass ≡ gate.now }
    {
        let number = request.pass.number();
        let answer = gate.try_enter(&mut self.desk, &mut request.pass);
        request.stage = Stage::Over;
        self.saw_closed = false;
        self.serving = Serving::Over;
        if answer == TryEnter::Entered {
            request.stage = Stage::Entered;
            self.serving = Serving::Waits(number);
        }
        answer
    }

    /// Refuses a request that is in line.
    pub fn refuse(
        &mut self,
        gate: &Gate<Global>,
        request: &mut Request,
        decision: Decision,
    ) -> Option<Decision>
        requires own_desk { desk_gate self.old.desk ≡ gate.now }
        requires own_pass { pass_gate request.old.pass ≡ gate.now }
        ensures own_desk { desk_gate self.new.desk ≡ gate.now }
        ensures own_pass { pass_gate request.new.pass ≡ gate.now }
    {
        let Serving::Idle = self.serving else {
            return None;
        };
        let Stage::InLine = request.stage else {
            return None;
        };
        match decision {
            Decision::QueueFull => Some(self.refuse_in_line(gate, request, decision)),
            Decision::Closed if self.saw_closed => {
                Some(self.refuse_in_line(gate, request, decision))
            }
            _ => None,
        }
    }

    fn refuse_in_line(
        &mut self,
        gate: &Gate<Global>,
        request: &mut Request,
        decision: Decision,
    ) -> Decision
        requires own_desk { desk_gate self.old.desk ≡ gate.now }
        requires own_pass { pass_gate request.old.pass ≡ gate.now }
        requires may { MayHand (record { pass = request.old.pass.pass; desk = self.old.desk.desk }) }
        requires refusal { MayRefuse self.old.desk.desk decision }
        ensures own_desk { desk_gate self.new.desk ≡ gate.now }
        ensures own_pass { pass_gate request.new.pass ≡ gate.now }
    {
        let answer = gate.refuse(&mut self.desk, &mut request.pass, decision);
        request.stage = Stage::Over;
        self.saw_closed = false;
        self.serving = Serving::Over;
        answer
    }

    /// Reads a request's decision, joined with its Pass.
    pub fn hear(&mut self, gate: &Gate<Global>, request: &mut Request) -> Option<Decision>
        requires own_desk { desk_gate self.old.desk ≡ gate.now }
        requires own_pass { pass_gate request.old.pass ≡ gate.now }
        ensures own_desk { desk_gate self.new.desk ≡ gate.now }
        ensures own_pass { pass_gate request.new.pass ≡ gate.now }
    {
        let decision = gate.hear(&mut self.desk, &mut request.pass);
        request.stage = Stage::Over;
        self.saw_closed = false;
        self.serving = Serving::Over;
        decision
    }

    /// Reads a request's decision.
    pub fn seen(&mut self, gate: &Gate<Global>, request: u128) -> Option<Decision>
        requires own { desk_gate self.old.desk ≡ gate.now }
        requires is_request { IsNamed gate.now.shape request }
        ensures { desk_gate self.new.desk ≡ gate.now }
    {
        let decision = gate.seen(&mut self.desk, request);
        self.saw_closed = false;
        self.serving = match self.serving {
            Serving::Waits(waits) => {
                if waits == request && decision == Some(Decision::Cancelled) {
                    Serving::Seen(waits)
                } else {
                    Serving::Waits(waits)
                }
            }
            _ => Serving::Over,
        };
        decision
    }

    /// Grants the request that waits.
    pub fn grant(&mut self, gate: &Gate<Global>, request: u128) -> Option<TryGrant>
        requires own { desk_gate self.old.desk ≡ gate.now }
        requires is_request { IsNamed gate.now.shape request }
        ensures { desk_gate self.new.desk ≡ gate.now }
    {
        let Serving::Waits(waits) = self.serving else {
            return None;
        };
        if waits != request {
            return None;
        }
        let answer = gate.try_grant(&mut self.desk, request);
        self.saw_closed = false;
        self.serving = match answer {
            TryGrant::Granted => Serving::Holds(request),
            TryGrant::NoRoom | TryGrant::Raced => Serving::Waits(request),
        };
        Some(answer)
    }

    /// Writes execute of the request whose seats it holds.
    pub fn settle(&mut self, gate: &Gate<Global>) -> Option<Decision>
        requires { desk_gate self.old.desk ≡ gate.now }
        ensures { desk_gate self.new.desk ≡ gate.now }
    {
        let Serving::Holds(request) = self.serving else {
            return None;
        };
        let decision = gate.settle(&mut self.desk);
        self.saw_closed = false;
        self.serving = match decision {
            Decision::Cancelled => Serving::Lost(request),
            _ => Serving::Over,
        };
        Some(decision)
    }

    /// Gives back the seats of the request that it lost.
    pub fn give_back(&mut self, gate: &Gate<Global>) -> Option<()>
        requires { desk_gate self.old.desk ≡ gate.now }
        ensures { desk_gate self.new.desk ≡ gate.now }
    {
        let Serving::Lost(_) = self.serving else {
            return None;
        };
        gate.give_back(&mut self.desk);
        self.saw_closed = false;
        self.serving = Serving::Over;
        Some(())
    }

    /// Takes the request that it saw cancelled out of the count of those that wait.
    pub fn leave(&mut self, gate: &Gate<Global>, request: u128) -> Option<()>
        requires own { desk_gate self.old.desk ≡ gate.now }
        requires is_request { IsNamed gate.now.shape request }
        ensures { desk_gate self.new.desk ≡ gate.now }
    {
        let Serving::Seen(seen) = self.serving else {
            return None;
        };
        if seen != request {
            return None;
        }
        gate.leave(&mut self.desk, request);
        self.saw_closed = false;
        self.serving = Serving::Over;
        Some(())
    }

    /// The Desk.
    pub fn into_desk(self) -> Desk
        ensures { result ≡ self.desk }
    {
        let StagedDesk {
            desk,
            serving: _,
            saw_closed: _,
        } = self;
        desk
    }
}
