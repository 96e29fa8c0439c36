//! A request at a level, by what became of it so far. Each owns the request's Pass.

ghost use Rattle.std.specs.Prelude.{◌≡◌};
ghost use Rattle.apf_level.specs.Tokens.{IsInLine, IsRunning, IsDone};

use apf_gate::Pass;
use std::marker::Model;

/// A request that entered a queue, and was not seen decided. It must be spent.
pub struct Waiting {
    pub(crate) pass: Pass,
}

impl Model for Waiting {
    ghost use Rattle.apf_gate.specs.Tokens.{PassToken};
    ghost use Rattle.apf_level.specs.Tokens.{IsInLine};

    ghost Value = { PassToken };

    ghost view = { λ w. w.pass };

    ghost invariant = { λ w. IsInLine w.pass };
}

/// A request that is decided execute, and whose seats stand. It must be spent.
pub struct Running {
    pub(crate) pass: Pass,
}

impl Model for Running {
    ghost use Rattle.apf_gate.specs.Tokens.{PassToken};
    ghost use Rattle.apf_level.specs.Tokens.{IsRunning};

    ghost Value = { PassToken };

    ghost view = { λ r. r.pass };

    ghost invariant = { λ r. IsRunning r.pass };
}

/// A request that is decided, and holds no seats.
#[derive(Drop)]
pub struct Done {
    pub(crate) pass: Pass,
}

impl Model for Done {
    ghost use Rattle.apf_gate.specs.Tokens.{PassToken};
    ghost use Rattle.apf_level.specs.Tokens.{IsDone};

    ghost Value = { PassToken };

    ghost view = { λ d. d.pass };

    ghost invariant = { λ d. IsDone d.pass };
}

impl Waiting {
    /// That of a request that waits in a queue, of its Pass.
    pub fn of(pass: Pass) -> Waiting
        requires { IsInLine pass }
        ensures { result ≡ pass }
    {
        Waiting { pass }
    }

    /// The request's number, from 0.
    pub fn number(&self) -> u32
        ensures number { result ≡ self.now.pass.number }
        ensures waits { IsInLine self.now }
    {
        self.pass.number() as u32
    }
}

impl Running {
    /// That of a request that executes, of its Pass.
    pub fn of(pass: Pass) -> Running
        requires { IsRunning pass }
        ensures { result ≡ pass }
    {
        Running { pass }
    }

    /// The request's number, from 0.
    pub fn number(&self) -> u32
        ensures number { result ≡ self.now.pass.number }
        ensures runs { IsRunning self.now }
    {
        self.pass.number() as u32
    }
}

impl Done {
    /// That of a request that is over, of its Pass.
    pub fn of(pass: Pass) -> Done
        requires { IsDone pass }
        ensures { result ≡ pass }
    {
        Done { pass }
    }

    /// The request's number, from 0.
    pub fn number(&self) -> u32
        ensures number { result ≡ self.now.pass.number }
        ensures done { IsDone self.now }
    {
        self.pass.number() as u32
    }

    pub(crate) fn into_pass(self) -> Pass
        ensures same { result ≡ self }
        ensures done { IsDone result }
    {
        let Done { pass } = self;
        pass
    }
}
