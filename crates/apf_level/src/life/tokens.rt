//! A slot of a level, by what became of its request so far. Each token owns the slot's Pass of the gate.

ghost use Rattle.std.specs.Prelude.{◌≡◌};
ghost use Rattle.apf_gate.specs.Slots.{IsTicket};
ghost use Rattle.apf_line.specs.Tokens.{IsArriving, IsInLine, IsRunning, IsDone};
ghost use Rattle.apf_level.specs.LifeReleases.{Executes};

use apf_gate::Ticket;
use std::marker::Model;

/// A request that has its slot and did not arrive yet, with the hash of its flow and what its dispatch is charged. It
/// must be spent.
pub struct Pass {
    pub(crate) pass: apf_gate::Pass,
    pub(crate) hash: u64,
    pub(crate) cost: u32,
}

impl Model for Pass {
    ghost use Rattle.apf_line.specs.Tokens.{Arriving, IsArriving};

    ghost Value = { Arriving };

    ghost view = { λ p. record { token = p.pass; hash = p.hash; cost = p.cost } };

    ghost invariant = { λ p. IsArriving (record { token = p.pass; hash = p.hash; cost = p.cost }) };
}

/// A request that entered a queue, and was not seen decided. It must be spent.
pub struct Waiting {
    pub(crate) pass: apf_gate::Pass,
}

impl Model for Waiting {
    ghost use Rattle.apf_gate.specs.Tokens.{PassToken};
    ghost use Rattle.apf_line.specs.Tokens.{IsInLine};

    ghost Value = { PassToken };

    ghost view = { λ w. w.pass };

    ghost invariant = { λ w. IsInLine w.pass };
}

/// A request that is decided execute, and whose seats stand. It must be spent.
pub struct Running {
    pub(crate) pass: apf_gate::Pass,
    // Whether it entered a queue, and was dispatched from it. Else it took its seats on arrival.
    pub(crate) entered: bool,
}

impl Model for Running {
    ghost use Rattle.apf_gate.specs.Tokens.{PassToken};
    ghost use Rattle.apf_level.specs.LifeReleases.{Executes};

    ghost Value = { PassToken };

    ghost view = { λ r. r.pass };

    ghost invariant = { λ r. Executes r.entered r.pass };
}

/// The request of a slot that executes, lent: it is decided execute, and its seats stand.
#[derive(Drop)]
pub struct Executing<'a> {
    pass: &'a apf_gate::Pass,
}

impl<'a> Model for Executing<'a> {
    ghost use Rattle.apf_gate.specs.Tokens.{PassToken};
    ghost use Rattle.apf_line.specs.Tokens.{IsRunning};

    ghost Value = { PassToken };

    ghost view = { λ e. e.pass.now };

    ghost invariant = { λ e. IsRunning e.pass.now };
}

impl<'a> Executing<'a> {
    /// That of this Pass.
    pub fn of(pass: &'a apf_gate::Pass) -> Executing<'a>
        requires { IsRunning pass.now }
        ensures { result ≡ pass.now }
    {
        Executing { pass }
    }

    /// What names the request for ever.
    pub fn ticket(&self) -> Ticket
        ensures number { result.number ≡ self.now.pass.number }
        ensures is_ticket { IsTicket self.now.pass.knows.shape result.number }
        ensures runs { IsRunning self.now }
    {
        self.pass.ticket()
    }
}

/// A slot whose request is decided and holds no seats, or that nobody held yet: its next request may come.
#[derive(Drop)]
pub struct Done {
    pub(crate) pass: apf_gate::Pass,
}

impl Model for Done {
    ghost use Rattle.apf_gate.specs.Tokens.{PassToken};
    ghost use Rattle.apf_line.specs.Tokens.{IsDone};

    ghost Value = { PassToken };

    ghost view = { λ d. d.pass };

    ghost invariant = { λ d. IsDone d.pass };
}

impl Pass {
    /// What names the request for ever.
    pub fn ticket(&self) -> Ticket
        ensures number { result.number ≡ self.now.token.pass.number }
        ensures is_ticket { IsTicket self.now.token.pass.knows.shape result.number }
        ensures arriving { IsArriving self.now }
    {
        self.pass.ticket()
    }

    /// Gives the slot back, of a request that does not arrive.
    pub fn leave(self) -> Done
        ensures same { result ≡ self.token }
    {
        let Pass {
            pass,
            hash: _,
            cost: _,
        } = self;
        Done { pass }
    }
}

impl Waiting {
    /// That of a request that waits in a queue, of its Pass.
    pub fn of(pass: apf_gate::Pass) -> Waiting
        requires { IsInLine pass }
        ensures { result ≡ pass }
    {
        Waiting { pass }
    }

    /// What names the request for ever.
    pub fn ticket(&self) -> Ticket
        ensures number { result.number ≡ self.now.pass.number }
        ensures is_ticket { IsTicket self.now.pass.knows.shape result.number }
        ensures waits { IsInLine self.now }
    {
        self.pass.ticket()
    }
}

impl Running {
    /// What names the request for ever.
    pub fn ticket(&self) -> Ticket
        ensures number { result.number ≡ self.now.pass.number }
        ensures is_ticket { IsTicket self.now.pass.knows.shape result.number }
        ensures runs { IsRunning self.now }
    {
        self.pass.ticket()
    }
}

impl Done {
    /// That of a request that is over, of its Pass.
    pub fn of(pass: apf_gate::Pass) -> Done
        requires { IsDone pass }
        ensures { result ≡ pass }
    {
        Done { pass }
    }

    /// What names the slot's newest request for ever.
    pub fn ticket(&self) -> Ticket
        ensures number { result.number ≡ self.now.pass.number }
        ensures is_ticket { IsTicket self.now.pass.knows.shape result.number }
        ensures done { IsDone self.now }
    {
        self.pass.ticket()
    }

    /// Its Pass.
    pub fn into_pass(self) -> apf_gate::Pass
        ensures same { result ≡ self }
        ensures done { IsDone result }
    {
        let Done { pass } = self;
        pass
    }
}
