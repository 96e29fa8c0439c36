//! For how many seats the requests of a level ask, and asked lately.

ghost use Rattle.std.specs.Prelude.{◌≡◌, ◌≤◌, ◌+◌, ◌-◌, ◌↔◌, IfErr, IfOk, IsTrue, OnOk};
ghost use Rattle.apf_lending.specs.Claims.{IsClaim};
ghost use Rattle.apf_lender.specs.Bounds.{AreBounds};
ghost use Rattle.apf_lender.specs.Periods.{AsksFor, EndsPeriod, IsNew, MayAsk, MayEnd};

use crate::bounds::{Bounds, claim_of};
use apf_lending::{Claim, Demand, MOST_ASKED, MOST_PERIOD, smoothed_with};
use std::marker::Model;

/// What is told of a level is out of its time, or of too many or too few seats.
#[derive(Clone, Copy, Debug, PartialEq, Eq)]
pub struct Untimely;

/// For how many seats the requests of a level ask, those in use and the widths of those that wait, and asked lately.
#[derive(Drop)]
pub struct Asking {
    bounds: Bounds,
    demand: Demand,
    // in thousandths of a seat
    smoothed: u64,
}

impl Model for Asking {
    ghost use Rattle.apf_lender.specs.Periods.{AskingView, IsAsking};

    ghost Value = { AskingView };

    ghost view = { λ a. record { bounds = a.bounds; demand = a.demand; smoothed = a.smoothed } };

    ghost invariant = { λ a. IsAsking (record { bounds = a.bounds; demand = a.demand; smoothed = a.smoothed }) };
}

// Whether the requests may ask for so many seats from this time on.
fn may_ask(demand: &Demand, at: u64, seats: u64) -> bool
    ensures { IsTrue result ↔ MayAsk at seats demand.now }
{
    seats <= MOST_ASKED && demand.since() <= at && at.saturating_sub(demand.began()) <= MOST_PERIOD
}

// Whether the period may end at this time.
fn may_end(demand: &Demand, at: u64) -> bool
    ensures { IsTrue result ↔ MayEnd at demand.now }
{
    demand.began() < at && demand.since() <= at && at.saturating_sub(demand.began()) <= MOST_PERIOD
}

impl Asking {
    /// Nobody asks for anything yet, at this time in microseconds.
    pub fn new(bounds: Bounds, at: u64) -> Asking
        requires { AreBounds bounds }
        ensures { IsNew bounds at result }
    {
        Asking {
            bounds,
            demand: Demand::new(at, 0),
            smoothed: 0,
        }
    }

    /// For how many seats the requests ask now.
    pub fn seats(&self) -> u64
        ensures { result ≡ self.now.demand.seats }
    {
        self.demand.seats()
    }

    /// When that changed last, in microseconds.
    pub fn since(&self) -> u64
        ensures { result ≡ self.now.demand.since }
    {
        self.demand.since()
    }

    // From this time on the requests ask for these seats, if they may.
    fn ask(&mut self, at: u64, seats: u64) -> Result<(), Untimely>
        ensures asks { OnOk result (AsksFor at seats self.old self.new) }
        ensures fault { IfErr result (λ refused. MayAsk at seats self.old.demand → ⊥) }
    {
        if !may_ask(&self.demand, at, seats) {
            return Err(Untimely);
        }
        self.demand.change(at, seats);
        Ok(())
    }

    /// From this time on, in microseconds, the requests ask for so many seats more.
    ///
    /// # Errors
    ///
    /// `Untimely` if that is before the last change or later than a period may last, 1,000 seconds behind its beginning, or if these
    /// are more than 2^34 seats in all. Then nothing is changed.
    pub fn arrive(&mut self, at: u64, width: u32) -> Result<(), Untimely>
        ensures asks { OnOk result (AsksFor at (self.old.demand.seats + width) self.old self.new) }
        ensures fault { IfErr result (λ refused. MayAsk at (self.old.demand.seats + width) self.old.demand → ⊥) }
    {
        let seats = self.demand.seats() + u64::from(width);
        self.ask(at, seats)
    }

    /// From this time on, in microseconds, the requests ask for so many seats fewer.
    ///
    /// # Errors
    ///
    /// `Untimely` if that is before the last change or later than a period may last, or if they ask for fewer. Then nothing is
    /// changed.
    pub fn leave(&mut self, at: u64, width: u32) -> Result<(), Untimely>
        ensures enough { OnOk result (width ≤ self.old.demand.seats) }
        ensures asks { OnOk result (AsksFor at (self.old.demand.seats - width) self.old self.new) }
        ensures fault { IfErr result (λ refused. width ≤ self.old.demand.seats → MayAsk at (self.old.demand.seats - width) self.old.demand → ⊥) }
    {
        let Some(seats) = self.demand.seats().checked_sub(u64::from(width)) else {
            return Err(Untimely);
        };
        self.ask(at, seats)
    }

    // The period ends at this time, and the next one begins. Answers what the level claims for it.
    fn end(&mut self, at: u64) -> Claim
        requires { MayEnd at self.old.demand }
        ensures ends { EndsPeriod at self.old self.new result }
        ensures range { IsClaim result }
    {
        let seats = self.demand.seats();
        self.demand.change(at, seats);
        let observed = self.demand.observed();
        self.smoothed = smoothed_with(self.smoothed, observed);
        let claim = claim_of(self.bounds, observed.high, self.smoothed);
        self.demand = Demand::new(at, seats);
        claim
    }

    /// The period ends at this time, in microseconds, and the next one begins. Answers what the level claims for it.
    ///
    /// # Errors
    ///
    /// `Untimely` if that is not behind the period's beginning, before the last change, or later than a period may last. Then nothing
    /// is changed.
    pub fn end_period(&mut self, at: u64) -> Result<Claim, Untimely>
        ensures ends { IfOk result (EndsPeriod at self.old self.new) }
        ensures range { IfOk result IsClaim }
        ensures fault { IfErr result (λ refused. MayEnd at self.old.demand → ⊥) }
    {
        if !may_end(&self.demand, at) {
            return Err(Untimely);
        }
        Ok(self.end(at))
    }
}
