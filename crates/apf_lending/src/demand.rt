//! What the requests of a level asked for in a period.

ghost use Rattle.std.specs.Prelude.{◌≡◌, ◌+◌, ◌-◌, ◌*◌, ◌/◌, ◌<◌, ◌≤◌, ◌^◌, ◌++◌, ◌∷◌, [], List, max};
ghost use Rattle.apf_lending.specs.Demands.{AreAsked, IsObserved, IsRoot, Stretch, max_asked, max_period, smoothed_with, then_asked};

use crate::root::root_of;
use std::marker::Model;

/// The longest period, in microseconds.
pub const MOST_PERIOD: u64 = 1_000_000_000;

/// The most seats that the requests of a level ask for at once.
pub const MOST_ASKED: u64 = 1 << 34;

/// For how many seats the requests of a level asked since a period began: the seats in use, and the widths of those that wait.
#[derive(Drop)]
pub struct Demand {
    // the seats that they ask for now
    seats: u64,
    // since when, in microseconds
    since: u64,
    // when the period began
    began: u64,
    // the most seats before that
    high: u64,
    // the sum of seats times microseconds before that, and of the squares of seats times microseconds
    area: u128,
    squares: u128,
}

/// What the requests of a level asked for in a period.
#[derive(Clone, Copy, Debug, PartialEq, Eq)]
pub struct Observed {
    /// The most seats at once.
    pub high: u64,
    /// The mean over time, in thousandths of a seat, rounded down.
    pub mean: u64,
    /// The deviation from it, in thousandths of a seat, rounded down.
    pub deviation: u64,
}

impl Model for Demand {
    ghost use Rattle.apf_lending.specs.Demands.{DemandView, IsKept};

    ghost Value = { DemandView };

    ghost view = { λ d. record { seats = d.seats; since = d.since; began = d.began; high = d.high; area = d.area; squares = d.squares } };

    ghost invariant = { λ d. IsKept (record { seats = d.seats; since = d.since; began = d.began; high = d.high; area = d.area; squares = d.squares }) };
}

impl Demand {
    /// A period begins, in which requests ask for these seats.
    pub fn new(at: u64, seats: u64) -> Demand
        requires few { seats ≤ max_asked }
        ensures began { result.began ≡ at }
        ensures asked { AreAsked [] seats at result }
    {
        Demand {
            seats,
            since: at,
            began: at,
            high: 0,
            area: 0,
            squares: 0,
        }
    }

    // The requests asked for the same seats up to this time.
    fn go_on(&mut self, at: u64)
        requires forward { self.old.since ≤ at }
        requires short { at ≤ self.old.began + max_period }
        ensures began { self.new.began ≡ self.old.began }
        ensures since { self.new.since ≡ at }
        ensures seats { self.new.seats ≡ self.old.seats }
        ensures asked { (stretches : List Stretch) → AreAsked stretches self.old.seats self.old.since self.old
            → AreAsked (stretches ++ record { seats = self.old.seats; micros = at - self.old.since } ∷ []) self.old.seats at self.new }
    {
        let micros = u128::from(at - self.since);
        let asked = u128::from(self.seats);
        self.area += asked * micros;
        self.squares += asked * asked * micros;
        self.high = self.high.max(self.seats);
        self.since = at;
    }

    /// From this time on the requests ask for these seats, no earlier than the last change and no later than a period may last. What
    /// they asked for at one time counts only by the last change.
    pub fn change(&mut self, at: u64, seats: u64)
        requires few { seats ≤ max_asked }
        requires forward { self.old.since ≤ at }
        requires short { at ≤ self.old.began + max_period }
        ensures began { self.new.began ≡ self.old.began }
        ensures since { self.new.since ≡ at }
        ensures seats { self.new.seats ≡ seats }
        ensures asked { (stretches : List Stretch) → AreAsked stretches self.old.seats self.old.since self.old
            → AreAsked (then_asked stretches self.old.seats (at - self.old.since)) seats at self.new }
    {
        if self.since < at {
            self.go_on(at);
        }
        self.seats = seats;
    }

    /// For how many seats the requests ask now.
    pub fn seats(&self) -> u64
        ensures value { result ≡ self.now.seats }
        ensures few { result ≤ max_asked }
    {
        self.seats
    }

    /// When that changed last, in microseconds.
    pub fn since(&self) -> u64
        ensures { result ≡ self.now.since }
    {
        self.since
    }

    /// When the period began, in microseconds.
    pub fn began(&self) -> u64
        ensures { result ≡ self.now.began }
    {
        self.began
    }

    /// What the requests asked for, from the beginning of the period to the last change, which came later.
    pub fn observed(&self) -> Observed
        requires { self.now.began < self.now.since }
        ensures observed { (stretches : List Stretch) → AreAsked stretches self.now.seats self.now.since self.now → IsObserved stretches result }
        ensures mean { result.mean ≤ 1000 * max_asked }
        ensures deviation { result.deviation ≤ 1000 * max_asked }
    {
        let micros = u128::from(self.since - self.began);
        let mean = self.area * 1000 / micros;
        let squares = self.squares * 1_000_000 / micros;
        let deviation = root_of(squares.saturating_sub(mean * mean));
        Observed {
            high: self.high,
            mean: mean as u64,
            deviation,
        }
    }
}

/// What the requests of a level asked for lately, in thousandths of a seat: the mean and the deviation of the last period, or what
/// they asked for before that, which falls by 23 thousandths of its distance to these in each period.
pub fn smoothed_with(smoothed: u64, observed: Observed) -> u64
    requires few { smoothed ≤ 2000 * max_asked }
    requires mean { observed.mean ≤ 1000 * max_asked }
    requires deviation { observed.deviation ≤ 1000 * max_asked }
    ensures value { result ≡ smoothed_with smoothed observed.mean observed.deviation }
    ensures few { result ≤ 2000 * max_asked }
{
    let envelope = observed.mean + observed.deviation;
    envelope.max((977 * smoothed + 23 * envelope) / 1000)
}
