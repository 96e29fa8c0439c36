//! The nominal, least and largest limit of a level.

ghost use Rattle.std.specs.Prelude.{◌≡◌, ◌≤◌, map, length};
ghost use Rattle.apf_matching.specs.Limits as spec;
ghost use Rattle.apf_objects.specs.Levels.{level_view};

use apf_objects::{Level, LevelSettings};

/// The most seats of a server.
pub const MAX_SEATS: u32 = 1_000_000;

/// The limits of a level, in seats.
#[derive(Clone, Copy, Debug, PartialEq, Eq)]
pub struct LevelLimits {
    /// Its share of the server's seats, rounded up.
    pub nominal: u64,
    /// How many of these it lends at most.
    pub lendable: u64,
    /// How many more it borrows at most.
    pub borrowing: u64,
}

/// The shares of all levels together.
pub fn sum_of_shares(levels: &[Level]) -> u64
    requires { length levels.now ≤ 1000 }
    ensures value { result ≡ spec.sum_of_shares (map level_view levels.now) }
    ensures most { result ≤ 4294967295000 }
{
    let mut sum = 0;
    let mut rest = levels;
    while let Some((level, others)) = rest.split_first() {
        sum += u64::from(level.settings.shares);
        rest = others;
    }
    sum
}

// The level's share of the server's seats, rounded up, where all levels have this many shares together.
#[tactic(auto, using(crate::proofs::Shares::not_above))]
fn nominal_of(seats: u32, shares: u32, all: u64) -> u64
    requires part { shares ≤ all }
    requires most { all ≤ 4294967295000 }
    requires few { seats ≤ spec.max_seats }
    ensures value { result ≡ spec.nominal_of seats shares all }
    ensures within { result ≤ seats }
{
    if all == 0 {
        return 0;
    }
    (u64::from(seats) * u64::from(shares) + (all - 1)) / all
}

// This many per cent of a number, halves rounded up.
fn percent_of(number: u64, percent: u32) -> u64
    requires { number ≤ 4294967295 }
    ensures { result ≡ spec.percent_of number percent }
{
    (number * u64::from(percent) + 50) / 100
}

/// The limits of a level of a server with this many seats, where all levels have this many shares together.
pub fn limits_of(settings: &LevelSettings, seats: u32, all: u64) -> LevelLimits
    requires part { settings.now.shares ≤ all }
    requires most { all ≤ 4294967295000 }
    requires few { seats ≤ spec.max_seats }
    ensures { result ≡ spec.limits_of settings.now seats all }
{
    let nominal = nominal_of(seats, settings.shares, all);
    let lendable = percent_of(nominal, settings.lendable_percent);
    let borrowing = match settings.borrowing_percent {
        Some(percent) => percent_of(nominal, percent),
        None => u64::from(seats),
    };
    LevelLimits {
        nominal,
        lendable,
        borrowing,
    }
}
