//! The limits of a level, whose nominal one may be fixed.

ghost use Rattle.std.specs.Prelude.{◌≡◌, ◌≤◌, map};
ghost use Rattle.apf_changes.specs.Scenarios.{assigned_view};
ghost use Rattle.apf_matching.specs.Limits.{max_seats};
ghost use Rattle.apf_objects.specs.Levels.{level_view};
ghost use Rattle.apf_cluster.specs.Runs.{limits_in as limits_said};
ghost use Rattle.apf_cluster.specs.Shapes as spec;

use crate::running::ClusterTerms;
use apf_changes::{Assigned, last_of};
use apf_matching::{LevelLimits, MAX_SEATS, limits_of};
use apf_objects::{Level, LevelSettings};

// The limits of a level whose nominal one is this, of a server with this many seats.
fn limits_by(settings: &LevelSettings, seats: u32, nominal: u32) -> LevelLimits
    requires { nominal ≤ max_seats }
    ensures { result ≡ spec.limits_by settings.now seats nominal }
{
    let whole = LevelSettings {
        shares: 1,
        ..*settings
    };
    let mut limits = limits_of(&whole, nominal, 1);
    if settings.borrowing_percent.is_none() {
        limits.borrowing = u64::from(seats);
    }
    limits
}

/// The limits of a level, where all levels have this many shares, and these nominal limits were fixed. A fixed one counts as
/// 1,000,000 if it is more.
pub(crate) fn limits_in(
    level: &Level,
    terms: ClusterTerms,
    fixed: &[Assigned],
    all: u64,
) -> LevelLimits
    requires part { level.now.settings.shares ≤ all }
    requires most { all ≤ 4294967295000 }
    requires few { terms.seats ≤ max_seats }
    ensures { result ≡ limits_said terms (map assigned_view fixed.now) all (level_view level.now) }
{
    match last_of(fixed, level.name.as_str()) {
        Some(nominal) => limits_by(&level.settings, terms.seats, nominal.min(MAX_SEATS)),
        None => limits_of(&level.settings, terms.seats, all),
    }
}
