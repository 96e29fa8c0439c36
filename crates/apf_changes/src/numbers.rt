//! The numbers of a scenario: nominal limits, and how often each request comes.

ghost use Rattle.std.specs.Prelude.{◌≡◌, ◌≤◌, map, length, find, option_map};
ghost use Rattle.apf_matching.specs.Limits.{max_seats, nominal_of as part_of, sum_of_shares as sum_of_all};
ghost use Rattle.apf_objects.specs.Levels.{level_view};
ghost use Rattle.apf_changes.specs.Lists.{is_level};
ghost use Rattle.apf_changes.specs.Scenarios as spec;

use crate::levels::level_place;
use crate::scenario::{Assigned, Scenario};
use apf_matching::{limits_of, sum_of_shares};
use apf_objects::{Level, LevelSettings};

/// The last number that was set of this name. None if none was.
pub fn last_of(assigned: &[Assigned], name: &str) -> Option<u32>
    ensures { result ≡ spec.last_of name.now (map spec.assigned_view assigned.now) }
{
    let mut last = None;
    let mut rest = assigned;
    while let Some((one, others)) = rest.split_first() {
        if one.name.as_str() == name {
            last = Some(one.number);
        }
        rest = others;
    }
    last
}

/// How often each request of this name comes: once where nothing was set.
pub(crate) fn rate_in(rates: &[Assigned], name: &str) -> u32
    ensures { result ≡ spec.rate_in (map spec.assigned_view rates.now) name.now }
{
    last_of(rates, name).unwrap_or(1)
}

/// How often each request comes that is of this user and of this schema: as often as was set of the user, times as often as
/// was set of the schema.
pub fn rate_of(scenario: &Scenario, user: &str, schema: &str) -> u64
    ensures { result ≡ spec.rate_of (spec.scenario_view scenario.now) user.now schema.now }
{
    let by_user = rate_in(scenario.user_rates.as_slice(), user);
    let by_schema = rate_in(scenario.schema_rates.as_slice(), schema);
    u64::from(by_user) * u64::from(by_schema)
}

// The share of a level of a server's seats, rounded up, where these are all levels.
#[tactic(auto, using(crate::proofs::Parts::not_above))]
fn share_of(settings: &LevelSettings, levels: &[Level], seats: u32) -> u32
    requires part { settings.now.shares ≤ sum_of_all (map level_view levels.now) }
    requires few { length levels.now ≤ 1000 }
    requires seats { seats ≤ max_seats }
    ensures { result ≡ part_of seats settings.now.shares (sum_of_all (map level_view levels.now)) }
{
    limits_of(settings, seats, sum_of_shares(levels)).nominal as u32
}

/// The nominal limit of the level of this name, in seats: the one that was fixed, or else its share of the server's seats,
/// rounded up. None if no level has the name.
pub fn nominal_seats(scenario: &Scenario, name: &str) -> Option<u32>
    ensures { result ≡ option_map (spec.nominal_of (spec.scenario_view scenario.now))
        (find (is_level name.now) (map level_view scenario.now.cluster.levels.items)) }
{
    let levels = scenario.cluster.levels.as_slice();
    let Some(place) = level_place(levels, name) else {
        return None;
    };
    match last_of(scenario.nominal.as_slice(), name) {
        Some(seats) => Some(seats),
        None => Some(share_of(&levels[place].settings, levels, scenario.seats)),
    }
}
