//! A scenario with changes.

ghost use Rattle.std.specs.Prelude.{◌≡◌, ◌≢◌, ◌<◌, ◌++◌, ◌∷◌, [], IfOk, IfErr, OnOk, Ok, Err, map, length, string_bytes};
ghost use Rattle.apf_changes.specs.Applying as spec;
ghost use Rattle.apf_changes.specs.Changes.{change_view};
ghost use Rattle.apf_changes.specs.Scenarios.{assigned_view, scenario_view};

use crate::amount::judged;
use crate::change::{Amount, Change, LevelChange, SchemaChange};
use crate::fault::{Bounds, ChangeFault};
use crate::levels::change_level;
use crate::numbers::{nominal_seats, rate_in};
use crate::reading::read_change;
use crate::scenario::{Assigned, MAX_RATE, Scenario};
use crate::schemas::{absent, schema_place, with_schema_change, with_schema_level};
use apf_matching::MAX_SEATS;
use std::alloc::{AllocError, Global};

/// The change that was refused, counted from 0, and why.
#[derive(Clone, Copy, Debug, PartialEq, Eq)]
pub struct Refused {
    pub place: usize,
    pub fault: ChangeFault,
}

// Puts a number that was set of this name behind the others.
fn assign(
    alloc: Global,
    assigned: &mut Vec<Assigned>,
    name: &str,
    number: u32,
) -> Result<(), AllocError>
    ensures { OnOk result (map assigned_view assigned.new.items ≡ map assigned_view assigned.old.items ++ record { name = name.now; number = number } ∷ []) }
{
    let name = String::from_str(alloc, name)?;
    assigned.push(Assigned { name, number })?;
    Ok(())
}

// The rate that is asked for where these are set.
#[tactic(auto, unfolding(crate::specs::Applying::with_rate))]
fn add_rate(
    alloc: Global,
    rates: &mut Vec<Assigned>,
    name: &str,
    amount: Amount,
) -> Result<(), ChangeFault>
    ensures ok { OnOk result (spec.with_rate name.now amount (map assigned_view rates.old.items) ≡ Ok (map assigned_view rates.new.items)) }
    ensures err { IfErr result (λ fault. fault ≢ ChangeFault.NoMemory → spec.with_rate name.now amount (map assigned_view rates.old.items) ≡ Err fault) }
{
    let bounds = Bounds {
        low: 0,
        high: MAX_RATE,
    };
    let rate = judged(amount, Some(rate_in(rates.as_slice(), name)), bounds)?;
    if assign(alloc, rates, name, rate).is_err() {
        return Err(ChangeFault::NoMemory);
    }
    Ok(())
}

// With other seats of the server.
#[tactic(auto, unfolding(crate::specs::Applying::with_server_seats))]
fn with_server_seats(mut scenario: Scenario, amount: Amount) -> Result<Scenario, ChangeFault>
    ensures ok { IfOk result (λ after. spec.with_server_seats amount (scenario_view scenario) ≡ Ok (scenario_view after)) }
    ensures err { IfErr result (λ fault. spec.with_server_seats amount (scenario_view scenario) ≡ Err fault) }
{
    let bounds = Bounds {
        low: 1,
        high: MAX_SEATS,
    };
    scenario.seats = judged(amount, Some(scenario.seats), bounds)?;
    Ok(scenario)
}

// With a fixed nominal limit of the level of this name.
#[tactic(auto, unfolding(crate::specs::Applying::with_level_seats))]
fn with_level_seats(
    alloc: Global,
    mut scenario: Scenario,
    name: &str,
    amount: Amount,
) -> Result<Scenario, ChangeFault>
    ensures ok { IfOk result (λ after. spec.with_level_seats name.now amount (scenario_view scenario) ≡ Ok (scenario_view after)) }
    ensures err { IfErr result (λ fault. fault ≢ ChangeFault.NoMemory → spec.with_level_seats name.now amount (scenario_view scenario) ≡ Err fault) }
{
    let Some(nominal) = nominal_seats(&scenario, name) else {
        return Err(ChangeFault::NoLevel);
    };
    let bounds = Bounds {
        low: 0,
        high: MAX_SEATS,
    };
    let seats = judged(amount, Some(nominal), bounds)?;
    if assign(alloc, &mut scenario.nominal, name, seats).is_err() {
        return Err(ChangeFault::NoMemory);
    }
    Ok(scenario)
}

// With another rate of the schema of this name.
fn with_schema_rate(
    alloc: Global,
    mut scenario: Scenario,
    name: &str,
    amount: Amount,
) -> Result<Scenario, ChangeFault>
    ensures ok { IfOk result (λ after. spec.with_schema_rate name.now amount (scenario_view scenario) ≡ Ok (scenario_view after)) }
    ensures err { IfErr result (λ fault. fault ≢ ChangeFault.NoMemory → spec.with_schema_rate name.now amount (scenario_view scenario) ≡ Err fault) }
{
    let Some(_) = schema_place(scenario.cluster.schemas.as_slice(), name) else {
        return Err(absent(scenario.cluster.dangling.as_slice(), name));
    };
    add_rate(alloc, &mut scenario.schema_rates, name, amount)?;
    Ok(scenario)
}

// With another rate of the user of this name.
#[tactic(auto, unfolding(crate::specs::Applying::with_user_rate))]
fn with_user_rate(
    alloc: Global,
    mut scenario: Scenario,
    name: &str,
    amount: Amount,
) -> Result<Scenario, ChangeFault>
    ensures ok { IfOk result (λ after. spec.with_user_rate name.now amount (scenario_view scenario) ≡ Ok (scenario_view after)) }
    ensures err { IfErr result (λ fault. fault ≢ ChangeFault.NoMemory → spec.with_user_rate name.now amount (scenario_view scenario) ≡ Err fault) }
{
    add_rate(alloc, &mut scenario.user_rates, name, amount)?;
    Ok(scenario)
}

// With a change of the level of this name.
#[tactic(auto, unfolding(crate::specs::Applying::with_level))]
fn with_level(
    mut scenario: Scenario,
    name: &str,
    change: LevelChange,
) -> Result<Scenario, ChangeFault>
    ensures ok { IfOk result (λ after. spec.with_level name.now change (scenario_view scenario) ≡ Ok (scenario_view after)) }
    ensures err { IfErr result (λ fault. spec.with_level name.now change (scenario_view scenario) ≡ Err fault) }
{
    change_level(&mut scenario.cluster.levels, name, change)?;
    Ok(scenario)
}

// With a change of the schema of this name.
#[tactic(auto, unfolding(crate::specs::Applying::with_schema))]
fn with_schema(
    alloc: Global,
    mut scenario: Scenario,
    name: &str,
    change: SchemaChange,
) -> Result<Scenario, ChangeFault>
    ensures ok { IfOk result (λ after. spec.with_schema name.now change (scenario_view scenario) ≡ Ok (scenario_view after)) }
    ensures err { IfErr result (λ fault. fault ≢ ChangeFault.NoMemory → spec.with_schema name.now change (scenario_view scenario) ≡ Err fault) }
{
    scenario.cluster = with_schema_change(alloc, scenario.cluster, name, change)?;
    Ok(scenario)
}

// With another level of the schema of this name.
#[tactic(auto, unfolding(crate::specs::Applying::with_level_of))]
fn with_level_of(
    alloc: Global,
    mut scenario: Scenario,
    name: &str,
    level: &str,
) -> Result<Scenario, ChangeFault>
    ensures ok { IfOk result (λ after. spec.with_level_of name.now level.now (scenario_view scenario) ≡ Ok (scenario_view after)) }
    ensures err { IfErr result (λ fault. fault ≢ ChangeFault.NoMemory → spec.with_level_of name.now level.now (scenario_view scenario) ≡ Err fault) }
{
    scenario.cluster = with_schema_level(alloc, scenario.cluster, name, level)?;
    Ok(scenario)
}

/// A scenario with a change. What the change does not name is as it was. The schemas are in their order where a precedence or a
/// dangling schema was changed.
///
/// # Errors
///
/// Each but `NoValue`, `UnknownKey` and `BadValue`. `NoMemory` only where memory was refused.
pub fn apply(
    alloc: Global,
    scenario: Scenario,
    change: &Change<'_>,
) -> Result<Scenario, ChangeFault>
    ensures ok { IfOk result (λ after. spec.with_change (change_view change.now) (scenario_view scenario) ≡ Ok (scenario_view after)) }
    ensures err { IfErr result (λ fault. fault ≢ ChangeFault.NoMemory → spec.with_change (change_view change.now) (scenario_view scenario) ≡ Err fault) }
{
    match *change {
        Change::ServerSeats(amount) => with_server_seats(scenario, amount),
        Change::LevelSeats(level, amount) => with_level_seats(alloc, scenario, level, amount),
        Change::UserRate(user, amount) => with_user_rate(alloc, scenario, user, amount),
        Change::SchemaRate(schema, amount) => with_schema_rate(alloc, scenario, schema, amount),
        Change::Level(level, change) => with_level(scenario, level, change),
        Change::Schema(schema, change) => with_schema(alloc, scenario, schema, change),
        Change::SchemaLevel(schema, level) => with_level_of(alloc, scenario, schema, level),
    }
}

// A scenario with the change that a text asks for.
#[tactic(auto, unfolding(crate::specs::Applying::with_text))]
fn apply_text(alloc: Global, scenario: Scenario, text: &str) -> Result<Scenario, ChangeFault>
    ensures ok { IfOk result (λ after. spec.with_text text.now (scenario_view scenario) ≡ Ok (scenario_view after)) }
    ensures err { IfErr result (λ fault. fault ≢ ChangeFault.NoMemory → spec.with_text text.now (scenario_view scenario) ≡ Err fault) }
{
    let change = read_change(text)?;
    apply(alloc, scenario, &change)
}

/// A scenario with the changes of these texts, one after the other: each is read and carried out before the next one is read.
///
/// # Errors
///
/// The first fault, and the place of its text. `NoMemory` only where memory was refused.
pub fn apply_all(
    alloc: Global,
    mut scenario: Scenario,
    texts: &[String],
) -> Result<Scenario, Refused>
    ensures ok { IfOk result (λ after. spec.with_texts 0 (map string_bytes texts.now) (scenario_view scenario) ≡ Ok (scenario_view after)) }
    ensures err { IfErr result (λ refused. refused.fault ≢ ChangeFault.NoMemory
        → spec.with_texts 0 (map string_bytes texts.now) (scenario_view scenario) ≡ Err refused) }
    ensures place { IfErr result (λ refused. refused.place < length texts.now) }
{
    for (place, text) in texts.iter().enumerate() {
        match apply_text(alloc, scenario, text.as_str()) {
            Ok(after) => scenario = after,
            Err(fault) => return Err(Refused { place, fault }),
        }
    }
    Ok(scenario)
}
