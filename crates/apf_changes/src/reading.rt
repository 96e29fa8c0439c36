//! The change that a text asks for.

ghost use Rattle.std.specs.Prelude.{◌≡◌, IfOk, IfErr, Ok, Err};
ghost use Rattle.apf_changes.specs.Changes.{change_view};
ghost use Rattle.apf_changes.specs.Reading as spec;

use crate::amount::{amount_of, rate_of};
use crate::change::{Amount, Change, LevelChange, LevelNumber, Response, SchemaChange};
use crate::fault::{ChangeFault, Wanted};
use crate::texts::{around_dot, around_equals, behind};
use apf_objects::Distinguisher;

// The number of a text.
fn number_in(value: &str) -> Result<Amount, ChangeFault>
    ensures { result ≡ spec.number_in value.now }
{
    amount_of(value).ok_or(ChangeFault::BadValue(Wanted::Number))
}

// The rate of a text.
fn rate_in(value: &str) -> Result<Amount, ChangeFault>
    ensures { result ≡ spec.rate_in value.now }
{
    rate_of(value).ok_or(ChangeFault::BadValue(Wanted::Rate))
}

// How much a level borrows at most.
fn borrowing_in(value: &str) -> Result<LevelChange, ChangeFault>
    ensures { result ≡ spec.borrowing_in value.now }
{
    if value == "none" {
        return Ok(LevelChange::BorrowsAll);
    }
    match amount_of(value) {
        Some(amount) => Ok(LevelChange::Number(LevelNumber::Borrowing, amount)),
        None => Err(ChangeFault::BadValue(Wanted::NumberOrNone)),
    }
}

// What becomes of a request that does not fit.
fn response_in(value: &str) -> Result<LevelChange, ChangeFault>
    ensures { result ≡ spec.response_in value.now }
{
    if value == "Queue" {
        Ok(LevelChange::Response(Response::Queue))
    } else if value == "Reject" {
        Ok(LevelChange::Response(Response::Reject))
    } else {
        Err(ChangeFault::BadValue(Wanted::Response))
    }
}

// What makes a flow within a schema.
fn by_in(value: &str) -> Result<SchemaChange, ChangeFault>
    ensures { result ≡ spec.by_in value.now }
{
    if value == "user" {
        Ok(SchemaChange::By(Distinguisher::User))
    } else if value == "namespace" {
        Ok(SchemaChange::By(Distinguisher::Namespace))
    } else if value == "none" {
        Ok(SchemaChange::By(Distinguisher::Nothing))
    } else {
        Err(ChangeFault::BadValue(Wanted::Distinguisher))
    }
}

// The number of a level of this name.
fn number_named(setting: &str) -> Option<LevelNumber>
    ensures { result ≡ spec.number_named setting.now }
{
    if setting == "shares" {
        Some(LevelNumber::Shares)
    } else if setting == "lendable" {
        Some(LevelNumber::Lendable)
    } else if setting == "queues" {
        Some(LevelNumber::Queues)
    } else if setting == "hand" {
        Some(LevelNumber::Hand)
    } else if setting == "length" {
        Some(LevelNumber::Length)
    } else {
        None
    }
}

// What is changed of a level, but for its nominal limit.
#[tactic(auto, unfolding(crate::specs::Reading::level_change))]
fn level_change(setting: &str, value: &str) -> Result<LevelChange, ChangeFault>
    ensures { result ≡ spec.level_change setting.now value.now }
{
    if setting == "borrowing" {
        return borrowing_in(value);
    }
    if setting == "response" {
        return response_in(value);
    }
    let number = number_named(setting).ok_or(ChangeFault::UnknownKey)?;
    Ok(LevelChange::Number(number, number_in(value)?))
}

// The change of the level of this name.
#[tactic(auto, unfolding(crate::specs::Reading::of_level))]
fn of_level<'a>(level: &'a str, setting: &str, value: &str) -> Result<Change<'a>, ChangeFault>
    ensures ok { IfOk result (λ change. spec.of_level level.now setting.now value.now ≡ Ok (change_view change)) }
    ensures err { IfErr result (λ fault. spec.of_level level.now setting.now value.now ≡ Err fault) }
{
    if setting == "seats" {
        return Ok(Change::LevelSeats(level, number_in(value)?));
    }
    Ok(Change::Level(level, level_change(setting, value)?))
}

// The change of the schema of this name.
#[tactic(auto, unfolding(crate::specs::Reading::of_schema))]
fn of_schema<'a>(schema: &'a str, setting: &str, value: &'a str) -> Result<Change<'a>, ChangeFault>
    ensures ok { IfOk result (λ change. spec.of_schema schema.now setting.now value.now ≡ Ok (change_view change)) }
    ensures err { IfErr result (λ fault. spec.of_schema schema.now setting.now value.now ≡ Err fault) }
{
    if setting == "precedence" {
        let precedence = SchemaChange::Precedence(number_in(value)?);
        Ok(Change::Schema(schema, precedence))
    } else if setting == "level" {
        Ok(Change::SchemaLevel(schema, value))
    } else if setting == "by" {
        Ok(Change::Schema(schema, by_in(value)?))
    } else if setting == "rate" {
        Ok(Change::SchemaRate(schema, rate_in(value)?))
    } else {
        Err(ChangeFault::UnknownKey)
    }
}

// The change of the user of this name.
#[tactic(auto, unfolding(crate::specs::Reading::of_user))]
fn of_user<'a>(user: &'a str, setting: &str, value: &str) -> Result<Change<'a>, ChangeFault>
    ensures ok { IfOk result (λ change. spec.of_user user.now setting.now value.now ≡ Ok (change_view change)) }
    ensures err { IfErr result (λ fault. spec.of_user user.now setting.now value.now ≡ Err fault) }
{
    if setting == "rate" {
        Ok(Change::UserRate(user, rate_in(value)?))
    } else {
        Err(ChangeFault::UnknownKey)
    }
}

// The change of a setting of what this names.
#[tactic(auto, unfolding(crate::specs::Reading::of_name))]
fn of_name<'a>(name: &'a str, setting: &str, value: &'a str) -> Result<Change<'a>, ChangeFault>
    ensures ok { IfOk result (λ change. spec.of_name name.now setting.now value.now ≡ Ok (change_view change)) }
    ensures err { IfErr result (λ fault. spec.of_name name.now setting.now value.now ≡ Err fault) }
{
    if name == "server" && setting == "seats" {
        return Ok(Change::ServerSeats(number_in(value)?));
    }
    if let Some(schema) = behind("schema:", name) {
        return of_schema(schema, setting, value);
    }
    if let Some(user) = behind("user:", name) {
        return of_user(user, setting, value);
    }
    of_level(name, setting, value)
}

/// Reads what is changed: a text `KEY=VALUE`.
///
/// The last `=` splits it, and the last dot of the key is before what is set. So a name may hold dots, colons and `=`.
///
/// | Key | Value |
/// |---|---|
/// | `LEVEL.shares`, `.lendable`, `.queues`, `.hand`, `.length`, `.seats` | a number |
/// | `LEVEL.borrowing` | a number, or `none` |
/// | `LEVEL.response` | `Queue` or `Reject` |
/// | `schema:NAME.precedence` | a number |
/// | `schema:NAME.level` | the name of a level |
/// | `schema:NAME.by` | `user`, `namespace` or `none` |
/// | `schema:NAME.rate`, `user:NAME.rate` | `0`; or a number with `x` behind it, `2x` |
/// | `server.seats` | a number |
///
/// A number is of decimal digits, and below 2^32. `*2` in its place is twice what stands there, and `+20` is 20 more.
///
/// # Errors
///
/// `NoValue`, `UnknownKey` and `BadValue`, in this order. Whether the names are there, and the numbers within their bounds, is not asked.
#[tactic(auto, unfolding(crate::specs::Reading::change_of))]
pub fn read_change(text: &str) -> Result<Change<'_>, ChangeFault>
    ensures ok { IfOk result (λ change. spec.change_of text.now ≡ Ok (change_view change)) }
    ensures err { IfErr result (λ fault. spec.change_of text.now ≡ Err fault) }
{
    let Some((key, value)) = around_equals(text) else {
        return Err(ChangeFault::NoValue);
    };
    let Some((name, setting)) = around_dot(key) else {
        return Err(ChangeFault::UnknownKey);
    };
    of_name(name, setting, value)
}
