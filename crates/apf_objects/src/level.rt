//! A PriorityLevelConfiguration.

ghost use Rattle.std.specs.Prelude.{◌≡◌, ◌≢◌, ◌≤◌, IfOk, IfErr, IfSome, Some, Ok, Err};
ghost use Rattle.serde_json.specs.View.{view};
ghost use Rattle.apf_objects.specs.Levels as spec;
ghost use Rattle.apf_objects.specs.Values.{seen};

use crate::fault::{ObjectFault, Place};
use crate::key::ObjectKey;
use crate::value::{at, number_at, owned, part_at, text_at};
use apf_files::MAX_HAND_SIZE;
use apf_words::{MAX_QUEUE_LENGTH, MAX_QUEUES};
use serde_json::Value;
use std::alloc::Global;

/// The most shares of a level, and the most per cent that it may borrow: the largest number of 32 bits with a sign.
pub const MAX_SHARES: u32 = 2_147_483_647;

/// The version of an object's API.
#[derive(Clone, Copy, Debug, PartialEq, Eq)]
pub enum Version {
    V1,
    V1beta3,
    V1beta2,
}

/// The queues of a level.
#[derive(Clone, Copy, Debug, PartialEq, Eq)]
pub struct Queuing {
    /// 1 to 1,024.
    pub queues: u32,
    /// The queues dealt to one flow, 1 to 15.
    pub hand_size: u32,
    /// The requests that may wait in one queue, 1 to 10,000.
    pub queue_length_limit: u32,
}

/// What a level is.
#[derive(Clone, Copy, Debug, PartialEq, Eq)]
pub struct LevelSettings {
    /// Whether its requests are never held back.
    pub is_exempt: bool,
    /// Its shares of the server's seats, 0 to 2,147,483,647.
    pub shares: u32,
    /// How many per cent of its nominal limit it lends at most, 0 to 100.
    pub lendable_percent: u32,
    /// How many per cent of its nominal limit it borrows at most, 0 to 2,147,483,647. None: as many seats as there are.
    pub borrowing_percent: Option<u32>,
    /// The queues in which requests wait. None: they do not wait.
    pub queuing: Option<Queuing>,
}

/// A PriorityLevelConfiguration.
#[derive(Debug, PartialEq, Eq, Drop)]
pub struct Level {
    pub name: String,
    pub settings: LevelSettings,
}

// The key of the shares of a level that is `Limited`.
fn shares_key(version: Version) -> ObjectKey
    ensures { result ≡ spec.shares_key version }
{
    match version {
        Version::V1 | Version::V1beta3 => ObjectKey::NominalShares,
        Version::V1beta2 => ObjectKey::AssuredShares,
    }
}

// The queues of a level.
#[tactic(auto, unfolding(crate::specs::Levels::queuing_at))]
fn queuing_at(response: Option<&Value>, place: Place) -> Result<Queuing, ObjectFault>
    ensures ok { IfOk result (λ queuing. spec.queuing_at place (seen response.entry) ≡ Ok queuing) }
    ensures err { IfErr result (λ fault. spec.queuing_at place (seen response.entry) ≡ Err fault) }
    ensures ranges { IfOk result spec.IsQueuingInRange }
{
    let queuing = part_at(response, place, ObjectKey::Queuing)?;
    let queues = number_at(queuing, place, ObjectKey::Queues, 1, MAX_QUEUES, 64)?;
    let hand_size = number_at(queuing, place, ObjectKey::HandSize, 1, MAX_HAND_SIZE, 8)?;
    let length = ObjectKey::QueueLengthLimit;
    let queue_length_limit = number_at(queuing, place, length, 1, MAX_QUEUE_LENGTH, 50)?;
    Ok(Queuing {
        queues,
        hand_size,
        queue_length_limit,
    })
}

// What becomes of a request that does not fit: the queues, or none where it is rejected.
#[tactic(auto, unfolding(crate::specs::Levels::response_at))]
fn response_at(limited: Option<&Value>, place: Place) -> Result<Option<Queuing>, ObjectFault>
    ensures ok { IfOk result (λ queuing. spec.response_at place (seen limited.entry) ≡ Ok queuing) }
    ensures err { IfErr result (λ fault. spec.response_at place (seen limited.entry) ≡ Err fault) }
    ensures ranges { IfOk result (λ queuing. IfSome queuing spec.IsQueuingInRange) }
{
    let response = part_at(limited, place, ObjectKey::LimitResponse)?;
    let name = text_at(response, place, ObjectKey::ResponseType)?;
    if name == "Queue" {
        Ok(Some(queuing_at(response, place)?))
    } else if name == "Reject" {
        Ok(None)
    } else {
        Err(ObjectFault::BadValue(place, ObjectKey::ResponseType))
    }
}

// How much a level borrows at most.
#[tactic(auto, unfolding(crate::specs::Levels::borrowing_at))]
fn borrowing_at(limited: Option<&Value>, place: Place) -> Result<Option<u32>, ObjectFault>
    ensures ok { IfOk result (λ borrowing. spec.borrowing_at place (seen limited.entry) ≡ Ok borrowing) }
    ensures err { IfErr result (λ fault. spec.borrowing_at place (seen limited.entry) ≡ Err fault) }
    ensures range { IfOk result (λ borrowing. IfSome borrowing (λ n. n ≤ spec.max_shares)) }
{
    let key = ObjectKey::BorrowingLimitPercent;
    if at(limited, key).is_none() {
        return Ok(None);
    }
    Ok(Some(number_at(limited, place, key, 0, MAX_SHARES, 0)?))
}

// A level that holds requests back.
#[tactic(auto, unfolding(crate::specs::Levels::limited_of))]
fn limited_of(
    body: Option<&Value>,
    place: Place,
    version: Version,
) -> Result<LevelSettings, ObjectFault>
    ensures ok { IfOk result (λ settings. spec.limited_of place version (seen body.entry) ≡ Ok settings) }
    ensures err { IfErr result (λ fault. spec.limited_of place version (seen body.entry) ≡ Err fault) }
    ensures ranges { IfOk result spec.AreSettingsInRange }
{
    let limited = part_at(body, place, ObjectKey::Limited)?;
    let shares = number_at(limited, place, shares_key(version), 0, MAX_SHARES, 30)?;
    let lendable_percent = number_at(limited, place, ObjectKey::LendablePercent, 0, 100, 0)?;
    let borrowing_percent = borrowing_at(limited, place)?;
    let queuing = response_at(limited, place)?;
    Ok(LevelSettings {
        is_exempt: false,
        shares,
        lendable_percent,
        borrowing_percent,
        queuing,
    })
}

// A level that holds no request back.
#[tactic(auto, unfolding(crate::specs::Levels::exempt_of))]
fn exempt_of(body: Option<&Value>, place: Place) -> Result<LevelSettings, ObjectFault>
    ensures ok { IfOk result (λ settings. spec.exempt_of place (seen body.entry) ≡ Ok settings) }
    ensures err { IfErr result (λ fault. spec.exempt_of place (seen body.entry) ≡ Err fault) }
    ensures ranges { IfOk result spec.AreSettingsInRange }
{
    let exempt = part_at(body, place, ObjectKey::Exempt)?;
    let shares = number_at(exempt, place, ObjectKey::ExemptShares, 0, MAX_SHARES, 0)?;
    let lendable = ObjectKey::ExemptLendablePercent;
    let lendable_percent = number_at(exempt, place, lendable, 0, 100, 0)?;
    Ok(LevelSettings {
        is_exempt: true,
        shares,
        lendable_percent,
        borrowing_percent: None,
        queuing: None,
    })
}

// What a level of this type is.
#[tactic(auto, unfolding(crate::specs::Levels::settings_of))]
fn settings_of(
    body: Option<&Value>,
    place: Place,
    version: Version,
) -> Result<LevelSettings, ObjectFault>
    ensures ok { IfOk result (λ settings. spec.settings_of place version (seen body.entry) ≡ Ok settings) }
    ensures err { IfErr result (λ fault. spec.settings_of place version (seen body.entry) ≡ Err fault) }
    ensures ranges { IfOk result spec.AreSettingsInRange }
{
    let name = text_at(body, place, ObjectKey::LevelType)?;
    if name == "Limited" {
        limited_of(body, place, version)
    } else if name == "Exempt" {
        exempt_of(body, place)
    } else {
        Err(ObjectFault::BadValue(place, ObjectKey::LevelType))
    }
}

/// The name of an object.
#[tactic(auto, unfolding(crate::specs::Levels::name_of))]
pub(crate) fn name_of<'a>(object: &'a Value, place: Place) -> Result<&'a str, ObjectFault>
    ensures ok { IfOk result (λ name. spec.name_of place (view object.now) ≡ Ok name.now) }
    ensures err { IfErr result (λ fault. spec.name_of place (view object.now) ≡ Err fault) }
{
    let metadata = part_at(Some(object), place, ObjectKey::Metadata)?;
    text_at(metadata, place, ObjectKey::Name)
}

/// The level that an object is.
#[tactic(auto, unfolding(crate::specs::Levels::level_of))]
pub(crate) fn level_of(
    alloc: Global,
    object: &Value,
    place: Place,
    version: Version,
) -> Result<Level, ObjectFault>
    ensures ok { IfOk result (λ level. spec.level_of place version (view object.now) ≡ Ok (spec.level_view level)) }
    ensures err { IfErr result (λ fault. fault ≢ ObjectFault.NoMemory → spec.level_of place version (view object.now) ≡ Err fault) }
    ensures ranges { IfOk result (λ level. spec.AreSettingsInRange level.settings) }
{
    let name = name_of(object, place)?;
    let body = part_at(Some(object), place, ObjectKey::Spec)?;
    let settings = settings_of(body, place, version)?;
    Ok(Level {
        name: owned(alloc, name)?,
        settings,
    })
}
