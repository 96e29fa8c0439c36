//! The settings of a level with a change.

ghost use Rattle.std.specs.Prelude.{◌≡◌};
ghost use Rattle.apf_changes.specs.Levels as spec;

use crate::amount::judged;
use crate::change::{LevelChange, LevelNumber, Response};
use crate::fault::{Bounds, ChangeFault};
use apf_files::MAX_HAND_SIZE;
use apf_objects::{LevelSettings, MAX_SHARES, Queuing};
use apf_words::{MAX_QUEUE_LENGTH, MAX_QUEUES};

// Within which bounds a number of a level is.
fn bounds_of(number: LevelNumber) -> Bounds
    ensures { result ≡ spec.bounds_of number }
{
    let (low, high) = match number {
        LevelNumber::Shares | LevelNumber::Borrowing => (0, MAX_SHARES),
        LevelNumber::Lendable => (0, 100),
        LevelNumber::Queues => (1, MAX_QUEUES),
        LevelNumber::Hand => (1, MAX_HAND_SIZE),
        LevelNumber::Length => (1, MAX_QUEUE_LENGTH),
    };
    Bounds { low, high }
}

// The queues of a level, which has to have some.
fn queuing_of(settings: &LevelSettings) -> Result<Queuing, ChangeFault>
    ensures { result ≡ spec.queuing_of settings.now }
{
    if settings.is_exempt {
        return Err(ChangeFault::Exempt);
    }
    settings.queuing.ok_or(ChangeFault::NoQueues)
}

// The number that stands there. None where the level borrows as many seats as there are.
fn standing(number: LevelNumber, settings: &LevelSettings) -> Result<Option<u32>, ChangeFault>
    ensures { result ≡ spec.standing number settings.now }
{
    match number {
        LevelNumber::Shares => Ok(Some(settings.shares)),
        LevelNumber::Lendable => Ok(Some(settings.lendable_percent)),
        LevelNumber::Borrowing => {
            if settings.is_exempt {
                return Err(ChangeFault::Exempt);
            }
            Ok(settings.borrowing_percent)
        }
        LevelNumber::Queues => Ok(Some(queuing_of(settings)?.queues)),
        LevelNumber::Hand => Ok(Some(queuing_of(settings)?.hand_size)),
        LevelNumber::Length => Ok(Some(queuing_of(settings)?.queue_length_limit)),
    }
}

// The queues with a number of theirs.
fn with_queue_number(queuing: Queuing, number: LevelNumber, value: u32) -> Queuing
    ensures { result ≡ spec.with_queue_number number value queuing }
{
    match number {
        LevelNumber::Queues => Queuing {
            queues: value,
            ..queuing
        },
        LevelNumber::Hand => Queuing {
            hand_size: value,
            ..queuing
        },
        LevelNumber::Length => Queuing {
            queue_length_limit: value,
            ..queuing
        },
        LevelNumber::Shares | LevelNumber::Lendable | LevelNumber::Borrowing => queuing,
    }
}

// The settings with a number of theirs.
fn with_number(settings: LevelSettings, number: LevelNumber, value: u32) -> LevelSettings
    ensures { result ≡ spec.with_number number value settings }
{
    match number {
        LevelNumber::Shares => LevelSettings {
            shares: value,
            ..settings
        },
        LevelNumber::Lendable => LevelSettings {
            lendable_percent: value,
            ..settings
        },
        LevelNumber::Borrowing => LevelSettings {
            borrowing_percent: Some(value),
            ..settings
        },
        LevelNumber::Queues | LevelNumber::Hand | LevelNumber::Length => LevelSettings {
            queuing: settings
                .queuing
                .map(|queuing| with_queue_number(queuing, number, value)),
            ..settings
        },
    }
}

// The queues of a level with this response, which had these.
fn queuing_by(response: Response, queuing: Option<Queuing>) -> Option<Queuing>
    ensures { result ≡ spec.queuing_by response queuing }
{
    match response {
        Response::Queue => Some(queuing.unwrap_or(Queuing {
            queues: 64,
            hand_size: 8,
            queue_length_limit: 50,
        })),
        Response::Reject => None,
    }
}

/// The settings with a change.
#[tactic(auto, unfolding(crate::specs::Levels::settings_with))]
pub(crate) fn settings_with(
    settings: LevelSettings,
    change: LevelChange,
) -> Result<LevelSettings, ChangeFault>
    ensures { result ≡ spec.settings_with change settings }
{
    match change {
        LevelChange::Number(number, amount) => {
            let stands = standing(number, &settings)?;
            let value = judged(amount, stands, bounds_of(number))?;
            Ok(with_number(settings, number, value))
        }
        LevelChange::BorrowsAll if !settings.is_exempt => Ok(LevelSettings {
            borrowing_percent: None,
            ..settings
        }),
        LevelChange::Response(response) if !settings.is_exempt => Ok(LevelSettings {
            queuing: queuing_by(response, settings.queuing),
            ..settings
        }),
        LevelChange::BorrowsAll | LevelChange::Response(_) => Err(ChangeFault::Exempt),
    }
}
