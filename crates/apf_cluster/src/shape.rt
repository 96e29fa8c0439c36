//! What a level is opened with.

ghost use Rattle.std.specs.Prelude.{◌≡◌, ◌*◌, ◌≤◌};
ghost use Rattle.apf_simulator.specs.Lanes.{most_slots};
ghost use Rattle.apf_cluster.specs.Shapes as spec;

use apf_cluster_tables::limit_of;
use apf_model::{Config, Response};
use apf_objects::{LevelSettings, Queuing};
use apf_simulator::MOST_SLOTS;
use apf_words::MAX_LIMIT;

// The settings of a level with these queues, or without queues.
fn config_with(queuing: Option<Queuing>, limit: u32) -> Config
    ensures { result ≡ spec.config_with queuing limit }
{
    match queuing {
        Some(queuing) => Config {
            limit,
            queues: queuing.queues,
            hand_size: queuing.hand_size,
            queue_length_limit: queuing.queue_length_limit,
            limit_response: Response::Queue,
        },
        None => Config {
            limit,
            queues: 1,
            hand_size: 1,
            queue_length_limit: 1,
            limit_response: Response::Reject,
        },
    }
}

/// What a level of these settings and this nominal limit is opened with. One that is exempt has as many seats as requests can be
/// there at once, so it holds none back.
pub(crate) fn config_of(settings: &LevelSettings, nominal: u64) -> Config
    ensures { result ≡ spec.config_of settings.now nominal }
{
    if settings.is_exempt {
        config_with(None, MAX_LIMIT)
    } else {
        config_with(settings.queuing, limit_of(nominal))
    }
}

// How many requests can wait on a level.
fn waiting_of(config: &Config) -> u64
    ensures { result ≡ spec.waiting_by config.now.limit_response (config.now.queues * config.now.queue_length_limit) }
{
    match config.limit_response {
        Response::Queue => u64::from(config.queues) * u64::from(config.queue_length_limit),
        Response::Reject => 0,
    }
}

/// How many slots a level has: as many as requests can execute and wait, and one for a request that arrives; at most 10,000.
pub(crate) fn slots_of(config: &Config) -> u32
    ensures is { result ≡ spec.slots_of config.now }
    ensures some { 1 ≤ result }
    ensures few { result ≤ most_slots }
{
    let most = u64::from(MOST_SLOTS);
    let waiting = waiting_of(config).min(most);
    (u64::from(config.limit) + waiting + 1).min(most) as u32
}
