//! The settings of most levels that are tested.

use apf_book::{Ask, Config};
use apf_model::Response;

/// A level with one queue, which has room for 10 requests.
pub fn settings(limit: u32) -> Config {
    Config {
        limit,
        queues: 1,
        hand_size: 1,
        queue_length_limit: 10,
        limit_response: Response::Queue,
    }
}

/// A request that takes this many seats, of the one flow.
pub fn ask(width: u32) -> Ask {
    Ask { width, hash: 7 }
}
