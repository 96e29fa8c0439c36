//! What a level of a seed is opened with.

use crate::levels::stress::random::Random;
use apf_book::{Ask, Config};
use apf_model::Response;
use std::alloc::{AllocError, Global};

/// How many threads step on the level, each with a Station.
pub const THREADS: u32 = 8;

/// The least limit that is set, in seats.
pub const LEAST_LIMIT: u64 = 3;

/// The greatest limit that is set, in seats.
pub const MOST_LIMIT: u64 = 6;

// How many flows there are. A quarter of the requests is of the first one.
const FLOWS: u64 = 24;

// Which part of a seed is whose.
const REQUESTS_PART: u64 = 100;

const FLOWS_PART: u64 = 200;

/// A level of the greatest limit, with eight queues.
pub fn settings() -> Config {
    Config {
        limit: MOST_LIMIT as u32,
        queues: 8,
        hand_size: 3,
        queue_length_limit: 7,
        limit_response: Response::Queue,
    }
}

// Most requests are narrow; one in 32 is wider than each limit.
fn width(random: &mut Random) -> u32 {
    let width = match random.below(32) {
        0 => 7 + random.below(4),
        1..=5 => 4 + random.below(3),
        _ => 1 + random.below(3),
    };
    width as u32
}

// The hash of a flow.
fn hash(seed: u64, random: &mut Random) -> u64 {
    let flow = if random.is_one_in(4) {
        0
    } else {
        random.below(FLOWS)
    };
    Random::new(seed, FLOWS_PART + flow).next()
}

/// What this many requests ask.
///
/// # Errors
///
/// `AllocError` if memory was refused.
pub fn asks(alloc: Global, seed: u64, count: u32) -> Result<Vec<Ask>, AllocError> {
    let mut random = Random::new(seed, REQUESTS_PART);
    let mut asks = Vec::with_capacity(alloc, count as usize)?;
    for _request in 0..count {
        let width = width(&mut random);
        asks.push(Ask {
            width,
            hash: hash(seed, &mut random),
        })?;
    }
    Ok(asks)
}
