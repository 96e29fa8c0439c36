//! Delays that differ from round to round and from thread to thread, so that the steps of threads come in
//! every order.

ghost use Rattle.std.specs.Prelude.{◌≤◌};

use std::sync::atomic::{AtomicU64, Ordering};
use std::{hint, thread};

/// How many rounds are made at most. A few dozen mostly have seen every order.
pub const MOST_ROUNDS: u32 = 2_000;

/// The same, where each is made on a level of its own.
pub const MOST_LEVELS: u32 = 50;

/// How many times each order has to come before the rounds end.
pub const ENOUGH: u64 = 10;

/// How many turns a loop is made that waits for what another thread is to do.
pub const MOST_TURNS: u32 = 100_000_000;

/// How long a thread waits in a round, in turns: 0 to 8,191, spread evenly over the rounds.
pub fn turns(round: u32, thread: usize) -> u64
    ensures { result ≤ 8191 }
{
    u64::from(round)
        .wrapping_mul(0x9E37_79B9_7F4A_7C15)
        .wrapping_add((thread as u64).wrapping_mul(0xD1B5_4A32_D192_ED03))
        >> 51
}

/// Lets some time pass: a turn is some ten nanoseconds.
pub fn pass_time(turns: u64) {
    for _turn in 0..turns {
        hint::spin_loop();
    }
}

/// Where the threads of a round wait for each other, so that their steps come close together.
#[derive(Drop)]
pub struct Start {
    ready: AtomicU64,
}

impl Start {
    /// Nobody is ready yet.
    pub fn new() -> Start {
        Start {
            ready: AtomicU64::new(0),
        }
    }

    /// Waits until this many threads are ready, in at most this many turns.
    pub fn wait_for(&self, all: u64) {
        self.ready.fetch_add(1, Ordering::SeqCst);
        for _turn in 0..1_000_000u32 {
            if self.ready.load(Ordering::SeqCst) >= all {
                return;
            }
            thread::yield_now();
        }
    }
}
