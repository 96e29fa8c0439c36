//! The requests that run at once.

use apf_rounds::MOST_TURNS;
use std::sync::atomic::{AtomicU64, Ordering};
use std::thread;

/// Counts the requests that run at once.
#[derive(Drop)]
pub struct Crowd {
    // Those that run now.
    now: AtomicU64,
    // The most that ran at once.
    most: AtomicU64,
}

impl Crowd {
    /// Nobody runs yet.
    pub fn new() -> Crowd {
        Crowd {
            now: AtomicU64::new(0),
            most: AtomicU64::new(0),
        }
    }

    /// The most that ran at once.
    pub fn most(&self) -> u64 {
        self.most.load(Ordering::SeqCst)
    }

    /// A request runs until this many ran at once, in at most this many turns. Says whether they did.
    pub fn run(&self, together: u64) -> bool {
        let others = self.now.fetch_add(1, Ordering::SeqCst);
        self.most
            .fetch_max(others.wrapping_add(1), Ordering::SeqCst);
        thread::yield_now();
        let met = self.wait_for(together);
        self.now.fetch_sub(1, Ordering::SeqCst);
        met
    }

    // Waits until this many ran at once, in at most this many turns.
    fn wait_for(&self, together: u64) -> bool {
        for _turn in 0..MOST_TURNS {
            if self.most() >= together {
                return true;
            }
            thread::yield_now();
        }
        false
    }
}
