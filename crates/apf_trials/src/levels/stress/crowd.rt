//! The requests that run at once.

use std::sync::atomic::{AtomicU64, Ordering};

// The requests that run are counted from this bit on, and their seats below it.
const REQUEST: u64 = 1 << 32;

/// Counts the requests that run at once, and their seats. Each is counted after its seats were taken, and no
/// more before they are given back, so that those counted at any moment stand together then.
#[derive(Drop)]
pub struct Crowd {
    now: AtomicU64,
    // The most seats of two requests or more.
    most: AtomicU64,
}

impl Crowd {
    /// Nobody runs yet.
    pub fn new() -> Crowd {
        Crowd {
            now: AtomicU64::new(0),
            most: AtomicU64::new(0),
        }
    }

    /// A request of this width runs.
    pub fn enter(&self, width: u32) {
        let change = REQUEST + u64::from(width);
        let before = self.now.fetch_add(change, Ordering::SeqCst);
        if before >= REQUEST {
            let seats = before.wrapping_add(change) % REQUEST;
            self.most.fetch_max(seats, Ordering::SeqCst);
        }
    }

    /// A request of this width runs no more.
    pub fn leave(&self, width: u32) {
        let change = REQUEST + u64::from(width);
        self.now.fetch_sub(change, Ordering::SeqCst);
    }

    /// The most seats on which two requests or more ran at once.
    pub fn most(&self) -> u64 {
        self.most.load(Ordering::SeqCst)
    }
}
