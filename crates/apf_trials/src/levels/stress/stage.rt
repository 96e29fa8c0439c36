//! What the threads share.

ghost use Rattle.std.specs.Prelude.{◌≡◌, ◌<◌, ◌≤◌, length, IfSome};

use crate::levels::stress::crowd::Crowd;
use crate::levels::stress::settings::THREADS;
use apf_book::Ask;
use apf_level::{Level, Naming};
use std::alloc::Global;
use std::sync::atomic::{AtomicU64, Ordering};
use std::thread;

// The most requests of a level.
const MOST_REQUESTS: u64 = 10_000;

/// The level that K names, and what the threads that step on it share.
#[derive(Drop)]
pub struct Stage<'a, K: Naming> {
    pub alloc: Global,
    pub level: &'a Level<K>,
    asks: &'a [Ask],
    pub crowd: Crowd,
    // 1 once a close of the level has returned.
    closed: AtomicU64,
    // How many requests arrived before the level is closed, if it is.
    closing: Option<u64>,
    // How many arrived.
    arrived: AtomicU64,
    // How many threads are ready.
    ready: AtomicU64,
    ghost each: { length asks.now ≡ length K.level.gate.shape.widths },
}

impl<'a, K: Naming> Stage<'a, K> {
    /// The level with its requests, which is closed once this many of them arrived, if it is. Nobody is ready yet.
    pub fn new(
        alloc: Global,
        level: &'a Level<K>,
        asks: &'a [Ask],
        closing: Option<u64>,
    ) -> Stage<'a, K>
        requires { length asks.now ≡ length K.level.gate.shape.widths }
    {
        Stage {
            alloc,
            level,
            asks,
            crowd: Crowd::new(),
            closed: AtomicU64::new(0),
            closing,
            arrived: AtomicU64::new(0),
            ready: AtomicU64::new(0),
        }
    }

    /// The width of the request.
    pub fn width(&self, request: u32) -> u32 {
        match self.asks.get(request as usize) {
            Some(ask) => ask.width,
            None => 0,
        }
    }

    /// A request near those that arrived last, if there is any: 128 numbers before them, and this many after that.
    pub fn pick(&self, later: u64) -> Option<u32>
        ensures { IfSome result (λ r. r < length K.level.gate.shape.widths) }
    {
        let count = self.asks.len() as u64;
        if count == 0 || count > MOST_REQUESTS {
            return None;
        }
        let arrived = self.arrived.load(Ordering::SeqCst);
        let number = arrived.saturating_add(later).saturating_sub(128);
        Some((number % count) as u32)
    }

    /// One request more arrives. Says whether the level is to be closed: two are told so, one after another.
    pub fn is_closing(&self) -> bool {
        let before = self.arrived.fetch_add(1, Ordering::SeqCst);
        match self.closing {
            Some(place) => before == place || before == place.wrapping_add(1),
            None => false,
        }
    }

    /// A close of the level has returned.
    pub fn note_close(&self) {
        self.closed.store(1, Ordering::SeqCst);
    }

    /// Whether a close of the level has returned.
    pub fn is_closed(&self) -> bool {
        self.closed.load(Ordering::SeqCst) == 1
    }

    /// Waits until all threads are ready, in at most this many turns.
    pub fn wait_for_all(&self) {
        self.ready.fetch_add(1, Ordering::SeqCst);
        for _turn in 0..1_000_000u32 {
            if self.ready.load(Ordering::SeqCst) >= u64::from(THREADS) {
                return;
            }
            thread::yield_now();
        }
    }
}
