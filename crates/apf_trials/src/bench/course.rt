//! The time of a run: in one thread, or in several from the moment at which all of them are ready.

use std::sync::atomic::{AtomicU64, Ordering};
use std::time::{Clock, Instant};
use std::{fmt, hint};

// How many requests a run serves: a power of two, as the numbers of threads are, so that each thread has an equal
// share, whose first and last request are told without a division. That would be measured with the rest.
pub const REQUESTS: u32 = 8_192;

/// How long one of this many took since the start, in picoseconds, or `None` if the machine tells no time.
pub fn picos_each<R: Clock>(rt: &R, start: Instant, count: u32) -> Option<u64> {
    let taken = u64::try_from(start.elapsed(rt).ok()?.as_nanos()).ok()?;
    Some(taken.saturating_mul(1_000) / u64::from(count.max(1)))
}

/// Who serves the requests of a run.
#[derive(Clone, Copy)]
pub struct Callers {
    /// How many threads there are, a power of two.
    pub threads: u32,
    /// How many spin hints a thread gives after a lost exchange before it tries again.
    pub hints: u32,
}

impl fmt::Display for Callers {
    fn fmt<W: fmt::Write>(&self, f: &mut fmt::Formatter<W>) -> fmt::Result {
        write!(f, "threads {}", self.threads)?;
        if self.hints != 0 {
            write!(f, ", {} hints after a lost exchange", self.hints)?;
        }
        Ok(())
    }
}

/// A run, whose threads begin together.
#[derive(Drop)]
pub struct Course {
    base: Instant,
    hints: u32,
    // The size of a share, a power of two, less one.
    mask: usize,
    threads: u64,
    ready: AtomicU64,
    // When the first thread began, and the last one ended, in nanoseconds since the base.
    begin: AtomicU64,
    end: AtomicU64,
}

impl Course {
    /// A run by these callers, or `None` if their threads are no power of two, or the machine tells no time.
    pub fn new<R: Clock>(rt: &R, callers: Callers) -> Option<Course> {
        let Callers { threads, hints } = callers;
        if !threads.is_power_of_two() {
            return None;
        }
        Some(Course {
            base: Instant::now(rt).ok()?,
            hints,
            mask: (REQUESTS / threads.max(1)).saturating_sub(1) as usize,
            threads: u64::from(threads),
            ready: AtomicU64::new(0),
            begin: AtomicU64::new(u64::MAX),
            end: AtomicU64::new(0),
        })
    }

    /// Waits after a lost exchange.
    pub fn wait(&self) {
        for _ in 0..self.hints {
            hint::spin_loop();
        }
    }

    fn nanos<R: Clock>(&self, rt: &R) -> u64 {
        match self.base.elapsed(rt) {
            Ok(passed) => u64::try_from(passed.as_nanos()).unwrap_or(0),
            Err(_) => 0,
        }
    }

    /// The thread that serves this request first waits for the others.
    pub fn begin<R: Clock>(&self, rt: &R, request: usize) {
        if request & self.mask != 0 {
            return;
        }
        self.ready.fetch_add(1, Ordering::SeqCst);
        for _turn in 0..1_000_000u32 {
            if self.ready.load(Ordering::SeqCst) >= self.threads {
                break;
            }
            hint::spin_loop();
        }
        self.begin.fetch_min(self.nanos(rt), Ordering::SeqCst);
    }

    /// The thread that serves this request last is done.
    pub fn end<R: Clock>(&self, rt: &R, request: usize) {
        if request & self.mask == self.mask {
            self.end.fetch_max(self.nanos(rt), Ordering::SeqCst);
        }
    }

    /// How long the run took, in picoseconds a request.
    pub fn picos(&self) -> u64 {
        let begin = self.begin.load(Ordering::SeqCst);
        let end = self.end.load(Ordering::SeqCst);
        end.saturating_sub(begin).saturating_mul(1_000) / u64::from(REQUESTS)
    }
}
