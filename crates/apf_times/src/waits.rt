//! Waits, kept as they are while they are few, and counted after that.

ghost use Rattle.std.specs.Prelude.{◌≡◌, ℕ, List, [], ◌∷◌, ◌-◌, ◌^◌, ◌<◌, ◌≤◌, All, false, length, IfOk, IsOk, IsPermutation, OnOk, OnErr};
ghost use Rattle.apf_times.specs.Limits.{max_wait};
ghost use Rattle.apf_times.specs.Waits.{AreCounted, AreKept, IsKeptPercentile, is_exact, max_exact, number};

use crate::percentiles::percentile;
use crate::tally::Tally;
use std::alloc::{AllocError, Allocator};
use std::marker::Model;

// The most waits that are kept as they are.
const MOST_EXACT: usize = 10_000;

/// Waits, for their percentiles. At most 10,000 are kept as they are. One more turns them into counts of
/// their first eight binary digits, which need no more memory, however many come.
#[derive(Drop)]
pub struct Waits<A: Allocator> {
    // empty once they are counted
    exact: Vec<u64, A>,
    counts: Option<Tally<A>>,
}

impl<A: Allocator> Model for Waits<A> {
    ghost use Rattle.std.specs.Prelude.{◌≤◌, All, length};
    ghost use Rattle.apf_times.specs.Limits.{max_wait};
    ghost use Rattle.apf_times.specs.Waits.{WaitsView, max_exact};

    ghost Value = { WaitsView };

    ghost view = { λ w. record { exact = w.exact.items; counts = w.counts } };

    ghost invariant = { λ w. (length w.exact.items ≤ max_exact) × All (λ x. x ≤ max_wait) w.exact.items };
}

// Counts these waits.
fn counted<A: Allocator>(alloc: A, waits: &[u64]) -> Result<Tally<A>, AllocError>
    requires in_range { All (λ w. w ≤ max_wait) waits.now }
    requires few { length waits.now ≤ max_exact }
    ensures total { IfOk result (λ c. c.total ≡ length waits.now) }
    ensures counted { IfOk result (λ c. (others : List ℕ) → IsPermutation others waits.now → AreCounted others c) }
{
    let mut counts = Tally::new(alloc)?;
    for wait in waits {
        counts.add(*wait);
    }
    Ok(counts)
}

impl<A: Allocator + Copy> Waits<A> {
    /// None was added. No memory is taken.
    pub fn new(alloc: A) -> Waits<A>
        ensures { AreKept [] result }
    {
        Waits {
            exact: Vec::new(alloc),
            counts: None,
        }
    }

    /// Adds a wait of at most [`MOST_WAIT`](crate::MOST_WAIT). At most 2^64 - 1 are added. Once the waits
    /// are counted, it takes no memory.
    ///
    /// # Errors
    ///
    /// `AllocError` if memory was refused. Then nothing changes.
    pub fn add(&mut self, wait: u64) -> Result<(), AllocError>
        requires in_range { wait ≤ max_wait }
        requires room { number self.old < 2 ^ 64 - 1 }
        ensures kept { OnOk result ((waits : List ℕ) → AreKept waits self.old → AreKept (wait ∷ waits) self.new) }
        ensures unchanged { OnErr result (self.new ≡ self.old) }
        ensures succeeds { is_exact self.old ≡ false → IsOk result }
    {
        if let Some(counts) = &mut self.counts {
            counts.add(wait);
            return Ok(());
        }
        if self.exact.len() < MOST_EXACT {
            self.exact.push(wait)?;
            return Ok(());
        }
        let alloc = *self.exact.allocator();
        let mut counts = counted(alloc, self.exact.as_slice())?;
        counts.add(wait);
        self.exact = Vec::new(alloc);
        self.counts = Some(counts);
        Ok(())
    }
}

impl<A: Allocator> Waits<A> {
    /// How many were added.
    pub fn len(&self) -> u64
        ensures { result ≡ number self.now }
    {
        match &self.counts {
            None => self.exact.len() as u64,
            Some(counts) => counts.total(),
        }
    }

    /// Whether they are kept as they are, so that a percentile is one of them.
    pub fn is_exact(&self) -> bool
        ensures { result ≡ is_exact self.now }
    {
        self.counts.is_none()
    }

    /// The percentile of all waits that were added, by the nearest rank, or 0 if there were none. `percent`
    /// is 1 to 100. Once they are counted, it has its first eight binary digits, and zeros behind them.
    ///
    /// It sorts waits that are kept as they are where they stand, and allocates nothing.
    pub fn percentile(&mut self, percent: u32) -> u64
        requires some { 1 ≤ percent }
        requires at_most_all { percent ≤ 100 }
        ensures none { number self.old ≡ 0 → result ≡ 0 }
        ensures nearest { (waits : List ℕ) → AreKept waits self.old → 0 < length waits → IsKeptPercentile (is_exact self.old) percent waits result }
        ensures kept { (waits : List ℕ) → AreKept waits self.old → AreKept waits self.new }
        ensures number { number self.new ≡ number self.old }
        ensures exact { is_exact self.new ≡ is_exact self.old }
    {
        match &self.counts {
            None => percentile(self.exact.as_mut_slice(), percent),
            Some(counts) => counts.percentile(percent),
        }
    }
}
