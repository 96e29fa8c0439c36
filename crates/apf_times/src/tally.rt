//! How many waits there are of each length, where lengths that begin with the same eight binary digits are one.

ghost use Rattle.std.specs.Prelude.{◌≡◌, ℕ, List, [], ◌∷◌, ◌+◌, ◌-◌, ◌^◌, ◌<◌, ◌≤◌, false, length, IfOk};
ghost use Rattle.apf_times.specs.Limits.{max_wait};
ghost use Rattle.apf_times.specs.Waits.{digits_behind, shortened, place_of, max_places, AreCounted, IsKeptPercentile};

use crate::MOST_WAIT;
use std::alloc::{AllocError, Allocator};
use std::marker::Model;

// A wait's place is its rank among the lengths that have zeros behind their first eight binary digits.
const PLACES: usize = 5302;

/// Counted waits. A wait is known by its first eight binary digits.
#[derive(Drop)]
pub struct Tally<A: Allocator> {
    by_place: Vec<u64, A>,
    total: u64,
}

impl<A: Allocator> Model for Tally<A> {
    ghost use Rattle.std.specs.Prelude.{◌≡◌, ◌≤◌, All, length};
    ghost use Rattle.apf_times.specs.Waits.{TallyView, max_places};

    ghost Value = { TallyView };

    ghost view = { λ c. record { total = c.total; by_place = c.by_place.items } };

    ghost invariant = { λ c. (length c.by_place.items ≡ max_places) × All (λ n. n ≤ c.total) c.by_place.items };
}

// How many binary digits this has behind its first eight.
fn digits_behind(wait: u64) -> u32
    ensures { result ≡ digits_behind wait }
{
    (u64::BITS - wait.leading_zeros()).saturating_sub(8)
}

// The place of a wait. That of a longer one is no lower.
fn place(wait: u64) -> usize
    requires { wait ≤ max_wait }
    ensures is { result ≡ place_of wait }
    ensures inside { result < max_places }
{
    let behind = digits_behind(wait);
    128 * behind as usize + (wait >> behind) as usize
}

// The first eight binary digits of the waits of a place, and zeros behind them.
fn shortest_at(place: usize) -> u64
    requires { place < max_places }
    ensures { (wait : ℕ) → wait ≤ max_wait → place_of wait ≡ place → result ≡ shortened wait }
{
    let behind = (place / 128).saturating_sub(1);
    let first = place - 128 * behind;
    (first as u64) << behind
}

impl<A: Allocator> Tally<A> {
    /// None was counted. All memory is taken here.
    ///
    /// # Errors
    ///
    /// `AllocError` if memory was refused.
    pub fn new(alloc: A) -> Result<Tally<A>, AllocError>
        ensures none { IfOk result (λ c. AreCounted [] c) }
    {
        Ok(Tally {
            by_place: vec![in alloc; 0; PLACES]?,
            total: 0,
        })
    }

    /// How many were counted.
    pub fn total(&self) -> u64
        ensures { result ≡ self.now.total }
    {
        self.total
    }

    /// Counts a wait of at most [`MOST_WAIT`](crate::MOST_WAIT). At most 2^64 - 1 are counted.
    pub fn add(&mut self, wait: u64)
        requires in_range { wait ≤ max_wait }
        requires room { self.old.total < 2 ^ 64 - 1 }
        ensures total { self.new.total ≡ self.old.total + 1 }
        ensures counted { (waits : List ℕ) → AreCounted waits self.old → AreCounted (wait ∷ waits) self.new }
    {
        self.by_place[place(wait)] += 1;
        self.total += 1;
    }

    /// The percentile of the waits that were counted, with zeros behind its first eight binary digits, or 0
    /// if there were none. `percent` is 1 to 100.
    pub fn percentile(&self, percent: u32) -> u64
        requires some { 1 ≤ percent }
        requires at_most_all { percent ≤ 100 }
        ensures none { self.now.total ≡ 0 → result ≡ 0 }
        ensures nearest { (waits : List ℕ) → AreCounted waits self.now → 0 < length waits → IsKeptPercentile false percent waits result }
    {
        if self.total == 0 {
            return 0;
        }
        let rank = (percent as u128 * self.total as u128).div_ceil(100) as u64;
        let mut left = rank;
        for (place, count) in self.by_place.iter().enumerate() {
            if left <= *count {
                return shortest_at(place);
            }
            left -= *count;
        }
        0
    }
}
