//! The bins of one amount.

ghost use Rattle.std.specs.Prelude.{◌≡◌, ℕ, ◌+◌, ◌-◌, ◌*◌, ◌^◌, ◌<◌, ◌≤◌, List, [], ◌∷◌, ◌++◌, length, max, IfOk, IsOk, OnOk, OnErr};
ghost use Rattle.apf_strips.specs.Limits.{bin_count, most_doublings, most_time};
ghost use Rattle.apf_strips.specs.Series.{IsWidened};
ghost use Rattle.apf_strips.specs.Spans.{AreBins, Span, whole_of, width_of};

use crate::bins::{add_span, make_pairs};
use crate::fault::StripFault;
use crate::{BINS, FIRST_WIDTH};
use std::alloc::{AllocError, Global};
use std::marker::Model;

/// The bins of one amount: the sum of amount times time in each of them.
#[derive(Drop)]
pub struct Series {
    bins: Vec<u128>,
    total: u128,
    doublings: u32,
}

impl Model for Series {
    ghost use Rattle.apf_strips.specs.Series.{IsSeries};
    ghost use Rattle.apf_strips.specs.Spans.{SeriesView};

    ghost Value = { SeriesView };

    ghost view = { λ s. record { bins = s.bins.items; total = s.total; doublings = s.doublings } };

    ghost invariant = { λ s. IsSeries (record { bins = s.bins.items; total = s.total; doublings = s.doublings }) };
}

impl Series {
    /// None was added. All memory is taken here.
    ///
    /// # Errors
    ///
    /// `AllocError` if memory was refused.
    pub fn new(alloc: Global) -> Result<Series, AllocError>
        ensures none { IfOk result (λ series. AreBins [] series) }
        ensures first { IfOk result (λ series. series.doublings ≡ 0) }
    {
        Ok(Series {
            bins: vec![in alloc; 0; BINS]?,
            total: 0,
            doublings: 0,
        })
    }

    /// How many times a bin became twice as long, at most [`MOST_DOUBLINGS`](crate::MOST_DOUBLINGS).
    pub fn doublings(&self) -> u32
        ensures is { result ≡ self.now.doublings }
        ensures few { result ≤ most_doublings }
    {
        self.doublings
    }

    /// How long a bin is, in microseconds.
    #[tactic(auto, unfolding(crate::specs::Limits::width_after), using(crate::proofs::Changes::width_some))]
    pub fn width(&self) -> u64
        ensures is { result ≡ width_of self.now }
        ensures some { 0 < result }
        ensures small { result < 2 ^ 53 }
    {
        FIRST_WIDTH << self.doublings
    }

    /// The sum of amount times time in each bin.
    pub fn bins(&self) -> &[u128]
        ensures is { result.now ≡ self.now.bins }
        ensures count { length result.now ≡ bin_count }
    {
        self.bins.as_slice()
    }

    /// The sum of amount times time of all spans that were added.
    pub fn total(&self) -> u128
        ensures { result ≡ self.now.total }
    {
        self.total
    }

    // Makes one bin of each two.
    fn double(&mut self)
        requires { self.old.doublings < most_doublings }
        ensures { IsWidened self.old (self.old.doublings + 1) self.new }
    {
        make_pairs(self.bins.as_mut_slice());
        self.doublings += 1;
    }

    /// Makes one bin of each two, until the bins became twice as long so many times. Those that are longer stay.
    pub fn widen_to(&mut self, doublings: u32)
        requires { doublings ≤ most_doublings }
        ensures { IsWidened self.old (max self.old.doublings doublings) self.new }
    {
        while self.doublings < doublings {
            self.double();
        }
    }

    // Makes one bin of each two, until this time is not behind the last bin.
    fn widen_until(&mut self, to: u64)
        requires { to ≤ most_time }
        ensures same { IsWidened self.old self.new.doublings self.new }
        ensures inside { to ≤ bin_count * width_of self.new }
    {
        while to > BINS as u64 * self.width() {
            self.double();
        }
    }

    // Adds a span that ends in these bins, with which the total is this one.
    fn put(&mut self, amount: u64, from: u64, to: u64, total: u128)
        requires in_order { from ≤ to }
        requires inside { to ≤ bin_count * width_of self.old }
        requires total { total ≡ self.old.total + whole_of (record { amount = amount; from = from; to = to }) }
        ensures total { self.new.total ≡ total }
        ensures added { (before : List Span) → AreBins before self.old → AreBins (before ++ record { amount = amount; from = from; to = to } ∷ []) self.new }
    {
        let width = self.width();
        add_span(self.bins.as_mut_slice(), width, amount, from, to);
        self.total = total;
    }

    /// Adds an amount that was in force from a time until another one, in microseconds. That is at most
    /// [`MOST_TIME`](crate::MOST_TIME).
    ///
    /// # Errors
    ///
    /// `TooMuch` if the sum of amount times time of all spans would be more than 2^128 - 1. Then nothing changes.
    #[tactic(auto, unfolding(crate::specs::Spans::whole_of))]
    pub fn add(&mut self, amount: u64, from: u64, to: u64) -> Result<(), StripFault>
        requires in_order { from ≤ to }
        requires in_time { to ≤ most_time }
        ensures added { OnOk result ((before : List Span) → AreBins before self.old → AreBins (before ++ record { amount = amount; from = from; to = to } ∷ []) self.new) }
        ensures unchanged { OnErr result (self.new ≡ self.old) }
        ensures total { OnOk result (self.new.total ≡ self.old.total + amount * (to - from)) }
        ensures succeeds { self.old.total + amount * (to - from) < 2 ^ 128 → IsOk result }
    {
        let time = u128::from(amount) * u128::from(to - from);
        let Some(total) = self.total.checked_add(time) else {
            return Err(StripFault::TooMuch);
        };
        self.widen_until(to);
        self.put(amount, from, to, total);
        Ok(())
    }
}
