//! A number for each ordered pair of queues.

ghost use Rattle.std.specs.Prelude.{◌≡◌, ℕ, ◌+◌, ◌-◌, ◌*◌, ◌<◌, ◌≤◌, ◌==◌, ◌&&◌, if◌then◌else◌, length, slice_set, IfOk};
ghost use Rattle.apf_words.specs.Limits.{max_queues};
ghost use Rattle.apf_bound.specs.Pairs.{cell};

use std::alloc::{AllocError, Global};
use std::marker::Model;

/// A number for each ordered pair of queues.
#[derive(Drop)]
pub(crate) struct Pairs {
    queues: u32,
    // the numbers of the pairs of the first queue, then those of the second
    numbers: Vec<u64>,
}

impl Model for Pairs {
    ghost use Rattle.std.specs.Prelude.{◌≡◌, ◌*◌, ◌≤◌, length};
    ghost use Rattle.apf_words.specs.Limits.{max_queues};
    ghost use Rattle.apf_bound.specs.Pairs.{PairsView};

    ghost Value = { PairsView };

    ghost view = { λ p. record { queues = p.queues; numbers = p.numbers.items } };

    ghost invariant = { λ p. (p.queues ≤ max_queues) × (length p.numbers.items ≡ p.queues * p.queues) };
}

impl Pairs {
    /// Each number is 0.
    ///
    /// # Errors
    ///
    /// `AllocError` if memory was refused.
    pub(crate) fn new(alloc: Global, queues: u32) -> Result<Pairs, AllocError>
        requires { queues ≤ max_queues }
        ensures queues { IfOk result (λ p. p.queues ≡ queues) }
        ensures zeros { IfOk result (λ p. (busy other : ℕ) → cell p busy other ≡ 0) }
    {
        let numbers = vec![in alloc; 0u64; queues as usize * queues as usize]?;
        Ok(Pairs { queues, numbers })
    }

    // Where the number of a pair stands.
    fn place(&self, busy: u32, other: u32) -> usize
        requires busy { busy < self.now.queues }
        requires other { other < self.now.queues }
        ensures value { result ≡ busy * self.now.queues + other }
        ensures inside { result < length self.now.numbers }
    {
        busy as usize * self.queues as usize + other as usize
    }

    /// The number of a pair.
    pub(crate) fn get(&self, busy: u32, other: u32) -> u64
        requires busy { busy < self.now.queues }
        requires other { other < self.now.queues }
        ensures { result ≡ cell self.now busy other }
    {
        self.numbers[self.place(busy, other)]
    }

    /// The number of a pair is this one from now on.
    pub(crate) fn set(&mut self, busy: u32, other: u32, number: u64)
        requires busy { busy < self.old.queues }
        requires other { other < self.old.queues }
        ensures queues { self.new.queues ≡ self.old.queues }
        ensures cells { (x y : ℕ) → y < self.old.queues
            → cell self.new x y ≡ (if (x == busy) && (y == other) then number else cell self.old x y) }
    {
        let place = self.place(busy, other);
        self.numbers[place] = number;
    }

    /// The numbers of the pairs of a queue fall by this much, or to 0.
    pub(crate) fn lower(&mut self, busy: u32, by: u64)
        requires { busy < self.old.queues }
        ensures queues { self.new.queues ≡ self.old.queues }
        ensures cells { (x y : ℕ) → y < self.old.queues
            → cell self.new x y ≡ (if x == busy then cell self.old x y - by else cell self.old x y) }
    {
        for other in 0..self.queues {
            let lower = self.get(busy, other).saturating_sub(by);
            self.set(busy, other, lower);
        }
    }

    /// The numbers of the pairs of a queue are 0 from now on.
    pub(crate) fn clear(&mut self, busy: u32)
        requires { busy < self.old.queues }
        ensures queues { self.new.queues ≡ self.old.queues }
        ensures cells { (x y : ℕ) → y < self.old.queues
            → cell self.new x y ≡ (if x == busy then 0 else cell self.old x y) }
    {
        for other in 0..self.queues {
            self.set(busy, other, 0);
        }
    }
}
