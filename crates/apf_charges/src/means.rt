//! The means of many flows, in a table of fixed size.

ghost use Rattle.std.specs.Prelude.{◌≡◌, ◌≤◌, IfOk, length};
ghost use Rattle.apf_charges.specs.Table.{Table, new_table, table_with, cost_of, expected_by, mean_in, set_of, set_count};

use crate::known::KnownFlows;
use crate::mean::Mean;
use std::alloc::{AllocError, Allocator};
use std::marker::Model;

// The number of sets.
const SETS: u64 = 512;

// What a request is expected to run if nothing ran yet, in microseconds.
const FIRST_GUESS: u32 = 10_000;

/// How long the requests of each flow ran, as a mean: of at most 4,096 flows, in 512 sets of 8. A flow stands in the set that its
/// hash modulo 512 says. Where a set has no room, the flow goes of which no request ended for longest.
#[derive(Drop)]
pub struct Means<A: Allocator> {
    sets: Vec<KnownFlows, A>,
    firsts: Mean,
}

impl<A: Allocator> Model for Means<A> {
    ghost use Rattle.std.specs.Prelude.{◌≡◌, length};
    ghost use Rattle.apf_charges.specs.Table.{Table, set_count};

    ghost Value = { Table };

    ghost view = { λ means. record { sets = means.sets.items; firsts = means.firsts } };

    ghost invariant = { λ means. length means.sets.items ≡ set_count };
}

impl<A: Allocator> Means<A> {
    /// Nothing ran. All memory is taken here, 70 KiB.
    ///
    /// # Errors
    ///
    /// `AllocError` if memory was refused.
    pub fn new(alloc: A) -> Result<Means<A>, AllocError>
        ensures { IfOk result (λ m. m ≡ new_table) }
    {
        let mut sets = Vec::with_capacity(alloc, SETS as usize)?;
        for _set in 0..SETS {
            sets.push(KnownFlows::none())?;
        }
        Ok(Means {
            sets,
            firsts: Mean::none(),
        })
    }

    // What the next request of the flow is expected to run, in microseconds.
    fn expected(&self, flow: u64) -> u32
        ensures { result ≡ expected_by (mean_in flow (set_of self.now flow)) self.now.firsts }
    {
        match self.sets[(flow % SETS) as usize].mean_of(flow) {
            Some(mean) => mean.micros,
            None if self.firsts.count == 0 => FIRST_GUESS,
            None => self.firsts.micros,
        }
    }

    /// What the next request of the flow is charged at its dispatch, in microseconds of a seat, 1 to 4,294,967,295: its width times
    /// the mean of its flow, or of the first requests of flows if the flow is not known, or 10,000 if nothing ran.
    #[tactic(auto, unfolding(crate::specs::Table::cost_of))]
    pub fn cost_of(&self, flow: u64, width: u32) -> u32
        ensures cost { result ≡ cost_of self.now flow width }
        ensures some { 1 ≤ result }
    {
        self.expected(flow).saturating_mul(width).max(1)
    }

    /// A request of the flow ran this many microseconds.
    #[tactic(auto, unfolding(crate::specs::Table::table_with))]
    pub fn learn(&mut self, flow: u64, micros: u64)
        ensures { self.new ≡ table_with self.old flow micros }
    {
        let set = &mut self.sets[(flow % SETS) as usize];
        if set.mean_of(flow).is_none() {
            self.firsts = self.firsts.with(micros);
        }
        set.learn(flow, micros);
    }
}
