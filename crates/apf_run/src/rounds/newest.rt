//! Which request holds a slot now.

ghost use Rattle.std.specs.Prelude.{◌≡◌, ◌<◌, ◌≤◌, ◌*◌, IfOk, IfSome};
ghost use Rattle.apf_words.specs.Limits.{max_requests, max_width};
ghost use Rattle.apf_run.specs.RoundsPlans.{IsOfRounds};

use crate::rounds::plan::Plan;
use apf_gate::Ticket;
use std::alloc::{AllocError, Global};
use std::marker::{Model, PhantomData};
use std::sync::atomic::Ordering::SeqCst;
use std::sync::atomic::{AtomicIn, Rule};

/// The round of a slot's newest request: 0 until one came, and none that K does not have.
pub struct Round<K: Plan> {
    of: PhantomData<K>,
}

impl<K: Plan> Rule for Round<K> {
    ghost use Rattle.std.specs.Prelude.{◌≤◌};

    ghost invariant = { λ n. n ≤ K.rounds };
}

/// The round of each slot's newest request. A slot's worker notes it once the slot went on to that request, and all
/// workers read it.
#[derive(Drop)]
pub struct Newest<K: Plan> {
    rounds: Vec<AtomicIn<Round<K>>>,
}

impl<K: Plan> Model for Newest<K> {
    ghost use Rattle.std.specs.Prelude.{ℕ, length};

    ghost Value = { ℕ };

    ghost view = { λ n. length n.rounds.items };
}

impl<K: Plan> Newest<K> {
    /// This many slots of which no request came.
    ///
    /// # Errors
    ///
    /// `AllocError` if memory was refused.
    pub fn new(alloc: Global, slots: usize) -> Result<Newest<K>, AllocError>
        ensures { IfOk result (λ n. n ≡ slots) }
    {
        let mut rounds = Vec::with_capacity(alloc, slots)?;
        for _slot in 0..slots {
            rounds.push(AtomicIn::new(0))?;
        }
        Ok(Newest { rounds })
    }

    /// The slot went on to its request of this round.
    pub fn note(&self, slot: u32, round: u32)
        requires slot { slot < self.now }
        requires round { round ≤ K.rounds }
    {
        self.rounds[slot as usize].store(u64::from(round), SeqCst);
    }

    /// How many requests came until now: the round of each slot, of all slots.
    pub fn came(&self) -> u64
        ensures { result ≤ self.now * K.rounds }
    {
        let mut came: u64 = 0;
        for round in &self.rounds {
            came = came.saturating_add(round.load(SeqCst));
        }
        came
    }

    /// The ticket of the slot's newest request, whose width is this. None if no request of the slot came yet.
    pub fn ticket(&self, slot: u32, width: u32) -> Option<Ticket>
        requires slot { slot < self.now }
        requires few { slot < max_requests }
        requires narrow { width ≤ max_width }
        ensures { IfSome result (IsOfRounds K.rounds slot width) }
    {
        let round = self.rounds[slot as usize].load(SeqCst);
        if round == 0 {
            return None;
        }
        Some(Ticket::of_round(slot, round, width))
    }
}
