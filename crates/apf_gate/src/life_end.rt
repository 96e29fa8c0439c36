//! How a gate ends whose slots are used again.

ghost use Rattle.std.specs.Prelude.{◌≡◌, ◌<◌, ◌≤◌, ◌*◌, ◌^◌, ℕ, length, slice_get, IfOk, All, Some};
ghost use Rattle.apf_words.specs.Limits.{max_requests};
ghost use Rattle.apf_gate.specs.Counted.{AreCounts, total};
ghost use Rattle.apf_gate.specs.Tokens.{pass_gate, desk_gate, station_gate};
ghost use Rattle.apf_gate.specs.LifeEnds.{LifeEndsWith, pasts, presents};

use crate::counts::Counts;
use crate::desk::Desk;
use crate::end::read;
use crate::gate::Gate;
use crate::pass::Pass;
use crate::station::Station;
use apf_words::{Decision, LevelWord};
use std::alloc::{AllocError, Allocator};
use std::marker::Model;

/// What the words of a gate said whose slots were used again, when it ended.
#[derive(Drop)]
pub struct LifeWords<A: Allocator> {
    pub(crate) level: LevelWord,
    pub(crate) decisions: Vec<Option<Decision>, A>,
    pub(crate) counts: Counts,
}

impl<A: Allocator> Model for LifeWords<A> {
    ghost use Rattle.apf_gate.specs.LifeEnds.{LifeView};

    ghost Value = { LifeView };

    ghost view = { λ w. record { level = w.level; decisions = w.decisions.items; counts = w.counts } };
}

impl<A: Allocator> LifeWords<A> {
    /// The level word.
    pub fn level(&self) -> LevelWord
        ensures { result ≡ self.now.level }
    {
        self.level
    }

    /// The decision of the request that holds the slot: none if that never began.
    pub fn decision(&self, slot: u32) -> Option<Decision>
        requires { slot < length self.now.decisions }
        ensures { slice_get self.now.decisions slot ≡ Some result }
    {
        self.decisions[slot as usize]
    }

    /// How many of all requests that ever held a slot were decided so.
    pub fn counts(&self) -> Counts
        ensures { result ≡ self.now.counts }
    {
        self.counts
    }
}

impl<A: Allocator> Gate<A> {
    /// Ends a gate whose tokens all came back, in any order, and tells what its words say, and how all requests were
    /// decided that ever held a slot. Memory for the answer is taken first.
    ///
    /// # Errors
    ///
    /// If memory was refused. Then everything is given up.
    pub fn end_for_life<B: Allocator>(
        self,
        alloc: B,
        desk: Desk,
        passes: Vec<Pass, A>,
        stations: Vec<Station, A>,
    ) -> Result<LifeWords<B>, AllocError>
        requires own_desk { desk_gate desk ≡ self }
        requires own_passes { All (λ t. pass_gate t ≡ self) passes.items }
        requires own_stations { All (λ t. station_gate t ≡ self) stations.items }
        requires all_passes { length passes.items ≡ self.shape.slots }
        requires all_stations { length stations.items ≡ self.shape.stations }
        ensures { IfOk result (LifeEndsWith self desk.desk passes.items stations.items) }
    {
        let count = self.gauge.widths.len();
        let decisions = Vec::with_capacity(alloc, count)?;
        let mut counts = counts_before(passes.as_slice());
        let Desk { seat, held: _ } = desk;
        let seat = self.gather_passes(seat, passes);
        let seat = self.gather_stations(seat, stations);
        let Gate {
            board,
            gauge: _,
            sleepers: _,
        } = self;
        let words = read(board.close_with(seat), count, decisions);
        counts.add_all(counts_now(words.decisions()));
        Ok(words.with_counts(counts))
    }
}

// How the requests were decided that held the slots of these Passes before.
fn counts_before(passes: &[Pass]) -> Counts
    requires few { length passes.now ≤ max_requests }
    ensures counts { AreCounts result (pasts passes.now) }
    ensures small { total result ≤ 10000 * 2 ^ 46 }
{
    let mut counts = Counts::none();
    for place in 0..passes.len() {
        counts.add_all(passes[place].before());
    }
    counts
}

// How the requests are decided that hold the slots.
fn counts_now(decisions: &[Option<Decision>]) -> Counts
    requires few { length decisions.now ≤ max_requests }
    ensures counts { (current : ℕ → ℕ) → AreCounts result (presents current 0 decisions.now) }
    ensures small { total result ≤ max_requests }
{
    let mut counts = Counts::none();
    for slot in 0..decisions.len() {
        counts.add_found(decisions[slot]);
    }
    counts
}
