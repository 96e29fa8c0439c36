//! How a gate ends.

ghost use Rattle.std.specs.Prelude.{◌≡◌, ℕ, ◌+◌, ◌<◌, ◌≤◌, [], ◌∷◌, ◌++◌, length, slice_index, slice_get, IfOk, All, Option, Some, vec_capacity};
ghost use Rattle.std.specs.Mem.Slots.{slots_items, slots_len, IsFull};
ghost use Rattle.apf_words.specs.Level.{Level, packed};
ghost use Rattle.apf_words.specs.declared.decision.Decision.{Decision};
ghost use Rattle.apf_model.specs.World.{World};
ghost use Rattle.apf_gate.specs.declared.record.Record.TheVariants as records;
ghost use Rattle.apf_gate.specs.declared.record.Shape.{Shape};
ghost use Rattle.apf_words.specs.Codes.{marked};
ghost use Rattle.apf_gate.specs.Records.{level_of};
ghost use Rattle.apf_gate.specs.Rule.{Packs, desk_of};
ghost use Rattle.apf_gate.specs.Steps.{IsInRange};
ghost use Rattle.apf_gate.specs.Tokens.{pass_gate, desk_gate, station_gate};
ghost use Rattle.apf_gate.specs.Ends.{EndsWith, passes_before, stations_before};

use crate::counts::Counts;
use crate::desk::Desk;
use crate::gate::{Gate, level_in};
use crate::life_end::LifeWords;
use crate::pass::Pass;
use crate::plays::FirstRecord;
use crate::rule::Place;
use crate::station::Station;
use apf_words::{Decision, LevelWord, decision_in};
use atomic_table::Closed;
use std::alloc::{AllocError, Allocator};
use std::marker::Model;

/// What the words of a gate said when it ended.
#[derive(Drop)]
pub struct Words<A: Allocator> {
    level: LevelWord,
    decisions: Vec<Option<Decision>, A>,
}

impl<A: Allocator> Model for Words<A> {
    ghost use Rattle.apf_gate.specs.Ends.{WordsView};

    ghost Value = { WordsView };

    ghost view = { λ w. record { level = w.level; decisions = w.decisions.items } };
}

impl<A: Allocator> Words<A> {
    /// The level word.
    pub fn level(&self) -> LevelWord
        ensures { result ≡ self.now.level }
    {
        self.level
    }

    /// All decisions.
    pub(crate) fn decisions(&self) -> &[Option<Decision>]
        ensures { result.now ≡ self.now.decisions }
    {
        self.decisions.as_slice()
    }

    /// With the numbers of decisions.
    pub(crate) fn with_counts(self, counts: Counts) -> LifeWords<A>
        ensures { result ≡ record { level = self.level; decisions = self.decisions; counts = counts } }
    {
        LifeWords {
            level: self.level,
            decisions: self.decisions,
            counts,
        }
    }

    /// A request's decision.
    pub fn decision(&self, request: u32) -> Option<Decision>
        requires { request < length self.now.decisions }
        ensures { slice_get self.now.decisions request ≡ Some result }
    {
        self.decisions[request as usize]
    }
}

impl<A: Allocator> Gate<A> {
    /// Ends a gate whose tokens all came back, in any order, and tells what its words say. Memory for the
    /// answer is taken first.
    ///
    /// # Errors
    ///
    /// If memory was refused. Then everything is given up.
    pub fn end<B: Allocator>(
        self,
        alloc: B,
        desk: Desk,
        passes: Vec<Pass, A>,
        stations: Vec<Station, A>,
    ) -> Result<Words<B>, AllocError>
        requires own_desk { desk_gate desk ≡ self }
        requires own_passes { All (λ t. pass_gate t ≡ self) passes.items }
        requires own_stations { All (λ t. station_gate t ≡ self) stations.items }
        requires all_passes { length passes.items ≡ length self.shape.widths }
        requires all_stations { length stations.items ≡ self.shape.stations }
        requires batch { length self.shape.widths ≡ self.shape.slots }
        ensures { IfOk result (EndsWith self desk.desk passes.items stations.items) }
    {
        let count = self.gauge.widths.len();
        let decisions = Vec::with_capacity(alloc, count)?;
        let Desk { seat, held: _ } = desk;
        let seat = self.gather_passes(seat, passes);
        let seat = self.gather_stations(seat, stations);
        let Gate {
            board,
            gauge: _,
            sleepers: _,
        } = self;
        Ok(read(board.close_with(seat), count, decisions))
    }

    // Joins the Passes' parts to the Desk's seat.
    pub(crate) fn gather_passes(&self, mut seat: Place, mut passes: Vec<Pass, A>) -> Place
        requires table { seat.table_id ≡ self.now.table }
        requires view { seat.me ≡ (records.Desk (desk_of seat.me.0) ∷ [], []) }
        requires own { All (λ t. pass_gate t ≡ self.now) passes.items }
        ensures table { result.table_id ≡ self.now.table }
        ensures view { result.me ≡ (passes_before passes.items (records.Desk (desk_of seat.me.0) ∷ []), []) }
    {
        while let Some(pass) = passes.pop() {
            let Pass {
                seat: other,
                number: _,
                width: _,
                counts: _,
            } = pass;
            self.board.shared.join_seat::<FirstRecord>(&mut seat, other);
        }
        seat
    }

    // Joins the Stations' parts to the seat.
    pub(crate) fn gather_stations(&self, mut seat: Place, mut stations: Vec<Station, A>) -> Place
        requires table { seat.table_id ≡ self.now.table }
        requires view { seat.me.1 ≡ [] }
        requires own { All (λ t. station_gate t ≡ self.now) stations.items }
        ensures table { result.table_id ≡ self.now.table }
        ensures view { result.me ≡ (stations_before stations.items seat.me.0, []) }
    {
        while let Some(station) = stations.pop() {
            let Station { seat: other } = station;
            self.board.shared.join_seat::<FirstRecord>(&mut seat, other);
        }
        seat
    }
}

// What the words say.
pub(crate) fn read<A: Allocator, B: Allocator>(
    closed: Closed<(), A>,
    count: usize,
    mut decisions: Vec<Option<Decision>, B>,
) -> Words<B>
    requires full { IsFull closed.words × (slots_len closed.words ≡ count + 1) × (slots_len closed.slots ≡ 0) }
    requires room { (decisions.items ≡ []) × (count ≤ vec_capacity decisions) }
    requires level { (l : Level) × (slice_index (slots_items closed.words) 0 ≡ packed l) × IsInRange l }
    ensures level { (l : Level) → slice_index (slots_items closed.words) 0 ≡ packed l → IsInRange l → result.level ≡ l }
    ensures count { length result.decisions ≡ count }
    ensures decisions { (r m : ℕ) (d : Option Decision) → r < count → slice_index (slots_items closed.words) (r + 1) ≡ marked m d → slice_get result.decisions r ≡ Some d }
{
    let level = level_in(closed.word(0));
    for r in 0..count {
        decisions.push_reserved(decision_in(closed.word(r + 1)));
    }
    closed.free();
    Words { level, decisions }
}
