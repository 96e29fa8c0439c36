//! Four numbers that one writer publishes: entered, dispatched, struck and full.
//!
//! They stand in one cell. Its rule: there is one trace, of every publication and every reading in the
//! order in which they were made, each with the pass that made it. The cell says what was published
//! last. What a pass knows is the trace up to its own last step. So a reading finds what was published
//! last before it, no reading goes back, and each adds up, whatever the writer does meanwhile.

ghost use Rattle.std.specs.Prelude.{◌≡◌, ◌+◌, ◌≤◌, IfOk, [], Some, None};
ghost use Rattle.apf_stats.specs.Numbers.{nothing, numbers_of, IsBelow};
ghost use Rattle.apf_stats.specs.Traces.{shown, IsNext};

use apf_book::Stats;
use atomic_table::Split;
use crossbeam_utils::atomic::seq_cell::{Pass, RuledSeqCell};
use crossbeam_utils::rule::{Outcome, Protocol};
use std::alloc::{AllocError, Global};
use std::collections::LinkedList;
use std::marker::Model;
use std::sync::{Arc, Wait};

// One step on the cell. No value of it is made.
pub struct Entry {
    // the number of the pass that made it
    pub by: u64,
    // the numbers that it published; a reading published none
    pub published: Option<LinkedList<u64>>,
}

// What a pass of the cell knows. No value of it is made.
pub struct View {
    // its number: the writer's is 0
    pub number: u64,
    // how many passes were split off it
    pub readers: u64,
    // all steps up to its own last one, the newest first
    pub trace: LinkedList<Entry>,
}

// The rule of the cell.
pub struct Grows;

impl Protocol<[u64; 4], View> for Grows {
    ghost use Rattle.std.specs.Prelude.{[]};
    ghost use Rattle.apf_stats.specs.Rule.{IsRuled, writer};

    ghost holds = { IsRuled };

    ghost first = { writer [] };
}

// The writer puts new numbers in the place of the old ones.
struct Publish;

impl Outcome<[u64; 4], View> for Publish {
    ghost use Rattle.apf_stats.specs.Rule.{Publishes};

    ghost then = { Publishes };
}

// A reader reads them.
struct Read;

impl Outcome<[u64; 4], View> for Read {
    ghost use Rattle.apf_stats.specs.Rule.{Reads};

    ghost then = { Reads };
}

// A reader's pass is split off the writer's.
struct AsReader;

impl Split<View> for AsReader {
    ghost use Rattle.apf_stats.specs.Rule.{with_reader, as_reader};

    ghost left = { with_reader };

    ghost right = { as_reader };
}

type Cell = RuledSeqCell<[u64; 4], View, Grows, 4>;

/// The writer's end, of which there is one. It stands beside the book, under the lock.
#[derive(Drop)]
pub struct Board {
    cell: Arc<Cell, Global>,
    pass: Pass<[u64; 4], View>,
}

impl Model for Board {
    ghost use Rattle.std.specs.Prelude.{◌≡◌};
    ghost use Rattle.std.specs.Arc.{arc_value};
    ghost use Rattle.crossbeam_utils.specs.Seq.{cell_view};
    ghost use Rattle.apf_stats.specs.Numbers.{BoardView};

    ghost Value = { BoardView };

    ghost view = { λ b. record { cell = (arc_value b.cell).table.shared.table_id; trace = (cell_view b.pass).trace } };

    ghost invariant = { λ b. (b.pass.table_id ≡ (arc_value b.cell).table.shared.table_id) × ((cell_view b.pass).number ≡ 0) };
}

/// The readers' end, beside the lock.
#[derive(Drop)]
pub struct Window {
    cell: Arc<Cell, Global>,
}

impl Model for Window {
    ghost use Rattle.std.specs.Arc.{arc_value};
    ghost use Rattle.atomic_table.specs.Seated.{TableId};

    ghost Value = { TableId };

    ghost view = { λ w. (arc_value w.cell).table.shared.table_id };
}

/// What one reader knows: its number, and all steps on the cell up to its own last reading.
#[derive(Drop)]
pub struct StatsPass {
    pass: Pass<[u64; 4], View>,
}

impl Model for StatsPass {
    ghost use Rattle.crossbeam_utils.specs.Seq.{cell_view};
    ghost use Rattle.apf_stats.specs.Numbers.{PassView};

    ghost Value = { PassView };

    ghost view = { λ p. record { cell = p.pass.table_id; number = (cell_view p.pass).number; trace = (cell_view p.pass).trace } };
}

/// A cell that says that nothing happened, with its two ends and one reader's pass. All memory is
/// taken here.
///
/// # Errors
///
/// `AllocError` if memory was refused.
pub fn open(alloc: Global) -> Result<(Board, Window, StatsPass), AllocError>
    ensures cell { IfOk result (λ o. (o.1 ≡ o.0.cell) × (o.2.cell ≡ o.0.cell)) }
    ensures trace { IfOk result (λ o. (o.0.trace ≡ []) × (o.2.trace ≡ [])) }
    ensures reader { IfOk result (λ o. o.2.number ≡ 1) }
{
    let (cell, mut pass) = Cell::ruled(alloc, [0, 0, 0, 0])?;
    let reader = cell.split_pass::<AsReader>(&mut pass);
    let cell = Arc::new(alloc, cell)?;
    let window = Window {
        cell: Arc::try_clone(&cell)?,
    };
    Ok((Board { cell, pass }, window, StatsPass { pass: reader }))
}

impl Board {
    /// Publishes these numbers, which are no lower than those that were published last. It makes one
    /// write of the cell, and takes no memory.
    pub fn publish<R: Wait>(&mut self, rt: &R, stats: Stats)
        requires up { IsBelow (shown self.old.trace) (numbers_of stats) }
        requires sum { stats.dispatched + stats.struck ≤ stats.entered }
        ensures cell { self.new.cell ≡ self.old.cell }
        ensures one_publication { IsNext 0 (Some (numbers_of stats)) self.old.trace self.new.trace }
        ensures shown { shown self.new.trace ≡ numbers_of stats }
    {
        let numbers = [
            u64::from(stats.entered),
            u64::from(stats.dispatched),
            u64::from(stats.struck),
            u64::from(stats.full),
        ];
        self.cell.swap_as::<Publish, R>(rt, &mut self.pass, numbers);
    }
}

impl Window {
    /// Reads the numbers, by one reading of the cell. They are what was published last at that moment,
    /// and none is lower than what this pass read before. A reading may wait for the writer, which
    /// holds the cell for four words. It takes no memory, and no lock of the book.
    pub fn stats<R: Wait>(&self, rt: &R, pass: &mut StatsPass) -> Stats
        requires own { pass.old.cell ≡ self.now }
        ensures cell { pass.new.cell ≡ pass.old.cell }
        ensures number { pass.new.number ≡ pass.old.number }
        ensures one_reading { IsNext pass.old.number None pass.old.trace pass.new.trace }
        ensures found { shown pass.new.trace ≡ numbers_of result }
        ensures never_back { IsBelow (shown pass.old.trace) (numbers_of result) }
        ensures sum { result.entered ≡ result.dispatched + result.struck + result.waiting }
    {
        let [entered, dispatched, struck, full] = self.cell.load_as::<Read, R>(rt, &mut pass.pass);
        Stats {
            entered: entered as u32,
            dispatched: dispatched as u32,
            struck: struck as u32,
            full: full as u32,
            waiting: (entered - dispatched - struck) as u32,
        }
    }
}
