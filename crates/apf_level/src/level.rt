//! The gate beside the lock, and how a level begins.

ghost use Rattle.std.specs.Prelude.{◌≡◌, ◌≤◌, [], length, map, IfOk, IfErr, OnOk};
ghost use Rattle.apf_words.specs.Limits.{max_requests};
ghost use Rattle.apf_model.specs.declared.response.Response.TheVariants.{Queue, Reject};
ghost use Rattle.apf_model.specs.Schedule.{AreCosts};
ghost use Rattle.apf_gate.specs.Records.{new_desk};
ghost use Rattle.apf_book.specs.Stopped.{IsStopped};
ghost use Rattle.apf_book.specs.Opening.{opening_ledger, opening_ledger_with, AreSettings, IsFaultOf};
ghost use Rattle.apf_gate.specs.Tokens.{desk_gate};
ghost use Rattle.apf_level.specs.Levels.{IsBookOf};
ghost use Rattle.apf_book.specs.BookCalls.{AreCostsFor};
ghost use Rattle.apf_level.specs.LevelCalls.{IsGateFor, AreEndsOf, IsOpened, IsJudged};

use crate::naming::Naming;
use crate::queued::{Queued, QueuedLock};
use crate::shared::Shared;
use crate::unqueued::{Unqueued, UnqueuedLock};
use apf_book::{Ask, Book, BookFault, Config};
use apf_gate::{Desk, Gate, Pass, Station};
use apf_model::Response;
use apf_stats::{Board, StatsPass, Window};
use std::alloc::Global;
use std::marker::{Model, PhantomData};
use std::sync::Mutex;

/// Both ends of a level's statistics and its reader, as `open_statistics` made them.
pub type Ends = (Board, Window, StatsPass);

/// Why a level is not opened: the dealer's fault, the queues', or out of memory, the first of these.
pub type LevelFault = BookFault;

/// A priority level, which any number of threads may step on. K says which one it is.
#[derive(Drop)]
pub struct Level<K: Naming> {
    pub(crate) gate: Gate<Global>,
    pub(crate) shared: Shared<K>,
    pub(crate) window: Window,
}

impl<K: Naming> Model for Level<K> {
    ghost use Rattle.apf_level.specs.Levels.{LevelView, IsLevelOf};

    ghost Value = { LevelView };

    ghost view = { λ l. record { gate = l.gate; cell = l.window } };

    ghost invariant = { λ l. IsLevelOf K.level l.gate l.window };
}

/// A level that was opened, with the tokens of its gate, and one reader's pass of its statistics.
#[derive(Drop)]
pub struct Opened<K: Naming> {
    pub level: Level<K>,
    pub passes: Vec<Pass>,
    pub stations: Vec<Station>,
    pub stats: StatsPass,
}

impl<K: Naming> Level<K> {
    /// All requests of a level are given when it opens, 10,000 at most, and each has a slot of its own.
    ///
    /// It makes no step: the contract is the law.
    pub fn is_a_batch(&self)
        ensures batch { length K.level.gate.shape.widths ≡ K.level.gate.shape.slots }
        ensures few { length K.level.gate.shape.widths ≤ max_requests }
    {
        let _ = &self.gate;
    }

    /// A level over the parts of K's gate, as `Gate::open` gave them for the config's limit and response and
    /// the asks' widths, and over the ends of K's statistics. A dispatch is charged the request's width. All
    /// memory is taken here.
    ///
    /// On a level whose response is Reject the settings of queues are not used.
    ///
    /// # Errors
    ///
    /// The first of these: the dealer's fault, the queues', and `NoMemory` if memory was refused. Then
    /// everything is given up.
    pub fn open(
        alloc: Global,
        config: &Config,
        asks: &[Ask],
        gate: Gate<Global>,
        desk: Desk,
        passes: Vec<Pass>,
        stations: Vec<Station>,
        ends: Ends,
    ) -> Result<Opened<K>, LevelFault>
        requires opening { IsGateFor K.level config.now asks.now (opening_ledger config.now asks.now) gate desk }
        requires ends { AreEndsOf K.level ends.0 ends.1 ends.2 }
        ensures opened { IfOk result (λ o. IsOpened gate passes stations o.level o.passes o.stations o.stats) }
        ensures judged { IsJudged config.now asks.now result }
    {
        let (board, window, stats) = ends;
        let shared = match config.limit_response {
            Response::Queue => {
                let book = Book::new(alloc, config, asks, desk);
                queued::<K>(alloc, config, asks, book, board)?
            }
            Response::Reject => unqueued::<K>(desk),
        };
        let level = Level {
            gate,
            shared,
            window,
        };
        Ok(Opened {
            level,
            passes,
            stations,
            stats,
        })
    }

    /// As `open`, but a dispatch is charged the request's cost: its queue's next and the level's virtual
    /// time go on by it. Seats are taken by the width, as ever.
    ///
    /// There is one cost for each request, 1 to 4,294,967,295, in a unit of the caller's: its width, or an
    /// estimate of its seats times the time that it holds them. On a level whose response is Reject nothing
    /// is charged.
    ///
    /// # Errors
    ///
    /// As `open`.
    pub fn open_with_costs(
        alloc: Global,
        config: &Config,
        asks: &[Ask],
        costs: &[u32],
        gate: Gate<Global>,
        desk: Desk,
        passes: Vec<Pass>,
        stations: Vec<Station>,
        ends: Ends,
    ) -> Result<Opened<K>, LevelFault>
        requires opening { IsGateFor K.level config.now asks.now (opening_ledger_with config.now asks.now costs.now) gate desk }
        requires costs { AreCostsFor asks.now costs.now }
        requires ends { AreEndsOf K.level ends.0 ends.1 ends.2 }
        ensures opened { IfOk result (λ o. IsOpened gate passes stations o.level o.passes o.stations o.stats) }
        ensures judged { IsJudged config.now asks.now result }
    {
        let (board, window, stats) = ends;
        let shared = match config.limit_response {
            Response::Queue => {
                let book = Book::with_costs(alloc, config, asks, costs, desk);
                queued::<K>(alloc, config, asks, book, board)?
            }
            Response::Reject => unqueued::<K>(desk),
        };
        let level = Level {
            gate,
            shared,
            window,
        };
        Ok(Opened {
            level,
            passes,
            stations,
            stats,
        })
    }
}

// The lock of a level with queues, of whose book this was made, with the writer's end of its statistics.
fn queued<K: Naming>(
    alloc: Global,
    config: &Config,
    asks: &[Ask],
    book: Result<Book<Global>, BookFault>,
    board: Board,
) -> Result<Shared<K>, LevelFault>
    requires book { IfOk book (IsBookOf K.level) }
    requires new { IfOk book (λ b. b.ledger.history ≡ []) }
    requires stopped { IfOk book (λ b. IsStopped b.ledger b.desk.desk.knows) }
    requires widths { map (λ a. a.width) asks.now ≡ K.level.gate.shape.widths }
    requires settings { OnOk book (AreSettings config.now asks.now) }
    requires fault { IfErr book (IsFaultOf config.now asks.now) }
    requires has_queues { K.level.gate.shape.response ≡ Queue }
    requires own_cell { board.cell ≡ K.level.cell }
    requires nothing_published { board.trace ≡ [] }
    ensures settings { OnOk result (AreSettings config.now asks.now) }
    ensures fault { IfErr result (IsFaultOf config.now asks.now) }
{
    let book = book?;
    let queued = Queued {
        book,
        board,
        sleeps: vec![in alloc; false; asks.len()]?,
        slept: false,
        of: PhantomData,
    };
    let lock = QueuedLock {
        lock: Mutex::new(queued),
    };
    Ok(Shared::Queued(lock))
}

// The lock of a level without queues, whose statistics nobody writes.
fn unqueued<K: Naming>(desk: Desk) -> Shared<K>
    requires own { desk_gate desk ≡ K.level.gate }
    requires batch { length K.level.gate.shape.widths ≡ K.level.gate.shape.slots }
    requires fresh { desk.desk ≡ new_desk desk.desk.knows.shape }
    requires nothing { K.level.opening.history ≡ [] }
    requires one_cost_each { length K.level.opening.costs ≡ length K.level.gate.shape.widths }
    requires costs { AreCosts K.level.opening.costs }
    requires no_queues { K.level.gate.shape.response ≡ Reject }
{
    desk.is_of_a_gate();
    let unqueued = Unqueued {
        desk,
        of: PhantomData,
    };
    let lock = UnqueuedLock {
        lock: Mutex::new(unqueued),
    };
    Shared::Unqueued(lock)
}
