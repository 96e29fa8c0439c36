//! How a level ends.

ghost use Rattle.std.specs.Prelude.{◌≡◌, ◌≤◌, ◌<◌, ◌*◌, ◌^◌, ℕ, [], length, IfOk, All};
ghost use Rattle.apf_words.specs.Limits.{max_requests};
ghost use Rattle.apf_gate.specs.Tokens.{pass_gate, desk_gate, station_gate};
ghost use Rattle.apf_book.specs.Life.{LifeView};
ghost use Rattle.apf_book.specs.LifeBook.{IsLifeKept, IsLived};
ghost use Rattle.apf_line.specs.Levels.{LifeId, IsBookOf, IsIdleOf, nothing_yet};
ghost use Rattle.apf_line.specs.Tokens.{IsDone};
ghost use Rattle.apf_line.specs.Reports.{AreNewest, ClosesAs, EndedAs, EndedBy};

use crate::report::{Closing, Newest, Report};
use apf_book::{LifeBook, LifeEvent, LifeStats};
use apf_gate::{Desk, Gate, Pass, Station, Ticket, every_end_for_life_agrees};
use apf_model::every_legal_history_is_in_order;
use std::alloc::{AllocError, Global};

/// The Desk of a book that nobody will serve any more, with the newest events, of this many slots.
///
/// # Errors
///
/// `AllocError` if memory was refused. Then everything is given up.
pub fn close_book(
    alloc: Global,
    book: LifeBook<Global>,
    slots: usize,
) -> Result<Closing, AllocError>
    requires room { book.notes.capacity ≡ 2 * slots }
    requires few { slots ≤ max_requests }
    ensures lived { IsLived book }
    ensures desk { IfOk result (λ c. c.desk ≡ book.desk) }
    ensures closes { IfOk result (λ c. (k : LifeId) (v : LifeView) → IsBookOf k book → k.gate.shape.slots ≡ slots → IsLifeKept v book → ClosesAs k v c) }
{
    book.has_a_history();
    let newest = newest(alloc, &book, slots)?;
    Ok(Closing {
        desk: book.end(),
        newest,
    })
}

/// The Desk of a level without queues, which has no events.
pub fn close_desk(alloc: Global, desk: Desk) -> Closing
    ensures { (k : LifeId) → IsIdleOf k desk → ClosesAs k (nothing_yet k) result }
{
    Closing {
        desk,
        newest: nothing(alloc),
    }
}

/// Ends a level whose slots all came back, in any order, and tells what its words and its history say of all requests
/// that ever held a slot.
///
/// # Errors
///
/// `AllocError` if memory was refused. Then everything is given up.
pub fn end_level(
    alloc: Global,
    gate: Gate<Global>,
    closing: Closing,
    passes: Vec<Pass>,
    stations: Vec<Station>,
) -> Result<Report, AllocError>
    requires own_desk { desk_gate closing.desk ≡ gate }
    requires own_passes { All (λ t. pass_gate t ≡ gate) passes.items }
    requires own_stations { All (λ t. station_gate t ≡ gate) stations.items }
    requires all_passes { length passes.items ≡ gate.shape.slots }
    requires all_stations { length stations.items ≡ gate.shape.stations }
    requires done { All IsDone passes.items }
    ensures ended { IfOk result (λ r. (k : LifeId) (v : LifeView) → gate ≡ k.gate → ClosesAs k v closing → EndedAs k v passes.items stations.items r) }
    ensures by_desk { IfOk result (λ r. (k : LifeId) (v : LifeView) → gate ≡ k.gate → ClosesAs k v closing → EndedBy closing.desk.desk k v passes.items stations.items r) }
{
    every_end_for_life_agrees();
    every_legal_history_is_in_order();
    let Closing { desk, newest } = closing;
    let words = gate.end_for_life(alloc, desk, passes, stations)?;
    Ok(Report { words, newest })
}

// The newest events of a book, two for each slot.
fn newest(alloc: Global, book: &LifeBook<Global>, slots: usize) -> Result<Newest, AllocError>
    requires room { book.now.notes.capacity ≡ 2 * slots }
    requires few { slots ≤ max_requests }
    ensures { IfOk result (λ n. (v : LifeView) → IsLifeKept v book.now → length v.history < 2 ^ 64 → AreNewest (2 * slots) v.history n) }
{
    let blank = LifeEvent::Full(Ticket::of(0), 0);
    let mut events = vec![in alloc; blank; 2 * slots]?;
    let copied = book.copy_events(0, events.as_mut_slice());
    events.truncate(copied.count);
    Ok(Newest {
        from: copied.from,
        events,
        stats: book.stats(),
    })
}

// No event ever.
fn nothing(alloc: Global) -> Newest
    ensures { (capacity : ℕ) → AreNewest capacity [] result }
{
    Newest {
        from: 0,
        events: Vec::new(alloc),
        stats: LifeStats {
            entered: 0,
            dispatched: 0,
            struck: 0,
            full: 0,
        },
    }
}
