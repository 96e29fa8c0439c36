//! The words and the log of a level whose Passes all came back.

ghost use Rattle.std.specs.Prelude.{◌≡◌, [], reverse, length, IfOk, All};
ghost use Rattle.apf_level.specs.Levels.{IsBookOf, IsIdleOf};
ghost use Rattle.apf_level.specs.UnderLock.{desk_in, log_in, IsUnderLockOf};
ghost use Rattle.apf_level.specs.Tokens.{IsDone};
ghost use Rattle.apf_level.specs.Heard.{IsHeard};
ghost use Rattle.apf_level.specs.LevelCalls.{AreAllOf, Finishes};

use crate::hearing::UnderLock;
use crate::naming::Naming;
use apf_book::{Book, every_book_is_kept, every_ended_book_agrees};
use apf_gate::{Desk, Gate, Pass, Station, Words, every_end_agrees};
use apf_model::{Event, every_legal_history_is_in_order};
use std::alloc::{AllocError, Global};

// Of a level with queues.
fn finish_book<K: Naming>(
    alloc: Global,
    gate: Gate<Global>,
    book: Book<Global>,
    passes: Vec<Pass>,
    stations: Vec<Station>,
) -> Result<(Words<Global>, Vec<Event>), AllocError>
    requires own { gate ≡ K.level.gate }
    requires batch { length K.level.gate.shape.widths ≡ K.level.gate.shape.slots }
    requires own_book { IsBookOf K.level book }
    requires all { AreAllOf K.level passes.items stations.items }
    requires done { All IsDone passes.items }
    requires heard { All (IsHeard book.desk.desk) passes.items }
    ensures log { IfOk result (λ o. reverse o.1.items ≡ book.ledger.history) }
    ensures finished { IfOk result (λ o. Finishes K.level o.0 (reverse o.1.items) passes.items stations.items) }
{
    every_end_agrees();
    every_ended_book_agrees();
    every_book_is_kept();
    every_legal_history_is_in_order();
    let (desk, log) = book.end();
    let words = gate.end(alloc, desk, passes, stations)?;
    Ok((words, log))
}

// Of a level without queues, whose log is empty.
fn finish_unqueued<K: Naming>(
    alloc: Global,
    gate: Gate<Global>,
    desk: Desk,
    passes: Vec<Pass>,
    stations: Vec<Station>,
) -> Result<(Words<Global>, Vec<Event>), AllocError>
    requires own { gate ≡ K.level.gate }
    requires batch { length K.level.gate.shape.widths ≡ K.level.gate.shape.slots }
    requires own_desk { IsIdleOf K.level desk }
    requires all { AreAllOf K.level passes.items stations.items }
    requires done { All IsDone passes.items }
    requires heard { All (IsHeard desk.desk) passes.items }
    ensures log { IfOk result (λ o. o.1.items ≡ []) }
    ensures finished { IfOk result (λ o. Finishes K.level o.0 (reverse o.1.items) passes.items stations.items) }
{
    every_end_agrees();
    let words = gate.end(alloc, desk, passes, stations)?;
    Ok((words, Vec::new(alloc)))
}

/// The words and the log, where each Pass came back and was heard.
pub fn finish<K: Naming>(
    alloc: Global,
    gate: Gate<Global>,
    under_lock: UnderLock,
    passes: Vec<Pass>,
    stations: Vec<Station>,
) -> Result<(Words<Global>, Vec<Event>), AllocError>
    requires own { gate ≡ K.level.gate }
    requires batch { length K.level.gate.shape.widths ≡ K.level.gate.shape.slots }
    requires own_keeper { IsUnderLockOf K.level under_lock }
    requires all { AreAllOf K.level passes.items stations.items }
    requires done { All IsDone passes.items }
    requires heard { All (IsHeard (desk_in under_lock).desk) passes.items }
    ensures log { IfOk result (λ o. reverse o.1.items ≡ log_in under_lock) }
    ensures finished { IfOk result (λ o. Finishes K.level o.0 (reverse o.1.items) passes.items stations.items) }
{
    match under_lock {
        UnderLock::Book(book) => finish_book::<K>(alloc, gate, book, passes, stations),
        UnderLock::Desk(desk) => finish_unqueued::<K>(alloc, gate, desk, passes, stations),
    }
}
