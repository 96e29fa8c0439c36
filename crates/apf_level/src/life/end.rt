//! How a level ends.

ghost use Rattle.std.specs.Prelude.{◌≡◌, IfOk, All};
ghost use Rattle.apf_level.specs.LifeCalls.{AreAllOf};
ghost use Rattle.apf_line.specs.Tokens.{IsDone};
ghost use Rattle.apf_line.specs.Reports.{Closes, Ended};

use crate::life::level::Level;
use crate::life::naming::Naming;
use crate::life::queued::{Queued, QueuedLock};
use crate::life::shared::Shared;
use crate::life::tokens::Done;
use crate::life::unqueued::{Unqueued, UnqueuedLock};
use apf_gate::{Pass, Station};
use apf_line::{Closing, Report, close_book, close_desk, end_level};
use std::alloc::{AllocError, Global};

impl<K: Naming> Level<K> {
    /// Ends a level whose slots all came back, in any order, and tells what its words and its history say of all
    /// requests that ever held a slot.
    ///
    /// # Errors
    ///
    /// `AllocError` if memory was refused. Then everything is given up.
    pub fn end(
        self,
        alloc: Global,
        slots: Vec<Done>,
        stations: Vec<Station>,
    ) -> Result<Report, AllocError>
        requires { AreAllOf K.level slots.items stations.items }
        ensures { IfOk result (Ended K.level slots.items stations.items) }
    {
        let Level { gate, shared } = self;
        let passes = passes_of(alloc, slots)?;
        let closing = close::<K>(alloc, shared, passes.len())?;
        end_level(alloc, gate, closing, passes, stations)
    }
}

// The Passes of the slots, in their order.
fn passes_of(alloc: Global, slots: Vec<Done>) -> Result<Vec<Pass>, AllocError>
    ensures same { IfOk result (λ p. p.items ≡ slots.items) }
    ensures done { IfOk result (λ p. All IsDone p.items) }
{
    let mut passes = Vec::with_capacity(alloc, slots.len())?;
    for slot in slots {
        passes.push(slot.into_pass())?;
    }
    Ok(passes)
}

// The Desk, and the newest events, of this many slots.
fn close<K: Naming>(alloc: Global, shared: Shared<K>, slots: usize) -> Result<Closing, AllocError>
    requires { slots ≡ K.level.gate.shape.slots }
    ensures { IfOk result (Closes K.level) }
{
    match shared {
        Shared::Queued(QueuedLock { lock, dealer: _ }) => {
            let Queued {
                book,
                sleepers: _,
                slept: _,
                of: _,
            } = lock.into_inner();
            close_book(alloc, book, slots)
        }
        Shared::Unqueued(UnqueuedLock { lock }) => {
            let Unqueued { desk, of: _ } = lock.into_inner();
            Ok(close_desk(alloc, desk))
        }
    }
}
