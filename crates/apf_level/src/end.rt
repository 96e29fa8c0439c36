//! How a level ends.

ghost use Rattle.std.specs.Prelude.{◌≡◌, length, reverse, slice_get, IfOk, All};
ghost use Rattle.apf_model.specs.Outcome.{stats_of};
ghost use Rattle.apf_book.specs.LedgerKept.{AreStats};
ghost use Rattle.apf_level.specs.UnderLock.{log_in, IsUnderLockOf};
ghost use Rattle.apf_level.specs.Reports.{AreSums, Ended};
ghost use Rattle.apf_level.specs.LevelCalls.{AreAllOf};

use crate::finish::finish;
use crate::hearing::{UnderLock, gather};
use crate::level::Level;
use crate::naming::Naming;
use crate::queued::{Queued, QueuedLock};
use crate::report::{Report, read};
use crate::shared::Shared;
use crate::tokens::Done;
use crate::unqueued::{Unqueued, UnqueuedLock};
use apf_book::Stats;
use apf_gate::Station;
use apf_stats::StatsPass;
use std::alloc::{AllocError, Global};

// Whoever decided under the lock.
fn under_lock_of<K: Naming>(shared: Shared<K>) -> UnderLock
    ensures { IsUnderLockOf K.level result }
{
    match shared {
        Shared::Queued(QueuedLock { lock }) => {
            let Queued {
                book,
                board: _,
                sleeps: _,
                slept: _,
                of: _,
            } = lock.into_inner();
            UnderLock::Book(book)
        }
        Shared::Unqueued(UnqueuedLock { lock }) => {
            let Unqueued { desk, of: _ } = lock.into_inner();
            UnderLock::Desk(desk)
        }
    }
}

// The numbers of the log.
fn numbers<K: Naming>(under_lock: &UnderLock) -> Stats
    requires { IsUnderLockOf K.level under_lock.now }
    ensures { AreStats result (stats_of K.level.opening.sizes.deck (log_in under_lock.now)) }
{
    match under_lock {
        UnderLock::Book(book) => book.stats(),
        UnderLock::Desk(_desk) => Stats {
            entered: 0,
            dispatched: 0,
            struck: 0,
            full: 0,
            waiting: 0,
        },
    }
}

impl<K: Naming> Level<K> {
    /// Ends a level whose requests are all done, and tells what its words and its log say. The Dones and the
    /// Stations may come in any order. Requests that still stand in a queue were cancelled, and are struck.
    ///
    /// # Errors
    ///
    /// `AllocError` if memory was refused. Then everything is given up.
    pub fn end(
        self,
        alloc: Global,
        dones: Vec<Done>,
        stations: Vec<Station>,
        _stats: StatsPass,
    ) -> Result<Report, AllocError>
        requires { AreAllOf K.level dones.items stations.items }
        ensures ended { IfOk result (λ r. Ended K.level r.word (slice_get r.decisions.items) (reverse r.log.items) dones.items stations.items) }
        ensures count { IfOk result (λ r. length r.decisions.items ≡ length K.level.gate.shape.widths) }
        ensures sums { IfOk result (λ r. AreSums r.counts (slice_get r.decisions.items) (length r.decisions.items)) }
        ensures stats { IfOk result (λ r. AreStats r.stats (stats_of K.level.opening.sizes.deck (reverse r.log.items))) }
    {
        let Level {
            gate,
            shared,
            window: _,
        } = self;
        let mut under_lock = under_lock_of(shared);
        let passes = gather::<K>(alloc, &gate, &mut under_lock, dones)?;
        let count = passes.len() as u32;
        let stats = numbers::<K>(&under_lock);
        let (words, log) = finish::<K>(alloc, gate, under_lock, passes, stations)?;
        let (decisions, counts) = read(alloc, &words, count)?;
        Ok(Report {
            word: words.level(),
            decisions,
            log,
            stats,
            counts,
        })
    }
}
