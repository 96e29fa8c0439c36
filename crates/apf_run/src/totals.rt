//! What the book of a batch's level says.

ghost use Rattle.std.specs.Prelude.{◌≡◌};
ghost use Rattle.apf_run.specs.Books.{totals_of as the_totals_of, totals_so_far as the_totals_so_far, wide_counts as wide};

use apf_book::{LifeStats, Stats};
use apf_gate::Counts;
use apf_level::Counts as BatchCounts;
use apf_texts::Totals;
use apf_words::LevelWord;

// The numbers of the decisions of a batch.
fn wide_counts(counts: BatchCounts) -> Counts
    ensures { result ≡ wide counts }
{
    Counts {
        executed: u64::from(counts.executed),
        queue_full: u64::from(counts.queue_full),
        closed: u64::from(counts.closed),
        concurrency_limit: u64::from(counts.concurrency_limit),
        cancelled: u64::from(counts.cancelled),
    }
}

/// What the word and the log of a batch's level say, and the decisions so far.
pub fn totals_so_far(
    word: LevelWord,
    counts: BatchCounts,
    undecided: u32,
    stats: LifeStats,
) -> Totals
    ensures { result ≡ the_totals_so_far word counts undecided stats }
{
    Totals {
        closed: word.closed(),
        seats: word.seats(),
        waiters: word.waiters(),
        counts: wide_counts(counts),
        undecided: u64::from(undecided),
        entered: stats.entered,
        dispatched: stats.dispatched,
        struck: stats.struck,
    }
}

/// The same of a batch on a level of threads, whose log has fewer events.
pub fn totals_of(word: LevelWord, counts: BatchCounts, undecided: u32, stats: Stats) -> Totals
    ensures { result ≡ the_totals_of word counts undecided stats }
{
    let stats = LifeStats {
        entered: u64::from(stats.entered),
        dispatched: u64::from(stats.dispatched),
        struck: u64::from(stats.struck),
        full: u64::from(stats.full),
    };
    totals_so_far(word, counts, undecided, stats)
}
