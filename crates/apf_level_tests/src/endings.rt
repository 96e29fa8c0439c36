//! What levels tell at their end.

use apf_book::Stats;
use apf_level::{Counts, Report};
use apf_model::Event;
use apf_words::Decision;
use std::process::Abort;

/// What a level is to tell at its end.
#[derive(Clone, Copy)]
pub struct Ending<'a> {
    pub closed: bool,
    pub decisions: &'a [Decision],
    pub log: &'a [Event],
    pub stats: Stats,
    pub counts: Counts,
}

/// A level that ended: its numbers by the last reading before the end, and what its end told.
#[derive(Drop)]
pub struct Ended {
    pub last: Stats,
    pub report: Report,
}

impl Ended {
    /// Asserts that the level ended so, and that no seat is taken and nobody waits.
    pub fn is_as<R: Abort>(&self, rt: &R, ending: &Ending<'_>) {
        self.is_idle(rt, ending.closed);
        assert_eq!(rt; self.report.decisions.as_slice(), ending.decisions);
        assert_eq!(rt; self.report.log.as_slice(), ending.log);
        assert_eq!(rt; self.report.stats, ending.stats);
        assert_eq!(rt; self.report.counts, ending.counts);
    }

    /// Asserts that the level ended open, that its requests, this many, were executed, and that those that entered
    /// a queue were dispatched.
    pub fn executed<R: Abort>(&self, rt: &R, count: u32) {
        self.is_idle(rt, false);
        let counts = Counts {
            executed: count,
            ..Counts::default()
        };
        assert_eq!(rt; self.report.counts, counts);
        assert_eq!(rt; self.report.decisions.len(), count as usize);
        for decision in self.report.decisions.as_slice() {
            assert_eq!(rt; *decision, Decision::Execute);
        }
        let stats = self.report.stats;
        assert_eq!(rt; stats.dispatched, stats.entered);
        assert_eq!(rt; [stats.struck, stats.full, stats.waiting], [0, 0, 0]);
        let events = u64::from(stats.entered) + u64::from(stats.dispatched);
        assert_eq!(rt; self.report.log.len() as u64, events);
    }

    // Asserts that no seat is taken and nobody waits, and that the last reading told the numbers of the log.
    fn is_idle<R: Abort>(&self, rt: &R, closed: bool) {
        assert_eq!(rt; self.report.word.closed(), closed);
        assert_eq!(rt; self.report.word.seats(), 0);
        assert_eq!(rt; self.report.word.waiters(), 0);
        assert_eq!(rt; self.last, self.report.stats);
    }
}
