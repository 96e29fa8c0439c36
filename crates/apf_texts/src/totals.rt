//! The four lines of a book, and how they are written.

ghost use Rattle.std.specs.Prelude.{◌≡◌, ◌+◌, OnOk};
ghost use Rattle.std.specs.Io.KnownBytes.{Appends};
ghost use Rattle.apf_texts.specs.Texts.{closed_name as name_of, level_text, decided_text, rejected_text, log_text, totals_text};

use apf_gate::Counts;
use std::io;
use std::io::Write;

/// What the book of a level says.
#[derive(Clone, Copy, Debug, PartialEq, Eq)]
pub struct Totals {
    /// Whether the level is closed.
    pub closed: bool,
    /// The seats that are taken.
    pub seats: u32,
    /// The requests that wait.
    pub waiters: u32,
    /// The requests by their decision.
    pub counts: Counts,
    /// The requests without a decision.
    pub undecided: u64,
    /// The requests that entered a queue.
    pub entered: u64,
    /// Those that were dispatched.
    pub dispatched: u64,
    /// Those that were struck.
    pub struck: u64,
}

// How it is written whether a level is closed.
fn closed_name(closed: bool) -> &'static str
    ensures { result.now ≡ name_of closed }
{
    if closed { "closed" } else { "open" }
}

impl Totals {
    /// Writes the four lines.
    pub fn write<W: Write>(&self, out: &mut W) -> io::Result<()>
        ensures { OnOk result (Appends (W.contents out.old) (W.contents out.new) (totals_text self.now)) }
    {
        self.write_level(out)?;
        self.write_decided(out)?;
        self.write_rejected(out)?;
        self.write_log(out)
    }

    #[tactic(auto, unfolding(crate::specs::Texts::level_text))]
    fn write_level<W: Write>(&self, out: &mut W) -> io::Result<()>
        ensures { OnOk result (Appends (W.contents out.old) (W.contents out.new) (level_text self.now)) }
    {
        let name = closed_name(self.closed);
        let seats = self.seats;
        let waiters = self.waiters;
        writeln!(out, "level {name} seats {seats} waiting {waiters}")
    }

    // The requests that were rejected.
    fn rejected(&self) -> u128
        ensures { result ≡ self.now.counts.queue_full + self.now.counts.closed + self.now.counts.concurrency_limit }
    {
        let queue_full: u64 = self.counts.queue_full;
        let closed: u64 = self.counts.closed;
        let concurrency_limit: u64 = self.counts.concurrency_limit;
        u128::from(queue_full) + u128::from(closed) + u128::from(concurrency_limit)
    }

    #[tactic(auto, unfolding(crate::specs::Texts::decided_text))]
    fn write_decided<W: Write>(&self, out: &mut W) -> io::Result<()>
        ensures { OnOk result (Appends (W.contents out.old) (W.contents out.new) (decided_text self.now)) }
    {
        let executed = self.counts.executed;
        let rejected = self.rejected();
        let cancelled = self.counts.cancelled;
        let undecided = self.undecided;
        writeln!(
            out,
            "executed {executed} rejected {rejected} cancelled {cancelled} undecided {undecided}"
        )
    }

    #[tactic(auto, unfolding(crate::specs::Texts::rejected_text))]
    fn write_rejected<W: Write>(&self, out: &mut W) -> io::Result<()>
        ensures { OnOk result (Appends (W.contents out.old) (W.contents out.new) (rejected_text self.now)) }
    {
        let queue_full = self.counts.queue_full;
        let closed = self.counts.closed;
        let concurrency_limit = self.counts.concurrency_limit;
        writeln!(
            out,
            "queue-full {queue_full} closed {closed} concurrency-limit {concurrency_limit}"
        )
    }

    #[tactic(auto, unfolding(crate::specs::Texts::log_text))]
    fn write_log<W: Write>(&self, out: &mut W) -> io::Result<()>
        ensures { OnOk result (Appends (W.contents out.old) (W.contents out.new) (log_text self.now)) }
    {
        let entered = self.entered;
        let dispatched = self.dispatched;
        let struck = self.struck;
        writeln!(
            out,
            "entered {entered} dispatched {dispatched} struck {struck}"
        )
    }
}
