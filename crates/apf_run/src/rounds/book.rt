//! The book of a run in rounds.

ghost use Rattle.std.specs.Io.KnownBytes.{Appends};
ghost use Rattle.std.specs.Prelude.{◌≡◌, OnOk};
ghost use Rattle.apf_texts.specs.Texts.{totals_text};
ghost use Rattle.apf_run.specs.RoundsBooks.{book_of};

use crate::transcript::WriteFault;
use apf_level::life::Report;
use apf_texts::Totals;
use std::io::Write;

// What the book says.
fn totals(report: &Report) -> Totals
    ensures { result ≡ book_of report.now }
{
    let word = report.words.level();
    Totals {
        closed: word.closed(),
        seats: word.seats(),
        waiters: word.waiters(),
        counts: report.words.counts(),
        undecided: 0,
        entered: report.newest.stats.entered,
        dispatched: report.newest.stats.dispatched,
        struck: report.newest.stats.struck,
    }
}

/// Writes the book of a run in rounds, of all its requests: four lines.
///
/// # Errors
///
/// The writer's. Then nothing is known of how much was written.
pub fn write_book<W: Write>(report: &Report, out: &mut W) -> Result<(), WriteFault>
    ensures { OnOk result (Appends (W.contents out.old) (W.contents out.new) (totals_text (book_of report.now))) }
{
    totals(report).write(out)?;
    Ok(())
}
