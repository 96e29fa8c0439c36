//! The book of a run.

ghost use Rattle.std.specs.Io.KnownBytes.{Appends};
ghost use Rattle.std.specs.Prelude.{OnOk};
ghost use Rattle.apf_texts.specs.Texts.{totals_text};
ghost use Rattle.apf_run.specs.Books.{book_of};

use crate::totals::totals_of;
use crate::transcript::WriteFault;
use apf_level::Report;
use std::io::Write;

/// Writes the book of a run: four lines.
///
/// # Errors
///
/// The writer's. Then nothing is known of how much was written.
pub fn write_book<W: Write>(report: &Report, out: &mut W) -> Result<(), WriteFault>
    ensures { OnOk result (Appends (W.contents out.old) (W.contents out.new) (totals_text (book_of report.now))) }
{
    totals_of(report.word, report.counts, 0, report.stats).write(out)?;
    Ok(())
}
