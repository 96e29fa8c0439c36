//! Numbers as people read them.

ghost use Rattle.std.specs.Prelude.{OnOk};
ghost use Rattle.std.specs.Io.KnownBytes.{Appends};
ghost use Rattle.apf_cluster_tables.specs.Texts.{percentile_text, time_text};

use std::io;
use std::io::Write;

/// Writes a time that is given in microseconds: with its unit, less what is below one of it.
pub(crate) fn write_time<W: Write>(out: &mut W, time: u64) -> io::Result<()>
    ensures { OnOk result (Appends (W.contents out.old) (W.contents out.new) (time_text time)) }
{
    if time < 1_000 {
        return write!(out, "{time}us");
    }
    if time < 10_000_000 {
        let millis = time / 1_000;
        return write!(out, "{millis}ms");
    }
    let seconds = time / 1_000_000;
    write!(out, "{seconds}s")
}

/// Writes a percentile of times, with a mark before one that is shortened, and a space before it.
#[tactic(auto, unfolding(crate::specs::Texts::percentile_text))]
pub(crate) fn write_percentile<W: Write>(out: &mut W, is_exact: bool, time: u64) -> io::Result<()>
    ensures { OnOk result (Appends (W.contents out.old) (W.contents out.new) (percentile_text is_exact time)) }
{
    if is_exact {
        out.write_all(b" ")?;
    } else {
        out.write_all(b" ~")?;
    }
    write_time(out, time)
}
