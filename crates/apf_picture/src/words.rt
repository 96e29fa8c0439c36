//! Numbers and times in words, as XML has them.

ghost use Rattle.std.specs.Prelude.{◌≡◌, ◌<◌, ◌≤◌, ◌+◌, ◌*◌, ◌^◌, length, OnOk};
ghost use Rattle.std.specs.Io.KnownBytes.{Appends};
ghost use Rattle.apf_picture.specs.Words.{counted_text, tenths_text, two_text, time_text, patience_text, endings_text, at_most_text, longest_text, after_text, numbers_text, row_numbers_text};

use crate::row::Numbers;
use std::io;
use std::io::Write;

/// Writes a number and a noun, in the plural where the number is not 1.
pub fn write_counted<W: Write>(out: &mut W, number: u64, noun: &str) -> io::Result<()>
    ensures { OnOk result (Appends (W.contents out.old) (W.contents out.new) (counted_text number noun.now)) }
{
    if number == 1 {
        return write!(out, "1 {noun}");
    }
    write!(out, "{number} {noun}s")
}

/// Writes a number of a unit that has this many microseconds, with one digit after the point.
#[tactic(auto, unfolding(crate::specs::Words::tenths_text))]
pub fn write_tenths<W: Write>(out: &mut W, time: u64, unit: u64, name: &str) -> io::Result<()>
    requires { 10 ≤ unit }
    ensures { OnOk result (Appends (W.contents out.old) (W.contents out.new) (tenths_text time unit name.now)) }
{
    let whole = time / unit;
    let tenth = time % unit / (unit / 10);
    write!(out, "{whole}.{tenth} {name}")
}

/// Writes a number of one unit and a number of a smaller one.
#[tactic(auto, unfolding(crate::specs::Words::two_text))]
pub(crate) fn write_two<W: Write>(
    out: &mut W,
    whole: u64,
    name: &str,
    rest: u64,
    smaller: &str,
) -> io::Result<()>
    ensures { OnOk result (Appends (W.contents out.old) (W.contents out.new) (two_text whole name.now rest smaller.now)) }
{
    write!(out, "{whole} {name} {rest} {smaller}")
}

/// Writes a time of this many microseconds: with one digit after the point, or in two units.
pub fn write_time<W: Write>(out: &mut W, time: u64) -> io::Result<()>
    ensures { OnOk result (Appends (W.contents out.old) (W.contents out.new) (time_text time)) }
{
    let seconds = time / 1_000_000;
    let minutes = seconds / 60;
    let hours = minutes / 60;
    match time {
        0..=999 => write!(out, "{time} &#181;s"),
        1_000..=999_999 => write_tenths(out, time, 1_000, "ms"),
        1_000_000..=59_999_999 => write_tenths(out, time, 1_000_000, "s"),
        60_000_000..=3_599_999_999 => write_two(out, minutes, "min", seconds % 60, "s"),
        3_600_000_000..=86_399_999_999 => write_two(out, hours, "h", minutes % 60, "min"),
        _ => write_two(out, hours / 24, "d", hours % 24, "h"),
    }
}

/// Writes how long a request waits at most, in the longest unit of which it is a whole number.
pub(crate) fn write_patience<W: Write>(out: &mut W, patience: u64) -> io::Result<()>
    ensures { OnOk result (Appends (W.contents out.old) (W.contents out.new) (patience_text patience)) }
{
    if patience == 0 {
        return out.write_all(b"patience 0: nobody gives up");
    }
    if patience % 1_000_000 == 0 {
        let seconds = patience / 1_000_000;
        return write!(out, "patience {seconds} s");
    }
    if patience % 1_000 == 0 {
        let milliseconds = patience / 1_000;
        return write!(out, "patience {milliseconds} ms");
    }
    write!(out, "patience {patience} &#181;s")
}

/// Writes how many requests ended how, the longest wait of who gave up, and that of who executed.
#[tactic(auto, unfolding(crate::specs::Words::numbers_text))]
pub(crate) fn write_numbers<W: Write>(out: &mut W, numbers: &Numbers) -> io::Result<()>
    ensures { OnOk result (Appends (W.contents out.old) (W.contents out.new) (numbers_text numbers.now)) }
{
    write_endings(out, numbers)?;
    write_after(out, numbers)?;
    write_longest(out, numbers.longest)
}

// Writes how many requests ended how.
#[tactic(auto, unfolding(crate::specs::Words::endings_text))]
fn write_endings<W: Write>(out: &mut W, numbers: &Numbers) -> io::Result<()>
    ensures { OnOk result (Appends (W.contents out.old) (W.contents out.new) (endings_text numbers.now)) }
{
    let executed = numbers.executed;
    let rejected = numbers.rejected;
    let gave_up = numbers.gave_up;
    write!(
        out,
        "{executed} executed, {rejected} rejected, {gave_up} gave up"
    )
}

// Writes the longest wait of who gave up.
#[tactic(auto, unfolding(crate::specs::Words::at_most_text))]
fn write_at_most<W: Write>(out: &mut W, longest: u64) -> io::Result<()>
    ensures { OnOk result (Appends (W.contents out.old) (W.contents out.new) (at_most_text longest)) }
{
    out.write_all(b" after at most ")?;
    write_time(out, longest)
}

// Writes the longest wait of who executed.
#[tactic(auto, unfolding(crate::specs::Words::longest_text))]
fn write_longest<W: Write>(out: &mut W, longest: u64) -> io::Result<()>
    ensures { OnOk result (Appends (W.contents out.old) (W.contents out.new) (longest_text longest)) }
{
    out.write_all(b", longest wait ")?;
    write_time(out, longest)
}

// Writes how long those waited at most that gave up, if somebody did.
#[tactic(auto, unfolding(crate::specs::Words::after_text))]
fn write_after<W: Write>(out: &mut W, numbers: &Numbers) -> io::Result<()>
    ensures { OnOk result (Appends (W.contents out.old) (W.contents out.new) (after_text numbers.now)) }
{
    if numbers.gave_up == 0 {
        return Ok(());
    }
    write_at_most(out, numbers.longest_given_up)
}

/// Writes the number of requests, and how they ended.
pub(crate) fn write_row_numbers<W: Write>(out: &mut W, numbers: &Numbers) -> io::Result<()>
    ensures { OnOk result (Appends (W.contents out.old) (W.contents out.new) (row_numbers_text numbers.now)) }
{
    write_counted(out, u64::from(numbers.requests), "request")?;
    out.write_all(b": ")?;
    write_numbers(out, numbers)
}
