//! The axis of time: its marks above and below all parts, with a line from one to the other. They stand at whole numbers of steps
//! from the beginning of the run. A place on the axis is how long it is after the beginning of what is drawn, in microseconds.

ghost use Rattle.std.specs.Prelude.{◌≡◌, ◌<◌, ◌≤◌, ◌+◌, ◌*◌, ◌^◌, length, OnOk};
ghost use Rattle.std.specs.Io.KnownBytes.{Appends};
ghost use Rattle.apf_picture.specs.Parts.{first_mark as the_first_mark, marked_lines, all_lines, lines_text, marked_labels, all_labels, labels_text, axis_text, mark_line, mark_head, value_text, part_text, mark_words, mark_label, labels_head};

use crate::scale::{COLUMNS, Unit, scaled};
use crate::words::{write_tenths, write_two};
use std::io;
use std::io::Write;

// How far behind the beginning the first mark stands.
fn first_mark(from: u64, step: u64) -> u64
    requires { 0 < step }
    ensures { result ≡ the_first_mark from step }
{
    (step - from % step) % step
}

// Writes the line of a mark at this place.
#[tactic(auto, unfolding(crate::specs::Parts::mark_line))]
fn write_line<W: Write>(out: &mut W, end: u64, depth: u64, place: u64) -> io::Result<()>
    requires { place ≤ end }
    ensures { OnOk result (Appends (W.contents out.old) (W.contents out.new) (mark_line end depth place)) }
{
    let x = scaled(place, end, COLUMNS);
    write!(out, "M{x} 0v{depth}")
}

// Writes the line of each mark, of which the first is at this place.
fn write_marked_lines<W: Write>(
    out: &mut W,
    first: u64,
    end: u64,
    step: u64,
    depth: u64,
) -> io::Result<()>
    requires first { first ≤ end }
    requires step { 0 < step }
    requires few { end ≤ step * 10 }
    ensures { OnOk result (Appends (W.contents out.old) (W.contents out.new) (marked_lines first end step depth)) }
{
    for mark in 0..(end - first) / step + 1 {
        write_line(out, end, depth, first + mark * step)?;
    }
    Ok(())
}

// Writes the line of each mark, if there is one.
fn write_all_lines<W: Write>(
    out: &mut W,
    from: u64,
    end: u64,
    step: u64,
    depth: u64,
) -> io::Result<()>
    requires step { 0 < step }
    requires few { end ≤ step * 10 }
    ensures { OnOk result (Appends (W.contents out.old) (W.contents out.new) (all_lines from end step depth)) }
{
    let first = first_mark(from, step);
    if first > end {
        return Ok(());
    }
    write_marked_lines(out, first, end, step, depth)
}

#[tactic(auto, unfolding(crate::specs::Parts::lines_text))]
fn write_lines<W: Write>(out: &mut W, from: u64, end: u64, step: u64, depth: u64) -> io::Result<()>
    requires step { 0 < step }
    requires few { end ≤ step * 10 }
    ensures { OnOk result (Appends (W.contents out.old) (W.contents out.new) (lines_text from end step depth)) }
{
    out.write_all(b"<g transform=\"translate(48 124)\">\n<path class=\"line\" d=\"")?;
    write_all_lines(out, from, end, step, depth)?;
    out.write_all(b"\"/>\n</g>\n")
}

// Writes what stands before the time of a mark.
#[tactic(auto, unfolding(crate::specs::Parts::mark_head))]
fn write_mark<W: Write>(out: &mut W, x: u64) -> io::Result<()>
    ensures { OnOk result (Appends (W.contents out.old) (W.contents out.new) (mark_head x)) }
{
    write!(out, "<text class=\"small\" x=\"{x}\">")
}

// Writes a number of units.
#[tactic(auto, unfolding(crate::specs::Parts::value_text))]
fn write_value<W: Write>(out: &mut W, value: u64, name: &str) -> io::Result<()>
    ensures { OnOk result (Appends (W.contents out.old) (W.contents out.new) (value_text value name.now)) }
{
    write!(out, "{value} {name}")
}

// Writes a time that is no whole number of the unit: with one digit after the point, or in two units.
fn write_part<W: Write>(out: &mut W, unit: Unit, time: u64) -> io::Result<()>
    ensures { OnOk result (Appends (W.contents out.old) (W.contents out.new) (part_text unit time)) }
{
    match unit {
        Unit::Microseconds => write_value(out, time, "&#181;s"),
        Unit::Milliseconds => write_tenths(out, time, 1_000, "ms"),
        Unit::Seconds => write_tenths(out, time, 1_000_000, "s"),
        Unit::Minutes => write_two(
            out,
            time / 60_000_000,
            "min",
            time % 60_000_000 / 1_000_000,
            "s",
        ),
        Unit::Hours => {
            write_two(
                out,
                time / 3_600_000_000,
                "h",
                time % 3_600_000_000 / 60_000_000,
                "min",
            )
        }
        Unit::Days => {
            write_two(
                out,
                time / 86_400_000_000,
                "d",
                time % 86_400_000_000 / 3_600_000_000,
                "h",
            )
        }
    }
}

// Writes a time of an axis whose marks are a step apart.
fn write_words<W: Write>(out: &mut W, unit: Unit, step: u64, time: u64) -> io::Result<()>
    ensures { OnOk result (Appends (W.contents out.old) (W.contents out.new) (mark_words unit step time)) }
{
    let length = unit.length();
    if step % length == 0 {
        return write_value(out, time / length, unit.name());
    }
    write_part(out, unit, time)
}

// Writes the time of a mark at this place.
#[tactic(auto, unfolding(crate::specs::Parts::mark_label))]
fn write_label<W: Write>(
    out: &mut W,
    unit: Unit,
    from: u64,
    end: u64,
    step: u64,
    place: u64,
) -> io::Result<()>
    requires low { place ≤ end }
    requires late { from + end < 2 ^ 64 }
    ensures { OnOk result (Appends (W.contents out.old) (W.contents out.new) (mark_label unit from end step place)) }
{
    write_mark(out, scaled(place, end, COLUMNS))?;
    write_words(out, unit, step, from + place)?;
    out.write_all(b"</text>\n")
}

// Writes the time of each mark, of which the first is at this place.
fn write_marked_labels<W: Write>(
    out: &mut W,
    first: u64,
    from: u64,
    end: u64,
    step: u64,
) -> io::Result<()>
    requires first { first ≤ end }
    requires step { 0 < step }
    requires few { end ≤ step * 10 }
    requires late { from + end < 2 ^ 64 }
    ensures { OnOk result (Appends (W.contents out.old) (W.contents out.new) (marked_labels first from end step)) }
{
    let unit = Unit::longest(end);
    for mark in 0..(end - first) / step + 1 {
        write_label(out, unit, from, end, step, first + mark * step)?;
    }
    Ok(())
}

// Writes the time of each mark, if there is one.
fn write_all_labels<W: Write>(out: &mut W, from: u64, end: u64, step: u64) -> io::Result<()>
    requires step { 0 < step }
    requires few { end ≤ step * 10 }
    requires late { from + end < 2 ^ 64 }
    ensures { OnOk result (Appends (W.contents out.old) (W.contents out.new) (all_labels from end step)) }
{
    let first = first_mark(from, step);
    if first > end {
        return Ok(());
    }
    write_marked_labels(out, first, from, end, step)
}

// Writes what stands before the times at this height.
#[tactic(auto, unfolding(crate::specs::Parts::labels_head))]
fn write_labels_head<W: Write>(out: &mut W, y: u64) -> io::Result<()>
    ensures { OnOk result (Appends (W.contents out.old) (W.contents out.new) (labels_head y)) }
{
    writeln!(
        out,
        "<g transform=\"translate(48 {y})\" text-anchor=\"middle\">"
    )
}

// Writes the times of the marks at this height.
#[tactic(auto, unfolding(crate::specs::Parts::labels_text))]
fn write_labels<W: Write>(out: &mut W, from: u64, end: u64, step: u64, y: u64) -> io::Result<()>
    requires step { 0 < step }
    requires few { end ≤ step * 10 }
    requires late { from + end < 2 ^ 64 }
    ensures { OnOk result (Appends (W.contents out.old) (W.contents out.new) (labels_text from end step y)) }
{
    write_labels_head(out, y)?;
    write_all_labels(out, from, end, step)?;
    out.write_all(b"</g>\n")
}

/// Writes the axis of the stretch of a run from this time on, of this length, with lines this many pixels long.
#[tactic(auto, unfolding(crate::specs::Parts::axis_text))]
pub fn write_axis<W: Write>(
    out: &mut W,
    from: u64,
    end: u64,
    step: u64,
    depth: u64,
) -> io::Result<()>
    requires step { 0 < step }
    requires few { end ≤ step * 10 }
    requires late { from + end < 2 ^ 64 }
    requires depth { depth < 2 ^ 41 }
    ensures { OnOk result (Appends (W.contents out.old) (W.contents out.new) (axis_text from end step depth)) }
{
    write_lines(out, from, end, step, depth)?;
    write_labels(out, from, end, step, 118)?;
    write_labels(out, from, end, step, depth + 138)
}
