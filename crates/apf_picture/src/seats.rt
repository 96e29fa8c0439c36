//! The first part: the seats in use, stacked by row, against the limit.

ghost use Rattle.std.specs.Prelude.{◌≡◌, ◌<◌, ◌≤◌, ◌+◌, ◌*◌, ◌^◌, length, max, OnOk};
ghost use Rattle.std.specs.Io.KnownBytes.{Appends};
ghost use Rattle.apf_picture.specs.Parts.{change_text, column_text, top_text, area_head, area_text, areas_text, limit_line, seats_number, limit_place as the_limit_place, limit_text, peak_tick, peak_text, seats_scale, seats_heading, seats_head, seats_text};

use crate::columns::Area;
use crate::scale::scaled;
use std::io;
use std::io::Write;

/// How high the part is, in pixels.
pub(crate) const HIGH: u64 = 140;

// How high the greater of the limit and the most seats is.
const FULL: u64 = 130;

// Writes the way to a column, and the height of its top.
#[tactic(auto, unfolding(crate::specs::Parts::change_text))]
fn write_change<W: Write>(out: &mut W, seats: u64, column: usize, most: u64) -> io::Result<()>
    ensures { OnOk result (Appends (W.contents out.old) (W.contents out.new) (change_text seats column most)) }
{
    let y = HIGH - scaled(seats, most, FULL);
    write!(out, "H{column}V{y}")
}

// Writes that of a column at which the top changes, and nothing at another one.
fn write_column<W: Write>(out: &mut W, tops: &[u64], column: usize, most: u64) -> io::Result<()>
    requires { column < length tops.now }
    ensures { OnOk result (Appends (W.contents out.old) (W.contents out.new) (column_text tops.now most column)) }
{
    if column == 0 || tops[column - 1] != tops[column] {
        return write_change(out, tops[column], column, most);
    }
    Ok(())
}

// Writes the top of an area: at each column where it changes, the way there and the new height.
fn write_top<W: Write>(out: &mut W, tops: &[u64], most: u64) -> io::Result<()>
    ensures { OnOk result (Appends (W.contents out.old) (W.contents out.new) (top_text tops.now most)) }
{
    for column in 0..tops.len() {
        write_column(out, tops, column, most)?;
    }
    Ok(())
}

#[tactic(auto, unfolding(crate::specs::Parts::area_head))]
fn write_area_head<W: Write>(out: &mut W, row: u32) -> io::Result<()>
    ensures { OnOk result (Appends (W.contents out.old) (W.contents out.new) (area_head row)) }
{
    write!(out, "<path class=\"f{row}\" d=\"M0 140")
}

#[tactic(auto, unfolding(crate::specs::Parts::area_text))]
fn write_area<W: Write>(out: &mut W, area: &Area, most: u64) -> io::Result<()>
    ensures { OnOk result (Appends (W.contents out.old) (W.contents out.new) (area_text most area.now)) }
{
    write_area_head(out, area.row)?;
    write_top(out, area.tops.as_slice(), most)?;
    out.write_all(b"H880V140z\"/>\n")
}

// Writes the areas, each over those of later rows.
fn write_areas<W: Write>(out: &mut W, areas: &[Area], most: u64) -> io::Result<()>
    ensures { OnOk result (Appends (W.contents out.old) (W.contents out.new) (areas_text areas.now most)) }
{
    for area in areas {
        write_area(out, area, most)?;
    }
    Ok(())
}

#[tactic(auto, unfolding(crate::specs::Parts::limit_line))]
fn write_limit_line<W: Write>(out: &mut W, y: u64) -> io::Result<()>
    ensures { OnOk result (Appends (W.contents out.old) (W.contents out.new) (limit_line y)) }
{
    writeln!(out, "<path class=\"limit\" d=\"M0 {y}h880\"/>")
}

// Writes a number of seats, with its foot at this height.
#[tactic(auto, unfolding(crate::specs::Parts::seats_number))]
fn write_number<W: Write>(out: &mut W, y: u64, seats: u64) -> io::Result<()>
    ensures { OnOk result (Appends (W.contents out.old) (W.contents out.new) (seats_number y seats)) }
{
    writeln!(
        out,
        "<text class=\"small\" x=\"-6\" y=\"{y}\" text-anchor=\"end\">{seats}</text>"
    )
}

// Where the number of the limit stands: beside its line, or eleven pixels from the other numbers.
fn limit_place(y: u64, is_exceeded: bool) -> u64
    ensures place { result ≡ the_limit_place y is_exceeded }
    ensures within { result ≤ 129 }
{
    let highest = if is_exceeded { 21 } else { 10 };
    y.max(highest).min(129)
}

// Writes the line of the limit, and its number.
#[tactic(auto, unfolding(crate::specs::Parts::limit_text))]
fn write_limit<W: Write>(out: &mut W, used: u64, limit: u64, most: u64) -> io::Result<()>
    ensures { OnOk result (Appends (W.contents out.old) (W.contents out.new) (limit_text used limit most)) }
{
    let y = HIGH - scaled(limit, most, FULL);
    write_limit_line(out, y)?;
    write_number(out, limit_place(y, used > limit) + 4, limit)
}

// Writes a tick at the most seats, and their number.
#[tactic(auto, unfolding(crate::specs::Parts::peak_tick))]
fn write_peak_tick<W: Write>(out: &mut W, used: u64) -> io::Result<()>
    ensures { OnOk result (Appends (W.contents out.old) (W.contents out.new) (peak_tick used)) }
{
    out.write_all(b"<path class=\"peak\" d=\"M-4 10h4\"/>\n")?;
    write_number(out, 14, used)
}

// Writes the tick of the most seats, if they are more than the limit.
fn write_peak<W: Write>(out: &mut W, used: u64, limit: u64) -> io::Result<()>
    ensures { OnOk result (Appends (W.contents out.old) (W.contents out.new) (peak_text used limit)) }
{
    if used > limit {
        return write_peak_tick(out, used);
    }
    Ok(())
}

// Writes the numbers beside the plot, and the line of the limit.
#[tactic(auto, unfolding(crate::specs::Parts::seats_scale))]
fn write_scale<W: Write>(out: &mut W, used: u64, limit: u64) -> io::Result<()>
    ensures { OnOk result (Appends (W.contents out.old) (W.contents out.new) (seats_scale used limit)) }
{
    write_limit(out, used, limit, used.max(limit))?;
    write_peak(out, used, limit)?;
    write_number(out, 144, 0)
}

#[tactic(auto, unfolding(crate::specs::Parts::seats_heading))]
fn write_heading<W: Write>(out: &mut W, used: u64, limit: u64) -> io::Result<()>
    ensures { OnOk result (Appends (W.contents out.old) (W.contents out.new) (seats_heading used limit)) }
{
    writeln!(
        out,
        "<text class=\"part\" y=\"-24\">Seats in use <tspan class=\"note\">by flow, at most {used}; the limit is {limit}</tspan></text>"
    )
}

// Writes what stands before the areas.
#[tactic(auto, unfolding(crate::specs::Parts::seats_head))]
fn write_head<W: Write>(out: &mut W, used: u64, limit: u64) -> io::Result<()>
    ensures { OnOk result (Appends (W.contents out.old) (W.contents out.new) (seats_head used limit)) }
{
    out.write_all(b"<g transform=\"translate(48 124)\">\n")?;
    write_heading(out, used, limit)?;
    out.write_all(b"<rect class=\"plot\" width=\"880\" height=\"140\"/>\n")
}

/// Writes the part of the seats, of which this many were used at most.
#[tactic(auto, unfolding(crate::specs::Parts::seats_text))]
pub(crate) fn write_seats<W: Write>(
    out: &mut W,
    areas: &[Area],
    used: u64,
    limit: u64,
) -> io::Result<()>
    ensures { OnOk result (Appends (W.contents out.old) (W.contents out.new) (seats_text areas.now used limit)) }
{
    write_head(out, used, limit)?;
    write_areas(out, areas, used.max(limit))?;
    write_scale(out, used, limit)?;
    out.write_all(b"</g>\n")
}
