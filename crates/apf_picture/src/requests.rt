//! The third and the fourth part: the waits of each row's requests as bars, and ticks where requests were rejected or gave up.

ghost use Rattle.std.specs.Prelude.{◌≡◌, ◌<◌, ◌≤◌, ◌+◌, ◌*◌, ◌^◌, length, sum_by, slice_get, Some, OnOk};
ghost use Rattle.std.specs.Io.KnownBytes.{Appends};
ghost use Rattle.apf_picture.specs.Bars.{bar_text, bar_by, bars_text, rejected_tick, rejected_text, given_up_tick, given_up_shown, given_up_text, back_text, stroke_text, plot_head, plot_text, ticks_head, ticks_text, triangles_text, row_place, colour_text, row_head, height_of, row_words, row_drawing, row_text, all_rows, heading_place, rows_heading, rows_text};
ghost use Rattle.apf_picture.specs.Rows.{lives_in};

use crate::cutting::Cutting;
use crate::life::{Fate, Life};
use crate::names::{write_label, write_whole_label};
use crate::row::Row;
use crate::scale::{COLUMNS, scaled};
use crate::words::write_row_numbers;
use std::io;
use std::io::Write;

const HEADING: &[u8] =
    b"<rect class=\"page\" y=\"-16\" width=\"880\" height=\"28\"/>\n<text class=\"part\">Requests by flow <tspan class=\"note\">a bar is one request's wait, until it has its seats or gives up; a higher row has more requests</tspan></text>\n\
<path class=\"rejected\" d=\"M744 -9v10\"/>\n<text class=\"note\" x=\"752\">rejected</text>\n\
<path class=\"gave-up\" d=\"M822 -8l3 7h-6z\"/>\n<text class=\"note\" x=\"832\">gave up</text>\n</g>\n";

// Writes the bar of a request, from its arrival until its wait was over, one column at least.
#[tactic(auto, unfolding(crate::specs::Bars::bar_text))]
fn write_bar<W: Write>(out: &mut W, life: &Life, lane: usize, end: u64) -> io::Result<()>
    ensures { OnOk result (Appends (W.contents out.old) (W.contents out.new) (bar_text end lane life.now)) }
{
    let from = scaled(life.arrives, end, COLUMNS);
    let to = scaled(life.until, end, COLUMNS);
    let columns = if to > from { to - from } else { 1 };
    let y = 2 * (lane as u128) + 1;
    write!(out, "M{from} {y}h{columns}")
}

// Writes the bar of a request that is not rejected.
fn write_lane<W: Write>(out: &mut W, life: &Life, lane: usize, end: u64) -> io::Result<()>
    ensures { OnOk result (Appends (W.contents out.old) (W.contents out.new) (bar_by life.now.fate end lane life.now)) }
{
    match life.fate {
        Fate::Rejected => Ok(()),
        Fate::Executed | Fate::GaveUp => write_bar(out, life, lane, end),
    }
}

// The request of a line.
fn life_at(lives: &[Life], lane: usize) -> Life
    requires { lane < length lives.now }
    ensures { slice_get lives.now lane ≡ Some result }
{
    lives[lane]
}

// Writes the bars of a row.
fn write_bars<W: Write>(out: &mut W, lives: &[Life], end: u64) -> io::Result<()>
    ensures { OnOk result (Appends (W.contents out.old) (W.contents out.new) (bars_text lives.now end)) }
{
    for lane in 0..lives.len() {
        let life = life_at(lives, lane);
        write_lane(out, &life, lane, end)?;
    }
    Ok(())
}

// Writes a tick where a rejected request arrived.
#[tactic(auto, unfolding(crate::specs::Bars::rejected_tick))]
fn write_rejected_tick<W: Write>(out: &mut W, life: &Life, end: u64) -> io::Result<()>
    ensures { OnOk result (Appends (W.contents out.old) (W.contents out.new) (rejected_tick end life.now)) }
{
    let x = scaled(life.arrives, end, COLUMNS);
    write!(out, "M{x} 0v8")
}

// Writes a triangle where a request gave up.
#[tactic(auto, unfolding(crate::specs::Bars::given_up_tick))]
fn write_given_up_tick<W: Write>(out: &mut W, life: &Life, end: u64) -> io::Result<()>
    ensures { OnOk result (Appends (W.contents out.old) (W.contents out.new) (given_up_tick end life.now)) }
{
    let x = scaled(life.until, end, COLUMNS);
    write!(out, "M{x} 0l3 7h-6z")
}

// Writes the tick of a request that gave up, if that is no later than what is drawn.
fn write_given_up_shown<W: Write>(out: &mut W, life: &Life, end: u64) -> io::Result<()>
    ensures { OnOk result (Appends (W.contents out.old) (W.contents out.new) (given_up_shown end life.now)) }
{
    if life.until > end {
        return Ok(());
    }
    write_given_up_tick(out, life, end)
}

// Writes the ticks of the rejected requests.
fn write_rejected<W: Write>(out: &mut W, lives: &[Life], end: u64) -> io::Result<()>
    ensures { OnOk result (Appends (W.contents out.old) (W.contents out.new) (rejected_text lives.now end)) }
{
    for life in lives {
        match life.fate {
            Fate::Rejected => write_rejected_tick(out, life, end)?,
            Fate::Executed | Fate::GaveUp => {}
        }
    }
    Ok(())
}

// Writes the triangles of the requests that gave up.
fn write_given_up<W: Write>(out: &mut W, lives: &[Life], end: u64) -> io::Result<()>
    ensures { OnOk result (Appends (W.contents out.old) (W.contents out.new) (given_up_text lives.now end)) }
{
    for life in lives {
        match life.fate {
            Fate::GaveUp => write_given_up_shown(out, life, end)?,
            Fate::Executed | Fate::Rejected => {}
        }
    }
    Ok(())
}

// Writes the bars of a row, one below another, and what is behind them.
#[tactic(auto, unfolding(crate::specs::Bars::plot_text))]
fn write_plot<W: Write>(out: &mut W, row: &Row, end: u64) -> io::Result<()>
    ensures { OnOk result (Appends (W.contents out.old) (W.contents out.new) (plot_text row.now end)) }
{
    write_plot_head(out, row)?;
    write_bars(out, row.lives.as_slice(), end)?;
    out.write_all(b"\"/>\n</svg>\n")
}

// Writes what is behind the bars of a row, and the beginning of their drawing.
#[tactic(auto, unfolding(crate::specs::Bars::back_text))]
fn write_back<W: Write>(out: &mut W, around: u64, tall: u64, inside: u64) -> io::Result<()>
    ensures { OnOk result (Appends (W.contents out.old) (W.contents out.new) (back_text around tall inside)) }
{
    write!(
        out,
        "<rect class=\"plot\" y=\"20\" width=\"880\" height=\"{around}\"/>\n<svg y=\"20\" width=\"880\" height=\"{tall}\" viewBox=\"0 0 880 {inside}\" preserveAspectRatio=\"none\">\n"
    )
}

// Writes the beginning of the path of a row's bars.
#[tactic(auto, unfolding(crate::specs::Bars::stroke_text))]
fn write_stroke<W: Write>(out: &mut W, number: u32, thick: u64) -> io::Result<()>
    ensures { OnOk result (Appends (W.contents out.old) (W.contents out.new) (stroke_text number thick)) }
{
    write!(
        out,
        "<path class=\"bars b{number}\" stroke-width=\"{thick}\" d=\""
    )
}

// Writes what stands before the bars of a row.
#[tactic(auto, unfolding(crate::specs::Bars::plot_head))]
fn write_plot_head<W: Write>(out: &mut W, row: &Row) -> io::Result<()>
    ensures { OnOk result (Appends (W.contents out.old) (W.contents out.new) (plot_head row.now)) }
{
    let tall = u64::from(row.tall);
    let requests = u64::from(row.numbers.requests);
    let thick = (3 * requests / tall.max(1) + 1).max(2);
    write_back(out, tall + 12, tall, 2 * requests)?;
    write_stroke(out, row.number, thick)
}

// Writes what stands before the ticks of a row.
#[tactic(auto, unfolding(crate::specs::Bars::ticks_head))]
fn write_ticks_head<W: Write>(out: &mut W, y: u64) -> io::Result<()>
    ensures { OnOk result (Appends (W.contents out.old) (W.contents out.new) (ticks_head y)) }
{
    write!(
        out,
        "<g transform=\"translate(0 {y})\">\n<path class=\"rejected\" d=\""
    )
}

// Writes the ticks of the rejected requests at this height, and the beginning of the path of the triangles.
#[tactic(auto, unfolding(crate::specs::Bars::ticks_text))]
fn write_ticks<W: Write>(out: &mut W, lives: &[Life], y: u64, end: u64) -> io::Result<()>
    ensures { OnOk result (Appends (W.contents out.old) (W.contents out.new) (ticks_text lives.now y end)) }
{
    write_ticks_head(out, y)?;
    write_rejected(out, lives, end)?;
    out.write_all(b"\"/>\n<path class=\"gave-up\" d=\"")
}

// Writes the triangles of the requests that gave up, and the end of their path.
#[tactic(auto, unfolding(crate::specs::Bars::triangles_text))]
fn write_triangles<W: Write>(out: &mut W, lives: &[Life], end: u64) -> io::Result<()>
    ensures { OnOk result (Appends (W.contents out.old) (W.contents out.new) (triangles_text lives.now end)) }
{
    write_given_up(out, lives, end)?;
    out.write_all(b"\"/>\n</g>\n")
}

// Writes where a row begins.
#[tactic(auto, unfolding(crate::specs::Bars::row_place))]
fn write_row_place<W: Write>(out: &mut W, y: u64) -> io::Result<()>
    ensures { OnOk result (Appends (W.contents out.old) (W.contents out.new) (row_place y)) }
{
    write!(out, "<g transform=\"translate(48 {y})\">\n<title>")
}

// Writes what stands between the whole names of a row and its label: what covers the lines of the axis, and the colour of the row.
#[tactic(auto, unfolding(crate::specs::Bars::colour_text))]
fn write_colour<W: Write>(out: &mut W, number: u32) -> io::Result<()>
    ensures { OnOk result (Appends (W.contents out.old) (W.contents out.new) (colour_text number)) }
{
    write!(
        out,
        "</title>\n<rect class=\"page\" width=\"880\" height=\"20\"/>\n<rect class=\"f{number}\" y=\"5\" width=\"10\" height=\"10\" rx=\"2\"/>\n<text x=\"16\" y=\"14\">"
    )
}

// Writes what stands before the label of a row, with its whole names as its title.
#[tactic(auto, unfolding(crate::specs::Bars::row_head))]
fn write_row_head<W: Write>(out: &mut W, row: &Row, y: u64) -> io::Result<()>
    ensures { OnOk result (Appends (W.contents out.old) (W.contents out.new) (row_head row.now y)) }
{
    write_row_place(out, y)?;
    write_whole_label(out, &row.label)?;
    write_colour(out, row.number)
}

// Writes what a row is called, and its numbers.
#[tactic(auto, unfolding(crate::specs::Bars::row_words))]
fn write_row_words<W: Write>(out: &mut W, row: &Row, cutting: Cutting) -> io::Result<()>
    ensures { OnOk result (Appends (W.contents out.old) (W.contents out.new) (row_words row.now cutting)) }
{
    write_label(out, &row.label, row.number, cutting)?;
    out.write_all(b" <tspan class=\"note\">")?;
    write_row_numbers(out, &row.numbers)?;
    out.write_all(b"</tspan></text>\n")
}

// Writes the bars and the ticks of a row.
#[tactic(auto, unfolding(crate::specs::Bars::row_drawing))]
fn write_row_drawing<W: Write>(out: &mut W, row: &Row, end: u64) -> io::Result<()>
    ensures { OnOk result (Appends (W.contents out.old) (W.contents out.new) (row_drawing row.now end)) }
{
    write_plot(out, row, end)?;
    write_ticks(out, row.lives.as_slice(), u64::from(row.tall) + 22, end)?;
    write_triangles(out, row.lives.as_slice(), end)
}

// Writes a row that begins at this height.
#[tactic(auto, unfolding(crate::specs::Bars::row_text))]
fn write_row<W: Write>(out: &mut W, row: &Row, cutting: Cutting, y: u64, end: u64) -> io::Result<()>
    ensures { OnOk result (Appends (W.contents out.old) (W.contents out.new) (row_text row.now cutting y end)) }
{
    write_row_head(out, row, y)?;
    write_row_words(out, row, cutting)?;
    write_row_drawing(out, row, end)?;
    out.write_all(b"</g>\n")
}

/// How high these rows are together.
pub(crate) fn height(rows: &[Row]) -> u64
    requires { length rows.now ≤ 13 }
    ensures height { result ≡ sum_by height_of rows.now }
    ensures within { result < 2 ^ 40 }
{
    let mut height = 0;
    for row in rows {
        height += row.height();
    }
    height
}

// Writes the rows, one below another, from this height on.
#[tactic(auto, using(crate::proofs::Ranges::rows_text_more))]
fn write_all_rows<W: Write>(
    out: &mut W,
    rows: &[Row],
    cutting: Cutting,
    y: u64,
    end: u64,
) -> io::Result<()>
    requires few { length rows.now ≤ 13 }
    requires y { y < 2 ^ 41 }
    ensures { OnOk result (Appends (W.contents out.old) (W.contents out.new) (all_rows rows.now cutting y end)) }
{
    let mut top = y;
    for row in rows {
        write_row(out, row, cutting, top, end)?;
        top += row.height();
    }
    Ok(())
}

// Writes where the heading stands.
#[tactic(auto, unfolding(crate::specs::Bars::heading_place))]
fn write_heading_place<W: Write>(out: &mut W, y: u64) -> io::Result<()>
    ensures { OnOk result (Appends (W.contents out.old) (W.contents out.new) (heading_place y)) }
{
    writeln!(out, "<g transform=\"translate(48 {y})\">")
}

#[tactic(auto, unfolding(crate::specs::Bars::rows_heading))]
fn write_heading<W: Write>(out: &mut W) -> io::Result<()>
    ensures { OnOk result (Appends (W.contents out.old) (W.contents out.new) rows_heading) }
{
    out.write_all(HEADING)
}

/// Writes the rows and their heading, from this height on.
#[tactic(auto, unfolding(crate::specs::Bars::rows_text))]
pub(crate) fn write_rows<W: Write>(
    out: &mut W,
    rows: &[Row],
    cutting: Cutting,
    y: u64,
    end: u64,
) -> io::Result<()>
    requires few { length rows.now ≤ 13 }
    requires y { y < 2 ^ 40 }
    ensures { OnOk result (Appends (W.contents out.old) (W.contents out.new) (rows_text rows.now cutting y end)) }
{
    write_heading_place(out, y + 34)?;
    write_heading(out)?;
    write_all_rows(out, rows, cutting, y + 44, end)
}
