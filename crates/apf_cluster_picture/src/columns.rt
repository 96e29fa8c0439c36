//! The paths of areas, lines and marks.

ghost use Rattle.std.specs.Prelude.{◌≡◌, ◌≤◌, ◌<◌, ◌-◌, ◌*◌, ◌^◌, length, OnOk};
ghost use Rattle.std.specs.List.{flat_map, range_with_len};
ghost use Rattle.std.specs.Io.KnownBytes.{Appends};
ghost use Rattle.apf_cluster_picture.specs.Columns.{height_at, top_at, begins_at as the_begins_at, change_text, column_text, columns_text, area_head, area_end, area_text, whole_bins as the_whole_bins, limit_head, limit_text, mark_text, mark_at, marks_text};

use crate::means::{height, mean};
use apf_picture::scaled;
use std::io;
use std::io::Write;

/// How the means of bins are drawn.
#[derive(Clone, Copy)]
pub(crate) struct Plot {
    /// How long a bin is, in microseconds.
    pub(crate) width: u64,
    /// When what is drawn ends, in microseconds.
    pub(crate) end: u64,
    /// How many thousandths a pixel has.
    pub(crate) pixel: u128,
    /// How many pixels high it is at most.
    pub(crate) full: u64,
    /// Where its foot is.
    pub(crate) foot: u64,
}

// How high the mean of a bin is drawn.
fn height_of(plot: &Plot, bins: &[u128], bin: usize) -> u64
    requires { bin < length bins.now }
    ensures { result ≡ height_at plot.now bins.now bin }
{
    height(plot.pixel, plot.full, mean(plot.width, bins[bin]))
}

// Where a bin begins.
fn begins_at(plot: &Plot, bin: usize) -> u64
    requires small { plot.now.width < 2 ^ 53 }
    requires few { bin < 400 }
    ensures { result ≡ the_begins_at plot.now bin }
{
    scaled(bin as u64 * plot.width, plot.end, 880)
}

#[tactic(auto, unfolding(crate::specs::Columns::change_text))]
fn write_change<W: Write>(out: &mut W, x: u64, y: u64) -> io::Result<()>
    ensures { OnOk result (Appends (W.contents out.old) (W.contents out.new) (change_text x y)) }
{
    write!(out, "H{x}V{y}")
}

// Writes the way to a bin, and the height of its top, if that is another one than before.
fn write_column<W: Write>(out: &mut W, plot: &Plot, bins: &[u128], bin: usize) -> io::Result<()>
    requires small { plot.now.width < 2 ^ 53 }
    requires few { length bins.now ≤ 400 }
    requires inside { bin < length bins.now }
    ensures { OnOk result (Appends (W.contents out.old) (W.contents out.new) (column_text plot.now bins.now bin)) }
{
    let height = height_of(plot, bins, bin);
    if bin == 0 || height_of(plot, bins, bin - 1) != height {
        let y = plot.foot.saturating_sub(height);
        return write_change(out, begins_at(plot, bin), y);
    }
    Ok(())
}

// Writes those of the bins from one on, up to another one.
fn write_columns<W: Write>(
    out: &mut W,
    plot: &Plot,
    bins: &[u128],
    first: usize,
    behind: usize,
) -> io::Result<()>
    requires small { plot.now.width < 2 ^ 53 }
    requires few { length bins.now ≤ 400 }
    requires in_order { first ≤ behind }
    requires inside { behind ≤ length bins.now }
    ensures { OnOk result (Appends (W.contents out.old) (W.contents out.new) (columns_text plot.now bins.now first behind)) }
{
    for bin in first..behind {
        write_column(out, plot, bins, bin)?;
    }
    Ok(())
}

#[tactic(auto, unfolding(crate::specs::Columns::area_head))]
fn write_area_head<W: Write>(out: &mut W, foot: u64, class: &str) -> io::Result<()>
    ensures { OnOk result (Appends (W.contents out.old) (W.contents out.new) (area_head foot class.now)) }
{
    write!(out, "<path class=\"{class}\" d=\"M0 {foot}")
}

#[tactic(auto, unfolding(crate::specs::Columns::area_end))]
fn write_area_end<W: Write>(out: &mut W, foot: u64) -> io::Result<()>
    ensures { OnOk result (Appends (W.contents out.old) (W.contents out.new) (area_end foot)) }
{
    write!(out, "H880V{foot}z\"/>\n")
}

/// Writes an area of this class.
#[tactic(auto, unfolding(crate::specs::Columns::area_text))]
pub(crate) fn write_area<W: Write>(
    out: &mut W,
    plot: &Plot,
    class: &str,
    bins: &[u128],
) -> io::Result<()>
    requires small { plot.now.width < 2 ^ 53 }
    requires few { length bins.now ≤ 400 }
    ensures { OnOk result (Appends (W.contents out.old) (W.contents out.new) (area_text plot.now class.now bins.now)) }
{
    write_area_head(out, plot.foot, class)?;
    write_columns(out, plot, bins, 0, bins.len())?;
    write_area_end(out, plot.foot)
}

// How many bins end before the end of what is drawn, and one at least.
fn whole_bins(plot: &Plot, bins: &[u128]) -> usize
    requires some { 0 < plot.now.width }
    requires few { length bins.now ≤ 400 }
    ensures is { result ≡ the_whole_bins plot.now bins.now }
    ensures inside { result ≤ length bins.now }
    ensures any { 0 < length bins.now → 0 < result }
{
    (plot.end / plot.width).max(1).min(bins.len() as u64) as usize
}

#[tactic(auto, unfolding(crate::specs::Columns::limit_head))]
fn write_limit_head<W: Write>(out: &mut W, y: u64) -> io::Result<()>
    ensures { OnOk result (Appends (W.contents out.old) (W.contents out.new) (limit_head y)) }
{
    write!(out, "<path class=\"limit\" d=\"M0 {y}")
}

/// Writes the line of the limit.
#[tactic(auto, unfolding(crate::specs::Columns::limit_text))]
pub(crate) fn write_limit<W: Write>(out: &mut W, plot: &Plot, bins: &[u128]) -> io::Result<()>
    requires some { 0 < plot.now.width }
    requires small { plot.now.width < 2 ^ 53 }
    requires any { 0 < length bins.now }
    requires few { length bins.now ≤ 400 }
    ensures { OnOk result (Appends (W.contents out.old) (W.contents out.new) (limit_text plot.now bins.now)) }
{
    let y = plot.foot.saturating_sub(height_of(plot, bins, 0));
    write_limit_head(out, y)?;
    write_columns(out, plot, bins, 1, whole_bins(plot, bins))?;
    out.write_all(b"H880\"/>\n")
}

#[tactic(auto, unfolding(crate::specs::Columns::mark_text))]
fn write_mark<W: Write>(out: &mut W, x: u64) -> io::Result<()>
    ensures { OnOk result (Appends (W.contents out.old) (W.contents out.new) (mark_text x)) }
{
    write!(out, "M{x} 116v8")
}

// Writes a mark for a bin, if it has something.
fn write_mark_at<W: Write>(out: &mut W, plot: &Plot, bins: &[u128], bin: usize) -> io::Result<()>
    requires small { plot.now.width < 2 ^ 53 }
    requires few { length bins.now ≤ 400 }
    requires inside { bin < length bins.now }
    ensures { OnOk result (Appends (W.contents out.old) (W.contents out.new) (mark_at plot.now bins.now bin)) }
{
    if bins[bin] == 0 {
        return Ok(());
    }
    write_mark(out, begins_at(plot, bin))
}

// Writes a mark for each bin that has something.
fn write_all_marks<W: Write>(out: &mut W, plot: &Plot, bins: &[u128]) -> io::Result<()>
    requires small { plot.now.width < 2 ^ 53 }
    requires few { length bins.now ≤ 400 }
    ensures { OnOk result (Appends (W.contents out.old) (W.contents out.new) (flat_map (mark_at plot.now bins.now) (range_with_len 0 (length bins.now)))) }
{
    for bin in 0..bins.len() {
        write_mark_at(out, plot, bins, bin)?;
    }
    Ok(())
}

/// Writes the marks of the rejected requests.
#[tactic(auto, unfolding(crate::specs::Columns::marks_text))]
pub(crate) fn write_marks<W: Write>(out: &mut W, plot: &Plot, bins: &[u128]) -> io::Result<()>
    requires small { plot.now.width < 2 ^ 53 }
    requires few { length bins.now ≤ 400 }
    ensures { OnOk result (Appends (W.contents out.old) (W.contents out.new) (marks_text plot.now bins.now)) }
{
    out.write_all(b"<path class=\"rejected\" d=\"")?;
    write_all_marks(out, plot, bins)?;
    out.write_all(b"\"/>\n")
}
