//! The second part: each queue in which a request waited, shaded by its length.

ghost use Rattle.std.specs.Prelude.{◌≡◌, ◌<◌, ◌≤◌, ◌*◌, ◌^◌, length, map, slice_index, OnOk};
ghost use Rattle.std.specs.Io.KnownBytes.{Appends};
ghost use Rattle.apf_picture.specs.Strips.{high_of, shade_of, run_of, begins, run_text, run_at, runs_text, all_runs, shade_text, shades_text, queue_number, queue_label, queue_labels, longest_text, queues_heading, scale_shade, scale_shades, scale_end, scale_head, scale_text, queues_above, shades_head, strips_text, each_of, queues_text};
ghost use Rattle.apf_picture.specs.Columns.{queue_in};

use crate::columns::Strip;
use crate::scale::scaled;
use crate::words::write_counted;
use std::io;
use std::io::Write;

/// This many strengths of shade.
const SHADES: u64 = 8;

// The beginning of the scale, and what is behind its shades.
const SCALE: &[u8] = b"<text class=\"small\" x=\"748\" y=\"-13\" text-anchor=\"end\">0</text>\n\
<rect class=\"plot\" x=\"752\" y=\"-22\" width=\"99\" height=\"10\"/>\n";

/// How high the part is, in pixels.
pub(crate) fn high(strips: &[Strip]) -> u64
    requires { length strips.now < 2 ^ 31 }
    ensures high { result ≡ high_of (length strips.now) }
    ensures within { result ≤ 240 }
{
    (12 * strips.len() as u64).min(240)
}

// The shade of a queue of this length: 0 of an empty one, and 8 of the longest.
fn shade(length: u64, longest: u64) -> u64
    ensures { result ≡ shade_of longest length }
{
    if length == 0 {
        return 0;
    }
    scaled(length, longest, SHADES).max(1)
}

// How many of these columns have the shade, up to the first that has another one.
fn run(lengths: &[u64], wanted: u64, longest: u64) -> usize
    ensures { result ≡ run_of longest wanted lengths.now }
{
    let mut columns = 0;
    for length in lengths {
        if shade(*length, longest) != wanted {
            return columns;
        }
        columns += 1;
    }
    columns
}

// Whether a run of columns of this shade begins at the column.
fn begins(lengths: &[u64], column: usize, wanted: u64, longest: u64) -> bool
    requires { column < length lengths.now }
    ensures { result ≡ begins lengths.now wanted longest column }
{
    shade(lengths[column], longest) == wanted
        && (column == 0 || shade(lengths[column - 1], longest) != wanted)
}

// Writes a run of columns.
#[tactic(auto, unfolding(crate::specs::Strips::run_text))]
fn write_run<W: Write>(out: &mut W, column: usize, y: u64, columns: usize) -> io::Result<()>
    ensures { OnOk result (Appends (W.contents out.old) (W.contents out.new) (run_text column y columns)) }
{
    write!(out, "M{column} {y}h{columns}")
}

// Writes the run of columns that begins at the column, if one of this shade does.
fn write_run_at<W: Write>(
    out: &mut W,
    lengths: &[u64],
    column: usize,
    y: u64,
    wanted: u64,
    longest: u64,
) -> io::Result<()>
    requires { column < length lengths.now }
    ensures { OnOk result (Appends (W.contents out.old) (W.contents out.new) (run_at lengths.now y wanted longest column)) }
{
    if begins(lengths, column, wanted, longest) {
        return write_run(out, column, y, run(&lengths[column..], wanted, longest));
    }
    Ok(())
}

// Writes the runs of columns of this shade in one strip.
fn write_runs<W: Write>(
    out: &mut W,
    lengths: &[u64],
    y: u64,
    wanted: u64,
    longest: u64,
) -> io::Result<()>
    ensures { OnOk result (Appends (W.contents out.old) (W.contents out.new) (runs_text lengths.now y wanted longest)) }
{
    for column in 0..lengths.len() {
        write_run_at(out, lengths, column, y, wanted, longest)?;
    }
    Ok(())
}

// Writes the runs of columns of this shade in all strips.
fn write_all_runs<W: Write>(
    out: &mut W,
    strips: &[Strip],
    wanted: u64,
    longest: u64,
) -> io::Result<()>
    ensures { OnOk result (Appends (W.contents out.old) (W.contents out.new) (all_runs strips.now longest wanted)) }
{
    for strip in strips {
        let y = 10 * u64::from(strip.place) + 5;
        write_runs(out, strip.lengths.as_slice(), y, wanted, longest)?;
    }
    Ok(())
}

// Writes all runs of a shade.
#[tactic(auto, unfolding(crate::specs::Strips::shade_text))]
fn write_shade<W: Write>(out: &mut W, strips: &[Strip], longest: u64, shade: u64) -> io::Result<()>
    requires { shade ≤ 8 }
    ensures { OnOk result (Appends (W.contents out.old) (W.contents out.new) (shade_text strips.now longest shade)) }
{
    let percent = 12 * shade;
    write!(
        out,
        "<path class=\"shade\" stroke-opacity=\".{percent}\" d=\""
    )?;
    write_all_runs(out, strips, shade, longest)?;
    out.write_all(b"\"/>\n")
}

// Writes the runs of this many shades.
fn write_shades<W: Write>(
    out: &mut W,
    strips: &[Strip],
    longest: u64,
    shades: u64,
) -> io::Result<()>
    requires { shades ≤ 8 }
    ensures { OnOk result (Appends (W.contents out.old) (W.contents out.new) (shades_text strips.now longest shades)) }
{
    for place in 0..shades {
        write_shade(out, strips, longest, place + 1)?;
    }
    Ok(())
}

// Writes the number of a queue, with its foot at this height.
#[tactic(auto, unfolding(crate::specs::Strips::queue_number))]
fn write_number<W: Write>(out: &mut W, y: u64, queue: u32) -> io::Result<()>
    ensures { OnOk result (Appends (W.contents out.old) (W.contents out.new) (queue_number y queue)) }
{
    writeln!(
        out,
        "<text class=\"small\" x=\"-6\" y=\"{y}\" text-anchor=\"end\">{queue}</text>"
    )
}

// The queue of a strip.
fn queue_at(strips: &[Strip], place: usize) -> u32
    requires { place < length strips.now }
    ensures { result ≡ slice_index (map queue_in strips.now) place }
{
    strips[place].queue
}

// Writes the number of a queue beside the middle of its strip, if the place is a multiple of this number.
fn write_label<W: Write>(out: &mut W, strips: &[Strip], each: usize, place: usize) -> io::Result<()>
    requires few { length strips.now < 2 ^ 31 }
    requires each { 0 < each }
    requires place { place < length strips.now }
    ensures { OnOk result (Appends (W.contents out.old) (W.contents out.new) (queue_label (map queue_in strips.now) each place)) }
{
    if place % each != 0 {
        return Ok(());
    }
    let middle = scaled(2 * place as u64 + 1, 2 * strips.len() as u64, high(strips));
    write_number(out, middle + 4, queue_at(strips, place))
}

// Writes the numbers of the queues at the places that are multiples of this number.
fn write_labels<W: Write>(out: &mut W, strips: &[Strip], each: usize) -> io::Result<()>
    requires few { length strips.now < 2 ^ 31 }
    requires each { 0 < each }
    ensures { OnOk result (Appends (W.contents out.old) (W.contents out.new) (queue_labels (map queue_in strips.now) each)) }
{
    for place in 0..strips.len() {
        write_label(out, strips, each, place)?;
    }
    Ok(())
}

// Writes what stands behind the heading.
#[tactic(auto, unfolding(crate::specs::Strips::longest_text))]
fn write_longest<W: Write>(out: &mut W, longest: u64) -> io::Result<()>
    ensures { OnOk result (Appends (W.contents out.old) (W.contents out.new) (longest_text longest)) }
{
    writeln!(
        out,
        " used, a stronger shade is a longer queue, at most {longest} waiting in one</tspan></text>"
    )
}

#[tactic(auto, unfolding(crate::specs::Strips::queues_heading))]
fn write_heading<W: Write>(out: &mut W, queues: u64, longest: u64) -> io::Result<()>
    ensures { OnOk result (Appends (W.contents out.old) (W.contents out.new) (queues_heading queues longest)) }
{
    out.write_all(
        b"<g transform=\"translate(48 310)\">\n<rect class=\"page\" y=\"-28\" width=\"880\" height=\"28\"/>\n<text class=\"part\" y=\"-12\">Queues <tspan class=\"note\">",
    )?;
    write_counted(out, queues, "queue")?;
    write_longest(out, longest)
}

// Writes one shade of the scale.
#[tactic(auto, unfolding(crate::specs::Strips::scale_shade))]
fn write_scale_shade<W: Write>(out: &mut W, shade: u64) -> io::Result<()>
    requires { shade ≤ 8 }
    ensures { OnOk result (Appends (W.contents out.old) (W.contents out.new) (scale_shade shade)) }
{
    let percent = 12 * shade;
    let x = 752 + 11 * shade;
    writeln!(
        out,
        "<path class=\"shade\" stroke-opacity=\".{percent}\" d=\"M{x} -17h11\"/>"
    )
}

// Writes the shades of the scale, from the weakest on.
fn write_scale_shades<W: Write>(out: &mut W, shades: u64) -> io::Result<()>
    requires { shades ≤ 8 }
    ensures { OnOk result (Appends (W.contents out.old) (W.contents out.new) (scale_shades shades)) }
{
    for place in 0..shades {
        write_scale_shade(out, place + 1)?;
    }
    Ok(())
}

// Writes what stands at the end of the scale: the length of the longest queue.
#[tactic(auto, unfolding(crate::specs::Strips::scale_end))]
fn write_scale_end<W: Write>(out: &mut W, longest: u64) -> io::Result<()>
    ensures { OnOk result (Appends (W.contents out.old) (W.contents out.new) (scale_end longest)) }
{
    writeln!(
        out,
        "<text class=\"small\" x=\"855\" y=\"-13\">{longest}</text>"
    )
}

#[tactic(auto, unfolding(crate::specs::Strips::scale_head))]
fn write_scale_head<W: Write>(out: &mut W) -> io::Result<()>
    ensures { OnOk result (Appends (W.contents out.old) (W.contents out.new) scale_head) }
{
    out.write_all(SCALE)
}

// Writes the scale of the shades: that of no request, and the eight others.
#[tactic(auto, unfolding(crate::specs::Strips::scale_text))]
fn write_scale<W: Write>(out: &mut W, longest: u64) -> io::Result<()>
    ensures { OnOk result (Appends (W.contents out.old) (W.contents out.new) (scale_text longest)) }
{
    write_scale_head(out)?;
    write_scale_shades(out, SHADES)?;
    write_scale_end(out, longest)
}

// Writes what stands before the shades.
#[tactic(auto, unfolding(crate::specs::Strips::shades_head))]
fn write_shades_head<W: Write>(out: &mut W, high: u64, inside: u64) -> io::Result<()>
    ensures { OnOk result (Appends (W.contents out.old) (W.contents out.new) (shades_head high inside)) }
{
    write!(
        out,
        "<svg width=\"880\" height=\"{high}\" viewBox=\"0 0 880 {inside}\" preserveAspectRatio=\"none\">\n<rect class=\"plot\" width=\"880\" height=\"{inside}\"/>\n"
    )
}

// Writes the strips, and the end of their drawing.
#[tactic(auto, unfolding(crate::specs::Strips::strips_text))]
fn write_strips<W: Write>(out: &mut W, strips: &[Strip], longest: u64) -> io::Result<()>
    requires { length strips.now < 2 ^ 31 }
    ensures { OnOk result (Appends (W.contents out.old) (W.contents out.new) (strips_text strips.now longest)) }
{
    write_shades_head(out, high(strips), 10 * strips.len() as u64)?;
    write_shades(out, strips, longest, SHADES)?;
    out.write_all(b"</svg>\n")
}

// The numbers have room for twenty queues: this many strips have one number.
fn each(strips: &[Strip]) -> usize
    ensures each { result ≡ each_of (length strips.now) }
    ensures some { 0 < result }
{
    strips.len().div_ceil(20).max(1)
}

// Writes the heading and the scale.
#[tactic(auto, unfolding(crate::specs::Strips::queues_above))]
fn write_above<W: Write>(out: &mut W, queues: u64, longest: u64) -> io::Result<()>
    ensures { OnOk result (Appends (W.contents out.old) (W.contents out.new) (queues_above queues longest)) }
{
    write_heading(out, queues, longest)?;
    write_scale(out, longest)
}

/// Writes the part of the queues, of which the longest had this many requests at most.
#[tactic(auto, unfolding(crate::specs::Strips::queues_text))]
pub(crate) fn write_queues<W: Write>(out: &mut W, strips: &[Strip], longest: u64) -> io::Result<()>
    requires { length strips.now < 2 ^ 31 }
    ensures { OnOk result (Appends (W.contents out.old) (W.contents out.new) (queues_text strips.now longest)) }
{
    write_above(out, strips.len() as u64, longest)?;
    write_strips(out, strips, longest)?;
    write_labels(out, strips, each(strips))?;
    out.write_all(b"</g>\n")
}
