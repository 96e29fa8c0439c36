//! The whole picture.

ghost use Rattle.std.specs.Prelude.{◌≡◌, ℕ, ◌≤◌, ◌<◌, ◌+◌, ◌*◌, ◌^◌, length, OnOk};
ghost use Rattle.std.specs.List.{flat_map, range_with_len};
ghost use Rattle.std.specs.Io.KnownBytes.{Appends};
ghost use Rattle.apf_picture.specs.Scales.{IsStep, unit_length, unit_of};
ghost use Rattle.apf_cluster_picture.specs.Pictures.{levels_text, picture_text};

use crate::head::write_head;
use crate::level::{LevelStrip, all_high, high, quiet};
use crate::strip::write_level;
use apf_picture::{Unit, step, write_axis};
use std::io;
use std::io::Write;

// Where the strips begin.
const TOP: u64 = 124;

// Writes the strips of all levels, one below another.
fn write_levels<W: Write>(out: &mut W, levels: &[LevelStrip<'_>], end: u64) -> io::Result<()>
    requires { length levels.now ≤ 2 ^ 31 }
    ensures { OnOk result (Appends (W.contents out.old) (W.contents out.new) (levels_text levels.now end)) }
{
    let mut top = TOP;
    for level in levels {
        write_level(out, level, end, top)?;
        top += high(level);
    }
    Ok(())
}

// Writes the picture, with marks of the axis that are a step apart.
#[tactic(auto, unfolding(crate::specs::Pictures::picture_text))]
fn write_with<W: Write>(
    out: &mut W,
    levels: &[LevelStrip<'_>],
    end: u64,
    step: u64,
) -> io::Result<()>
    requires levels { length levels.now ≤ 2 ^ 31 }
    requires step { 0 < step }
    requires few { end ≤ step * 10 }
    ensures { OnOk result (Appends (W.contents out.old) (W.contents out.new) (picture_text levels.now end step)) }
{
    let depth = all_high(levels);
    let quiet = quiet(levels);
    let shown = levels.len() as u64 - quiet;
    write_head(out, levels, shown, quiet, end, TOP + depth + 28)?;
    write_axis(out, 0, end, step, depth)?;
    write_levels(out, levels, end)?;
    out.write_all(b"</svg>\n")
}

/// Writes as an SVG what became of the levels until this time, in microseconds. Levels to which nobody came are left out.
///
/// Each series is drawn by the length of its own bins. Strips are compared best if their bins are equally long:
/// [`Strip::widen_to`](apf_strips::Strip::widen_to). The marks of the axis are a step apart, of which there is one that fits.
///
/// # Errors
///
/// The writer's. Then nothing is known of how much was written.
pub fn write_picture<W: Write>(out: &mut W, levels: &[LevelStrip<'_>], end: u64) -> io::Result<()>
    requires { length levels.now ≤ 2 ^ 31 }
    ensures { OnOk result ((step : ℕ) → IsStep end (unit_length (unit_of end)) step → Appends (W.contents out.old) (W.contents out.new) (picture_text levels.now end step)) }
{
    write_with(out, levels, end, step(end, Unit::of(end).length()))
}
