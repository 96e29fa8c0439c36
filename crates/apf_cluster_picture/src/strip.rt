//! One strip.

ghost use Rattle.std.specs.Prelude.{◌≡◌, ◌≤◌, ◌<◌, ◌^◌, OnOk};
ghost use Rattle.std.specs.Io.KnownBytes.{Appends};
ghost use Rattle.apf_cluster_picture.specs.Strips.{group_head, columns_words, heading_text, plot_text, scale_text, most_of, limit_part, seats_area, seats_text, waiting_text, rejected_text, parts_text, strip_text, strips_text, strips_by, level_text};
ghost use Rattle.apf_cluster_picture.specs.Levels.{is_quiet as the_is_quiet};

use crate::columns::{Plot, write_area, write_limit, write_marks};
use crate::facts::{Side, write_facts, write_named};
use crate::level::{LevelStrip, STRIP, is_quiet};
use crate::means::{peak, pixel, write_mean};
use apf_picture::write_time;
use apf_strips::{Series, Strip};
use std::io;
use std::io::Write;

// How high the seats are drawn, and where their foot is.
const SEATS: u64 = 60;

const SEATS_FOOT: u64 = 86;

// The same of the requests that wait.
const WAITING: u64 = 24;

const WAITING_FOOT: u64 = 114;

// Writes where a strip begins, with room for its heading.
#[tactic(auto, unfolding(crate::specs::Strips::group_head))]
fn write_group<W: Write>(out: &mut W, top: u64) -> io::Result<()>
    ensures { OnOk result (Appends (W.contents out.old) (W.contents out.new) (group_head top)) }
{
    write!(
        out,
        "<g transform=\"translate(48 {top})\">\n<rect class=\"page\" y=\"5\" width=\"880\" height=\"18\"/>\n<text class=\"part\" y=\"18\">"
    )
}

// Writes how long a column is at most.
#[tactic(auto, unfolding(crate::specs::Strips::columns_words))]
fn write_columns<W: Write>(out: &mut W, width: u64) -> io::Result<()>
    ensures { OnOk result (Appends (W.contents out.old) (W.contents out.new) (columns_words width)) }
{
    out.write_all(b", in columns of ")?;
    write_time(out, width)?;
    out.write_all(b"</tspan></text>\n")
}

// Writes the name and the numbers of a strip.
#[tactic(auto, unfolding(crate::specs::Strips::heading_text))]
fn write_heading<W: Write>(
    out: &mut W,
    level: &LevelStrip<'_>,
    side: Side,
    strip: &Strip,
) -> io::Result<()>
    ensures { OnOk result (Appends (W.contents out.old) (W.contents out.new) (heading_text level.now side strip.now)) }
{
    write_named(out, level.name, side)?;
    out.write_all(b" <tspan class=\"note\">")?;
    write_facts(out, level.is_exempt, strip)?;
    write_columns(out, strip.width())
}

// Writes what is behind an area of this height.
#[tactic(auto, unfolding(crate::specs::Strips::plot_text))]
fn write_plot<W: Write>(out: &mut W, y: u64, high: u64) -> io::Result<()>
    ensures { OnOk result (Appends (W.contents out.old) (W.contents out.new) (plot_text y high)) }
{
    write!(
        out,
        "<rect class=\"plot\" y=\"{y}\" width=\"880\" height=\"{high}\"/>\n"
    )
}

// Writes what is at the top of a scale, with its foot at this height.
#[tactic(auto, unfolding(crate::specs::Strips::scale_text))]
fn write_scale<W: Write>(out: &mut W, y: u64, most: u128) -> io::Result<()>
    ensures { OnOk result (Appends (W.contents out.old) (W.contents out.new) (scale_text y most)) }
{
    write!(
        out,
        "<text class=\"small\" x=\"-6\" y=\"{y}\" text-anchor=\"end\">"
    )?;
    write_mean(out, most)?;
    out.write_all(b"</text>\n")
}

// The greatest of the seats in use and of the limit, if there is one.
fn most(is_exempt: bool, strip: &Strip) -> u128
    ensures { result ≡ most_of is_exempt strip.now }
{
    if is_exempt {
        return peak(&strip.seats);
    }
    peak(&strip.seats).max(peak(&strip.limit))
}

// Writes the line of the limit, if there is one.
fn write_limit_part<W: Write>(
    out: &mut W,
    is_exempt: bool,
    end: u64,
    most: u128,
    limit: &Series,
) -> io::Result<()>
    ensures { OnOk result (Appends (W.contents out.old) (W.contents out.new) (limit_part is_exempt end most limit.now)) }
{
    if is_exempt {
        return Ok(());
    }
    let plot = Plot {
        width: limit.width(),
        end,
        pixel: pixel(most, SEATS),
        full: SEATS,
        foot: SEATS_FOOT,
    };
    write_limit(out, &plot, limit.bins())
}

// Writes the area of the seats in use.
fn write_seats_area<W: Write>(out: &mut W, end: u64, most: u128, seats: &Series) -> io::Result<()>
    ensures { OnOk result (Appends (W.contents out.old) (W.contents out.new) (seats_area end most seats.now)) }
{
    let plot = Plot {
        width: seats.width(),
        end,
        pixel: pixel(most, SEATS),
        full: SEATS,
        foot: SEATS_FOOT,
    };
    write_area(out, &plot, "seats", seats.bins())
}

// Writes the seats in use and the limit, on one scale.
#[tactic(auto, unfolding(crate::specs::Strips::seats_text))]
fn write_seats<W: Write>(
    out: &mut W,
    is_exempt: bool,
    end: u64,
    most: u128,
    strip: &Strip,
) -> io::Result<()>
    ensures { OnOk result (Appends (W.contents out.old) (W.contents out.new) (seats_text is_exempt end most strip.now)) }
{
    write_plot(out, SEATS_FOOT - SEATS, SEATS)?;
    write_seats_area(out, end, most, &strip.seats)?;
    write_limit_part(out, is_exempt, end, most, &strip.limit)?;
    write_scale(out, SEATS_FOOT - SEATS + 8, most)
}

// Writes the requests that wait.
#[tactic(auto, unfolding(crate::specs::Strips::waiting_text))]
fn write_waiting<W: Write>(out: &mut W, end: u64, waiting: &Series) -> io::Result<()>
    ensures { OnOk result (Appends (W.contents out.old) (W.contents out.new) (waiting_text end waiting.now)) }
{
    let most = peak(waiting);
    let plot = Plot {
        width: waiting.width(),
        end,
        pixel: pixel(most, WAITING),
        full: WAITING,
        foot: WAITING_FOOT,
    };
    write_plot(out, WAITING_FOOT - WAITING, WAITING)?;
    write_area(out, &plot, "waiting", waiting.bins())?;
    write_scale(out, WAITING_FOOT - WAITING + 8, most)
}

// Writes the marks of the rejected requests.
fn write_rejected<W: Write>(out: &mut W, end: u64, rejected: &Series) -> io::Result<()>
    ensures { OnOk result (Appends (W.contents out.old) (W.contents out.new) (rejected_text end rejected.now)) }
{
    let plot = Plot {
        width: rejected.width(),
        end,
        pixel: 1,
        full: 1,
        foot: 1,
    };
    write_marks(out, &plot, rejected.bins())
}

// Writes the parts of a strip.
#[tactic(auto, unfolding(crate::specs::Strips::parts_text))]
fn write_parts<W: Write>(out: &mut W, is_exempt: bool, end: u64, strip: &Strip) -> io::Result<()>
    ensures { OnOk result (Appends (W.contents out.old) (W.contents out.new) (parts_text is_exempt end strip.now)) }
{
    write_seats(out, is_exempt, end, most(is_exempt, strip), strip)?;
    write_waiting(out, end, &strip.waiting)?;
    write_rejected(out, end, &strip.rejected)?;
    out.write_all(b"</g>\n")
}

// Writes a strip that begins at this height.
#[tactic(auto, unfolding(crate::specs::Strips::strip_text))]
fn write_strip<W: Write>(
    out: &mut W,
    level: &LevelStrip<'_>,
    side: Side,
    strip: &Strip,
    end: u64,
    top: u64,
) -> io::Result<()>
    ensures { OnOk result (Appends (W.contents out.old) (W.contents out.new) (strip_text level.now side strip.now end top)) }
{
    write_group(out, top)?;
    write_heading(out, level, side, strip)?;
    write_parts(out, level.is_exempt, end, strip)
}

// Writes the strips of a level.
fn write_strips<W: Write>(out: &mut W, level: &LevelStrip<'_>, end: u64, top: u64) -> io::Result<()>
    requires { top < 2 ^ 63 }
    ensures { OnOk result (Appends (W.contents out.old) (W.contents out.new) (strips_text level.now end top)) }
{
    match level.second {
        Some(second) => {
            write_strip(out, level, Side::First, level.first, end, top)?;
            write_strip(out, level, Side::Second, second, end, top + STRIP)
        }
        None => write_strip(out, level, Side::Alone, level.first, end, top),
    }
}

/// Writes the strips of a level, if somebody came. They begin at this height, and no time is drawn behind the end.
pub(crate) fn write_level<W: Write>(
    out: &mut W,
    level: &LevelStrip<'_>,
    end: u64,
    top: u64,
) -> io::Result<()>
    requires { top < 2 ^ 63 }
    ensures { OnOk result (Appends (W.contents out.old) (W.contents out.new) (level_text level.now end top)) }
{
    if is_quiet(level) {
        return Ok(());
    }
    write_strips(out, level, end, top)
}
