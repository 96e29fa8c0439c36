//! The title, the description and what stands above the strips.

ghost use Rattle.std.specs.Prelude.{◌≡◌, ◌≤◌, ◌<◌, ◌^◌, OnOk};
ghost use Rattle.std.specs.List.{flat_map};
ghost use Rattle.std.specs.Io.KnownBytes.{Appends};
ghost use Rattle.apf_cluster_picture.specs.Heads.{size_text, title_words, title_element, sentence, sentences_of, level_sentence, sentences, description, page_text, title_line, legend_text, notes_text, left_out_line, left_out_text, above_text, beginning_text, head_text};

use crate::facts::{Side, write_facts, write_named};
use crate::level::{LevelStrip, is_quiet};
use crate::style::write_style;
use apf_picture::{write_counted, write_time};
use apf_strips::Strip;
use std::io;
use std::io::Write;

const LEGEND: &[u8] = b"<rect class=\"seats\" x=\"48\" y=\"40\" width=\"14\" height=\"8\"/>\n\
    <text class=\"note\" x=\"66\" y=\"48\">seats in use</text>\n\
    <path class=\"limit\" d=\"M156 44h24\"/>\n\
    <text class=\"note\" x=\"184\" y=\"48\">limit, on the same scale</text>\n\
    <rect class=\"waiting\" x=\"344\" y=\"40\" width=\"14\" height=\"8\"/>\n\
    <text class=\"note\" x=\"362\" y=\"48\">requests that wait, on a scale of their own</text>\n\
    <path class=\"rejected\" d=\"M634 40v8M639 40v8\"/>\n\
    <text class=\"note\" x=\"646\" y=\"48\">a column with rejected requests</text>\n";

const NOTES: &[u8] =
    b"<text class=\"note\" x=\"48\" y=\"66\">Each column is the mean of its time, and a number at the top of a scale is the greatest of them.</text>\n";

/// Writes the size of the picture.
#[tactic(auto, unfolding(crate::specs::Heads::size_text))]
fn write_size<W: Write>(out: &mut W, height: u64) -> io::Result<()>
    ensures { OnOk result (Appends (W.contents out.old) (W.contents out.new) (size_text height)) }
{
    write!(
        out,
        "<svg xmlns=\"http://www.w3.org/2000/svg\" width=\"960\" height=\"{height}\" viewBox=\"0 0 960 {height}\" role=\"img\" aria-labelledby=\"title desc\">\n"
    )
}

// Writes how many levels are drawn, and how long the log was.
#[tactic(auto, unfolding(crate::specs::Heads::title_words))]
fn write_title_words<W: Write>(out: &mut W, shown: u64, end: u64) -> io::Result<()>
    ensures { OnOk result (Appends (W.contents out.old) (W.contents out.new) (title_words shown end)) }
{
    write_counted(out, shown, "priority level")?;
    out.write_all(b" over ")?;
    write_time(out, end)
}

#[tactic(auto, unfolding(crate::specs::Heads::title_element))]
fn write_title<W: Write>(out: &mut W, shown: u64, end: u64) -> io::Result<()>
    ensures { OnOk result (Appends (W.contents out.old) (W.contents out.new) (title_element shown end)) }
{
    out.write_all(b"<title id=\"title\">")?;
    write_title_words(out, shown, end)?;
    out.write_all(b"</title>\n")
}

// Writes the numbers of a strip as a sentence.
#[tactic(auto, unfolding(crate::specs::Heads::sentence))]
fn write_sentence<W: Write>(
    out: &mut W,
    level: &LevelStrip<'_>,
    side: Side,
    strip: &Strip,
) -> io::Result<()>
    ensures { OnOk result (Appends (W.contents out.old) (W.contents out.new) (sentence level.now side strip.now)) }
{
    write_named(out, level.name, side)?;
    out.write_all(b": ")?;
    write_facts(out, level.is_exempt, strip)?;
    out.write_all(b". ")
}

// Writes those of a level.
fn write_strip_sentences<W: Write>(out: &mut W, level: &LevelStrip<'_>) -> io::Result<()>
    ensures { OnOk result (Appends (W.contents out.old) (W.contents out.new) (sentences_of level.now)) }
{
    match level.second {
        Some(second) => {
            write_sentence(out, level, Side::First, level.first)?;
            write_sentence(out, level, Side::Second, second)
        }
        None => write_sentence(out, level, Side::Alone, level.first),
    }
}

// Writes those of a level, if somebody came.
fn write_level_sentences<W: Write>(out: &mut W, level: &LevelStrip<'_>) -> io::Result<()>
    ensures { OnOk result (Appends (W.contents out.old) (W.contents out.new) (level_sentence level.now)) }
{
    if is_quiet(level) {
        return Ok(());
    }
    write_strip_sentences(out, level)
}

// Writes those of all levels.
fn write_sentences<W: Write>(out: &mut W, levels: &[LevelStrip<'_>]) -> io::Result<()>
    ensures { OnOk result (Appends (W.contents out.old) (W.contents out.new) (sentences levels.now)) }
{
    for level in levels {
        write_level_sentences(out, level)?;
    }
    Ok(())
}

// Writes what the picture shows, for who does not see it.
#[tactic(auto, unfolding(crate::specs::Heads::description))]
fn write_description<W: Write>(out: &mut W, levels: &[LevelStrip<'_>]) -> io::Result<()>
    ensures { OnOk result (Appends (W.contents out.old) (W.contents out.new) (description levels.now)) }
{
    out.write_all(b"<desc id=\"desc\">")?;
    write_sentences(out, levels)?;
    out.write_all(b"</desc>\n")
}

#[tactic(auto, unfolding(crate::specs::Heads::page_text))]
fn write_page<W: Write>(out: &mut W, height: u64) -> io::Result<()>
    ensures { OnOk result (Appends (W.contents out.old) (W.contents out.new) (page_text height)) }
{
    write!(
        out,
        "<rect class=\"page\" width=\"960\" height=\"{height}\"/>\n"
    )
}

#[tactic(auto, unfolding(crate::specs::Heads::title_line))]
fn write_title_line<W: Write>(out: &mut W, shown: u64, end: u64) -> io::Result<()>
    ensures { OnOk result (Appends (W.contents out.old) (W.contents out.new) (title_line shown end)) }
{
    out.write_all(b"<text class=\"head\" x=\"48\" y=\"28\">")?;
    write_title_words(out, shown, end)?;
    out.write_all(b"</text>\n")
}

#[tactic(auto, unfolding(crate::specs::Heads::legend_text))]
fn write_legend<W: Write>(out: &mut W) -> io::Result<()>
    ensures { OnOk result (Appends (W.contents out.old) (W.contents out.new) legend_text) }
{
    out.write_all(LEGEND)
}

#[tactic(auto, unfolding(crate::specs::Heads::notes_text))]
fn write_notes<W: Write>(out: &mut W) -> io::Result<()>
    ensures { OnOk result (Appends (W.contents out.old) (W.contents out.new) notes_text) }
{
    out.write_all(NOTES)
}

#[tactic(auto, unfolding(crate::specs::Heads::left_out_line))]
fn write_left_out_line<W: Write>(out: &mut W, quiet: u64) -> io::Result<()>
    ensures { OnOk result (Appends (W.contents out.old) (W.contents out.new) (left_out_line quiet)) }
{
    out.write_all(b"<text class=\"note\" x=\"48\" y=\"84\">Left out: ")?;
    write_counted(out, quiet, "level")?;
    out.write_all(b" to which nobody came</text>\n")
}

// Writes how many levels are left out, if there are any.
fn write_left_out<W: Write>(out: &mut W, quiet: u64) -> io::Result<()>
    ensures { OnOk result (Appends (W.contents out.old) (W.contents out.new) (left_out_text quiet)) }
{
    if quiet == 0 {
        return Ok(());
    }
    write_left_out_line(out, quiet)
}

// Writes what stands above the strips.
#[tactic(auto, unfolding(crate::specs::Heads::above_text))]
fn write_above<W: Write>(out: &mut W, shown: u64, quiet: u64, end: u64) -> io::Result<()>
    ensures { OnOk result (Appends (W.contents out.old) (W.contents out.new) (above_text shown quiet end)) }
{
    write_title_line(out, shown, end)?;
    write_legend(out)?;
    write_notes(out)?;
    write_left_out(out, quiet)
}

// Writes the size, the title and the description.
#[tactic(auto, unfolding(crate::specs::Heads::beginning_text))]
fn write_beginning<W: Write>(
    out: &mut W,
    levels: &[LevelStrip<'_>],
    shown: u64,
    end: u64,
    height: u64,
) -> io::Result<()>
    ensures { OnOk result (Appends (W.contents out.old) (W.contents out.new) (beginning_text levels.now shown end height)) }
{
    write_size(out, height)?;
    write_title(out, shown, end)?;
    write_description(out, levels)
}

/// Writes all that comes before the axis, of a picture of this height with so many levels that are drawn and so many that are not.
#[tactic(auto, unfolding(crate::specs::Heads::head_text))]
pub(crate) fn write_head<W: Write>(
    out: &mut W,
    levels: &[LevelStrip<'_>],
    shown: u64,
    quiet: u64,
    end: u64,
    height: u64,
) -> io::Result<()>
    ensures { OnOk result (Appends (W.contents out.old) (W.contents out.new) (head_text levels.now shown quiet end height)) }
{
    write_beginning(out, levels, shown, end, height)?;
    write_style(out)?;
    write_page(out, height)?;
    write_above(out, shown, quiet, end)
}
