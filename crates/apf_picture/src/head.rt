//! The title, the description and what stands above the parts.

ghost use Rattle.std.specs.Prelude.{◌≡◌, ◌<◌, ◌≤◌, ◌+◌, ◌*◌, ◌^◌, length, OnOk};
ghost use Rattle.std.specs.Io.KnownBytes.{Appends};
ghost use Rattle.apf_picture.specs.Heads.{size_text, page_text, counts_text, schema_text, settings_text, queue_settings, reject_settings, run_text, stretch_text, length_text, whole_text, facts_text, shared_sentence, schema_sentence, subject, sentence, sentences, beginning_words, beginning_text, own_line, beginning_line};
ghost use Rattle.apf_picture.specs.Labels.{shown_schema};

use crate::names::{write_name, write_whole_label, write_whole_name};
use crate::row::{Numbers, Row};
use crate::words::{write_counted, write_numbers, write_patience, write_row_numbers, write_time};
use apf_model::{Config, Response};
use std::io;
use std::io::Write;

/// This many columns of a schema are shown in the title.
const TITLE: usize = 28;

/// This many of what all names begin with.
const BEGINNING: usize = 96;

/// Writes how many requests there are, and of how many flows.
#[tactic(auto, unfolding(crate::specs::Heads::counts_text))]
pub(crate) fn write_counts<W: Write>(out: &mut W, requests: u64, flows: u64) -> io::Result<()>
    ensures { OnOk result (Appends (W.contents out.old) (W.contents out.new) (counts_text requests flows)) }
{
    write_counted(out, requests, "request")?;
    out.write_all(b" of ")?;
    write_counted(out, flows, "flow")
}

/// Writes the schema that all flows share, if they do.
pub(crate) fn write_schema<W: Write>(out: &mut W, schema: &Option<Vec<char>>) -> io::Result<()>
    ensures { OnOk result (Appends (W.contents out.old) (W.contents out.new) (schema_text (shown_schema schema.now))) }
{
    match schema {
        Some(schema) => {
            out.write_all(b" of ")?;
            write_name(out, schema.as_slice(), TITLE)
        }
        None => Ok(()),
    }
}

// Writes the settings of a level with queues, up to the patience.
#[tactic(auto, unfolding(crate::specs::Heads::queue_settings))]
fn write_queue_settings<W: Write>(out: &mut W, config: &Config) -> io::Result<()>
    ensures { OnOk result (Appends (W.contents out.old) (W.contents out.new) (queue_settings config.now)) }
{
    let limit = config.limit;
    let queues = config.queues;
    let hand = config.hand_size;
    let length = config.queue_length_limit;
    write!(
        out,
        "limit {limit}, queues {queues}, hand size {hand}, queue length limit {length}, "
    )
}

// Writes the settings of a level that rejects, up to the patience.
#[tactic(auto, unfolding(crate::specs::Heads::reject_settings))]
fn write_reject_settings<W: Write>(out: &mut W, limit: u32) -> io::Result<()>
    ensures { OnOk result (Appends (W.contents out.old) (W.contents out.new) (reject_settings limit)) }
{
    write!(
        out,
        "limit {limit}, no queues: what does not fit is rejected, "
    )
}

/// Writes the settings of the level, and the patience.
pub(crate) fn write_settings<W: Write>(
    out: &mut W,
    config: &Config,
    patience: u64,
) -> io::Result<()>
    ensures { OnOk result (Appends (W.contents out.old) (W.contents out.new) (settings_text config.now patience)) }
{
    match config.limit_response {
        Response::Queue => {
            write_queue_settings(out, config)?;
            write_patience(out, patience)
        }
        Response::Reject => {
            write_reject_settings(out, config.limit)?;
            write_patience(out, patience)
        }
    }
}

// Writes how long the run was.
#[tactic(auto, unfolding(crate::specs::Heads::run_text))]
fn write_run<W: Write>(out: &mut W, end: u64) -> io::Result<()>
    ensures { OnOk result (Appends (W.contents out.old) (W.contents out.new) (run_text end)) }
{
    out.write_all(b", ")?;
    write_time(out, end)?;
    out.write_all(b" in all")
}

// Writes from when until when the stretch of the run is that is drawn.
#[tactic(auto, unfolding(crate::specs::Heads::stretch_text))]
fn write_stretch<W: Write>(out: &mut W, from: u64, end: u64) -> io::Result<()>
    requires late { from + end < 2 ^ 64 }
    ensures { OnOk result (Appends (W.contents out.old) (W.contents out.new) (stretch_text from end)) }
{
    out.write_all(b", from ")?;
    write_time(out, from)?;
    out.write_all(b" to ")?;
    write_time(out, from + end)
}

// Writes how long the run was, or from when until when the stretch of it is that is drawn.
fn write_length<W: Write>(out: &mut W, is_whole: bool, from: u64, end: u64) -> io::Result<()>
    requires late { from + end < 2 ^ 64 }
    ensures { OnOk result (Appends (W.contents out.old) (W.contents out.new) (length_text is_whole from end)) }
{
    if is_whole {
        write_run(out, end)
    } else {
        write_stretch(out, from, end)
    }
}

/// Writes the numbers of all requests, and how long the run was, or which stretch of it is drawn.
#[tactic(auto, unfolding(crate::specs::Heads::whole_text))]
pub(crate) fn write_whole<W: Write>(
    out: &mut W,
    numbers: &Numbers,
    is_whole: bool,
    from: u64,
    end: u64,
) -> io::Result<()>
    requires late { from + end < 2 ^ 64 }
    ensures { OnOk result (Appends (W.contents out.old) (W.contents out.new) (whole_text numbers.now is_whole from end)) }
{
    write_numbers(out, numbers)?;
    write_length(out, is_whole, from, end)
}

/// Writes the most seats that were in use, how many queues were used, and the most requests that waited in one.
#[tactic(auto, unfolding(crate::specs::Heads::facts_text))]
pub(crate) fn write_facts<W: Write>(
    out: &mut W,
    used: u64,
    queues: usize,
    longest: u64,
) -> io::Result<()>
    ensures { OnOk result (Appends (W.contents out.old) (W.contents out.new) (facts_text used queues longest)) }
{
    write!(
        out,
        ". Seats in use by flow: at most {used}. Queues used: {queues}, at most {longest} waiting in one."
    )
}

// Writes the schema that all flows share as a sentence.
#[tactic(auto, unfolding(crate::specs::Heads::shared_sentence))]
fn write_shared<W: Write>(out: &mut W, schema: &[char]) -> io::Result<()>
    ensures { OnOk result (Appends (W.contents out.old) (W.contents out.new) (shared_sentence schema.now)) }
{
    out.write_all(b" The schema of all flows: ")?;
    write_whole_name(out, schema)?;
    out.write_all(b".")
}

/// Writes the schema that all flows share, if they do, as a sentence.
pub(crate) fn write_schema_sentence<W: Write>(
    out: &mut W,
    schema: &Option<Vec<char>>,
) -> io::Result<()>
    ensures { OnOk result (Appends (W.contents out.old) (W.contents out.new) (schema_sentence (shown_schema schema.now))) }
{
    match schema {
        Some(schema) => write_shared(out, schema.as_slice()),
        None => Ok(()),
    }
}

// Writes what a row is called, as the beginning of a sentence.
#[tactic(auto, unfolding(crate::specs::Heads::subject))]
fn write_subject<W: Write>(out: &mut W, row: &Row) -> io::Result<()>
    ensures { OnOk result (Appends (W.contents out.old) (W.contents out.new) (subject row.now)) }
{
    out.write_all(b" ")?;
    write_whole_label(out, &row.label)?;
    out.write_all(b", ")
}

// Writes the numbers of a row, as a sentence.
#[tactic(auto, unfolding(crate::specs::Heads::sentence))]
fn write_sentence<W: Write>(out: &mut W, row: &Row) -> io::Result<()>
    ensures { OnOk result (Appends (W.contents out.old) (W.contents out.new) (sentence row.now)) }
{
    write_subject(out, row)?;
    write_row_numbers(out, &row.numbers)?;
    out.write_all(b".")
}

/// Writes the numbers of each row, as sentences.
pub(crate) fn write_sentences<W: Write>(out: &mut W, rows: &[Row]) -> io::Result<()>
    ensures { OnOk result (Appends (W.contents out.old) (W.contents out.new) (sentences rows.now)) }
{
    for row in rows {
        write_sentence(out, row)?;
    }
    Ok(())
}

// Writes what all names begin with.
#[tactic(auto, unfolding(crate::specs::Heads::beginning_words))]
fn write_beginning_words<W: Write>(out: &mut W, beginning: &[char]) -> io::Result<()>
    requires { length beginning.now < 2 ^ 62 }
    ensures { OnOk result (Appends (W.contents out.old) (W.contents out.new) (beginning_words beginning.now)) }
{
    out.write_all(b"names begin with ")?;
    write_name(out, beginning, BEGINNING)
}

/// Writes what all names begin with behind the title, if it is left out of them.
pub(crate) fn write_beginning<W: Write>(out: &mut W, beginning: &[char]) -> io::Result<()>
    requires { length beginning.now < 2 ^ 62 }
    ensures { OnOk result (Appends (W.contents out.old) (W.contents out.new) (beginning_text beginning.now)) }
{
    if beginning.is_empty() {
        return Ok(());
    }
    out.write_all(b", ")?;
    write_beginning_words(out, beginning)
}

// Writes a line of its own of what all names begin with.
#[tactic(auto, unfolding(crate::specs::Heads::own_line))]
fn write_own_line<W: Write>(out: &mut W, beginning: &[char]) -> io::Result<()>
    requires { length beginning.now < 2 ^ 62 }
    ensures { OnOk result (Appends (W.contents out.old) (W.contents out.new) (own_line beginning.now)) }
{
    out.write_all(b"<text class=\"note\" x=\"48\" y=\"79\">")?;
    write_beginning_words(out, beginning)?;
    out.write_all(b"</text>\n")
}

/// Writes a line of what all names begin with, if it is left out of them.
pub(crate) fn write_beginning_line<W: Write>(out: &mut W, beginning: &[char]) -> io::Result<()>
    requires { length beginning.now < 2 ^ 62 }
    ensures { OnOk result (Appends (W.contents out.old) (W.contents out.new) (beginning_line beginning.now)) }
{
    if beginning.is_empty() {
        return Ok(());
    }
    write_own_line(out, beginning)
}

/// Writes the size of the picture.
#[tactic(auto, unfolding(crate::specs::Heads::size_text))]
pub(crate) fn write_size<W: Write>(out: &mut W, height: u64) -> io::Result<()>
    ensures { OnOk result (Appends (W.contents out.old) (W.contents out.new) (size_text height)) }
{
    writeln!(
        out,
        "<svg xmlns=\"http://www.w3.org/2000/svg\" width=\"960\" height=\"{height}\" viewBox=\"0 0 960 {height}\" role=\"img\" aria-labelledby=\"title desc\">"
    )
}

/// Writes what is behind all parts.
#[tactic(auto, unfolding(crate::specs::Heads::page_text))]
pub(crate) fn write_page<W: Write>(out: &mut W, height: u64) -> io::Result<()>
    ensures { OnOk result (Appends (W.contents out.old) (W.contents out.new) (page_text height)) }
{
    writeln!(
        out,
        "<rect class=\"page\" width=\"960\" height=\"{height}\"/>"
    )
}
