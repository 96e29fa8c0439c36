//! What is printed for people of two clusters: a line for each level and for each pair of flows, the one cluster's text beside the other's.

ghost use Rattle.std.specs.Prelude.{◌≡◌, List, ℕ, IfOk, OnOk, map, option_map, Some, None};
ghost use Rattle.std.specs.List.{flat_map};
ghost use Rattle.std.specs.Option.{option_or};
ghost use Rattle.std.specs.Io.KnownBytes.{Appends};
ghost use Rattle.apf_objects.specs.Levels.{level_view};
ghost use Rattle.apf_cluster_tables.specs.Sides.{side_view};
ghost use Rattle.apf_cluster_tables.specs.Both as spec;
ghost use Rattle.apf_cluster_tables.specs.Shown.{shown_view};

use crate::beside::write_columns;
use crate::fault::TablesFault;
use crate::flows::FlowAt;
use crate::level_table::LevelTable;
use crate::pairs::FlowPair;
use crate::side::{Side, level_named};
use crate::tables::{
    end_of, write_flow_columns, write_flow_names, write_level_columns, write_level_names,
};
use apf_flows::{write_escaped, write_names};
use apf_objects::Level;
use apf_rows::Line;
use std::alloc::Global;
use std::io;
use std::io::Write;

/// How many columns a level has behind its name.
const LEVEL_WIDTH: usize = 11;

/// How many columns a flow has between the name of its level and its own names.
const FLOW_WIDTH: usize = 7;

// Writes this many columns of what is not there.
fn write_absent<W: Write>(out: &mut W, columns: usize) -> io::Result<()>
    ensures { OnOk result (Appends (W.contents out.old) (W.contents out.new) (spec.absent columns)) }
{
    for _column in 0..columns {
        out.write_all(b" -")?;
    }
    Ok(())
}

// Writes the columns of the level at this place, if it is there with what its requests came to.
fn write_columns_at<W: Write>(out: &mut W, side: Side<'_>, place: Option<usize>) -> io::Result<()>
    ensures { OnOk result (Appends (W.contents out.old) (W.contents out.new) (spec.columns_at (side_view side.entry) place)) }
{
    let Some(place) = place else {
        return write_absent(out, LEVEL_WIDTH);
    };
    let Some(level) = side.levels.get(place) else {
        return write_absent(out, LEVEL_WIDTH);
    };
    let Some(table) = side.tables.get(place) else {
        return write_absent(out, LEVEL_WIDTH);
    };
    write_level_columns(out, &level.settings, table, end_of(side.tables))
}

// The columns of the level of this name.
fn columns_of(alloc: Global, side: Side<'_>, name: &str) -> Result<Vec<u8>, TablesFault>
    ensures { IfOk result (λ text. text.items ≡ spec.columns_of (side_view side.entry) name.now) }
{
    let mut text = Vec::new(alloc);
    match write_columns_at(&mut text, side, level_named(side.levels, name)) {
        Ok(()) => Ok(text),
        Err(_) => Err(TablesFault::NoMemory),
    }
}

// Writes the line of the levels of this name, of these columns.
#[tactic(auto, unfolding(crate::specs::Both::line_of))]
fn write_line<W: Write>(out: &mut W, name: &str, one: &[u8], other: &[u8]) -> io::Result<()>
    ensures { OnOk result (Appends (W.contents out.old) (W.contents out.new) (spec.line_of name.now one.now other.now)) }
{
    write_escaped(out, name)?;
    write_columns(out, LEVEL_WIDTH, one, other)?;
    out.write_all(b"\n")
}

// Writes the line of the levels of this name.
fn write_level<W: Write>(
    alloc: Global,
    out: &mut W,
    first: Side<'_>,
    second: Side<'_>,
    name: &str,
) -> Result<(), TablesFault>
    ensures { OnOk result (Appends (W.contents out.old) (W.contents out.new) (spec.level_line (side_view first.entry) (side_view second.entry) name.now)) }
{
    let one = columns_of(alloc, first, name)?;
    let other = columns_of(alloc, second, name)?;
    write_line(out, name, one.as_slice(), other.as_slice())?;
    Ok(())
}

// Writes the lines of the levels of the first cluster.
fn write_first<W: Write>(
    alloc: Global,
    out: &mut W,
    first: Side<'_>,
    second: Side<'_>,
) -> Result<(), TablesFault>
    ensures { OnOk result (Appends (W.contents out.old) (W.contents out.new) (spec.first_lines (side_view first.entry) (side_view second.entry))) }
{
    for level in first.levels {
        write_level(alloc, out, first, second, level.name.as_str())?;
    }
    Ok(())
}

// Writes the line of a level of the second cluster, if the first one has none of this name.
fn write_new_level<W: Write>(
    alloc: Global,
    out: &mut W,
    first: Side<'_>,
    second: Side<'_>,
    level: &Level,
) -> Result<(), TablesFault>
    ensures { OnOk result (Appends (W.contents out.old) (W.contents out.new) (spec.new_line (side_view first.entry) (side_view second.entry) (level_view level.now))) }
{
    let name = level.name.as_str();
    match level_named(first.levels, name) {
        Some(_) => Ok(()),
        None => write_level(alloc, out, first, second, name),
    }
}

// Writes the lines of the levels that only the second cluster has.
fn write_new<W: Write>(
    alloc: Global,
    out: &mut W,
    first: Side<'_>,
    second: Side<'_>,
) -> Result<(), TablesFault>
    ensures { OnOk result (Appends (W.contents out.old) (W.contents out.new) (spec.new_lines (side_view first.entry) (side_view second.entry))) }
{
    for level in second.levels {
        write_new_level(alloc, out, first, second, level)?;
    }
    Ok(())
}

/// A flow that is printed.
#[derive(Clone, Copy)]
pub(crate) struct Shown<'a> {
    /// The name of its level.
    pub(crate) of: &'a str,
    pub(crate) line: &'a Line,
}

// The line of this number, if the table is there.
fn line_in(table: Option<&LevelTable>, flow: usize) -> Option<&Line>
    ensures { option_map (λ line. line.now) result ≡ spec.line_in (option_map (λ table. table.now) table.entry) flow }
{
    table?.table.lines.get(flow)
}

// The flow that stands there, if it is there.
fn shown_at<'a>(side: Side<'a>, at: Option<FlowAt>) -> Option<Shown<'a>>
    ensures { option_map shown_view result ≡ spec.shown_at (side_view side.entry) at }
{
    let at = at?;
    let level = side.levels.get(at.level)?;
    let line = line_in(side.tables.get(at.level), at.flow)?;
    Some(Shown {
        of: level.name.as_str(),
        line,
    })
}

// Writes two names of levels: one of them where they are the same.
fn write_two_levels<W: Write>(out: &mut W, one: &str, other: &str) -> io::Result<()>
    ensures { OnOk result (Appends (W.contents out.old) (W.contents out.new) (spec.two_levels one.now other.now)) }
{
    write_escaped(out, one)?;
    if one == other {
        return Ok(());
    }
    out.write_all(b">")?;
    write_escaped(out, other)
}

// Writes the names of the levels of two flows: one of them where they are the same, or where only one is there.
fn write_levels<W: Write>(
    out: &mut W,
    one: Option<Shown<'_>>,
    other: Option<Shown<'_>>,
) -> io::Result<()>
    ensures { OnOk result (Appends (W.contents out.old) (W.contents out.new) (spec.levels_text (option_map shown_view one.entry) (option_map shown_view other.entry))) }
{
    match (one, other) {
        (Some(one), Some(other)) => write_two_levels(out, one.of, other.of),
        (Some(it), None) | (None, Some(it)) => write_escaped(out, it.of),
        (None, None) => Ok(()),
    }
}

// Writes the columns of a flow, if it is there.
fn write_columns_of<W: Write>(out: &mut W, flow: Option<Shown<'_>>) -> io::Result<()>
    ensures { OnOk result (Appends (W.contents out.old) (W.contents out.new) (spec.flow_columns_of (option_map shown_view flow.entry))) }
{
    match flow {
        Some(flow) => write_flow_columns(out, &flow.line.figures),
        None => write_absent(out, FLOW_WIDTH),
    }
}

// The columns of a flow, if it is there.
fn flow_columns(alloc: Global, flow: Option<Shown<'_>>) -> Result<Vec<u8>, TablesFault>
    ensures { IfOk result (λ text. text.items ≡ spec.flow_columns_of (option_map shown_view flow.entry)) }
{
    let mut text = Vec::new(alloc);
    match write_columns_of(&mut text, flow) {
        Ok(()) => Ok(text),
        Err(_) => Err(TablesFault::NoMemory),
    }
}

// Writes the two names of a flow, if it is there.
fn write_names_of<W: Write>(out: &mut W, flow: Option<Shown<'_>>) -> io::Result<()>
    ensures { OnOk result (Appends (W.contents out.old) (W.contents out.new) (spec.names_of (option_map shown_view flow.entry))) }
{
    match flow {
        Some(flow) => write_names(out, &flow.line.names),
        None => Ok(()),
    }
}

// The first flow, or the second one where that is not there.
fn one_of<'a>(one: Option<Shown<'a>>, other: Option<Shown<'a>>) -> Option<Shown<'a>>
    ensures { option_map shown_view result ≡ option_or (option_map shown_view one.entry) (option_map shown_view other.entry) }
{
    match one {
        Some(one) => Some(one),
        None => other,
    }
}

// Writes the line of two flows of these columns.
#[tactic(auto, unfolding(crate::specs::Both::line_with))]
fn write_flows_line<W: Write>(
    out: &mut W,
    flows: (Option<Shown<'_>>, Option<Shown<'_>>),
    one: &[u8],
    other: &[u8],
) -> io::Result<()>
    ensures { OnOk result (Appends (W.contents out.old) (W.contents out.new) (spec.line_with (option_map shown_view flows.entry.0) (option_map shown_view flows.entry.1) one.now other.now)) }
{
    write_levels(out, flows.0, flows.1)?;
    write_columns(out, FLOW_WIDTH, one, other)?;
    write_names_of(out, one_of(flows.0, flows.1))?;
    out.write_all(b"\n")
}

// Writes the line of two flows, of which one is there.
fn write_flows<W: Write>(
    alloc: Global,
    out: &mut W,
    one: Option<Shown<'_>>,
    other: Option<Shown<'_>>,
) -> Result<(), TablesFault>
    ensures { OnOk result (Appends (W.contents out.old) (W.contents out.new) (spec.flows_line (option_map shown_view one.entry) (option_map shown_view other.entry))) }
{
    let first = flow_columns(alloc, one)?;
    let second = flow_columns(alloc, other)?;
    write_flows_line(out, (one, other), first.as_slice(), second.as_slice())?;
    Ok(())
}

// Writes the line of a pair, if one of its flows is there.
fn write_pair<W: Write>(
    alloc: Global,
    out: &mut W,
    first: Side<'_>,
    second: Side<'_>,
    pair: &FlowPair,
) -> Result<(), TablesFault>
    ensures { OnOk result (Appends (W.contents out.old) (W.contents out.new) (spec.pair_line (side_view first.entry) (side_view second.entry) pair.now)) }
{
    let one = shown_at(first, pair.first);
    let other = shown_at(second, pair.second);
    if one.is_none() && other.is_none() {
        return Ok(());
    }
    write_flows(alloc, out, one, other)
}

// Writes the lines of these pairs.
fn write_lines<W: Write>(
    alloc: Global,
    out: &mut W,
    first: Side<'_>,
    second: Side<'_>,
    pairs: &[FlowPair],
) -> Result<(), TablesFault>
    ensures { OnOk result (Appends (W.contents out.old) (W.contents out.new) (flat_map (spec.pair_line (side_view first.entry) (side_view second.entry)) pairs.now)) }
{
    for pair in pairs {
        write_pair(alloc, out, first, second, pair)?;
    }
    Ok(())
}

// Writes a line of names, and the lines of these pairs, if there are any.
fn write_pairs<W: Write>(
    alloc: Global,
    out: &mut W,
    first: Side<'_>,
    second: Side<'_>,
    pairs: &[FlowPair],
) -> Result<(), TablesFault>
    ensures { OnOk result (Appends (W.contents out.old) (W.contents out.new) (spec.pairs_text (side_view first.entry) (side_view second.entry) pairs.now)) }
{
    if pairs.is_empty() {
        return Ok(());
    }
    write_flow_names(out)?;
    write_lines(alloc, out, first, second, pairs)
}

/// Writes for people what the requests of the levels of two clusters came to. Each column is one text where both clusters have the
/// same, and else the first one's and the second one's with `>` between them, where `-` stands for what is not there. First a line of
/// names, a line for each level of the first cluster, and one for each level that only the second one has; and where there are pairs,
/// a line of names, and a line for each of them. A pair that is not there has no line.
///
/// # Errors
///
/// `NoMemory` if memory was refused, or `CannotWrite`. Then nothing is known of how much was written.
#[tactic(auto, unfolding(crate::specs::Both::both_text))]
pub fn write_both_tables<W: Write>(
    alloc: Global,
    out: &mut W,
    first: Side<'_>,
    second: Side<'_>,
    pairs: &[FlowPair],
) -> Result<(), TablesFault>
    ensures { OnOk result (Appends (W.contents out.old) (W.contents out.new) (spec.both_text (side_view first.entry) (side_view second.entry) pairs.now)) }
{
    write_level_names(out)?;
    write_first(alloc, out, first, second)?;
    write_new(alloc, out, first, second)?;
    write_pairs(alloc, out, first, second, pairs)
}
