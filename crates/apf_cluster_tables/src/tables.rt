//! What is printed for people: a line for each level, and one for each flow that waited or was turned away.

ghost use Rattle.std.specs.Prelude.{◌≡◌, OnOk, map, slice_get};
ghost use Rattle.std.specs.List.{flat_map};
ghost use Rattle.std.specs.Io.KnownBytes.{Appends};
ghost use Rattle.apf_objects.specs.Levels.{level_view};
ghost use Rattle.apf_cluster_tables.specs.Texts as spec;

use crate::level_table::LevelTable;
use crate::limits::limit_of;
use crate::order::FlowPlace;
use crate::units::write_percentile;
use apf_flows::{write_escaped, write_names};
use apf_objects::{Level, LevelSettings};
use apf_rows::{Figures, Line, Sums};
use std::io;
use std::io::Write;

/// When the last request of any level was over.
pub(crate) fn end_of(tables: &[LevelTable]) -> u64
    ensures { result ≡ spec.end_of tables.now }
{
    let mut end = 0;
    for table in tables {
        end = table.table.all.sums.last.max(end);
    }
    end
}

// Writes how many requests there were, and how they were decided.
#[tactic(auto, unfolding(crate::specs::Texts::counts_text))]
fn write_counts<W: Write>(out: &mut W, sums: &Sums) -> io::Result<()>
    ensures { OnOk result (Appends (W.contents out.old) (W.contents out.new) (spec.counts_text sums.now)) }
{
    let requests = sums.requests;
    let executed = sums.executed;
    let rejected = sums.rejected;
    let cancelled = sums.cancelled;
    write!(out, " {requests} {executed} {rejected} {cancelled}")
}

// Writes how long they waited.
#[tactic(auto, unfolding(crate::specs::Texts::waits_text))]
fn write_waits<W: Write>(out: &mut W, figures: &Figures) -> io::Result<()>
    ensures { OnOk result (Appends (W.contents out.old) (W.contents out.new) (spec.waits_text figures.now)) }
{
    write_percentile(out, figures.is_exact, figures.median)?;
    write_percentile(out, figures.is_exact, figures.high)?;
    write_percentile(out, true, figures.sums.longest)
}

// The seats of a level that bound it: none where it is exempt.
fn bound_of(settings: &LevelSettings, nominal: u64) -> u32
    ensures { result ≡ spec.bound_of settings.now nominal }
{
    if settings.is_exempt {
        0
    } else {
        limit_of(nominal)
    }
}

// Writes the least and the greatest of two limits, or one where they are the same.
fn write_range<W: Write>(out: &mut W, least: u32, greatest: u32) -> io::Result<()>
    ensures { OnOk result (Appends (W.contents out.old) (W.contents out.new) (spec.range_text least greatest)) }
{
    if least == greatest {
        write!(out, " {least}")
    } else {
        write!(out, " {least}..{greatest}")
    }
}

// Writes the limits that a level had: none where it is exempt.
fn write_limits<W: Write>(
    out: &mut W,
    settings: &LevelSettings,
    table: &LevelTable,
) -> io::Result<()>
    ensures { OnOk result (Appends (W.contents out.old) (W.contents out.new) (spec.limits_text settings.now table.now)) }
{
    if settings.is_exempt {
        out.write_all(b" -")
    } else {
        write_range(out, table.least, table.greatest)
    }
}

// Writes the nominal limit of a level, and the limits that it had.
#[tactic(auto, unfolding(crate::specs::Texts::seats_text))]
fn write_seats<W: Write>(
    out: &mut W,
    settings: &LevelSettings,
    table: &LevelTable,
) -> io::Result<()>
    ensures { OnOk result (Appends (W.contents out.old) (W.contents out.new) (spec.seats_text settings.now table.now)) }
{
    let nominal = table.nominal;
    write!(out, " {nominal}")?;
    write_limits(out, settings, table)
}

// Writes how much of these seats was used in so much time, in per cent, less what is below one.
#[tactic(auto, unfolding(crate::specs::Texts::used_text))]
fn write_used<W: Write>(out: &mut W, seat_time: u128, seats: u32, time: u64) -> io::Result<()>
    ensures { OnOk result (Appends (W.contents out.old) (W.contents out.new) (spec.used_text seat_time seats time)) }
{
    let possible = u128::from(seats) * u128::from(time);
    if possible == 0 {
        return out.write_all(b" -");
    }
    let percent = seat_time.min(possible * 10_000) * 100 / possible;
    write!(out, " {percent}%")
}

// Writes what the requests of a level used, and how many of them the server of the log turned away.
#[tactic(auto, unfolding(crate::specs::Texts::spent_text))]
fn write_spent<W: Write>(
    out: &mut W,
    settings: &LevelSettings,
    table: &LevelTable,
    end: u64,
) -> io::Result<()>
    ensures { OnOk result (Appends (W.contents out.old) (W.contents out.new) (spec.spent_text settings.now table.now end)) }
{
    let turned_away = table.turned_away;
    let seats = bound_of(settings, table.nominal);
    let time = end.saturating_sub(table.since);
    write!(out, " {turned_away}")?;
    write_used(out, table.table.all.sums.seat_time, seats, time)
}

/// Writes the columns of a level behind its name, each with a blank before it, where all were over at this time.
#[tactic(auto, unfolding(crate::specs::Texts::level_columns))]
pub(crate) fn write_level_columns<W: Write>(
    out: &mut W,
    settings: &LevelSettings,
    table: &LevelTable,
    end: u64,
) -> io::Result<()>
    ensures { OnOk result (Appends (W.contents out.old) (W.contents out.new) (spec.level_columns settings.now table.now end)) }
{
    write_seats(out, settings, table)?;
    write_counts(out, &table.table.all.sums)?;
    write_spent(out, settings, table, end)?;
    write_waits(out, &table.table.all)
}

// Writes the line of a level, where all were over at this time.
#[tactic(auto, unfolding(crate::specs::Texts::level_text))]
fn write_level<W: Write>(out: &mut W, level: &Level, table: &LevelTable, end: u64) -> io::Result<()>
    ensures { OnOk result (Appends (W.contents out.old) (W.contents out.new) (spec.level_text (level_view level.now) table.now end)) }
{
    write_escaped(out, level.name.as_str())?;
    write_level_columns(out, &level.settings, table, end)?;
    out.write_all(b"\n")
}

// Writes the line of the level at this place, if it is there.
fn write_at<W: Write>(
    out: &mut W,
    levels: &[Level],
    tables: &[LevelTable],
    place: usize,
    end: u64,
) -> io::Result<()>
    ensures { OnOk result (Appends (W.contents out.old) (W.contents out.new) (spec.line_at end (map level_view levels.now) tables.now place)) }
{
    let Some(level) = levels.get(place) else {
        return Ok(());
    };
    let Some(table) = tables.get(place) else {
        return Ok(());
    };
    write_level(out, level, table, end)
}

// Writes the lines of the levels.
fn write_levels<W: Write>(
    out: &mut W,
    levels: &[Level],
    tables: &[LevelTable],
    end: u64,
) -> io::Result<()>
    ensures { OnOk result (Appends (W.contents out.old) (W.contents out.new) (spec.lines_text end (map level_view levels.now) tables.now)) }
{
    for place in 0..tables.len() {
        write_at(out, levels, tables, place, end)?;
    }
    Ok(())
}

/// Writes the columns of a flow between the name of its level and its own names, each with a blank before it.
#[tactic(auto, unfolding(crate::specs::Texts::flow_columns))]
pub(crate) fn write_flow_columns<W: Write>(out: &mut W, figures: &Figures) -> io::Result<()>
    ensures { OnOk result (Appends (W.contents out.old) (W.contents out.new) (spec.flow_columns figures.now)) }
{
    write_counts(out, &figures.sums)?;
    write_waits(out, figures)
}

// Writes the line of a flow.
#[tactic(auto, unfolding(crate::specs::Texts::flow_text))]
fn write_flow<W: Write>(out: &mut W, level: &Level, line: &Line) -> io::Result<()>
    ensures { OnOk result (Appends (W.contents out.old) (W.contents out.new) (spec.flow_text (level_view level.now) line.now)) }
{
    write_escaped(out, level.name.as_str())?;
    write_flow_columns(out, &line.figures)?;
    write_names(out, &line.names)?;
    out.write_all(b"\n")
}

// Writes the line of the flow of this number, if it is there.
fn write_numbered<W: Write>(
    out: &mut W,
    level: &Level,
    lines: &[Line],
    flow: usize,
) -> io::Result<()>
    ensures { OnOk result (Appends (W.contents out.old) (W.contents out.new) (spec.flow_by (level_view level.now) (slice_get lines.now flow))) }
{
    let Some(line) = lines.get(flow) else {
        return Ok(());
    };
    write_flow(out, level, line)
}

// Writes the line of the flow of a place, if it is there.
fn write_place<W: Write>(
    out: &mut W,
    levels: &[Level],
    tables: &[LevelTable],
    place: &FlowPlace,
) -> io::Result<()>
    ensures { OnOk result (Appends (W.contents out.old) (W.contents out.new) (spec.flow_at (map level_view levels.now) tables.now place.now)) }
{
    let Some(level) = levels.get(place.level) else {
        return Ok(());
    };
    let Some(table) = tables.get(place.level) else {
        return Ok(());
    };
    write_numbered(out, level, table.table.lines.as_slice(), place.flow)
}

// Writes the lines of the flows of these places.
fn write_places<W: Write>(
    out: &mut W,
    levels: &[Level],
    tables: &[LevelTable],
    places: &[FlowPlace],
) -> io::Result<()>
    ensures { OnOk result (Appends (W.contents out.old) (W.contents out.new) (flat_map (spec.flow_at (map level_view levels.now) tables.now) places.now)) }
{
    for place in places {
        write_place(out, levels, tables, place)?;
    }
    Ok(())
}

/// Writes the names of the columns of the levels.
#[tactic(auto, unfolding(crate::specs::Texts::level_names))]
pub(crate) fn write_level_names<W: Write>(out: &mut W) -> io::Result<()>
    ensures { OnOk result (Appends (W.contents out.old) (W.contents out.new) spec.level_names) }
{
    out.write_all(
        b"level nominal limits requests executed rejected timed-out log-429s used median p99 longest\n",
    )
}

/// Writes the names of the columns of the flows.
#[tactic(auto, unfolding(crate::specs::Texts::flow_names))]
pub(crate) fn write_flow_names<W: Write>(out: &mut W) -> io::Result<()>
    ensures { OnOk result (Appends (W.contents out.old) (W.contents out.new) spec.flow_names) }
{
    out.write_all(
        b"\nflow-of requests executed rejected timed-out median p99 longest schema distinguisher\n",
    )
}

// Writes a line of names, and the lines of the flows of these places, if there are any.
fn write_flows<W: Write>(
    out: &mut W,
    levels: &[Level],
    tables: &[LevelTable],
    places: &[FlowPlace],
) -> io::Result<()>
    ensures { OnOk result (Appends (W.contents out.old) (W.contents out.new) (spec.flows_text (map level_view levels.now) tables.now places.now)) }
{
    if places.is_empty() {
        return Ok(());
    }
    write_flow_names(out)?;
    write_places(out, levels, tables, places)
}

/// Writes for people what the requests of each level came to: a line of names, and a line for each level; and where there are
/// places, a line of names, and a line for the flow of each of them. A level or a flow that is not there has no line.
///
/// # Errors
///
/// The writer's. Then nothing is known of how much was written.
#[tactic(auto, unfolding(crate::specs::Texts::tables_text))]
pub fn write_tables<W: Write>(
    out: &mut W,
    levels: &[Level],
    tables: &[LevelTable],
    places: &[FlowPlace],
) -> io::Result<()>
    ensures { OnOk result (Appends (W.contents out.old) (W.contents out.new) (spec.tables_text (map level_view levels.now) tables.now places.now)) }
{
    write_level_names(out)?;
    write_levels(out, levels, tables, end_of(tables))?;
    write_flows(out, levels, tables, places)
}
