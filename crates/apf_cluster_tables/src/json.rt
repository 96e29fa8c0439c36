//! What is printed for programs: one JSON object a line.

ghost use Rattle.std.specs.Prelude.{◌≡◌, OnOk, length, map, slice_get};
ghost use Rattle.std.specs.List.{flat_map, range_with_len};
ghost use Rattle.std.specs.Io.KnownBytes.{Appends};
ghost use Rattle.apf_objects.specs.Levels.{level_view};
ghost use Rattle.apf_cluster_tables.specs.Sides.{side_view};
ghost use Rattle.apf_cluster_tables.specs.Json as spec;

use crate::flows::FlowAt;
use crate::level_table::LevelTable;
use crate::order::FlowPlace;
use crate::pairs::FlowPair;
use crate::side::Side;
use apf_flows::write_text;
use apf_objects::{Level, LevelSettings};
use apf_rows::{Figures, Line, Sums};
use apf_traces::FlowNames;
use std::io;
use std::io::Write;

// Writes how many requests there were, and how they were decided.
#[tactic(auto, unfolding(crate::specs::Json::counts_object))]
fn write_counts<W: Write>(out: &mut W, sums: &Sums) -> io::Result<()>
    ensures { OnOk result (Appends (W.contents out.old) (W.contents out.new) (spec.counts_object sums.now)) }
{
    let requests = sums.requests;
    let executed = sums.executed;
    let rejected = sums.rejected;
    let cancelled = sums.cancelled;
    write!(
        out,
        ",\"requests\":{requests},\"executed\":{executed},\"rejected\":{rejected},\"timedOut\":{cancelled}"
    )
}

// Writes what requests used.
#[tactic(auto, unfolding(crate::specs::Json::used_object))]
fn write_used<W: Write>(out: &mut W, sums: &Sums) -> io::Result<()>
    ensures { OnOk result (Appends (W.contents out.old) (W.contents out.new) (spec.used_object sums.now)) }
{
    let seat_time = sums.seat_time;
    write!(out, ",\"seatTime\":{seat_time}")
}

// Writes whether percentiles are exact.
fn write_exact<W: Write>(out: &mut W, is_exact: bool) -> io::Result<()>
    ensures { OnOk result (Appends (W.contents out.old) (W.contents out.new) (spec.exact_object is_exact)) }
{
    if is_exact {
        out.write_all(b",\"exact\":true")
    } else {
        out.write_all(b",\"exact\":false")
    }
}

// Writes how long requests waited, and ends the line.
#[tactic(auto, unfolding(crate::specs::Json::waits_object))]
fn write_waits<W: Write>(out: &mut W, figures: &Figures) -> io::Result<()>
    ensures { OnOk result (Appends (W.contents out.old) (W.contents out.new) (spec.waits_object figures.now)) }
{
    let median = figures.median;
    let high = figures.high;
    let longest = figures.sums.longest;
    writeln!(
        out,
        ",\"median\":{median},\"p99\":{high},\"longest\":{longest}}}"
    )
}

// Writes what they used, and how long they waited, and ends the line.
#[tactic(auto, unfolding(crate::specs::Json::figures_object))]
fn write_figures<W: Write>(out: &mut W, figures: &Figures) -> io::Result<()>
    ensures { OnOk result (Appends (W.contents out.old) (W.contents out.new) (spec.figures_object figures.now)) }
{
    write_used(out, &figures.sums)?;
    write_exact(out, figures.is_exact)?;
    write_waits(out, figures)
}

// Writes the nominal limit of a level.
#[tactic(auto, unfolding(crate::specs::Json::nominal_object))]
fn write_nominal<W: Write>(out: &mut W, nominal: u64) -> io::Result<()>
    ensures { OnOk result (Appends (W.contents out.old) (W.contents out.new) (spec.nominal_object nominal)) }
{
    write!(out, ",\"nominal\":{nominal}")
}

// Writes the least limit that a level had, and the greatest.
#[tactic(auto, unfolding(crate::specs::Json::range_object))]
fn write_range<W: Write>(out: &mut W, least: u32, greatest: u32) -> io::Result<()>
    ensures { OnOk result (Appends (W.contents out.old) (W.contents out.new) (spec.range_object least greatest)) }
{
    write!(out, ",\"leastLimit\":{least},\"greatestLimit\":{greatest}")
}

// Writes the limits that a level had: nothing where it is exempt.
fn write_limits<W: Write>(
    out: &mut W,
    settings: &LevelSettings,
    table: &LevelTable,
) -> io::Result<()>
    ensures { OnOk result (Appends (W.contents out.old) (W.contents out.new) (spec.limits_object settings.now table.now)) }
{
    if settings.is_exempt {
        return Ok(());
    }
    write_range(out, table.least, table.greatest)
}

// Writes how many requests the server of the log turned away.
#[tactic(auto, unfolding(crate::specs::Json::refused_object))]
fn write_refused<W: Write>(out: &mut W, turned_away: u64) -> io::Result<()>
    ensures { OnOk result (Appends (W.contents out.old) (W.contents out.new) (spec.refused_object turned_away)) }
{
    write!(out, ",\"log429s\":{turned_away}")
}

// Writes the number of a cluster.
#[tactic(auto, unfolding(crate::specs::Json::number_object))]
fn write_number<W: Write>(out: &mut W, cluster: u32) -> io::Result<()>
    ensures { OnOk result (Appends (W.contents out.old) (W.contents out.new) (spec.number_object cluster)) }
{
    write!(out, "\"cluster\":{cluster},")
}

// Writes the number of a cluster, where there are two.
fn write_cluster<W: Write>(out: &mut W, cluster: Option<u32>) -> io::Result<()>
    ensures { OnOk result (Appends (W.contents out.old) (W.contents out.new) (spec.cluster_object cluster)) }
{
    match cluster {
        Some(cluster) => write_number(out, cluster),
        None => Ok(()),
    }
}

// Writes how the object of a level begins.
#[tactic(auto, unfolding(crate::specs::Json::level_head))]
fn write_level_head<W: Write>(out: &mut W, cluster: Option<u32>) -> io::Result<()>
    ensures { OnOk result (Appends (W.contents out.old) (W.contents out.new) (spec.level_head cluster)) }
{
    out.write_all(b"{")?;
    write_cluster(out, cluster)?;
    out.write_all(b"\"level\":")
}

// Writes the object of a level, of the cluster of this number.
#[tactic(auto, unfolding(crate::specs::Json::level_object))]
fn write_level<W: Write>(
    out: &mut W,
    cluster: Option<u32>,
    level: &Level,
    table: &LevelTable,
) -> io::Result<()>
    ensures { OnOk result (Appends (W.contents out.old) (W.contents out.new) (spec.level_object cluster (level_view level.now) table.now)) }
{
    write_level_head(out, cluster)?;
    write_text(out, level.name.as_str())?;
    write_nominal(out, table.nominal)?;
    write_limits(out, &level.settings, table)?;
    write_refused(out, table.turned_away)?;
    write_counts(out, &table.table.all.sums)?;
    write_figures(out, &table.table.all)
}

// Writes the name of a schema.
#[tactic(auto, unfolding(crate::specs::Json::schema_object))]
fn write_schema<W: Write>(out: &mut W, schema: &str) -> io::Result<()>
    ensures { OnOk result (Appends (W.contents out.old) (W.contents out.new) (spec.schema_object schema.now)) }
{
    out.write_all(b",\"schema\":")?;
    write_text(out, schema)
}

// Writes what tells a flow from others of its schema.
#[tactic(auto, unfolding(crate::specs::Json::distinguisher_object))]
fn write_distinguisher<W: Write>(out: &mut W, distinguisher: &str) -> io::Result<()>
    ensures { OnOk result (Appends (W.contents out.old) (W.contents out.new) (spec.distinguisher_object distinguisher.now)) }
{
    out.write_all(b",\"distinguisher\":")?;
    write_text(out, distinguisher)
}

// Writes two names.
fn write_two_names<W: Write>(out: &mut W, names: &FlowNames) -> io::Result<()>
    ensures { OnOk result (Appends (W.contents out.old) (W.contents out.new) (spec.two_names names.now)) }
{
    write_schema(out, names.schema.as_str())?;
    write_distinguisher(out, names.distinguisher.as_str())
}

// Writes the two names of a flow, if it has some.
fn write_names<W: Write>(out: &mut W, names: &Option<FlowNames>) -> io::Result<()>
    ensures { OnOk result (Appends (W.contents out.old) (W.contents out.new) (spec.names_object names.now)) }
{
    match names {
        Some(names) => write_two_names(out, names),
        None => Ok(()),
    }
}

// Writes how the object of a flow begins.
#[tactic(auto, unfolding(crate::specs::Json::flow_head))]
fn write_flow_head<W: Write>(out: &mut W, cluster: Option<u32>) -> io::Result<()>
    ensures { OnOk result (Appends (W.contents out.old) (W.contents out.new) (spec.flow_head cluster)) }
{
    out.write_all(b"{")?;
    write_cluster(out, cluster)?;
    out.write_all(b"\"flowOf\":")
}

// Writes the object of a flow, of the cluster of this number.
#[tactic(auto, unfolding(crate::specs::Json::flow_object))]
fn write_flow<W: Write>(
    out: &mut W,
    cluster: Option<u32>,
    level: &Level,
    line: &Line,
) -> io::Result<()>
    ensures { OnOk result (Appends (W.contents out.old) (W.contents out.new) (spec.flow_object cluster (level_view level.now) line.now)) }
{
    write_flow_head(out, cluster)?;
    write_text(out, level.name.as_str())?;
    write_names(out, &line.names)?;
    write_counts(out, &line.figures.sums)?;
    write_figures(out, &line.figures)
}

// Writes the object of the flow of this number, if it is there.
fn write_numbered<W: Write>(
    out: &mut W,
    cluster: Option<u32>,
    level: &Level,
    lines: &[Line],
    flow: usize,
) -> io::Result<()>
    ensures { OnOk result (Appends (W.contents out.old) (W.contents out.new) (spec.flow_by cluster (level_view level.now) (slice_get lines.now flow))) }
{
    let Some(line) = lines.get(flow) else {
        return Ok(());
    };
    write_flow(out, cluster, level, line)
}

// Writes the object of the flow that stands there, if it is there.
fn write_flow_at<W: Write>(
    out: &mut W,
    cluster: Option<u32>,
    side: Side<'_>,
    at: FlowAt,
) -> io::Result<()>
    ensures { OnOk result (Appends (W.contents out.old) (W.contents out.new) (spec.flow_at cluster (side_view side.entry).levels (side_view side.entry).tables at)) }
{
    let Some(level) = side.levels.get(at.level) else {
        return Ok(());
    };
    let Some(table) = side.tables.get(at.level) else {
        return Ok(());
    };
    write_numbered(out, cluster, level, table.table.lines.as_slice(), at.flow)
}

// Writes the objects of the flows of these places.
fn write_places<W: Write>(out: &mut W, side: Side<'_>, places: &[FlowPlace]) -> io::Result<()>
    ensures { OnOk result (Appends (W.contents out.old) (W.contents out.new) (flat_map (spec.flow_of (side_view side.entry).levels (side_view side.entry).tables) places.now)) }
{
    for place in places {
        let at = FlowAt {
            level: place.level,
            flow: place.flow,
        };
        write_flow_at(out, None, side, at)?;
    }
    Ok(())
}

// Writes the object of the level at this place, if it is there.
fn write_at<W: Write>(
    out: &mut W,
    cluster: Option<u32>,
    side: Side<'_>,
    place: usize,
) -> io::Result<()>
    ensures { OnOk result (Appends (W.contents out.old) (W.contents out.new) (spec.level_at cluster (side_view side.entry).levels (side_view side.entry).tables place)) }
{
    let Some(level) = side.levels.get(place) else {
        return Ok(());
    };
    let Some(table) = side.tables.get(place) else {
        return Ok(());
    };
    write_level(out, cluster, level, table)
}

// Writes the objects of the levels.
fn write_levels<W: Write>(out: &mut W, cluster: Option<u32>, side: Side<'_>) -> io::Result<()>
    ensures { OnOk result (Appends (W.contents out.old) (W.contents out.new) (spec.levels_text cluster (side_view side.entry).levels (side_view side.entry).tables)) }
{
    for place in 0..side.tables.len() {
        write_at(out, cluster, side, place)?;
    }
    Ok(())
}

/// Writes for programs what the requests of each level came to: a JSON object a line for each level, and for the flow of each of
/// these places. A level or a flow that is not there has no line.
///
/// # Errors
///
/// The writer's. Then nothing is known of how much was written.
pub fn write_objects<W: Write>(
    out: &mut W,
    levels: &[Level],
    tables: &[LevelTable],
    places: &[FlowPlace],
) -> io::Result<()>
    ensures { OnOk result (Appends (W.contents out.old) (W.contents out.new) (spec.objects_text (map level_view levels.now) tables.now places.now)) }
{
    let side = Side { levels, tables };
    write_levels(out, None, side)?;
    write_places(out, side, places)
}

// Writes the object of a flow of the cluster of this number, if there is one.
fn write_side_flow<W: Write>(
    out: &mut W,
    cluster: u32,
    side: Side<'_>,
    at: Option<FlowAt>,
) -> io::Result<()>
    ensures { OnOk result (Appends (W.contents out.old) (W.contents out.new) (spec.side_flow cluster (side_view side.entry) at)) }
{
    match at {
        Some(at) => write_flow_at(out, Some(cluster), side, at),
        None => Ok(()),
    }
}

// Writes the objects of a pair.
fn write_pair<W: Write>(
    out: &mut W,
    first: Side<'_>,
    second: Side<'_>,
    pair: &FlowPair,
) -> io::Result<()>
    ensures { OnOk result (Appends (W.contents out.old) (W.contents out.new) (spec.pair_objects (side_view first.entry) (side_view second.entry) pair.now)) }
{
    write_side_flow(out, 1, first, pair.first)?;
    write_side_flow(out, 2, second, pair.second)
}

// Writes the objects of these pairs.
fn write_pairs<W: Write>(
    out: &mut W,
    first: Side<'_>,
    second: Side<'_>,
    pairs: &[FlowPair],
) -> io::Result<()>
    ensures { OnOk result (Appends (W.contents out.old) (W.contents out.new) (flat_map (spec.pair_objects (side_view first.entry) (side_view second.entry)) pairs.now)) }
{
    for pair in pairs {
        write_pair(out, first, second, pair)?;
    }
    Ok(())
}

/// Writes for programs what the requests of the levels of two clusters came to: a JSON object a line for each level of the first one,
/// for each level of the second one, and for each flow of these pairs. Each says of which of the two it is. A level or a flow that is
/// not there has no line.
///
/// # Errors
///
/// The writer's. Then nothing is known of how much was written.
pub fn write_both_objects<W: Write>(
    out: &mut W,
    first: Side<'_>,
    second: Side<'_>,
    pairs: &[FlowPair],
) -> io::Result<()>
    ensures { OnOk result (Appends (W.contents out.old) (W.contents out.new) (spec.both_objects (side_view first.entry) (side_view second.entry) pairs.now)) }
{
    write_levels(out, Some(1), first)?;
    write_levels(out, Some(2), second)?;
    write_pairs(out, first, second, pairs)
}
