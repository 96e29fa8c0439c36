//! What is printed of a simulated cluster, or of two.

use crate::cluster_runs::Simulated;
use crate::faults::Fault;
use apf_cluster_tables::{
    FlowPair, FlowPlace, LevelTable, Side, flows_in_order, pairs_in_order, write_both_objects,
    write_both_tables, write_objects, write_tables,
};
use apf_cluster_text::{write_server_object, write_unsaid};
use apf_joined_reader::Counts;
use apf_objects::{Cluster, Level, Schema};
use std::alloc::Global;
use std::io;
use std::io::Write;

/// What the server's own log says of the requests, if it is read, and the schemas of the cluster, whose places it has.
#[derive(Clone, Copy)]
pub(crate) struct Beside<'a> {
    pub(crate) schemas: &'a [Schema],
    pub(crate) counts: Option<&'a Counts>,
}

// How many requests the server of the log turned away, or as many as are counted at most.
fn turned_away_of(tables: &[LevelTable]) -> u64 {
    let mut turned_away: u64 = 0;
    for table in tables {
        turned_away = turned_away.saturating_add(table.turned_away);
    }
    turned_away
}

// Writes for people what the requests of each level came to, and what the logs say of them and don't.
fn write_lines<O: Write>(
    levels: &[Level],
    tables: &[LevelTable],
    places: &[FlowPlace],
    beside: Beside<'_>,
    out: &mut O,
) -> io::Result<()> {
    write_tables(out, levels, tables, places)?;
    write_unsaid(out, beside.schemas, beside.counts, turned_away_of(tables))
}

// Writes for programs what the server's own log says of the requests, if it is read.
fn write_beside<O: Write>(counts: Option<&Counts>, out: &mut O) -> io::Result<()> {
    match counts {
        Some(counts) => write_server_object(out, counts),
        None => Ok(()),
    }
}

// Writes for programs what the requests of each level came to, and what the server's own log says of them.
fn write_json<O: Write>(
    levels: &[Level],
    tables: &[LevelTable],
    places: &[FlowPlace],
    counts: Option<&Counts>,
    out: &mut O,
) -> io::Result<()> {
    write_objects(out, levels, tables, places)?;
    write_beside(counts, out)
}

/// Writes what the requests of each level came to.
///
/// # Errors
///
/// `CannotWrite`, or `NoMemory`.
pub(crate) fn write<O: Write>(
    alloc: Global,
    cluster: &Cluster,
    tables: &[LevelTable],
    counts: Option<&Counts>,
    way: Simulated<'_>,
    out: &mut O,
) -> Result<(), Fault> {
    let places = flows_in_order(alloc, tables)?;
    let few = places.len().min(way.flows as usize);
    let places = &places.as_slice()[..few];
    let levels = cluster.levels.as_slice();
    let written = if way.json {
        write_json(levels, tables, places, counts, out)
    } else {
        let schemas = cluster.schemas.as_slice();
        write_lines(levels, tables, places, Beside { schemas, counts }, out)
    };
    written.map_err(|_| Fault::CannotWrite)
}

// The lines for people of what the requests of each level of both came to, and of what the logs say of them and don't. They take
// memory, so they are made before one is printed.
fn both_lines(
    alloc: Global,
    first: Side<'_>,
    second: Side<'_>,
    pairs: &[FlowPair],
    beside: Beside<'_>,
) -> Result<Vec<u8>, Fault> {
    let mut lines = Vec::new(alloc);
    let away = turned_away_of(first.tables);
    if write_both_tables(alloc, &mut lines, first, second, pairs).is_err()
        || write_unsaid(&mut lines, beside.schemas, beside.counts, away).is_err()
    {
        return Err(Fault::NoMemory);
    }
    Ok(lines)
}

// Writes for programs what the requests of each level of both came to, and what the server's own log says of them.
fn write_both_json<O: Write>(
    first: Side<'_>,
    second: Side<'_>,
    pairs: &[FlowPair],
    counts: Option<&Counts>,
    out: &mut O,
) -> io::Result<()> {
    write_both_objects(out, first, second, pairs)?;
    write_beside(counts, out)
}

/// Writes what the requests of each level of both came to.
///
/// # Errors
///
/// `CannotWrite`, or `NoMemory`.
pub(crate) fn write_both<O: Write>(
    alloc: Global,
    first: Side<'_>,
    second: Side<'_>,
    beside: Beside<'_>,
    way: Simulated<'_>,
    out: &mut O,
) -> Result<(), Fault> {
    let pairs = pairs_in_order(alloc, first, second)?;
    let few = pairs.len().min(way.flows as usize);
    let pairs = &pairs.as_slice()[..few];
    let written = if way.json {
        write_both_json(first, second, pairs, beside.counts, out)
    } else {
        let lines = both_lines(alloc, first, second, pairs, beside)?;
        out.write_all(lines.as_slice())
    };
    written.map_err(|_| Fault::CannotWrite)
}
