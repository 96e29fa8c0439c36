//! The levels and schemas of a cluster.

ghost use Rattle.std.specs.Prelude.{◌≤◌, map, vec_len};
ghost use Rattle.apf_matching.specs.Limits.{max_seats, sum_of_shares};
ghost use Rattle.apf_objects.specs.Levels.{level_view};

use apf_flows::write_escaped;
use apf_matching::{LevelLimits, limits_of, sum_of_shares};
use apf_objects::{Cluster, Distinguisher, Level, Schema};
use std::io;
use std::io::Write;

// Writes the line of a level with these limits.
fn write_level<W: Write>(out: &mut W, level: &Level, limits: LevelLimits) -> io::Result<()> {
    out.write_all(b"level ")?;
    write_escaped(out, level.name.as_str())?;
    let nominal = limits.nominal;
    write!(out, " nominal {nominal}")?;
    if level.settings.is_exempt {
        return out.write_all(b" exempt\n");
    }
    let least = nominal.saturating_sub(limits.lendable);
    let largest = nominal.saturating_add(limits.borrowing);
    write!(out, " limits {least}..{largest}")?;
    match level.settings.queuing {
        Some(queuing) => {
            let (queues, hand) = (queuing.queues, queuing.hand_size);
            let length = queuing.queue_length_limit;
            writeln!(out, " queues {queues} hand {hand} length {length}")
        }
        None => out.write_all(b" rejects\n"),
    }
}

// Writes the lines of the levels of a server with this many seats, where all levels have this many shares.
fn write_levels<W: Write>(out: &mut W, levels: &[Level], seats: u32, all: u64) -> io::Result<()>
    requires few { seats ≤ max_seats }
    requires most { all ≤ 4294967295000 }
    requires part { sum_of_shares (map level_view levels.now) ≤ all }
{
    let mut rest = levels;
    while let Some((level, others)) = rest.split_first() {
        let limits = limits_of(&level.settings, seats, all);
        write_level(out, level, limits)?;
        rest = others;
    }
    Ok(())
}

// What makes a flow, in a word.
fn by_word(distinguisher: Distinguisher) -> &'static str {
    match distinguisher {
        Distinguisher::Nothing => "nothing",
        Distinguisher::User => "user",
        Distinguisher::Namespace => "namespace",
    }
}

// Writes the line of a schema, with this behind it.
fn write_schema<W: Write>(out: &mut W, schema: &Schema, end: &str) -> io::Result<()> {
    out.write_all(b"schema ")?;
    write_escaped(out, schema.name.as_str())?;
    let precedence = schema.precedence;
    write!(out, " precedence {precedence} level ")?;
    write_escaped(out, schema.level.as_str())?;
    let by = by_word(schema.distinguisher);
    writeln!(out, " by {by}{end}")
}

/// Writes a line for each level of a cluster whose server has this many seats, 1 to 1,000,000, and one for each schema.
///
/// # Errors
///
/// The writer's. Then nothing is known of how much was written.
pub fn write_cluster<W: Write>(out: &mut W, cluster: &Cluster, seats: u32) -> io::Result<()>
    requires few { seats ≤ max_seats }
    requires levels { vec_len cluster.now.levels ≤ 1000 }
{
    let levels = cluster.levels.as_slice();
    let all = sum_of_shares(levels);
    write_levels(out, levels, seats, all)?;
    for schema in cluster.schemas.as_slice() {
        write_schema(out, schema, "")?;
    }
    for schema in cluster.dangling.as_slice() {
        write_schema(out, schema, " dangling")?;
    }
    Ok(())
}
