//! The requests of a level, as a trace.

ghost use Rattle.std.specs.Prelude.{◌≡◌, ℕ, ◌++◌, ◌∷◌, [], List, Option, Some, option_map, IfOk, OnOk, is_some};
ghost use Rattle.std.specs.Io.KnownBytes.{Appends};
ghost use Rattle.apf_audit.specs.AuditEvent.{Event, event};
ghost use Rattle.apf_joined_reader.specs.Reading.{Inputs, IsAlike, inputs};
ghost use Rattle.apf_objects.specs.Cluster.{cluster_view};
ghost use Rattle.apf_cluster.specs.Runs.{HasFed, IsFresh, choice_by};
ghost use Rattle.apf_cluster.specs.Traces as spec;

use crate::asking::{level_of, schema_at};
use crate::fault::ClusterFault;
use crate::running::start_of;
use apf_audit::{AuditFault, By, Choice, Taken, arrives_at, write_request};
use apf_joined_reader::{JoinFault, JoinedReader};
use apf_objects::Cluster;
use std::io::{Read, Write};
use thiserror::Error;

/// Why the requests of a level are not written.
#[derive(Debug, Drop, Error)]
pub enum TraceFault {
    /// The log is not read, or what it says is of no level.
    #[error("{0}")]
    Cluster(ClusterFault),
    /// The writer's fault.
    #[error("the output can't be written")]
    CannotWrite,
}

impl From<AuditFault> for TraceFault {
    fn from(fault: AuditFault) -> Self {
        Self::Cluster(ClusterFault::from(fault))
    }
}

impl From<JoinFault> for TraceFault {
    fn from(fault: JoinFault) -> Self {
        Self::Cluster(ClusterFault::from(fault))
    }
}

/// A level of a cluster, and when the first request of a log was received.
#[derive(Clone, Copy)]
struct Traced<'a> {
    cluster: &'a Cluster,
    place: usize,
    start: u64,
}

// Writes the line of the request of an event, if it is of the level.
fn write_taken<W: Write>(way: Traced<'_>, taken: &Taken, out: &mut W) -> Result<(), TraceFault>
    ensures { OnOk result (Appends (W.contents out.old) (W.contents out.new) (spec.lines_of (cluster_view way.entry.cluster.now) way.entry.place way.entry.start (event taken.now))) }
{
    let at = arrives_at(taken.received, taken.line, way.start)?;
    let Some(schema) = schema_at(way.cluster.schemas.as_slice(), taken.schema) else {
        return Err(TraceFault::Cluster(ClusterFault::Misread(taken.line)));
    };
    let Some(place) = level_of(way.cluster, schema) else {
        return Err(TraceFault::Cluster(ClusterFault::Misread(taken.line)));
    };
    if place != way.place {
        return Ok(());
    }
    let Ok(()) = write_request(schema.name.as_str(), taken, at, out) else {
        return Err(TraceFault::CannotWrite);
    };
    Ok(())
}

// Writes the line of the request of an event, if it is of the level, and reads the next one.
fn write_turn<R: Read, S: Read, W: Write>(
    way: Traced<'_>,
    choice: &Choice<'_>,
    taken: Taken,
    reader: &mut JoinedReader,
    input: &mut R,
    lines: &mut S,
    out: &mut W,
) -> Result<Option<Taken>, TraceFault>
    ensures fed { IfOk result (λ next. (was : Inputs) (told : List Event) → HasFed choice.now was (inputs (R.remaining input.old) (S.remaining lines.old)) told (Some (event taken)) reader.old
        → HasFed choice.now was (inputs (R.remaining input.new) (S.remaining lines.new)) (told ++ event taken ∷ []) (option_map event next) reader.new) }
    ensures written { OnOk result (Appends (W.contents out.old) (W.contents out.new) (spec.lines_of (cluster_view way.entry.cluster.now) way.entry.place way.entry.start (event taken))) }
    ensures alike { IsAlike reader.old reader.new }
{
    write_taken(way, &taken, out)?;
    Ok(reader.next(choice, input, lines)?)
}

/// Writes the requests of an audit log that are of the level at this place of a cluster, as a trace: a line for each, in the order
/// of the arrivals, which are counted from the first request of the whole log. The reader has read nothing.
///
/// # Errors
///
/// The log's first fault, or that of the input, behind the lines of the requests before it; `CannotWrite`.
pub fn write_trace<R: Read, S: Read, W: Write>(
    cluster: &Cluster,
    place: usize,
    reader: &mut JoinedReader,
    input: &mut R,
    lines: &mut S,
    out: &mut W,
) -> Result<(), TraceFault>
    ensures { OnOk result (IsFresh reader.old
        → spec.HasWrittenTrace (choice_by cluster.entry) (cluster_view cluster.now) place (reader.old.reader.window.size) (is_some reader.old.halves) (inputs (R.remaining input.old) (S.remaining lines.old)) (inputs (R.remaining input.new) (S.remaining lines.new)) reader.new (W.contents out.old) (W.contents out.new)) }
{
    let choice = Choice {
        by: By::Schema(cluster),
        user: None,
        since: None,
        until: None,
    };
    let mut next = reader.next(&choice, input, lines)?;
    let way = Traced {
        cluster,
        place,
        start: start_of(&next),
    };
    'requests: for _ in 0..u64::MAX {
        match next {
            Some(taken) => {
                next = write_turn(way, &choice, taken, reader, input, lines, out)?;
            }
            None => return Ok(()),
        }
    }
    Err(TraceFault::Cluster(ClusterFault::TooMany))
}
