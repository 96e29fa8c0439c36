//! What a server's own log says of the requests of an audit log.

ghost use Rattle.std.specs.Prelude.{◌≡◌, OnOk};
ghost use Rattle.std.specs.List.{flat_map};
ghost use Rattle.std.specs.Io.KnownBytes.{Appends};
ghost use Rattle.apf_cluster_text.specs.ServerLines as spec;

use crate::said::write_said;
use apf_flows::write_text;
use apf_joined_reader::{Counts, Differs};
use apf_objects::Schema;
use std::io;
use std::io::Write;

// Writes of how many requests the seats are known.
#[tactic(auto, unfolding(crate::specs::ServerLines::seats_text))]
fn write_seats<W: Write>(out: &mut W, joined: u64, requests: u64) -> io::Result<()>
    ensures { OnOk result (Appends (W.contents out.old) (W.contents out.new) (spec.seats_text joined requests)) }
{
    write!(
        out,
        "\nin the server's log: how many seats {joined} of {requests} requests take (here the others take one)\n"
    )
}

// Writes of how many requests the run is known.
#[tactic(auto, unfolding(crate::specs::ServerLines::runs_text))]
fn write_runs<W: Write>(out: &mut W, timed: u64) -> io::Result<()>
    ensures { OnOk result (Appends (W.contents out.old) (W.contents out.new) (spec.runs_text timed)) }
{
    write!(
        out,
        "in the server's log: how long {timed} requests ran there (here the others run as long as in the audit log)\n"
    )
}

// Of how many requests the schema is known, and no more than can be counted.
fn named_of(agreed: u64, differ: u64) -> u64
    ensures { result ≡ spec.named_of agreed differ }
{
    agreed.saturating_add(differ)
}

// Writes of how many requests the schema is known.
#[tactic(auto, unfolding(crate::specs::ServerLines::named_text))]
fn write_named<W: Write>(out: &mut W, named: u64) -> io::Result<()>
    ensures { OnOk result (Appends (W.contents out.old) (W.contents out.new) (spec.named_text named)) }
{
    write!(out, "in the server's log: the schema of {named} requests")
}

// Writes of how many it is the same, and of how many another one.
#[tactic(auto, unfolding(crate::specs::ServerLines::compared_text))]
fn write_compared<W: Write>(out: &mut W, agreed: u64, differ: u64) -> io::Result<()>
    ensures { OnOk result (Appends (W.contents out.old) (W.contents out.new) (spec.compared_text agreed differ)) }
{
    write!(
        out,
        " (here {agreed} have the same one, and {differ} another)\n"
    )
}

// Writes of how many requests the schema is known, and of how many it is the same.
#[tactic(auto, unfolding(crate::specs::ServerLines::schemas_text))]
fn write_schemas<W: Write>(out: &mut W, agreed: u64, differ: u64) -> io::Result<()>
    ensures { OnOk result (Appends (W.contents out.old) (W.contents out.new) (spec.schemas_text agreed differ)) }
{
    write_named(out, named_of(agreed, differ))?;
    write_compared(out, agreed, differ)
}

// The name of the schema at this place, or the empty text where there is none.
fn name_at(schemas: &[Schema], place: Option<usize>) -> &str
    ensures { result.now ≡ spec.name_at schemas.now place }
{
    let Some(place) = place else {
        return "";
    };
    match schemas.get(place) {
        Some(schema) => schema.name.as_str(),
        None => "",
    }
}

// Writes how the line of a request begins whose schema is another one.
#[tactic(auto, unfolding(crate::specs::ServerLines::differs_head))]
fn write_differs_head<W: Write>(out: &mut W, line: u64) -> io::Result<()>
    ensures { OnOk result (Appends (W.contents out.old) (W.contents out.new) (spec.differs_head line)) }
{
    write!(out, "line {line} of the audit log: the schema is ")
}

// Writes the name of its schema here.
#[tactic(auto, unfolding(crate::specs::ServerLines::here_text))]
fn write_here<W: Write>(out: &mut W, ours: &str) -> io::Result<()>
    ensures { OnOk result (Appends (W.contents out.old) (W.contents out.new) (spec.here_text ours.now)) }
{
    write_text(out, ours)?;
    out.write_all(b" here, and ")
}

// Writes the name that the server's own log has.
#[tactic(auto, unfolding(crate::specs::ServerLines::there_text))]
fn write_there<W: Write>(out: &mut W, said: &[u8]) -> io::Result<()>
    ensures { OnOk result (Appends (W.contents out.old) (W.contents out.new) (spec.there_text said.now)) }
{
    write_said(out, said)?;
    out.write_all(b" in the server's log\n")
}

// Writes the name of its schema here, and the one that the server's own log has.
fn write_both_names<W: Write>(out: &mut W, ours: &str, said: &[u8]) -> io::Result<()>
    ensures { OnOk result (Appends (W.contents out.old) (W.contents out.new) (spec.both_names ours.now said.now)) }
{
    write_here(out, ours)?;
    write_there(out, said)
}

// Writes the line of a request whose schema is another one.
#[tactic(auto, unfolding(crate::specs::ServerLines::differs_text))]
fn write_differs<W: Write>(out: &mut W, schemas: &[Schema], differs: &Differs) -> io::Result<()>
    ensures { OnOk result (Appends (W.contents out.old) (W.contents out.new) (spec.differs_text schemas.now differs.now)) }
{
    write_differs_head(out, differs.line)?;
    let ours = name_at(schemas, differs.schema);
    write_both_names(out, ours, differs.said.as_slice())
}

// Writes the lines of these requests, whose schemas are others.
fn write_all_differ<W: Write>(out: &mut W, schemas: &[Schema], first: &[Differs]) -> io::Result<()>
    ensures { OnOk result (Appends (W.contents out.old) (W.contents out.new) (flat_map (spec.differs_text schemas.now) first.now)) }
{
    for differs in first {
        write_differs(out, schemas, differs)?;
    }
    Ok(())
}

/// Writes for people what the server's own log says of the requests of an audit log, a line each: of how many it says the seats, the
/// run and the schema, and of the first two whose schema here is another one which it is. The places of the schemas are those in the
/// cluster.
///
/// # Errors
///
/// The writer's. Then nothing is known of how much was written.
#[tactic(auto, unfolding(crate::specs::ServerLines::server_text))]
pub(crate) fn write_server_lines<W: Write>(
    out: &mut W,
    schemas: &[Schema],
    counts: &Counts,
) -> io::Result<()>
    ensures { OnOk result (Appends (W.contents out.old) (W.contents out.new) (spec.server_text schemas.now counts.now)) }
{
    write_seats(out, counts.joined, counts.requests)?;
    write_runs(out, counts.timed)?;
    write_schemas(out, counts.agreed, counts.differ)?;
    write_all_differ(out, schemas, counts.first.as_slice())
}

/// Writes the same for programs, as a JSON object on a line of its own, without the requests whose schema is another one.
///
/// # Errors
///
/// The writer's. Then nothing is known of how much was written.
#[tactic(auto, unfolding(crate::specs::ServerLines::server_object))]
pub fn write_server_object<W: Write>(out: &mut W, counts: &Counts) -> io::Result<()>
    ensures { OnOk result (Appends (W.contents out.old) (W.contents out.new) (spec.server_object counts.now)) }
{
    let requests = counts.requests;
    let joined = counts.joined;
    let timed = counts.timed;
    let agreed = counts.agreed;
    let differ = counts.differ;
    writeln!(
        out,
        "{{\"serverLog\":{{\"requests\":{requests},\"joined\":{joined},\"timed\":{timed},\"agreed\":{agreed},\"differ\":{differ}}}}}"
    )
}
