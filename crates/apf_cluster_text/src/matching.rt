//! The schema of a request.

ghost use Rattle.apf_objects.specs.Cluster.{HasCatchAll};

use apf_flow::{Dealer, flow_hash};
use apf_flows::{write_escaped, write_text};
use apf_matching::{Miss, Request, distinguisher_of, miss_of, schema_for};
use apf_objects::{Cluster, Queuing, Schema};
use std::io;
use std::io::Write;

// The first thing that did not match, in words.
fn miss_word(miss: Miss) -> &'static str {
    match miss {
        Miss::Subject => "subject",
        Miss::NoRule | Miss::Rules => "rules",
        Miss::Verb => "verb",
        Miss::ApiGroup => "API group",
        Miss::Resource => "resource",
        Miss::Namespace => "namespace",
        Miss::Path => "path",
    }
}

// Writes why a request is of none of these schemas.
fn write_misses<W: Write>(
    out: &mut W,
    request: &Request<'_>,
    schemas: &[Schema],
) -> io::Result<()> {
    for schema in schemas {
        if let Some(miss) = miss_of(request, schema) {
            out.write_all(b"not ")?;
            write_escaped(out, schema.name.as_str())?;
            let word = miss_word(miss);
            writeln!(out, ": {word}")?;
        }
    }
    Ok(())
}

// The queues of a level, where it has some.
fn queuing_of(cluster: &Cluster, name: &str) -> Option<Queuing> {
    for level in cluster.levels.as_slice() {
        if level.name.as_str() == name {
            return level.settings.queuing;
        }
    }
    None
}

// Writes the queues of a flow's hand. A hand that can't be dealt is not written.
fn write_hand<W: Write>(out: &mut W, queuing: Queuing, hash: u64) -> io::Result<()> {
    let Ok(dealer) = Dealer::new(queuing.queues, queuing.hand_size) else {
        return Ok(());
    };
    out.write_all(b" hand")?;
    for card in dealer.deal(hash).as_slice() {
        write!(out, " {card}")?;
    }
    Ok(())
}

// Writes the line of the schema that a request is of.
fn write_schema<W: Write>(
    out: &mut W,
    cluster: &Cluster,
    request: &Request<'_>,
    schema: &Schema,
) -> io::Result<()> {
    let distinguisher = distinguisher_of(request, schema);
    let hash = flow_hash(schema.name.as_str(), distinguisher);
    out.write_all(b"schema ")?;
    write_escaped(out, schema.name.as_str())?;
    out.write_all(b" level ")?;
    write_escaped(out, schema.level.as_str())?;
    write!(out, " hash {hash:016x} of ")?;
    write_text(out, distinguisher)?;
    if let Some(queuing) = queuing_of(cluster, schema.level.as_str()) {
        write_hand(out, queuing, hash)?;
    }
    out.write_all(b"\n")
}

/// Writes which schema a request is of, below a line for each schema that comes before it.
///
/// # Errors
///
/// The writer's. Then nothing is known of how much was written.
pub fn write_match<W: Write>(
    out: &mut W,
    cluster: &Cluster,
    request: &Request<'_>,
) -> io::Result<()>
    requires { HasCatchAll cluster.now }
{
    let place = schema_for(request, cluster);
    let schemas = cluster.schemas.as_slice();
    write_misses(out, request, &schemas[..place])?;
    write_schema(out, cluster, request, &schemas[place])
}
