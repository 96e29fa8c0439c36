//! How many requests have a line of the server's own, and for how many the line names the same schema.

ghost use Rattle.std.specs.Prelude.{◌≡◌, if◌then◌else◌, option_map, OnOk, bytes_eq};
ghost use Rattle.apf_audit.specs.AuditEvent.{event};
ghost use Rattle.apf_request_lines.specs.Lines.{request};
ghost use Rattle.apf_joined_reader.specs.Counts as spec;

use apf_audit::{By, Taken};
use apf_objects::Schema;
use apf_request_lines::RequestLine;
use std::alloc::{AllocError, Global};

/// How many requests are kept whose line names another schema.
const FIRST: usize = 2;

/// A request whose line names another schema.
#[derive(Debug, Drop)]
pub struct Differs {
    /// The line of its audit event, counted from 1.
    pub line: u64,
    /// The place of its schema.
    pub schema: Option<usize>,
    /// The name of the schema that its line has, as the server had it.
    pub said: Vec<u8>,
}

/// How many requests have a line of the server's own, and for how many the line names the same schema.
#[derive(Debug, Drop)]
pub struct Counts {
    /// How many requests were handed out.
    pub requests: u64,
    /// Of how many a line was found: these have their seats from it.
    pub joined: u64,
    /// How many have their run from it: those that were not turned away, and whose line says it.
    pub timed: u64,
    /// Of how many the line names the same schema.
    pub agreed: u64,
    /// Of how many the line names another schema.
    pub differ: u64,
    /// The first two of these.
    pub first: Vec<Differs>,
}

// The name of the schema at this place of these, if there is one.
fn name_in(schemas: &[Schema], place: Option<usize>) -> Option<&str>
    ensures { option_map (λ name. name.now) result ≡ spec.name_in schemas.now place }
{
    match schemas.get(place?) {
        Some(schema) => Some(schema.name.as_str()),
        None => None,
    }
}

/// The name of the schema at this place, where schemas make the flows.
pub(crate) fn name_by<'a>(by: By<'a>, place: Option<usize>) -> Option<&'a str>
    ensures { option_map (λ name. name.now) result ≡ spec.name_by by.entry place }
{
    match by {
        By::User | By::Namespace => None,
        By::Schema(cluster) | By::Schemas(cluster, _) => {
            name_in(cluster.schemas.as_slice(), place)
        }
    }
}

// Whether the run is the line's: of a request that was not turned away, whose line says it.
fn is_timed(taken: &Taken, line: &RequestLine) -> bool
    ensures { result ≡ spec.is_timed (event taken.now) (request line.now) }
{
    !taken.turned_away && line.runs_for.is_some()
}

// One more, and no more than can be counted.
fn up(count: u64) -> u64
    ensures { result ≡ spec.up count }
{
    count.saturating_add(1)
}

// One more if it holds.
fn up_if(holds: bool, count: u64) -> u64
    ensures { result ≡ (if holds then spec.up count else count) }
{
    if holds { up(count) } else { count }
}

impl Counts {
    /// Nothing is counted yet.
    pub(crate) fn new(alloc: Global) -> Counts
        ensures { spec.counts_said result ≡ spec.no_counts }
    {
        Counts {
            requests: 0,
            joined: 0,
            timed: 0,
            agreed: 0,
            differ: 0,
            first: Vec::new(alloc),
        }
    }

    // One more, whose line names this schema, where its own has this name.
    fn compare(&mut self, ours: &str, taken: &Taken, said: Vec<u8>) -> Result<(), AllocError>
        ensures { OnOk result (spec.counts_said self.new ≡ spec.counts_named (bytes_eq ours.now said.items) said.items (event taken.now) (spec.counts_said self.old)) }
    {
        if ours.as_bytes() == said.as_slice() {
            self.agreed = up(self.agreed);
            return Ok(());
        }
        self.differ = up(self.differ);
        if self.first.len() < FIRST {
            self.first.push(Differs {
                line: taken.line,
                schema: taken.schema,
                said,
            })?;
        }
        Ok(())
    }

    /// One more was handed out.
    pub(crate) fn add_request(&mut self)
        ensures { spec.counts_said self.new ≡ record (spec.counts_said self.old) { requests = spec.up (spec.counts_said self.old).requests } }
    {
        self.requests = up(self.requests);
    }

    /// A request, of a schema of this name, of which this line was found.
    ///
    /// # Errors
    ///
    /// `AllocError` if memory was refused.
    pub(crate) fn add_line(
        &mut self,
        ours: Option<&str>,
        taken: &Taken,
        line: RequestLine,
    ) -> Result<(), AllocError>
        ensures { OnOk result (spec.counts_said self.new ≡ spec.counts_with (option_map (λ name. name.now) ours.entry) (event taken.now) (request line) (spec.counts_said self.old)) }
    {
        self.joined = up(self.joined);
        self.timed = up_if(is_timed(taken, &line), self.timed);
        match (ours, line.schema) {
            (Some(ours), Some(said)) => self.compare(ours, taken, said),
            _ => Ok(()),
        }
    }
}
