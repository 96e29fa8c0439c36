//! Which events are taken, and what is taken of one.

ghost use Rattle.std.specs.Prelude.{◌≡◌, ◌≢◌, ◌≤◌, IfOk, IfErr, IfSome, Some, None, Ok, Err, option_map, option_and_then, codes, length, false, string_bytes};
ghost use Rattle.serde_json.specs.Find.{get};
ghost use Rattle.apf_times.specs.Limits.{max_run};
ghost use Rattle.apf_values.specs.Views.{data_of};
ghost use Rattle.apf_audit.specs.AuditEvent as spec;

use crate::choice::{By, Choice, within};
use crate::fault::AuditFault;
use crate::times::{read_instant, run_of, wait_of};
use apf_objects::{Cluster, Distinguisher};
use apf_routing::schema_of_event;
use apf_values::Node;
use std::alloc::Global;

/// The most bytes of the name of a user or a namespace: such a name fits a line of a trace, whatever has to be escaped.
pub const MAX_NAME: usize = 4096;

/// The most bytes of an id that is kept. A server gives ids of 36 bytes.
pub const MAX_ID: usize = 64;

// The seats of a request: an audit log does not say how many.
const WIDTH: u32 = 1;

const QUEUE_WAIT: &str = "apiserver.latency.k8s.io/apf-queue-wait";

/// What a request is by the schemas of a second cluster.
#[derive(Debug, PartialEq, Eq, Drop)]
pub struct Beside {
    /// The name of the user whose request it is.
    pub user: String,
    /// The place of its schema.
    pub schema: Option<usize>,
    /// The name of its flow: of the user, or the namespace; or the empty text where nothing makes a flow within the schema.
    pub distinguisher: String,
}

/// The request that is taken of an event.
#[derive(Debug, PartialEq, Eq, Drop)]
pub struct Taken {
    /// The line of its event, counted from 1.
    pub line: u64,
    /// The event's `auditID`, where that is a text of at most 64 bytes. A server names the request by it in its own log too.
    pub audit_id: Option<String>,
    /// When the server received it, in microseconds from 1970 on.
    pub received: u64,
    /// Whether the server turned it away, so that it did not run.
    pub turned_away: bool,
    /// How long it ran once it had its seats, in microseconds, 0 to 10,000,000,000; 0 if it was turned away.
    pub runs_for: u64,
    /// How many seats it takes, 1 to 20,000: 1, as an audit log does not say it, until a line of the server's own log does.
    pub width: u32,
    /// The place of its schema, where a schema makes a flow.
    pub schema: Option<usize>,
    /// The name of its flow: of the user who made the request, or the namespace; or the empty text where nothing makes a flow within
    /// a schema.
    pub distinguisher: String,
    /// What it is by the schemas of a second cluster, where there is one.
    pub beside: Option<Beside>,
}

/// What a line of a log gives.
#[derive(Debug, PartialEq, Eq, Drop)]
pub enum Outcome {
    /// A request that is chosen.
    Chosen(Taken),
    /// Nothing: its event is taken, but has no name of a user, as that of a failed login.
    Unnamed,
    /// Nothing: its event is not taken or not chosen.
    LeftOut,
    /// Nothing: no LF ends the line, it begins as an event does, and is no JSON text, so it is still written.
    Unfinished,
}

// The text at a key of the object at another, if there is one.
#[tactic(auto, unfolding(crate::specs::AuditEvent::text_within))]
fn text_within<'a>(value: &Node<'a>, outer: &str, inner: &str) -> Option<&'a str>
    ensures { option_map (λ text. text.now) result ≡ spec.text_within outer.now inner.now (data_of value.now) }
{
    value.get(outer)?.text_at(inner)
}

// What stands at a key of the object at another, if there is one.
fn found_within<'a>(value: &Node<'a>, outer: &str, inner: &str) -> Option<Node<'a>>
    ensures { option_map (λ found. data_of found) result ≡ option_and_then (get inner.now) (get outer.now (data_of value.now)) }
{
    value.get(outer)?.get(inner)
}

// A request for such a subresource is a connection that lasts.
#[tactic(auto, unfolding(crate::specs::AuditEvent::is_lasting))]
fn is_lasting(subresource: &str) -> bool
    ensures { result ≡ spec.is_lasting subresource.now }
{
    subresource == "exec"
        || subresource == "attach"
        || subresource == "portforward"
        || subresource == "proxy"
        || subresource == "log"
}

// Whether an event is taken, or none where the value is no event.
#[tactic(auto, unfolding(crate::specs::AuditEvent::is_taken))]
fn is_taken(value: &Node<'_>) -> Option<bool>
    ensures { result ≡ spec.is_taken (data_of value.now) }
{
    let stage = value.text_at("stage")?;
    let verb = value.text_at("verb")?;
    let lasts = match text_within(value, "objectRef", "subresource") {
        Some(subresource) => is_lasting(subresource),
        None => false,
    };
    Some(stage == "ResponseComplete" && verb != "watch" && !lasts)
}

// The name of whose request it is: of the user who is impersonated, if the event has one.
fn name_of<'a>(value: &Node<'a>) -> Option<&'a str>
    ensures { option_map (λ text. text.now) result ≡ spec.name_by (data_of value.now) (get (codes "impersonatedUser") (data_of value.now)) }
{
    match value.get("impersonatedUser") {
        Some(impersonated) => impersonated.text_at("username"),
        None => text_within(value, "user", "username"),
    }
}

// The text, if it has no more bytes than this.
fn short(most: usize, text: &str) -> Option<&str>
    ensures value { option_map (λ text. text.now) result ≡ spec.short most text.now }
    ensures short { IfSome result (λ text. length text.now ≤ most) }
{
    if text.len() > most {
        return None;
    }
    Some(text)
}

// The id by which the server names the request, if it is one that is kept.
#[tactic(auto, unfolding(crate::specs::AuditEvent::id_of))]
fn id_of<'a>(value: &Node<'a>) -> Option<&'a str>
    ensures value { option_map (λ text. text.now) result ≡ spec.id_of (data_of value.now) }
    ensures short { IfSome result (λ id. length id.now ≤ spec.max_id) }
{
    short(MAX_ID, value.text_at("auditID")?)
}

// The value that stands where the event has the name of its user, if there is one.
fn name_found<'a>(value: &Node<'a>) -> Option<Node<'a>>
    ensures { option_map (λ found. data_of found) result ≡ spec.name_found (data_of value.now) (get (codes "impersonatedUser") (data_of value.now)) }
{
    match value.get("impersonatedUser") {
        Some(impersonated) => impersonated.get("username"),
        None => found_within(value, "user", "username"),
    }
}

// The event has no name of a user.
#[tactic(auto, unfolding(crate::specs::AuditEvent::is_unnamed))]
fn is_unnamed(value: &Node<'_>) -> bool
    ensures { result ≡ spec.is_unnamed (data_of value.now) }
{
    name_found(value).is_none()
}

// The name of the user, where a trace can have it.
#[tactic(auto, unfolding(crate::specs::AuditEvent::user_of))]
fn user_of<'a>(value: &Node<'a>) -> Option<&'a str>
    ensures value { option_map (λ text. text.now) result ≡ spec.user_of (data_of value.now) }
    ensures short { IfSome result (λ user. length user.now ≤ spec.max_name) }
{
    short(MAX_NAME, name_of(value)?)
}

// The namespace, where a trace can have it. Without one it is the empty text.
#[tactic(auto, unfolding(crate::specs::AuditEvent::namespace_of))]
fn namespace_of<'a>(value: &Node<'a>) -> Option<&'a str>
    ensures value { option_map (λ text. text.now) result ≡ spec.namespace_of (data_of value.now) }
    ensures short { IfSome result (λ name. length name.now ≤ spec.max_name) }
{
    match found_within(value, "objectRef", "namespace") {
        Some(namespace) => short(MAX_NAME, namespace.as_str()?),
        None => Some(""),
    }
}

// The place of the schema of a cluster that the request of an event of this user is of.
fn place_in(
    alloc: Global,
    cluster: &Cluster,
    user: &str,
    value: &Node<'_>,
) -> Result<Option<usize>, AuditFault>
    ensures ok { IfOk result (λ place. place ≡ spec.place_among cluster.now.schemas.items user.now (data_of value.now)) }
    ensures err { IfErr result (λ fault. fault ≡ AuditFault.NoMemory) }
{
    match schema_of_event(alloc, cluster.schemas.as_slice(), user, value) {
        Ok(place) => Ok(place),
        Err(_) => Err(AuditFault::NoMemory),
    }
}

// The place of the schema that the request of an event of this user is of, where a schema makes a flow.
fn schema_of(
    alloc: Global,
    by: By<'_>,
    user: &str,
    value: &Node<'_>,
) -> Result<Option<usize>, AuditFault>
    ensures ok { IfOk result (λ place. place ≡ spec.schema_of by.entry user.now (data_of value.now)) }
    ensures err { IfErr result (λ fault. fault ≡ AuditFault.NoMemory) }
{
    match by {
        By::User | By::Namespace => Ok(None),
        By::Schema(cluster) | By::Schemas(cluster, _) => place_in(alloc, cluster, user, value),
    }
}

// The name of the flow of an event of this user.
fn flow_of<'a>(by: Distinguisher, user: &'a str, value: &Node<'a>) -> Option<&'a str>
    requires { length user.now ≤ spec.max_name }
    ensures value { option_map (λ text. text.now) result ≡ spec.flow_of by user.entry.now (data_of value.now) }
    ensures short { IfSome result (λ name. length name.now ≤ spec.max_name) }
{
    match by {
        Distinguisher::User => Some(user),
        Distinguisher::Namespace => namespace_of(value),
        Distinguisher::Nothing => Some(""),
    }
}

// A text of its own that is the same.
fn owned(alloc: Global, text: &str) -> Result<String, AuditFault>
    ensures ok { IfOk result (λ string. string_bytes string ≡ text.now) }
    ensures err { IfErr result (λ fault. fault ≡ AuditFault.NoMemory) }
{
    match String::from_str(alloc, text) {
        Ok(string) => Ok(string),
        Err(_) => Err(AuditFault::NoMemory),
    }
}

// A text of its own that is the same, where there is one.
fn owned_if(alloc: Global, text: Option<&str>) -> Result<Option<String>, AuditFault>
    ensures ok { IfOk result (λ string. option_map string_bytes string ≡ option_map (λ text. text.now) text.entry) }
    ensures err { IfErr result (λ fault. fault ≡ AuditFault.NoMemory) }
{
    match text {
        Some(text) => Ok(Some(owned(alloc, text)?)),
        None => Ok(None),
    }
}

// What the request of the event of line `line`, of this user, is by the schemas of a cluster.
fn said_by(
    alloc: Global,
    cluster: &Cluster,
    user: &str,
    value: &Node<'_>,
    line: u64,
) -> Result<Beside, AuditFault>
    requires { length user.now ≤ spec.max_name }
    ensures ok { IfOk result (λ beside. spec.said_by cluster.now.schemas.items user.now (data_of value.now) ≡ Some (spec.beside_said beside)) }
    ensures ranges { IfOk result spec.IsBesideInRange }
    ensures err { IfErr result (λ fault. fault ≢ AuditFault.NoMemory
        → (fault ≡ AuditFault.BadNamespace line) × (spec.said_by cluster.now.schemas.items user.now (data_of value.now) ≡ None)) }
{
    let schema = place_in(alloc, cluster, user, value)?;
    let by = within(cluster, schema);
    let flow = flow_of(by, user, value).ok_or(AuditFault::BadNamespace(line))?;
    Ok(Beside {
        user: owned(alloc, user)?,
        schema,
        distinguisher: owned(alloc, flow)?,
    })
}

// What the request of the event of line `line`, of this user, is by the schemas of a second cluster, if there is one.
fn beside_of(
    alloc: Global,
    by: By<'_>,
    user: &str,
    value: &Node<'_>,
    line: u64,
) -> Result<Option<Beside>, AuditFault>
    requires { length user.now ≤ spec.max_name }
    ensures ok { IfOk result (λ beside. spec.beside_of by.entry user.now (data_of value.now) ≡ Some (option_map spec.beside_said beside)) }
    ensures ranges { IfOk result (λ beside. IfSome beside spec.IsBesideInRange) }
    ensures err { IfErr result (λ fault. fault ≢ AuditFault.NoMemory
        → (fault ≡ AuditFault.BadNamespace line) × (spec.beside_of by.entry user.now (data_of value.now) ≡ None)) }
{
    match by {
        By::User | By::Namespace | By::Schema(_) => Ok(None),
        By::Schemas(_, second) => Ok(Some(said_by(alloc, second, user, value, line)?)),
    }
}

// Whether the request was turned away: the server answered with status 429.
#[tactic(auto, unfolding(crate::specs::AuditEvent::was_turned_away))]
fn was_turned_away(value: &Node<'_>) -> bool
    ensures { result ≡ spec.was_turned_away (data_of value.now) }
{
    match found_within(value, "responseStatus", "code") {
        Some(code) => match code.as_u64() {
            Some(code) => code == 429,
            None => false,
        },
        None => false,
    }
}

// The instant at a key.
#[tactic(auto, unfolding(crate::specs::AuditEvent::instant_at))]
fn instant_at(value: &Node<'_>, key: &str) -> Option<u64>
    ensures { result ≡ spec.instant_at key.now (data_of value.now) }
{
    read_instant(value.text_at(key)?)
}

// The wait in the queue that the annotation says, and 0 where there is no such annotation.
#[tactic(auto, unfolding(crate::specs::AuditEvent::wait_at))]
fn wait_at(value: &Node<'_>) -> Option<u64>
    ensures { result ≡ spec.wait_at (data_of value.now) }
{
    match found_within(value, "annotations", QUEUE_WAIT) {
        Some(wait) => wait_of(wait.as_str()?),
        None => Some(0),
    }
}

// How long the request of an event ran that was received at this time, and 0 if it was turned away.
#[tactic(auto, unfolding(crate::specs::AuditEvent::run_at))]
fn run_at(value: &Node<'_>, line: u64, received: u64) -> Result<u64, AuditFault>
    ensures ok { IfOk result (λ run. spec.run_at line received (data_of value.now) ≡ Ok run) }
    ensures within { IfOk result (λ run. run ≤ max_run) }
    ensures err { IfErr result (λ fault. spec.run_at line received (data_of value.now) ≡ Err fault) }
{
    if was_turned_away(value) {
        return Ok(0);
    }
    let completed = instant_at(value, "stageTimestamp").ok_or(AuditFault::BadStage(line))?;
    let wait = wait_at(value).ok_or(AuditFault::BadWait(line))?;
    run_of(received, completed, wait).ok_or(AuditFault::BadRun(line))
}

// What is taken of an event of this schema and flow, with this beside them, that was received at this time.
#[tactic(auto, unfolding(crate::specs::AuditEvent::ran_at))]
fn ran_at(
    alloc: Global,
    value: &Node<'_>,
    line: u64,
    received: u64,
    schema: Option<usize>,
    flow: &str,
    beside: Option<Beside>,
) -> Result<Taken, AuditFault>
    requires name { length flow.now ≤ spec.max_name }
    requires beside { IfSome beside spec.IsBesideInRange }
    ensures ok { IfOk result (λ taken. spec.ran_at line received schema flow.now (option_map spec.beside_said beside) (data_of value.now) ≡ Ok (spec.event taken)) }
    ensures ranges { IfOk result spec.IsTakenInRange }
    ensures line { IfOk result (λ taken. taken.line ≡ line) }
    ensures err { IfErr result (λ fault. fault ≢ AuditFault.NoMemory
        → spec.ran_at line received schema flow.now (option_map spec.beside_said beside) (data_of value.now) ≡ Err fault) }
{
    let runs_for = run_at(value, line, received)?;
    let distinguisher = owned(alloc, flow)?;
    let audit_id = owned_if(alloc, id_of(value))?;
    Ok(Taken {
        line,
        audit_id,
        received,
        turned_away: was_turned_away(value),
        runs_for,
        width: WIDTH,
        schema,
        distinguisher,
        beside,
    })
}

// What the event of line `line` gives, which has a user's name.
#[tactic(auto, unfolding(crate::specs::AuditEvent::taken_of))]
fn taken_of(
    alloc: Global,
    choice: &Choice<'_>,
    value: &Node<'_>,
    line: u64,
) -> Result<Outcome, AuditFault>
    ensures ok { IfOk result (λ outcome. spec.taken_of choice.now line (data_of value.now) ≡ Ok (spec.event_in outcome)) }
    ensures named { IfOk result (λ outcome. spec.is_without_name outcome ≡ false) }
    ensures whole { IfOk result (λ outcome. spec.is_still_written outcome ≡ false) }
    ensures ranges { IfOk result spec.IsInRangeIfChosen }
    ensures line { IfOk result (spec.IsOfLine line) }
    ensures err { IfErr result (λ fault. fault ≢ AuditFault.NoMemory
        → spec.taken_of choice.now line (data_of value.now) ≡ Err fault) }
{
    let user = user_of(value).ok_or(AuditFault::BadUser(line))?;
    let schema = schema_of(alloc, choice.by, user, value)?;
    let by = choice.by.distinguisher(schema);
    let flow = flow_of(by, user, value).ok_or(AuditFault::BadNamespace(line))?;
    let beside = beside_of(alloc, choice.by, user, value, line)?;
    let received = instant_at(value, "requestReceivedTimestamp").ok_or(AuditFault::BadReceived(
        line,
    ))?;
    if !choice.has(user, received) {
        return Ok(Outcome::LeftOut);
    }
    let taken = ran_at(alloc, value, line, received, schema, flow, beside)?;
    Ok(Outcome::Chosen(taken))
}

/// What the value of line `line` gives.
#[tactic(auto, unfolding(crate::specs::AuditEvent::event_of, crate::specs::AuditEvent::is_nameless))]
pub(crate) fn event_of_value(
    alloc: Global,
    choice: &Choice<'_>,
    value: &Node<'_>,
    line: u64,
) -> Result<Outcome, AuditFault>
    ensures ok { IfOk result (λ outcome. spec.event_of choice.now line (data_of value.now) ≡ Ok (spec.event_in outcome)) }
    ensures unnamed { IfOk result (λ outcome. spec.is_nameless (data_of value.now) ≡ spec.is_without_name outcome) }
    ensures whole { IfOk result (λ outcome. spec.is_still_written outcome ≡ false) }
    ensures ranges { IfOk result spec.IsInRangeIfChosen }
    ensures line { IfOk result (spec.IsOfLine line) }
    ensures err { IfErr result (λ fault. fault ≢ AuditFault.NoMemory
        → spec.event_of choice.now line (data_of value.now) ≡ Err fault) }
{
    match is_taken(value) {
        Some(true) if is_unnamed(value) => Ok(Outcome::Unnamed),
        Some(true) => taken_of(alloc, choice, value, line),
        Some(false) => Ok(Outcome::LeftOut),
        None => Err(AuditFault::NotEvent(line)),
    }
}
