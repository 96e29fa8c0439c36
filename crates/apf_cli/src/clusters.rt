//! The commands on the objects of a cluster.

ghost use Rattle.std.specs.Prelude.{◌≡◌, ◌≤◌, IfOk, Ok, vec_len};
ghost use Rattle.apf_files.specs.JsonFile.{value_in, value_of};
ghost use Rattle.apf_matching.specs.Limits.{max_seats};
ghost use Rattle.apf_objects.specs.Cluster.{HasCatchAll, IsClusterOf, cluster_view, most_levels};
ghost use Rattle.apf_cli.specs.Clusters.{AreObjectsOf};

use crate::faults::Fault;
use crate::files::{Files, Input, cause_of, judge_names, open_input, read_input, shown};
use crate::telling::{audit_line_fault, named};
use apf_audit::AuditFault;
use apf_cluster_text::{
    LogFault, LogLines, write_cluster, write_log, write_match, write_object_fault,
};
use apf_commands::Asked;
use apf_explain::{explain_objects, explain_other};
use apf_files::{Parsed, parse};
use apf_matching::{Request, Target};
use apf_objects::{Cluster, ObjectFault, judge_objects};
use std::alloc::Global;
use std::io::Write;

// Writes where the objects of this name, which were parsed as this, stop to be JSON, and why.
fn write_stop(
    alloc: Global,
    name: &str,
    bytes: &[u8],
    parsed: &Parsed,
    line: &mut Vec<u8>,
) -> Result<(), Fault>
    requires { value_in parsed.now ≡ value_of bytes.now }
{
    let name = shown(alloc, name)?;
    explain_objects(alloc, name.as_str(), bytes, parsed, line).map_err(|_| Fault::NoMemory)
}

// Writes what the value is that stands in the place of the objects of this name, if that is known.
fn write_other(
    alloc: Global,
    name: &str,
    parsed: &Parsed,
    line: &mut Vec<u8>,
) -> Result<(), Fault> {
    let name = shown(alloc, name)?;
    explain_other(name.as_str(), parsed.value(), line).map_err(|_| Fault::NoMemory)
}

// The fault of the objects of this name, which were parsed as this, with the line that says it. Where they are no JSON, one more
// says where they stop to be, and why; where they are another file that is known, one more says which.
fn objects_fault(
    alloc: Global,
    name: &str,
    bytes: &[u8],
    parsed: &Parsed,
    fault: &ObjectFault,
) -> Fault
    requires { value_in parsed.now ≡ value_of bytes.now }
{
    let mut line = Vec::new(alloc);
    if *fault == ObjectFault::NoMemory || write_object_fault(&mut line, parsed, fault).is_err() {
        return Fault::NoMemory;
    }
    let written = match *fault {
        ObjectFault::NotJson => write_stop(alloc, name, bytes, parsed, &mut line),
        ObjectFault::NoObjects => write_other(alloc, name, parsed, &mut line),
        _ => Ok(()),
    };
    match written {
        Ok(()) => Fault::Told(line),
        Err(_) => Fault::NoMemory,
    }
}

// Objects that were read: the bytes of their file, and what these are as JSON.
#[derive(Drop)]
struct Objects {
    bytes: Vec<u8>,
    parsed: Parsed,
}

// Reads the objects of this name.
fn read_objects<F: Files>(alloc: Global, files: &mut F, name: &str) -> Result<Objects, Fault>
    ensures parsed { IfOk result (λ objects. value_in objects.parsed ≡ value_of objects.bytes.items) }
    ensures held { IfOk result (λ objects. F.holds name.now objects.bytes.items) }
{
    let bytes = match read_input(files, Input::Objects, name) {
        Ok(bytes) => bytes,
        Err(fault) => return Err(named(alloc, name, fault)),
    };
    let parsed = parse(alloc, bytes.as_slice())?;
    Ok(Objects { bytes, parsed })
}

// The cluster of the objects of this name.
fn cluster_of(alloc: Global, name: &str, objects: &Objects) -> Result<Cluster, Fault>
    requires { value_in objects.now.parsed ≡ value_of objects.now.bytes.items }
    ensures read { IfOk result (λ cluster. IsClusterOf objects.now.bytes.items (Ok (cluster_view cluster))) }
    ensures catch_all { IfOk result HasCatchAll }
    ensures few { IfOk result (λ cluster. vec_len cluster.levels ≤ most_levels) }
{
    match judge_objects(alloc, &objects.parsed) {
        Ok(cluster) => Ok(cluster),
        Err(fault) => {
            let bytes = objects.bytes.as_slice();
            Err(objects_fault(alloc, name, bytes, &objects.parsed, &fault))
        }
    }
}

/// Reads the objects.
pub(crate) fn read_cluster<F: Files>(
    alloc: Global,
    files: &mut F,
    name: &str,
) -> Result<Cluster, Fault>
    ensures read { IfOk result (λ cluster. AreObjectsOf F.holds name.now (cluster_view cluster)) }
    ensures catch_all { IfOk result HasCatchAll }
    ensures few { IfOk result (λ cluster. vec_len cluster.levels ≤ most_levels) }
{
    let objects = read_objects(alloc, files, name)?;
    cluster_of(alloc, name, &objects)
}

// The fault with one line more, which says that it is of the objects of this name.
fn against_fault(alloc: Global, name: &str, fault: Fault) -> Fault {
    let Fault::Told(mut lines) = fault else {
        return fault;
    };
    let name = match shown(alloc, name) {
        Ok(name) => name,
        Err(fault) => return fault,
    };
    match writeln!(
        &mut lines,
        "apf: these are the objects of --against: {name}"
    ) {
        Ok(()) => Fault::Told(lines),
        Err(_) => Fault::NoMemory,
    }
}

/// Reads the objects of a second cluster. A fault of theirs has a line more, which says so.
pub(crate) fn read_other<F: Files>(
    alloc: Global,
    files: &mut F,
    name: &str,
) -> Result<Cluster, Fault>
    ensures read { IfOk result (λ cluster. AreObjectsOf F.holds name.now (cluster_view cluster)) }
    ensures catch_all { IfOk result HasCatchAll }
    ensures few { IfOk result (λ cluster. vec_len cluster.levels ≤ most_levels) }
{
    let objects = read_objects(alloc, files, name)?;
    match cluster_of(alloc, name, &objects) {
        Ok(cluster) => Ok(cluster),
        Err(fault) => Err(against_fault(alloc, name, fault)),
    }
}

/// Reads the objects, and makes the same cluster of them twice.
pub(crate) fn read_twice<F: Files>(
    alloc: Global,
    files: &mut F,
    name: &str,
) -> Result<(Cluster, Cluster), Fault>
    ensures read { IfOk result (λ clusters. AreObjectsOf F.holds name.now (cluster_view clusters.0)) }
    ensures same { IfOk result (λ clusters. cluster_view clusters.1 ≡ cluster_view clusters.0) }
    ensures few { IfOk result (λ clusters. vec_len clusters.0.levels ≤ most_levels) }
    ensures catch_all_too { IfOk result (λ clusters. HasCatchAll clusters.1) }
    ensures few_too { IfOk result (λ clusters. vec_len clusters.1.levels ≤ most_levels) }
{
    let objects = read_objects(alloc, files, name)?;
    let first = cluster_of(alloc, name, &objects)?;
    let second = cluster_of(alloc, name, &objects)?;
    Ok((first, second))
}

/// Prints the levels and schemas of the objects of this name, where the server has this many seats.
pub(crate) fn print_cluster<F: Files, O: Write>(
    alloc: Global,
    files: &mut F,
    name: &str,
    seats: u32,
    out: &mut O,
) -> Result<(), Fault>
    requires { seats ≤ max_seats }
{
    let cluster = read_cluster(alloc, files, name)?;
    write_cluster(out, &cluster, seats).map_err(|_| Fault::CannotWrite)
}

// What the request of a command line asks for.
fn target_of<'a>(asked: &Asked<'a>) -> Result<Target<'a>, Fault> {
    match (asked.resource, asked.path) {
        (Some(resource), None) => Ok(Target::Resource {
            api_group: asked.api_group.unwrap_or(""),
            resource,
            namespace: asked.namespace.unwrap_or(""),
        }),
        (None, Some(path)) if asked.api_group.is_none() && asked.namespace.is_none() => {
            Ok(Target::Path(path))
        }
        _ => Err(Fault::NoRequest),
    }
}

// Whether an option says something of a request.
fn says_request(asked: &Asked<'_>) -> bool {
    asked.user.is_some()
        || !asked.groups.is_empty()
        || asked.verb.is_some()
        || asked.resource.is_some()
        || asked.api_group.is_some()
        || asked.namespace.is_some()
        || asked.path.is_some()
}

// Prints the schema of the one request that is asked for.
fn print_match<F: Files, O: Write>(
    alloc: Global,
    files: &mut F,
    objects: &str,
    asked: &Asked<'_>,
    out: &mut O,
) -> Result<(), Fault> {
    let (Some(user), Some(verb)) = (asked.user, asked.verb) else {
        return Err(Fault::NoRequest);
    };
    let target = target_of(asked)?;
    let cluster = read_cluster(alloc, files, objects)?;
    let request = Request {
        user,
        groups: asked.groups.as_slice(),
        verb,
        target,
    };
    write_match(out, &cluster, &request).map_err(|_| Fault::CannotWrite)
}

// The fault of the audit log of this name, where the line that was found last has these bytes.
fn log_fault(alloc: Global, name: &str, line: &[u8], fault: LogFault) -> Fault {
    match fault {
        LogFault::TooLong(number) => audit_line_fault(alloc, line, AuditFault::TooLong(number)),
        LogFault::NotJson(number) => audit_line_fault(alloc, line, AuditFault::NotUtf8Json(number)),
        LogFault::NotEvent(number) => audit_line_fault(alloc, line, AuditFault::NotEvent(number)),
        LogFault::BadUser(number) => audit_line_fault(alloc, line, AuditFault::BadUser(number)),
        LogFault::NoMemory => Fault::NoMemory,
        LogFault::CannotRead(error) => {
            let cause = cause_of(&error);
            named(alloc, name, Fault::CannotRead(Input::AuditLog, cause))
        }
        LogFault::CannotWrite => Fault::CannotWrite,
    }
}

// Prints the schema of each request of an audit log, which is read in pieces, so that it may have any length.
fn print_log<F: Files, O: Write>(
    alloc: Global,
    files: &mut F,
    names: (&str, &str),
    out: &mut O,
) -> Result<(), Fault> {
    judge_names(&[names.0, names.1])?;
    let cluster = read_cluster(alloc, files, names.0)?;
    let mut input = match open_input(files, Input::AuditLog, names.1) {
        Ok(input) => input,
        Err(fault) => return Err(named(alloc, names.1, fault)),
    };
    let mut log = LogLines::new(alloc)?;
    match write_log(alloc, out, &cluster, &mut log, &mut input) {
        Ok(()) => Ok(()),
        Err(fault) => Err(log_fault(alloc, names.1, log.line(), fault)),
    }
}

/// Prints the schema of the request that is asked for, or of each request of an audit log.
///
/// # Errors
///
/// `NoRequest` and `RequestAndLog` if the options don't go together; then the faults of the objects, and of the log.
pub(crate) fn print_matches<F: Files, O: Write>(
    alloc: Global,
    files: &mut F,
    objects: &str,
    asked: &Asked<'_>,
    out: &mut O,
) -> Result<(), Fault> {
    match asked.log {
        None => print_match(alloc, files, objects, asked, out),
        Some(_) if says_request(asked) => Err(Fault::RequestAndLog),
        Some(log) => print_log(alloc, files, (objects, log), out),
    }
}
