//! Why a whole cluster, or two, are not simulated: the lines on standard error.

use crate::audits::log_fault;
use crate::cluster_logs::Names;
use crate::faults::Fault;
use crate::files::{Input, cause_of};
use crate::streaming::lane_fault;
use crate::telling::named;
use apf_changes::Scenario;
use apf_cluster::{BothFault, ClusterFault};
use apf_cluster_text::write_server_fault;
use apf_flows::write_text;
use apf_joined_reader::JoinedReader;
use apf_local::OpenFault;
use apf_objects::Cluster;
use apf_request_halves::HalvesFault;
use apf_request_lines::RequestLineFault;
use std::alloc::Global;
use std::io;
use std::io::Write;

// Writes why the level at this place was not opened.
fn write_unopened(
    line: &mut Vec<u8>,
    cluster: &Cluster,
    place: usize,
    fault: &OpenFault,
) -> io::Result<()> {
    line.write_all(b"apf: the level ")?;
    if let Some(level) = cluster.levels.get(place) {
        write_text(line, level.name.as_str())?;
    }
    writeln!(line, " is not opened: {fault}")
}

// The fault of a line that says this.
fn told(alloc: Global, cluster: &Cluster, place: usize, fault: &OpenFault) -> Fault {
    let mut line = Vec::new(alloc);
    match write_unopened(&mut line, cluster, place, fault) {
        Ok(()) => Fault::Told(line),
        Err(_) => Fault::NoMemory,
    }
}

// The fault in its own words.
fn in_words(alloc: Global, fault: &ClusterFault) -> Fault {
    let mut line = Vec::new(alloc);
    match writeln!(&mut line, "apf: {fault}") {
        Ok(()) => Fault::Told(line),
        Err(_) => Fault::NoMemory,
    }
}

// The fault of the line of this number of the server's own log.
fn server_line_fault(alloc: Global, number: u64, line: &[u8], fault: RequestLineFault) -> Fault {
    if fault == RequestLineFault::NoMemory {
        return Fault::NoMemory;
    }
    let mut text = Vec::new(alloc);
    match write_server_fault(&mut text, number, line, fault) {
        Ok(()) => Fault::Told(text),
        Err(_) => Fault::NoMemory,
    }
}

// The fault of the server's own log of this name.
fn server_log_fault(alloc: Global, name: &str, reader: &JoinedReader, fault: HalvesFault) -> Fault {
    match fault {
        HalvesFault::Line(number, fault) => {
            let line = match reader.lines() {
                Some(lines) => lines.line(),
                None => &[],
            };
            server_line_fault(alloc, number, line, fault)
        }
        HalvesFault::CannotRead(error) => named(
            alloc,
            name,
            Fault::CannotRead(Input::ServerLog, cause_of(&error)),
        ),
        HalvesFault::NoMemory => Fault::NoMemory,
    }
}

/// The fault of logs of these names that were not simulated, and that this reader has read.
pub(crate) fn fault_of(
    alloc: Global,
    cluster: &Cluster,
    names: Names<'_>,
    reader: &JoinedReader,
    fault: ClusterFault,
) -> Fault {
    match fault {
        ClusterFault::Read(fault) => log_fault(alloc, names.log, reader.audit().line(), fault),
        ClusterFault::Lines(fault) => {
            server_log_fault(alloc, names.server_log.unwrap_or(""), reader, fault)
        }
        ClusterFault::Open(place, fault) => told(alloc, cluster, place, &fault),
        ClusterFault::Level(fault) => lane_fault(fault),
        ClusterFault::Misread(_) | ClusterFault::Untimely => in_words(alloc, &fault),
        ClusterFault::TooMany => Fault::TooMany,
        ClusterFault::NoMemory => Fault::NoMemory,
    }
}

// The line of a fault, with words that say that it is of the second cluster.
fn line_of_second(alloc: Global, fault: &Fault) -> io::Result<Vec<u8>> {
    let mut said = Vec::new(alloc);
    fault.write(&mut said)?;
    let mut line = Vec::new(alloc);
    line.write_all(b"apf: on the second cluster: ")?;
    line.write_all(
        said.as_slice()
            .strip_prefix(b"apf: ".as_slice())
            .unwrap_or(said.as_slice()),
    )?;
    Ok(line)
}

// The fault of what runs on the second cluster.
fn of_second(alloc: Global, fault: Fault) -> Fault {
    if fault == Fault::NoMemory {
        return Fault::NoMemory;
    }
    match line_of_second(alloc, &fault) {
        Ok(line) => Fault::Told(line),
        Err(_) => Fault::NoMemory,
    }
}

/// The fault of logs that were not simulated on two clusters.
pub(crate) fn fault_of_both(
    alloc: Global,
    cluster: &Cluster,
    scenario: &Scenario,
    names: Names<'_>,
    reader: &JoinedReader,
    fault: BothFault,
) -> Fault {
    let BothFault { is_second, fault } = fault;
    if is_second {
        let fault = fault_of(alloc, &scenario.cluster, names, reader, fault);
        return of_second(alloc, fault);
    }
    fault_of(alloc, cluster, names, reader, fault)
}

/// The fault of a level that is not there.
pub(crate) fn no_level(alloc: Global, name: &str) -> Fault {
    let mut line = Vec::new(alloc);
    let written = line
        .write_all(b"apf: there is no level ")
        .and_then(|()| write_text(&mut line, name))
        .and_then(|()| line.write_all(b"\n"));
    match written {
        Ok(()) => Fault::Told(line),
        Err(_) => Fault::NoMemory,
    }
}
