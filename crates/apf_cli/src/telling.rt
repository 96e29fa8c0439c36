//! Lines on standard error that say of a file what is wrong with it.

ghost use Rattle.apf_cli.specs.Told.{IsTraceTold, IsAuditLineTold};

use crate::faults::Fault;
use crate::files::{Files, Input, Source, cause_of, shown};
use apf_audit::AuditFault;
use apf_explain::{explain_audit_line, explain_trace, explain_trace_line};
use apf_trace_reader::{ReadFault, TraceReader};
use apf_traces::TraceFault;
use std::alloc::{AllocError, Global};
use std::io::Read;

// How much of a file is looked at to tell what it is, where it is no trace: a config has at most 64 KiB.
const MOST_FRONT: usize = 65_537;

// The same of a file whose first line opens an object: those of a cluster have at most 8 MiB.
const MOST_FRONT_OF_OBJECT: usize = 8_388_609;

/// The fault of a trace, with the line that says what stands there and what may stand there.
pub(crate) fn trace_fault(alloc: Global, bytes: &[u8], fault: TraceFault) -> Fault
    ensures { IsTraceTold bytes.now fault result }
{
    let mut line = Vec::new(alloc);
    match explain_trace(alloc, bytes, fault, &mut line) {
        Ok(()) => Fault::Told(line),
        Err(_) => Fault::NoMemory,
    }
}

// What is known of a file whose first line is no JSON, up to 64 KiB or to 8 MiB, so that what it is can be told: that line, what is
// read behind it, and what follows. Without an LF that line is what was read.
fn front_of<F: Files>(
    alloc: Global,
    reader: &TraceReader,
    input: &mut Source<'_, F>,
) -> Result<Vec<u8>, AllocError> {
    let mut front = Vec::new(alloc);
    let mut most = MOST_FRONT;
    if !input.is_ended() {
        let line = reader.line();
        if line == b"{".as_slice() {
            most = MOST_FRONT_OF_OBJECT;
        }
        front.extend_from_slice(line)?;
        front.push(b'\n')?;
    }
    front.extend_from_slice(reader.behind())?;
    if front.len() <= most {
        let room = (most - front.len()) as u64;
        // what can't be read is no part of it
        let _ = input.take(room).read_to_end(&mut front);
    }
    Ok(front)
}

// The fault of a trace that is read in pieces, with the line that says what stands there and what may stand there. The reader
// has read from the input. Each whole line is judged before the end is reached, so that a fault at the end is of what stands
// behind the last LF.
fn trace_line_fault<F: Files>(
    alloc: Global,
    reader: &TraceReader,
    input: &mut Source<'_, F>,
    fault: TraceFault,
) -> Fault {
    if let TraceFault::TooLong(_) = fault {
        // not all of such a line is kept, so that its length is not known
        return trace_fault(alloc, &[], fault);
    }
    if fault == TraceFault::NotUtf8Json(1) {
        return match front_of(alloc, reader, input) {
            Ok(front) => trace_fault(alloc, front.as_slice(), fault),
            Err(_) => Fault::NoMemory,
        };
    }
    let line = if input.is_ended() {
        reader.behind()
    } else {
        reader.line()
    };
    let mut text = Vec::new(alloc);
    match explain_trace_line(alloc, line, fault, &mut text) {
        Ok(()) => Fault::Told(text),
        Err(_) => Fault::NoMemory,
    }
}

/// The fault of a trace of this name that is read in pieces and was not read to its end, with such a line.
pub(crate) fn unread_trace_fault<F: Files>(
    alloc: Global,
    name: &str,
    reader: &TraceReader,
    input: &mut Source<'_, F>,
    fault: ReadFault,
) -> Fault {
    match fault {
        ReadFault::Trace(fault) => trace_line_fault(alloc, reader, input, fault),
        ReadFault::CannotRead(error) => {
            let cause = cause_of(&error);
            named(alloc, name, Fault::CannotRead(Input::Trace, cause))
        }
    }
}

/// The fault of an audit log that is read in pieces, whose line has these bytes, with such a line.
pub(crate) fn audit_line_fault(alloc: Global, bytes: &[u8], fault: AuditFault) -> Fault
    ensures { IsAuditLineTold bytes.now fault result }
{
    let mut line = Vec::new(alloc);
    match explain_audit_line(alloc, bytes, fault, &mut line) {
        Ok(()) => Fault::Told(line),
        Err(_) => Fault::NoMemory,
    }
}

/// The fault of a file that was not read. Of one that the system does not let be read, its line has the name and why.
pub(crate) fn named(alloc: Global, name: &str, fault: Fault) -> Fault {
    let Fault::CannotRead(input, cause) = fault else {
        return fault;
    };
    let name = match shown(alloc, name) {
        Ok(name) => name,
        Err(fault) => return fault,
    };
    match format!(in alloc; "apf: cannot read {input}: {name}: {cause}\n") {
        Ok(line) => Fault::Told(line.into_bytes()),
        Err(_) => Fault::NoMemory,
    }
}
