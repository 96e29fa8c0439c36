//! What the tests call.

use crate::asserts::is;
use apf_trace_reader::{ReadFault, TraceReader};
use apf_traces::TraceFault;
use std::alloc::Global;
use std::io::Read;
use std::process::Abort;
use std::test::Fail;

/// What a reader answered: a request's arrival and line, the end, a fault, or that the input failed.
#[derive(Clone, Copy, Debug, PartialEq, Eq)]
pub enum Told {
    Request(u64, u64),
    End,
    Fault(TraceFault),
    CannotRead,
}

const REFUSED: Told = Told::Fault(TraceFault::NoMemory);

// What the next call answers.
fn next<R: Read>(reader: &mut TraceReader, input: &mut R) -> Told {
    match reader.next(input) {
        Ok(Some(first)) => Told::Request(first.place.arrives_at, first.place.line),
        Ok(None) => Told::End,
        Err(ReadFault::Trace(fault)) => Told::Fault(fault),
        Err(ReadFault::CannotRead(_)) => Told::CannotRead,
    }
}

/// Asserts that these are the answers of a new reader, where lines may come so many places late. Where memory is refused, and it may
/// be, the next call counts. Answers the reader.
pub fn reads<R: Read>(
    rt: &impl Abort,
    alloc: Global,
    size: usize,
    input: &mut R,
    answers: &[Told],
    may_be_refused: bool,
) -> Result<TraceReader, Fail> {
    let mut reader = TraceReader::new(alloc, size)?;
    for want in answers {
        let mut told = next(&mut reader, input);
        if may_be_refused && told == REFUSED {
            told = next(&mut reader, input);
        }
        is(rt, told, *want);
    }
    Ok(reader)
}
