//! The next call behind a fault, behind an input that failed, and behind memory that was refused.

use crate::asserts::is;
use crate::trace_reader::calls::{Told, reads};
use apf_traces::TraceFault;
use std::io;
use std::io::{ErrorKind, Read};
use std::test::Fail;

const TRACE: &[u8] = b"{\"schema\":\"a\",\"distinguisher\":\"b\",\"arrivesAt\":2,\"runsFor\":3}
{\"hash\":1,\"arrivesAt\":1,\"runsFor\":3}
{\"schema\":\"a\",\"distinguisher\":\"c\",\"arrivesAt\":2,\"runsFor\":3}
";

const WANT: [Told; 5] = [
    Told::CannotRead,
    Told::Request(1, 2),
    Told::Request(2, 1),
    Told::Request(2, 3),
    Told::End,
];

// An input that gives at most two bytes at a time. The read behind so many others fails.
#[derive(Drop)]
struct Failing<'a> {
    left: &'a [u8],
    reads: u32,
}

impl Read for Failing<'_> {
    fn read(&mut self, buf: &mut [u8]) -> io::Result<usize> {
        if self.reads == 0 {
            self.reads = u32::MAX;
            return Err(io::Error::from(ErrorKind::Other));
        }
        self.reads -= 1;
        let count = self.left.len().min(buf.len()).min(2);
        buf[..count].copy_from_slice(&self.left[..count]);
        self.left = &self.left[count..];
        Ok(count)
    }
}

// Whichever read fails, the next call goes on, and nothing is lost.
#[test]
fn goes_on_behind_a_failed_read(rt: HostRuntime) -> Result<(), Fail> {
    for fails_behind in 0..69u32 {
        let mut input = Failing {
            left: TRACE,
            reads: fails_behind,
        };
        let _ = reads(&rt, rt.alloc(), 9, &mut input, WANT.as_slice(), false)?;
    }
    Ok(())
}

// Where memory is refused once, the next call goes on, and nothing is lost. `rt try --test --fail-alloc N` refuses it.
#[test]
fn goes_on_behind_a_refusal(rt: HostRuntime) -> Result<(), Fail> {
    let mut input = TRACE;
    let _ = reads(&rt, rt.alloc(), 9, &mut input, &WANT[1..], true)?;
    Ok(())
}

const SPOILT: &[u8] = b"{\"hash\":1,\"arrivesAt\":2,\"runsFor\":3}
[]
{\"hash\":1,\"arrivesAt\":2,\"runsFor\":3}
";

const SPOILT_AT_2: Told = Told::Fault(TraceFault::NotObject(2));

const AGAIN: [Told; 4] = [Told::Request(2, 1), SPOILT_AT_2, SPOILT_AT_2, SPOILT_AT_2];

// A fault is told again, though a good line stands behind it.
#[test]
fn a_fault_stays(rt: HostRuntime) -> Result<(), Fail> {
    let mut input = SPOILT;
    let reader = reads(&rt, rt.alloc(), 0, &mut input, AGAIN.as_slice(), false)?;
    is(&rt, reader.line(), b"[]".as_slice());
    Ok(())
}
