//! Why a trace is refused.

ghost use Rattle.std.specs.Prelude.{◌≡◌};
ghost use Rattle.apf_traces.specs.TraceFaults.{trace_fault_number, line_of};

use thiserror::Error;

/// Why a trace was refused: the first fault, with its line, counted from 1.
///
/// Lines are judged from the first to the last, each by the faults in the order of their numbers.
#[derive(Clone, Copy, Debug, PartialEq, Eq, Error)]
pub enum TraceFault {
    /// 1: the line's number is above the most lines of a trace: 10,001 for `read_trace`.
    #[error("too many lines")]
    TooMany(u64),
    /// 2: the line has more than 65,536 bytes. Its LF does not count.
    #[error("line too long")]
    TooLong(u64),
    /// 3: the line is no JSON text in UTF-8.
    #[error("not JSON")]
    NotUtf8Json(u64),
    /// 4: the value is no object.
    #[error("not an object")]
    NotObject(u64),
    /// 5: the object has a key that requests of a trace do not have.
    #[error("unknown key")]
    UnknownKey(u64),
    /// 6: `arrivesAt` is not a whole number from 0 to 1,000,000,000,000, or it is absent.
    #[error("bad arrivesAt")]
    BadArrival(u64),
    /// 7: `runsFor` is not a whole number from 0 to 10,000,000,000, or it is absent.
    #[error("bad runsFor")]
    BadRun(u64),
    /// 8: there is neither `hash` alone, a number of 64 bits, nor both `schema` and `distinguisher` alone, two texts.
    #[error("bad flow")]
    BadFlow(u64),
    /// 9: `width` is not a whole number from 1 to 20,000.
    #[error("bad width")]
    BadWidth(u64),
    /// 10: `cost` is not a whole number from 1 to 4,294,967,295.
    #[error("bad cost")]
    BadCost(u64),
    /// 11: the line is not ended by LF.
    #[error("truncated")]
    Truncated(u64),
    /// 12: memory was refused.
    #[error("out of memory")]
    NoMemory,
    /// 13: the line's request arrives before what was handed out: more than 131,072 requests of the lines before it
    /// arrive later.
    #[error("arrives more than 131072 requests late")]
    TooLate(u64),
}

impl TraceFault {
    /// The fault's number, 1 to 13.
    pub fn number(&self) -> u8
        ensures { result ≡ trace_fault_number self.now }
    {
        match self {
            TraceFault::TooMany(_) => 1,
            TraceFault::TooLong(_) => 2,
            TraceFault::NotUtf8Json(_) => 3,
            TraceFault::NotObject(_) => 4,
            TraceFault::UnknownKey(_) => 5,
            TraceFault::BadArrival(_) => 6,
            TraceFault::BadRun(_) => 7,
            TraceFault::BadFlow(_) => 8,
            TraceFault::BadWidth(_) => 9,
            TraceFault::BadCost(_) => 10,
            TraceFault::Truncated(_) => 11,
            TraceFault::TooLate(_) => 13,
            TraceFault::NoMemory => 12,
        }
    }

    /// The line of the fault, counted from 1. Out of memory has none.
    pub fn line(&self) -> Option<u64>
        ensures { result ≡ line_of self.now }
    {
        match *self {
            TraceFault::TooMany(line)
            | TraceFault::TooLong(line)
            | TraceFault::NotUtf8Json(line)
            | TraceFault::NotObject(line)
            | TraceFault::UnknownKey(line)
            | TraceFault::BadArrival(line)
            | TraceFault::BadRun(line)
            | TraceFault::BadFlow(line)
            | TraceFault::BadWidth(line)
            | TraceFault::BadCost(line)
            | TraceFault::Truncated(line)
            | TraceFault::TooLate(line) => Some(line),
            TraceFault::NoMemory => None,
        }
    }
}
