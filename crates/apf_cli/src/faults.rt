//! Why the program ends with another status than 0, and the line that says so.

ghost use Rattle.std.specs.Prelude.{◌≤◌};

use crate::files::{Cause, Input};
use apf_flow::DealerFault;
use apf_hands::HandsFault;
use apf_local::OpenFault;
use apf_run::{
    ConfigFault, LevelFault, ReplayFault, RequestFault, RunFault, ScriptFault, WriteFault,
};
use std::alloc::AllocError;
use std::io::Write;
use std::{fmt, io};

/// Where a dealer's sizes come from.
#[derive(Clone, Copy, Debug, PartialEq, Eq)]
pub enum Sizes {
    OfCommandLine,
    OfConfig,
}

/// A bound of the instants at which chosen requests were received.
#[derive(Clone, Copy, Debug, PartialEq, Eq)]
pub enum Bound {
    Since,
    Until,
}

impl fmt::Display for Bound {
    fn fmt<W: fmt::Write>(&self, f: &mut fmt::Formatter<W>) -> fmt::Result {
        f.write_str(match self {
            Bound::Since => "--since",
            Bound::Until => "--until",
        })
    }
}

/// An edge of the stretch of a run that is drawn, or counted.
#[derive(Clone, Copy, Debug, PartialEq, Eq)]
pub enum Edge {
    From,
    To,
    WarmUp,
}

impl fmt::Display for Edge {
    fn fmt<W: fmt::Write>(&self, f: &mut fmt::Formatter<W>) -> fmt::Result {
        f.write_str(match self {
            Edge::From => "--from",
            Edge::To => "--to",
            Edge::WarmUp => "--warm-up",
        })
    }
}

/// Why a command did not end well.
#[derive(Debug, PartialEq, Eq, Drop)]
pub enum Fault {
    /// A deck and a hand that can't be dealt, and who gave them.
    Dealer(DealerFault, Sizes),
    Config(ConfigFault),
    Requests(RequestFault),
    Script(ScriptFault),
    /// A file's fault, with the whole line that says it.
    Told(Vec<u8>),
    /// The name of the flow schema is longer than a trace can hold.
    LongSchema,
    /// The patience is no time, or more than 1,000 seconds.
    BadPatience,
    /// What makes a flow is neither `user` nor `namespace`.
    BadBy,
    /// What requests are charged is neither `time` nor `seats`.
    BadCharge,
    /// Both sides of the bound are asked for where requests are charged their seats.
    BoundOfSeats,
    /// The bound of the choice is no instant from 1970 on.
    BadInstant(Bound),
    /// The edge of what is drawn or counted is no time, or more than 200,000,000 seconds.
    BadTime(Edge),
    /// What is drawn would end before it begins.
    EndsBefore,
    /// The options say no request: a user and a verb are missing, or there is not one of a resource and a path.
    NoRequest,
    /// A request and an audit log are both named.
    RequestAndLog,
    /// A level is named and no trace is asked for, or the other way round.
    LevelAndTrace,
    /// The trace of a level is asked for, and a second cluster too.
    TraceOfTwo,
    /// The trace of a level is asked for, and what only a simulation has.
    TraceAlone,
    /// A picture is to be written to standard output, which has what is printed.
    PictureOnOutput,
    /// A change of a second cluster is refused, with the whole line that says it.
    Change(Vec<u8>),
    /// The level was not opened, for another cause than the dealer's. What the readers accept has none.
    Level(ReplayFault),
    /// In a simulation nothing is due any more, and a request still waits. It has never been seen.
    StillWaits,
    /// At the end of a simulation the level's book has other numbers than its flows. It has never been seen.
    OtherBook,
    /// At the arrival of the request of this line of a trace, at this time in microseconds, too many are there at once.
    Crowded(u64, u64),
    /// A request of a simulation would finish later than anything is carried out.
    TooFar,
    /// A simulation has more requests than can be counted.
    TooMany,
    /// A simulation has more requests than a script, or a picture, may have.
    TooManyListed,
    /// A stretch of a simulation has more requests than a picture may have.
    TooManyDrawn,
    CannotRead(Input, Cause),
    /// The file has more bytes than it may have, and begins with these.
    TooLarge(Input, Vec<u8>),
    /// The output would have more bytes than the program reads of such a file.
    Unreadable(Input),
    /// The commands of `serve` were not read.
    CannotReadCommands,
    /// Two files are to be read from standard input.
    TwoInputs,
    /// The config of `serve` is to be read from standard input, which has the commands.
    CommandsOnInput,
    CannotWrite,
    /// The worker of this number could not be started.
    Worker(u32),
    NoMemory,
}

impl Fault {
    /// The program's status: 1 a file's fault, or output that can't be written; 2 a command line's
    /// fault; 3 out of memory, or a worker that could not be started.
    pub fn status(&self) -> u8
        ensures { 1 ≤ result }
    {
        match self {
            Fault::Dealer(_, Sizes::OfCommandLine)
            | Fault::TwoInputs
            | Fault::CommandsOnInput
            | Fault::LongSchema
            | Fault::BadPatience
            | Fault::BadBy
            | Fault::BadCharge
            | Fault::BoundOfSeats
            | Fault::NoRequest
            | Fault::RequestAndLog
            | Fault::LevelAndTrace
            | Fault::TraceOfTwo
            | Fault::TraceAlone
            | Fault::PictureOnOutput
            | Fault::Change(_)
            | Fault::BadTime(_)
            | Fault::EndsBefore
            | Fault::BadInstant(_) => 2,
            Fault::Worker(_) | Fault::NoMemory => 3,
            Fault::Dealer(_, Sizes::OfConfig)
            | Fault::Config(_)
            | Fault::Requests(_)
            | Fault::Script(_)
            | Fault::Told(_)
            | Fault::Level(_)
            | Fault::StillWaits
            | Fault::OtherBook
            | Fault::Crowded(_, _)
            | Fault::TooFar
            | Fault::TooMany
            | Fault::TooManyListed
            | Fault::TooManyDrawn
            | Fault::CannotRead(_, _)
            | Fault::CannotReadCommands
            | Fault::TooLarge(_, _)
            | Fault::Unreadable(_)
            | Fault::CannotWrite => 1,
        }
    }

    /// Writes the line of the fault.
    pub fn write<E: Write>(&self, err: &mut E) -> io::Result<()> {
        match self {
            Fault::Told(line) | Fault::Change(line) => err.write_all(line.as_slice()),
            _ => writeln!(err, "{self}"),
        }
    }
}

impl From<ConfigFault> for Fault {
    fn from(fault: ConfigFault) -> Fault {
        match fault {
            ConfigFault::NoMemory => Fault::NoMemory,
            _ => Fault::Config(fault),
        }
    }
}

impl From<RequestFault> for Fault {
    fn from(fault: RequestFault) -> Fault {
        match fault {
            RequestFault::NoMemory => Fault::NoMemory,
            _ => Fault::Requests(fault),
        }
    }
}

impl From<ScriptFault> for Fault {
    fn from(fault: ScriptFault) -> Fault {
        match fault {
            ScriptFault::NoMemory => Fault::NoMemory,
            _ => Fault::Script(fault),
        }
    }
}

impl From<HandsFault> for Fault {
    fn from(fault: HandsFault) -> Fault {
        match fault {
            HandsFault::Dealer(fault) => Fault::Dealer(fault, Sizes::OfConfig),
            HandsFault::NoMemory => Fault::NoMemory,
            HandsFault::CannotWrite => Fault::CannotWrite,
        }
    }
}

impl From<ReplayFault> for Fault {
    fn from(fault: ReplayFault) -> Fault {
        match fault {
            ReplayFault::Level(LevelFault::Dealer(fault)) => Fault::Dealer(fault, Sizes::OfConfig),
            ReplayFault::NoMemory => Fault::NoMemory,
            _ => Fault::Level(fault),
        }
    }
}

impl From<RunFault> for Fault {
    fn from(fault: RunFault) -> Fault {
        match fault {
            RunFault::NoMemory => Fault::NoMemory,
            RunFault::Worker(number) => Fault::Worker(number),
            RunFault::Gate(fault) => ReplayFault::Gate(fault).into(),
            RunFault::Level(fault) => ReplayFault::Level(fault).into(),
        }
    }
}

impl From<AllocError> for Fault {
    fn from(_refused: AllocError) -> Fault {
        Fault::NoMemory
    }
}

impl From<WriteFault> for Fault {
    fn from(_fault: WriteFault) -> Fault {
        Fault::CannotWrite
    }
}

// A fault of a file without its place.
fn write_fault<W: fmt::Write, T: fmt::Display>(
    f: &mut fmt::Formatter<W>,
    file: &str,
    number: u8,
    fault: &T,
) -> fmt::Result {
    write!(f, "apf: {file} fault {number}: {fault}")
}

// A fault of a file with its line, where it has one.
fn write_line_fault<W: fmt::Write, L: fmt::Display + Drop, T: fmt::Display>(
    f: &mut fmt::Formatter<W>,
    file: &str,
    number: u8,
    line: Option<L>,
    fault: &T,
) -> fmt::Result {
    match line {
        Some(line) => write!(f, "apf: {file} fault {number} at line {line}: {fault}"),
        None => write_fault(f, file, number, fault),
    }
}

// A fault of the requests with the number of its request, where it has one.
fn write_request_fault<W: fmt::Write>(
    f: &mut fmt::Formatter<W>,
    fault: &RequestFault,
) -> fmt::Result {
    let number = fault.number();
    match fault.request() {
        Some(request) => write!(f, "apf: requests fault {number} at {request}: {fault}"),
        None => write_fault(f, "requests", number, fault),
    }
}

impl fmt::Display for Fault {
    fn fmt<W: fmt::Write>(&self, f: &mut fmt::Formatter<W>) -> fmt::Result {
        match self {
            Fault::Dealer(fault, _) => write_fault(f, "dealer", fault.number(), fault),
            Fault::Config(fault) => write_fault(f, "config", fault.number(), fault),
            Fault::Requests(fault) => write_request_fault(f, fault),
            Fault::Script(fault) => write_line_fault(
                f,
                "script",
                fault.number(),
                fault.line(),
                fault,
            ),
            // its line stands already
            Fault::Told(_) | Fault::Change(_) => Ok(()),
            Fault::LongSchema => f.write_str("apf: SCHEMA is longer than 4096 bytes"),
            Fault::BadPatience => f.write_str(
                "apf: PATIENCE must be a number with m, s, ms or us behind it, as 1.5s, or a whole number of microseconds: at most 1000000000 microseconds",
            ),
            Fault::BadBy => f.write_str("apf: --by must be user or namespace"),
            Fault::BadCharge => f.write_str("apf: --charge must be time or seats"),
            Fault::BoundOfSeats => {
                f.write_str("apf: --bound is of measured time: requests must be charged time")
            }
            Fault::BadInstant(bound) => write!(
                f,
                "apf: {bound} must be an instant from 1970 on, as 2026-01-31T12:00:00Z"
            ),
            Fault::BadTime(edge) => write!(
                f,
                "apf: {edge} must be a number with m, s, ms or us behind it, as 1.5s, or a whole number of microseconds: at most 200000000 seconds"
            ),
            Fault::EndsBefore => f.write_str("apf: --to is before --from"),
            Fault::NoRequest => f.write_str(
                "apf: a request needs --user, --verb and one of --resource and --path, and --api-group and --namespace go with --resource",
            ),
            Fault::RequestAndLog => f.write_str("apf: --log goes with no other option"),
            Fault::LevelAndTrace => f.write_str("apf: --level and --trace go together"),
            Fault::TraceOfTwo => f.write_str(
                "apf: --trace is of one cluster: it goes with neither --set nor --against",
            ),
            Fault::TraceAlone => f.write_str(
                "apf: --trace simulates nothing: it goes with neither --warm-up nor --picture",
            ),
            Fault::PictureOnOutput => {
                f.write_str("apf: --picture must name a file, since standard output has the lines")
            }
            Fault::Level(fault) => write!(f, "apf: the level can't be opened: {fault}"),
            Fault::StillWaits => f.write_str("apf: a request still waits, and no seat is taken"),
            Fault::OtherBook => {
                f.write_str("apf: the level's book has other numbers than its flows")
            }
            Fault::Crowded(line, at) => write!(
                f,
                "apf: at line {line}, at {at}, more than 10000 requests are there at once"
            ),
            Fault::TooFar => {
                f.write_str("apf: a request would finish after 200000000 seconds, the latest time")
            }
            Fault::TooMany => f.write_str("apf: there are more requests than can be counted"),
            Fault::TooManyListed => f.write_str(
                "apf: there are more than 10000 requests: simulate, compare and fates take any number",
            ),
            Fault::TooManyDrawn => f.write_str(
                "apf: there are more than 10000 requests between --from and --to: draw less",
            ),
            Fault::CannotRead(input, _) => write!(f, "apf: cannot read {input}"),
            Fault::TooLarge(input, _) => {
                let most = input.most();
                write!(f, "apf: {input} too large: more than {most} bytes")
            }
            Fault::Unreadable(input) => {
                let most = input.most();
                write!(
                    f,
                    "apf: the {input} would be too large: more than {most} bytes"
                )
            }
            Fault::CannotReadCommands => f.write_str("apf: cannot read standard input"),
            Fault::TwoInputs => f.write_str("apf: standard input is named twice"),
            Fault::CommandsOnInput => {
                f.write_str("apf: CONFIG must be a file: the commands come from standard input")
            }
            Fault::CannotWrite => f.write_str("apf: cannot write"),
            Fault::Worker(number) => write!(f, "apf: worker {number} could not start"),
            Fault::NoMemory => f.write_str("apf: out of memory"),
        }
    }
}
