//! The words of a line, before its object is read.

ghost use Rattle.std.specs.Prelude.{◌≡◌};
ghost use Rattle.apf_protocol.specs.Lines.{request_in, occupancy_fault};

use crate::fault::FaultKind;

/// The words of a line: its command, with its number where it has one. Requests are numbers below the level's slots.
#[derive(Clone, Copy, Debug, PartialEq, Eq)]
pub enum Head {
    /// The request of this number arrives. An object says what it asks.
    Arrive(u32),
    /// The same, but it never waits.
    Try(u32),
    /// The request of this number gives its seats back. It ran this many microseconds, where that is said: at most 10^12.
    Finish(u32, Option<u64>),
    /// The request of this number, which executes still, has run this many microseconds so far: at most 10^12.
    Spent(u32, u64),
    /// The request of this number is cancelled.
    Cancel(u32),
    /// The level's limit becomes this one, 1 to 10,000 seats.
    Limit(u32),
    /// The level is closed.
    Close,
    /// The book is asked for.
    Book,
    /// What each queue was given is asked for.
    Queues,
    /// The level's numbers are asked for.
    Metrics,
}

impl Head {
    /// What is wrong with the line's number, where `there` says whether a request is there under it: an arrival of one
    /// that is, or the end or the time of one that is not.
    pub fn occupancy_fault(self, there: bool) -> Option<FaultKind>
        ensures { result ≡ occupancy_fault there self }
    {
        match self {
            Head::Arrive(number) | Head::Try(number) if there => Some(FaultKind::IsThere(number)),
            Head::Finish(number, _) | Head::Spent(number, _) | Head::Cancel(number) if !there => {
                Some(FaultKind::IsNotThere(number))
            }
            _ => None,
        }
    }

    /// The number of the request that the line names, if it names one.
    pub fn number(self) -> Option<u32>
        ensures { result ≡ request_in self }
    {
        match self {
            Head::Arrive(number)
            | Head::Try(number)
            | Head::Finish(number, _)
            | Head::Spent(number, _)
            | Head::Cancel(number) => { Some(number) }
            Head::Limit(_) | Head::Close | Head::Book | Head::Queues | Head::Metrics => None,
        }
    }
}
