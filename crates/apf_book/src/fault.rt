//! Why a book is refused.

ghost use Rattle.std.specs.Prelude.{◌≡◌};
ghost use Rattle.apf_book.specs.declared.fault.BookFault.TheVariants.{NoMemory};

use apf_flow::DealerFault;
use apf_queue::QueueFault;
use std::alloc::AllocError;
use std::error::Error;
use std::fmt;

/// Why a book could not be made.
#[derive(Clone, Copy, Debug, PartialEq, Eq)]
pub enum BookFault {
    /// The number of queues and the size of a hand make no dealer.
    Dealer(DealerFault),
    /// The number of queues, their length limit or the number of requests is out of range.
    Queues(QueueFault),
    /// There was no memory.
    NoMemory,
}

impl fmt::Display for BookFault {
    fn fmt<W: fmt::Write>(&self, f: &mut fmt::Formatter<W>) -> fmt::Result {
        match self {
            BookFault::Dealer(fault) => write!(f, "{fault}"),
            BookFault::Queues(fault) => write!(f, "{fault}"),
            BookFault::NoMemory => f.write_str("out of memory"),
        }
    }
}

impl Error for BookFault {}

impl From<AllocError> for BookFault {
    ghost from_gives = { λ _ fault. fault ≡ NoMemory };

    fn from(_error: AllocError) -> Self {
        Self::NoMemory
    }
}
