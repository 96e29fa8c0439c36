//! What the queues refuse.

ghost use Rattle.std.specs.Prelude.{◌≡◌, Some, codes};
ghost use Rattle.apf_queue.specs.declared.fault.QueueFault.TheVariants.{NoMemory};
ghost use Rattle.apf_queue.specs.Faults.{queue_fault_number};

use std::alloc::AllocError;
use std::error::Error;
use std::fmt;

/// Why queues could not be made.
#[derive(Clone, Copy, Debug, PartialEq, Eq)]
pub enum QueueFault {
    /// 1: the number of queues, the length limit or the number of requests is out of range.
    BadShape,
    /// 3: there was no memory.
    NoMemory,
}

impl QueueFault {
    /// The fault's number: 1 for a bad shape, 3 for out of memory. Number 2 is unused.
    pub fn number(self) -> u8
        ensures { result ≡ queue_fault_number self }
    {
        match self {
            QueueFault::BadShape => 1,
            QueueFault::NoMemory => 3,
        }
    }
}

impl fmt::Display for QueueFault {
    ghost use Rattle.apf_queue.specs.Faults.{queue_fault_text};

    ghost output = { λ fault. Some (queue_fault_text fault) };

    fn fmt<W: fmt::Write>(&self, f: &mut fmt::Formatter<W>) -> fmt::Result {
        f.write_str(match self {
            QueueFault::BadShape => "bad shape",
            QueueFault::NoMemory => "out of memory",
        })
    }
}

impl Error for QueueFault {}

impl From<AllocError> for QueueFault {
    ghost from_gives = { λ _ fault. fault ≡ NoMemory };

    fn from(_error: AllocError) -> Self {
        Self::NoMemory
    }
}

/// The queue has as many requests as the length limit allows.
#[derive(Clone, Copy, Debug, PartialEq, Eq)]
pub struct Full;

impl fmt::Display for Full {
    ghost output = { λ _. Some (codes "queue full") };

    fn fmt<W: fmt::Write>(&self, f: &mut fmt::Formatter<W>) -> fmt::Result {
        f.write_str("queue full")
    }
}

impl Error for Full {}
