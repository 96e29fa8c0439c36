//! Why a gate is not opened.

ghost use Rattle.std.specs.Prelude.{◌≡◌};
ghost use Rattle.apf_gate.specs.declared.fault.GateFault.TheVariants.{NoMemory};

use std::alloc::AllocError;
use std::error::Error;
use std::fmt;

/// Why a gate is not opened. The faults are tested in this order, and the first is answered.
#[derive(Clone, Copy, Debug, PartialEq, Eq)]
pub enum GateFault {
    /// The limit is not 1 to 10,000 seats.
    BadLimit,
    /// The width of this request, the first such, is not 1 to 20,000 seats.
    BadWidth(usize),
    /// There are more than 10,000 requests, or more than 64 Stations.
    TooMany,
    /// Memory was refused.
    NoMemory,
}

impl From<AllocError> for GateFault {
    ghost from_gives = { λ _ fault. fault ≡ NoMemory };

    fn from(_error: AllocError) -> Self {
        Self::NoMemory
    }
}

impl fmt::Display for GateFault {
    fn fmt<W: fmt::Write>(&self, f: &mut fmt::Formatter<W>) -> fmt::Result {
        match self {
            GateFault::BadLimit => f.write_str("bad limit"),
            GateFault::BadWidth(request) => write!(f, "bad width of request {request}"),
            GateFault::TooMany => f.write_str("too many requests or stations"),
            GateFault::NoMemory => f.write_str("out of memory"),
        }
    }
}

impl Error for GateFault {}
