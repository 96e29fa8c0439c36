//! What names a request.

ghost use Rattle.std.specs.Prelude.{◌≡◌, ◌<◌};
ghost use Rattle.apf_gate.specs.Slots.{slot_of, coded_width, number_of};

use std::fmt;

/// Names one request of a level for ever: its slot, how manieth of the slot it is, and its width. In a batch it is
/// the request's number.
///
/// No two requests that ever hold a slot have one ticket. It may be copied, compared, printed and kept for as long
/// as one likes: a late ticket names its own request still, and no later one of the slot.
#[derive(Clone, Copy, Debug, PartialEq, Eq)]
pub struct Ticket {
    /// The request's number. The slot is in its lowest 14 bits.
    pub number: u128,
}

impl Ticket {
    /// The ticket of a request of a batch, or of the first request of a slot.
    pub fn of(request: u32) -> Ticket
        ensures { result.number ≡ request }
    {
        Ticket {
            number: request as u128,
        }
    }

    /// The ticket of the request that comes in this round of a slot: 0 is whoever holds it first, and 1 the next one. Its
    /// width is 1 to 20,000 seats, from round 1 on.
    pub fn of_round(slot: u32, round: u64, width: u32) -> Ticket
        requires few { slot < 16384 }
        requires narrow { width < 32768 }
        ensures number { result.number ≡ number_of slot round width }
    {
        Ticket {
            number: (u128::from(round) * 32768 + u128::from(width)) * 16384 + u128::from(slot),
        }
    }

    /// The slot of the request.
    pub fn slot(self) -> u32
        ensures { result ≡ slot_of self.number }
    {
        (self.number % 16384) as u32
    }

    /// How many seats the request takes while it executes, 1 to 20,000, at a gate whose slots are used again.
    pub fn width(self) -> u32
        ensures { result ≡ coded_width self.number }
    {
        let code = (self.number / 16384 % 32768) as u32;
        code.clamp(1, 20000)
    }
}

impl fmt::Display for Ticket {
    fn fmt<W: fmt::Write>(&self, f: &mut fmt::Formatter<W>) -> fmt::Result {
        write!(f, "{}", self.number)
    }
}
