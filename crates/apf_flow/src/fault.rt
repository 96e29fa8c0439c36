//! Why a dealer's sizes are refused.

ghost use Rattle.std.specs.Prelude.{◌≡◌, Some};

use std::error::Error;
use std::fmt;

/// Why a deck and a hand are refused, in the order of testing.
#[derive(Clone, Copy, Debug, PartialEq, Eq)]
pub enum DealerFault {
    /// The deck or the hand has no card.
    NotPositive = 1,
    /// The hand has more cards than the deck.
    HandTooLarge = 2,
    /// The deck has more than 2^26 cards.
    DeckTooLarge = 3,
    /// `deck ^ hand`, over whole numbers, is above 2^60.
    TooMuchEntropy = 4,
}

impl DealerFault {
    ghost use Rattle.apf_flow.specs.Fault.{dealer_fault_number};

    /// The fault's number, 1 to 4, in the order of testing.
    pub fn number(self) -> u8
        ensures { result ≡ dealer_fault_number self }
    {
        self as u8
    }
}

impl fmt::Display for DealerFault {
    ghost use Rattle.apf_flow.specs.Fault.{text_of};

    ghost output = { λ fault. Some (text_of fault) };

    fn fmt<W: fmt::Write>(&self, f: &mut fmt::Formatter<W>) -> fmt::Result {
        f.write_str(match self {
            DealerFault::NotPositive => "not positive",
            DealerFault::HandTooLarge => "hand too large",
            DealerFault::DeckTooLarge => "deck too large",
            DealerFault::TooMuchEntropy => "too much entropy",
        })
    }
}

impl Error for DealerFault {}
