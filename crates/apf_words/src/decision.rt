//! The decision on a request.

ghost use Rattle.std.specs.Prelude.{◌≡◌, ◌≤◌, ◌↔◌, IsSome, IfSome, Some};
ghost use Rattle.apf_words.specs.Codes.{code_of};

/// The word of a request that is not decided.
pub const UNDECIDED: u64 = 0;

/// What was decided of a request, once and for ever.
///
/// Its code in a decision word is 1 to 5 in the order below, and 0 stands for undecided.
#[derive(Clone, Copy, Debug, PartialEq, Eq)]
pub enum Decision {
    /// It executes.
    Execute,
    /// It is rejected, as the queue that it had to enter was full.
    QueueFull,
    /// It is rejected, as the level was closed before it came.
    Closed,
    /// It is cancelled.
    Cancelled,
    /// It is rejected, as it did not fit a level that has no queues.
    ConcurrencyLimit,
}

impl Decision {
    ghost use Rattle.apf_words.specs.declared.decision.Decision.{Decision};

    /// The code in a decision word, 1 to 5.
    pub fn code(self) -> u64
        ensures { result ≡ code_of self }
    {
        match self {
            Decision::Execute => 1,
            Decision::QueueFull => 2,
            Decision::Closed => 3,
            Decision::Cancelled => 4,
            Decision::ConcurrencyLimit => 5,
        }
    }

    /// The decision with this code, or `None` exactly at 0 and above 5.
    pub fn of_code(code: u64) -> Option<Decision>
        ensures some { IsSome result ↔ ((1 ≤ code) × (code ≤ 5)) }
        ensures value { IfSome result (λ d. code_of d ≡ code) }

        // What `code` gave comes back.
        ensures round_trip { (d : Decision) → code ≡ code_of d → result ≡ Some d }
    {
        match code {
            1 => Some(Decision::Execute),
            2 => Some(Decision::QueueFull),
            3 => Some(Decision::Closed),
            4 => Some(Decision::Cancelled),
            5 => Some(Decision::ConcurrencyLimit),
            _ => None,
        }
    }
}
