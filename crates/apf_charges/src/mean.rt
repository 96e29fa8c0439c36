//! The mean of how long requests ran.

ghost use Rattle.std.specs.Prelude.{◌≡◌, ◌≤◌, min, max};
ghost use Rattle.apf_charges.specs.Mean.{no_mean, mean_with, longest};

// A mean of more than this many is a mean of about this many of the newest.
const MOST_COUNTED: u32 = 256;

/// The mean of how long requests ran, in microseconds: of all, or of about the newest 256.
#[derive(Clone, Copy, Debug, Default, PartialEq, Eq)]
pub struct Mean {
    /// Of how many requests it is, at most 256.
    pub count: u32,
    /// How long they ran.
    pub micros: u32,
}

impl Mean {
    /// The mean of none.
    pub fn none() -> Mean
        ensures { result ≡ no_mean }
    {
        Mean {
            count: 0,
            micros: 0,
        }
    }

    /// The mean with one request more, which ran this many microseconds. It moves towards that by one part of as many as
    /// it is of then. 4,294,967,295 stands for what is longer.
    pub fn with(self, micros: u64) -> Mean
        ensures mean { result ≡ mean_with self micros }

        // What follows from it.
        ensures least { min self.micros (min micros longest) ≤ result.micros }
        ensures most { result.micros ≤ max self.micros (min micros longest) }
    {
        let count = if self.count < MOST_COUNTED {
            self.count + 1
        } else {
            MOST_COUNTED
        };
        let ran = micros.min(4_294_967_295) as u32;
        let micros = if self.micros <= ran {
            self.micros + (ran - self.micros) / count
        } else {
            self.micros - (self.micros - ran) / count
        };
        Mean { count, micros }
    }
}
