//! The level word that a step leaves.
//!
//! A step that exchanges the word is handed the new one whole. One that subtracts, or sets a bit, is
//! handed a number that makes the new word of whatever word it finds.

ghost use Rattle.std.specs.Prelude.{◌≡◌, ◌+◌, ◌-◌, ◌%◌, ◌^◌, ◌<◌, ◌≤◌, bit_or, true, false};
ghost use Rattle.apf_words.specs.Level.{Level, packed, AllBelow20Bits};

use crate::level_word::{CLOSED, LIMIT, LevelWord, WAITERS};

impl LevelWord {
    /// The word of a level as it begins: open, with nobody waiting and no seat in use.
    pub fn opening(limit: u32) -> LevelWord
        requires small { limit < 2 ^ 20 }
        ensures { result ≡ record { closed = false; waiters = 0; seats = 0; limit = limit } }
    {
        LevelWord {
            word: u64::from(limit) * LIMIT,
        }
    }

    /// The word with this many seats more in use.
    pub fn with_seats(self, width: u32) -> LevelWord
        requires room { self.seats + width < 2 ^ 20 }
        ensures { result ≡ record self { seats = self.seats + width } }
    {
        LevelWord {
            word: self.word + u64::from(width),
        }
    }

    /// The word with one request more that waits.
    pub fn with_waiter(self) -> LevelWord
        requires room { self.waiters + 1 < 2 ^ 20 }
        ensures { result ≡ record self { waiters = self.waiters + 1 } }
    {
        LevelWord {
            word: self.word + WAITERS,
        }
    }

    /// The word after one of the waiting requests, of this width, was granted its seats.
    pub fn with_grant(self, width: u32) -> LevelWord
        requires waits { 1 ≤ self.waiters }
        requires room { self.seats + width < 2 ^ 20 }
        ensures { result ≡ record self { waiters = self.waiters - 1; seats = self.seats + width } }
    {
        LevelWord {
            word: self.word - WAITERS + u64::from(width),
        }
    }

    /// The word with another limit.
    pub fn with_limit(self, limit: u32) -> LevelWord
        requires small { limit < 2 ^ 20 }
        ensures { result ≡ record self { limit = limit } }
    {
        LevelWord {
            word: self.word - u64::from(self.limit()) * LIMIT + u64::from(limit) * LIMIT,
        }
    }

    /// What to subtract from a packed word so that this many seats fewer are in use.
    pub fn to_release(width: u32) -> u64
        ensures { (l : Level) → AllBelow20Bits l.waiters (l.seats + width) l.limit
            → (packed (record l { seats = l.seats + width }) + (2 ^ 64 - result)) % 2 ^ 64 ≡ packed l }
    {
        u64::from(width)
    }

    /// What to subtract from a packed word so that one request fewer waits.
    pub fn to_leave() -> u64
        ensures { (l : Level) → AllBelow20Bits (l.waiters + 1) l.seats l.limit
            → (packed (record l { waiters = l.waiters + 1 }) + (2 ^ 64 - result)) % 2 ^ 64 ≡ packed l }
    {
        WAITERS
    }

    /// The bits to set in a packed word so that the level is closed.
    pub fn to_close() -> u64
        ensures { (l : Level) → AllBelow20Bits l.waiters l.seats l.limit
            → bit_or (packed l) result ≡ packed (record l { closed = true }) }
    {
        CLOSED
    }
}
