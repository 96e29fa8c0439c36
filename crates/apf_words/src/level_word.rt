//! The level word.

ghost use Rattle.std.specs.Prelude.{◌≡◌, ◌≢◌, ◌↔◌, ℕ, ◌<◌, ◌^◌, ◌/◌, ◌%◌, IsSome, IsNone, IfSome, Some, None};
ghost use Rattle.apf_words.specs.Level.{Level, packed, AllBelow20Bits};

use std::fmt;
use std::marker::Model;

/// One more than the largest number that a field of the level word holds.
pub(crate) const FIELD: u64 = 1 << 20;

/// The place of the waiters.
pub(crate) const WAITERS: u64 = 1 << 20;

/// The place of the limit.
pub(crate) const LIMIT: u64 = 1 << 40;

/// The lowest of the three bits that stay zero.
const UNUSED: u64 = 1 << 60;

/// The bit of a closed level.
pub(crate) const CLOSED: u64 = 1 << 63;

/// What a level word says: whether the level is closed, how many requests wait, how many seats are
/// in use, and the limit in seats. Each number is below 2^20.
///
/// Packed, bits 0 to 19 are the seats in use, 20 to 39 the waiters, 40 to 59 the limit, 60 to 62
/// zero, and bit 63 is set if the level is closed.
///
/// It is kept as it stands in memory, so that to pack it costs nothing.
#[derive(Clone, Copy, PartialEq, Eq)]
pub struct LevelWord {
    pub(crate) word: u64,
}

impl Model for LevelWord {
    ghost use Rattle.apf_words.specs.Level.{Level, packed, unpacked, HasUnusedZero};
    ghost use Rattle.apf_words.specs.Unpacking.{packed_unpacked};

    ghost Value = { Level };

    ghost view = { λ w. unpacked w.word };

    ghost invariant = { λ w. HasUnusedZero w.word };

    ghost inverse = { λ l. record { word = packed l } };

    ghost inverse_ok = { λ w h i. record { word = packed_unpacked w.word h i } };
}

impl fmt::Debug for LevelWord {
    fn fmt<W: fmt::Write>(&self, f: &mut fmt::Formatter<W>) -> fmt::Result {
        f.debug_struct("LevelWord")
            .field("closed", &self.closed())
            .field("waiters", &self.waiters())
            .field("seats", &self.seats())
            .field("limit", &self.limit())
            .finish()
    }
}

impl LevelWord {
    /// The level word of these four, or `None` if a number is 2^20 or more.
    pub fn new(closed: bool, waiters: u32, seats: u32, limit: u32) -> Option<LevelWord>
        ensures some { IsSome result ↔ AllBelow20Bits waiters seats limit }
        ensures value { IfSome result (λ w. w
            ≡ record { closed = closed; waiters = waiters; seats = seats; limit = limit }) }
    {
        let largest = waiters.max(seats).max(limit);
        if u64::from(largest) < FIELD {
            Some(LevelWord::of(closed, waiters, seats, limit))
        } else {
            None
        }
    }

    // The level word of these four.
    fn of(closed: bool, waiters: u32, seats: u32, limit: u32) -> LevelWord
        requires small { AllBelow20Bits waiters seats limit }
        ensures { result ≡ record { closed = closed; waiters = waiters; seats = seats; limit = limit } }
    {
        let closed = if closed { CLOSED } else { 0 };
        let limit = u64::from(limit) * LIMIT;
        let waiters = u64::from(waiters) * WAITERS;
        LevelWord {
            word: closed + limit + waiters + u64::from(seats),
        }
    }

    /// Whether the level is closed.
    pub fn closed(&self) -> bool
        ensures { result ≡ self.now.closed }
    {
        self.word / CLOSED != 0
    }

    /// How many requests wait in the queues.
    pub fn waiters(&self) -> u32
        ensures value { result ≡ self.now.waiters }
        ensures small { result < 2 ^ 20 }
    {
        (self.word / WAITERS % FIELD) as u32
    }

    /// How many seats are in use.
    pub fn seats(&self) -> u32
        ensures value { result ≡ self.now.seats }
        ensures small { result < 2 ^ 20 }
    {
        (self.word % FIELD) as u32
    }

    /// The limit, in seats.
    pub fn limit(&self) -> u32
        ensures value { result ≡ self.now.limit }
        ensures small { result < 2 ^ 20 }
    {
        (self.word / LIMIT % FIELD) as u32
    }

    /// The word that says this.
    pub fn pack(&self) -> u64
        ensures value { result ≡ packed self.now }
        ensures small { AllBelow20Bits self.now.waiters self.now.seats self.now.limit }
    {
        self.word
    }

    /// What a word says, or `None` exactly if a bit of 60 to 62 is set.
    pub fn unpack(word: u64) -> Option<LevelWord>
        ensures none { IsNone result ↔ (word / 2 ^ 60 % 8 ≢ 0) }
        ensures some { IfSome result (λ w. packed w ≡ word) }

        // What `pack` made comes back.
        ensures round_trip { (l : Level)
            → AllBelow20Bits l.waiters l.seats l.limit → word ≡ packed l → result ≡ Some l }
    {
        if word / UNUSED % 8 != 0 {
            return None;
        }
        Some(LevelWord { word })
    }
}
