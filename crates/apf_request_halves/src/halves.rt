//! The lines of a log, of which each is answered to who asks for its id.

ghost use Rattle.std.specs.Prelude.{◌≡◌, ◌≤◌, ◌<◌, ◌+◌, ◌-◌, ◌^◌, length, max, min, nat_le, ◌||◌, false, if◌then◌else◌, ℕ, List, Option, IfOk, []};
ghost use Rattle.std.specs.NonZero.{non_zero_usize_get};
ghost use Rattle.apf_lines.specs.Lines.{HasNoLf};
ghost use Rattle.apf_request_halves.specs.Reading.{AnswersMore, GoesMore, HasRead, IsWithout, TakesHeld, Took, max_held, more_lines, most_lines};

use crate::fault::HalvesFault;
use crate::held::{Store, take};
use crate::judged::judge;
use apf_lines::{Cut, Lines};
use apf_request_lines::{RequestLine, RequestLineFault};
use lru::LruCache;
use std::alloc::{AllocError, Global};
use std::io;
use std::io::{ErrorKind, Read};
use std::marker::Model;
use std::num::NonZeroUsize;

/// How many lines are held at most.
pub const HELD: usize = 131_072;

/// The most bytes of a line, without its LF.
pub const MAX_LINE: usize = 1_048_576;

/// How many lines are read behind the last one that was answered, before an id counts as not found.
pub const REACH: u64 = 65_536;

/// How many more lines are read for each id that is not found.
pub const MORE_LINES: u64 = 64;

/// What one turn came to.
#[derive(Drop)]
enum Turn {
    /// The line that is asked for.
    Found(RequestLine),
    /// More is to be read.
    More,
    /// Nothing more is read for this id.
    Over,
}

// Up to which line more are read, once the line of this number was answered.
fn limit_behind(limit: u64, number: u64) -> u64
    ensures { result ≡ max limit (min (number + 65536) (2 ^ 64 - 1)) }
{
    limit.max(number.saturating_add(REACH))
}

// Up to which line more are read, once one id more was not found.
fn limit_further(limit: u64) -> u64
    ensures { result ≡ min (limit + more_lines) most_lines }
{
    limit.saturating_add(MORE_LINES)
}

// How many lines are held at most.
fn most_held() -> NonZeroUsize
    ensures { non_zero_usize_get result ≡ max_held }
{
    match NonZeroUsize::new(HELD) {
        Some(held) => held,
        None => NonZeroUsize::MIN,
    }
}

// 1 if it holds, and else 0.
fn one_if(holds: bool) -> u64
    ensures value { result ≡ (if holds then 1 else 0) }
    ensures most { result ≤ 1 }
{
    if holds { 1 } else { 0 }
}

/// The lines of requests of a log that is read as far as it is needed.
#[derive(Drop)]
pub struct RequestHalves {
    alloc: Global,
    lines: Lines,
    store: Store,
    number: u64,
    dropped: u64,
    limit: u64,
    is_ended: bool,
}

impl Model for RequestHalves {
    ghost use Rattle.std.specs.Prelude.{◌≡◌, ◌≤◌, map};
    ghost use Rattle.apf_request_halves.specs.Held.{placed};
    ghost use Rattle.apf_request_halves.specs.Reading.{HalvesView, max_held};

    ghost Value = { HalvesView };

    ghost view = { λ h. record {
      lines = h.lines;
      held = map placed h.store.entries;
      number = h.number;
      dropped = h.dropped;
      limit = h.limit;
      is_ended = h.is_ended;
    } };

    ghost invariant = { λ h. (h.dropped ≤ h.number) × (h.store.cap ≡ max_held) };
}

impl RequestHalves {
    /// Nothing was read yet.
    ///
    /// # Errors
    ///
    /// `AllocError` if memory was refused.
    pub fn new(alloc: Global) -> Result<RequestHalves, AllocError>
        ensures { IfOk result (λ h. (left : Option (List ℕ)) → HasRead [] [] left h) }
    {
        let lines = Lines::new(alloc, MAX_LINE)?;
        Ok(RequestHalves {
            alloc,
            lines,
            store: LruCache::sparse(alloc, most_held())?,
            number: 0,
            dropped: 0,
            limit: REACH,
            is_ended: false,
        })
    }

    /// How many lines were read.
    pub fn read(&self) -> u64
        ensures { result ≡ self.now.number }
    {
        self.number
    }

    /// How many lines of requests had to go: each as a later one has the same id, or as there was no room.
    pub fn dropped(&self) -> u64
        ensures { result ≡ self.now.dropped }
    {
        self.dropped
    }

    /// How many lines are held.
    pub fn held(&self) -> usize
        ensures { result ≡ length self.now.held }
    {
        self.store.len()
    }

    /// The line that was read last: of a fault of a line, that line without its LF. More that is read takes its place.
    pub fn line(&self) -> &[u8]
        ensures { result.now ≡ self.now.lines.line }
    {
        self.lines.line()
    }

    // The line of this id, if it is held.
    fn take_held(&mut self, id: &[u8]) -> Option<RequestLine>
        ensures { TakesHeld id.now self.old result self.new }
    {
        let Some((audit_id, held)) = take(&mut self.store, id) else {
            return None;
        };
        self.limit = limit_behind(self.limit, held.number);
        Some(RequestLine {
            audit_id,
            schema: held.schema,
            level: held.level,
            seats: held.seats,
            runs_for: held.runs_for,
        })
    }

    // Answers the line that was cut off, or holds it.
    fn take_line(&mut self, id: &[u8]) -> Result<Option<RequestLine>, HalvesFault>
        requires { self.old.number < 2 ^ 64 - 1 }
        ensures { Took id.now self.old result self.new }
    {
        let number = self.number + 1;
        self.number = number;
        match judge(self.alloc, &mut self.store, number, self.lines.line(), id) {
            Ok(judged) => {
                self.dropped += one_if(judged.is_gone);
                Ok(judged.found)
            }
            Err(RequestLineFault::NoMemory) => Err(HalvesFault::NoMemory),
            Err(fault) => Err(HalvesFault::Line(number, fault)),
        }
    }

    // Whether nothing more is read for an id.
    fn is_over(&self) -> bool
        ensures { result ≡ (self.now.is_ended || nat_le self.now.limit self.now.number) }
    {
        self.is_ended || self.number >= self.limit
    }

    // Reads more, where no whole line is there.
    fn fill<R: Read>(&mut self, input: &mut R) -> Result<Turn, HalvesFault>
        requires whole { HasNoLf self.old.lines.kept }
        requires goes_on { self.old.is_ended ≡ false }
        ensures { (id : List ℕ) → GoesMore id (R.remaining input.old) (R.remaining input.new) self.old result self.new }
    {
        match self.lines.fill(input) {
            Ok(count) => {
                if count == 0 {
                    self.is_ended = true;
                    return Ok(Turn::Over);
                }
                return Ok(Turn::More);
            }
            Err(error) => {
                if error.kind() == ErrorKind::Interrupted {
                    return Ok(Turn::More);
                }
                return Err(HalvesFault::CannotRead(error));
            }
        }
    }

    // Takes the next line, if a whole one is there, and else reads more.
    fn turn<R: Read>(&mut self, id: &[u8], input: &mut R) -> Result<Turn, HalvesFault>
        ensures { GoesMore id.now (R.remaining input.old) (R.remaining input.new) self.old result self.new }
    {
        if self.is_over() {
            return Ok(Turn::Over);
        }
        match self.lines.cut() {
            Cut::Line => match self.take_line(id) {
                Ok(Some(line)) => {
                    self.limit = limit_behind(self.limit, self.number);
                    return Ok(Turn::Found(line));
                }
                Ok(None) => return Ok(Turn::More),
                Err(fault) => return Err(fault),
            },
            Cut::TooLong => {
                self.number += 1;
                return Ok(Turn::More);
            }
            Cut::Nothing => return self.fill(input),
        }
    }

    // Reads on up to the line of this id.
    fn read_on<R: Read>(
        &mut self,
        id: &[u8],
        input: &mut R,
    ) -> Result<Option<RequestLine>, HalvesFault>
        ensures { IsWithout id.now self.old.held → AnswersMore id.now (R.remaining input.old) (R.remaining input.new) self.old result self.new }
    {
        for _ in 0..u64::MAX {
            match self.turn(id, input) {
                Ok(Turn::Found(line)) => return Ok(Some(line)),
                Ok(Turn::Over) => {
                    self.limit = limit_further(self.limit);
                    return Ok(None);
                }
                Ok(Turn::More) => {}
                Err(fault) => return Err(fault),
            }
        }
        Err(HalvesFault::CannotRead(io::Error::from(ErrorKind::Other)))
    }

    /// The line of the request that has this id, and each line once. It is one of those that are held, or more lines are read
    /// until it comes, and those of other ids are held: 131,072 at most, and then the one that was held the longest has to go.
    /// Where a later line has the same id as one that is held it takes that one's place. `None` only where none of the lines
    /// that are held has the id, and the input is at its end, or as many lines were read as the limit says: 65,536 at first;
    /// 65,536 behind each line that was answered, if that is more; and 64 more for each id that was not found. Once the input
    /// was at its end nothing more is read of it. A line that no LF ends is not read, and one of more than 1,048,576 bytes is
    /// passed over.
    ///
    /// # Errors
    ///
    /// `Line` with the number of a line and its fault; the line counts as read, and the next call goes on behind it.
    /// `CannotRead` with what the input answered, or where nothing came of 2^64 - 1 reads. Then nothing is lost, and the next
    /// call goes on. `NoMemory` where memory was refused.
    pub fn find<R: Read>(
        &mut self,
        id: &[u8],
        input: &mut R,
    ) -> Result<Option<RequestLine>, HalvesFault>
        ensures { AnswersMore id.now (R.remaining input.old) (R.remaining input.new) self.old result self.new }
    {
        if let Some(line) = self.take_held(id) {
            return Ok(Some(line));
        }
        self.read_on(id, input)
    }
}
