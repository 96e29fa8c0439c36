//! The bytes that were read and are not yet cut off, of which the next line is cut.

ghost use Rattle.std.specs.Prelude.{◌≡◌, ◌+◌, ◌≤◌, ◌<◌, ◌^◌, [], false, length, take, drop, nat_lt, ◌||◌, if◌then◌else◌, IfOk, MatchOption};
ghost use Rattle.apf_lines.specs.Lines.{HasNoLf, CutsOff, Fills, TellsRest};
ghost use Rattle.apf_lines.specs.Buffer.{IsFirstLf, ReadsBehind};

use memchr::memchr;
use std::alloc::{AllocError, Global};
use std::io;
use std::io::Read;
use std::marker::Model;

/// What was cut off in front of what was read.
#[derive(Clone, Copy, Debug, PartialEq, Eq)]
pub enum Cut {
    /// A line, which `line` shows.
    Line,
    /// A line that is too long, of which nothing is kept.
    TooLong,
    /// No LF was read yet.
    Nothing,
}

/// The bytes that were read and are not yet cut off. Of a line that is longer than the longest one no more than that is kept.
#[derive(Drop)]
pub struct Lines {
    bytes: Vec<u8>,
    longest: usize,
    from: usize,
    to: usize,
    start: usize,
    end: usize,
    is_skipped: bool,
}

impl Model for Lines {
    ghost use Rattle.apf_lines.specs.Lines.{LinesView};
    ghost use Rattle.apf_lines.specs.Buffer.{between, IsBuffer};

    ghost Value = { LinesView };

    ghost view = { λ l. record {
      longest = l.longest;
      line = between l.from l.to l.bytes.items;
      kept = between l.start l.end l.bytes.items;
      is_skipped = l.is_skipped;
    } };

    ghost invariant = { λ l. IsBuffer l.longest l.from l.to l.start l.end l.bytes.items };
}

// How many bytes stand before the first LF, if there is one.
fn before_lf(bytes: &[u8]) -> Option<usize>
    ensures { MatchOption result (HasNoLf bytes.now) (IsFirstLf bytes.now) }
{
    memchr(b'\n', bytes)
}

// Whether a line is too long of which this many bytes are kept: by these, or since its beginning was dropped.
fn is_too_long(is_skipped: bool, kept: usize, longest: usize) -> bool
    ensures { result ≡ (is_skipped || nat_lt longest kept) }
{
    is_skipped || kept > longest
}

// How many of this many bytes are kept further.
fn kept_further(is_skipped: bool, kept: usize) -> usize
    ensures { result ≡ (if is_skipped then 0 else kept) }
{
    if is_skipped { 0 } else { kept }
}

// Moves this many bytes from a place on to the front.
fn move_to_front(bytes: &mut [u8], from: usize, count: usize)
    requires { from + count ≤ length bytes.old }
    ensures moved { take count bytes.new ≡ take count (drop from bytes.old) }
    ensures room { length bytes.new ≡ length bytes.old }
{
    bytes.copy_within(from..from + count, 0);
}

// Reads what there is behind the first bytes, which stay.
fn read_behind<I: Read>(input: &mut I, bytes: &mut [u8], first: usize) -> io::Result<usize>
    requires { first < length bytes.old }
    ensures stay { take first bytes.new ≡ take first bytes.old }
    ensures room { length bytes.new ≡ length bytes.old }
    ensures bytes { ReadsBehind (I.remaining input.old) (I.remaining input.new) first result bytes.new }
{
    input.read(&mut bytes[first..])
}

impl Lines {
    /// Nothing was read yet. A line may have this many bytes, without its LF.
    ///
    /// # Errors
    ///
    /// `AllocError` if memory was refused. No more memory is asked for later.
    pub fn new(alloc: Global, longest: usize) -> Result<Lines, AllocError>
        requires { (0 < longest) × (longest < 2 ^ 62) }
        ensures { IfOk result (λ l. l ≡ record { longest = longest; line = []; kept = []; is_skipped = false }) }
    {
        Ok(Lines {
            bytes: vec![in alloc; 0u8; 2 * longest]?,
            longest,
            from: 0,
            to: 0,
            start: 0,
            end: 0,
            is_skipped: false,
        })
    }

    /// Cuts off the first line, if a whole one was read.
    pub fn cut(&mut self) -> Cut
        ensures { CutsOff self.old result self.new }
    {
        let from = self.start;
        let Some(length) = before_lf(&self.bytes[from..self.end]) else {
            return Cut::Nothing;
        };
        let is_long = is_too_long(self.is_skipped, length, self.longest);
        self.from = from;
        self.to = from + length;
        self.start = from + length + 1;
        self.is_skipped = false;
        if is_long { Cut::TooLong } else { Cut::Line }
    }

    /// The line that was cut off last. Once more is read it is gone.
    pub fn line(&self) -> &[u8]
        ensures { result.now ≡ self.now.line }
    {
        &self.bytes[self.from..self.to]
    }

    /// The bytes that are kept behind the line that was cut off last: once all lines are cut off, the rest behind the last
    /// LF, or of a rest that is too long the end.
    pub fn kept(&self) -> &[u8]
        ensures { result.now ≡ self.now.kept }
    {
        &self.bytes[self.start..self.end]
    }

    /// Whether bytes that stood in front of those that are kept, in the same line, were dropped. Then this line is too long.
    pub fn is_skipped(&self) -> bool
        ensures { result ≡ self.now.is_skipped }
    {
        self.is_skipped
    }

    /// Whether bytes stand behind the last LF, once all lines are cut off.
    pub fn has_rest(&self) -> bool
        ensures { TellsRest self.now result }
    {
        self.is_skipped || self.start < self.end
    }

    /// Reads what there is, behind what is not yet cut off. Tells how many bytes; none at the end of the input. Each whole
    /// line has to be cut off before.
    ///
    /// # Errors
    ///
    /// The reader's. Then nothing was read.
    pub fn fill<I: Read>(&mut self, input: &mut I) -> io::Result<usize>
        requires { HasNoLf self.old.kept }
        ensures { Fills (I.remaining input.old) (I.remaining input.new) self.old result self.new }
    {
        let kept = self.end - self.start;
        self.is_skipped = is_too_long(self.is_skipped, kept, self.longest);
        self.end = kept_further(self.is_skipped, kept);
        let bytes = self.bytes.as_mut_slice();
        move_to_front(bytes, self.start, self.end);
        self.from = 0;
        self.to = 0;
        self.start = 0;
        let count = read_behind(input, bytes, self.end)?;
        self.end += count;
        Ok(count)
    }
}
