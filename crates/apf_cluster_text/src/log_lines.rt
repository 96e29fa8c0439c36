//! The lines of an audit log, which is read in pieces.

ghost use Rattle.std.specs.Prelude.{◌≡◌, ◌<◌, ◌-◌, ◌^◌, ℕ, List, [], Option, IfOk, false};
ghost use Rattle.apf_lines.specs.Lines.{HasNoLf};
ghost use Rattle.apf_cluster_text.specs.LogLines.{held, AnswersEach, EndsAt, FillsMore, GoesMore, HasRead};

use apf_audit::MAX_LINE;
use apf_lines::{Cut, Lines};
use std::alloc::{AllocError, Global};
use std::io;
use std::io::{ErrorKind, Read};
use std::marker::Model;

/// What was found next in a log.
#[derive(Clone, Copy, Debug, PartialEq, Eq)]
pub enum Found {
    /// A line, which is held.
    Held,
    /// A line that has more than 1,048,576 bytes, of which not all are kept.
    TooLong,
}

/// Reads an audit log in pieces, and finds its lines one after the other. It keeps one line of at most 1,048,576 bytes, and
/// what was read behind it.
#[derive(Drop)]
pub struct LogLines {
    lines: Lines,
    number: u64,
    // whether an LF ends the line that was found last
    is_ended: bool,
    // whether all lines were found
    is_over: bool,
}

impl Model for LogLines {
    ghost use Rattle.apf_cluster_text.specs.LogViews.{IsLog, LogView};

    ghost Value = { LogView };

    ghost view = { λ l. record {
      lines = l.lines;
      number = l.number;
      is_ended = l.is_ended;
      is_over = l.is_over;
    } };

    ghost invariant = { λ l. IsLog l.lines.longest };
}

impl LogLines {
    /// Nothing was read yet.
    ///
    /// # Errors
    ///
    /// `AllocError` if memory was refused. No more memory is asked for later.
    pub fn new(alloc: Global) -> Result<LogLines, AllocError>
        ensures { IfOk result (λ l. (left : Option (List ℕ)) → HasRead [] [] left l) }
    {
        Ok(LogLines {
            lines: Lines::new(alloc, MAX_LINE)?,
            number: 0,
            is_ended: true,
            is_over: false,
        })
    }

    /// The line that was found last, without its LF. Of one that is too long not all is kept.
    pub fn line(&self) -> &[u8]
        ensures { result.now ≡ (held self.now).bytes }
    {
        if self.is_ended {
            self.lines.line()
        } else {
            self.lines.kept()
        }
    }

    /// Whether an LF ends the line that was found last.
    pub fn is_ended(&self) -> bool
        ensures { result ≡ self.now.is_ended }
    {
        self.is_ended
    }

    /// The number of the line that was found last, from 1.
    pub fn number(&self) -> u64
        ensures { result ≡ self.now.number }
    {
        self.number
    }

    // The input is at its end: what stands behind the last LF is a line too.
    fn end(&mut self) -> Option<Found>
        requires reading { self.old.is_over ≡ false }
        requires room { self.old.number < 2 ^ 64 - 1 }
        ensures { EndsAt self.old result self.new }
    {
        self.is_over = true;
        if !self.lines.has_rest() {
            return None;
        }
        self.number += 1;
        self.is_ended = false;
        if self.lines.is_skipped() {
            return Some(Found::TooLong);
        }
        if self.lines.kept().len() > MAX_LINE {
            return Some(Found::TooLong);
        }
        Some(Found::Held)
    }

    // Reads more, where no whole line is there.
    fn fill<R: Read>(&mut self, input: &mut R) -> io::Result<Option<Found>>
        requires reading { self.old.is_over ≡ false }
        requires room { self.old.number < 2 ^ 64 - 1 }
        requires whole { HasNoLf self.old.lines.kept }
        ensures { FillsMore (R.remaining input.old) (R.remaining input.new) self.old result self.new }
    {
        match self.lines.fill(input) {
            Ok(count) => {
                if count == 0 {
                    return Ok(self.end());
                }
                Ok(None)
            }
            Err(error) if error.kind() == ErrorKind::Interrupted => Ok(None),
            Err(error) => Err(error),
        }
    }

    // Finds the next line, if a whole one is there, and else reads more.
    fn turn<R: Read>(&mut self, input: &mut R) -> io::Result<Option<Found>>
        requires { self.old.is_over ≡ false }
        ensures { GoesMore (R.remaining input.old) (R.remaining input.new) self.old result self.new }
    {
        if self.number == u64::MAX {
            return Err(io::Error::from(ErrorKind::Other));
        }
        match self.lines.cut() {
            Cut::Line => {
                self.number += 1;
                self.is_ended = true;
                Ok(Some(Found::Held))
            }
            Cut::TooLong => {
                self.number += 1;
                self.is_ended = true;
                Ok(Some(Found::TooLong))
            }
            Cut::Nothing => self.fill(input),
        }
    }

    /// Finds the next line of the log; or none, once all were found. Bytes behind the last LF are a line that no LF ends.
    ///
    /// # Errors
    ///
    /// What the input answered; or `Other` where nothing came of 2^64 - 1 reads, or after 2^64 - 1 lines. Then nothing is
    /// lost, and the next call goes on.
    pub fn next<R: Read>(&mut self, input: &mut R) -> io::Result<Option<Found>>
        ensures { AnswersEach (R.remaining input.old) (R.remaining input.new) self.old result self.new }
    {
        'turns: for _ in 0..u64::MAX {
            if self.is_over {
                return Ok(None);
            }
            match self.turn(input)? {
                Some(found) => return Ok(Some(found)),
                None => {}
            }
        }
        Err(io::Error::from(ErrorKind::Other))
    }
}
