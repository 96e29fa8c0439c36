//! The reader of a trace in pieces.

ghost use Rattle.std.specs.Prelude.{◌≡◌, ◌≢◌, ◌<◌, ℕ, List, [], length, false, Option, None, Ok, Err, IfOk, IfErr};
ghost use Rattle.apf_lines.specs.Lines.{AreUncut, HasNoLf};
ghost use Rattle.apf_traces.specs.TraceFile.{Line, judged_within, max_bytes};
ghost use Rattle.apf_trace_reader.specs.Timely.{most_lines};
ghost use Rattle.apf_trace_reader.specs.Reading.{ended, AnswersEach, AnswersMore, Follows, HasRead};
ghost use Rattle.apf_trace_reader.specs.Views.{all_lines};
ghost use Rattle.apf_trace_reader.specs.Turns.{EndsAt, FillsMore, GoesMore, GoesOn, IsNotTaken, IsStage, IsTaken, Pops};

use crate::fault::ReadFault;
use crate::stage::Stage;
use apf_lines::{Cut, Lines};
use apf_times::{Arrival, Place, Window, WindowError, every_window_is_in_order};
use apf_traces::{LineReader, MAX_BYTES, TraceFault, TraceRequest};
use std::alloc::{AllocError, Global};
use std::io;
use std::io::{ErrorKind, Read};
use std::marker::Model;

/// The most lines of a trace that is read in pieces.
pub const MOST_LINES: u64 = u64::MAX - 1;

/// How many requests late a line may come.
pub const WINDOW: usize = 131_072;

/// Reads a trace in pieces, and hands out its requests in the order of their arrivals, and of one time in that of their
/// lines. It holds at most as many requests as its window's size, so a line may come as many places late.
#[derive(Drop)]
pub struct TraceReader {
    lines: Lines,
    line_reader: LineReader,
    window: Window<TraceRequest, Global>,
    number: u64,
    stage: Stage,
    has_cost: bool,
}

impl Model for TraceReader {
    ghost use Rattle.apf_trace_reader.specs.Views.{ReaderView};

    ghost Value = { ReaderView };

    ghost use Rattle.apf_trace_reader.specs.Turns.{IsReader};

    ghost view = { λ r. record { lines = r.lines; window = r.window; number = r.number; stage = r.stage; has_cost = r.has_cost } };

    ghost invariant = { λ r. IsReader r.lines.longest r.number r.window };
}

// What a reader does next that found this fault.
fn stage_after(stage: Stage, fault: TraceFault) -> Stage
    ensures { IsStage stage fault result }
{
    match fault {
        TraceFault::NoMemory => stage,
        _ => Stage::Failed(fault),
    }
}

// The fault of a line of this number that is too long.
#[tactic(auto, unfolding(apf_traces::specs::TraceFile::judged_text))]
fn too_long(number: u64) -> TraceFault
    ensures fault { (line : Line) → max_bytes < length line.bytes → judged_within most_lines number line ≡ Err result }
    ensures memory { result ≢ TraceFault.NoMemory }
{
    if number > MOST_LINES {
        TraceFault::TooMany(number)
    } else {
        TraceFault::TooLong(number)
    }
}

// The fault of the bytes behind the last LF, a line of this number.
fn rest_fault(line_reader: &mut LineReader, bytes: &[u8], number: u64) -> TraceFault
    ensures { result ≢ TraceFault.NoMemory → judged_within most_lines number (record { bytes = bytes.now; is_ended = false }) ≡ Err result }
{
    match line_reader.read(bytes, false, number, MOST_LINES) {
        Err(fault) => fault,
        Ok(_request) => unreachable!(),
    }
}

// The fault of what stands behind the last LF, a line of this number, once all whole lines are cut off.
fn unended_fault(line_reader: &mut LineReader, lines: &Lines, number: u64) -> TraceFault
    requires { lines.now.longest ≡ max_bytes }
    ensures { result ≢ TraceFault.NoMemory → (rest : List ℕ) → AreUncut rest lines.now
        → judged_within most_lines number (record { bytes = rest; is_ended = false }) ≡ Err result }
{
    if lines.is_skipped() {
        return too_long(number);
    }
    rest_fault(line_reader, lines.kept(), number)
}

// Puts the request that this line is into the window. Says whether the line says what the request is charged.
fn take_line(
    line_reader: &mut LineReader,
    window: &mut Window<TraceRequest, Global>,
    line: &[u8],
    number: u64,
) -> Result<(Option<Arrival<TraceRequest>>, bool), TraceFault>
    ensures ok { IfOk result (λ o. IsTaken number (ended line.now) window.old o.0 window.new o.1) }
    ensures err { IfErr result (λ fault. IsNotTaken number (ended line.now) window.old fault window.new) }
{
    let request = line_reader.read(line, true, number, MOST_LINES)?;
    let place = Place {
        arrives_at: request.arrives_at,
        line: number,
    };
    let has_cost = request.cost.is_some();
    match window.push(place, request) {
        Ok(out) => Ok((out, has_cost)),
        Err(WindowError::TooLate) => Err(TraceFault::TooLate(number)),
        Err(WindowError::NoMemory) => Err(TraceFault::NoMemory),
    }
}

impl TraceReader {
    /// Nothing was read yet. A line may come `size` places late.
    ///
    /// # Errors
    ///
    /// `AllocError` if memory was refused.
    pub fn new(alloc: Global, size: usize) -> Result<TraceReader, AllocError>
        ensures nothing { IfOk result (λ r. (left : Option (List ℕ)) → HasRead [] [] left r) }
        ensures size { IfOk result (λ r. r.window.size ≡ size) }
        ensures last { IfOk result (λ r. r.window.last ≡ None) }
    {
        Ok(TraceReader {
            lines: Lines::new(alloc, MAX_BYTES)?,
            line_reader: LineReader::new(alloc),
            window: Window::new(alloc, size),
            number: 0,
            stage: Stage::Reading,
            has_cost: false,
        })
    }

    /// The line that was taken last: of a fault of a line, that line without its LF, as far as it was kept. More that is
    /// read takes its place.
    pub fn line(&self) -> &[u8] {
        match self.stage {
            Stage::Failed(TraceFault::Truncated(_)) => self.lines.kept(),
            _ => self.lines.line(),
        }
    }

    /// What was read behind that line, and is no part of a line yet that was taken.
    pub fn behind(&self) -> &[u8] {
        self.lines.kept()
    }

    /// Whether a line that was taken says what its request is charged.
    pub fn has_cost(&self) -> bool
        ensures { result ≡ self.now.has_cost }
    {
        self.has_cost
    }

    /// How many lines the input has, once all of it was read; none before that, nor where it has a fault. As many requests come
    /// in all.
    pub fn lines_in_all(&self) -> Option<u64>
        ensures { result ≡ all_lines self.now.stage self.now.number }
    {
        match self.stage {
            Stage::Ended => Some(self.number),
            Stage::Reading | Stage::Holding | Stage::Failed(_) => None,
        }
    }

    // This fault was found.
    fn refuse(&mut self, fault: TraceFault) -> ReadFault
        ensures told { result ≡ ReadFault.Trace fault }
        ensures stage { IsStage self.old.stage fault self.new.stage }
        ensures same { self.new ≡ record self.old { stage = self.new.stage } }
    {
        self.stage = stage_after(self.stage, fault);
        ReadFault::Trace(fault)
    }

    // Takes the line that is held.
    fn take(&mut self) -> Result<Option<Arrival<TraceRequest>>, ReadFault>
        requires { self.old.stage ≡ Stage.Holding }
        ensures goes { GoesOn self.old result self.new }
        ensures next { Follows self.old.window.last result self.new.window.last }
        ensures size { self.new.window.size ≡ self.old.window.size }
    {
        every_window_is_in_order::<TraceRequest>();
        let number = self.number + 1;
        match take_line(
            &mut self.line_reader,
            &mut self.window,
            self.lines.line(),
            number,
        ) {
            Ok((out, has_cost)) => {
                self.number = number;
                self.stage = Stage::Reading;
                self.has_cost |= has_cost;
                Ok(out)
            }
            Err(fault) => Err(self.refuse(fault)),
        }
    }

    // The input is at its end: what stands behind the last LF is no line.
    fn end(&mut self) -> Result<Option<Arrival<TraceRequest>>, ReadFault>
        requires { self.old.stage ≡ Stage.Reading }
        ensures goes { EndsAt self.old result self.new }
        ensures next { Follows self.old.window.last result self.new.window.last }
        ensures size { self.new.window.size ≡ self.old.window.size }
    {
        if !self.lines.has_rest() {
            self.stage = Stage::Ended;
            return Ok(None);
        }
        let number = self.number + 1;
        let fault = unended_fault(&mut self.line_reader, &self.lines, number);
        Err(self.refuse(fault))
    }

    // Reads more, where no whole line is there.
    fn fill<R: Read>(&mut self, input: &mut R) -> Result<Option<Arrival<TraceRequest>>, ReadFault>
        requires stage { self.old.stage ≡ Stage.Reading }
        requires whole { HasNoLf self.old.lines.kept }
        ensures goes { FillsMore (R.remaining input.old) (R.remaining input.new) self.old result self.new }
        ensures next { Follows self.old.window.last result self.new.window.last }
        ensures size { self.new.window.size ≡ self.old.window.size }
    {
        match self.lines.fill(input) {
            Ok(count) => {
                if count == 0 {
                    return self.end();
                }
                Ok(None)
            }
            Err(error) if error.kind() == ErrorKind::Interrupted => Ok(None),
            Err(error) => Err(ReadFault::CannotRead(error)),
        }
    }

    // Takes the next line, if a whole one is there, and else reads more.
    fn turn<R: Read>(&mut self, input: &mut R) -> Result<Option<Arrival<TraceRequest>>, ReadFault>
        requires { self.old.stage ≢ Stage.Ended }
        ensures goes { GoesMore (R.remaining input.old) (R.remaining input.new) self.old result self.new }
        ensures next { Follows self.old.window.last result self.new.window.last }
        ensures size { self.new.window.size ≡ self.old.window.size }
    {
        match self.stage {
            Stage::Failed(fault) => return Err(ReadFault::Trace(fault)),
            Stage::Ended => return Ok(None),
            Stage::Holding => return self.take(),
            Stage::Reading => {}
        }
        match self.lines.cut() {
            Cut::Line => {
                self.stage = Stage::Holding;
                self.take()
            }
            Cut::TooLong => {
                let fault = too_long(self.number + 1);
                Err(self.refuse(fault))
            }
            Cut::Nothing => self.fill(input),
        }
    }

    // The first of what is held, at the end of the input.
    fn pop(&mut self) -> Option<Arrival<TraceRequest>>
        requires { self.old.stage ≡ Stage.Ended }
        ensures goes { Pops self.old result self.new }
        ensures next { Follows self.old.window.last (Ok result) self.new.window.last }
        ensures size { self.new.window.size ≡ self.old.window.size }
    {
        every_window_is_in_order::<TraceRequest>();
        self.window.pop()
    }

    // Turns up to the next request that is handed out.
    fn turns<R: Read>(&mut self, input: &mut R) -> Result<Option<Arrival<TraceRequest>>, ReadFault>
        ensures answers { AnswersEach (R.remaining input.old) (R.remaining input.new) self.old result self.new }
        ensures next { Follows self.old.window.last result self.new.window.last }
        ensures size { self.new.window.size ≡ self.old.window.size }
    {
        'turns: for _ in 0..u64::MAX {
            if self.stage == Stage::Ended {
                return Ok(self.pop());
            }
            match self.turn(input)? {
                Some(first) => return Ok(Some(first)),
                None => {}
            }
        }
        Err(ReadFault::CannotRead(io::Error::from(ErrorKind::Other)))
    }

    /// The next request in the order of the arrivals, and of one time in that of the lines, with its line's number, from 1;
    /// or none, once all were handed out. It reads as much of the input as it needs to know that none before it comes,
    /// where no line is more than the window's size late.
    ///
    /// A line is one JSON object of at most 65,536 bytes, as `read_trace` reads it, but there may be 2^64 - 2 of them.
    ///
    /// # Errors
    ///
    /// `Trace` with the first fault of the lines, in their order. It is told from then on, and nothing more is read.
    /// `Trace` with `NoMemory` where memory was refused, and `CannotRead` with what the input answered, or where nothing
    /// came of 2^64 - 1 reads. After these two nothing is lost, and the next call goes on.
    pub fn next<R: Read>(
        &mut self,
        input: &mut R,
    ) -> Result<Option<Arrival<TraceRequest>>, ReadFault>
        ensures answers { AnswersMore (R.remaining input.old) (R.remaining input.new) self.old result self.new }
        ensures next { Follows self.old.window.last result self.new.window.last }
        ensures size { self.new.window.size ≡ self.old.window.size }
    {
        match self.stage {
            Stage::Failed(fault) => Err(ReadFault::Trace(fault)),
            Stage::Ended => Ok(self.pop()),
            Stage::Reading | Stage::Holding => self.turns(input),
        }
    }
}
