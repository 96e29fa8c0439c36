//! The reader of an audit log in pieces.

ghost use Rattle.std.specs.Prelude.{◌≡◌, ◌≢◌, ◌<◌, ◌≤◌, ◌-◌, ◌^◌, ◌||◌, if◌then◌else◌, ℕ, List, [], length, Option, Err, IfOk, OnOk};
ghost use Rattle.apf_lines.specs.Lines.{HasNoLf};
ghost use Rattle.apf_traces.specs.TraceFile.{Line};
ghost use Rattle.apf_audit.specs.AuditLog.{judged_line, max_line};
ghost use Rattle.apf_audit.specs.declared.choice.Choice as spec_of;
ghost use Rattle.apf_audit_reader.specs.Reading.{AnswersEach, AnswersMore, HasRead};
ghost use Rattle.apf_audit_reader.specs.Turns.{EndsAt, FillsMore, GoesMore, Pops, Takes, line_held};

use crate::fault::ReadFault;
use crate::given::{hand, take_line};
use crate::stage::Stage;
use apf_audit::{AuditFault, Choice, Estimates, MAX_LINE, Taken};
use apf_lines::{Cut, Lines};
use apf_times::{Window, every_window_is_in_order};
use apf_values::Room;
use std::alloc::{AllocError, Global};
use std::io;
use std::io::{ErrorKind, Read};
use std::marker::Model;

/// How many requests late a line may come.
pub const WINDOW: usize = 131_072;

/// Reads an audit log in pieces, and hands out its chosen requests in the order of their arrivals, and of one time in that
/// of their lines. It holds at most as many requests as its window's size, so a line may come as many places late.
#[derive(Drop)]
pub struct AuditReader {
    lines: Lines,
    window: Window<Taken, Global>,
    estimates: Estimates,
    room: Room,
    number: u64,
    unnamed: u64,
    is_cut: bool,
    // what stands behind the last LF is taken
    is_at_rest: bool,
    stage: Stage,
}

impl Model for AuditReader {
    ghost use Rattle.apf_audit_reader.specs.Views.{ReaderView};

    ghost Value = { ReaderView };

    ghost view = { λ r. record {
      lines = r.lines;
      window = r.window;
      estimates = r.estimates;
      number = r.number;
      unnamed = r.unnamed;
      is_cut = r.is_cut;
      stage = r.stage;
    } };

    ghost use Rattle.apf_audit_reader.specs.Turns.{IsReader};

    ghost invariant = { λ r. IsReader r.lines.longest r.number r.unnamed };
}

// The fault of a line of this number that is too long.
#[tactic(auto, unfolding(apf_audit::specs::AuditLog::judged_line))]
fn too_long(number: u64) -> AuditFault
    ensures fault { (choice : spec_of.Choice) (line : Line) → max_line < length line.bytes → judged_line choice number line ≡ Err result }
    ensures memory { result ≢ AuditFault.NoMemory }
{
    AuditFault::TooLong(number)
}

// The line that was cut off last, or what stands behind the last LF.
fn line_of(lines: &Lines, is_ended: bool) -> &[u8]
    ensures { result.now ≡ line_held is_ended lines.now }
{
    if is_ended { lines.line() } else { lines.kept() }
}

// 1 if it holds, and else 0.
fn one_if(holds: bool) -> u64
    ensures value { result ≡ (if holds then 1 else 0) }
    ensures most { result ≤ 1 }
{
    if holds { 1 } else { 0 }
}

// Whether one of the two holds.
fn either(one: bool, other: bool) -> bool
    ensures { result ≡ (one || other) }
{
    one || other
}

impl AuditReader {
    /// Nothing was read yet. A line may come `size` places late.
    ///
    /// # Errors
    ///
    /// `AllocError` if memory was refused.
    pub fn new(alloc: Global, size: usize) -> Result<AuditReader, AllocError>
        ensures nothing { IfOk result (λ r. (choice : spec_of.Choice) (left : Option (List ℕ)) → HasRead choice [] [] left r) }
        ensures size { IfOk result (λ r. r.window.size ≡ size) }
    {
        Ok(AuditReader {
            lines: Lines::new(alloc, MAX_LINE)?,
            window: Window::new(alloc, size),
            estimates: Estimates::new(alloc),
            room: Room::new(alloc),
            number: 0,
            unnamed: 0,
            is_cut: false,
            is_at_rest: false,
            stage: Stage::Reading,
        })
    }

    /// The line that was taken last: of a fault of a line, that line without its LF, as far as it was kept. More that is
    /// read takes its place.
    pub fn line(&self) -> &[u8] {
        line_of(&self.lines, !self.is_at_rest)
    }

    /// How many events that would be taken have no name of a user, and were left out.
    pub fn unnamed(&self) -> u64
        ensures { result ≡ self.now.unnamed }
    {
        self.unnamed
    }

    /// Whether the last line was left out, as one that is still written.
    pub fn is_cut(&self) -> bool
        ensures { result ≡ self.now.is_cut }
    {
        self.is_cut
    }

    // This fault was found.
    fn refuse(&mut self, fault: AuditFault) -> ReadFault
        ensures told { result ≡ ReadFault.Log fault }
        ensures same { self.new ≡ record self.old { stage = Stage.Failed fault } }
    {
        self.stage = Stage::Failed(fault);
        ReadFault::Log(fault)
    }

    // Takes the line that was cut off last, or what stands behind the last LF.
    fn take(&mut self, choice: &Choice<'_>, is_ended: bool) -> Result<Option<Taken>, ReadFault>
        requires stage { self.old.stage ≡ Stage.Reading }
        requires room { self.old.number < 2 ^ 64 - 1 }
        ensures takes { Takes choice.now (record {
          bytes = line_held is_ended self.old.lines;
          is_ended = is_ended;
        }) self.old result self.new }
        ensures lines { self.new.lines ≡ self.old.lines }
        ensures stage { OnOk result (self.new.stage ≡ Stage.Reading) }
        ensures size { self.new.window.size ≡ self.old.window.size }
    {
        every_window_is_in_order::<Taken>();
        let number = self.number + 1;
        match take_line(
            &mut self.room,
            choice,
            &mut self.estimates,
            &mut self.window,
            line_of(&self.lines, is_ended),
            is_ended,
            number,
        ) {
            Ok(given) => {
                self.number = number;
                let unnamed = self.unnamed + one_if(given.is_unnamed);
                let is_cut = either(self.is_cut, given.is_unfinished);
                self.unnamed = unnamed;
                self.is_cut = is_cut;
                Ok(given.first)
            }
            Err(fault) => Err(self.refuse(fault)),
        }
    }

    // The input is at its end: what stands behind the last LF is a line too.
    fn end(&mut self, choice: &Choice<'_>) -> Result<Option<Taken>, ReadFault>
        requires stage { self.old.stage ≡ Stage.Reading }
        requires room { self.old.number < 2 ^ 64 - 1 }
        ensures goes { EndsAt choice.now self.old result self.new }
        ensures size { self.new.window.size ≡ self.old.window.size }
    {
        if !self.lines.has_rest() {
            self.stage = Stage::Ended;
            return Ok(None);
        }
        self.is_at_rest = true;
        if self.lines.is_skipped() {
            let fault = too_long(self.number + 1);
            return Err(self.refuse(fault));
        }
        match self.take(choice, false) {
            Ok(first) => {
                self.stage = Stage::Ended;
                Ok(first)
            }
            Err(fault) => Err(fault),
        }
    }

    // Reads more, where no whole line is there.
    fn fill<R: Read>(
        &mut self,
        choice: &Choice<'_>,
        input: &mut R,
    ) -> Result<Option<Taken>, ReadFault>
        requires stage { self.old.stage ≡ Stage.Reading }
        requires room { self.old.number < 2 ^ 64 - 1 }
        requires whole { HasNoLf self.old.lines.kept }
        ensures goes { FillsMore choice.now (R.remaining input.old) (R.remaining input.new) self.old result self.new }
        ensures size { self.new.window.size ≡ self.old.window.size }
    {
        match self.lines.fill(input) {
            Ok(count) => {
                if count == 0 {
                    return self.end(choice);
                }
                Ok(None)
            }
            Err(error) if error.kind() == ErrorKind::Interrupted => Ok(None),
            Err(error) => Err(ReadFault::CannotRead(error)),
        }
    }

    // Takes the next line, if a whole one is there, and else reads more.
    fn turn<R: Read>(
        &mut self,
        choice: &Choice<'_>,
        input: &mut R,
    ) -> Result<Option<Taken>, ReadFault>
        requires { self.old.stage ≡ Stage.Reading }
        ensures goes { GoesMore choice.now (R.remaining input.old) (R.remaining input.new) self.old result self.new }
        ensures size { self.new.window.size ≡ self.old.window.size }
    {
        if self.number == u64::MAX {
            return Err(ReadFault::CannotRead(io::Error::from(ErrorKind::Other)));
        }
        match self.lines.cut() {
            Cut::Line => self.take(choice, true),
            Cut::TooLong => {
                let fault = too_long(self.number + 1);
                Err(self.refuse(fault))
            }
            Cut::Nothing => self.fill(choice, input),
        }
    }

    // The first of what is held, at the end of the input.
    fn pop(&mut self) -> Option<Taken>
        requires { self.old.stage ≡ Stage.Ended }
        ensures goes { Pops self.old result self.new }
        ensures size { self.new.window.size ≡ self.old.window.size }
    {
        every_window_is_in_order::<Taken>();
        let out = self.window.pop();
        hand(&mut self.estimates, out)
    }

    // Turns up to the next request that is handed out.
    fn turns<R: Read>(
        &mut self,
        choice: &Choice<'_>,
        input: &mut R,
    ) -> Result<Option<Taken>, ReadFault>
        ensures answers { AnswersEach choice.now (R.remaining input.old) (R.remaining input.new) self.old result self.new }
        ensures size { self.new.window.size ≡ self.old.window.size }
    {
        'turns: for _ in 0..u64::MAX {
            match self.stage {
                Stage::Ended => return Ok(self.pop()),
                Stage::Failed(fault) => return Err(ReadFault::Log(fault)),
                Stage::Reading => {}
            }
            match self.turn(choice, input)? {
                Some(first) => return Ok(Some(first)),
                None => {}
            }
        }
        Err(ReadFault::CannotRead(io::Error::from(ErrorKind::Other)))
    }

    /// The next chosen request in the order of the arrivals, and of one time in that of the lines; or none, once all were
    /// handed out. It reads as much of the input as it needs to know that none before it comes, where no line is more than
    /// the window's size late. `choice` is the same at each call.
    ///
    /// A line is an event of `audit.k8s.io/v1`, as JSON, of at most 1,048,576 bytes. There may be 2^64 - 1 lines, each ended
    /// by LF. A last line that no LF ends, that begins as an event does and is no JSON text, is left out, as it is still
    /// written: see `is_cut`. An event is an object with the texts `stage` and `verb`. It is taken where `stage` is
    /// `ResponseComplete`, `verb` is not `watch`, and `objectRef.subresource` is none of `exec`, `attach`, `portforward`,
    /// `proxy` and `log`. The other fields of an event that is left out are not checked. One that is taken and has no name of
    /// a user is left out and counted: see `unnamed`.
    ///
    /// The user is `user.username`, or `impersonatedUser.username` where there is such a user. The distinguisher is the
    /// user's name, or where `choice` asks for it `objectRef.namespace`, and the empty text without one. Of an event that is
    /// not chosen, by its user and by `requestReceivedTimestamp`, nothing else is judged. The request runs from there to
    /// `stageTimestamp`, less the annotation `apiserver.latency.k8s.io/apf-queue-wait` where it stands. Each of the three is
    /// cut to whole microseconds first. One whose `responseStatus.code` is 429 was turned away, and neither its end nor its
    /// wait is read: it runs as long as `Estimates` says, by the requests that were read before it is handed out. These are
    /// the window's size and one more than were handed out, so in a log of no more requests all of them count.
    ///
    /// # Errors
    ///
    /// `Log` with the first fault of the lines, in their order, or with `NoMemory` where memory was refused. It is told from
    /// then on, and nothing more is read. `CannotRead` with what the input answered, or where nothing came of 2^64 - 1
    /// reads, or after 2^64 - 1 lines. Then nothing is lost, and the next call goes on.
    pub fn next<R: Read>(
        &mut self,
        choice: &Choice<'_>,
        input: &mut R,
    ) -> Result<Option<Taken>, ReadFault>
        ensures answers { AnswersMore choice.now (R.remaining input.old) (R.remaining input.new) self.old result self.new }
        ensures size { self.new.window.size ≡ self.old.window.size }
    {
        match self.stage {
            Stage::Failed(fault) => Err(ReadFault::Log(fault)),
            Stage::Ended => Ok(self.pop()),
            Stage::Reading => self.turns(choice, input),
        }
    }
}
