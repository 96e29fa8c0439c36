//! The reader of an audit log and of the server's own log beside it.

ghost use Rattle.std.specs.Prelude.{◌≡◌, ℕ, List, [], IfOk, is_some, option_map};
ghost use Rattle.apf_audit.specs.AuditEvent.{event};
ghost use Rattle.apf_audit.specs.declared.choice.Choice as spec_of;
ghost use Rattle.apf_joined_reader.specs.Counts.{counts_said};
ghost use Rattle.apf_joined_reader.specs.Looking.{FoundMore, TakesMore};
ghost use Rattle.apf_joined_reader.specs.Reading.{AnswersMore, HasJoined, Inputs, IsAlike, inputs};

use crate::counts::{Counts, name_by};
use crate::fault::JoinFault;
use crate::joining::{join, look_up};
use apf_audit::{Choice, Taken};
use apf_audit_reader::AuditReader;
use apf_request_halves::RequestHalves;
use apf_request_lines::RequestLine;
use std::alloc::{AllocError, Global};
use std::io::Read;
use std::marker::Model;

/// Reads an audit log, and beside it the server's own log, if there is one: each request that is handed out has the seats and the
/// run that its line says, if that line is found by its id.
#[derive(Drop)]
pub struct JoinedReader {
    reader: AuditReader,
    halves: Option<RequestHalves>,
    counts: Counts,
}

impl Model for JoinedReader {
    ghost use Rattle.apf_joined_reader.specs.Counts.{counts_said};
    ghost use Rattle.apf_joined_reader.specs.Reading.{JoinedView};

    ghost Value = { JoinedView };

    ghost view = { λ r. record {
      reader = r.reader;
      halves = r.halves;
      counts = counts_said r.counts;
    } };
}

impl JoinedReader {
    /// Nothing was read yet. A line of the audit log may come `size` places late. The server's own log is read if `has_lines`.
    ///
    /// # Errors
    ///
    /// `AllocError` if memory was refused.
    pub fn new(alloc: Global, size: usize, has_lines: bool) -> Result<JoinedReader, AllocError>
        ensures nothing { IfOk result (λ r. (choice : spec_of.Choice) (left : Inputs) → HasJoined choice [] [] [] left r) }
        ensures size { IfOk result (λ r. r.reader.window.size ≡ size) }
        ensures lines { IfOk result (λ r. is_some r.halves ≡ has_lines) }
    {
        let halves = if has_lines {
            Some(RequestHalves::new(alloc)?)
        } else {
            None
        };
        Ok(JoinedReader {
            reader: AuditReader::new(alloc, size)?,
            halves,
            counts: Counts::new(alloc),
        })
    }

    /// The reader of the audit log.
    pub fn audit(&self) -> &AuditReader
        ensures { result.now ≡ self.now.reader }
    {
        &self.reader
    }

    /// The lines of requests of the server's own log, where that is read.
    pub fn lines(&self) -> Option<&RequestHalves>
        ensures { option_map (λ halves. halves.now) result ≡ self.now.halves }
    {
        self.halves.as_ref()
    }

    /// How many requests were handed out, how many have a line, and for how many it names the same schema.
    pub fn counts(&self) -> &Counts
        ensures { counts_said result.now ≡ self.now.counts }
    {
        &self.counts
    }

    // The line of a request, if one is found.
    fn line_of<S: Read>(
        &mut self,
        taken: &Taken,
        lines: &mut S,
    ) -> Result<Option<RequestLine>, JoinFault>
        ensures found { FoundMore (event taken.now) (S.remaining lines.old) (S.remaining lines.new) self.old result self.new }
        ensures reader { self.new.reader ≡ self.old.reader }
        ensures counts { self.new.counts ≡ self.old.counts }
        ensures lines { is_some self.new.halves ≡ is_some self.old.halves }
    {
        let Some(halves) = &mut self.halves else {
            return Ok(None);
        };
        match look_up(halves, taken, lines) {
            Ok(line) => return Ok(line),
            Err(fault) => return Err(JoinFault::Lines(fault)),
        }
    }

    // The request with what its line says.
    fn join<S: Read>(
        &mut self,
        choice: &Choice<'_>,
        taken: Taken,
        lines: &mut S,
    ) -> Result<Taken, JoinFault>
        ensures takes { TakesMore choice.now.by (event taken) (S.remaining lines.old) (S.remaining lines.new) self.old result self.new }
        ensures reader { self.new.reader ≡ self.old.reader }
        ensures lines { is_some self.new.halves ≡ is_some self.old.halves }
    {
        let found = self.line_of(&taken, lines)?;
        self.counts.add_request();
        let Some(line) = found else {
            return Ok(taken);
        };
        let (seats, runs_for) = (line.seats, line.runs_for);
        self.counts
            .add_line(name_by(choice.by, taken.schema), &taken, line)?;
        Ok(join(taken, seats, runs_for))
    }

    /// The next chosen request of the audit log, as its reader hands it out, with the seats and the run that its line says; or none,
    /// once all were handed out. A line is found by the id of the request, in as much of the server's own log as is needed, and each
    /// line once. A request that has no id, or whose line is not found, stays as the audit log has it, and one that was turned away
    /// keeps its run. `choice` is the same at each call.
    ///
    /// # Errors
    ///
    /// `Read` with what the reader of the audit log answers. `Lines` with what is wrong with the server's own log; the request is
    /// lost then. `NoMemory` if memory was refused.
    pub fn next<R: Read, S: Read>(
        &mut self,
        choice: &Choice<'_>,
        input: &mut R,
        lines: &mut S,
    ) -> Result<Option<Taken>, JoinFault>
        ensures answers { AnswersMore choice.now (inputs (R.remaining input.old) (S.remaining lines.old)) (inputs (R.remaining input.new) (S.remaining lines.new)) self.old result self.new }
        ensures alike { IsAlike self.old self.new }
    {
        let taken = match self.reader.next(choice, input) {
            Ok(Some(taken)) => taken,
            Ok(None) => return Ok(None),
            Err(fault) => return Err(JoinFault::Read(fault)),
        };
        match self.join(choice, taken, lines) {
            Ok(joined) => return Ok(Some(joined)),
            Err(fault) => return Err(fault),
        }
    }
}
