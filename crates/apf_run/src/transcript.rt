//! What a replay tells.

ghost use Rattle.std.specs.Prelude.{◌≡◌, ℕ, List, ◌++◌, OnOk};
ghost use Rattle.std.specs.Io.KnownBytes.{Appends};
ghost use Rattle.apf_texts.specs.Texts.{lines_text, totals_text};
ghost use Rattle.apf_run.specs.Services.{services_text};
ghost use Rattle.apf_run.specs.Waits.{IsWaitsText};

use crate::services::{Service, write_services};
use crate::waits::Waits;
use apf_texts::{Line, Totals, write_lines};
use std::io;
use std::io::Write;
use thiserror::Error;

/// The output was not written. Nothing is known of how much of it was.
#[derive(Clone, Copy, Debug, PartialEq, Eq, Error)]
#[error("cannot write")]
pub struct WriteFault;

impl From<io::Error> for WriteFault {
    fn from(_error: io::Error) -> Self {
        WriteFault
    }
}

/// What a replay tells: a line for each command and for each request that was dispatched or struck, the book as
/// it stood after the last command, what each queue was given until then, and how long each request waited.
#[derive(Debug, Drop)]
pub struct Transcript {
    pub(crate) lines: Vec<Line>,
    pub(crate) totals: Totals,
    pub(crate) services: Vec<Service>,
    pub(crate) waits: Waits,
}

impl Transcript {
    /// Writes the lines and the book.
    ///
    /// # Errors
    ///
    /// The writer's. Then nothing is known of how much was written.
    pub fn write<W: Write>(&self, out: &mut W) -> Result<(), WriteFault>
        ensures { OnOk result (Appends (W.contents out.old) (W.contents out.new) (lines_text self.now.lines.items ++ totals_text self.now.totals)) }
    {
        write_lines(out, self.lines.as_slice())?;
        self.totals.write(out)?;
        Ok(())
    }

    /// Writes a line for each queue that a request entered, in the order of their numbers: how many entered, and
    /// the seats of those that were dispatched.
    ///
    /// # Errors
    ///
    /// The writer's. Then nothing is known of how much was written.
    pub fn write_services<W: Write>(&self, out: &mut W) -> Result<(), WriteFault>
        ensures { OnOk result (Appends (W.contents out.old) (W.contents out.new) (services_text self.now.services.items)) }
    {
        write_services(out, self.services.as_slice())?;
        Ok(())
    }

    /// Writes a line for each request that entered a queue, in the order of their numbers: its queue, the seats of
    /// those that stood before it when it entered, the most seats that one other queue was given while it waited,
    /// all seats that were given then, its own queue's among them, and whether it was dispatched, was struck or
    /// waits. It takes no memory.
    ///
    /// # Errors
    ///
    /// The writer's. Then nothing is known of how much was written.
    pub fn write_waits<W: Write>(&self, out: &mut W) -> Result<(), WriteFault>
        ensures { OnOk result ((text : List ℕ) × (IsWaitsText self.now.waits text × Appends (W.contents out.old) (W.contents out.new) text)) }
    {
        self.waits.write(out)?;
        Ok(())
    }
}
