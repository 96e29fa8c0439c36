//! The request that the bytes of a line are.

ghost use Rattle.std.specs.Prelude.{◌≡◌, ◌≢◌, ◌<◌, ◌≤◌, true, length, IfOk, OnOk, IfErr, Ok, Err};
ghost use Rattle.apf_traces.specs.TraceValue.{entry, IsRequestInRange, IsNamed};
ghost use Rattle.apf_traces.specs.TraceFile.{judged_within};

use crate::fault::TraceFault;
use crate::flat::line_value;
use crate::object::ObjectReader;
use crate::request::TraceRequest;
use crate::value::request_of_value;
use apf_words::MAX_REQUESTS;
use std::alloc::{AllocError, Global};
use std::marker::Model;

/// The most lines of a trace that is read as a whole, one for each request.
pub const MAX_LINES: u32 = MAX_REQUESTS;

/// The most bytes of one line, without its LF.
pub const MAX_BYTES: usize = 65_536;

/// What reads one line after another. It keeps the room that it needed, and the hashes of the newest
/// flows' names.
#[derive(Drop)]
pub struct LineReader {
    objects: ObjectReader,
}

impl Model for LineReader {
    ghost use Rattle.std.specs.Prelude.{ℕ};

    ghost Value = { ℕ };

    // Nothing of it matters to whoever reads by it.
    ghost view = { λ _. 0 };
}

impl LineReader {
    /// It takes no memory yet.
    pub fn new(alloc: Global) -> LineReader {
        LineReader {
            objects: ObjectReader::new(alloc),
        }
    }

    /// The request of line `line`, whose bytes come without their LF. `is_ended` says whether an LF ends them.
    /// `most` is how many lines a trace may have.
    ///
    /// # Errors
    ///
    /// The line's first fault, in the order of `TraceFault`. `NoMemory` only where memory was refused, and never of
    /// a line without bytes.
    #[tactic(auto, unfolding(crate::specs::TraceFile::judged_text))]
    pub fn read(
        &mut self,
        bytes: &[u8],
        is_ended: bool,
        line: u64,
        most: u64,
    ) -> Result<TraceRequest, TraceFault>
        ensures ok { IfOk result (λ request. judged_within most line (record { bytes = bytes.now; is_ended = is_ended }) ≡ Ok (entry request)) }
        ensures ranges { IfOk result IsRequestInRange }
        ensures named { IfOk result IsNamed }
        ensures few { OnOk result (line ≤ most) }
        ensures ended { OnOk result (is_ended ≡ true) }
        ensures err { IfErr result (λ fault. fault ≢ TraceFault.NoMemory
            → judged_within most line (record { bytes = bytes.now; is_ended = is_ended }) ≡ Err fault) }
        ensures memory { IfErr result (λ fault. fault ≡ TraceFault.NoMemory → 0 < length bytes.now) }
    {
        if line > most {
            return Err(TraceFault::TooMany(line));
        }
        if bytes.len() > MAX_BYTES {
            return Err(TraceFault::TooLong(line));
        }
        let objects = &mut self.objects;
        let value = match line_value(objects.alloc, bytes, &mut objects.scratch) {
            Ok(Some(value)) => value,
            Ok(None) => return Err(TraceFault::NotUtf8Json(line)),
            Err(AllocError) => return Err(TraceFault::NoMemory),
        };
        let request = request_of_value(objects.alloc, &mut objects.newest, &value, line)?;
        if !is_ended {
            return Err(TraceFault::Truncated(line));
        }
        Ok(request)
    }
}
