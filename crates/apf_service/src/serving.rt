//! Reads lines to the end of the input, and answers them.

ghost use Rattle.std.specs.Prelude.{◌≡◌, [], false, length, string_bytes, IfSome, IfOk, IfErr, OnOk, MatchResult};
ghost use Rattle.std.specs.Io.KnownBytes.{Keeps, Appends};
ghost use Rattle.apf_lines.specs.Lines.{HasNoLf, Stays};
ghost use Rattle.apf_traces.specs.TraceFile.{max_bytes};
ghost use Rattle.apf_protocol.specs.declared.fault.Found.TheVariants.{Nothing};
ghost use Rattle.apf_protocol.specs.Faults.{fault_text};
ghost use Rattle.apf_protocol.specs.Texts.{first_text};
ghost use Rattle.apf_service.specs.declared.serving.ServeFault.TheVariants.{NoMemory, CannotRead, CannotWrite};
ghost use Rattle.apf_service.specs.Faults.{told_of_open, IsServeFault, IsPipeFault};
ghost use Rattle.apf_service.specs.Kept.{state_of};
ghost use Rattle.apf_service.specs.Rounds.{TakesOne, AnswersEach, ReadsOn, AnswersWhole, AnswersUntil, TellsRestOf, TellsEnd, IsOpenedWith};
ghost use Rattle.apf_service.specs.Serving.{Setup, IsServed};

use crate::service::Service;
use apf_charges::ChargedBy;
use apf_lines::{Cut, Lines};
use apf_local::OpenFault;
use apf_model::Config;
use apf_protocol::{FaultKind, LineFault};
use apf_traces::{MAX_BYTES, ObjectReader};
use std::alloc::{AllocError, Global};
use std::io;
use std::io::{Read, Write};
use thiserror::Error;

/// Why a level was not served to the end of its input.
#[derive(Clone, Copy, Debug, PartialEq, Eq, Error)]
pub enum ServeFault {
    /// The level was not opened.
    #[error("{0}")]
    Open(OpenFault),
    /// The input was not read.
    #[error("cannot read")]
    CannotRead,
    /// An answer was not written.
    #[error("cannot write")]
    CannotWrite,
    /// Memory was refused.
    #[error("out of memory")]
    NoMemory,
}

impl From<OpenFault> for ServeFault {
    ghost from_gives = { λ fault told. told ≡ told_of_open fault };

    fn from(fault: OpenFault) -> Self {
        match fault {
            OpenFault::NoMemory => Self::NoMemory,
            _ => Self::Open(fault),
        }
    }
}

impl From<AllocError> for ServeFault {
    ghost from_gives = { λ _ told. told ≡ NoMemory };

    fn from(_refused: AllocError) -> Self {
        Self::NoMemory
    }
}

// What was to be written was, or not.
fn written(done: io::Result<()>) -> Result<(), ServeFault>
    ensures { MatchResult done (λ x. result ≡ Ok x) (λ _. result ≡ Err CannotWrite) }
{
    match done {
        Ok(()) => Ok(()),
        Err(_) => Err(ServeFault::CannotWrite),
    }
}

// Tells this fault, which names nothing that was found, of the line of this number.
fn tell_fault<O: Write>(out: &mut O, kind: FaultKind, number: u64) -> Result<(), ServeFault>
    ensures told { OnOk result (IfSome (fault_text number kind Nothing) (Appends (O.contents out.old) (O.contents out.new))) }
    ensures fault { IfErr result (λ fault. fault ≡ CannotWrite) }
{
    written(LineFault::from(kind).write(out, number))
}

// What was written is handed to the system.
fn flush<O: Write>(out: &mut O) -> Result<(), ServeFault>
    ensures kept { OnOk result (Keeps (O.contents out.old) (O.contents out.new)) }
    ensures fault { IfErr result (λ fault. fault ≡ CannotWrite) }
{
    written(out.flush())
}

/// Opens a level with this many slots, 1 to 10,000, whose requests are charged so, and carries out the lines of the input, in one thread, to its end. At
/// the end the book is written, and the level is given up with all who are there still. What was answered is handed to the
/// system before the input is read again.
///
/// All memory of the level is taken before the first line is written. Reading an arrival's object may ask for memory, and
/// gives it back with the line, but for room for the next object and the hashes of the newest flows' names: some 2 MB at most.
///
/// # Errors
///
/// `Open` and `NoMemory` before the first line is written. `CannotRead`, `CannotWrite` if the input or the output fails. It reads
/// at most 2^64 - 1 times: an input that has not ended then counts as one that was not read.
pub fn serve<I: Read, O: Write>(
    alloc: Global,
    config: &Config,
    slots: u32,
    name: &str,
    by: ChargedBy,
    input: &mut I,
    out: &mut O,
) -> Result<(), ServeFault>
    ensures fault { IfErr result (IsServeFault config.now slots) }
    ensures served { IsServed (record { name = name.now; config = config.now; slots = slots; by = by }) (I.remaining input.old) (I.remaining input.new) (O.contents out.old) (O.contents out.new) result }
{
    let name = String::from_str(alloc, name)?;
    let mut service = Service::open(alloc, config, slots, name, by)?;
    let mut lines = Lines::new(alloc, MAX_BYTES)?;
    let mut objects = ObjectReader::new(alloc);
    answer_all(&mut objects, &mut service, &mut lines, input, out)
}

// Writes the first line, answers each line of the input, and writes the book.
fn answer_all<I: Read, O: Write>(
    objects: &mut ObjectReader,
    service: &mut Service,
    lines: &mut Lines,
    input: &mut I,
    out: &mut O,
) -> Result<(), ServeFault>
    requires longest { lines.old.longest ≡ max_bytes }
    requires nothing { lines.old.kept ≡ [] }
    requires whole { lines.old.is_skipped ≡ false }
    ensures served { (setup : Setup) → IsOpenedWith setup (string_bytes service.old.name) service.old.config (state_of service.old.level service.old.notes) → IsServed setup (I.remaining input.old) (I.remaining input.new) (O.contents out.old) (O.contents out.new) result }
    ensures fault { IfErr result IsPipeFault }
{
    begin(service, out)?;
    let number = answer_input(objects, service, lines, input, out)?;
    end(service, lines, number, out)
}

// Writes the first line.
fn begin<O: Write>(service: &Service, out: &mut O) -> Result<(), ServeFault>
    ensures written { OnOk result (Appends (O.contents out.old) (O.contents out.new) (first_text (record { slots = length service.now.level.places; config = service.now.config }))) }
    ensures fault { IfErr result (λ fault. fault ≡ CannotWrite) }
{
    written(service.first_line().write(out))?;
    flush(out)
}

// Tells the bytes behind the last line, if there are any, and the book. This is the number of the line that they would be.
fn end<O: Write>(
    service: &mut Service,
    lines: &Lines,
    number: u64,
    out: &mut O,
) -> Result<(), ServeFault>
    ensures told { OnOk result (TellsEnd number (state_of service.old.level service.old.notes) lines.now (O.contents out.old) (O.contents out.new)) }
    ensures fault { IfErr result (λ fault. fault ≡ CannotWrite) }
{
    tell_rest(lines, number, out)?;
    written(service.write_book(out))?;
    flush(out)
}

// Tells the bytes behind the last line, if there are any.
fn tell_rest<O: Write>(lines: &Lines, number: u64, out: &mut O) -> Result<(), ServeFault>
    ensures told { OnOk result (TellsRestOf number lines.now (O.contents out.old) (O.contents out.new)) }
    ensures fault { IfErr result (λ fault. fault ≡ CannotWrite) }
{
    if lines.has_rest() {
        tell_fault(out, FaultKind::Truncated, number)
    } else {
        Ok(())
    }
}

// Answers each line up to the end of the input. Tells the number of the line that would come next.
fn answer_input<I: Read, O: Write>(
    objects: &mut ObjectReader,
    service: &mut Service,
    lines: &mut Lines,
    input: &mut I,
    out: &mut O,
) -> Result<u64, ServeFault>
    requires longest { lines.old.longest ≡ max_bytes }
    requires nothing { lines.old.kept ≡ [] }
    requires whole { lines.old.is_skipped ≡ false }
    ensures same { (service.new.config ≡ service.old.config) × (service.new.name ≡ service.old.name) × (length service.new.level.places ≡ length service.old.level.places) }
    ensures answered { MatchResult result (AnswersWhole (string_bytes service.old.name) (state_of service.old.level service.old.notes) (state_of service.new.level service.new.notes) (I.remaining input.old) (I.remaining input.new) (O.contents out.old) (O.contents out.new) lines.new) (AnswersUntil (string_bytes service.old.name) (state_of service.old.level service.old.notes) (state_of service.new.level service.new.notes) (I.remaining input.old) (I.remaining input.new) (O.contents out.old) (O.contents out.new) lines.new) }
{
    let mut number = 1u64;
    'rounds: for _ in 0..u64::MAX {
        if !read_on(lines, input)? {
            return Ok(number);
        }
        number = answer_lines(objects, service, lines, number, out)?;
        flush(out)?;
    }
    Err(ServeFault::CannotRead)
}

// Reads on. Tells whether the input goes on.
fn read_on<I: Read>(lines: &mut Lines, input: &mut I) -> Result<bool, ServeFault>
    requires { HasNoLf lines.old.kept }
    ensures longest { lines.new.longest ≡ lines.old.longest }
    ensures read { MatchResult result (λ is_on. ReadsOn (I.remaining input.old) (I.remaining input.new) is_on lines.old lines.new) (λ fault. (fault ≡ CannotRead) × Stays (I.remaining input.old) (I.remaining input.new) lines.old lines.new) }
{
    match lines.fill(input) {
        Ok(count) => Ok(count > 0),
        Err(error) if error.kind() == io::ErrorKind::Interrupted => Ok(true),
        Err(_) => Err(ServeFault::CannotRead),
    }
}

// Answers each whole line that was read, of which the first has this number. Tells that of the next one.
fn answer_lines<O: Write>(
    objects: &mut ObjectReader,
    service: &mut Service,
    lines: &mut Lines,
    first: u64,
    out: &mut O,
) -> Result<u64, ServeFault>
    requires { lines.old.longest ≡ max_bytes }
    ensures longest { lines.new.longest ≡ lines.old.longest }
    ensures same { (service.new.config ≡ service.old.config) × (service.new.name ≡ service.old.name) × (length service.new.level.places ≡ length service.old.level.places) }
    ensures none { OnOk result (HasNoLf lines.new.kept) }
    ensures answered { IfOk result (AnswersEach (string_bytes service.old.name) first (state_of service.old.level service.old.notes) (state_of service.new.level service.new.notes) (O.contents out.old) (O.contents out.new) lines.old lines.new) }
    ensures fault { IfErr result (λ fault. fault ≡ CannotWrite) }
{
    let mut number = first;
    'lines: while answer_next(objects, service, lines, number, out)? {
        number = number.saturating_add(1);
    }
    Ok(number)
}

// Cuts off the next line that was read, and answers it as the line of this number. Tells whether there was one.
fn answer_next<O: Write>(
    objects: &mut ObjectReader,
    service: &mut Service,
    lines: &mut Lines,
    number: u64,
    out: &mut O,
) -> Result<bool, ServeFault>
    requires { lines.old.longest ≡ max_bytes }
    ensures longest { lines.new.longest ≡ lines.old.longest }
    ensures same { (service.new.config ≡ service.old.config) × (service.new.name ≡ service.old.name) × (length service.new.level.places ≡ length service.old.level.places) }
    ensures took { IfOk result (TakesOne (string_bytes service.old.name) number (state_of service.old.level service.old.notes) (state_of service.new.level service.new.notes) (O.contents out.old) (O.contents out.new) lines.old lines.new) }
    ensures fault { IfErr result (λ fault. fault ≡ CannotWrite) }
{
    match lines.cut() {
        Cut::Line => {
            written(service.take_line(objects, number, lines.line(), out))?;
            Ok(true)
        }
        Cut::TooLong => {
            tell_fault(out, FaultKind::TooLong, number)?;
            Ok(true)
        }
        Cut::Nothing => Ok(false),
    }
}
