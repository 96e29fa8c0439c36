//! The files of a command line: where their bytes come from, and how many they may have.

ghost use Rattle.std.specs.Prelude.{◌≡◌, ◌≤◌, IfOk, vec_len, string_bytes, codes};
ghost use Rattle.std.specs.Io.{ReadsAtMost};
ghost use Rattle.apf_cli.specs.Names.{shown_name};
ghost use Rattle.apf_cli.specs.Sizes.{most_bytes};

use crate::faults::Fault;
use apf_flows::write_escaped;
use std::alloc::Global;
use std::io::Read;
use std::{fmt, io};

/// The name that stands for standard input. A file of this name is `./-`.
pub(crate) const STANDARD_INPUT: &str = "-";

/// The files of a command line.
#[derive(Clone, Copy, Debug, PartialEq, Eq)]
pub enum Input {
    Config,
    Requests,
    Script,
    Trace,
    AuditLog,
    Objects,
    ServerLog,
}

impl Input {
    /// The most bytes that the file may have: 64 KiB, 16 MiB, 2 MiB, 64 MiB, 64 MiB, 8 MiB and 64 MiB. A log that is read in
    /// pieces may have any length.
    pub fn most(self) -> u32
        ensures { result ≡ most_bytes self }
    {
        match self {
            Input::Config => 65_536,
            Input::Requests => 16_777_216,
            Input::Script => 2_097_152,
            Input::Trace => 67_108_864,
            Input::AuditLog => 67_108_864,
            Input::Objects => 8_388_608,
            Input::ServerLog => 67_108_864,
        }
    }
}

impl fmt::Display for Input {
    fn fmt<W: fmt::Write>(&self, f: &mut fmt::Formatter<W>) -> fmt::Result {
        f.write_str(match self {
            Input::Config => "config",
            Input::Requests => "requests",
            Input::Script => "script",
            Input::Trace => "trace",
            Input::AuditLog => "audit log",
            Input::Objects => "objects",
            Input::ServerLog => "server log",
        })
    }
}

/// Why the system does not let a file be read.
#[derive(Clone, Copy, Debug, PartialEq, Eq)]
pub enum Cause {
    Absent,
    NotAllowed,
    Folder,
    /// Another one.
    Other,
}

impl fmt::Display for Cause {
    fn fmt<W: fmt::Write>(&self, f: &mut fmt::Formatter<W>) -> fmt::Result {
        f.write_str(match self {
            Cause::Absent => "there is no such file",
            Cause::NotAllowed => "reading it is not allowed",
            Cause::Folder => "it is a folder",
            Cause::Other => "the system can't read it",
        })
    }
}

/// Why a file was not read.
#[derive(Debug, PartialEq, Eq, Drop)]
pub enum FileFault {
    /// The system does not let it be read.
    CannotRead(Cause),
    /// The file has more bytes than were asked for. Those that were read are its beginning.
    TooLarge(Vec<u8>),
    /// Memory was refused.
    NoMemory,
}

/// Why a file was not written.
#[derive(Clone, Copy, Debug, PartialEq, Eq)]
pub enum WriteFault {
    /// The system does not let it be written. What stands in it then is not known.
    CannotWrite(Cause),
    /// Memory was refused.
    NoMemory,
}

/// Where the program's files come from, and where it writes one.
pub trait Files {
    ghost use Rattle.std.specs.Prelude.{ℕ, List};

    // Which bytes the file of a name may hold, where `-` is standard input. Of a machine's files nothing is known.
    ghost holds: { List ℕ → List ℕ → Type 0 } = { λ _ _. Unit {0} };

    /// The bytes of the file of this name, which are at most `most`.
    ///
    /// # Errors
    ///
    /// `TooLarge` if the file has more than `most` bytes. No more than `most` and one byte are read.
    fn read(&mut self, name: &str, most: u32) -> Result<Vec<u8>, FileFault>
        ensures within { IfOk result (λ bytes. vec_len bytes ≤ most) }
        ensures held { IfOk result (λ bytes. holds name.now bytes.items) };

    /// The bytes of standard input up to its end, which are at most `most`.
    ///
    /// # Errors
    ///
    /// As for `read`.
    fn read_stdin(&mut self, most: u32) -> Result<Vec<u8>, FileFault>
        ensures within { IfOk result (λ bytes. vec_len bytes ≤ most) }
        ensures held { IfOk result (λ bytes. holds (codes "-") bytes.items) };

    /// Opens the file of this name: `read_some` reads it from then on, from its beginning.
    ///
    /// # Errors
    ///
    /// `CannotRead`, or `NoMemory`.
    fn open(&mut self, name: &str) -> Result<(), FileFault>;

    /// How many bytes the file has that was opened last, if that is known.
    fn size(&self) -> Option<u64>;

    /// Whether standard output is a terminal.
    fn is_shown(&self) -> bool;

    /// Reads the next bytes of the file that was opened last, or of standard input if none was, as many as there are and
    /// there is room for. Tells how many; none at its end.
    ///
    /// # Errors
    ///
    /// The system's.
    fn read_some(&mut self, into: &mut [u8]) -> io::Result<usize>
        ensures bound { ReadsAtMost result into.new };

    /// Makes the file of this name, or empties it, and writes these bytes.
    ///
    /// # Errors
    ///
    /// `CannotWrite`, or `NoMemory`.
    fn write(&mut self, name: &str, bytes: &[u8]) -> Result<(), WriteFault>;
}

/// A file of a command line that is read beside another one.
pub trait SecondFile {
    /// Opens the file of this name, or standard input if the name is `-`: it is read from then on, from its beginning.
    ///
    /// # Errors
    ///
    /// `CannotRead`, or `NoMemory`.
    fn open_second(&mut self, name: &str) -> Result<(), FileFault>;
}

/// What `read_some` reads, as it comes.
#[derive(Drop)]
pub(crate) struct Source<'a, F: Files> {
    files: &'a mut F,
    // whether the newest call read nothing
    is_ended: bool,
}

impl<'a, F: Files> Source<'a, F> {
    /// Standard input, or the file that was opened last.
    pub(crate) fn of(files: &'a mut F) -> Source<'a, F> {
        Source {
            files,
            is_ended: false,
        }
    }

    /// How many bytes the file has that was opened last, if that is known.
    pub(crate) fn size(&self) -> Option<u64> {
        self.files.size()
    }

    /// Whether its end was reached: the newest call read nothing.
    pub(crate) fn is_ended(&self) -> bool {
        self.is_ended
    }
}

impl<F: Files> Read for Source<'_, F> {
    fn read(&mut self, buf: &mut [u8]) -> io::Result<usize> {
        let count = self.files.read_some(buf)?;
        self.is_ended = count == 0;
        Ok(count)
    }
}

/// Why the system does not let a file be read, by the error that it gave.
pub fn cause_of(error: &io::Error) -> Cause {
    match error.kind() {
        io::ErrorKind::NotFound => Cause::Absent,
        io::ErrorKind::PermissionDenied => Cause::NotAllowed,
        io::ErrorKind::IsADirectory => Cause::Folder,
        _ => Cause::Other,
    }
}

/// The file of the command line of this name, or standard input if the name is `-`, to be read in pieces.
///
/// # Errors
///
/// `CannotRead`, or `NoMemory`.
pub(crate) fn open_input<'a, F: Files>(
    files: &'a mut F,
    input: Input,
    name: &str,
) -> Result<Source<'a, F>, Fault> {
    if name == STANDARD_INPUT {
        return Ok(Source::of(files));
    }
    match files.open(name) {
        Ok(()) => Ok(Source::of(files)),
        Err(FileFault::CannotRead(cause)) => Err(Fault::CannotRead(input, cause)),
        Err(_) => Err(Fault::NoMemory),
    }
}

/// The name of a file as a person is told it: escaped as in a JSON text, and where a terminal would obey a character.
///
/// # Errors
///
/// `NoMemory` if memory was refused.
pub(crate) fn shown(alloc: Global, name: &str) -> Result<String, Fault>
    ensures { IfOk result (λ shown. string_bytes shown ≡ shown_name name.now) }
{
    if name == STANDARD_INPUT {
        return Ok(String::from_str(alloc, "standard input")?);
    }
    let mut bytes = Vec::new(alloc);
    if write_escaped(&mut bytes, name).is_err() {
        return Err(Fault::NoMemory);
    }
    match String::from_utf8(bytes) {
        Ok(shown) => Ok(shown),
        // never, since a text that is escaped is one
        Err(_) => Err(Fault::NoMemory),
    }
}

/// At most one of the names stands for standard input.
pub(crate) fn judge_names(names: &[&str]) -> Result<(), Fault> {
    let inputs = names.iter().filter(|name| **name == STANDARD_INPUT).count();
    if inputs > 1 {
        return Err(Fault::TwoInputs);
    }
    Ok(())
}

/// The bytes of a file of the command line, or of standard input if its name is `-`.
pub(crate) fn read_input<F: Files>(
    files: &mut F,
    input: Input,
    name: &str,
) -> Result<Vec<u8>, Fault>
    ensures within { IfOk result (λ bytes. vec_len bytes ≤ most_bytes input) }
    ensures held { IfOk result (λ bytes. F.holds name.now bytes.items) }
{
    let most = input.most();
    let read = if name == STANDARD_INPUT {
        files.read_stdin(most)
    } else {
        files.read(name, most)
    };
    match read {
        Ok(bytes) => Ok(bytes),
        Err(FileFault::CannotRead(cause)) => Err(Fault::CannotRead(input, cause)),
        Err(FileFault::TooLarge(front)) => Err(Fault::TooLarge(input, front)),
        Err(FileFault::NoMemory) => Err(Fault::NoMemory),
    }
}
