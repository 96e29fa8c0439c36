//! The program `apf`: hands its words, the machine's files, standard output and standard error to
//! `apf_cli`, and ends with its status.
#![tactic(auto)]

ghost use Rattle.std.specs.Prelude.{◌≤◌, IfOk, vec_len};

use apf_cli::{FileFault, Files, SecondFile, WriteFault, act, cause_of};
use std::alloc::{AllocError, Global};
use std::fs::File;
use std::io;
use std::io::{BufWriter, IsTerminal, Read, Write};
use std::process::ExitCode;
use std::sync::Wait;
use std::thread::Threads;
use std::time::Clock;

// The machine's files.
#[derive(Drop)]
struct Disk<'a> {
    rt: &'a HostRuntime,
    // the file that was opened last, if one was
    opened: Option<File>,
}

impl Files for Disk<'_> {
    fn read(&mut self, name: &str, most: u32) -> Result<Vec<u8>, FileFault> {
        let file = File::open(self.rt, name).map_err(fault_of)?;
        read_bounded(self.rt.alloc(), file, most)
    }

    fn read_stdin(&mut self, most: u32) -> Result<Vec<u8>, FileFault> {
        read_bounded(self.rt.alloc(), self.rt.stdin(), most)
    }

    fn open(&mut self, name: &str) -> Result<(), FileFault> {
        let file = File::open(self.rt, name).map_err(fault_of)?;
        self.opened = Some(file);
        Ok(())
    }

    fn size(&self) -> Option<u64> {
        let metadata = self.opened.as_ref()?.metadata().ok()?;
        if metadata.is_file() {
            Some(metadata.len())
        } else {
            None
        }
    }

    fn is_shown(&self) -> bool {
        self.rt.stdout().is_terminal()
    }

    fn read_some(&mut self, into: &mut [u8]) -> io::Result<usize> {
        match &mut self.opened {
            Some(file) => file.read(into),
            None => self.rt.stdin().read(into),
        }
    }

    fn write(&mut self, name: &str, bytes: &[u8]) -> Result<(), WriteFault> {
        let mut file = File::create(self.rt, name).map_err(write_fault_of)?;
        file.write_all(bytes).map_err(write_fault_of)
    }
}

// A file of the machine that is read beside another one.
#[derive(Drop)]
struct Beside<'a> {
    rt: &'a HostRuntime,
    // the file, or none of standard input
    opened: Option<File>,
}

impl Read for Beside<'_> {
    fn read(&mut self, buf: &mut [u8]) -> io::Result<usize> {
        match &mut self.opened {
            Some(file) => file.read(buf),
            None => self.rt.stdin().read(buf),
        }
    }
}

impl SecondFile for Beside<'_> {
    fn open_second(&mut self, name: &str) -> Result<(), FileFault> {
        if name == "-" {
            self.opened = None;
            return Ok(());
        }
        let file = File::open(self.rt, name).map_err(fault_of)?;
        self.opened = Some(file);
        Ok(())
    }
}

fn fault_of(error: io::Error) -> FileFault {
    match error.kind() {
        io::ErrorKind::OutOfMemory => FileFault::NoMemory,
        _ => FileFault::CannotRead(cause_of(&error)),
    }
}

fn write_fault_of(error: io::Error) -> WriteFault {
    match error.kind() {
        io::ErrorKind::OutOfMemory => WriteFault::NoMemory,
        _ => WriteFault::CannotWrite(cause_of(&error)),
    }
}

// The bytes up to the end, of which no more than `most` and one are read.
fn read_bounded<R: Read + Drop>(alloc: Global, from: R, most: u32) -> Result<Vec<u8>, FileFault>
    ensures within { IfOk result (λ bytes. vec_len bytes ≤ most) }
{
    let mut bytes = Vec::new(alloc);
    let mut bounded = from.take(u64::from(most) + 1);
    bounded.read_to_end(&mut bytes).map_err(fault_of)?;
    if bytes.len() > most as usize {
        return Err(FileFault::TooLarge(bytes));
    }
    Ok(bytes)
}

// Why the program ends before it reads its words.
enum Unread {
    // A word of the command line is not UTF-8.
    NotUtf8,
    NoMemory,
}

impl From<AllocError> for Unread {
    fn from(_refused: AllocError) -> Unread {
        Unread::NoMemory
    }
}

impl From<io::Error> for Unread {
    fn from(error: io::Error) -> Unread {
        match error.kind() {
            io::ErrorKind::InvalidData => Unread::NotUtf8,
            _ => Unread::NoMemory,
        }
    }
}

// The status, or why there is none: what the output needs of memory is taken before anything else.
fn run<R: Wait + Threads + Sync + Clock>(rt: &HostRuntime, waiter: &R) -> Result<u8, Unread> {
    let alloc = rt.alloc();
    let mut out = BufWriter::new(alloc, io::writer(rt)).map_err(|_| Unread::NoMemory)?;
    let owned: Vec<String> = std::env::args(rt)?.collect(alloc)?;
    let words: Vec<&str> = owned.iter().map(|word| word.as_str()).collect(alloc)?;
    let mut files = Disk { rt, opened: None };
    let mut beside = Beside { rt, opened: None };
    Ok(act(
        waiter,
        alloc,
        words.as_slice(),
        &mut files,
        &mut beside,
        &mut out,
        &mut rt.stderr(),
    ))
}

fn main(rt: HostRuntime) -> ExitCode {
    match run(&rt, &rt) {
        Ok(status) => ExitCode::from(status),
        Err(Unread::NotUtf8) => {
            let _ = eprintln!(rt; "apf: the command line is not UTF-8");
            ExitCode::from(2)
        }
        Err(Unread::NoMemory) => {
            let _ = eprintln!(rt; "apf: out of memory");
            ExitCode::from(3)
        }
    }
}
