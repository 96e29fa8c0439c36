//! The command that says for a person what is wrong with the files of a replay.

use crate::faults::Fault;
use crate::files::{Files, judge_names};
use crate::reading::{Explained, level_fault, read_level, script_in};
use apf_run::replay;
use std::alloc::Global;
use std::io::Write;

// Prints the line of a fault, which is answered where that was written.
fn print_line<O: Write>(explained: Explained, out: &mut O) -> Fault {
    let Explained { fault, line } = explained;
    if out.write_all(line.as_slice()).is_err() || out.flush().is_err() {
        return Fault::CannotWrite;
    }
    fault
}

// Reads and judges the files as `replay` does, and opens the level.
fn judge<F: Files>(
    alloc: Global,
    files: &mut F,
    names: (&str, &str, &str),
) -> Result<(), Explained> {
    let (config, requests) = read_level(alloc, files, names.0, names.1)?;
    let _commands = script_in(alloc, files, names.2, requests.len() as u32)?;
    match replay(alloc, &config, requests.as_slice(), &[]) {
        Ok(_transcript) => Ok(()),
        Err(fault) => Err(level_fault(alloc, names.0, &config, fault.into())),
    }
}

/// Judges the files as `replay` does, and prints the first fault in one line: its file, its place, its key or
/// line, what stands there and what may stand there. Prints nothing where there is none.
///
/// # Errors
///
/// The fault that was printed, in the order config, requests, script, level, or else one of the output.
pub(crate) fn print_explanation<F: Files, O: Write>(
    alloc: Global,
    files: &mut F,
    names: (&str, &str, &str),
    out: &mut O,
) -> Result<(), Fault> {
    judge_names(&[names.0, names.1, names.2])?;
    match judge(alloc, files, names) {
        Ok(()) => Ok(()),
        Err(explained) => Err(print_line(explained, out)),
    }
}
