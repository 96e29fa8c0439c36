//! What the trials have in common: the words of a command line, a level of one queue, and what is said of a level that
//! was not opened, and of its end.

use apf_model::{Config, Response};
use apf_session::OpenFault;
use std::alloc::AllocError;
use std::env::Args;
use std::fmt::Debug;
use std::io;

/// The status where memory was refused.
pub const NO_MEMORY: u8 = 3;

/// The next word as a number, if there is one that is a number.
pub fn number(words: &mut Args) -> Option<u64> {
    words.next().and_then(|word| word.parse::<u64>().ok())
}

/// Says that there is no such trial, and answers the status of that.
///
/// # Errors
///
/// Why it could not be written.
pub fn unknown(rt: &HostRuntime) -> io::Result<u8> {
    eprintln!(rt; "no such trial")?;
    Ok(2)
}

/// The settings of a level with this many seats and one queue, in which this many may wait.
pub fn one_queue(limit: u32, queue_length_limit: u32) -> Config {
    Config {
        limit,
        queues: 1,
        hand_size: 1,
        queue_length_limit,
        limit_response: Response::Queue,
    }
}

/// Says why a level was not opened, and answers the status of that.
///
/// # Errors
///
/// Why it could not be written.
pub fn tell_fault(rt: &HostRuntime, fault: OpenFault) -> io::Result<u8> {
    if matches!(fault, OpenFault::NoMemory) {
        eprintln!(rt; "out of memory")?;
        return Ok(NO_MEMORY);
    }
    eprintln!(rt; "the settings were refused")?;
    Ok(1)
}

/// Writes the counts of a level that ended, or says that there was no memory for them, and answers the status of that.
///
/// # Errors
///
/// Why it could not be written.
pub fn tell_end<C: Debug + Drop>(rt: &HostRuntime, end: Result<C, AllocError>) -> io::Result<u8> {
    match end {
        Ok(counts) => {
            println!(rt; "{counts:?}")?;
            Ok(0)
        }
        Err(_refused) => {
            eprintln!(rt; "out of memory at the end")?;
            Ok(NO_MEMORY)
        }
    }
}
