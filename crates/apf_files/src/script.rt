//! The script file: the commands that a replay carries out, one a line.

ghost use Rattle.std.specs.Prelude.{◌≡◌, ◌≢◌, ◌+◌, ◌<◌, ◌≤◌, ◌^◌, ℕ, MatchOption, IfOk, IfErr, IfSome, OnOk, Ok, Err, All, length, vec_len, slice_index, drop};
ghost use Rattle.apf_files.specs.ScriptFile.{script_of, max_lines, judged_line, in_range as in_range_of, of_request as of_request_of, script_fault_number, line_of, IsCommandInRange};
ghost use Rattle.apf_files.specs.ScriptLine.{number_in, found_number, IsOfNumber, IsFoundIn, IsFoundAt};

mod line;

use crate::script::line::command_of_line;
use apf_words::MAX_LIMIT;
use std::alloc::Global;
use thiserror::Error;

/// One command of a script. Requests are named by their number in the requests file, from 0.
#[derive(Clone, Copy, Debug, PartialEq, Eq)]
pub enum Command {
    /// The request arrives.
    Arrive(u32),
    /// The request gives its seats back.
    Finish(u32),
    /// The request is cancelled.
    Cancel(u32),
    /// The level is closed.
    Close,
    /// The level's limit becomes this one, 1 to 10,000 seats.
    Limit(u32),
}

/// Why a script file was refused: the first fault, with its line, counted from 1.
#[derive(Clone, Copy, Debug, PartialEq, Eq, Error)]
pub enum ScriptFault {
    /// 1: the line is number 100,001.
    #[error("too many lines")]
    TooLong(u32),
    /// 2: bytes stand after the last LF.
    #[error("truncated")]
    Truncated(u32),
    /// 3: the line has none of the five forms.
    #[error("bad line")]
    BadLine(u32),
    /// 4: the line names a request that there is not.
    #[error("unknown request")]
    UnknownRequest(u32),
    /// 5: memory was refused.
    #[error("out of memory")]
    NoMemory,
    /// 6: the limit is outside 1 to 10,000.
    #[error("bad limit")]
    BadLimit(u32),
}

/// What stands in the line of a script that has a fault, as far as the fault tells it.
#[derive(Clone, Copy, Debug, PartialEq, Eq)]
pub enum InScript<'a> {
    /// Nothing that is told.
    Nothing,
    /// The bytes of a line that has none of the five forms, without its LF.
    Line(&'a [u8]),
    /// The number of a command: of a request that there is not, or a limit outside its range.
    Number(u32),
}

/// Why a script file was refused, and what stands there.
#[derive(Clone, Copy, Debug, PartialEq, Eq)]
pub struct RefusedScript<'a> {
    pub fault: ScriptFault,
    pub found: InScript<'a>,
}

/// The most lines of a script.
pub const MAX_LINES: u32 = 100_000;

impl ScriptFault {
    /// The fault's number, 1 to 6.
    pub fn number(&self) -> u8
        ensures { result ≡ script_fault_number self.now }
    {
        match self {
            ScriptFault::TooLong(_) => 1,
            ScriptFault::Truncated(_) => 2,
            ScriptFault::BadLine(_) => 3,
            ScriptFault::UnknownRequest(_) => 4,
            ScriptFault::NoMemory => 5,
            ScriptFault::BadLimit(_) => 6,
        }
    }

    /// The line of the fault, counted from 1. Out of memory has none.
    pub fn line(&self) -> Option<u32>
        ensures { result ≡ line_of self.now }
    {
        match *self {
            ScriptFault::TooLong(line)
            | ScriptFault::Truncated(line)
            | ScriptFault::BadLine(line)
            | ScriptFault::UnknownRequest(line)
            | ScriptFault::BadLimit(line) => Some(line),
            ScriptFault::NoMemory => None,
        }
    }
}

// The command of a request, which has to be among the requests.
fn of_request(
    request: u32,
    requests: u32,
    line: u32,
    command: Command,
) -> Result<Command, ScriptFault>
    ensures value { result ≡ of_request_of requests line request command }
    ensures known { OnOk result (request < requests) }
    ensures err { IfErr result (IsOfNumber line) }
{
    if request < requests {
        Ok(command)
    } else {
        Err(ScriptFault::UnknownRequest(line))
    }
}

#[tactic(auto, unfolding(crate::specs::ScriptFile::in_range))]
fn in_range(command: Command, requests: u32, line: u32) -> Result<Command, ScriptFault>
    ensures value { result ≡ in_range_of requests line command }
    ensures ranges { IfOk result (IsCommandInRange requests) }
    ensures err { IfErr result (IsOfNumber line) }
{
    match command {
        Command::Arrive(n) | Command::Finish(n) | Command::Cancel(n) => {
            of_request(n, requests, line, command)
        }
        Command::Close => Ok(command),
        Command::Limit(n) if 1 <= n && n <= MAX_LIMIT => Ok(command),
        Command::Limit(_) => Err(ScriptFault::BadLimit(line)),
    }
}

// The number that a command has.
fn number_of(command: Command) -> InScript<'static>
    ensures { found_number result ≡ number_in command }
{
    match command {
        Command::Arrive(n) | Command::Finish(n) | Command::Cancel(n) | Command::Limit(n) => {
            InScript::Number(n)
        }
        Command::Close => InScript::Nothing,
    }
}

#[tactic(auto, unfolding(crate::specs::ScriptFile::judged_line))]
fn judge(bytes: &[u8], line: u32, requests: u32) -> Result<Command, RefusedScript<'_>>
    ensures ok { IfOk result (λ command. judged_line requests line bytes.now ≡ Ok command) }
    ensures ranges { IfOk result (IsCommandInRange requests) }
    ensures err { IfErr result (λ refused. judged_line requests line bytes.now ≡ Err refused.fault) }
    ensures place { IfErr result (λ refused. line_of refused.fault ≡ Some line) }
    ensures found { IfErr result (λ refused. IsFoundIn (Some bytes.now) refused.fault refused.found) }
{
    let Some(command) = command_of_line(bytes) else {
        return Err(RefusedScript {
            fault: ScriptFault::BadLine(line),
            found: InScript::Line(bytes),
        });
    };
    match in_range(command, requests, line) {
        Ok(command) => Ok(command),
        Err(fault) => Err(RefusedScript {
            fault,
            found: number_of(command),
        }),
    }
}

// A fault of which nothing is told but itself.
fn refused(fault: ScriptFault) -> RefusedScript<'static>
    ensures { result.fault ≡ fault }
{
    RefusedScript {
        fault,
        found: InScript::Nothing,
    }
}

/// The place of the first LF, where there is one.
pub fn line_end(bytes: &[u8]) -> Option<usize>
    ensures found { MatchOption result
        ((k : ℕ) → k < length bytes.now → slice_index bytes.now k ≢ 10)
        (λ end. (end < length bytes.now) × (slice_index bytes.now end ≡ 10)
        × ((k : ℕ) → k < end → slice_index bytes.now k ≢ 10)) }
    ensures fits { IfSome result (λ end. end + 1 < 2 ^ 64) }
{
    bytes.iter().position(|byte| *byte == b'\n')
}

fn after(bytes: &[u8], at: usize) -> &[u8]
    requires { at ≤ length bytes.now }
    ensures { result.now ≡ drop at bytes.now }
{
    &bytes[at..]
}

/// The commands of a script file: lines that each end in one LF, at most 100,000.
///
/// A line is `arrive N`, `finish N`, `cancel N`, `close` or `limit N`, with one space before N and nothing else.
/// N has one to five decimal digits and no zero before another digit. The empty file is the empty script.
/// `requests` is the number of requests that `arrive`, `finish` and `cancel` choose from.
///
/// # Errors
///
/// Lines are judged from the first to the last, each by `TooLong`, `Truncated`, `BadLine`, `UnknownRequest` and
/// `BadLimit` in this order; the first fault is answered, with what stands there. `NoMemory` only where memory was refused.
pub fn judge_script(
    alloc: Global,
    bytes: &[u8],
    requests: u32,
) -> Result<Vec<Command>, RefusedScript<'_>>
    ensures ok { IfOk result (λ commands. script_of requests bytes.now ≡ Ok commands.items) }
    ensures ranges { IfOk result (λ commands. (vec_len commands ≤ max_lines)
        × All (IsCommandInRange requests) commands.items) }
    ensures err { IfErr result (λ refused. refused.fault ≢ ScriptFault.NoMemory
        → script_of requests bytes.now ≡ Err refused.fault) }
    ensures found { IfErr result (λ refused. IsFoundAt bytes.now refused.fault refused.found) }
    ensures memory { IfErr result (λ refused. refused.fault ≡ ScriptFault.NoMemory → 0 < length bytes.now) }
{
    let mut commands = Vec::new(alloc);
    let mut rest = bytes;
    let mut line = 1;
    while !rest.is_empty() {
        if line > MAX_LINES {
            return Err(refused(ScriptFault::TooLong(line)));
        }
        let Some(end) = line_end(rest) else {
            return Err(refused(ScriptFault::Truncated(line)));
        };
        let command = judge(&rest[..end], line, requests)?;
        if commands.push(command).is_err() {
            return Err(refused(ScriptFault::NoMemory));
        }
        rest = after(rest, end + 1);
        line += 1;
    }
    Ok(commands)
}

/// Reads a script file.
///
/// # Errors
///
/// The fault alone of `judge_script`.
pub fn read_script(alloc: Global, bytes: &[u8], requests: u32) -> Result<Vec<Command>, ScriptFault>
    ensures ok { IfOk result (λ commands. script_of requests bytes.now ≡ Ok commands.items) }
    ensures ranges { IfOk result (λ commands. (vec_len commands ≤ max_lines)
        × All (IsCommandInRange requests) commands.items) }
    ensures err { IfErr result (λ fault. fault ≢ ScriptFault.NoMemory
        → script_of requests bytes.now ≡ Err fault) }
    ensures memory { IfErr result (λ fault. fault ≡ ScriptFault.NoMemory → 0 < length bytes.now) }
{
    match judge_script(alloc, bytes, requests) {
        Ok(commands) => Ok(commands),
        Err(refused) => Err(refused.fault),
    }
}
