//! Reads and judges the files of a level, and says of the first fault what is wrong.

ghost use Rattle.std.specs.Prelude.{◌≡◌, ◌≤◌, ◌<◌, All, IfOk, Ok, [], length, vec_len, true, false, ℕ, List};
ghost use Rattle.apf_files.specs.ConfigFile.{IsConfigOf};
ghost use Rattle.apf_files.specs.JsonFile.{value_in, value_of};
ghost use Rattle.apf_files.specs.ScriptFile.{IsCommandInRange};
ghost use Rattle.apf_files.specs.ScriptLine.{IsFoundAt};
ghost use Rattle.apf_run.specs.Limits.{max_requests};
ghost use Rattle.apf_run.specs.RoundsPlans.{HasWidth};
ghost use Rattle.apf_cli.specs.Runs.{AreRead};
ghost use Rattle.apf_cli.specs.declared.faults.Fault.TheVariants.{NoMemory};
ghost use Rattle.apf_cli.specs.Told.{IsConfigExplained, IsRequestsExplained, IsScriptExplained, IsDealerExplained, StandsBehind};

use crate::faults::{Fault, Sizes};
use crate::files::{Files, Input, read_input, shown};
use crate::telling::named;
use apf_explain::{
    ExplainFault, begins_as_trace, explain_config, explain_dealer, explain_requests, explain_script,
};
use apf_files::{Parsed, RefusedScript, judge_config, judge_requests, judge_script, parse};
use apf_flow::DealerFault;
use apf_run::{Command, Config, ConfigFault, Request, RequestFault};
use std::alloc::Global;
use std::io::Write;

/// A fault, and the line that says it to a person, if there is one.
#[derive(Drop)]
pub(crate) struct Explained {
    pub(crate) fault: Fault,
    pub(crate) line: Vec<u8>,
}

impl Explained {
    // What is told where memory was refused: no part of a line.
    fn no_memory(alloc: Global) -> Explained
        ensures fault { result.fault ≡ NoMemory }
        ensures line { result.line.items ≡ [] }
    {
        Explained {
            fault: Fault::NoMemory,
            line: Vec::new(alloc),
        }
    }

    /// The fault as standard error has it: with its own line alone, or with both.
    pub(crate) fn told(self, alloc: Global, is_whole: bool) -> Fault
        ensures alone { is_whole ≡ false → result ≡ self.fault }
        ensures whole { is_whole ≡ true → 0 < vec_len self.line → StandsBehind self.line.items result }
    {
        let Explained { fault, line } = self;
        if !is_whole || line.is_empty() {
            return fault;
        }
        let mut lines = Vec::new(alloc);
        if fault.write(&mut lines).is_err() || lines.write_all(line.as_slice()).is_err() {
            return Fault::NoMemory;
        }
        Fault::Told(lines)
    }
}

// The fault of a config, whose bytes were parsed as this.
fn config_fault(
    alloc: Global,
    name: &str,
    bytes: &[u8],
    parsed: &Parsed,
    fault: ConfigFault,
) -> Explained
    requires { value_in parsed.now ≡ value_of bytes.now }
    ensures { IsConfigExplained name.now bytes.now fault result }
{
    let mut line = Vec::new(alloc);
    if let Ok(name) = shown(alloc, name)
        && explain_config(alloc, name.as_str(), bytes, parsed, fault, &mut line).is_ok()
    {
        let fault = Fault::Config(fault);
        return Explained { fault, line };
    }
    Explained::no_memory(alloc)
}

// The fault of requests, whose bytes were parsed as this.
fn requests_fault(
    alloc: Global,
    name: &str,
    bytes: &[u8],
    parsed: &Parsed,
    fault: RequestFault,
) -> Explained
    requires { value_in parsed.now ≡ value_of bytes.now }
    ensures { IsRequestsExplained name.now bytes.now fault result }
{
    let mut line = Vec::new(alloc);
    if let Ok(name) = shown(alloc, name)
        && explain_requests(alloc, name.as_str(), bytes, parsed, fault, &mut line).is_ok()
    {
        let fault = Fault::Requests(fault);
        return Explained { fault, line };
    }
    Explained::no_memory(alloc)
}

// The fault of a script, of a level with this many requests, and what stands there.
fn script_fault(
    alloc: Global,
    name: &str,
    bytes: &[u8],
    requests: u32,
    refused: RefusedScript<'_>,
) -> Explained
    requires { IsFoundAt bytes.now refused.fault refused.found }
    ensures { IsScriptExplained name.now bytes.now requests refused.entry.fault result }
{
    let mut line = Vec::new(alloc);
    if let Ok(name) = shown(alloc, name)
        && explain_script(name.as_str(), bytes, requests, refused, &mut line).is_ok()
    {
        let fault = Fault::Script(refused.fault);
        return Explained { fault, line };
    }
    Explained::no_memory(alloc)
}

// The fault of a dealer, of a config whose hands can't be dealt.
fn dealer_fault(alloc: Global, name: &str, config: &Config, fault: DealerFault) -> Explained
    ensures { IsDealerExplained name.now config.now fault result }
{
    let mut line = Vec::new(alloc);
    if let Ok(name) = shown(alloc, name)
        && explain_dealer(name.as_str(), config, fault, &mut line).is_ok()
    {
        let fault = Fault::Dealer(fault, Sizes::OfConfig);
        return Explained { fault, line };
    }
    Explained::no_memory(alloc)
}

/// The fault of a level that was not opened, where the file of its config has this name.
pub(crate) fn level_fault(alloc: Global, name: &str, config: &Config, fault: Fault) -> Explained {
    match fault {
        Fault::Dealer(fault, Sizes::OfConfig) => dealer_fault(alloc, name, config, fault),
        fault => Explained {
            fault,
            line: Vec::new(alloc),
        },
    }
}

// How many bytes a file of this kind has at most, in words.
fn at_most(input: Input) -> &'static str {
    match input {
        Input::Config => "a config has at most this many",
        Input::Requests => "requests have at most this many",
        Input::Script => "a script has at most this many",
        Input::Trace => "a trace has at most this many",
        Input::AuditLog => "an audit log has at most this many",
        Input::Objects => "objects have at most this many",
        Input::ServerLog => "a server log has at most this many",
    }
}

// What stands in the place of a config that is too large, if it is known, where the file begins with these bytes.
fn strange(alloc: Global, input: Input, front: &[u8]) -> Result<&'static str, ExplainFault> {
    if input == Input::Config && begins_as_trace(alloc, front)? {
        return Ok(", and the first line is a request of a trace");
    }
    Ok("")
}

// Writes why a file was not read.
fn write_unread(
    alloc: Global,
    name: &str,
    fault: &Fault,
    line: &mut Vec<u8>,
) -> Result<(), ExplainFault> {
    let written = match fault {
        Fault::CannotRead(_, cause) => writeln!(line, "{name}: can't be read: {cause}"),
        Fault::TooLarge(input, front) => {
            let most = input.most();
            let rule = at_most(*input);
            let strange = strange(alloc, *input, front.as_slice())?;
            writeln!(line, "{name}: more than {most} bytes: {rule}{strange}")
        }
        _ => Ok(()),
    };
    Ok(written?)
}

// The fault of a file that was not read.
fn unread_fault(alloc: Global, name: &str, fault: Fault) -> Explained {
    let mut line = Vec::new(alloc);
    if let Ok(name) = shown(alloc, name)
        && write_unread(alloc, name.as_str(), &fault, &mut line).is_ok()
    {
        return Explained { fault, line };
    }
    Explained::no_memory(alloc)
}

/// Reads the config of this name.
pub(crate) fn config_in<F: Files>(
    alloc: Global,
    files: &mut F,
    name: &str,
) -> Result<Config, Explained>
    ensures { IfOk result (λ config. (bytes : List ℕ) × F.holds name.now bytes × IsConfigOf bytes (Ok config)) }
{
    let bytes = match read_input(files, Input::Config, name) {
        Ok(bytes) => bytes,
        Err(fault) => return Err(unread_fault(alloc, name, fault)),
    };
    let Ok(parsed) = parse(alloc, bytes.as_slice()) else {
        return Err(Explained::no_memory(alloc));
    };
    match judge_config(&parsed) {
        Ok(config) => Ok(config),
        Err(fault) => Err(config_fault(alloc, name, bytes.as_slice(), &parsed, fault)),
    }
}

/// The same where no old text binds what is said: each fault has both lines, and a file that the system does not let be
/// read has its name and why in the one.
pub(crate) fn config_of<F: Files>(
    alloc: Global,
    files: &mut F,
    name: &str,
) -> Result<Config, Fault> {
    match config_in(alloc, files, name) {
        Ok(config) => Ok(config),
        Err(
            Explained {
                fault: Fault::CannotRead(input, cause),
                line: _,
            },
        ) => Err(named(alloc, name, Fault::CannotRead(input, cause))),
        Err(explained) => Err(explained.told(alloc, true)),
    }
}

/// Reads the config and the requests of these names, the config judged before the requests are read.
pub(crate) fn read_level<F: Files>(
    alloc: Global,
    files: &mut F,
    config: &str,
    requests: &str,
) -> Result<(Config, Vec<Request>), Explained>
    ensures few { IfOk result (λ o. length o.1.items ≤ max_requests) }
    ensures widths { IfOk result (λ o. All HasWidth o.1.items) }
    ensures read { IfOk result (λ o. AreRead F.holds config.now requests.now o.0 o.1.items) }
{
    let config = config_in(alloc, files, config)?;
    let bytes = match read_input(files, Input::Requests, requests) {
        Ok(bytes) => bytes,
        Err(fault) => return Err(unread_fault(alloc, requests, fault)),
    };
    let Ok(parsed) = parse(alloc, bytes.as_slice()) else {
        return Err(Explained::no_memory(alloc));
    };
    match judge_requests(alloc, &parsed) {
        Ok(requests) => Ok((config, requests)),
        Err(fault) => {
            let bytes = bytes.as_slice();
            Err(requests_fault(alloc, requests, bytes, &parsed, fault))
        }
    }
}

/// Reads the script of this name, of a level with this many requests.
pub(crate) fn script_in<F: Files>(
    alloc: Global,
    files: &mut F,
    name: &str,
    requests: u32,
) -> Result<Vec<Command>, Explained>
    ensures { IfOk result (λ commands. All (IsCommandInRange requests) commands.items) }
{
    let bytes = match read_input(files, Input::Script, name) {
        Ok(bytes) => bytes,
        Err(fault) => return Err(unread_fault(alloc, name, fault)),
    };
    match judge_script(alloc, bytes.as_slice(), requests) {
        Ok(commands) => Ok(commands),
        Err(refused) => Err(script_fault(alloc, name, bytes.as_slice(), requests, refused)),
    }
}
