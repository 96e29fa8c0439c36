//! The whole program over files and writers that the caller passes.

ghost use Rattle.std.specs.Prelude.{◌≡◌, [], Err, OnOk, true};
ghost use Rattle.clap.specs.Walk.{texts};
ghost use Rattle.clap.specs.Values.{kind_of};
ghost use Rattle.apf_cli.specs.Runs.{PrintsFor, Performs};
ghost use Rattle.apf_commands.specs.Commands.{is_script_command, is_simulation_command};
ghost use Rattle.apf_commands.specs.Meaning.{IsInRange, words_fault};

use crate::audits::print_trace;
use crate::cluster_logs::Names;
use crate::cluster_runs::{Simulated, print_cluster_command};
use crate::clusters::{print_cluster, print_matches};
use crate::explaining::print_explanation;
use crate::faults::{Fault, Sizes};
use crate::files::{Files, SecondFile, judge_names};
use crate::notes::note_patience;
use crate::pictures::{Drawn, print_picture};
use crate::reading::{Explained, level_fault, read_level, script_in};
use crate::running::print_run;
use crate::second::Second;
use crate::serving::{Served, print_served};
use crate::streaming::{print_comparison, print_fates, print_simulation, print_timeline};
use crate::traces::{Way, print_hands, print_requests};
use apf_commands::{Action, Arguments, read_words};
use apf_flow::{Dealer, flow_hash};
use apf_flows::write_escaped;
use apf_run::{Transcript, replay};
use clap::error::ErrorKind;
use std::alloc::{AllocError, Global};
use std::io::{IsTerminal, Read, Write};
use std::sync::Wait;
use std::thread::Threads;
use std::time::Clock;

// Where output goes.
const OUTPUT: &str =
    "apf: the output goes to standard output: >FILE behind the command writes it to a file";

// Prints the hash as 16 hexadecimal digits.
fn print_hash<O: Write>(schema: &str, distinguisher: &str, out: &mut O) -> Result<(), Fault> {
    let hash = flow_hash(schema, distinguisher);
    writeln!(out, "{hash:016x}").map_err(|_| Fault::CannotWrite)
}

// Prints the cards with one space between two.
fn print_deal<O: Write>(deck: u32, hand: u32, hash: u64, out: &mut O) -> Result<(), Fault> {
    let cards = match Dealer::new(deck, hand) {
        Ok(dealer) => dealer.deal(hash),
        Err(fault) => return Err(Fault::Dealer(fault, Sizes::OfCommandLine)),
    };
    for (place, card) in cards.as_slice().iter().enumerate() {
        let gap = if place == 0 { "" } else { " " };
        if write!(out, "{gap}{card}").is_err() {
            return Err(Fault::CannotWrite);
        }
    }
    writeln!(out).map_err(|_| Fault::CannotWrite)
}

// Reads the three files, each judged before the next is read, and runs the script.
fn replayed<F: Files>(
    alloc: Global,
    files: &mut F,
    names: (&str, &str, &str),
) -> Result<Transcript, Explained> {
    let (config, requests) = read_level(alloc, files, names.0, names.1)?;
    let commands = script_in(alloc, files, names.2, requests.len() as u32)?;
    match replay(alloc, &config, requests.as_slice(), commands.as_slice()) {
        Ok(transcript) => Ok(transcript),
        Err(fault) => Err(level_fault(alloc, names.0, &config, fault.into())),
    }
}

// Does what a command on a script asks for, and prints what it says. `is_whole` says whether the line of a fault has the
// one behind it that says it to a person.
fn print_scripted<F: Files, O: Write>(
    alloc: Global,
    command: &str,
    files: &mut F,
    names: (&str, &str, &str),
    is_whole: bool,
    out: &mut O,
) -> Result<(), Fault>
    requires { is_script_command command.now ≡ true }
{
    if command == "explain" {
        return print_explanation(alloc, files, names, out);
    }
    judge_names(&[names.0, names.1, names.2])?;
    let transcript = match replayed(alloc, files, names) {
        Ok(transcript) => transcript,
        Err(explained) => return Err(explained.told(alloc, is_whole)),
    };
    if command == "replay" {
        Ok(transcript.write(out)?)
    } else if command == "services" {
        Ok(transcript.write_services(out)?)
    } else if command == "waits" {
        Ok(transcript.write_waits(out)?)
    } else {
        unreachable!()
    }
}

// Does what a command on a simulation asks for, and prints what it says.
fn print_simulated<F: Files, O: Write, R: Clock, E: Write + IsTerminal>(
    rt: &R,
    alloc: Global,
    command: &str,
    files: &mut F,
    names: (&str, &str),
    way: Way<'_>,
    out: &mut O,
    err: &mut E,
) -> Result<(), Fault>
    requires { is_simulation_command command.now ≡ true }
{
    if command == "timeline" {
        print_timeline(alloc, files, names, way, out, rt, err)
    } else if command == "fates" {
        // it prints as it goes on
        let is_shared = files.is_shown();
        print_fates(alloc, files, names, way, out, rt, err, is_shared)
    } else {
        unreachable!()
    }
}

// Does what a command asks for, and prints what it says. Where commands have arguments of one kind, its name says which it is.
fn print_action<
    F: Files,
    S: SecondFile + Read,
    O: Write,
    E: Write + IsTerminal,
    R: Wait + Threads + Sync + Clock,
>(
    rt: &R,
    alloc: Global,
    action: Action<'_>,
    files: &mut F,
    beside: &mut S,
    out: &mut O,
    err: &mut E,
) -> Result<(), Fault>
    requires { IsInRange action }
    ensures { OnOk result (PrintsFor F.holds action.entry (O.contents out.old) (O.contents out.new)) }
{
    let command = action.command;
    match action.arguments {
        Arguments::Flow {
            schema,
            distinguisher,
        } => print_hash(schema, distinguisher, out),
        Arguments::Deck { deck, hand, hash } => print_deal(deck, hand, hash, out),
        Arguments::Script {
            config,
            requests,
            script,
        } => {
            let is_whole = err.is_terminal();
            let names = (config, requests, script);
            print_scripted(alloc, command, files, names, is_whole, out)
        }
        Arguments::Workers {
            config,
            requests,
            workers,
            rounds,
        } => {
            let is_whole = err.is_terminal();
            let pace = (workers, rounds);
            print_run(
                rt,
                alloc,
                files,
                (config, requests),
                pace,
                is_whole,
                out,
                rt,
                err,
            )
        }
        Arguments::Level {
            config,
            slots,
            name,
            charge,
        } => {
            let level = Served {
                config,
                slots,
                name,
                charge,
            };
            print_served(alloc, files, level, out)
        }
        Arguments::Simulation {
            config,
            trace,
            patience,
            charge,
        } => {
            let way = Way { patience, charge };
            print_simulated(rt, alloc, command, files, (config, trace), way, out, err)?;
            note_patience(patience, err);
            Ok(())
        }
        Arguments::Bounded {
            config,
            trace,
            patience,
            charge,
            bound,
        } => {
            let way = Way { patience, charge };
            print_simulation(alloc, files, (config, trace), way, bound, out, rt, err)?;
            note_patience(patience, err);
            Ok(())
        }
        Arguments::Comparison {
            config,
            other,
            trace,
            patience,
            charge,
        } => {
            let way = Way { patience, charge };
            print_comparison(alloc, files, (config, other, trace), way, out, rt, err)?;
            note_patience(patience, err);
            Ok(())
        }
        Arguments::Trace { trace } => print_requests(alloc, files, trace, out),
        Arguments::Picture {
            config,
            trace,
            patience,
            charge,
            from,
            to,
        } => {
            let way = Way { patience, charge };
            let drawn = Drawn { from, to };
            print_picture(alloc, files, (config, trace), way, drawn, out, rt, err)?;
            note_patience(patience, err);
            Ok(())
        }
        Arguments::Flows {
            config,
            trace,
            flow,
        } => print_hands(alloc, files, (config, trace), flow, out, rt, err),
        Arguments::AuditLog {
            log,
            schema,
            chosen,
        } => print_trace(alloc, files, (log, schema), &chosen, out, rt, err),
        Arguments::Objects { objects, seats } => print_cluster(alloc, files, objects, seats, out),
        Arguments::Match { objects, asked } => print_matches(alloc, files, objects, &asked, out),
        Arguments::Cluster {
            objects,
            log,
            patience,
            seats,
            flows,
            json,
            no_lending,
            level,
            trace,
            changes,
            against,
            warm_up,
            picture,
            http_log,
        } => {
            let names = Names {
                objects,
                log,
                server_log: http_log,
            };
            let second = Second {
                changes: changes.as_slice(),
                against,
            };
            let way = Simulated {
                patience,
                seats,
                flows,
                json,
                no_lending,
                warm_up,
                picture,
            };
            print_cluster_command(
                alloc,
                files,
                beside,
                names,
                way,
                (level, trace),
                second,
                out,
                rt,
                err,
            )
        }
    }
}

// The same, with all of it written.
fn perform<
    F: Files,
    S: SecondFile + Read,
    O: Write,
    E: Write + IsTerminal,
    R: Wait + Threads + Sync + Clock,
>(
    rt: &R,
    alloc: Global,
    action: Action<'_>,
    files: &mut F,
    beside: &mut S,
    out: &mut O,
    err: &mut E,
) -> Result<(), Fault>
    requires { IsInRange action }
    ensures { OnOk result (PrintsFor F.holds action.entry (O.contents out.old) (O.contents out.new)) }
{
    print_action(rt, alloc, action, files, beside, out, err)?;
    match out.flush() {
        Ok(()) => Ok(()),
        Err(_) => Err(Fault::CannotWrite),
    }
}

// Whether a refusal is of an option that names a file for the output.
fn is_of_output(text: &str) -> bool {
    text.contains("unexpected argument '-o'") || text.contains("unexpected argument '--out")
}

// Prints the lines of a refusal, which name words of the command line: escaped as file names are. A write to `err` that
// fails changes nothing.
fn print_escaped<E: Write>(
    alloc: Global,
    error: &clap::Error,
    err: &mut E,
) -> Result<(), AllocError> {
    let text = format!(in alloc; "{error}")?;
    for line in text.lines() {
        let _ = write_escaped(err, line);
        let _ = err.write_all(b"\n");
    }
    if is_of_output(text.as_str()) {
        let _ = writeln!(err, "{OUTPUT}");
    }
    Ok(())
}

// Prints what `clap` says: help that was asked for on standard output, and a refusal on standard error.
fn print_refusal<O: Write, E: Write>(
    alloc: Global,
    error: &clap::Error,
    out: &mut O,
    err: &mut E,
) -> Result<u8, Fault>
    ensures { kind_of error.now ≡ ErrorKind.OutOfMemory → result ≡ Err Fault.NoMemory }
{
    if error.kind() == ErrorKind::OutOfMemory {
        return Err(Fault::NoMemory);
    }
    if error.use_stderr() {
        print_escaped(alloc, error, err)?;
        return Ok(2);
    }
    match write!(out, "{error}").and_then(|()| out.flush()) {
        Ok(()) => Ok(0),
        Err(_) => Err(Fault::CannotWrite),
    }
}

// Does what the words ask for, or prints what `clap` says of them.
fn attempt<
    F: Files,
    S: SecondFile + Read,
    O: Write,
    E: Write + IsTerminal,
    R: Wait + Threads + Sync + Clock,
>(
    rt: &R,
    alloc: Global,
    words: &[&str],
    files: &mut F,
    beside: &mut S,
    out: &mut O,
    err: &mut E,
) -> Result<u8, Fault>
    ensures { words_fault (texts words.entry.now) ≡ [] → OnOk result (Performs F.holds (texts words.entry.now) (O.contents out.old) (O.contents out.new)) }
{
    match read_words(alloc, words) {
        Ok(action) => {
            perform(rt, alloc, action, files, beside, out, err)?;
            Ok(0)
        }
        Err(error) => print_refusal(alloc, &error, out, err),
    }
}

/// The whole program: the first word is its name, and the answer is its status.
///
/// 0 is done; 1 a file's fault, or output that can't be written; 2 a command line's fault, dealer
/// faults of `deal` and standard input named twice among them; 3 out of memory or a worker that could not start. Before the
/// status is 1, 2 or 3, one fault is printed on `err`, and a write to it that fails changes no
/// status. A fault prints nothing on `out`, except that a failed write may have written a beginning.
///
/// Where there is nothing to say of the words themselves, status 0 means that their command was performed. What is stated of that
/// is what `run` prints: the book of a run of the files that it names.
pub fn act<
    F: Files,
    S: SecondFile + Read,
    O: Write,
    E: Write + IsTerminal,
    R: Wait + Threads + Sync + Clock,
>(
    rt: &R,
    alloc: Global,
    words: &[&str],
    files: &mut F,
    beside: &mut S,
    out: &mut O,
    err: &mut E,
) -> u8
    ensures { words_fault (texts words.entry.now) ≡ [] → result ≡ 0 → Performs F.holds (texts words.entry.now) (O.contents out.old) (O.contents out.new) }
{
    match attempt(rt, alloc, words, files, beside, out, err) {
        Ok(status) => status,
        Err(fault) => {
            let _ = fault.write(err);
            fault.status()
        }
    }
}
