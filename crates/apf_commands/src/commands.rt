//! The program's command line: its commands with their arguments, as `clap` takes them.
ghost use Rattle.std.specs.Prelude.{◌≡◌, IfOk, false, map};
ghost use Rattle.clap.specs.Words.{app_of, rule_of, shape_of};
ghost use Rattle.clap.specs.declared.builder.command.Command.TheViews.{out-Command};
ghost use Rattle.apf_commands.specs.Commands.{AddsRules, apf_app, cluster_log_rules, cluster_print_rules, listed, with_commands, rules_of, shape_for, flag_rule, text_rule, number_rule, option_rule, number_option_rule, repeated_rule};
ghost use Rattle.apf_commands.specs.declared.entries.Kind.TheVariants as of_kind;

use crate::entries::{Entry, Kind};
use crate::{level_commands, trace_commands};
use clap::builder::ValueParser;
use clap::{Arg, ArgAction, Command, value_parser};
use std::alloc::{AllocError, Global};

/// What `--version` prints after the program's name.
const VERSION: &str = "0.1.0";

/// What help says of a configuration file.
const CONFIG: &str = "Configuration file of the priority level";

/// What help says of a trace.
const TRACE: &str = "Trace file of requests with their times";

/// What help says of a cluster's objects.
const OBJECTS: &str = "FlowSchemas and PriorityLevelConfigurations, as kubectl get -o json prints";

/// What help says of an audit log.
const AUDITLOG: &str = "Audit log, one JSON event a line";

/// What help says of the seats of a server.
const SEATS: &str = "Seats of the server, 1 to 1000000; 600 if left out";

/// What help says of the patience.
const PATIENCE: &str =
    "When a request gives up: 15s, 500ms, 1.5m, or 0 to 1000000000 microseconds; 0: never";

/// What help says of what a trace's requests are charged.
const CHARGE: &str =
    "What a request is charged: time (the default if no line has a cost), or seats";

/// What help says of the bound.
const BOUND: &str = "Prints how far the seat-times of two queues came apart, and how far they may";

/// What help says of where a picture begins.
const FROM: &str = "Draws the run from T on, as 90s; from its beginning if left out";

/// What help says of where a picture ends.
const TO: &str = "Draws the run up to T; up to its end if left out";

/// What help says of a change.
const SET: &str = "Runs a second cluster with this change, see below; may be given again";

/// What help says of the objects of a second cluster.
const AGAINST: &str = "Runs a second cluster, made of these objects";

/// What help says of the time before which nothing is counted.
const WARM_UP: &str = "Counts no request that comes before this time, as 60s";

/// What help says of the file of a picture.
const PICTURE: &str = "Draws the levels over time into this file, as SVG";

/// What help says of the server's own log.
const HTTP_LOG: &str = "Server's own log, whose lines say how many seats each request takes";

/// What help says below the commands: the program's statuses, and how to begin.
const HELP: &str = "\
Status:
  0  done
  1  a file's fault, or output that can't be written
  2  a command line's fault
  3  no memory, or a worker that could not start
Each fault is a line on standard error. Behind that of a config stands one more: its file, its
place, what stands there and what may stand there. apf replay, run, services and waits have it
at a terminal alone, and of requests and scripts too; apf explain prints it.

Examples:
  apf hash workload-low alice
  apf replay examples/first/config.json examples/first/requests.json examples/first/script.txt

apf COMMAND --help says what the command's files hold.";

// A text that must be given.
fn text<'a>(alloc: Global, id: &'a str, help: &'a str) -> Arg<'a>
    ensures rule { rule_of result ≡ text_rule id.entry.now }
    ensures local { result.global ≡ false }
{
    Arg::new(alloc, id).required(true).help(help)
}

// A number that must be given.
fn number<'a>(alloc: Global, id: &'a str, parser: ValueParser<'a>, help: &'a str) -> Arg<'a>
    ensures rule { rule_of result ≡ number_rule id.entry.now parser.entry }
    ensures local { result.global ≡ false }
{
    text(alloc, id, help).value_parser(parser)
}

// An option with a text, which may be left out. Help calls its value `value`.
fn option<'a>(alloc: Global, name: &'a str, value: &'a str, help: &'a str) -> Arg<'a>
    ensures rule { rule_of result ≡ option_rule name.entry.now }
    ensures local { result.global ≡ false }
{
    Arg::new(alloc, name)
        .long(name)
        .value_name(value)
        .help(help)
}

// An option with a number, which may be left out. Help calls its value `value`.
fn number_option<'a>(
    alloc: Global,
    name: &'a str,
    parser: ValueParser<'a>,
    value: &'a str,
    help: &'a str,
) -> Arg<'a>
    ensures rule { rule_of result ≡ number_option_rule name.entry.now parser.entry }
    ensures local { result.global ≡ false }
{
    option(alloc, name, value, help).value_parser(parser)
}

// An option with a text, which may be left out, and given as often as wanted. Help calls its value `value`.
fn repeated<'a>(alloc: Global, name: &'a str, value: &'a str, help: &'a str) -> Arg<'a>
    ensures rule { rule_of result ≡ repeated_rule name.entry.now }
    ensures local { result.global ≡ false }
{
    option(alloc, name, value, help).action(ArgAction::Append)
}

// An option with no value, which may be left out.
fn flag<'a>(alloc: Global, name: &'a str, help: &'a str) -> Arg<'a>
    ensures rule { rule_of result ≡ flag_rule name.entry.now }
    ensures local { result.global ≡ false }
{
    Arg::new(alloc, name)
        .long(name)
        .action(ArgAction::SetTrue)
        .help(help)
}

// A flow, by its schema and its distinguisher.
fn with_flow<'a>(alloc: Global, command: Command<'a>) -> Result<Command<'a>, AllocError>
    ensures { IfOk result (AddsRules (rules_of of_kind.Flow) command.entry) }
{
    command
        .arg(text(alloc, "SCHEMA", "Name of the flow schema"))?
        .arg(text(
            alloc,
            "DISTINGUISHER",
            "Distinguisher of the flow within the schema",
        ))
}

// The sizes of a deck and of a hand, and a hash.
fn with_deck<'a>(alloc: Global, command: Command<'a>) -> Result<Command<'a>, AllocError>
    ensures { IfOk result (AddsRules (rules_of of_kind.Deck) command.entry) }
{
    command
        .arg(number(alloc, "DECK", value_parser!(u32), "Number of queues"))?
        .arg(number(
            alloc,
            "HAND",
            value_parser!(u32),
            "Number of queues in a hand",
        ))?
        .arg(number(
            alloc,
            "HASH",
            value_parser!(u64),
            "Hash of a flow, in decimal digits",
        ))
}

// The two files of a level, and a script.
fn with_script<'a>(alloc: Global, command: Command<'a>) -> Result<Command<'a>, AllocError>
    ensures { IfOk result (AddsRules (rules_of of_kind.Script) command.entry) }
{
    command
        .arg(text(alloc, "CONFIG", CONFIG))?
        .arg(text(alloc, "REQUESTS", "Requests file"))?
        .arg(text(alloc, "SCRIPT", "Script file"))
}

// The two files of a level, and how many workers bring the requests to their ends, in how many rounds.
fn with_workers<'a>(alloc: Global, command: Command<'a>) -> Result<Command<'a>, AllocError>
    ensures { IfOk result (AddsRules (rules_of of_kind.Workers) command.entry) }
{
    let workers = value_parser!(u32).range(1..=64);
    let rounds = value_parser!(u32).range(1..=1_000_000);
    command
        .arg(text(alloc, "CONFIG", CONFIG))?
        .arg(text(alloc, "REQUESTS", "Requests file"))?
        .arg(number(
            alloc,
            "WORKERS",
            workers,
            "Number of worker threads, 1 to 64",
        ))?
        .arg(number_option(
            alloc,
            "rounds",
            rounds,
            "N",
            "How many times each worker goes through its requests, 1 (the default) to 1000000",
        ))
}

// A level that stays open: its settings, its slots, its name and what its requests are charged.
fn with_level<'a>(alloc: Global, command: Command<'a>) -> Result<Command<'a>, AllocError>
    ensures { IfOk result (AddsRules (rules_of of_kind.Level) command.entry) }
{
    let slots = value_parser!(u32).range(1..=10_000);
    command
        .arg(text(alloc, "CONFIG", CONFIG))?
        .arg(number_option(
            alloc,
            "slots",
            slots,
            "S",
            "Requests there may be at once, waiting and running, 1 to 10000 (the default)",
        ))?
        .arg(option(
            alloc,
            "name",
            "NAME",
            "Name of the level in metrics, 1 to 253 of a-z, 0-9, . and -; level if left out",
        ))?
        .arg(option(
            alloc,
            "charge",
            "BY",
            "What a request is charged: time on its seats (time, the default), or seats",
        ))
}

// A level, a trace, a patience, and what requests are charged.
fn with_simulation<'a>(alloc: Global, command: Command<'a>) -> Result<Command<'a>, AllocError>
    ensures { IfOk result (AddsRules (rules_of of_kind.Simulation) command.entry) }
{
    command
        .arg(text(alloc, "CONFIG", CONFIG))?
        .arg(text(alloc, "TRACE", TRACE))?
        .arg(text(alloc, "PATIENCE", PATIENCE))?
        .arg(option(alloc, "charge", "BY", CHARGE))
}

// A level, a trace, a patience, what requests are charged, and whether both sides of the bound are told.
fn with_bounded<'a>(alloc: Global, command: Command<'a>) -> Result<Command<'a>, AllocError>
    ensures { IfOk result (AddsRules (rules_of of_kind.Bounded) command.entry) }
{
    with_simulation(alloc, command)?.arg(flag(alloc, "bound", BOUND))
}

// Two levels, a trace, a patience, and what requests are charged.
fn with_comparison<'a>(alloc: Global, command: Command<'a>) -> Result<Command<'a>, AllocError>
    ensures { IfOk result (AddsRules (rules_of of_kind.Comparison) command.entry) }
{
    command
        .arg(text(alloc, "CONFIG", "Configuration file of the one level"))?
        .arg(text(alloc, "OTHER", "Configuration file of the other level"))?
        .arg(text(alloc, "TRACE", TRACE))?
        .arg(text(alloc, "PATIENCE", PATIENCE))?
        .arg(option(alloc, "charge", "BY", CHARGE))
}

// A trace alone.
fn with_trace<'a>(alloc: Global, command: Command<'a>) -> Result<Command<'a>, AllocError>
    ensures { IfOk result (AddsRules (rules_of of_kind.Trace) command.entry) }
{
    command.arg(text(alloc, "TRACE", TRACE))
}

// A level, a trace, a patience, what requests are charged, and the stretch of the run that is drawn.
fn with_picture<'a>(alloc: Global, command: Command<'a>) -> Result<Command<'a>, AllocError>
    ensures { IfOk result (AddsRules (rules_of of_kind.Picture) command.entry) }
{
    with_simulation(alloc, command)?
        .arg(option(alloc, "from", "T", FROM))?
        .arg(option(alloc, "to", "T", TO))
}

// A level and a trace, and which of its flows.
fn with_flows<'a>(alloc: Global, command: Command<'a>) -> Result<Command<'a>, AllocError>
    ensures { IfOk result (AddsRules (rules_of of_kind.Flows) command.entry) }
{
    command
        .arg(text(alloc, "CONFIG", CONFIG))?
        .arg(text(alloc, "TRACE", TRACE))?
        .arg(option(
            alloc,
            "flow",
            "NAME",
            "Distinguisher of the flow that is printed, with each flow that shares a queue",
        ))
}

// An audit log, the schema of its flows, and which of its requests.
fn with_audit_log<'a>(alloc: Global, command: Command<'a>) -> Result<Command<'a>, AllocError>
    ensures { IfOk result (AddsRules (rules_of of_kind.AuditLog) command.entry) }
{
    command
        .arg(text(alloc, "AUDITLOG", AUDITLOG))?
        .arg(text(alloc, "SCHEMA", "Name of the flow schema of its requests"))?
        .arg(option(
            alloc,
            "by",
            "WHO",
            "Who is a flow: user (the default) or namespace",
        ))?
        .arg(option(
            alloc,
            "user",
            "NAME",
            "Takes the requests of this user alone; NAME*: of each whose name begins so",
        ))?
        .arg(option(
            alloc,
            "since",
            "INSTANT",
            "Takes the requests received at INSTANT or later, as 2026-07-01T10:00:00Z",
        ))?
        .arg(option(
            alloc,
            "until",
            "INSTANT",
            "Takes the requests received before INSTANT",
        ))
}

// A cluster's objects, and the seats of its server.
fn with_objects<'a>(alloc: Global, command: Command<'a>) -> Result<Command<'a>, AllocError>
    ensures { IfOk result (AddsRules (rules_of of_kind.Objects) command.entry) }
{
    let seats = value_parser!(u32).range(1..=1_000_000);
    command
        .arg(text(alloc, "OBJECTS", OBJECTS))?
        .arg(number_option(alloc, "seats", seats, "N", SEATS))
}

// A cluster's objects, and a request or an audit log of requests.
fn with_match<'a>(alloc: Global, command: Command<'a>) -> Result<Command<'a>, AllocError>
    ensures { IfOk result (AddsRules (rules_of of_kind.Match) command.entry) }
{
    command
        .arg(text(alloc, "OBJECTS", OBJECTS))?
        .arg(option(alloc, "user", "NAME", "Name of the user"))?
        .arg(repeated(
            alloc,
            "group",
            "NAME",
            "Group of the user, given again for each; none if left out",
        ))?
        .arg(option(alloc, "verb", "VERB", "Verb, as list or get"))?
        .arg(option(alloc, "resource", "NAME", "Resource, as pods or pods/log"))?
        .arg(option(
            alloc,
            "api-group",
            "NAME",
            "API group of the resource; the core's if left out",
        ))?
        .arg(option(
            alloc,
            "namespace",
            "NAME",
            "Namespace of the resource; none if left out",
        ))?
        .arg(option(
            alloc,
            "path",
            "PATH",
            "Path of a request that names no resource, as /healthz",
        ))?
        .arg(option(
            alloc,
            "log",
            "LOG",
            "Audit log whose requests are matched, in place of the other options",
        ))
}

// A cluster's objects, an audit log, a patience, and the seats of the server.
fn with_cluster_log<'a>(alloc: Global, command: Command<'a>) -> Result<Command<'a>, AllocError>
    ensures { IfOk result (AddsRules cluster_log_rules command.entry) }
{
    let seats = value_parser!(u32).range(1..=1_000_000);
    command
        .arg(text(alloc, "OBJECTS", OBJECTS))?
        .arg(text(alloc, "AUDITLOG", AUDITLOG))?
        .arg(text(alloc, "PATIENCE", PATIENCE))?
        .arg(number_option(alloc, "seats", seats, "N", SEATS))
}

// The same, and what is simulated and printed.
fn with_cluster_print<'a>(alloc: Global, command: Command<'a>) -> Result<Command<'a>, AllocError>
    ensures { IfOk result (AddsRules cluster_print_rules command.entry) }
{
    let flows = value_parser!(u32).range(0..=1_000_000);
    with_cluster_log(alloc, command)?
        .arg(number_option(
            alloc,
            "flows",
            flows,
            "N",
            "Flows that have a line, 0 to 1000000; 12 if left out",
        ))?
        .arg(flag(alloc, "json", "Prints JSON, one object a line"))?
        .arg(flag(alloc, "no-lending", "Keeps each level at its nominal limit"))?
        .arg(option(
            alloc,
            "level",
            "NAME",
            "Level whose requests are printed, with --trace",
        ))?
        .arg(flag(
            alloc,
            "trace",
            "Prints the requests of a level as a trace, and simulates nothing",
        ))
}

// The same, a second cluster, from when on requests are counted, a picture, and the server's own log.
fn with_cluster<'a>(alloc: Global, command: Command<'a>) -> Result<Command<'a>, AllocError>
    ensures { IfOk result (AddsRules (rules_of of_kind.Cluster) command.entry) }
{
    with_cluster_print(alloc, command)?
        .arg(repeated(alloc, "set", "KEY=VALUE", SET))?
        .arg(option(alloc, "against", "OBJECTS", AGAINST))?
        .arg(option(alloc, "warm-up", "TIME", WARM_UP))?
        .arg(option(alloc, "picture", "FILE", PICTURE))?
        .arg(option(alloc, "http-log", "FILE", HTTP_LOG))
}

// A command with the arguments of this kind behind its own.
fn with_arguments<'a>(
    alloc: Global,
    command: Command<'a>,
    kind: Kind,
) -> Result<Command<'a>, AllocError>
    ensures { IfOk result (AddsRules (rules_of kind) command.entry) }
{
    match kind {
        Kind::Flow => with_flow(alloc, command),
        Kind::Deck => with_deck(alloc, command),
        Kind::Script => with_script(alloc, command),
        Kind::Workers => with_workers(alloc, command),
        Kind::Level => with_level(alloc, command),
        Kind::Simulation => with_simulation(alloc, command),
        Kind::Bounded => with_bounded(alloc, command),
        Kind::Comparison => with_comparison(alloc, command),
        Kind::Trace => with_trace(alloc, command),
        Kind::Picture => with_picture(alloc, command),
        Kind::Flows => with_flows(alloc, command),
        Kind::AuditLog => with_audit_log(alloc, command),
        Kind::Objects => with_objects(alloc, command),
        Kind::Match => with_match(alloc, command),
        Kind::Cluster => with_cluster(alloc, command),
    }
}

// The command of an entry.
fn command_of<'a>(alloc: Global, entry: &Entry) -> Result<Command<'a>, AllocError>
    ensures shape { IfOk result (λ c. shape_of c ≡ shape_for (listed entry.now)) }
    ensures local { IfOk result (λ c. (out-Command c).has_globals ≡ false) }
{
    let command = Command::new(alloc, entry.name)
        .about(entry.about)
        .after_help(entry.help);
    with_arguments(alloc, command, entry.kind)
}

// The program with the commands of these entries behind its own.
fn with_entries<'a>(
    alloc: Global,
    mut program: Command<'a>,
    entries: &[Entry],
) -> Result<Command<'a>, AllocError>
    ensures { IfOk result (λ c. app_of c ≡ with_commands (map listed entries.now) (app_of program.entry)) }
{
    for entry in entries {
        program = program.subcommand(command_of(alloc, entry)?)?;
    }
    Ok(program)
}

/// The program's command line, of which one of the commands must be named.
///
/// # Errors
///
/// Only where memory is refused.
pub(crate) fn apf_command<'a>(alloc: Global) -> Result<Command<'a>, AllocError>
    ensures app { IfOk result (λ c. app_of c ≡ apf_app) }
{
    let program = Command::new(alloc, "apf")
        .about(
            "Replay, run, serve or simulate requests at one priority level of API Priority and Fairness",
        )
        .after_help(HELP)
        .version(VERSION)
        .subcommand_required(true);
    let program = with_entries(alloc, program, level_commands::entries())?;
    with_entries(alloc, program, trace_commands::entries())
}
