//! What the words of a command line ask the program to do.
ghost use Rattle.std.specs.Prelude.{◌≡◌, ◌⊎◌, ℕ, IfErr, IfNone, IfOk, IfSome, codes};
ghost use Rattle.clap.specs.Words.{FailsBy, found_of, kind_of, rows_of};
ghost use Rattle.clap.specs.declared.error.kind.ErrorKind.TheVariants.{OutOfMemory, ValueValidation};
ghost use Rattle.clap.specs.Walk.{texts};
ghost use Rattle.apf_commands.specs.Meaning.{kind_of as kind_of_arguments, AreArguments, AreAsked, AreChosen, AreTexts, HasBadName, HasLevelName, IsActionOf, IsFlag, IsInRange, IsNumber, IsNumberOr, IsOption, IsText, IsTextOr, words_fault};
ghost use Rattle.apf_commands.specs.Arguments.{HasArguments, HasFlag, HasText, HasNumber};
ghost use Rattle.apf_commands.specs.declared.entries.Kind.TheVariants as of_kind;

use crate::commands::apf_command;
use crate::entries::{Kind, kind_of_command};
use crate::level_name::is_level_name;
use clap::error::ErrorKind;
use clap::{ArgMatches, Error};
use std::alloc::{AllocError, Global};

/// A command of the program, with its texts and numbers.
#[derive(Debug, PartialEq, Eq, Drop)]
pub struct Action<'a> {
    /// The command's name.
    pub command: &'a str,
    pub arguments: Arguments<'a>,
}

/// The texts and numbers of a command, by their kind.
#[derive(Debug, PartialEq, Eq, Drop)]
pub enum Arguments<'a> {
    /// A flow.
    Flow {
        schema: &'a str,
        distinguisher: &'a str,
    },
    /// A hash, and the hand of `hand` queues out of `deck` that it is dealt.
    Deck {
        deck: u32,
        hand: u32,
        hash: u64,
    },
    /// The names of the files of a level and of a script.
    Script {
        config: &'a str,
        requests: &'a str,
        script: &'a str,
    },
    /// The names of the files of a level, and the 1 to 64 worker threads that go 1 to 1,000,000 times through its requests.
    Workers {
        config: &'a str,
        requests: &'a str,
        workers: u32,
        rounds: u32,
    },
    /// A level that stays open for a server's whole life: the name of its configuration file, its 1 to 10,000 slots, of which
    /// each request there has one, its name in metrics, and the word that says what its requests are charged, if one is given.
    Level {
        config: &'a str,
        slots: u32,
        name: &'a str,
        charge: Option<&'a str>,
    },
    /// The names of a configuration file and of a trace, a patience for [`read_patience`](crate::read_patience), and the word that
    /// says what the requests are charged, if one is given.
    Simulation {
        config: &'a str,
        trace: &'a str,
        patience: &'a str,
        charge: Option<&'a str>,
    },
    /// The same, and whether both sides of the bound are told.
    Bounded {
        config: &'a str,
        trace: &'a str,
        patience: &'a str,
        charge: Option<&'a str>,
        bound: bool,
    },
    /// The names of two configuration files and of a trace, a patience, and such a word.
    Comparison {
        config: &'a str,
        other: &'a str,
        trace: &'a str,
        patience: &'a str,
        charge: Option<&'a str>,
    },
    /// The name of a trace.
    Trace {
        trace: &'a str,
    },
    /// As of a simulation, and the times for [`read_time`](crate::read_time) at which its picture begins and ends, if they are
    /// given.
    Picture {
        config: &'a str,
        trace: &'a str,
        patience: &'a str,
        charge: Option<&'a str>,
        from: Option<&'a str>,
        to: Option<&'a str>,
    },
    /// The names of a configuration file and of a trace, and the distinguisher of the flows that are meant, if not all are.
    Flows {
        config: &'a str,
        trace: &'a str,
        flow: Option<&'a str>,
    },
    /// The name of an audit log, the schema of its flows, and which of its requests are chosen.
    AuditLog {
        log: &'a str,
        schema: &'a str,
        chosen: Chosen<'a>,
    },
    /// The name of a file of objects, and how many seats the server has, 1 to 1,000,000.
    Objects {
        objects: &'a str,
        seats: u32,
    },
    /// The name of a file of objects, and a request or the name of an audit log.
    Match {
        objects: &'a str,
        asked: Asked<'a>,
    },
    /// The names of a file of objects and of an audit log, the words of a patience, how many seats the server has, 1 to 1,000,000, how
    /// many flows are told, 0 to 1,000,000, whether JSON is asked for, whether no seats are lent, the name of a level, whether its
    /// requests are asked for as a trace, of a second cluster the changes, in their order, and the name of the file of its objects, the
    /// words of the time from which on requests are counted, the name of the file of a picture, and the name of the server's own log.
    Cluster {
        objects: &'a str,
        log: &'a str,
        patience: &'a str,
        seats: u32,
        flows: u32,
        json: bool,
        no_lending: bool,
        level: Option<&'a str>,
        trace: bool,
        changes: Vec<&'a str>,
        against: Option<&'a str>,
        warm_up: Option<&'a str>,
        picture: Option<&'a str>,
        http_log: Option<&'a str>,
    },
}

/// A request, in the words of a command line, or an audit log of requests.
#[derive(Debug, PartialEq, Eq, Drop)]
pub struct Asked<'a> {
    pub user: Option<&'a str>,
    /// The names of the user's groups, in their order.
    pub groups: Vec<&'a str>,
    pub verb: Option<&'a str>,
    pub resource: Option<&'a str>,
    pub api_group: Option<&'a str>,
    pub namespace: Option<&'a str>,
    pub path: Option<&'a str>,
    /// The name of an audit log.
    pub log: Option<&'a str>,
}

/// Which requests of an audit log are chosen, in the words of a command line.
#[derive(Clone, Copy, Debug, PartialEq, Eq)]
pub struct Chosen<'a> {
    /// Who is a flow: `user` or `namespace`.
    pub by: Option<&'a str>,
    /// The name of a user, or its beginning with `*` behind it.
    pub user: Option<&'a str>,
    /// The instant from which on they were received.
    pub since: Option<&'a str>,
    /// The instant before which they were received.
    pub until: Option<&'a str>,
}

// The text of an argument.
fn text_of<'a>(matches: &ArgMatches<'a>, id: &str) -> &'a str
    requires { HasText (rows_of (found_of matches.now)) id.now }
    ensures { IsText (rows_of (found_of matches.now)) id.now result.now }
{
    matches.get_str(id).unwrap()
}

// The text of an option, if it is given.
fn option_of<'a>(matches: &ArgMatches<'a>, id: &str) -> Option<&'a str>
    ensures { IsOption (rows_of (found_of matches.now)) id.now result }
{
    matches.get_str(id)
}

// The texts of an option that may be given as often as wanted, in their order.
fn texts_of<'a>(
    alloc: Global,
    matches: &ArgMatches<'a>,
    id: &str,
) -> Result<Vec<&'a str>, AllocError>
    ensures { IfOk result (λ texts. AreTexts (rows_of (found_of matches.now)) id.now texts.items) }
{
    match matches.get_strs(id) {
        Some(texts) => texts.to_vec(alloc),
        None => Ok(Vec::new(alloc)),
    }
}

// Whether an option with no value is given.
fn flag_of(matches: &ArgMatches<'_>, id: &str) -> bool
    requires { HasFlag (rows_of (found_of matches.now)) id.now }
    ensures { IsFlag (rows_of (found_of matches.now)) id.now result }
{
    matches.get_flag(id)
}

// The number of an argument.
fn u32_of(matches: &ArgMatches<'_>, id: &str) -> u32
    requires { HasNumber 32 (rows_of (found_of matches.now)) id.now }
    ensures { IsNumber 32 (rows_of (found_of matches.now)) id.now result }
{
    matches.get_one::<u32>(id).unwrap()
}

// The text of an option, or this one if it is not given.
fn text_or<'a>(matches: &ArgMatches<'a>, id: &str, otherwise: &'a str) -> &'a str
    ensures { IsTextOr otherwise.entry.now (rows_of (found_of matches.now)) id.now result.now }
{
    option_of(matches, id).unwrap_or(otherwise)
}

// The number of an option, or this one if it is not given.
fn u32_or(matches: &ArgMatches<'_>, id: &str, otherwise: u32) -> u32
    ensures { (n : ℕ) → IsNumberOr 32 otherwise (rows_of (found_of matches.now)) id.now n → result ≡ n }
{
    matches.get_one::<u32>(id).unwrap_or(otherwise)
}

// The number of an argument.
fn u64_of(matches: &ArgMatches<'_>, id: &str) -> u64
    requires { HasNumber 64 (rows_of (found_of matches.now)) id.now }
    ensures { IsNumber 64 (rows_of (found_of matches.now)) id.now result }
{
    matches.get_one::<u64>(id).unwrap()
}

fn flow_of<'a>(matches: &ArgMatches<'a>) -> Arguments<'a>
    requires { HasArguments of_kind.Flow (rows_of (found_of matches.now)) }
    ensures kind { kind_of_arguments result ≡ of_kind.Flow }
    ensures read { AreArguments (rows_of (found_of matches.now)) result }
{
    Arguments::Flow {
        schema: text_of(matches, "SCHEMA"),
        distinguisher: text_of(matches, "DISTINGUISHER"),
    }
}

fn deck_of<'a>(matches: &ArgMatches<'a>) -> Arguments<'a>
    requires { HasArguments of_kind.Deck (rows_of (found_of matches.now)) }
    ensures kind { kind_of_arguments result ≡ of_kind.Deck }
    ensures read { AreArguments (rows_of (found_of matches.now)) result }
{
    Arguments::Deck {
        deck: u32_of(matches, "DECK"),
        hand: u32_of(matches, "HAND"),
        hash: u64_of(matches, "HASH"),
    }
}

// The names of the configuration file and of the requests file.
fn files_of<'a>(matches: &ArgMatches<'a>) -> (&'a str, &'a str)
    requires config { HasText (rows_of (found_of matches.now)) (codes "CONFIG") }
    requires requests { HasText (rows_of (found_of matches.now)) (codes "REQUESTS") }
    ensures config { IsText (rows_of (found_of matches.now)) (codes "CONFIG") result.0.now }
    ensures requests { IsText (rows_of (found_of matches.now)) (codes "REQUESTS") result.1.now }
{
    (text_of(matches, "CONFIG"), text_of(matches, "REQUESTS"))
}

fn script_of<'a>(matches: &ArgMatches<'a>) -> Arguments<'a>
    requires { HasArguments of_kind.Script (rows_of (found_of matches.now)) }
    ensures kind { kind_of_arguments result ≡ of_kind.Script }
    ensures read { AreArguments (rows_of (found_of matches.now)) result }
{
    let (config, requests) = files_of(matches);
    let script = text_of(matches, "SCRIPT");
    Arguments::Script {
        config,
        requests,
        script,
    }
}

fn workers_of<'a>(matches: &ArgMatches<'a>) -> Arguments<'a>
    requires { HasArguments of_kind.Workers (rows_of (found_of matches.now)) }
    ensures kind { kind_of_arguments result ≡ of_kind.Workers }
    ensures read { AreArguments (rows_of (found_of matches.now)) result }
{
    let (config, requests) = files_of(matches);
    let workers = u32_of(matches, "WORKERS");
    let rounds = u32_or(matches, "rounds", 1);
    Arguments::Workers {
        config,
        requests,
        workers,
        rounds,
    }
}

// The word that says what requests are charged, if one is given.
fn charge_of<'a>(matches: &ArgMatches<'a>) -> Option<&'a str>
    ensures { IsOption (rows_of (found_of matches.now)) (codes "charge") result }
{
    option_of(matches, "charge")
}

fn level_of<'a>(matches: &ArgMatches<'a>) -> Arguments<'a>
    requires { HasArguments of_kind.Level (rows_of (found_of matches.now)) }
    ensures kind { kind_of_arguments result ≡ of_kind.Level }
    ensures read { AreArguments (rows_of (found_of matches.now)) result }
{
    Arguments::Level {
        config: text_of(matches, "CONFIG"),
        slots: u32_or(matches, "slots", 10_000),
        name: text_or(matches, "name", "level"),
        charge: charge_of(matches),
    }
}

fn simulation_of<'a>(matches: &ArgMatches<'a>) -> Arguments<'a>
    requires { HasArguments of_kind.Simulation (rows_of (found_of matches.now)) }
    ensures kind { kind_of_arguments result ≡ of_kind.Simulation }
    ensures read { AreArguments (rows_of (found_of matches.now)) result }
{
    Arguments::Simulation {
        config: text_of(matches, "CONFIG"),
        trace: text_of(matches, "TRACE"),
        patience: text_of(matches, "PATIENCE"),
        charge: charge_of(matches),
    }
}

fn bounded_of<'a>(matches: &ArgMatches<'a>) -> Arguments<'a>
    requires { HasArguments of_kind.Bounded (rows_of (found_of matches.now)) }
    ensures kind { kind_of_arguments result ≡ of_kind.Bounded }
    ensures read { AreArguments (rows_of (found_of matches.now)) result }
{
    Arguments::Bounded {
        config: text_of(matches, "CONFIG"),
        trace: text_of(matches, "TRACE"),
        patience: text_of(matches, "PATIENCE"),
        charge: charge_of(matches),
        bound: flag_of(matches, "bound"),
    }
}

fn comparison_of<'a>(matches: &ArgMatches<'a>) -> Arguments<'a>
    requires { HasArguments of_kind.Comparison (rows_of (found_of matches.now)) }
    ensures kind { kind_of_arguments result ≡ of_kind.Comparison }
    ensures read { AreArguments (rows_of (found_of matches.now)) result }
{
    Arguments::Comparison {
        config: text_of(matches, "CONFIG"),
        other: text_of(matches, "OTHER"),
        trace: text_of(matches, "TRACE"),
        patience: text_of(matches, "PATIENCE"),
        charge: charge_of(matches),
    }
}

fn trace_of<'a>(matches: &ArgMatches<'a>) -> Arguments<'a>
    requires { HasArguments of_kind.Trace (rows_of (found_of matches.now)) }
    ensures kind { kind_of_arguments result ≡ of_kind.Trace }
    ensures read { AreArguments (rows_of (found_of matches.now)) result }
{
    Arguments::Trace {
        trace: text_of(matches, "TRACE"),
    }
}

fn picture_of<'a>(matches: &ArgMatches<'a>) -> Arguments<'a>
    requires { HasArguments of_kind.Picture (rows_of (found_of matches.now)) }
    ensures kind { kind_of_arguments result ≡ of_kind.Picture }
    ensures read { AreArguments (rows_of (found_of matches.now)) result }
{
    Arguments::Picture {
        config: text_of(matches, "CONFIG"),
        trace: text_of(matches, "TRACE"),
        patience: text_of(matches, "PATIENCE"),
        charge: charge_of(matches),
        from: option_of(matches, "from"),
        to: option_of(matches, "to"),
    }
}

fn flows_of<'a>(matches: &ArgMatches<'a>) -> Arguments<'a>
    requires { HasArguments of_kind.Flows (rows_of (found_of matches.now)) }
    ensures kind { kind_of_arguments result ≡ of_kind.Flows }
    ensures read { AreArguments (rows_of (found_of matches.now)) result }
{
    Arguments::Flows {
        config: text_of(matches, "CONFIG"),
        trace: text_of(matches, "TRACE"),
        flow: option_of(matches, "flow"),
    }
}

// The texts of the options that choose requests.
fn chosen_of<'a>(matches: &ArgMatches<'a>) -> Chosen<'a>
    ensures { AreChosen (rows_of (found_of matches.now)) result }
{
    Chosen {
        by: option_of(matches, "by"),
        user: option_of(matches, "user"),
        since: option_of(matches, "since"),
        until: option_of(matches, "until"),
    }
}

fn audit_log_of<'a>(matches: &ArgMatches<'a>) -> Arguments<'a>
    requires { HasArguments of_kind.AuditLog (rows_of (found_of matches.now)) }
    ensures kind { kind_of_arguments result ≡ of_kind.AuditLog }
    ensures read { AreArguments (rows_of (found_of matches.now)) result }
{
    Arguments::AuditLog {
        log: text_of(matches, "AUDITLOG"),
        schema: text_of(matches, "SCHEMA"),
        chosen: chosen_of(matches),
    }
}

fn objects_of<'a>(matches: &ArgMatches<'a>) -> Arguments<'a>
    requires { HasArguments of_kind.Objects (rows_of (found_of matches.now)) }
    ensures kind { kind_of_arguments result ≡ of_kind.Objects }
    ensures read { AreArguments (rows_of (found_of matches.now)) result }
{
    Arguments::Objects {
        objects: text_of(matches, "OBJECTS"),
        seats: u32_or(matches, "seats", 600),
    }
}

// The texts of the options that say a request.
fn asked_of<'a>(alloc: Global, matches: &ArgMatches<'a>) -> Result<Asked<'a>, AllocError>
    ensures { IfOk result (AreAsked (rows_of (found_of matches.now))) }
{
    let groups = texts_of(alloc, matches, "group")?;
    Ok(Asked {
        user: option_of(matches, "user"),
        groups,
        verb: option_of(matches, "verb"),
        resource: option_of(matches, "resource"),
        api_group: option_of(matches, "api-group"),
        namespace: option_of(matches, "namespace"),
        path: option_of(matches, "path"),
        log: option_of(matches, "log"),
    })
}

fn match_of<'a>(alloc: Global, matches: &ArgMatches<'a>) -> Result<Arguments<'a>, AllocError>
    requires { HasArguments of_kind.Match (rows_of (found_of matches.now)) }
    ensures kind { IfOk result (λ arguments. kind_of_arguments arguments ≡ of_kind.Match) }
    ensures read { IfOk result (AreArguments (rows_of (found_of matches.now))) }
{
    let asked = asked_of(alloc, matches)?;
    Ok(Arguments::Match {
        objects: text_of(matches, "OBJECTS"),
        asked,
    })
}

fn cluster_of<'a>(alloc: Global, matches: &ArgMatches<'a>) -> Result<Arguments<'a>, AllocError>
    requires { HasArguments of_kind.Cluster (rows_of (found_of matches.now)) }
    ensures kind { IfOk result (λ arguments. kind_of_arguments arguments ≡ of_kind.Cluster) }
    ensures read { IfOk result (AreArguments (rows_of (found_of matches.now))) }
{
    let changes = texts_of(alloc, matches, "set")?;
    Ok(Arguments::Cluster {
        objects: text_of(matches, "OBJECTS"),
        log: text_of(matches, "AUDITLOG"),
        patience: text_of(matches, "PATIENCE"),
        seats: u32_or(matches, "seats", 600),
        flows: u32_or(matches, "flows", 12),
        json: flag_of(matches, "json"),
        no_lending: flag_of(matches, "no-lending"),
        level: option_of(matches, "level"),
        trace: flag_of(matches, "trace"),
        changes,
        against: option_of(matches, "against"),
        warm_up: option_of(matches, "warm-up"),
        picture: option_of(matches, "picture"),
        http_log: option_of(matches, "http-log"),
    })
}

// The arguments of this kind.
fn arguments_of<'a>(
    alloc: Global,
    kind: Kind,
    matches: &ArgMatches<'a>,
) -> Result<Arguments<'a>, AllocError>
    requires { HasArguments kind (rows_of (found_of matches.now)) }
    ensures kind { IfOk result (λ arguments. kind_of_arguments arguments ≡ kind) }
    ensures read { IfOk result (AreArguments (rows_of (found_of matches.now))) }
{
    Ok(match kind {
        Kind::Flow => flow_of(matches),
        Kind::Deck => deck_of(matches),
        Kind::Script => script_of(matches),
        Kind::Workers => workers_of(matches),
        Kind::Level => level_of(matches),
        Kind::Simulation => simulation_of(matches),
        Kind::Bounded => bounded_of(matches),
        Kind::Comparison => comparison_of(matches),
        Kind::Trace => trace_of(matches),
        Kind::Picture => picture_of(matches),
        Kind::Flows => flows_of(matches),
        Kind::AuditLog => audit_log_of(matches),
        Kind::Objects => objects_of(matches),
        Kind::Match => match_of(alloc, matches)?,
        Kind::Cluster => cluster_of(alloc, matches)?,
    })
}

// The name of the level that the action is of, if no level may have it.
fn bad_name<'a>(action: &Action<'a>) -> Option<&'a str>
    ensures none { IfNone result (HasLevelName action.now.arguments) }
    ensures some { IfSome result (λ _. HasBadName action.now.arguments) }
{
    let Arguments::Level { name, .. } = action.arguments else {
        return None;
    };
    if is_level_name(name) {
        None
    } else {
        Some(name)
    }
}

// The refusal of a level's name, in the form of `clap`'s own.
fn name_refused(alloc: Global, name: &str) -> Result<Error, Error>
    ensures made { IfOk result (λ e. kind_of e ≡ ValueValidation) }
    ensures memory { IfErr result (λ e. kind_of e ≡ OutOfMemory) }
{
    let message = format!(in alloc;
        "invalid value '{name}' for '--name <NAME>': not 1 to 253 of a-z, 0-9, . and -"
    )?;
    let mut command = apf_command(alloc)?;
    Ok(command.error(ErrorKind::ValueValidation, message.as_str())?)
}

// The action, if the name of the level that it is of is one that a level may have.
fn judged<'a>(alloc: Global, action: Action<'a>) -> Result<Action<'a>, Error>
    ensures ok { IfOk result (λ a. (a ≡ action.entry) × HasLevelName action.entry.arguments) }
    ensures err { IfErr result (λ e. (kind_of e ≡ OutOfMemory) ⊎ ((kind_of e ≡ ValueValidation) × HasBadName action.entry.arguments)) }
{
    let Some(name) = bad_name(&action) else {
        return Ok(action);
    };
    match name_refused(alloc, name) {
        Ok(error) => Err(error),
        Err(error) => Err(error),
    }
}

/// The action that the words of a command line ask for; the first word is the program's name.
///
/// Its texts and numbers are those that `clap` reads of the words. The second word names the command, and the command says
/// of which kind its arguments are. `DECK` and `HAND` are whole decimal numbers of 32 bits, `HASH` is one of 64 bits,
/// `WORKERS` is 1 to 64, `--rounds` 1 to 1,000,000 and 1 if absent, `--slots` 1 to 10,000 and 10,000 if absent. `--name` is
/// 1 to 253 bytes of `a-z`, `0-9`, `.` and `-`, and `level` if absent. The other arguments are texts, `PATIENCE`, `--charge`,
/// `--from` and `--to` too. `--group` and `--set` may be given as often as
/// wanted.
///
/// # Errors
///
/// `clap`'s error where it refuses the words, or where they ask for help; one of the kind `ValueValidation` where it refuses
/// none of them and `--name` is none that a level may have; one of the kind `OutOfMemory` where memory is refused.
pub fn read_words<'a>(alloc: Global, words: &'a [&'a str]) -> Result<Action<'a>, Error>
    ensures read { IfOk result (IsActionOf (texts words.entry.now)) }
    ensures ranges { IfOk result IsInRange }
    ensures refused { FailsBy (words_fault (texts words.entry.now)) result }
{
    let matches = apf_command(alloc)?.try_get_matches_from(words)?;
    let (command, inner) = matches.subcommand().unwrap();
    let kind = kind_of_command(command).unwrap();
    let arguments = arguments_of(alloc, kind, inner)?;
    judged(alloc, Action { command, arguments })
}
