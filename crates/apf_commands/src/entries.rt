//! What a command of the program is: its name, its texts of help and the kind of its arguments.
ghost use Rattle.std.specs.Prelude.{◌≡◌, map};
ghost use Rattle.apf_commands.specs.Commands.{kind_in, kind_named, listed};

use crate::{level_commands, trace_commands};

/// A kind of arguments: all commands of a kind are declared and read alike.
#[derive(Clone, Copy)]
pub(crate) enum Kind {
    /// `SCHEMA DISTINGUISHER`
    Flow,
    /// `DECK HAND HASH`
    Deck,
    /// `CONFIG REQUESTS SCRIPT`
    Script,
    /// `CONFIG REQUESTS WORKERS [--rounds N]`
    Workers,
    /// `CONFIG [--slots S] [--name NAME] [--charge BY]`
    Level,
    /// `CONFIG TRACE PATIENCE [--charge BY]`
    Simulation,
    /// `CONFIG TRACE PATIENCE [--charge BY] [--bound]`
    Bounded,
    /// `CONFIG OTHER TRACE PATIENCE [--charge BY]`
    Comparison,
    /// `TRACE`
    Trace,
    /// `CONFIG TRACE PATIENCE [--charge BY] [--from T] [--to T]`
    Picture,
    /// `CONFIG TRACE [--flow NAME]`
    Flows,
    /// `AUDITLOG SCHEMA [--by WHO] [--user NAME] [--since INSTANT] [--until INSTANT]`
    AuditLog,
    /// `OBJECTS [--seats N]`
    Objects,
    /// `OBJECTS [--user U] [--group G].. [--verb V] [--resource R] [--api-group A] [--namespace N] [--path P] [--log LOG]`
    Match,
    /// `OBJECTS AUDITLOG PATIENCE [--seats N] [--flows N] [--json] [--no-lending] [--level NAME] [--trace] [--set KEY=VALUE].. [--against OBJECTS] [--warm-up TIME] [--picture FILE] [--http-log FILE]`
    Cluster,
}

/// A command of the program.
#[derive(Clone, Copy)]
pub(crate) struct Entry {
    pub(crate) name: &'static str,
    /// What it does, in a line.
    pub(crate) about: &'static str,
    /// What help says below its arguments.
    pub(crate) help: &'static str,
    pub(crate) kind: Kind,
}

// The kind of the entry of this name.
fn kind_among(entries: &[Entry], name: &str) -> Option<Kind>
    ensures { result ≡ kind_in (map listed entries.now) name.now }
{
    for entry in entries {
        if name == entry.name {
            return Some(entry.kind);
        }
    }
    None
}

/// The kind of the arguments of the command of this name, as it stands in a command line.
pub(crate) fn kind_of_command(name: &str) -> Option<Kind>
    ensures { result ≡ kind_named name.now }
{
    if let Some(kind) = kind_among(level_commands::entries(), name) {
        return Some(kind);
    }
    kind_among(trace_commands::entries(), name)
}
