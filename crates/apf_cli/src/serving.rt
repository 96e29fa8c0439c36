//! Serves a level over standard input.

ghost use Rattle.std.specs.Prelude.{◌≡◌, IfOk, IfErr};
ghost use Rattle.apf_cli.specs.Choices.{IsChargeFor, IsNoChargeFor};

use crate::faults::Fault;
use crate::files::{Files, STANDARD_INPUT, Source};
use crate::reading::{config_of, level_fault};
use apf_charges::ChargedBy;
use apf_local::OpenFault;
use apf_run::ReplayFault;
use apf_service::{ServeFault, serve};
use std::alloc::Global;
use std::io::Write;

impl From<OpenFault> for Fault {
    fn from(fault: OpenFault) -> Fault {
        match fault {
            OpenFault::Gate(fault) => ReplayFault::Gate(fault).into(),
            OpenFault::Level(fault) => ReplayFault::Level(fault).into(),
            OpenFault::NoMemory => Fault::NoMemory,
        }
    }
}

impl From<ServeFault> for Fault {
    fn from(fault: ServeFault) -> Fault {
        match fault {
            ServeFault::Open(fault) => fault.into(),
            ServeFault::CannotRead => Fault::CannotReadCommands,
            ServeFault::CannotWrite => Fault::CannotWrite,
            ServeFault::NoMemory => Fault::NoMemory,
        }
    }
}

/// The words of a command line for a level that stays open.
#[derive(Clone, Copy)]
pub(crate) struct Served<'a> {
    /// The name of the file of its settings.
    pub(crate) config: &'a str,
    /// How many requests may be there at once.
    pub(crate) slots: u32,
    /// Its name in metrics.
    pub(crate) name: &'a str,
    /// What its requests are charged.
    pub(crate) charge: Option<&'a str>,
}

// What requests are charged, by the words of a command line: time if none are given.
fn charged_by(word: Option<&str>) -> Result<ChargedBy, Fault>
    ensures ok { IfOk result (IsChargeFor word.entry) }
    ensures err { IfErr result (λ fault. (fault ≡ Fault.BadCharge) × IsNoChargeFor word.entry) }
{
    match word {
        Some(word) => ChargedBy::named(word).ok_or(Fault::BadCharge),
        None => Ok(ChargedBy::Time),
    }
}

/// Opens the level of the file, as the words say, and carries out the commands of standard input, so that the file can't
/// be there.
pub(crate) fn print_served<F: Files, O: Write>(
    alloc: Global,
    files: &mut F,
    level: Served<'_>,
    out: &mut O,
) -> Result<(), Fault> {
    let by = charged_by(level.charge)?;
    if level.config == STANDARD_INPUT {
        return Err(Fault::CommandsOnInput);
    }
    let config = config_of(alloc, files, level.config)?;
    let mut commands = Source::of(files);
    match serve(
        alloc,
        &config,
        level.slots,
        level.name,
        by,
        &mut commands,
        out,
    ) {
        Ok(()) => Ok(()),
        Err(fault) => {
            let explained = level_fault(alloc, level.config, &config, fault.into());
            Err(explained.told(alloc, true))
        }
    }
}
