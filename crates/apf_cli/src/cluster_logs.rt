//! The logs of a cluster: the audit log, and beside it the server's own.

use crate::faults::Fault;
use crate::files::{FileFault, Files, Input, SecondFile, Source, judge_names, open_input};
use crate::notes::{note_cut, note_unnamed};
use crate::telling::named;
use apf_audit_reader::WINDOW;
use apf_joined_reader::{Counts, JoinedReader};
use std::alloc::Global;
use std::io::Write;

/// The names of the files of a cluster: of its objects, and of its logs.
#[derive(Clone, Copy)]
pub(crate) struct Names<'a> {
    pub(crate) objects: &'a str,
    pub(crate) log: &'a str,
    /// That of the server's own log, if it is read.
    pub(crate) server_log: Option<&'a str>,
}

/// At most one of the files is standard input: of these, and of the objects of a second cluster, if there are some.
///
/// # Errors
///
/// `TwoInputs`.
pub(crate) fn judge_all_names<'a>(names: Names<'a>, against: Option<&'a str>) -> Result<(), Fault> {
    // the empty name stands for none, and is not that of standard input
    let against = against.unwrap_or("");
    let server_log = names.server_log.unwrap_or("");
    judge_names(&[names.objects, names.log, against, server_log])
}

/// An audit log, and beside it the server's own, if there is one. Both are read in pieces, so that they may have any length.
#[derive(Drop)]
pub(crate) struct OpenLog<'a, F: Files> {
    pub(crate) names: Names<'a>,
    pub(crate) input: Source<'a, F>,
    pub(crate) reader: JoinedReader,
}

impl<F: Files> OpenLog<'_, F> {
    /// What the server's own log says of the requests, if it is read.
    pub(crate) fn counts(&self) -> Option<&Counts> {
        match self.names.server_log {
            Some(_) => Some(self.reader.counts()),
            None => None,
        }
    }

    /// Says what was left out of the audit log.
    pub(crate) fn note_left_out<E: Write>(&self, err: &mut E) {
        let audit = self.reader.audit();
        note_unnamed(audit.unnamed(), err);
        note_cut(audit.is_cut(), err);
    }
}

// Opens the server's own log, if there is one.
fn open_lines<S: SecondFile>(
    alloc: Global,
    second: &mut S,
    name: Option<&str>,
) -> Result<(), Fault> {
    let Some(name) = name else {
        return Ok(());
    };
    match second.open_second(name) {
        Ok(()) => Ok(()),
        Err(FileFault::CannotRead(cause)) => Err(named(
            alloc,
            name,
            Fault::CannotRead(Input::ServerLog, cause),
        )),
        Err(_) => Err(Fault::NoMemory),
    }
}

/// Opens the audit log, and then the server's own as the second file, if there is one.
///
/// # Errors
///
/// Those of the audit log, then those of the server's own.
pub(crate) fn open_log<'a, F: Files, S: SecondFile>(
    alloc: Global,
    files: &'a mut F,
    second: &mut S,
    names: Names<'a>,
) -> Result<OpenLog<'a, F>, Fault> {
    let input = match open_input(files, Input::AuditLog, names.log) {
        Ok(input) => input,
        Err(fault) => return Err(named(alloc, names.log, fault)),
    };
    open_lines(alloc, second, names.server_log)?;
    let reader = JoinedReader::new(alloc, WINDOW, names.server_log.is_some())?;
    Ok(OpenLog {
        names,
        input,
        reader,
    })
}
