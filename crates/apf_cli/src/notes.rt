//! Lines on standard error beside what a command prints. A write of them that fails changes nothing.

use crate::audits::Printed;
use apf_commands::Chosen;
use apf_flows::write_text;
use std::io::{IsTerminal, Write};

/// Says how many events of a log were left out, as they have no name of a user.
pub(crate) fn note_unnamed<E: Write>(count: u64, err: &mut E) {
    if count > 0 {
        let _ = writeln!(
            err,
            "apf: events without a user's name, as of a failed login, are left out: {count}"
        );
    }
}

/// Says that the last line of a log was left out, where it was.
pub(crate) fn note_cut<E: Write>(is_cut: bool, err: &mut E) {
    if is_cut {
        let _ = writeln!(
            err,
            "apf: the last line is left out: it has no LF at its end, and is not whole JSON"
        );
    }
}

/// Says how many requests were turned away, if any were.
pub(crate) fn note_turned_away<E: Write>(printed: Printed, err: &mut E) {
    let Printed {
        requests,
        turned_away,
    } = printed;
    if turned_away > 0 {
        let _ = writeln!(
            err,
            "apf: {turned_away} of {requests} requests were turned away with status 429: each gets the median runsFor of those of its flow that ran, or of all that ran"
        );
    }
}

/// Says that the options choose no request of a log, if they don't.
pub(crate) fn note_nothing_chosen<E: Write>(chosen: &Chosen<'_>, printed: Printed, err: &mut E) {
    let is_choice = chosen.user.is_some() || chosen.since.is_some() || chosen.until.is_some();
    if is_choice && printed.requests == 0 {
        let _ = writeln!(
            err,
            "apf: nothing matched: the options choose no request of the log"
        );
    }
}

/// Says that no flow of a trace has this distinguisher.
pub(crate) fn note_no_flow<E: Write>(distinguisher: &str, err: &mut E) {
    let _ = err.write_all(b"apf: nothing matched: no flow of the trace has the distinguisher ");
    let _ = write_text(err, distinguisher);
    let _ = err.write_all(b"\n");
}

// A patience without a unit is short if it is below this.
const SHORT: u32 = 1000;

/// Says at a terminal of a short patience without a unit that it was taken for microseconds.
pub(crate) fn note_patience<E: Write + IsTerminal>(patience: &str, err: &mut E) {
    if let Ok(number) = patience.parse::<u32>()
        && 0 < number
        && number < SHORT
        && err.is_terminal()
    {
        let _ = writeln!(
            err,
            "apf: PATIENCE was taken for {number} microseconds: {number}s is {number} seconds"
        );
    }
}
