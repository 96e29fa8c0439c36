//! The program `apf`, over words, files and writers that its caller passes. `apf_commands` reads the words.
//!
//! In the order of the data's way:
//!
//! - `files`: where the files' bytes come from.
//! - `reading`: reads and judges the files of a level, and says what is wrong with one. `explaining` prints that, and
//!   `telling` says it of other files.
//! - `streaming`: simulates a trace that is read in pieces, and `pictures` draws that. `traces`: does the other commands on a trace.
//!   `audits`: does that on an audit log.
//! - `clusters`: prints a cluster's objects, and what they match. `cluster_runs`: simulates a whole cluster, or two, with
//!   the logs that `cluster_logs` opens. `cluster_printing` prints what that came to, `cluster_pictures` draws it, and
//!   `cluster_faults` says why there is nothing. `second`: makes the second one, and `changes` changes it.
//! - `running`: runs requests by workers. `serving`: serves a level over standard input.
//! - `measuring`: how large an output will be, before its first byte. `notes`: the lines beside an output. `progress`: the line of
//!   how far a command is.
//! - `program`: does the others, and answers the status.
//! - `faults`: the lines on standard error.
#![tactic(auto)]

mod audits;
mod changes;
mod cluster_faults;
mod cluster_logs;
mod cluster_pictures;
mod cluster_printing;
mod cluster_runs;
mod clusters;
mod explaining;
mod faults;
mod files;
mod measuring;
mod notes;
mod pictures;
mod program;
mod progress;
mod reading;
mod running;
mod second;
mod serving;
mod streaming;
mod telling;
mod traces;

pub use apf_commands::{Action, Arguments, Chosen, read_patience, read_time, read_words};
pub use files::{Cause, FileFault, Files, SecondFile, WriteFault, cause_of};
pub use program::act;
