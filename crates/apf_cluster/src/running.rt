//! A whole log.

ghost use Rattle.std.specs.Prelude.{◌≡◌, ◌≤◌, ◌*◌, List, suc, length, option_map, vec_len, IfOk, is_some};
ghost use Rattle.std.specs.Option.{option_to_list};
ghost use Rattle.apf_audit.specs.AuditEvent.{Event, event};
ghost use Rattle.apf_matching.specs.Limits.{max_seats};
ghost use Rattle.apf_joined_reader.specs.Reading.{inputs};
ghost use Rattle.apf_objects.specs.Cluster.{cluster_view};
ghost use Rattle.apf_times.specs.Limits.{max_patience};
ghost use Rattle.apf_cluster.specs.Requests.{start_of as first_of};
ghost use Rattle.apf_cluster.specs.Lending.{period};
ghost use Rattle.apf_cluster.specs.Runs.{AreInTime, AreLived, HasRun, HasRunLog, IsFresh, Reaches, choice_by, course_of};

use crate::closing::close_all;
use crate::fault::ClusterFault;
use crate::feeding::{Way, feed};
use crate::lanes::{LevelLane, open_lanes};
use crate::lending::{end_after, pass_all};
use apf_audit::{By, Choice, Taken};
use apf_cluster_tables::LevelTable;
use apf_joined_reader::JoinedReader;
use apf_matching::sum_of_shares;
use apf_objects::Cluster;
use std::alloc::Global;
use std::io::Read;

/// A server, and how its requests wait.
#[derive(Clone, Copy)]
pub struct ClusterTerms {
    /// The seats of the server, which its levels share: at most 1,000,000.
    pub seats: u32,
    /// How long a request waits before it gives up, in microseconds, or 0 if it does not: at most 1,000,000,000.
    pub patience: u64,
    /// Whether seats are lent to the levels anew every ten seconds.
    pub lends: bool,
    /// From when on requests are counted, in microseconds from the first request on. Those before run, and are left out of what is
    /// told.
    pub since: u64,
    /// Whether the levels are drawn over time.
    pub draws: bool,
}

/// When the first request was received, if there is one.
pub(crate) fn start_of(first: &Option<Taken>) -> u64
    ensures { result ≡ first_of (option_to_list (option_map event first.now)) }
{
    match first {
        Some(taken) => taken.received,
        None => 0,
    }
}

/// Periods end as long as somebody is there. Then each lane is closed.
///
/// # Errors
///
/// Those of the lanes, or `Untimely`.
pub(crate) fn close_after(
    alloc: Global,
    way: Way<'_>,
    lanes: Vec<LevelLane>,
    periods: u64,
) -> Result<Vec<LevelTable>, ClusterFault>
    requires count { length lanes.items ≤ 1000 }
    requires next { AreInTime (period * suc periods) lanes.items }
    requires lived { AreLived lanes.items }
    ensures tables { IfOk result (λ tables. (told : List Event) → Reaches (course_of way.entry) told lanes.items periods
        → HasRun (course_of way.entry) told tables.items) }
    ensures count { IfOk result (λ tables. length tables.items ≡ length lanes.items) }
{
    let mut lanes = lanes;
    let ended = pass_all(alloc, way, &mut lanes, periods)?;
    close_all(alloc, lanes, end_after(ended)?)
}

/// Runs the requests of an audit log on the levels of a cluster, each request on that of its schema, in one thread. Answers what
/// the requests of each level came to, in the order of the levels.
///
/// The reader has read nothing. A level begins with its nominal limit, by its shares of the server's seats, but one seat at least;
/// one that is exempt holds no request back. Every ten seconds of the log, as long as somebody is there, the seats are divided anew
/// by what the requests of each level asked for, if they are lent. A request takes its width in seats. It runs, waits, gives up and
/// is charged as on the level of `simulate`, where requests are charged by time.
///
/// # Errors
///
/// The log's first fault, or that of the input; `Open` with the first level that is not opened; `Level` with what runs on one.
pub fn run_log<R: Read, S: Read>(
    alloc: Global,
    cluster: &Cluster,
    terms: ClusterTerms,
    reader: &mut JoinedReader,
    input: &mut R,
    lines: &mut S,
) -> Result<Vec<LevelTable>, ClusterFault>
    requires levels { vec_len cluster.now.levels ≤ 1000 }
    requires seats { terms.seats ≤ max_seats }
    requires patience { terms.patience ≤ max_patience }
    ensures each { IfOk result (λ tables. length tables.items ≡ length cluster.now.levels.items) }
    ensures ran { IfOk result (λ tables. IsFresh reader.old
        → HasRunLog (choice_by cluster.entry) (cluster_view cluster.now) terms (reader.old.reader.window.size) (is_some reader.old.halves) (inputs (R.remaining input.old) (S.remaining lines.old)) (inputs (R.remaining input.new) (S.remaining lines.new)) reader.new tables.items) }
{
    let levels = cluster.levels.as_slice();
    let mut lanes = open_lanes(alloc, levels, terms, &[], sum_of_shares(levels))?;
    let choice = Choice {
        by: By::Schema(cluster),
        user: None,
        since: None,
        until: None,
    };
    let first = reader.next(&choice, input, lines)?;
    let way = Way {
        cluster,
        choice: &choice,
        terms,
        fixed: &[],
        start: start_of(&first),
    };
    let periods = feed(alloc, way, &mut lanes, first, reader, input, lines)?;
    close_after(alloc, way, lanes, periods)
}
