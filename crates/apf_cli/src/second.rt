//! The second cluster that stands beside the first.

ghost use Rattle.std.specs.Prelude.{◌≤◌, IfOk, vec_len};
ghost use Rattle.apf_matching.specs.Limits.{max_seats};
ghost use Rattle.apf_objects.specs.Cluster.{HasCatchAll, cluster_view, most_levels};
ghost use Rattle.apf_cli.specs.Clusters.{AreObjectsOf, AreScenarios, IsOther};

use crate::changes::changed;
use crate::clusters::{read_cluster, read_other, read_twice};
use crate::faults::Fault;
use crate::files::Files;
use apf_changes::Scenario;
use apf_objects::Cluster;
use std::alloc::Global;

/// A second cluster, by the words of a command line.
#[derive(Clone, Copy)]
pub(crate) struct Second<'a> {
    /// What is changed of it, in this order.
    pub(crate) changes: &'a [&'a str],
    /// The name of its objects, if they are others than those of the first one.
    pub(crate) against: Option<&'a str>,
}

impl Second<'_> {
    /// Whether there is one.
    pub(crate) fn is_asked(&self) -> bool {
        self.against.is_some() || !self.changes.is_empty()
    }
}

// Both clusters, before anything is changed.
fn read_both<F: Files>(
    alloc: Global,
    files: &mut F,
    objects: &str,
    against: Option<&str>,
) -> Result<(Cluster, Cluster), Fault>
    ensures read { IfOk result (λ clusters. AreObjectsOf F.holds objects.now (cluster_view clusters.0)) }
    ensures other { IfOk result (λ clusters. IsOther F.holds against.entry (cluster_view clusters.0) (cluster_view clusters.1)) }
    ensures few { IfOk result (λ clusters. vec_len clusters.0.levels ≤ most_levels) }
    ensures catch_all_too { IfOk result (λ clusters. HasCatchAll clusters.1) }
    ensures few_too { IfOk result (λ clusters. vec_len clusters.1.levels ≤ most_levels) }
{
    let Some(against) = against else {
        return read_twice(alloc, files, objects);
    };
    let first = read_cluster(alloc, files, objects)?;
    let second = read_other(alloc, files, against)?;
    Ok((first, second))
}

/// The cluster of the objects of this name, and the second one with its changes, on a server that has this many seats if they are
/// not changed.
///
/// # Errors
///
/// The faults of the objects, then of those of the second cluster, then of the changes.
pub(crate) fn read_scenarios<F: Files>(
    alloc: Global,
    files: &mut F,
    objects: &str,
    second: Second<'_>,
    seats: u32,
) -> Result<(Cluster, Scenario), Fault>
    requires some { 1 ≤ seats }
    requires few { seats ≤ max_seats }
    ensures read { IfOk result (λ read. AreScenarios F.holds objects.now second.entry seats (cluster_view read.0) read.1) }
    ensures levels { IfOk result (λ read. vec_len read.0.levels ≤ most_levels) }
{
    let (cluster, other) = read_both(alloc, files, objects, second.against)?;
    let scenario = changed(alloc, Scenario::new(alloc, other, seats), second.changes)?;
    Ok((cluster, scenario))
}
