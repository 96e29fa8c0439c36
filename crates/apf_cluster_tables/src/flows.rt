//! The flows of a cluster, one after another, and where each stands by its names.

ghost use Rattle.std.specs.Prelude.{◌≡◌, ◌++◌, IfOk, OnOk, map, slice_get};
ghost use Rattle.apf_objects.specs.Levels.{level_view};
ghost use Rattle.apf_cluster_tables.specs.Sides.{side_view};
ghost use Rattle.apf_cluster_tables.specs.Pairs as spec;
ghost use Rattle.apf_cluster_tables.specs.Places.{ArePlaces, FindsPlace, key_view};
ghost use Rattle.apf_cluster_tables.specs.Places as noted;

use crate::side::Side;
use apf_rows::Line;
use apf_traces::FlowNames;
use std::alloc::{AllocError, Global};
use std::collections::BTreeMap;

/// Where a flow stands.
#[derive(Clone, Copy, Debug, PartialEq, Eq)]
pub struct FlowAt {
    /// The number of its level.
    pub level: usize,
    /// Its number on that.
    pub flow: usize,
}

/// A flow of a cluster.
#[derive(Clone, Copy)]
pub(crate) struct Flow<'a> {
    pub(crate) at: FlowAt,
    /// The name of its level.
    pub(crate) of: &'a str,
    pub(crate) line: &'a Line,
}

/// What a flow is known by: whether it has names, and these; or if it has none, the name of its level.
pub(crate) type Key<'a> = (bool, &'a str, &'a str);

/// The place of the first flow of each key.
pub(crate) type Places<'a> = BTreeMap<Key<'a>, usize>;

// What a flow of these names is known by, on a level of this name.
fn key_by<'a>(level: &'a str, names: &'a Option<FlowNames>) -> Key<'a>
    ensures { key_view result ≡ spec.key_by level.now names.now }
{
    match names {
        Some(names) => (true, names.schema.as_str(), names.distinguisher.as_str()),
        None => (false, level, ""),
    }
}

/// What a flow is known by.
pub(crate) fn key_of<'a>(flow: &Flow<'a>) -> Key<'a>
    ensures { key_view result ≡ spec.key_of (spec.flow_view flow.now) }
{
    key_by(flow.of, &flow.line.names)
}

// The flows of a level, behind these.
fn add_flows<'a>(
    flows: &mut Vec<Flow<'a>>,
    name: &'a str,
    level: usize,
    lines: &'a [Line],
) -> Result<(), AllocError>
    ensures { OnOk result (map spec.flow_view flows.new.items ≡ map spec.flow_view flows.old.items ++ spec.flows_from name.now level 0 lines.now) }
{
    for (flow, line) in lines.iter().enumerate() {
        let at = FlowAt { level, flow };
        flows.push(Flow { at, of: name, line })?;
    }
    Ok(())
}

// The flows of the level of this number, if it is there, behind these.
fn add_level<'a>(
    flows: &mut Vec<Flow<'a>>,
    side: Side<'a>,
    level: usize,
    lines: &'a [Line],
) -> Result<(), AllocError>
    ensures { OnOk result (map spec.flow_view flows.new.items ≡ map spec.flow_view flows.old.items ++ spec.flows_by (slice_get (side_view side.entry).levels level) level lines.now) }
{
    match side.levels.get(level) {
        Some(it) => add_flows(flows, it.name.as_str(), level, lines),
        None => Ok(()),
    }
}

/// The flows of a cluster.
pub(crate) fn flows_of<'a>(alloc: Global, side: Side<'a>) -> Result<Vec<Flow<'a>>, AllocError>
    ensures { IfOk result (λ flows. map spec.flow_view flows.items ≡ spec.flows_of (side_view side.entry)) }
{
    let mut flows = Vec::new(alloc);
    for (level, table) in side.tables.iter().enumerate() {
        add_level(&mut flows, side, level, table.table.lines.as_slice())?;
    }
    Ok(flows)
}

/// The place that is noted at a key.
pub(crate) fn place_at<'a>(places: &Places<'a>, key: &Key<'a>) -> Option<usize>
    ensures { result ≡ noted.place_at places.now (key_view key.now) }
{
    places.get(key).copied()
}

// Notes the place of a flow of this key, if it is the first.
fn note<'a>(places: &mut Places<'a>, key: Key<'a>, place: usize) -> Result<(), AllocError>
    ensures { OnOk result (FindsPlace (key_view key.entry) place places.old places.new) }
{
    if place_at(places, &key).is_some() {
        return Ok(());
    }
    places.insert(key, place)?;
    Ok(())
}

/// The place of the first flow of each key.
pub(crate) fn places_of<'a>(alloc: Global, flows: &[Flow<'a>]) -> Result<Places<'a>, AllocError>
    ensures { IfOk result (λ places. ArePlaces (map spec.flow_view flows.now) places) }
{
    let mut places = BTreeMap::new(alloc);
    for (place, flow) in flows.iter().enumerate() {
        note(&mut places, key_of(flow), place)?;
    }
    Ok(places)
}
