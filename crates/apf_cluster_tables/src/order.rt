//! The flows that waited or were turned away, in the order in which they are told.

ghost use Rattle.std.specs.Prelude.{◌≡◌, ◌++◌, IfOk, OnOk, slice_get};
ghost use Rattle.std.specs.List.Sorted.{IsPermutation, IsSortedBy};
ghost use Rattle.apf_cluster_tables.specs.Flows as spec;

use crate::level_table::LevelTable;
use apf_rows::{Line, Sums};
use std::alloc::{AllocError, Global};

/// Where a flow stands among those that are told.
#[derive(Clone, Copy, Debug, PartialEq, Eq)]
pub struct FlowPlace {
    /// The greatest number less its longest wait, in microseconds.
    pub haste: u64,
    /// The greatest number less how many of its requests were rejected or gave up.
    pub luck: u64,
    /// The number of its level.
    pub level: usize,
    /// Its number on that.
    pub flow: usize,
}

/// How many requests were rejected or gave up.
pub(crate) fn lost(sums: &Sums) -> u64
    ensures { result ≡ spec.lost sums.now }
{
    sums.rejected.saturating_add(sums.cancelled)
}

/// Whether a request of the flow waited, was rejected or gave up.
pub(crate) fn is_told(sums: &Sums) -> bool
    ensures { result ≡ spec.is_told sums.now }
{
    sums.waited > 0 || sums.rejected > 0 || sums.cancelled > 0
}

// The place of the flow of this line.
fn place_of(sums: &Sums, level: usize, flow: usize) -> FlowPlace
    ensures { result ≡ spec.place_of sums.now level flow }
{
    FlowPlace {
        haste: u64::MAX - sums.longest,
        luck: u64::MAX - lost(sums),
        level,
        flow,
    }
}

// The places of the flows of a level that are told, behind these.
fn add_places(places: &mut Vec<FlowPlace>, lines: &[Line], level: usize) -> Result<(), AllocError>
    ensures { OnOk result (places.new.items ≡ places.old.items ++ spec.places_from level 0 lines.now) }
{
    for (flow, line) in lines.iter().enumerate() {
        let sums = &line.figures.sums;
        if is_told(sums) {
            places.push(place_of(sums, level, flow))?;
        }
    }
    Ok(())
}

// The places of the flows that are told.
fn places_of(alloc: Global, tables: &[LevelTable]) -> Result<Vec<FlowPlace>, AllocError>
    ensures { IfOk result (λ places. places.items ≡ spec.all_from 0 tables.now) }
{
    let mut places = Vec::new(alloc);
    for (level, table) in tables.iter().enumerate() {
        add_places(&mut places, table.table.lines.as_slice(), level)?;
    }
    Ok(places)
}

// Puts those first that waited longest, then those that lost most, then those of the first levels.
fn put_in_order(places: &mut Vec<FlowPlace>)
    ensures same { IsPermutation places.old.items places.new.items }
    ensures in_order { IsSortedBy spec.comes_before places.new.items }
{
    places.sort_unstable_by_key(|place| (place.haste, place.luck, place.level, place.flow));
}

/// The flows that waited or were turned away: those first that waited longest, then those of which most was lost.
///
/// # Errors
///
/// `AllocError` if memory was refused.
pub fn flows_in_order(alloc: Global, tables: &[LevelTable]) -> Result<Vec<FlowPlace>, AllocError>
    ensures { IfOk result (λ places. spec.AreInOrder tables.now places.items) }
{
    let mut places = places_of(alloc, tables)?;
    put_in_order(&mut places);
    Ok(places)
}
