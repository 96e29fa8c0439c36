//! The flows of two clusters in pairs, in the order in which they are told.

ghost use Rattle.std.specs.Prelude.{◌≡◌, ◌++◌, IfOk, OnOk, map, option_map, option_and_then, slice_get, Some, None};
ghost use Rattle.std.specs.List.Sorted.{IsPermutation, IsSortedBy};
ghost use Rattle.apf_cluster_tables.specs.Sides.{side_view};
ghost use Rattle.apf_cluster_tables.specs.Pairs as spec;
ghost use Rattle.apf_cluster_tables.specs.Found.{AreFound, said};

use crate::flows::{Flow, FlowAt, Places, flows_of, key_of, place_at, places_of};
use crate::order::{is_told, lost};
use crate::side::Side;
use std::alloc::{AllocError, Global};

/// A flow of one cluster and the same flow of another one, or one of them alone; and where the two stand among those that are told.
#[derive(Clone, Copy, Debug, PartialEq, Eq)]
pub struct FlowPair {
    /// The greatest number less how much the longest wait changes, in microseconds.
    pub haste: u64,
    /// The greatest number less how much it changes how many requests were rejected or gave up.
    pub luck: u64,
    /// Where the flow of the first cluster stands.
    pub first: Option<FlowAt>,
    /// Where that of the second one stands.
    pub second: Option<FlowAt>,
}

// Whether a request of the flow waited, was rejected or gave up, if the flow is there.
fn is_told_of(flow: Option<Flow<'_>>) -> bool
    ensures { result ≡ spec.is_told_of (option_map spec.flow_view flow.entry) }
{
    match flow {
        Some(flow) => is_told(&flow.line.figures.sums),
        None => false,
    }
}

// Its longest wait.
fn longest_of(flow: Option<Flow<'_>>) -> u64
    ensures { result ≡ spec.longest_of (option_map spec.flow_view flow.entry) }
{
    match flow {
        Some(flow) => flow.line.figures.sums.longest,
        None => 0,
    }
}

// How many of its requests were rejected or gave up.
fn lost_of(flow: Option<Flow<'_>>) -> u64
    ensures { result ≡ spec.lost_of (option_map spec.flow_view flow.entry) }
{
    match flow {
        Some(flow) => lost(&flow.line.figures.sums),
        None => 0,
    }
}

// Where it stands.
fn at_of(flow: Option<Flow<'_>>) -> Option<FlowAt>
    ensures { result ≡ spec.at_of (option_map spec.flow_view flow.entry) }
{
    match flow {
        Some(flow) => Some(flow.at),
        None => None,
    }
}

// The pair of these.
fn pair_of(one: Option<Flow<'_>>, other: Option<Flow<'_>>) -> FlowPair
    ensures { result ≡ spec.pair_of (option_map spec.flow_view one.entry) (option_map spec.flow_view other.entry) }
{
    FlowPair {
        haste: u64::MAX - longest_of(one).abs_diff(longest_of(other)),
        luck: u64::MAX - lost_of(one).abs_diff(lost_of(other)),
        first: at_of(one),
        second: at_of(other),
    }
}

// Puts the pair of these behind the others, if one of them is told.
fn add_pair(
    pairs: &mut Vec<FlowPair>,
    one: Option<Flow<'_>>,
    other: Option<Flow<'_>>,
) -> Result<(), AllocError>
    ensures { OnOk result (pairs.new.items ≡ pairs.old.items ++ spec.told_pair (option_map spec.flow_view one.entry) (option_map spec.flow_view other.entry)) }
{
    if is_told_of(one) || is_told_of(other) {
        pairs.push(pair_of(one, other))?;
    }
    Ok(())
}

// The flows of a cluster, and where each stands by its key.
#[derive(Clone, Copy)]
struct Found<'f, 'a> {
    flows: &'f [Flow<'a>],
    places: &'f Places<'a>,
}

// Whether there is a number, and it is this one.
fn is_number(number: Option<usize>, place: usize) -> bool
    ensures { result ≡ spec.is_number number place }
{
    match number {
        Some(number) => number == place,
        None => false,
    }
}

// The place of the partner of the flow that has this place among its own.
fn partner_of<'a>(
    own: Found<'_, 'a>,
    others: Found<'_, 'a>,
    place: usize,
    flow: &Flow<'a>,
) -> Option<usize>
    requires own { AreFound own }
    requires others { AreFound others }
    ensures { result ≡ spec.partner_of (said own.entry) (said others.entry) place (spec.flow_view flow.now) }
{
    let key = key_of(flow);
    if is_number(place_at(own.places, &key), place) {
        place_at(others.places, &key)
    } else {
        None
    }
}

// The flow at this place, if there is one.
fn flow_at<'a>(flows: &[Flow<'a>], place: Option<usize>) -> Option<Flow<'a>>
    ensures { option_map spec.flow_view result ≡ option_and_then (slice_get (map spec.flow_view flows.now)) place }
{
    flows.get(place?).copied()
}

// The pairs of the flows of the first cluster, behind these.
fn add_pairs<'a>(
    pairs: &mut Vec<FlowPair>,
    own: Found<'_, 'a>,
    others: Found<'_, 'a>,
) -> Result<(), AllocError>
    requires own { AreFound own }
    requires others { AreFound others }
    ensures { OnOk result (pairs.new.items ≡ pairs.old.items ++ spec.pairs_from (said own.entry) (said others.entry) 0 (said own.entry)) }
{
    for (place, flow) in own.flows.iter().enumerate() {
        let partner = flow_at(others.flows, partner_of(own, others, place, flow));
        add_pair(pairs, Some(*flow), partner)?;
    }
    Ok(())
}

// A flow of the second cluster, behind these pairs, where it has no partner.
fn add_one(
    pairs: &mut Vec<FlowPair>,
    partner: Option<usize>,
    flow: Flow<'_>,
) -> Result<(), AllocError>
    ensures { OnOk result (pairs.new.items ≡ pairs.old.items ++ spec.alone_by partner (spec.flow_view flow.entry)) }
{
    match partner {
        Some(_) => Ok(()),
        None => add_pair(pairs, None, Some(flow)),
    }
}

// The flows of the second cluster that have no partner, behind these pairs.
fn add_alone<'a>(
    pairs: &mut Vec<FlowPair>,
    own: Found<'_, 'a>,
    others: Found<'_, 'a>,
) -> Result<(), AllocError>
    requires own { AreFound own }
    requires others { AreFound others }
    ensures { OnOk result (pairs.new.items ≡ pairs.old.items ++ spec.alone_from (said own.entry) (said others.entry) 0 (said own.entry)) }
{
    for (place, flow) in own.flows.iter().enumerate() {
        add_one(pairs, partner_of(own, others, place, flow), *flow)?;
    }
    Ok(())
}

// The pairs of these flows of two clusters that are told.
fn pairs_of<'a>(
    alloc: Global,
    first: Found<'_, 'a>,
    second: Found<'_, 'a>,
) -> Result<Vec<FlowPair>, AllocError>
    requires first { AreFound first }
    requires second { AreFound second }
    ensures { IfOk result (λ pairs. pairs.items ≡ spec.all_pairs (said first.entry) (said second.entry)) }
{
    let mut pairs = Vec::new(alloc);
    add_pairs(&mut pairs, first, second)?;
    add_alone(&mut pairs, second, first)?;
    Ok(pairs)
}

// The level of a flow, behind all others where it is not there.
fn level_in(at: Option<FlowAt>) -> usize
    ensures { result ≡ spec.level_in at }
{
    match at {
        Some(at) => at.level,
        None => usize::MAX,
    }
}

// Its number on that.
fn flow_in(at: Option<FlowAt>) -> usize
    ensures { result ≡ spec.flow_in at }
{
    match at {
        Some(at) => at.flow,
        None => usize::MAX,
    }
}

// Puts those first that change most, then those of the first flows.
fn put_in_order(pairs: &mut Vec<FlowPair>)
    ensures same { IsPermutation pairs.old.items pairs.new.items }
    ensures in_order { IsSortedBy spec.comes_before pairs.new.items }
{
    pairs.sort_unstable_by_key(|pair| {
        (
            pair.haste,
            pair.luck,
            level_in(pair.first),
            flow_in(pair.first),
            level_in(pair.second),
            flow_in(pair.second),
        )
    });
}

/// The flows of two clusters in pairs, of which one waited or was turned away. Two flows of the same names are a pair, and so are two
/// without names, of levels of the same name; a flow without a partner is a pair alone. Those come first whose longest wait changes
/// most, then those of which more or less was lost, then those of the first flows of the first cluster, and of the second one.
///
/// # Errors
///
/// `AllocError` if memory was refused.
pub fn pairs_in_order<'a>(
    alloc: Global,
    first: Side<'a>,
    second: Side<'a>,
) -> Result<Vec<FlowPair>, AllocError>
    ensures { IfOk result (λ pairs. spec.ArePairs (side_view first.entry) (side_view second.entry) pairs.items) }
{
    let firsts = flows_of(alloc, first)?;
    let seconds = flows_of(alloc, second)?;
    let first_places = places_of(alloc, firsts.as_slice())?;
    let second_places = places_of(alloc, seconds.as_slice())?;
    let own = Found {
        flows: firsts.as_slice(),
        places: &first_places,
    };
    let others = Found {
        flows: seconds.as_slice(),
        places: &second_places,
    };
    let mut pairs = pairs_of(alloc, own, others)?;
    put_in_order(&mut pairs);
    Ok(pairs)
}
