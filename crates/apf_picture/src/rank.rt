//! Which flows have a row of their own: those that waited longest.

ghost use Rattle.std.specs.Prelude.{◌≡◌, ◌<◌, ◌+◌, ◌-◌, ◌^◌, ℕ, List, [], ◌∷◌, length, map, min, vec_len, All, IfOk, IsPermutation, IsSortedBy};
ghost use Rattle.apf_picture.specs.Ranks.{own_rows, IsOfSome, standings_of, comes_before, AreOwnFlows, place_of, rows_of};

use crate::scene::Outcome;
use std::alloc::{AllocError, Global};
use std::cmp::Reverse;

/// This many flows have a row of their own. The others share the row of this number.
pub(crate) const OWN_ROWS: u32 = 12;

/// What the place of a flow among the flows depends on.
#[derive(Clone, Copy)]
pub(crate) struct Standing {
    pub(crate) flow: u32,
    /// How long its requests waited in sum, in microseconds.
    pub(crate) waited: u128,
    pub(crate) requests: u32,
}

// The standings of all flows before any request is counted, in the order of the flows.
fn no_standings(alloc: Global, flows: u32) -> Result<Vec<Standing>, AllocError>
    ensures { IfOk result (λ all. all.items ≡ standings_of [] [] flows) }
{
    let mut standings = Vec::with_capacity(alloc, flows as usize)?;
    for flow in 0..flows {
        standings.push(Standing {
            flow,
            waited: 0,
            requests: 0,
        })?;
    }
    Ok(standings)
}

// Counts one request more, which is of this flow, if there is one of this number. This many were counted before.
fn count(standings: &mut Vec<Standing>, outcome: &Outcome, flow: u32, counted: usize)
    requires few { counted < 2 ^ 32 - 1 }
    requires before { All (IsOfSome counted) standings.old.items }
    ensures after { All (IsOfSome (counted + 1)) standings.new.items }
    ensures counts { (flows : ℕ) (outcomes : List Outcome) (of : List ℕ) → standings.old.items ≡ standings_of outcomes of flows
        → standings.new.items ≡ standings_of (outcome.now ∷ outcomes) (flow ∷ of) flows }
{
    let place = flow as usize;
    if place < standings.len() {
        let standing = standings[place];
        standings[place] = Standing {
            flow: standing.flow,
            waited: standing.waited + u128::from(outcome.wait),
            requests: standing.requests + 1,
        };
    }
}

// The standings of all flows, in the order of the flows. The requests are counted from the last one to the first.
fn standings(
    alloc: Global,
    outcomes: &[Outcome],
    of: &[u32],
    flows: u32,
) -> Result<Vec<Standing>, AllocError>
    requires few { length of.now < 2 ^ 32 }
    requires each { length of.now ≡ length outcomes.now }
    ensures all { IfOk result (λ all. all.items ≡ standings_of outcomes.now of.now flows) }
    ensures count { IfOk result (λ all. vec_len all ≡ flows) }
    ensures known { IfOk result (λ all. All (λ it. it.flow < flows) all.items) }
{
    let mut standings = no_standings(alloc, flows)?;
    for counted in 0..of.len() {
        let number = of.len() - 1 - counted;
        count(&mut standings, &outcomes[number], of[number], counted);
    }
    Ok(standings)
}

// Puts those first that waited longest in sum, of those with equal sums those with most requests, and of these the earlier ones.
fn put_in_order(standings: &mut Vec<Standing>)
    ensures same { IsPermutation standings.old.items standings.new.items }
    ensures count { vec_len standings.new ≡ vec_len standings.old }
    ensures in_order { IsSortedBy comes_before standings.new.items }
{
    standings.sort_unstable_by_key(|it| (Reverse(it.waited), Reverse(it.requests), it.flow));
}

// The flows of the first standings.
fn first_flows(alloc: Global, standings: &[Standing]) -> Result<Vec<u32>, AllocError>
    ensures own { IfOk result (λ own. own.items ≡ map (λ it. it.flow) standings.now) }
    ensures count { IfOk result (λ own. vec_len own ≡ length standings.now) }
{
    let mut flows = Vec::new(alloc);
    for standing in standings {
        flows.push(standing.flow)?;
    }
    Ok(flows)
}

/// The flows that have a row of their own, in the order of the rows.
pub(crate) fn own_flows(
    alloc: Global,
    outcomes: &[Outcome],
    of: &[u32],
    flows: u32,
) -> Result<Vec<u32>, AllocError>
    requires few { length of.now < 2 ^ 32 }
    requires each { length of.now ≡ length outcomes.now }
    ensures own { IfOk result (λ own. AreOwnFlows outcomes.now of.now flows own.items) }
    ensures count { IfOk result (λ own. vec_len own ≡ min flows own_rows) }
    ensures flows { IfOk result (λ own. All (λ flow. flow < flows) own.items) }
{
    let mut standings = standings(alloc, outcomes, of, flows)?;
    put_in_order(&mut standings);
    let count = standings.len().min(OWN_ROWS as usize);
    first_flows(alloc, &standings[..count])
}

// The place of a flow among those that have a row of their own, or how many these are.
fn row(own: &[u32], flow: u32) -> u32
    requires { length own.now < 2 ^ 31 }
    ensures { result ≡ place_of flow own.now }
{
    for (place, other) in own.iter().enumerate() {
        if *other == flow {
            return place as u32;
        }
    }
    own.len() as u32
}

/// The row of each flow.
#[tactic(auto, using(crate::proofs::Ranges::length_rows))]
pub(crate) fn rows(alloc: Global, own: &[u32], flows: u32) -> Result<Vec<u32>, AllocError>
    requires { length own.now < 2 ^ 31 }
    ensures rows { IfOk result (λ rows. rows.items ≡ rows_of own.now flows) }
    ensures each { IfOk result (λ rows. vec_len rows ≡ flows) }
{
    let mut rows = Vec::new(alloc);
    for flow in 0..flows {
        rows.push(row(own, flow))?;
    }
    Ok(rows)
}
