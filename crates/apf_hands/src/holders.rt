//! Which flows hold each queue.

ghost use Rattle.std.specs.Prelude.{◌≡◌, ◌++◌, List, [], ◌∷◌, ℕ, IfOk, OnOk, if◌then◌else◌, ◌==◌};
ghost use Rattle.apf_hands.specs.Dealt.{flows_of};
ghost use Rattle.apf_hands.specs.Hands.{holds};
ghost use Rattle.apf_hands.specs.Holders.{AreHolders, places_at};

use crate::dealt::Dealt;
use std::alloc::{AllocError, Global};
use std::collections::BTreeMap;

/// The places among the flows of those that hold each queue, in order. A queue that no flow holds is left out.
pub(crate) type Holders = BTreeMap<u32, Vec<usize>>;

// Puts a place behind those of the queue.
fn add(alloc: Global, holders: &mut Holders, queue: u32, place: usize) -> Result<(), AllocError>
    ensures { OnOk result ((other : ℕ) → places_at holders.new other ≡ places_at holders.old other ++ (if other == queue then place ∷ [] else [])) }
{
    if let Some(places) = holders.get_mut(&queue) {
        places.push(place)?;
        return Ok(());
    }
    let mut places = Vec::new(alloc);
    places.push(place)?;
    holders.insert(queue, places)?;
    Ok(())
}

// Puts a place behind those of each queue of a hand, once.
fn add_hand(
    alloc: Global,
    holders: &mut Holders,
    hand: &[u32],
    place: usize,
) -> Result<(), AllocError>
    ensures { OnOk result ((queue : ℕ) → places_at holders.new queue ≡ places_at holders.old queue ++ (if holds hand.now queue then place ∷ [] else [])) }
{
    for (card, queue) in hand.iter().enumerate() {
        if !hand[..card].contains(queue) {
            add(alloc, holders, *queue, place)?;
        }
    }
    Ok(())
}

/// The places of the flows that hold each queue.
///
/// # Errors
///
/// `AllocError` if memory was refused.
pub(crate) fn holders_of(alloc: Global, flows: &[Dealt<'_>]) -> Result<Holders, AllocError>
    ensures { IfOk result (λ holders. AreHolders (flows_of flows.now) (places_at holders)) }
{
    let mut holders = BTreeMap::new(alloc);
    for (place, flow) in flows.iter().enumerate() {
        add_hand(alloc, &mut holders, flow.hand.as_slice(), place)?;
    }
    Ok(holders)
}

/// The places of the flows that hold a queue.
pub(crate) fn holding(holders: &Holders, queue: u32) -> &[usize]
    ensures { result.now ≡ places_at holders.now queue }
{
    let Some(places) = holders.get(&queue) else {
        return &[];
    };
    places.as_slice()
}
