//! Which flows have the same queues in their hands.

ghost use Rattle.std.specs.Prelude.{◌≡◌, ◌++◌, List, [], ◌∷◌, ℕ, IfOk, OnOk, if◌then◌else◌, bytes_eq};
ghost use Rattle.apf_hands.specs.Alike.{AreAlike, hashes_at, hashes_for};

use crate::dealt::Dealt;
use std::alloc::{AllocError, Global};
use std::collections::BTreeMap;

/// The hashes of the flows that have the same queues in their hands, in order, by those queues in ascending order.
pub(crate) type Alike<'f> = BTreeMap<&'f [u32], Vec<u64>>;

// Puts a hash behind those of the flows with these queues.
fn add<'f>(
    alloc: Global,
    alike: &mut Alike<'f>,
    queues: &'f [u32],
    hash: u64,
) -> Result<(), AllocError>
    ensures { OnOk result ((others : List ℕ) → hashes_at alike.new others ≡ hashes_at alike.old others ++ (if bytes_eq queues.now others then hash ∷ [] else [])) }
{
    if let Some(hashes) = alike.get_mut(queues) {
        hashes.push(hash)?;
        return Ok(());
    }
    let mut hashes = Vec::new(alloc);
    hashes.push(hash)?;
    alike.insert(queues, hashes)?;
    Ok(())
}

/// The hashes of the flows by the queues of their hands.
///
/// # Errors
///
/// `AllocError` if memory was refused.
pub(crate) fn alike_of<'f>(alloc: Global, flows: &'f [Dealt<'_>]) -> Result<Alike<'f>, AllocError>
    ensures { IfOk result (λ alike. AreAlike flows.now (hashes_at alike)) }
{
    let mut alike = BTreeMap::new(alloc);
    for flow in flows {
        add(alloc, &mut alike, flow.queues.as_slice(), flow.first.hash)?;
    }
    Ok(alike)
}

// The hashes of the flows that have these queues in their hands.
fn alike_at<'h>(alike: &'h Alike<'_>, queues: &[u32]) -> &'h [u64]
    ensures { result.now ≡ hashes_at alike.now queues.now }
{
    let Some(hashes) = alike.get(queues) else {
        return &[];
    };
    hashes.as_slice()
}

/// The hashes of the flows that have these queues in their hands, and none of flows without queues.
pub(crate) fn alike_to<'h>(alike: &'h Alike<'_>, queues: &[u32]) -> &'h [u64]
    ensures { result.now ≡ hashes_for (hashes_at alike.now) queues.now }
{
    if queues.is_empty() {
        return &[];
    }
    alike_at(alike, queues)
}
