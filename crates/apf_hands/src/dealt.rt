//! The flows of a trace with their hands of queues.

ghost use Rattle.std.specs.Prelude.{◌≡◌, ◌≢◌, All, AllPairs, IfOk, length};
ghost use Rattle.std.specs.Result.{result_err};
ghost use Rattle.apf_hands.specs.Hands.{flows_in, hand_by, sizes_of, fault_by};
ghost use Rattle.apf_hands.specs.Dealt.{flows_of};
ghost use Rattle.apf_hands.specs.Alike.{AreOrdered};
ghost use Rattle.apf_hands.specs.Dealing.{IsDealt, size_by};

use apf_flow::{Dealer, DealerFault};
use apf_model::{Config, Response};
use apf_times::Arrival;
use apf_traces::TraceRequest;
use arrayvec::ArrayVec;
use std::alloc::{AllocError, Global};

/// A flow, by its first request, with the hand of queues that it is dealt.
#[derive(Drop)]
pub(crate) struct Dealt<'a> {
    pub(crate) first: &'a TraceRequest,
    pub(crate) hand: ArrayVec<u32, 15>,
    // the queues of the hand in ascending order
    pub(crate) queues: Vec<u32>,
}

/// The dealer of a level's queues. A level that rejects has none.
pub(crate) fn dealer_of(config: &Config) -> Result<Option<Dealer>, DealerFault>
    ensures ok { IfOk result (λ dealer. dealer ≡ sizes_of config.now) }
    ensures fault { result_err result ≡ fault_by (sizes_of config.now) }
{
    match config.limit_response {
        Response::Queue => Ok(Some(Dealer::new(config.queues, config.hand_size)?)),
        Response::Reject => Ok(None),
    }
}

// The hand of a flow. Without a dealer it has no queues.
fn hand_of(dealer: &Option<Dealer>, hash: u64) -> ArrayVec<u32, 15>
    ensures dealt { result.items ≡ hand_by dealer.now hash }
    ensures size { length result.items ≡ size_by dealer.now }
    ensures distinct { AllPairs (λ queue later. queue ≢ later) result.items }
{
    match dealer {
        Some(dealer) => dealer.deal(hash),
        None => ArrayVec::new(),
    }
}

// The queues of a hand in ascending order.
fn in_order(alloc: Global, hand: &[u32]) -> Result<Vec<u32>, AllocError>
    ensures { IfOk result (λ queues. AreOrdered hand.now queues.items) }
{
    let mut queues = Vec::new(alloc);
    queues.extend_from_slice(hand)?;
    queues.sort_unstable();
    Ok(queues)
}

/// The flows whose first requests these are, each with its hand.
///
/// # Errors
///
/// `AllocError` if memory was refused.
pub(crate) fn deal_all<'a>(
    alloc: Global,
    dealer: &Option<Dealer>,
    firsts: &'a [Arrival<TraceRequest>],
) -> Result<Vec<Dealt<'a>>, AllocError>
    ensures flows { IfOk result (λ all. flows_of all.items ≡ flows_in dealer.now firsts.now) }
    ensures each { IfOk result (λ all. All (IsDealt dealer.now) all.items) }
{
    let mut all = Vec::with_capacity(alloc, firsts.len())?;
    for first in firsts {
        let hand = hand_of(dealer, first.item.hash);
        let queues = in_order(alloc, hand.as_slice())?;
        all.push(Dealt {
            first: &first.item,
            hand,
            queues,
        })?;
    }
    Ok(all)
}
