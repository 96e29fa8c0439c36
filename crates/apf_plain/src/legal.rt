//! Whether a history is legal.

ghost use Rattle.std.specs.Prelude.{◌≡◌, ◌↔◌, ◌*◌, ◌<◌, length, take, drop, IfOk, IsTrue};
ghost use Rattle.apf_history.specs.History.{has_arrived, waiting, NamesRequests, IsShortest, MayFollow, IsLegal};
ghost use Rattle.apf_plain.specs.Histories.{hand_in};

use crate::{shortest, waiting};
use apf_model::Event;
use std::alloc::{AllocError, Global};

/// Whether each event of the history names one of this many requests.
pub fn names_requests(requests: u32, history: &[Event]) -> bool
    ensures { IsTrue result ↔ NamesRequests requests history.now }
{
    let Some((newest, before)) = history.split_first() else {
        return true;
    };
    let (Event::Enter(request, _)
    | Event::Full(request, _)
    | Event::Dispatch(request, _)
    | Event::Strike(request, _)) = *newest;
    request < requests && names_requests(requests, before)
}

// Whether the request entered, or was refused as full.
fn has_arrived(history: &[Event], request: u32) -> bool
    ensures { result ≡ has_arrived history.now request }
{
    let Some((newest, before)) = history.split_first() else {
        return false;
    };
    match *newest {
        Event::Enter(arrived, _) | Event::Full(arrived, _) => {
            arrived == request || has_arrived(before, request)
        }
        Event::Dispatch(..) | Event::Strike(..) => has_arrived(before, request),
    }
}

// The hand of a request, where the hands stand one after another.
fn hand_of(hands: &[u32], hand_size: u32, request: u32) -> &[u32]
    ensures { result.now ≡ hand_in hands.now hand_size request }
{
    let start = (hand_size as usize * request as usize).min(hands.len());
    let rest = &hands[start..];
    &rest[..rest.len().min(hand_size as usize)]
}

// Whether the queue is the shortest of the hand.
fn is_shortest(
    alloc: Global,
    history: &[Event],
    hand: &[u32],
    queue: u32,
) -> Result<bool, AllocError>
    ensures { IfOk result (λ b. IsTrue b ↔ IsShortest (waiting history.now) hand.now queue) }
{
    let found = shortest(alloc, history, hand)?;
    Ok(found == Some(queue))
}

// Whether the event may follow the history.
fn may_follow(
    alloc: Global,
    hands: &[u32],
    hand_size: u32,
    length_limit: u32,
    history: &[Event],
    event: Event,
) -> Result<bool, AllocError>
    ensures { IfOk result (λ b. IsTrue b ↔ MayFollow (hand_in hands.now hand_size) length_limit history.now event) }
{
    match event {
        Event::Enter(request, queue) => {
            let is_short = is_shortest(alloc, history, hand_of(hands, hand_size, request), queue)?;
            let len = waiting(alloc, history, queue)?.len();
            Ok(!has_arrived(history, request) && is_short && len < length_limit as usize)
        }
        Event::Full(request, queue) => {
            let is_short = is_shortest(alloc, history, hand_of(hands, hand_size, request), queue)?;
            let len = waiting(alloc, history, queue)?.len();
            Ok(!has_arrived(history, request) && is_short && len == length_limit as usize)
        }
        Event::Dispatch(request, queue) => {
            Ok(waiting(alloc, history, queue)?.first().copied() == Some(request))
        }
        Event::Strike(request, queue) => Ok(waiting(alloc, history, queue)?.contains(&request)),
    }
}

/// Whether the history is legal. The hands of the requests, each of this size, stand one after
/// another in the order of the requests; a queue holds at most `length_limit` requests.
pub fn is_legal(
    alloc: Global,
    hands: &[u32],
    hand_size: u32,
    length_limit: u32,
    history: &[Event],
) -> Result<bool, AllocError>
    ensures { IfOk result (λ b. IsTrue b ↔ IsLegal (hand_in hands.now hand_size) length_limit history.now) }
{
    let Some((newest, before)) = history.split_first() else {
        return Ok(true);
    };
    let follows = may_follow(alloc, hands, hand_size, length_limit, before, *newest)?;
    Ok(follows && is_legal(alloc, hands, hand_size, length_limit, before)?)
}
