//! Which requests wait, and which queue is the shortest.

ghost use Rattle.std.specs.Prelude.{◌≡◌, ◌<◌, [], length, IfOk, MatchOption};
ghost use Rattle.apf_history.specs.History.{entered, has_left, waiting, IsShortest};

use apf_model::Event;
use std::alloc::{AllocError, Global};

// The requests that entered the queue, in the order of entry.
fn entered(alloc: Global, history: &[Event], queue: u32) -> Result<Vec<u32>, AllocError>
    ensures { IfOk result (λ v. v.items ≡ entered history.now queue) }
{
    let Some((newest, before)) = history.split_first() else {
        return Ok(Vec::new(alloc));
    };
    let mut requests = entered(alloc, before, queue)?;
    if let Event::Enter(request, at) = *newest {
        if at == queue {
            requests.push(request)?;
        }
    }
    Ok(requests)
}

// Whether the request was dispatched or struck.
fn has_left(history: &[Event], request: u32) -> bool
    ensures { result ≡ has_left history.now request }
{
    let Some((newest, before)) = history.split_first() else {
        return false;
    };
    match *newest {
        Event::Dispatch(left, _) | Event::Strike(left, _) => {
            left == request || has_left(before, request)
        }
        Event::Enter(..) | Event::Full(..) => has_left(before, request),
    }
}

/// The requests that wait in the queue, in the order of entry.
pub fn waiting(alloc: Global, history: &[Event], queue: u32) -> Result<Vec<u32>, AllocError>
    ensures { IfOk result (λ v. v.items ≡ waiting history.now queue) }
{
    let all = entered(alloc, history, queue)?;
    let mut requests = Vec::new(alloc);
    for request in &all {
        if !has_left(history, *request) {
            requests.push(*request)?;
        }
    }
    Ok(requests)
}

/// The shortest queue of the hand: the one with the fewest waiting requests, and among equals the
/// one dealt first. `None` for an empty hand.
pub fn shortest(alloc: Global, history: &[Event], hand: &[u32]) -> Result<Option<u32>, AllocError>
    ensures { IfOk result (λ o. MatchOption o (length hand.now ≡ 0)
        (IsShortest (waiting history.now) hand.now)) }
{
    let Some(first) = hand.first() else {
        return Ok(None);
    };
    let mut place = 0;
    let mut fewest = waiting(alloc, history, *first)?.len();
    for (i, queue) in hand.iter().enumerate() {
        let requests = waiting(alloc, history, *queue)?.len();
        if requests < fewest {
            place = i;
            fewest = requests;
        }
    }
    Ok(Some(hand[place]))
}
