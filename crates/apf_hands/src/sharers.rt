//! The places of the flows that share a queue with one flow, in order.

ghost use Rattle.std.specs.Prelude.{◌≡◌, ◌≤◌, length, map, min, slice_get};
ghost use Rattle.std.specs.List.{reduce};
ghost use Rattle.apf_hands.specs.Holders.{behind, first_places, lists_of, places_at};

use crate::holders::{Holders, holding};
use arrayvec::ArrayVec;

/// For each queue of a hand, the places of the flows that hold it, of which the first may have been passed.
pub(crate) type Rests<'h> = ArrayVec<&'h [usize], 15>;

/// The places of all flows that hold the queues of a hand.
pub(crate) fn rests_of<'h>(holders: &'h Holders, hand: &[u32]) -> Rests<'h>
    requires { length hand.now ≤ 15 }
    ensures { lists_of result.items ≡ map (places_at holders.now) hand.now }
{
    let mut rests = ArrayVec::new();
    for queue in hand {
        rests.push(holding(holders, *queue));
    }
    rests
}

// The first place of a queue.
fn first_at(rest: &[usize]) -> Option<usize>
    ensures { result ≡ slice_get rest.now 0 }
{
    rest.first().copied()
}

/// The first place of all that were not passed.
pub(crate) fn first_of(rests: &[&[usize]]) -> Option<usize>
    ensures { result ≡ reduce min (first_places (lists_of rests.now)) }
{
    rests.iter().filter_map(|rest| first_at(rest)).min()
}

// The places behind this one, where they begin with it, and all of them where they do not.
fn rest_behind<'h>(rest: &'h [usize], place: usize) -> &'h [usize]
    ensures { result.now ≡ behind place rest.now }
{
    match rest.split_first() {
        Some((first, later)) if *first == place => later,
        _ => rest,
    }
}

/// Passes the place where it is the first of its queue.
pub(crate) fn pass(rests: &mut [&[usize]], place: usize)
    ensures { lists_of rests.new ≡ map (behind place) (lists_of rests.old) }
{
    for rest in rests.iter_mut() {
        *rest = rest_behind(rest, place);
    }
}
