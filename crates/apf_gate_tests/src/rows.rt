//! Worked examples of a gate, from its opening to its end.

use crate::stand::Stand;
use apf_gate::{TryEnter, TryGrant, TryTake};
use apf_model::Response;
use apf_words::Decision;

#[test]
fn plain(rt: HostRuntime) {
    let mut stand = Stand::open(&rt, rt.alloc(), 1, &[1, 1], 0, Response::Queue);
    stand.take(&rt, 0, TryTake::Taken);
    stand.take(&rt, 1, TryTake::NoRoom);
    stand.decide(&rt, 0, Decision::Execute, Decision::Execute);
    stand.told(&rt, 0, Some(Decision::Execute));
    stand.release(&rt, 0, false);
    stand.take(&rt, 1, TryTake::Taken);
    let words = stand.end(&rt, rt.alloc());
    words.seats(&rt, 1);
    words.decision(&rt, 0, Some(Decision::Execute));
    words.decision(&rt, 1, None);
}

#[test]
fn a_lost_decision(rt: HostRuntime) {
    let mut stand = Stand::open(&rt, rt.alloc(), 1, &[1, 1], 1, Response::Queue);
    stand.take(&rt, 0, TryTake::Taken);
    stand.cancel(&rt, 0, 0, Decision::Cancelled);
    stand.decide(&rt, 0, Decision::Execute, Decision::Cancelled);
    stand.take(&rt, 1, TryTake::NoRoom);
    stand.release(&rt, 0, false);
    stand.take(&rt, 1, TryTake::Taken);
    let words = stand.end(&rt, rt.alloc());
    words.has(&rt, 1, 0);
    words.decision(&rt, 0, Some(Decision::Cancelled));
    words.decision(&rt, 1, None);
}

#[test]
fn a_lost_grant(rt: HostRuntime) {
    let mut stand = Stand::open(&rt, rt.alloc(), 1, &[1, 1], 1, Response::Queue);
    stand.take(&rt, 0, TryTake::Taken);
    stand.decide(&rt, 0, Decision::Execute, Decision::Execute);
    stand.ask(&rt, 1, None);
    stand.enter(&rt, 1, TryEnter::Entered);
    stand.grant(&rt, 1, TryGrant::NoRoom);
    stand.release(&rt, 0, true);
    stand.grant(&rt, 1, TryGrant::Granted);
    stand.cancel(&rt, 0, 1, Decision::Cancelled);
    stand.settle(&rt, Decision::Cancelled);
    stand.give_back(&rt);
    stand.is_idle(&rt, 0);
    let words = stand.end(&rt, rt.alloc());
    words.has(&rt, 0, 0);
    words.decision(&rt, 0, Some(Decision::Execute));
    words.decision(&rt, 1, Some(Decision::Cancelled));
}
