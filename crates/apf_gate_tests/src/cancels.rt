//! A request that is cancelled in line, before its grant and after it.

use crate::stand::Stand;
use apf_gate::{TryEnter, TryGrant};
use apf_model::Response;
use apf_words::Decision;

#[test]
fn cancels_in_line(rt: HostRuntime) {
    let mut stand = Stand::open(&rt, rt.alloc(), 1, &[1], 1, Response::Queue);
    stand.ask(&rt, 0, None);
    stand.enter(&rt, 0, TryEnter::Entered);
    stand.cancel(&rt, 0, 0, Decision::Cancelled);
    stand.seen(&rt, 0, Some(Decision::Cancelled));
    stand.leave(&rt, 0);
    stand.is_idle(&rt, 0);
    let words = stand.end(&rt, rt.alloc());
    words.has(&rt, 0, 0);
    words.decision(&rt, 0, Some(Decision::Cancelled));
}

#[test]
fn cancels_before_the_grant(rt: HostRuntime) {
    let mut stand = Stand::open(&rt, rt.alloc(), 1, &[1], 1, Response::Queue);
    stand.ask(&rt, 0, None);
    stand.enter(&rt, 0, TryEnter::Entered);
    stand.cancel(&rt, 0, 0, Decision::Cancelled);
    stand.grant(&rt, 0, TryGrant::Granted);
    stand.settle(&rt, Decision::Cancelled);
    stand.give_back(&rt);
    stand.is_idle(&rt, 0);
    let words = stand.end(&rt, rt.alloc());
    words.has(&rt, 0, 0);
    words.decision(&rt, 0, Some(Decision::Cancelled));
}

#[test]
fn cancels_after_the_grant(rt: HostRuntime) {
    let mut stand = Stand::open(&rt, rt.alloc(), 1, &[1], 1, Response::Queue);
    stand.ask(&rt, 0, None);
    stand.enter(&rt, 0, TryEnter::Entered);
    stand.grant(&rt, 0, TryGrant::Granted);
    stand.settle(&rt, Decision::Execute);
    stand.cancel(&rt, 0, 0, Decision::Execute);
    stand.told(&rt, 0, Some(Decision::Execute));
    stand.release(&rt, 0, false);
    stand.is_idle(&rt, 0);
    let words = stand.end(&rt, rt.alloc());
    words.has(&rt, 0, 0);
    words.decision(&rt, 0, Some(Decision::Execute));
}
