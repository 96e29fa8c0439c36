//! Nobody sleeps on a request that is decided. No other thread is there that would wake a sleeper, so a call
//! that slept would not return.

use crate::stand::Stand;
use apf_gate::{Close, TryGrant, TryTake};
use apf_model::Response;
use apf_words::Decision;

#[test]
fn no_one_sleeps_once_a_request_is_executed(rt: HostRuntime) {
    let mut stand = Stand::open(&rt, rt.alloc(), 1, &[1], 0, Response::Queue);
    stand.take(&rt, 0, TryTake::Taken);
    stand.decide(&rt, 0, Decision::Execute, Decision::Execute);
    stand.park(&rt, 0);
    stand.release(&rt, 0, false);
    stand.park(&rt, 0);
    let words = stand.end(&rt, rt.alloc());
    words.decision(&rt, 0, Some(Decision::Execute));
}

#[test]
fn no_one_sleeps_once_a_request_is_settled(rt: HostRuntime) {
    let mut stand = Stand::waiting(&rt, rt.alloc(), 0);
    stand.grant(&rt, 0, TryGrant::Granted);
    stand.settle(&rt, Decision::Execute);
    stand.park(&rt, 0);
    stand.told(&rt, 0, Some(Decision::Execute));
    let words = stand.end(&rt, rt.alloc());
    words.decision(&rt, 0, Some(Decision::Execute));
}

#[test]
fn no_one_sleeps_once_a_request_is_refused(rt: HostRuntime) {
    let mut stand = Stand::open(&rt, rt.alloc(), 1, &[1, 1, 1], 1, Response::Queue);
    stand.ask(&rt, 0, None);
    stand.refuse(&rt, 0, Decision::QueueFull, Decision::QueueFull);
    stand.park(&rt, 0);
    stand.cancel(&rt, 0, 1, Decision::Cancelled);
    stand.park(&rt, 1);
    stand.close(&rt, 0, Close::First);
    stand.take(&rt, 2, TryTake::Closed);
    stand.decide(&rt, 2, Decision::Closed, Decision::Closed);
    stand.park(&rt, 2);
    let words = stand.end(&rt, rt.alloc());
    words.decision(&rt, 0, Some(Decision::QueueFull));
    words.decision(&rt, 1, Some(Decision::Cancelled));
    words.decision(&rt, 2, Some(Decision::Closed));
}

#[test]
fn no_one_sleeps_once_a_limit_refused(rt: HostRuntime) {
    let mut stand = Stand::open(&rt, rt.alloc(), 1, &[1, 1], 0, Response::Reject);
    stand.take(&rt, 0, TryTake::Taken);
    stand.take(&rt, 1, TryTake::NoRoom);
    stand.decide(
        &rt,
        1,
        Decision::ConcurrencyLimit,
        Decision::ConcurrencyLimit,
    );
    stand.park(&rt, 1);
    let words = stand.end(&rt, rt.alloc());
    words.decision(&rt, 1, Some(Decision::ConcurrencyLimit));
}
