//! Over-wide requests, levels without queues, and limits.

use crate::stand::Stand;
use apf_gate::{TryEnter, TrySetLimit, TryTake};
use apf_model::Response;
use apf_words::Decision;

#[test]
fn over_wide(rt: HostRuntime) {
    let mut stand = Stand::open(&rt, rt.alloc(), 2, &[5, 1], 0, Response::Queue);
    stand.take(&rt, 0, TryTake::Taken);
    stand.take(&rt, 1, TryTake::NoRoom);
    let words = stand.end(&rt, rt.alloc());
    words.has(&rt, 5, 0);
    words.decision(&rt, 0, None);
    words.decision(&rt, 1, None);
}

#[test]
fn over_wide_beside_another(rt: HostRuntime) {
    let mut stand = Stand::open(&rt, rt.alloc(), 2, &[1, 5], 0, Response::Queue);
    stand.take(&rt, 0, TryTake::Taken);
    stand.take(&rt, 1, TryTake::NoRoom);
    let words = stand.end(&rt, rt.alloc());
    words.has(&rt, 1, 0);
    words.decision(&rt, 0, None);
    words.decision(&rt, 1, None);
}

#[test]
fn reject(rt: HostRuntime) {
    let mut stand = Stand::open(&rt, rt.alloc(), 1, &[1, 1], 0, Response::Reject);
    stand.take(&rt, 0, TryTake::Taken);
    stand.take(&rt, 1, TryTake::NoRoom);
    stand.decide(
        &rt,
        1,
        Decision::ConcurrencyLimit,
        Decision::ConcurrencyLimit,
    );
    stand.told(&rt, 1, Some(Decision::ConcurrencyLimit));
    let words = stand.end(&rt, rt.alloc());
    words.has(&rt, 1, 0);
    words.decision(&rt, 0, None);
    words.decision(&rt, 1, Some(Decision::ConcurrencyLimit));
}

#[test]
fn limits(rt: HostRuntime) {
    let mut stand = Stand::open(&rt, rt.alloc(), 1, &[1, 1], 1, Response::Queue);
    stand.set_limit(&rt, 0, 4, TrySetLimit::Set(1, false));
    stand.looks(&rt, 0, 4);
    stand.ask(&rt, 1, None);
    stand.enter(&rt, 1, TryEnter::Entered);
    stand.set_limit(&rt, 0, 2, TrySetLimit::Set(4, true));
    let words = stand.end(&rt, rt.alloc());
    words.has(&rt, 0, 1);
    words.decision(&rt, 0, None);
    words.decision(&rt, 1, None);
    words.limit(&rt, 2);
}
