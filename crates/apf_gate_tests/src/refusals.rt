//! Closing a level, and refusing requests as closed or as their queue is full.

use crate::stand::Stand;
use apf_gate::{Close, TryTake};
use apf_model::Response;
use apf_words::Decision;

#[test]
fn closing(rt: HostRuntime) {
    let mut stand = Stand::open(&rt, rt.alloc(), 1, &[1, 1], 2, Response::Queue);
    stand.close(&rt, 0, Close::First);
    stand.close(&rt, 1, Close::Already);
    stand.take(&rt, 0, TryTake::Closed);
    stand.decide(&rt, 0, Decision::Closed, Decision::Closed);
    stand.looks_closed(&rt, 1);
    let words = stand.end(&rt, rt.alloc());
    words.has(&rt, 0, 0);
    words.decision(&rt, 0, Some(Decision::Closed));
    words.decision(&rt, 1, None);
    words.closed(&rt, true);
}

#[test]
fn refusals_and_hearing(rt: HostRuntime) {
    let mut stand = Stand::open(&rt, rt.alloc(), 1, &[1], 0, Response::Queue);
    stand.ask(&rt, 0, None);
    stand.refuse(&rt, 0, Decision::QueueFull, Decision::QueueFull);
    stand.told(&rt, 0, Some(Decision::QueueFull));
    stand.hear(&rt, 0, Some(Decision::QueueFull));
    stand.seen(&rt, 0, Some(Decision::QueueFull));
    let words = stand.end(&rt, rt.alloc());
    words.has(&rt, 0, 0);
    words.decision(&rt, 0, Some(Decision::QueueFull));
}

#[test]
fn refusals_of_a_closed_level(rt: HostRuntime) {
    let mut stand = Stand::open(&rt, rt.alloc(), 1, &[1], 1, Response::Queue);
    stand.close(&rt, 0, Close::First);
    stand.views_closed(&rt);
    stand.ask(&rt, 0, None);
    stand.refuse(&rt, 0, Decision::Closed, Decision::Closed);
    stand.told(&rt, 0, Some(Decision::Closed));
    let words = stand.end(&rt, rt.alloc());
    words.has(&rt, 0, 0);
    words.decision(&rt, 0, Some(Decision::Closed));
    words.closed(&rt, true);
}
