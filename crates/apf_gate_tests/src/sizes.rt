//! The smallest gate and the largest.

use crate::asserts::is;
use crate::crews::RequestWork;
use crate::serving::Counts;
use crate::stand::Stand;
use apf_gate::TrySetLimit;
use apf_model::Response;

#[test]
fn no_requests(rt: HostRuntime) {
    let mut stand = Stand::open(&rt, rt.alloc(), 1, &[], 1, Response::Queue);
    is(&rt, stand.requests.len(), 0);
    stand.set_limit(&rt, 0, 3, TrySetLimit::Set(1, false));
    let words = stand.end(&rt, rt.alloc());
    words.has(&rt, 0, 0);
    words.limit(&rt, 3);
    words.closed(&rt, false);
}

#[test]
fn ten_thousand_requests(rt: HostRuntime) {
    let Ok(widths) = vec![in rt.alloc(); 1u32; 10_000] else {
        panic!(rt; "memory")
    };
    let mut stand = Stand::open(
        &rt,
        rt.alloc(),
        10_000,
        widths.as_slice(),
        64,
        Response::Queue,
    );
    is(&rt, stand.requests.len(), 10_000);
    is(&rt, stand.number(9_999), Some(9_999));
    is(&rt, stand.stations.len(), 64);
    stand.requests_work(&rt, RequestWork::Serve(&Counts::new()));
    let words = stand.end(&rt, rt.alloc());
    words.has(&rt, 0, 0);
    words.limit(&rt, 10_000);
    is(&rt, words.executed(), 10_000);
}
