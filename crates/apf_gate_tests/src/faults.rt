//! Why a gate is not opened: each fault at its edge, and the first of several.

use crate::asserts::is;
use apf_gate::{Gate, GateFault};
use apf_model::Response;
use std::alloc::Global;
use std::process::Abort;

// The fault of a gate of this shape, if it has one.
fn fault_of(alloc: Global, limit: u32, widths: &[u32], stations: u32) -> Option<GateFault> {
    match Gate::open(alloc, limit, widths, stations, Response::Queue) {
        Ok(_) => None,
        Err(fault) => Some(fault),
    }
}

// Asserts that a gate of this shape has this fault, or none.
fn has_fault<R: Abort>(
    rt: &R,
    alloc: Global,
    limit: u32,
    widths: &[u32],
    stations: u32,
    fault: Option<GateFault>,
) {
    is(rt, fault_of(alloc, limit, widths, stations), fault);
}

// Asserts that a gate of 10,001 requests, all but the last of one seat, has this fault.
fn has_fault_of_many<R: Abort>(rt: &R, alloc: Global, last: u32, fault: GateFault) {
    let Ok(mut widths) = vec![in alloc; 1u32; 10_000] else {
        panic!(rt; "memory")
    };
    let Ok(()) = widths.push(last) else {
        panic!(rt; "memory")
    };
    has_fault(rt, alloc, 1, widths.as_slice(), 0, Some(fault));
}

#[test]
fn faults(rt: HostRuntime) {
    let heap = rt.alloc();
    has_fault(&rt, heap, 0, &[1], 0, Some(GateFault::BadLimit));
    has_fault(&rt, heap, 10_001, &[1], 0, Some(GateFault::BadLimit));
    has_fault(&rt, heap, 10_000, &[1], 0, None);
    has_fault(&rt, heap, 1, &[1, 0], 0, Some(GateFault::BadWidth(1)));
    has_fault(&rt, heap, 1, &[20_001], 0, Some(GateFault::BadWidth(0)));
    has_fault(&rt, heap, 1, &[20_000], 0, None);
    has_fault(&rt, heap, 1, &[1], 65, Some(GateFault::TooMany));
    has_fault(&rt, heap, 1, &[1], 64, None);
    has_fault(&rt, heap, 1, &[], 0, None);
}

#[test]
fn the_first_fault_is_told(rt: HostRuntime) {
    let heap = rt.alloc();
    has_fault(&rt, heap, 0, &[0], 65, Some(GateFault::BadLimit));
    has_fault(&rt, heap, 1, &[0, 0], 65, Some(GateFault::BadWidth(0)));
    has_fault_of_many(&rt, heap, 1, GateFault::TooMany);
    has_fault_of_many(&rt, heap, 0, GateFault::BadWidth(10_000));
}
