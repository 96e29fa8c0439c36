//! Each allocation refused in turn.

ghost use Rattle.std.specs.Prelude.{◌<◌};

use crate::asserts::is;
use apf_gate::{Gate, GateFault};
use apf_model::Response;
use apf_short::Refusing;
use std::alloc::Global;
use std::process::Abort;

// Opens a gate while this allocation is refused, and asserts that it is opened if none was. Says whether it is.
fn opens<R: Abort>(rt: &R, alloc: Global, refused: u32) -> bool
    requires { 0 < refused }
{
    let alloc = Refusing::new(alloc, refused);
    let fault = match Gate::open(&alloc, 1, &[1, 2, 3], 2, Response::Queue) {
        Ok(_) => None,
        Err(fault) => Some(fault),
    };
    match fault {
        Some(fault) => is(rt, fault, GateFault::NoMemory),
        None => assert!(rt; 1 < refused),
    }
    is(rt, alloc.has_refused(), fault.is_some());
    fault.is_none()
}

#[test]
fn each_refusal_of_memory_is_told_by_open(rt: HostRuntime) {
    let mut opened = false;
    for refused in 1..20 {
        let opens = opens(&rt, rt.alloc(), refused);
        assert!(rt; opens || !opened);
        opened = opens;
    }
    assert!(rt; opened);
}

// Opens a gate, and ends it while this allocation is refused. Says whether one was, and whether that was told.
fn refuses<R: Abort>(rt: &R, alloc: Global, refused: u32) -> [bool; 2]
    requires { 0 < refused }
{
    let opened = Gate::open(alloc, 1, &[1, 2, 3], 2, Response::Queue);
    let Ok((gate, desk, passes, stations)) = opened else {
        panic!(rt; "opens")
    };
    let alloc = Refusing::new(alloc, refused);
    let told = gate.end(&alloc, desk, passes, stations).is_err();
    [alloc.has_refused(), told]
}

#[test]
fn each_refusal_of_memory_is_told_by_end(rt: HostRuntime) {
    is(&rt, refuses(&rt, rt.alloc(), 1), [true, true]);
    is(&rt, refuses(&rt, rt.alloc(), 2), [false, false]);
}
