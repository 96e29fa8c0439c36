//! Want of memory.

ghost use Rattle.std.specs.Prelude.{◌<◌};

use crate::asserts::{is, is_at};
use apf_queue::{QueueFault, Queues};
use apf_short::Refusing;
use std::alloc::Global;

// The fault of queues that are made while this request of memory is refused, if they are not made, and whether it
// was refused.
fn made(alloc: Global, refused: u32) -> (Option<QueueFault>, bool)
    requires { 0 < refused }
{
    let alloc = Refusing::new(alloc, refused);
    let fault = match Queues::new(&alloc, 3, 10, 10) {
        Ok(_) => None,
        Err(fault) => Some(fault),
    };
    (fault, alloc.has_refused())
}

#[test]
fn each_refusal_of_memory_is_told(rt: HostRuntime) {
    for refused in 1..5 {
        let found = made(rt.alloc(), refused);
        is_at(&rt, found, (Some(QueueFault::NoMemory), true), refused);
    }
    is(&rt, made(rt.alloc(), 5), (None, false));
}
