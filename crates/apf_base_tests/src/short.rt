//! Which request of memory is refused.

use crate::asserts::is_at;
use apf_short::Refusing;
use std::alloc::{AllocError, Allocator};

// The first numbers in a list, over any allocator.
fn first_numbers<A: Allocator>(alloc: A, count: u32) -> Result<Vec<u32, A>, AllocError> {
    let mut numbers = Vec::new(alloc);
    for number in 0..count {
        numbers.push(number)?;
    }
    Ok(numbers)
}

#[test]
fn each_request_is_refused_in_turn(rt: HostRuntime) {
    let mut refusals = 0u32;
    for refused in 1..1_000 {
        let alloc = Refusing::new(rt.alloc(), refused);
        let is_made = first_numbers(&alloc, 100).is_ok();
        is_at(&rt, is_made, !alloc.has_refused(), refused);
        if is_made {
            break;
        }
        refusals = refusals.saturating_add(1);
    }
    assert!(rt; refusals > 3 && refusals < 999);
}

#[test]
fn only_one_request_is_refused(rt: HostRuntime) {
    let alloc = Refusing::new(rt.alloc(), 2);
    assert!(rt; first_numbers(&alloc, 1).is_ok());
    assert!(rt; !alloc.has_refused());
    assert!(rt; first_numbers(&alloc, 1).is_err());
    assert!(rt; alloc.has_refused());
    assert!(rt; first_numbers(&alloc, 1).is_ok());
    assert!(rt; alloc.has_refused());
}
