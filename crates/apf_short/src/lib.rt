//! An allocator for tests, which refuses one of its requests.
//!
//! A test makes a call once for each request of memory that the call makes, refuses that one, and
//! sees that the call answers that it is out of memory. Which request is refused stands in a `Cell`, of which
//! no contract can speak: what is proved is that each answer is a good allocator's answer, and the
//! tests show which request is refused.
#![tactic(auto)]

ghost use Rattle.std.specs.Prelude.{◌<◌};

use std::alloc::{AllocError, Allocator};
use std::cell::Cell;

/// An allocator that hands each request to an inner one, except for one request, which it refuses.
///
/// It holds a `Cell`, so it stays in one thread.
pub struct Refusing<B: Allocator> {
    inner: B,
    // How many requests come until the refused one has come, counted down and on below 0.
    left: Cell<u64>,
}

impl<B: Allocator> Refusing<B> {
    /// Refuses the request of this number, counted from 1.
    pub fn new(inner: B, refused: u32) -> Refusing<B>
        requires { 0 < refused }
    {
        Refusing {
            inner,
            left: Cell::new(u64::from(refused)),
        }
    }

    /// Whether the request that is refused has come.
    pub fn has_refused(&self) -> bool {
        let left = self.left.get();
        left == 0 || left > u64::from(u32::MAX)
    }
}

impl<B: Allocator> Drop for Refusing<B> {
    fn drop(self) {
        let Self { inner: _, left: _ } = self;
    }
}

// Counts one request, and says whether it is the one to refuse.
fn is_refused(left: &Cell<u64>) -> bool {
    let now = left.get().wrapping_sub(1);
    left.set(now);
    now == 0
}

unsafe impl<B: Allocator> Allocator for Refusing<B> {
    ghost dealloc_token = { λ heap ty ptr. B.dealloc_token heap.inner ty ptr };

    fn allocate(&self, size: usize, align: usize) -> Result<*mut u8, AllocError> {
        if is_refused(&self.left) {
            return Err(AllocError);
        }
        self.inner.allocate(size, align)
    }

    unsafe fn deallocate(&self, ptr: *mut u8, size: usize, align: usize) {
        self.inner.deallocate(ptr, size, align);
    }
}
