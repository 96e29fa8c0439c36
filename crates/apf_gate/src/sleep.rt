//! Sleeping until a request is decided.

ghost use Rattle.apf_gate.specs.Slots.{IsTicket};

use crate::gate::{Gate, mark, word_of};
use apf_words::undecided;
use std::alloc::Allocator;
use std::sync::Wait;
use std::sync::atomic::Ordering;

impl<A: Allocator> Gate<A> {
    /// Sleeps while the request is undecided. It is for a request that waits, or whose seats the Desk holds:
    /// `settle` and a cancel alone decide such a one. `cancel` wakes those who sleep once it wrote, and after
    /// `settle` and `cancel_without_wake` their caller does so by `wake`. Who is decided by its own Pass or refused
    /// is woken by nobody. It may also return for no reason, so read the decision again.
    ///
    /// It is no step: the kernel compares the decision word and sleeps in one.
    pub fn park<R: Wait>(&self, rt: &R, request: u128)
        requires is_request { IsTicket self.now.shape request }
    {
        let low = undecided(mark(request)) % 4_294_967_296;
        self.sleepers.fetch_add(1, Ordering::SeqCst);
        self.board.shared.park(rt, word_of(request), low as u32);
        self.sleepers.fetch_sub(1, Ordering::SeqCst);
    }

    /// Wakes all who sleep until the request is decided: after a `settle` or a `cancel_without_wake` wrote it. It is no
    /// step. Where anybody sleeps, it is a call of the kernel, which whoever knows that nobody sleeps until this request
    /// is decided spares.
    pub fn wake(&self, request: u128)
        requires is_request { IsTicket self.now.shape request }
    {
        // who is counted later finds the word changed, and does not sleep
        if self.sleepers.load(Ordering::SeqCst) != 0 {
            self.board.shared.wake_all(word_of(request));
        }
    }
}
