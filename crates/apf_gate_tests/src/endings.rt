//! What the words of a gate said when it ended.

ghost use Rattle.std.specs.Prelude.{◌≤◌, length};

use crate::asserts::is;
use apf_gate::Words;
use apf_words::{Decision, LevelWord};
use std::alloc::Global;
use std::process::Abort;

/// The words of a gate that ended, which had this many requests.
#[derive(Drop)]
pub struct Ended {
    words: Words<Global>,
    count: u32,
    ghost inside: { count ≤ length words.decisions },
}

impl Ended {
    /// These words.
    pub fn new(words: Words<Global>, count: u32) -> Ended
        requires { count ≤ length words.decisions }
    {
        Ended { words, count }
    }

    /// The level word.
    pub fn level(&self) -> LevelWord {
        self.words.level()
    }

    /// Asserts that this is the request's decision.
    pub fn decision<R: Abort>(&self, rt: &R, request: u32, decision: Option<Decision>) {
        assert!(rt; request < self.count);
        is(rt, self.words.decision(request), decision);
    }

    /// Asserts that this is the limit.
    pub fn limit<R: Abort>(&self, rt: &R, limit: u32) {
        is(rt, self.words.level().limit(), limit);
    }

    /// Asserts that the level is closed, or that it is not.
    pub fn closed<R: Abort>(&self, rt: &R, closed: bool) {
        is(rt, self.words.level().closed(), closed);
    }

    /// Asserts that this many seats are taken.
    pub fn seats<R: Abort>(&self, rt: &R, seats: u32) {
        is(rt, self.words.level().seats(), seats);
    }

    /// Asserts that this many seats are taken, and that this many requests wait.
    pub fn has<R: Abort>(&self, rt: &R, seats: u32, waiters: u32) {
        self.seats(rt, seats);
        is(rt, self.words.level().waiters(), waiters);
    }

    /// How many requests were executed.
    pub fn executed(&self) -> u32 {
        let mut executed = 0u32;
        for request in 0..self.count {
            if self.words.decision(request) == Some(Decision::Execute) {
                executed = executed.saturating_add(1);
            }
        }
        executed
    }
}
