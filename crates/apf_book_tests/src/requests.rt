//! A request with its Pass, and how far it is.

ghost use Rattle.std.specs.Prelude.{◌≡◌, ◌≢◌, ◌<◌, ◌≤◌, length, Some, None};
ghost use Rattle.apf_words.specs.Limits.{max_requests};
ghost use Rattle.apf_words.specs.declared.decision.Decision.TheVariants.{Execute};
ghost use Rattle.apf_gate.specs.declared.record.State.TheVariants as states;
ghost use Rattle.apf_book_tests.specs.declared.requests.Stage.TheVariants as stages;
ghost use Rattle.apf_gate.specs.Records.{told_own};
ghost use Rattle.apf_gate.specs.Tokens.{pass_gate, desk_gate};

use crate::marks::Mark;
use apf_book::{Arrived, Book};
use apf_gate::{Gate, Pass, TryTake};
use apf_words::Decision;
use std::alloc::Allocator;
use std::marker::PhantomData;
use std::sync::Wait;

/// How far a request is.
#[derive(Clone, Copy, Debug, PartialEq, Eq)]
pub enum Stage {
    /// It did not arrive.
    Fresh,
    /// It is in line.
    InLine,
    /// It executes with the seats that it took.
    Took,
    /// It executes with the seats that were granted to it.
    Dispatched,
    /// It is over.
    Over,
}

/// What became of an attempt to take seats on arrival.
#[derive(Clone, Copy, Debug, PartialEq, Eq)]
pub enum Tried {
    /// It executes.
    Running,
    /// It is decided otherwise. Its seats were given back, if it took some, and waiters were told or not.
    Over(Decision, bool),
    /// Others wait, or it does not fit.
    NoSeats,
    /// The level word changed before the exchange.
    Raced,
    /// It arrived before.
    Again,
}

/// A request of the gate that the marker names.
#[derive(Drop)]
pub struct Request<K: Mark> {
    pass: Pass,
    stage: Stage,
    // Whether it executed with the seats that it took on arrival.
    took: bool,
    of: PhantomData<K>,
    ghost own: { pass_gate pass ≡ K.gate },
    ghost few: { length K.gate.shape.widths ≤ max_requests },
    ghost fresh: { stage ≡ stages.Fresh → pass.pass.state ≡ states.Fresh },
    ghost in_line: { stage ≡ stages.InLine → pass.pass.state ≡ states.InLine },
    ghost took_is: { stage ≡ stages.Took → (pass.pass.state ≡ states.Took) × (told_own pass.pass ≢ None) },
    ghost dispatched_is: { stage ≡ stages.Dispatched → (pass.pass.state ≡ states.InLine) × (told_own pass.pass ≡ Some Execute) },
}

impl<K: Mark> Request<K> {
    /// A request that did not arrive yet.
    pub fn new(pass: Pass) -> Request<K>
        requires own { pass_gate pass ≡ K.gate }
        requires fresh { pass.pass.state ≡ states.Fresh }
        requires few { length K.gate.shape.widths ≤ max_requests }
    {
        Request {
            pass,
            stage: Stage::Fresh,
            took: false,
            of: PhantomData,
        }
    }

    /// Its number, which is that of a width of the gate.
    pub fn number(&self) -> u32
        ensures { result < length K.gate.shape.widths }
    {
        self.pass.number() as u32
    }

    /// Whether it executed with the seats that it took on arrival.
    pub fn took(&self) -> bool {
        self.took
    }

    /// Reads its decision, and tries once to take its seats where it has none.
    pub fn try_take<A: Allocator>(&mut self, gate: &Gate<A>) -> Tried
        requires { gate.now ≡ K.gate }
    {
        if self.stage != Stage::Fresh {
            return Tried::Again;
        }
        if let Some(decision) = gate.told(&mut self.pass) {
            self.stage = Stage::Over;
            return Tried::Over(decision, false);
        }
        match gate.try_take(&mut self.pass) {
            TryTake::Taken => {
                let decision = gate.decide(&mut self.pass, Decision::Execute);
                if decision == Decision::Execute {
                    self.stage = Stage::Took;
                    self.took = true;
                    return Tried::Running;
                }
                self.stage = Stage::Over;
                Tried::Over(decision, gate.release(&mut self.pass))
            }
            TryTake::Closed => {
                self.stage = Stage::Over;
                Tried::Over(gate.decide(&mut self.pass, Decision::Closed), false)
            }
            TryTake::NoRoom | TryTake::Waiters => Tried::NoSeats,
            TryTake::Raced => Tried::Raced,
        }
    }

    /// Gets in line, if it did not arrive yet.
    pub fn ask<A: Allocator>(&mut self, gate: &Gate<A>) -> bool
        requires { gate.now ≡ K.gate }
    {
        if self.stage != Stage::Fresh {
            return false;
        }
        gate.ask(&mut self.pass);
        self.stage = Stage::InLine;
        true
    }

    /// Comes to the book, if it is in line.
    pub fn hand<R: Wait, A: Allocator>(
        &mut self,
        rt: &R,
        gate: &Gate<A>,
        book: &mut Book<A>,
    ) -> Option<Arrived>
        requires gate { gate.now ≡ K.gate }
        requires book { desk_gate book.old.desk ≡ K.gate }
        ensures { desk_gate book.new.desk ≡ K.gate }
    {
        if self.stage != Stage::InLine {
            return None;
        }
        Some(book.arrive(rt, gate, &mut self.pass))
    }

    /// Reads its decision, if it is in line.
    pub fn poll<A: Allocator>(&mut self, gate: &Gate<A>) -> Option<Decision>
        requires { gate.now ≡ K.gate }
    {
        if self.stage != Stage::InLine {
            return None;
        }
        let told = gate.told(&mut self.pass);
        if told == Some(Decision::Execute) {
            self.stage = Stage::Dispatched;
        }
        told
    }

    /// Gives its seats back, if it executes. Tells whether others wait.
    pub fn finish<A: Allocator>(&mut self, gate: &Gate<A>) -> Option<bool>
        requires { gate.now ≡ K.gate }
    {
        if self.stage != Stage::Took && self.stage != Stage::Dispatched {
            return None;
        }
        let waiters_told = gate.release(&mut self.pass);
        self.stage = Stage::Over;
        Some(waiters_told)
    }

    /// Its Pass.
    pub fn into_pass(self) -> Pass
        ensures { pass_gate result ≡ K.gate }
    {
        let Request {
            pass,
            stage: _,
            took: _,
            of: _,
        } = self;
        pass
    }
}
