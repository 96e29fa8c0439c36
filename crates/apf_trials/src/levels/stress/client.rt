//! A request with what its caller was told.

ghost use Rattle.std.specs.Prelude.{◌≡◌, ◌<◌, ◌≤◌, length};
ghost use Rattle.apf_words.specs.Limits.{max_requests};
ghost use Rattle.apf_gate.specs.declared.record.State.TheVariants.{Fresh};
ghost use Rattle.apf_gate.specs.Tokens.{pass_gate};

use crate::levels::stress::note::Note;
use apf_gate::Pass;
use apf_level::{Done, Level, Naming};
use apf_session::{Answer, Place, Request};
use apf_words::Decision;
use std::sync::Wait;

/// A request of the level that K names, with what its caller was told. It must be spent.
pub struct Client<K: Naming> {
    request: Request<K>,
    note: Note,
}

impl<K: Naming> Client<K> {
    /// A request that did not arrive yet.
    pub fn new(pass: Pass) -> Client<K>
        requires own { pass_gate pass ≡ K.level.gate }
        requires fresh { pass.pass.state ≡ Fresh }
        requires few { length K.level.gate.shape.widths ≤ max_requests }
    {
        Client {
            request: Request::new(pass),
            note: Note::default(),
        }
    }

    /// Its number, which is that of a width of the gate.
    pub fn number(&self) -> u32
        ensures { result < length K.level.gate.shape.widths }
    {
        self.request.number()
    }

    /// What its caller was told.
    pub fn note(&self) -> Note {
        self.note
    }

    /// Where it is.
    pub fn place(&self) -> Place {
        self.request.place()
    }

    /// It arrives after a close of the level.
    pub fn be_late(&mut self) {
        self.note.late = true;
    }

    // It is told this.
    fn hear(&mut self, answer: Answer) {
        match answer {
            Answer::Run => self.note.told = Some(Decision::Execute),
            Answer::Over(decision) | Answer::Tried(decision, _) => self.note.told = Some(decision),
            Answer::Waits => self.note.waited = true,
            _ => {}
        }
    }

    /// Tries to be admitted, and dispatches where it owes it.
    pub fn try_admit<R: Wait>(&mut self, rt: &R, level: &Level<K>) {
        let (answer, owes) = self.request.try_admit(level);
        let takes = matches!(answer, Answer::Run);
        self.hear(answer);
        if takes {
            self.note.tried = true;
        }
        level.dispatch_if_owed(rt, owes);
    }

    /// Arrives.
    pub fn begin<R: Wait>(&mut self, rt: &R, level: &Level<K>) {
        let answer = self.request.begin(rt, level);
        self.hear(answer);
    }

    /// Reads its decision, if it waits.
    pub fn poll<R: Wait>(&mut self, rt: &R, level: &Level<K>) {
        let answer = self.request.poll(rt, level);
        self.hear(answer);
    }

    /// Arrives, and waits until it is decided.
    pub fn admit<R: Wait>(&mut self, rt: &R, level: &Level<K>) {
        let answer = self.request.admit(rt, level);
        self.hear(answer);
    }

    /// Gives its seats back, if it executes, and dispatches where requests wait.
    pub fn release<R: Wait>(&mut self, rt: &R, level: &Level<K>) {
        // of one that does not execute it answers Wrong
        let _ = self.request.finish(rt, level);
    }

    /// Brings it to its end: arrives if it did not, waits until it is decided, and gives its seats back.
    pub fn end<R: Wait>(self, rt: &R, level: &Level<K>) -> Done
        ensures { pass_gate result ≡ K.level.gate }
    {
        let Client { request, note: _ } = self;
        request.end(rt, level)
    }
}
