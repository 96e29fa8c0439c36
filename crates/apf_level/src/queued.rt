//! What stands under the lock of a level with queues.

ghost use Rattle.std.specs.Prelude.{◌≡◌, ◌≢◌, ◌<◌, ◌≤◌, length, reverse, false, true, Some, None};
ghost use Rattle.apf_words.specs.declared.decision.Decision.TheVariants as decisions;
ghost use Rattle.apf_model.specs.declared.response.Response.TheVariants.{Queue};
ghost use Rattle.apf_gate.specs.declared.record.State.TheVariants.{InLine};
ghost use Rattle.apf_gate.specs.Records.{told_own};
ghost use Rattle.apf_gate.specs.Tokens.{pass_gate, desk_gate};
ghost use Rattle.apf_stats.specs.Traces.{shown};
ghost use Rattle.apf_book.specs.BookCalls.{Dispatches};
ghost use Rattle.apf_book.specs.BookResults.{SameBook};
ghost use Rattle.apf_book.specs.Stopped.{IsStopped};
ghost use Rattle.apf_level.specs.Levels.{IsBookOf};
ghost use Rattle.apf_line.specs.Tokens.{IsOf};
ghost use Rattle.apf_level.specs.Arrivals.{EnqueuedAs};
ghost use Rattle.apf_level.specs.Copies.{Copies, IsCopied};
ghost use Rattle.apf_level.specs.Locked.{StrikesAndServes};
ghost use Rattle.apf_level.specs.Shown.{shown_of, WentOn};

use crate::answers::Enqueued;
use crate::naming::Naming;
use apf_book::{Arrived, Book};
use apf_gate::{Gate, Pass};
use apf_model::{Event, every_legal_history_is_in_order};
use apf_stats::Board;
use apf_words::Decision;
use std::alloc::Global;
use std::marker::PhantomData;
use std::sync::{Mutex, Wait};

/// The book of K's level, beside the numbers that are published of it.
///
/// Nothing waits, or the chosen head does not fit the level word that the Desk found last.
#[derive(Drop)]
pub struct Queued<K: Naming> {
    pub book: Book<Global>,
    pub board: Board,
    // Whether somebody may sleep until the request is decided.
    pub sleeps: Vec<bool>,
    // Whether anybody ever slept: till then nobody has to be woken.
    pub slept: bool,
    pub of: PhantomData<K>,
    ghost tied: { IsBookOf K.level book },
    ghost stopped: { IsStopped book.ledger book.desk.desk.knows },
    ghost own_cell: { board.cell ≡ K.level.cell },
    ghost published: { shown board.trace ≡ shown_of book.ledger.history },
    ghost one_flag_each: { length sleeps.items ≡ length K.level.gate.shape.widths },
}

/// The lock of a level with queues.
#[derive(Drop)]
pub struct QueuedLock<K: Naming> {
    pub lock: Mutex<Queued<K>>,
    ghost has_queues: { K.level.gate.shape.response ≡ Queue },
}

// Wakes those who may sleep until a request is decided that was dispatched since the log had this length.
fn wake(gate: &Gate<Global>, book: &Book<Global>, sleeps: &[bool], before: usize)
    requires own { desk_gate book.now.desk ≡ gate.now }
    requires one_flag_each { length sleeps.now ≡ length gate.now.shape.widths }
{
    let Some(newer) = book.log().get(before..) else {
        return;
    };
    for event in newer {
        if let Event::Dispatch(request, _queue) = *event {
            if let Some(true) = sleeps.get(request as usize) {
                gate.wake(request as u128);
            }
        }
    }
}

// Publishes the numbers of the log, if it grew since it had this length.
fn publish<R: Wait>(rt: &R, book: &Book<Global>, board: &mut Board, before: usize)
    requires went_on { WentOn (shown board.old.trace) before book.now.ledger.history }
    ensures cell { board.new.cell ≡ board.old.cell }
    ensures shown { shown board.new.trace ≡ shown_of book.now.ledger.history }
{
    if book.log().len() != before {
        board.publish(rt, book.stats());
    }
}

// Dispatches while the chosen head fits, wakes whoever was dispatched since the log had this length, if anybody ever slept,
// and publishes its numbers. Returns how many were dispatched now.
fn serve<R: Wait>(
    rt: &R,
    gate: &Gate<Global>,
    book: &mut Book<Global>,
    board: &mut Board,
    sleeps: &[bool],
    slept: bool,
    before: usize,
) -> u32
    requires own { desk_gate book.old.desk ≡ gate.now }
    requires one_flag_each { length sleeps.now ≡ length gate.now.shape.widths }
    requires went_on { WentOn (shown board.old.trace) before book.old.ledger.history }
    ensures same { SameBook book.old book.new }
    ensures answer { Dispatches book.old result book.new }
    ensures cell { board.new.cell ≡ board.old.cell }
    ensures shown { shown board.new.trace ≡ shown_of book.new.ledger.history }
{
    let count = book.dispatch(rt, gate);
    if slept && count != 0 {
        wake(gate, book, sleeps, before);
    }
    publish(rt, book, board, before);
    count
}

// Strikes the request, if it waits and is cancelled, and serves then. Says whether it struck.
fn strike_and_serve<K: Naming, R: Wait>(
    rt: &R,
    gate: &Gate<Global>,
    book: &mut Book<Global>,
    board: &mut Board,
    sleeps: &[bool],
    slept: bool,
    request: u32,
) -> bool
    requires own { gate.now ≡ K.level.gate }
    requires is_request { request < length K.level.gate.shape.widths }
    requires tied { IsBookOf K.level book.old }
    requires stopped { IsStopped book.old.ledger book.old.desk.desk.knows }
    requires published { shown board.old.trace ≡ shown_of book.old.ledger.history }
    requires one_flag_each { length sleeps.now ≡ length K.level.gate.shape.widths }
    ensures answer { StrikesAndServes book.old request result book.new }
    ensures tied { IsBookOf K.level book.new }
    ensures stopped { IsStopped book.new.ledger book.new.desk.desk.knows }
    ensures cell { board.new.cell ≡ board.old.cell }
    ensures published { shown board.new.trace ≡ shown_of book.new.ledger.history }
{
    let before = book.log().len();
    let struck = book.strike(gate, request);
    if struck {
        serve(rt, gate, book, board, sleeps, slept, before);
    }
    struck
}

/// Copies as much of the log from this place on as there is room for. Tells how many events.
pub fn copy(log: &[Event], from: u32, into: &mut [Event]) -> u32
    requires few { length log.now ≤ 20000 }
    ensures { Copies log.now from into.old result into.new }
{
    let Some(rest) = log.get(from as usize..) else {
        return 0;
    };
    let count = rest.len().min(into.len());
    into[..count].copy_from_slice(&rest[..count]);
    count as u32
}

impl<K: Naming> Queued<K> {
    /// The request arrives, and whoever waits is dispatched while the chosen head fits, also where the request does
    /// not enter.
    pub fn arrive<R: Wait>(&mut self, rt: &R, gate: &Gate<Global>, pass: &mut Pass) -> Enqueued
        requires own { gate.now ≡ K.level.gate }
        requires own_pass { pass_gate pass.old ≡ K.level.gate }
        requires in_line { pass.old.pass.state ≡ InLine }
        requires not_handed { pass.old.pass.handed ≡ false }
        ensures same { IsOf pass.old pass.new }
        ensures in_line { pass.new.pass.state ≡ InLine }
        ensures stands { EnqueuedAs K.level pass.new.pass result }
    {
        let before = self.book.log().len();
        let arrived = self.book.arrive(rt, gate, pass);
        serve(
            rt,
            gate,
            &mut self.book,
            &mut self.board,
            self.sleeps.as_slice(),
            self.slept,
            before,
        );
        match arrived {
            Arrived::Queued(queue) => Enqueued::Entered(queue),
            Arrived::Full(queue) => Enqueued::Full(queue),
            Arrived::Closed => Enqueued::Over(Decision::Closed),
            Arrived::Cancelled => Enqueued::Over(Decision::Cancelled),
            Arrived::Again => unreachable!(),
        }
    }

    /// Dispatches while the chosen head fits. Tells how many.
    pub fn dispatch<R: Wait>(&mut self, rt: &R, gate: &Gate<Global>) -> u32
        requires own { gate.now ≡ K.level.gate }
        ensures same { SameBook self.old.book self.new.book }
        ensures answer { Dispatches self.old.book result self.new.book }
    {
        let before = self.book.log().len();
        serve(
            rt,
            gate,
            &mut self.book,
            &mut self.board,
            self.sleeps.as_slice(),
            self.slept,
            before,
        )
    }

    /// Strikes the request, if it waits and is cancelled, and dispatches then. Says whether it struck.
    pub fn strike<R: Wait>(&mut self, rt: &R, gate: &Gate<Global>, request: u32) -> bool
        requires own { gate.now ≡ K.level.gate }
        requires is_request { request < length K.level.gate.shape.widths }
        ensures answer { StrikesAndServes self.old.book request result self.new.book }
    {
        strike_and_serve::<K, R>(
            rt,
            gate,
            &mut self.book,
            &mut self.board,
            self.sleeps.as_slice(),
            self.slept,
            request,
        )
    }

    /// Somebody may sleep from now on until the request is decided.
    pub fn will_sleep(&mut self, request: u32) {
        if let Some(flag) = self.sleeps.get_mut(request as usize) {
            *flag = true;
            self.slept = true;
        }
    }

    /// Copies as much of the log from this place on as there is room for. Tells how many events.
    pub fn copy_events(&self, from: u32, into: &mut [Event]) -> u32
        ensures copied { Copies (reverse self.now.book.ledger.history) from into.old result into.new }
        ensures of_level { IsCopied K.level from into.old result into.new }
    {
        every_legal_history_is_in_order();
        copy(self.book.log(), from, into)
    }
}
