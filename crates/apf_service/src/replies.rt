//! What a command is answered by what the level's call answered.

ghost use Rattle.std.specs.Prelude.{◌≡◌, ◌++◌, OnOk};
ghost use Rattle.std.specs.Io.KnownBytes.{Appends};
ghost use Rattle.apf_service.specs.Replies.{told_of_answer, told_of_arrival, told_of_attempt, told_of_finish, told_of_spent, told_of_cancel, told_of_close, refused_text, reply_text, moves_text};

use crate::moves::write_moves;
use apf_book::LifeEvent;
use apf_gate::{Cancel, Close};
use apf_local::Answer;
use apf_protocol::{Answer as Told, Arrived, FaultKind, LineFault, Tried};
use apf_words::Decision;
use std::io;
use std::io::Write;

/// Why the level did not do what a line commands, which has no fault of its own.
#[derive(Clone, Copy, Debug, PartialEq, Eq)]
pub enum Refusal {
    /// The slot was given to as many requests as it can be, 2^46.
    UsedUp(u32),
    /// Another request holds the slot, so that the one that was meant is over.
    NotThere(u32),
}

impl Refusal {
    // Writes it as the fault of the line of this number.
    fn write<W: Write>(self, out: &mut W, line: u64) -> io::Result<()>
        ensures { OnOk result (Appends (W.contents out.old) (W.contents out.new) (refused_text line self)) }
    {
        match self {
            Refusal::UsedUp(slot) => LineFault::from(FaultKind::UsedUp(slot)).write(out, line),
            Refusal::NotThere(slot) => {
                LineFault::from(FaultKind::IsNotThere(slot)).write(out, line)
            }
        }
    }
}

// An arrival that no event names.
fn of_answer(slot: u32, answer: Answer) -> Result<Told, Refusal>
    ensures { result ≡ told_of_answer slot answer }
{
    match answer {
        Answer::Run => Ok(Told::Arrives(slot, Arrived::Decided(Decision::Execute))),
        Answer::Over(decision) => Ok(Told::Arrives(slot, Arrived::Decided(decision))),
        _ => Err(Refusal::UsedUp(slot)),
    }
}

/// An arrival in this slot.
pub fn of_arrival(slot: u32, answer: Answer, event: Option<LifeEvent>) -> Result<Told, Refusal>
    ensures { result ≡ told_of_arrival slot answer event }
{
    match event {
        Some(LifeEvent::Enter(_, queue)) => Ok(Told::Arrives(slot, Arrived::Queued(queue))),
        Some(LifeEvent::Full(_, queue)) => Ok(Told::Arrives(slot, Arrived::QueueFull(queue))),
        _ => of_answer(slot, answer),
    }
}

/// An attempt in this slot.
pub fn of_attempt(slot: u32, answer: Answer) -> Result<Told, Refusal>
    ensures { result ≡ told_of_attempt slot answer }
{
    match answer {
        Answer::Run => Ok(Told::Tries(slot, Tried::Decided(Decision::Execute))),
        Answer::Over(decision) => Ok(Told::Tries(slot, Tried::Decided(decision))),
        Answer::Busy => Ok(Told::Tries(slot, Tried::Busy)),
        _ => Err(Refusal::UsedUp(slot)),
    }
}

/// A finish in this slot.
pub fn of_finish(slot: u32, answer: Answer) -> Result<Told, Refusal>
    ensures { result ≡ told_of_finish slot answer }
{
    match answer {
        Answer::Released => Ok(Told::Finishes(slot)),
        _ => Ok(Told::NotRunning(slot)),
    }
}

/// A time so far in this slot, whose request executes, or does not.
pub fn of_spent(slot: u32, executes: bool) -> Result<Told, Refusal>
    ensures { result ≡ told_of_spent slot executes }
{
    if executes {
        Ok(Told::Spends(slot))
    } else {
        Ok(Told::SpendsNothing(slot))
    }
}

/// A cancel in this slot.
pub fn of_cancel(slot: u32, answer: Cancel) -> Result<Told, Refusal>
    ensures { result ≡ told_of_cancel slot answer }
{
    match answer {
        Cancel::Is(decision) => Ok(Told::Cancels(slot, decision)),
        Cancel::Other => Err(Refusal::NotThere(slot)),
    }
}

/// A close.
pub fn of_close(answer: Close) -> Result<Told, Refusal>
    ensures { result ≡ told_of_close answer }
{
    match answer {
        Close::First => Ok(Told::ClosesFirst),
        Close::Already => Ok(Told::ClosesAlready),
    }
}

// Writes what is answered to the line of this number.
fn write_reply<W: Write>(out: &mut W, line: u64, reply: Result<Told, Refusal>) -> io::Result<()>
    ensures { OnOk result (Appends (W.contents out.old) (W.contents out.new) (reply_text line reply)) }
{
    match reply {
        Ok(told) => told.write(out),
        Err(refusal) => refusal.write(out, line),
    }
}

/// Writes what is answered to the line of this number, and then the lines of these events, the oldest first.
pub fn write_told<W: Write>(
    out: &mut W,
    line: u64,
    reply: Result<Told, Refusal>,
    log: &[LifeEvent],
) -> io::Result<()>
    ensures { OnOk result (Appends (W.contents out.old) (W.contents out.new) (reply_text line reply ++ moves_text log.now)) }
{
    write_reply(out, line, reply)?;
    write_moves(out, log)
}
