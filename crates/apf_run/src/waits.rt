//! How long each request waited, in seats, and how that is written.

ghost use Rattle.std.specs.Prelude.{◌≡◌, ◌≢◌, ◌⊎◌, ℕ, ◌*◌, ◌<◌, ◌≤◌, List, length, map, reverse, slice_get, MatchOption, IfOk, OnOk, Option};
ghost use Rattle.std.specs.Io.KnownBytes.{Appends};
ghost use Rattle.apf_model.specs.History.{request_of};
ghost use Rattle.apf_model.specs.Order.{status, makes};
ghost use Rattle.apf_book.specs.declared.overtaking.Wait.{Wait};
ghost use Rattle.apf_run.specs.Waits.{IsOfLevel, IsWaitIn, IsWaitsText, end_name as name_of, line_of, wait_text};

use crate::batch::Batch;
use apf_book::{Wait, overtaken};
use apf_files::Request;
use apf_model::{Event, Status};
use std::alloc::{AllocError, Global};
use std::io;
use std::io::Write;
use std::marker::Model;

/// The log of a level as it stood, and the widths of its requests.
#[derive(Debug, Drop)]
pub struct Waits {
    log: Vec<Event>,
    widths: Vec<u32>,
}

impl Model for Waits {
    ghost use Rattle.apf_run.specs.Waits.{Logged, IsOfLevel};

    ghost Value = { Logged };

    ghost view = { λ s. record { log = s.log.items; widths = s.widths.items } };

    ghost invariant = { λ s. IsOfLevel (record { log = s.log.items; widths = s.widths.items }) };
}

impl Waits {
    /// Writes a line for each request that entered a queue, in the order of their numbers.
    pub fn write<W: Write>(&self, out: &mut W) -> io::Result<()>
        ensures { OnOk result ((text : List ℕ) × (IsWaitsText self.now text × Appends (W.contents out.old) (W.contents out.new) text)) }
    {
        write_waits(out, self.log.as_slice(), self.widths.as_slice())
    }
}

// The width of each request.
fn widths_of(alloc: Global, requests: &[Request]) -> Result<Vec<u32>, AllocError>
    ensures { IfOk result (λ v. v.items ≡ map (λ r. r.width) requests.now) }
{
    requests.iter().map(|request| request.width).collect(alloc)
}

/// The log of a level as it stands, and the widths of its requests. A level without queues has no log.
///
/// # Errors
///
/// `AllocError` if memory was refused.
pub fn waits_of(alloc: Global, level: &Batch, requests: &[Request]) -> Result<Waits, AllocError>
    requires one_each { length requests.now ≡ length level.now.owner.passes }
    ensures { IfOk result (λ w. w.widths ≡ map (λ r. r.width) requests.now) }
{
    let widths = widths_of(alloc, requests)?;
    let log = level.log(alloc)?;
    Ok(Waits { log, widths })
}

// What the event made of the request, if it names it.
fn made(event: Event, request: u32) -> Option<Status>
    ensures { MatchOption result (request_of event ≢ request) (λ s. (request_of event ≡ request) × (s ≡ makes event)) }
{
    match event {
        Event::Enter(other, _) if other == request => Some(Status::Waits),
        Event::Full(other, _) if other == request => Some(Status::Full),
        Event::Dispatch(other, _) if other == request => Some(Status::Dispatched),
        Event::Strike(other, _) if other == request => Some(Status::Struck),
        _ => None,
    }
}

// What became of the request: what the newest event that names it made of it.
fn status_in(log: &[Event], request: u32) -> Status
    ensures { result ≡ status (reverse log.now) request }
{
    let mut end = log.len();
    while end > 0 {
        if let Some(status) = made(log[end - 1], request) {
            return status;
        }
        end -= 1;
    }
    Status::Away
}

/// How it is written what became of a request that entered.
fn end_name(end: Status) -> &'static str
    ensures { result.now ≡ name_of end }
{
    match end {
        Status::Dispatched => "dispatched",
        Status::Struck => "struck",
        Status::Away | Status::Waits | Status::Full => "waiting",
    }
}

// Writes the line of a request that entered.
#[tactic(auto, unfolding(crate::specs::Waits::line_of))]
fn write_line<W: Write>(out: &mut W, request: u32, wait: Wait, end: Status) -> io::Result<()>
    ensures { OnOk result (Appends (W.contents out.old) (W.contents out.new) (line_of request wait end)) }
{
    let queue = wait.queue;
    let ahead = wait.ahead;
    let most = wait.most;
    let all = wait.all;
    let name = end_name(end);
    writeln!(
        out,
        "request {request} queue {queue} ahead {ahead} most {most} all {all} {name}"
    )
}

// Writes the line of a request, if it entered a queue.
fn write_wait<W: Write>(out: &mut W, log: &[Event], widths: &[u32], request: u32) -> io::Result<()>
    requires { IsOfLevel (record { log = log.now; widths = widths.now }) }
    ensures { OnOk result ((wait : Option Wait) × (IsWaitIn (record { log = log.now; widths = widths.now }) request wait
        × Appends (W.contents out.old) (W.contents out.new) (wait_text request wait (status (reverse log.now) request)))) }
{
    match overtaken(log, widths, request) {
        Some(wait) => write_line(out, request, wait, status_in(log, request)),
        None => Ok(()),
    }
}

// Writes the line of each request that entered a queue.
fn write_waits<W: Write>(out: &mut W, log: &[Event], widths: &[u32]) -> io::Result<()>
    requires { IsOfLevel (record { log = log.now; widths = widths.now }) }
    ensures { OnOk result ((text : List ℕ) × (IsWaitsText (record { log = log.now; widths = widths.now }) text
        × Appends (W.contents out.old) (W.contents out.new) text)) }
{
    for request in 0..widths.len() as u32 {
        write_wait(out, log, widths, request)?;
    }
    Ok(())
}
