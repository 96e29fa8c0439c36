//! A level that is driven by commands, in one thread.

ghost use Rattle.std.specs.Prelude.{◌≡◌, length, map, All};
ghost use Rattle.apf_model.specs.declared.response.Response.TheVariants.{Queue};
ghost use Rattle.apf_gate.specs.declared.record.State.TheVariants.{Fresh};
ghost use Rattle.apf_gate.specs.Gauges.{IsShape};
ghost use Rattle.apf_gate.specs.Records.{new_desk};
ghost use Rattle.apf_gate.specs.Tokens.{pass_gate, desk_gate, station_gate};

use crate::marks::Mark;
use crate::opening::{Fault, requests_of};
use crate::requests::{Request, Stage, Tried};
use crate::stations;
use apf_book::{Arrived, Ask, Book, Config};
use apf_gate::{Close, Desk, Gate, Opened, Pass, Station};
use apf_model::Event;
use apf_words::Decision;
use std::alloc::Allocator;
use std::sync::Wait;

/// What is done with a level.
#[derive(Clone, Copy, Debug, PartialEq, Eq)]
pub enum Command {
    /// The request arrives.
    Arrive(u32),
    /// The request gets in line, as it does where it found no seats.
    Ask(u32),
    /// The request comes to the book, if it is in line.
    Hand(u32),
    /// The request's work is done.
    Finish(u32),
    /// The request is cancelled, and struck where it waits.
    Cancel(u32),
    /// The request is cancelled, and stays in its queue where it waits.
    CancelAlone(u32),
    /// The level is closed.
    Close,
}

/// What a command answers.
#[derive(Clone, Copy, Debug, PartialEq, Eq)]
pub enum Answer {
    /// The request that arrived is decided so.
    Decided(Decision),
    /// The request that arrived entered this queue, and was not decided by then.
    Queued(u32),
    /// The request that arrived was rejected, as this queue was full.
    Full(u32),
    /// The request is in line.
    InLine,
    /// It arrived before.
    Again,
    /// The request gave its seats back.
    Finished,
    /// The request was not running.
    NotRunning,
    /// The decision of the request that was to be cancelled.
    Cancel(Decision),
    /// What a close found.
    Close(Close),
    /// No such request.
    Unknown,
    /// A lost exchange, which one thread never has.
    Raced,
}

/// The numbers of a level: seats and waiters; how many requests are executed, rejected, cancelled and
/// undecided; how many are rejected as queue-full, closed and concurrency-limit; and how many entered,
/// were dispatched and were struck.
#[derive(Clone, Copy, Debug, PartialEq, Eq)]
pub struct Totals {
    /// Whether the level is open.
    pub open: bool,
    /// Seats and waiters.
    pub level: [u32; 2],
    /// Executed, rejected, cancelled and undecided requests.
    pub decided: [u32; 4],
    /// Requests rejected as queue-full, closed and concurrency-limit.
    pub rejected: [u32; 3],
    /// Requests that entered, were dispatched and were struck.
    pub logged: [u32; 3],
}

/// A level of the gate that the marker names, with one Station.
#[derive(Drop)]
pub struct Level<A: Allocator, K: Mark> {
    gate: Gate<A>,
    book: Book<A>,
    requests: Vec<Request<K>, A>,
    station: Station,
    ghost gate_is: { gate ≡ K.gate },
    ghost is_a_batch: { length K.gate.shape.widths ≡ K.gate.shape.slots },
    ghost desk_is: { desk_gate book.desk ≡ K.gate },
    ghost station_is: { station_gate station ≡ K.gate },
    ghost requests_are: { length requests.items ≡ length K.gate.shape.widths },
}

impl<A: Allocator + Copy, K: Mark> Level<A, K> {
    /// A level in which nothing happened yet, if its gate was opened with a Station.
    pub fn new(alloc: A, config: &Config, asks: &[Ask], opened: Opened<A>) -> Result<Self, Fault>
        requires gate { opened.0 ≡ K.gate }
        requires desk { (desk_gate opened.1 ≡ opened.0) × (opened.1.desk ≡ new_desk opened.1.desk.knows.shape) }
        requires shape { IsShape opened.0.shape × (length opened.0.shape.widths ≡ opened.0.shape.slots) × (opened.0.shape.response ≡ Queue) }
        requires widths { map (λ a. a.width) asks.now ≡ opened.0.shape.widths }
        requires passes { All (λ t. (pass_gate t ≡ opened.0) × (t.pass.state ≡ Fresh)) opened.2.items }
        requires stations { All (λ t. station_gate t ≡ opened.0) opened.3.items }
        requires count { length opened.2.items ≡ length asks.now }
        requires one { length opened.3.items ≡ 1 }
    {
        let (gate, desk, passes, mut stations) = opened;
        let Some(station) = stations.pop() else {
            unreachable!()
        };
        let requests = requests_of(alloc, passes)?;
        let book = Book::new(alloc, config, asks, desk)?;
        Ok(Level {
            gate,
            book,
            requests,
            station,
        })
    }
}

impl<A: Allocator, K: Mark> Level<A, K> {
    /// Does what the command says.
    pub fn act<R: Wait>(&mut self, rt: &R, command: Command) -> Answer {
        let answer = match command {
            Command::Arrive(request) => self.arrive(rt, request),
            Command::Ask(request) => self.ask(request),
            Command::Hand(request) => self.hand(rt, request),
            Command::Finish(request) => self.finish(rt, request),
            Command::Cancel(request) => self.cancel(rt, request),
            Command::CancelAlone(request) => self.cancel_alone(request),
            Command::Close => Answer::Close(self.gate.close(&mut self.station)),
        };
        self.poll();
        answer
    }

    // The request takes its seats, or else it asks, arrives and the heads that fit are dispatched.
    fn arrive<R: Wait>(&mut self, rt: &R, request: u32) -> Answer {
        if request as usize >= self.requests.len() {
            return Answer::Unknown;
        }
        match self.requests[request as usize].try_take(&self.gate) {
            Tried::Again => Answer::Again,
            Tried::Running => Answer::Decided(Decision::Execute),
            Tried::Raced => Answer::Raced,
            Tried::Over(decision, false) => Answer::Decided(decision),
            Tried::Over(decision, true) => {
                self.book.dispatch(rt, &self.gate);
                Answer::Decided(decision)
            }
            Tried::NoSeats => {
                self.ask(request);
                self.hand(rt, request)
            }
        }
    }

    // The request gets in line.
    fn ask(&mut self, request: u32) -> Answer {
        if request as usize >= self.requests.len() {
            return Answer::Unknown;
        }
        if self.requests[request as usize].ask(&self.gate) {
            return Answer::InLine;
        }
        Answer::Again
    }

    // The request comes to the book, and where it enters the heads that fit are dispatched.
    fn hand<R: Wait>(&mut self, rt: &R, request: u32) -> Answer {
        if request as usize >= self.requests.len() {
            return Answer::Unknown;
        }
        match self.requests[request as usize].hand(rt, &self.gate, &mut self.book) {
            None | Some(Arrived::Again) => Answer::Again,
            Some(Arrived::Full(queue)) => Answer::Full(queue),
            Some(Arrived::Closed) => Answer::Decided(Decision::Closed),
            Some(Arrived::Cancelled) => Answer::Decided(Decision::Cancelled),
            Some(Arrived::Queued(queue)) => {
                self.book.dispatch(rt, &self.gate);
                Answer::Queued(queue)
            }
        }
    }

    // The request gives its seats back, and where others wait the heads that fit are dispatched.
    fn finish<R: Wait>(&mut self, rt: &R, request: u32) -> Answer {
        if request as usize >= self.requests.len() {
            return Answer::Unknown;
        }
        match self.requests[request as usize].finish(&self.gate) {
            None => Answer::NotRunning,
            Some(false) => Answer::Finished,
            Some(true) => {
                self.book.dispatch(rt, &self.gate);
                Answer::Finished
            }
        }
    }

    // The request is cancelled, and where it waited the heads that fit are dispatched.
    fn cancel<R: Wait>(&mut self, rt: &R, request: u32) -> Answer {
        if request as usize >= self.requests.len() {
            return Answer::Unknown;
        }
        let decision = stations::cancel(&self.gate, &mut self.station, request);
        if decision == Decision::Cancelled && self.book.strike(&self.gate, request) {
            self.book.dispatch(rt, &self.gate);
        }
        Answer::Cancel(decision)
    }

    // The request is cancelled, and nothing is done with its queue.
    fn cancel_alone(&mut self, request: u32) -> Answer {
        if request as usize >= self.requests.len() {
            return Answer::Unknown;
        }
        Answer::Cancel(stations::cancel(&self.gate, &mut self.station, request))
    }

    // Each request that waits reads its decision.
    fn poll(&mut self) {
        for request in 0..self.requests.len() {
            self.requests[request].poll(&self.gate);
        }
    }

    /// The log, the oldest event first.
    pub fn log(&self) -> &[Event] {
        self.book.log()
    }

    /// The numbers of the level as it stands.
    pub fn totals(&mut self) -> Totals {
        let word = self.gate.look(&mut self.station);
        let stats = self.book.stats();
        let mut decided = [0u32; 6];
        for place in 0..self.requests.len() {
            let request = self.requests[place].number();
            let kind = match stations::read(&self.gate, &mut self.station, request) {
                None => 0,
                Some(Decision::Execute) => 1,
                Some(Decision::QueueFull) => 2,
                Some(Decision::Closed) => 3,
                Some(Decision::Cancelled) => 4,
                Some(Decision::ConcurrencyLimit) => 5,
            };
            decided[kind] = decided[kind].saturating_add(1);
        }
        let [undecided, executed, full, closed, cancelled, limited] = decided;
        let rejected = full.saturating_add(closed).saturating_add(limited);
        Totals {
            open: !word.closed(),
            level: [word.seats(), word.waiters()],
            decided: [executed, rejected, cancelled, undecided],
            rejected: [full, closed, limited],
            logged: [stats.entered, stats.dispatched, stats.struck],
        }
    }
}
