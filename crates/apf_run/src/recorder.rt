//! A batch on a level of one thread, and what is noted of it.

ghost use Rattle.std.specs.Prelude.{◌≡◌, ◌≤◌, length, map, IfOk, IfErr, OnOk};
ghost use Rattle.apf_words.specs.Limits.{max_limit};
ghost use Rattle.apf_run.specs.Faults.{CanRun, IsReplayFault};

use crate::batch::Batch;
use crate::fault::ReplayFault;
use crate::record::Record;
use crate::totals::totals_so_far;
use crate::waits::{Waits, waits_of};
use apf_book::LifeEvent;
use apf_files::{Command, Config, Request};
use apf_gate::Close;
use apf_local::{Answer, Place};
use apf_model::{Event, Response};
use apf_texts::{Line, Totals};
use apf_words::{Decision, MAX_LIMIT};
use std::alloc::{AllocError, Global};

/// A level with a slot for each request, and what is noted of it.
#[derive(Drop)]
pub struct Recorder {
    batch: Batch,
    record: Record,
}

// The decision that an answer tells.
fn decision_of(answer: Answer) -> Option<Decision> {
    match answer {
        Answer::Run => Some(Decision::Execute),
        Answer::Over(decision) => Some(decision),
        _ => None,
    }
}

// The decision of a request that waited and is at this place now: one that is over was cancelled.
fn decision_at(place: Place) -> Option<Decision> {
    match place {
        Place::Runs => Some(Decision::Execute),
        Place::Free => Some(Decision::Cancelled),
        Place::Fresh(_) | Place::Waits => None,
    }
}

impl Recorder {
    /// A level of this config for these requests, with memory for a script of this many commands.
    ///
    /// # Errors
    ///
    /// As of `replay`.
    pub fn open(
        alloc: Global,
        config: &Config,
        requests: &[Request],
        commands: usize,
    ) -> Result<Recorder, ReplayFault>
        ensures count { IfOk result (λ r. length r.batch.owner.passes ≡ length requests.now) }
        ensures settings { OnOk result (CanRun config.now requests.now 1) }
        ensures fault { IfErr result (IsReplayFault config.now requests.now 1) }
    {
        let queues = match config.limit_response {
            Response::Queue => config.queues,
            Response::Reject => 0,
        };
        let batch = Batch::open(alloc, config, requests)?;
        let record = Record::new(alloc, requests.len(), commands, queues)?;
        Ok(Recorder { batch, record })
    }

    /// Carries out a command, and notes what it did: nothing, if what it names is not there.
    ///
    /// # Errors
    ///
    /// `AllocError` if there was no room for a line and memory was refused.
    pub fn carry_out(&mut self, command: Command) -> Result<(), AllocError>
        ensures count { length self.new.batch.owner.passes ≡ length self.old.batch.owner.passes }
    {
        let line = match command {
            Command::Arrive(request) => self.arrive(request),
            Command::Finish(request) => self.finish(request),
            Command::Cancel(request) => self.cancel(request),
            Command::Close => Some(self.close()),
            Command::Limit(limit) => self.set_limit(limit),
        };
        match line {
            Some(line) => self.tell(line),
            None => Ok(()),
        }
    }

    // Notes the line of a command, and then what the log gained by it.
    fn tell(&mut self, line: Line) -> Result<(), AllocError>
        ensures count { length self.new.batch.owner.passes ≡ length self.old.batch.owner.passes }
    {
        let from = self.record.read();
        self.record.follow(self.batch.level())?;
        self.record.add(line)?;
        for place in from..self.record.read() {
            if let Some(event) = self.record.event(place) {
                self.note(event)?;
            }
        }
        Ok(())
    }

    // The request arrives, unless it did. If it entered a queue, or found one full, the line names the queue.
    fn arrive(&mut self, request: u32) -> Option<Line>
        ensures count { length self.new.batch.owner.passes ≡ length self.old.batch.owner.passes }
    {
        if !self.batch.has(request) {
            return None;
        }
        let (answer, event) = self.batch.arrive(request);
        let told = decision_of(answer);
        if let Some(decision) = told {
            self.record.decide(request, decision);
        }
        Some(match (event, told) {
            (Some(LifeEvent::Enter(_ticket, queue)), _told) => Line::Queued(request, queue),
            (Some(LifeEvent::Full(_ticket, queue)), _told) => Line::QueueFull(request, queue),
            (_none, Some(decision)) => Line::Arrives(request, decision),
            (_none, None) => Line::Again(request),
        })
    }

    // The request gives its seats back, if it runs.
    fn finish(&mut self, request: u32) -> Option<Line>
        ensures count { length self.new.batch.owner.passes ≡ length self.old.batch.owner.passes }
    {
        if !self.batch.has(request) {
            return None;
        }
        Some(if self.batch.finish(request) {
            Line::Finishes(request)
        } else {
            Line::NotRunning(request)
        })
    }

    // The request is cancelled, if it is undecided, and struck.
    fn cancel(&mut self, request: u32) -> Option<Line>
        ensures count { length self.new.batch.owner.passes ≡ length self.old.batch.owner.passes }
    {
        let decision = self.batch.cancel(request)?;
        self.record.decide(request, decision);
        Some(Line::Cancels(request, decision))
    }

    fn close(&mut self) -> Line
        ensures count { length self.new.batch.owner.passes ≡ length self.old.batch.owner.passes }
    {
        match self.batch.close() {
            Close::First => Line::ClosesFirst,
            Close::Already => Line::ClosesAlready,
        }
    }

    // Sets the limit, if it is one of 1 to 10,000 seats.
    fn set_limit(&mut self, limit: u32) -> Option<Line>
        ensures count { length self.new.batch.owner.passes ≡ length self.old.batch.owner.passes }
    {
        if !(1..=MAX_LIMIT).contains(&limit) {
            return None;
        }
        let old = self.batch.set_limit(limit);
        Some(Line::Limits(limit, old))
    }

    // Notes an event. A request that was dispatched or struck reads its decision. An arrival has its line already.
    fn note(&mut self, event: Event) -> Result<(), AllocError>
        ensures count { length self.new.batch.owner.passes ≡ length self.old.batch.owner.passes }
    {
        match event {
            Event::Enter(_request, _queue) | Event::Full(_request, _queue) => Ok(()),
            Event::Dispatch(request, queue) => {
                self.read(request);
                self.record.add(Line::Dispatches(request, queue))
            }
            Event::Strike(request, queue) => {
                self.read(request);
                self.record.add(Line::Strikes(request, queue))
            }
        }
    }

    // The request, which left its queue, reads its decision.
    fn read(&mut self, request: u32)
        ensures count { length self.new.batch.owner.passes ≡ length self.old.batch.owner.passes }
    {
        if let Some(decision) = self.batch.place(request).and_then(decision_at) {
            self.record.decide(request, decision);
        }
    }

    /// What the book says now.
    pub fn totals(&mut self) -> Totals
        ensures count { length self.new.batch.owner.passes ≡ length self.old.batch.owner.passes }
    {
        let word = self.batch.look();
        let stats = self.batch.level().stats();
        totals_so_far(word, self.record.counts(), self.record.undecided(), stats)
    }

    /// The log as it stands, and the widths of the requests.
    ///
    /// # Errors
    ///
    /// `AllocError` if memory was refused.
    pub fn waits(&self, alloc: Global, requests: &[Request]) -> Result<Waits, AllocError>
        requires one_each { length requests.now ≡ length self.now.batch.owner.passes }
        ensures { IfOk result (λ w. w.widths ≡ map (λ r. r.width) requests.now) }
    {
        waits_of(alloc, &self.batch, requests)
    }

    /// What was noted.
    pub fn into_record(self) -> Record {
        let Recorder { batch: _, record } = self;
        record
    }
}
