//! A level of one thread, whose slots are each used once: a batch, by the numbers of its requests.

ghost use Rattle.std.specs.Prelude.{◌≡◌, ◌≤◌, ◌<◌, ◌↔◌, length, map, true, false, IfSome, IfOk, IfErr, OnOk, IsTrue};
ghost use Rattle.apf_words.specs.Limits.{max_limit};
ghost use Rattle.apf_gate.specs.StationCalls.{ClosesTo};
ghost use Rattle.apf_gate.specs.StationSteps.{StationLoadsLevel};
ghost use Rattle.apf_local.specs.Batches.{IsBatch};
ghost use Rattle.apf_local.specs.Levels.{IsArrivalOfRenewed, IsFinish};
ghost use Rattle.apf_local.specs.Owners.{Steps, Sets};
ghost use Rattle.apf_local.specs.Tries.{IsReading};
ghost use Rattle.apf_run.specs.Asks.{charged_asks};
ghost use Rattle.apf_run.specs.Batches.{IsRead, IsLogOf, AreAll, CancelsSlot, by_slot};
ghost use Rattle.apf_run.specs.Faults.{CanRun, IsReplayFault};

use crate::asks::charged_asks_of;
use crate::fault::{ReplayFault, told};
use apf_book::{Copied, LifeEvent};
use apf_files::{Config, Request};
use apf_gate::{Cancel, Close, Ticket};
use apf_local::{Answer, LocalLevel, Place};
use apf_model::{Event, every_legal_history_is_in_order};
use apf_words::{Decision, LevelWord};
use std::alloc::{AllocError, Global};
use std::marker::Model;

/// A level with a slot for each request of a file. A request is named by its number, which is that of its slot.
#[derive(Drop)]
pub struct Batch {
    level: LocalLevel,
}

impl Model for Batch {
    ghost use Rattle.apf_local.specs.Levels.{LocalView};
    ghost use Rattle.apf_run.specs.Batches.{IsOfSlots};

    ghost Value = { LocalView };

    ghost view = { λ b. b.level };

    ghost invariant = { λ b. IsOfSlots b.level };
}

/// An event by the number of its request, which is that of its slot.
pub fn event_by_slot(event: LifeEvent) -> Event
    ensures { result ≡ by_slot event }
{
    match event {
        LifeEvent::Enter(ticket, queue) => Event::Enter(ticket.slot(), queue),
        LifeEvent::Full(ticket, queue) => Event::Full(ticket.slot(), queue),
        LifeEvent::Dispatch(ticket, queue) => Event::Dispatch(ticket.slot(), queue),
        LifeEvent::Strike(ticket, queue) => Event::Strike(ticket.slot(), queue),
    }
}

// These events by the numbers of their requests.
fn by_slots(alloc: Global, all: &[LifeEvent]) -> Result<Vec<Event>, AllocError>
    ensures { IfOk result (λ log. log.items ≡ map by_slot all.now) }
{
    all.iter().map(|event| event_by_slot(*event)).collect(alloc)
}

impl Batch {
    /// A level of this config with a slot for each of these requests, which did not arrive yet. Each dispatch is charged the
    /// request's width. All memory of the level is taken here.
    ///
    /// # Errors
    ///
    /// As of `replay`.
    pub fn open(alloc: Global, config: &Config, requests: &[Request]) -> Result<Batch, ReplayFault>
        ensures opened { IfOk result (IsBatch config.now (charged_asks requests.now)) }
        ensures count { IfOk result (λ b. length b.owner.passes ≡ length requests.now) }
        ensures settings { OnOk result (CanRun config.now requests.now 1) }
        ensures fault { IfErr result (IsReplayFault config.now requests.now 1) }
    {
        let asks = charged_asks_of(alloc, requests)?;
        match LocalLevel::open_batch(alloc, config, asks.as_slice()) {
            Ok(level) => {
                level.has_a_history();
                level.has_queues();
                Ok(Batch { level })
            }
            Err(fault) => Err(told(fault)),
        }
    }

    /// Whether there is a request of this number.
    pub fn has(&self, request: u32) -> bool
        ensures { IsTrue result ↔ (request < length self.now.places) }
    {
        (request as usize) < self.level.slots()
    }

    /// The request arrives. Answers `Wrong` if it came before, and the event that the log got by the arrival.
    pub fn arrive(&mut self, request: u32) -> (Answer, Option<LifeEvent>)
        ensures count { length self.new.owner.passes ≡ length self.old.owner.passes }
        ensures arrives { (request < length self.old.places) → IsArrivalOfRenewed request self.old result.0 result.1 self.new }
    {
        let _ = &self.level;
        if !self.has(request) {
            return (Answer::Wrong, None);
        }
        self.level.arrive_renewed(request as usize)
    }

    /// The request gives its seats back, if it executes. Says whether it does.
    pub fn finish(&mut self, request: u32) -> bool
        ensures count { length self.new.owner.passes ≡ length self.old.owner.passes }
        ensures finishes { result ≡ true → IsFinish request self.old Answer.Released self.new }
        ensures nothing { result ≡ false → self.new ≡ self.old }
    {
        self.has(request) && self.level.finish(request as usize) == Answer::Released
    }

    /// The request is cancelled, if it is undecided, and struck out of its queue. Answers its decision.
    ///
    /// `None` says that another request holds its slot, or that there is none of this number. In a batch a slot is used once.
    pub fn cancel(&mut self, request: u32) -> Option<Decision>
        ensures count { length self.new.owner.passes ≡ length self.old.owner.passes }
        ensures cancels { (request < length self.old.places) → CancelsSlot request self.old result self.new }
    {
        if !self.has(request) {
            return None;
        }
        let ticket = self.level.ticket(request as usize);
        match self.level.cancel(ticket) {
            Cancel::Is(decision) => Some(decision),
            Cancel::Other => None,
        }
    }

    /// Closes the level. Says whether this close was the first.
    pub fn close(&mut self) -> Close
        ensures count { length self.new.owner.passes ≡ length self.old.owner.passes }
        ensures closes { Steps self.old.owner.stations self.new.owner.stations (λ station station'. ClosesTo station result station') }
    {
        self.level.close()
    }

    /// Sets the limit, in seats. Answers the old one.
    pub fn set_limit(&mut self, limit: u32) -> u32
        requires some { 1 ≤ limit }
        requires small { limit ≤ max_limit }
        ensures count { length self.new.owner.passes ≡ length self.old.owner.passes }
        ensures sets { Steps self.old.owner.stations self.new.owner.stations (Sets limit result) }
    {
        self.level.set_limit(limit)
    }

    /// Reads the level word.
    pub fn look(&mut self) -> LevelWord
        ensures count { length self.new.owner.passes ≡ length self.old.owner.passes }
        ensures looks { Steps self.old.owner.stations self.new.owner.stations (λ station station'. StationLoadsLevel station result station') }
    {
        self.level.look()
    }

    /// Where the request is, if there is one of this number. One that waits reads its decision.
    pub fn place(&mut self, request: u32) -> Option<Place>
        ensures count { length self.new.owner.passes ≡ length self.old.owner.passes }
        ensures reads { IfSome result (λ place. IsReading request self.old place self.new) }
    {
        if !self.has(request) {
            return None;
        }
        Some(self.level.place(request as usize))
    }

    /// The level itself, to read its numbers and its events.
    pub fn level(&self) -> &LocalLevel
        ensures { result.now ≡ self.now }
    {
        &self.level
    }

    // All events of the level, the oldest first.
    fn all(&self, alloc: Global) -> Result<Vec<LifeEvent>, AllocError>
        ensures { IfOk result (λ all. AreAll self.now all.items) }
    {
        self.level.each_slot_has_a_pass();
        let room = 2 * self.level.slots();
        let mut newest = vec![in alloc; LifeEvent::Full(Ticket::of(0), 0); room]?;
        let Copied { from: _, count } = self.level.copy_events(0, newest.as_mut_slice());
        newest.truncate(count);
        Ok(newest)
    }

    /// The log as it stands, the oldest event first.
    ///
    /// # Errors
    ///
    /// `AllocError` if memory was refused.
    pub fn log(&self, alloc: Global) -> Result<Vec<Event>, AllocError>
        ensures read { IfOk result (λ log. IsRead self.now log.items) }
        ensures whole { IfOk result (λ log. IsLogOf self.now log.items) }
    {
        let _ = &self.level;
        every_legal_history_is_in_order();
        let all = self.all(alloc)?;
        by_slots(alloc, all.as_slice())
    }
}
