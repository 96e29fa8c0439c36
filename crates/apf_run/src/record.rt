//! What a replay notes while it goes on: its lines, the decisions that it was told, and the log so far.

ghost use Rattle.std.specs.Prelude.{◌≤◌, length};
ghost use Rattle.apf_words.specs.Limits.{max_requests};

use crate::batch::event_by_slot;
use crate::services::{Service, count_all, no_services};
use apf_book::LifeEvent;
use apf_files::Request;
use apf_gate::Ticket;
use apf_level::Counts;
use apf_local::LocalLevel;
use apf_model::Event;
use apf_texts::Line;
use apf_words::Decision;
use std::alloc::{AllocError, Global};

/// The lines so far, the decision of each request as far as it was told, and the log as far as it was read.
#[derive(Drop)]
pub struct Record {
    lines: Vec<Line>,
    decisions: Vec<Option<Decision>>,
    log: Vec<Event>,
    services: Vec<Service>,
    ghost few_requests: { length decisions.items ≤ max_requests },
}

impl Record {
    /// A record of this many requests, commands and queues, all of whose memory is taken here. A request has at most one
    /// line beside those of the commands.
    ///
    /// # Errors
    ///
    /// `AllocError` if memory was refused.
    pub fn new(
        alloc: Global,
        requests: usize,
        commands: usize,
        queues: u32,
    ) -> Result<Record, AllocError>
        requires few { requests ≤ max_requests }
    {
        Ok(Record {
            lines: Vec::with_capacity(alloc, commands.saturating_add(requests))?,
            decisions: vec![in alloc; None; requests]?,
            log: Vec::with_capacity(alloc, 2 * requests)?,
            services: no_services(alloc, queues)?,
        })
    }

    /// Adds a line, for which there is room.
    ///
    /// # Errors
    ///
    /// `AllocError` if there was no room and memory was refused.
    pub fn add(&mut self, line: Line) -> Result<(), AllocError> {
        self.lines.push(line).map_err(AllocError::from)
    }

    /// The request was told this decision.
    pub fn decide(&mut self, request: u32, decision: Decision) {
        if let Some(place) = self.decisions.get_mut(request as usize) {
            *place = Some(decision);
        }
    }

    /// How many events of the log were read.
    pub fn read(&self) -> usize {
        self.log.len()
    }

    /// Reads what the level's log gained.
    ///
    /// # Errors
    ///
    /// `AllocError` if there was no room and memory was refused.
    pub fn follow(&mut self, level: &LocalLevel) -> Result<(), AllocError> {
        for place in self.log.len() as u64..level.events() {
            let mut next = [LifeEvent::Full(Ticket::of(0), 0)];
            level.copy_events(place, &mut next);
            self.log.push(event_by_slot(next[0]))?;
        }
        Ok(())
    }

    /// The event at this place of the log, if it was read.
    pub fn event(&self, place: usize) -> Option<Event> {
        self.log.get(place).copied()
    }

    // How many requests were told this decision.
    fn decided(&self, decision: Decision) -> u32 {
        let told = Some(decision);
        self.decisions
            .iter()
            .filter(|other| **other == told)
            .count() as u32
    }

    /// The numbers of the decisions that were told.
    pub fn counts(&self) -> Counts {
        Counts {
            executed: self.decided(Decision::Execute),
            queue_full: self.decided(Decision::QueueFull),
            closed: self.decided(Decision::Closed),
            concurrency_limit: self.decided(Decision::ConcurrencyLimit),
            cancelled: self.decided(Decision::Cancelled),
        }
    }

    /// How many requests were told no decision.
    pub fn undecided(&self) -> u32 {
        self.decisions.iter().filter(|told| told.is_none()).count() as u32
    }

    /// The lines, and what each queue was given by the events that were read.
    pub fn into_lines(self, requests: &[Request]) -> (Vec<Line>, Vec<Service>) {
        let Record {
            lines,
            decisions: _,
            log,
            mut services,
        } = self;
        count_all(services.as_mut_slice(), requests, log.as_slice());
        (lines, services)
    }
}
