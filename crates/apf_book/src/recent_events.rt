//! The newest events of a history, and how many there ever were of each kind.

ghost use Rattle.std.specs.Prelude.{◌≡◌, ℕ, ◌+◌, ◌*◌, ◌^◌, ◌<◌, ◌≤◌, List, [], ◌∷◌, length, map, take, drop, All, vec_capacity, IfOk};
ghost use Rattle.apf_words.specs.Limits.{max_requests};
ghost use Rattle.circular_buffer.specs.Buffer.{Buffer};
ghost use Rattle.apf_history.specs.declared.events.Event.{Event};
ghost use Rattle.apf_book.specs.RecentEvents.{event_of, IsSmall, AreRecentEventsOf, AreLifeStats, CopiesLate};

use crate::life_event::LifeEvent;
use crate::life_stats::LifeStats;
use crate::row::Row;
use apf_model::Event;
use circular_buffer::HeapCircularBuffer;
use std::alloc::{AllocError, Allocator};
use std::marker::Model;

/// What was copied of the newest events.
#[derive(Clone, Copy, Debug, PartialEq, Eq)]
pub struct Copied {
    /// The place of the first event that was copied, of all that there ever were, from 0: the place that was
    /// asked for, or that of the oldest event that is kept, whichever is later.
    pub from: u64,
    /// How many were copied.
    pub count: usize,
}

// The newest events of a history, and how many there ever were of each kind. A slot is given at most 2^46 times, so
// there are fewer than 2^61 events.
#[derive(Drop)]
pub struct RecentEvents<A: Allocator> {
    newest: HeapCircularBuffer<Row, A>,
    entered: u64,
    dispatched: u64,
    struck: u64,
    full: u64,
}

impl<A: Allocator> Model for RecentEvents<A> {
    ghost use Rattle.apf_book.specs.RecentEvents.{RecentEventsView};

    ghost Value = { RecentEventsView };

    ghost view = { λ s. record {
      newest = s.newest.items;
      capacity = s.newest.capacity;
      entered = s.entered;
      dispatched = s.dispatched;
      struck = s.struck;
      full = s.full;
    } };
}

impl<A: Allocator> RecentEvents<A> {
    // Of a history without events, with room for two events of each slot.
    pub fn new(alloc: A, slots: u32) -> Result<RecentEvents<A>, AllocError>
        requires few { slots ≤ max_requests }
        ensures nothing { IfOk result (AreRecentEventsOf []) }
        ensures room { IfOk result (λ n. n.capacity ≡ 2 * slots) }
    {
        Ok(RecentEvents {
            newest: HeapCircularBuffer::with_capacity(alloc, 2 * slots as usize)?,
            entered: 0,
            dispatched: 0,
            struck: 0,
            full: 0,
        })
    }

    // One event more.
    pub fn note(&mut self, event: LifeEvent)
        ensures notes { (h : List Event) → AreRecentEventsOf h self.old → AreRecentEventsOf (event_of event ∷ h) self.new }
        ensures room { self.new.capacity ≡ self.old.capacity }
    {
        let _oldest = self.newest.push_back(Row::of(event));
        match event {
            LifeEvent::Enter(_, _) => self.entered = self.entered.wrapping_add(1),
            LifeEvent::Full(_, _) => self.full = self.full.wrapping_add(1),
            LifeEvent::Dispatch(_, _) => self.dispatched = self.dispatched.wrapping_add(1),
            LifeEvent::Strike(_, _) => self.struck = self.struck.wrapping_add(1),
        }
    }

    // The numbers of all events.
    pub fn stats(&self) -> LifeStats
        ensures { (h : List Event) → AreRecentEventsOf h self.now → length h < 2 ^ 64 → AreLifeStats result h }
    {
        LifeStats {
            entered: self.entered,
            dispatched: self.dispatched,
            struck: self.struck,
            full: self.full,
        }
    }

    // How many events there ever were.
    pub fn count(&self) -> u64
        ensures { (h : List Event) → AreRecentEventsOf h self.now → length h < 2 ^ 64 → result ≡ length h }
    {
        self.entered
            .wrapping_add(self.dispatched)
            .wrapping_add(self.struck)
            .wrapping_add(self.full)
    }

    // Copies events from this place on, of all that there ever were, as many as there is room for. The events that
    // are no longer kept are missed.
    pub fn copy(&self, from: u64, into: &mut [LifeEvent]) -> Copied
        ensures { (h : List Event) → AreRecentEventsOf h self.now → length h < 2 ^ 64 → CopiesLate self.now.capacity h from into.old result into.new }
    {
        let kept = self.newest.len();
        let first = self.count().wrapping_sub(kept as u64);
        let start = from.max(first);
        let skipped = (start - first).min(kept as u64) as usize;
        let count = (kept - skipped).min(into.len());
        copy_run(&self.newest, skipped, &mut into[..count]);
        Copied { from: start, count }
    }

    // Appends to a log that begins as the events that are kept do, those that it does not have.
    pub fn append_newer<L: Allocator>(&self, log: &mut Vec<Event, L>)
        requires begun { log.old.items ≡ take (length log.old.items) (map event_of self.now.newest) }
        requires room { length self.now.newest ≤ vec_capacity log.old }
        requires small { All IsSmall self.now.newest }
        ensures whole { log.new.items ≡ map event_of self.now.newest }
        ensures capacity { vec_capacity log.new ≡ vec_capacity log.old }
    {
        for i in log.len()..self.newest.len() {
            let Some(row) = self.newest.get(i) else {
                unreachable!()
            };
            log.push_reserved(plain(row.event()));
        }
    }
}

// The event of a batch.
fn plain(event: LifeEvent) -> Event
    requires { IsSmall event }
    ensures { result ≡ event_of event }
{
    match event {
        LifeEvent::Enter(ticket, queue) => Event::Enter(ticket.number as u32, queue),
        LifeEvent::Full(ticket, queue) => Event::Full(ticket.number as u32, queue),
        LifeEvent::Dispatch(ticket, queue) => Event::Dispatch(ticket.number as u32, queue),
        LifeEvent::Strike(ticket, queue) => Event::Strike(ticket.number as u32, queue),
    }
}

// Copies the events from this one on into the whole room.
fn copy_run<A: Allocator>(
    newest: &HeapCircularBuffer<Row, A>,
    skipped: usize,
    into: &mut [LifeEvent],
)
    requires there { skipped + length into.old ≤ length newest.now.items }
    ensures copied { into.new ≡ take (length into.old) (drop skipped newest.now.items) }
{
    let _kept = newest.len();
    for i in 0..into.len() {
        let Some(row) = newest.get(skipped + i) else {
            unreachable!()
        };
        into[i] = row.event();
    }
}
