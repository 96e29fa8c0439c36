//! An event as it is kept.

ghost use Rattle.std.specs.Prelude.{◌≡◌};
ghost use Rattle.apf_book.specs.Rows.{event_with};

use crate::life_event::LifeEvent;
use apf_gate::Ticket;
use std::marker::Model;

// 2^64: half of a ticket's number has fewer bits.
const HALF: u128 = 18_446_744_073_709_551_616;

/// Which event it is.
#[derive(Clone, Copy, Debug, PartialEq, Eq)]
pub enum Kind {
    Enter,
    Full,
    Dispatch,
    Strike,
}

/// An event in 24 bytes: the ticket's number stands in halves, since a number of 128 bits makes 32 bytes of it.
#[derive(Debug, Drop)]
pub struct Row {
    low: u64,
    high: u64,
    queue: u32,
    kind: Kind,
}

impl Model for Row {
    ghost use Rattle.apf_book.specs.declared.life_event.LifeEvent.{LifeEvent};
    ghost use Rattle.apf_book.specs.Rows.{event_of_row};

    ghost Value = { LifeEvent };

    ghost view = { λ r. event_of_row r.kind r.low r.high r.queue };
}

impl Row {
    /// The row of this event.
    pub fn of(event: LifeEvent) -> Row
        ensures { result ≡ event }
    {
        match event {
            LifeEvent::Enter(ticket, queue) => Row::new(Kind::Enter, ticket, queue),
            LifeEvent::Full(ticket, queue) => Row::new(Kind::Full, ticket, queue),
            LifeEvent::Dispatch(ticket, queue) => Row::new(Kind::Dispatch, ticket, queue),
            LifeEvent::Strike(ticket, queue) => Row::new(Kind::Strike, ticket, queue),
        }
    }

    // The row of this event of the ticket's request.
    fn new(kind: Kind, ticket: Ticket, queue: u32) -> Row
        ensures { result ≡ event_with kind ticket queue }
    {
        Row {
            low: (ticket.number % HALF) as u64,
            high: (ticket.number / HALF) as u64,
            queue,
            kind,
        }
    }

    /// The event.
    pub fn event(&self) -> LifeEvent
        ensures { result ≡ self.now }
    {
        let ticket = Ticket {
            number: u128::from(self.high) * HALF + u128::from(self.low),
        };
        match self.kind {
            Kind::Enter => LifeEvent::Enter(ticket, self.queue),
            Kind::Full => LifeEvent::Full(ticket, self.queue),
            Kind::Dispatch => LifeEvent::Dispatch(ticket, self.queue),
            Kind::Strike => LifeEvent::Strike(ticket, self.queue),
        }
    }
}
