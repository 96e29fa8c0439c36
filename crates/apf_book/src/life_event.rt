//! The events of a level whose slots are used again.

use apf_gate::Ticket;

/// An event of the queues, of the request that a ticket names, and of a queue, named by its number from 0.
#[derive(Clone, Copy, Debug, PartialEq, Eq)]
pub enum LifeEvent {
    /// The request entered the queue.
    Enter(Ticket, u32),
    /// The request was rejected, as the queue was full.
    Full(Ticket, u32),
    /// The request was dispatched from the queue.
    Dispatch(Ticket, u32),
    /// The cancelled request was struck out of the queue.
    Strike(Ticket, u32),
}
