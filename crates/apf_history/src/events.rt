//! The events of a history, and what they make of a request.

/// An event of the queues, of a request and a queue, each named by its number from 0.
#[derive(Clone, Copy, Debug, PartialEq, Eq)]
pub enum Event {
    /// The request entered the queue.
    Enter(u32, u32),
    /// The request was rejected, as the queue was full.
    Full(u32, u32),
    /// The request was dispatched from the queue.
    Dispatch(u32, u32),
    /// The cancelled request was struck out of the queue.
    Strike(u32, u32),
}

/// An entry of a log: an event, or a change of what a request that executes is charged.
#[derive(Clone, Copy, Debug, PartialEq, Eq)]
pub enum LogEntry {
    /// The event happened.
    Happens(Event),
    /// The request, which executes from the queue and was charged the first amount, has run so long that it is charged
    /// the second.
    Spends(u32, u32, u64, u64),
    /// The request, which executed from the queue and was charged the first amount, has run, and took the second.
    Settles(u32, u32, u64, u64),
}

/// What a queue is charged for a request that was dispatched from it and executes.
#[derive(Clone, Copy, Debug, PartialEq, Eq)]
pub struct Charge {
    /// The queue, by its number from 0.
    pub queue: u32,
    /// The charge, in the unit of costs.
    pub amount: u64,
}

/// What became of a request, by a history of the queues.
#[derive(Clone, Copy, Debug, PartialEq, Eq)]
pub enum Status {
    /// No event names it.
    Away,
    /// It entered a queue and waits there.
    Waits,
    /// It was dispatched.
    Dispatched,
    /// It was struck out of its queue.
    Struck,
    /// It was rejected, as its queue was full.
    Full,
}
