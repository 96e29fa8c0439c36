//! What is answered, and how that is written.

ghost use Rattle.std.specs.Prelude.{◌≡◌, OnOk};
ghost use Rattle.std.specs.Io.KnownBytes.{Appends};
ghost use Rattle.apf_protocol.specs.Texts.{answer_text, arrived_line, tried_name, queue_text, first_text};

use apf_model::{Config, Response};
use apf_texts::{Line, decision_name, write_line};
use apf_words::Decision;
use std::io;
use std::io::Write;

/// What became of a request that arrived.
#[derive(Clone, Copy, Debug, PartialEq, Eq)]
pub enum Arrived {
    /// It entered this queue.
    Queued(u32),
    /// This queue, the shortest of its hand, was full, and it is rejected.
    QueueFull(u32),
    /// It did not enter a queue, found none full, and is decided so: it executes; or it is rejected, as the level was closed,
    /// or as a level without queues had no room.
    Decided(Decision),
}

/// What became of a request that was tried.
#[derive(Clone, Copy, Debug, PartialEq, Eq)]
pub enum Tried {
    /// It would have to wait, so it is as if it had not come.
    Busy,
    /// It is decided so: it executes; or it is rejected, as the level was closed, or as a level without queues had no room.
    Decided(Decision),
}

/// What a queue was given.
#[derive(Clone, Copy, Debug, PartialEq, Eq)]
pub struct Given {
    /// Its number.
    pub queue: u32,
    /// The requests that wait in it.
    pub waiting: u32,
    /// The requests that entered it.
    pub entered: u64,
    /// The seats of those that were dispatched from it.
    pub service: u64,
}

/// One line that is answered to a command, or that says whom it took out of a queue. Requests, queues and limits are
/// numbers.
#[derive(Clone, Copy, Debug, PartialEq, Eq)]
pub enum Answer {
    /// The request arrived, and this became of it.
    Arrives(u32, Arrived),
    /// The request was tried, and this became of it.
    Tries(u32, Tried),
    /// It gave its seats back.
    Finishes(u32),
    /// It has no seats to give back.
    NotRunning(u32),
    /// What it took so far was charged, where that was more than what was charged before.
    Spends(u32),
    /// It does not execute, so it took nothing.
    SpendsNothing(u32),
    /// It was to be cancelled, and is decided so: it is cancelled, or it executes and keeps its seats.
    Cancels(u32, Decision),
    /// The limit is set in place of this one.
    Limits(u32, u32),
    /// The level is closed by this command.
    ClosesFirst,
    /// It was closed before.
    ClosesAlready,
    /// The request was dispatched from this queue.
    Dispatches(u32, u32),
    /// The request was struck out of this queue.
    Strikes(u32, u32),
    /// What a queue was given.
    Queue(Given),
    /// No other queue was given anything.
    End,
}

/// The first line of all, by which a level tells how it was opened.
#[derive(Clone, Copy, Debug, PartialEq, Eq)]
pub struct FirstLine {
    /// How many requests may be there at once.
    pub slots: u32,
    /// The settings of the level.
    pub config: Config,
}

impl Arrived {
    // The line of a transcript that says so of this request.
    fn line(self, request: u32) -> Line
        ensures { result ≡ arrived_line request self }
    {
        match self {
            Arrived::Queued(queue) => Line::Queued(request, queue),
            Arrived::QueueFull(queue) => Line::QueueFull(request, queue),
            Arrived::Decided(decision) => Line::Arrives(request, decision),
        }
    }
}

impl Tried {
    // How this is written.
    fn name(self) -> &'static str
        ensures { result.now ≡ tried_name self }
    {
        match self {
            Tried::Busy => "busy",
            Tried::Decided(decision) => decision_name(decision),
        }
    }
}

impl Given {
    // Writes the line of a queue.
    fn write<W: Write>(self, out: &mut W) -> io::Result<()>
        ensures { OnOk result (Appends (W.contents out.old) (W.contents out.new) (queue_text self)) }
    {
        let Given {
            queue,
            waiting,
            entered,
            service,
        } = self;
        writeln!(
            out,
            "queue {queue} waiting {waiting} entered {entered} service {service}"
        )
    }
}

impl Answer {
    /// Writes the line, with the LF that ends it. It takes no memory.
    ///
    /// # Errors
    ///
    /// The writer's. Then nothing is known of how much was written.
    pub fn write<W: Write>(self, out: &mut W) -> io::Result<()>
        ensures { OnOk result (Appends (W.contents out.old) (W.contents out.new) (answer_text self)) }
    {
        match self {
            Answer::Arrives(request, arrived) => write_line(out, arrived.line(request)),
            Answer::Tries(request, tried) => {
                let name = tried.name();
                writeln!(out, "try {request} {name}")
            }
            Answer::Finishes(request) => write_line(out, Line::Finishes(request)),
            Answer::NotRunning(request) => write_line(out, Line::NotRunning(request)),
            Answer::Spends(request) => writeln!(out, "spent {request}"),
            Answer::SpendsNothing(request) => writeln!(out, "spent {request} not running"),
            Answer::Cancels(request, decision) => write_line(out, Line::Cancels(request, decision)),
            Answer::Limits(limit, old) => write_line(out, Line::Limits(limit, old)),
            Answer::ClosesFirst => write_line(out, Line::ClosesFirst),
            Answer::ClosesAlready => write_line(out, Line::ClosesAlready),
            Answer::Dispatches(request, queue) => write_line(out, Line::Dispatches(request, queue)),
            Answer::Strikes(request, queue) => write_line(out, Line::Strikes(request, queue)),
            Answer::Queue(given) => given.write(out),
            Answer::End => writeln!(out, "end"),
        }
    }
}

impl FirstLine {
    /// Writes the line, with the LF that ends it. It takes no memory.
    ///
    /// # Errors
    ///
    /// The writer's. Then nothing is known of how much was written.
    pub fn write<W: Write>(self, out: &mut W) -> io::Result<()>
        ensures { OnOk result (Appends (W.contents out.old) (W.contents out.new) (first_text self)) }
    {
        let slots = self.slots;
        let limit = self.config.limit;
        let queues = self.config.queues;
        let hand = self.config.hand_size;
        let length = self.config.queue_length_limit;
        match self.config.limit_response {
            Response::Queue => writeln!(
                out,
                "serve 1 slots {slots} limit {limit} queues {queues} hand {hand} length {length} queue"
            ),
            Response::Reject => writeln!(out, "serve 1 slots {slots} limit {limit} reject"),
        }
    }
}
