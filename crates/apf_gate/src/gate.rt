//! The gate: the words of a level.

ghost use Rattle.std.specs.Prelude.{◌≡◌, ◌↔◌, ◌+◌, ◌<◌, ◌≤◌, ◌^◌, length, IsTrue};
ghost use Rattle.apf_words.specs.Level.{Level, packed};
ghost use Rattle.apf_words.specs.Limits.{max_width};
ghost use Rattle.apf_model.specs.World.{width};
ghost use Rattle.apf_gate.specs.Slots.{slot_of, mark_of, coded_width, IsTicket};
ghost use Rattle.apf_gate.specs.Steps.{IsInRange};

use crate::rule::{Board, Gauge};
use crate::ticket::Ticket;
use apf_words::LevelWord;
use std::alloc::Allocator;
use std::marker::Model;
use std::sync::atomic::AtomicU64;

/// The words of a level: the level word, and a decision word for each request.
///
/// Every thread may step on them, each with a token of its own.
#[derive(Drop)]
pub struct Gate<A: Allocator> {
    pub(crate) board: Board<A>,
    pub(crate) gauge: Gauge<A>,
    // How many sleep until a request is decided. No promise rests on it.
    pub(crate) sleepers: AtomicU64,
}

impl<A: Allocator> Model for Gate<A> {
    ghost use Rattle.apf_gate.specs.Tokens.{GateId};
    ghost use Rattle.apf_gate.specs.Gauges.{shape_in, IsGate};

    ghost Value = { GateId };

    ghost view = { λ g. record {
      table = g.board.shared.table_id;
      shape = shape_in g.gauge.lives g.gauge.numbers g.gauge.limit g.gauge.response g.gauge.widths.items g.gauge.stations;
    } };

    ghost invariant = { λ g. IsGate g.board.shared.table_id.words g.board.shared.table_id.slots
        (shape_in g.board.shared.key.value.lives g.board.shared.key.value.numbers g.board.shared.key.value.limit g.board.shared.key.value.response g.board.shared.key.value.widths.items g.board.shared.key.value.stations)
        (shape_in g.gauge.lives g.gauge.numbers g.gauge.limit g.gauge.response g.gauge.widths.items g.gauge.stations) };
}

impl<A: Allocator> Gate<A> {
    /// The number of a request of a batch names it, as each request has a slot of its own.
    ///
    /// It makes no step: the contract is the law.
    pub fn is_ticket(&self, request: u32)
        requires batch { length self.now.shape.widths ≡ self.now.shape.slots }
        requires is_request { request < length self.now.shape.widths }
        ensures { IsTicket self.now.shape request }
    {
        let _ = &self.gauge;
    }

    /// Whether this is the ticket of a request that there may be at this gate: of one of its slots, and of a number
    /// that is not beyond the last one.
    pub fn knows(&self, ticket: Ticket) -> bool
        ensures { IsTrue result ↔ IsTicket self.now.shape ticket.number }
    {
        ticket.number % 16384 < self.gauge.widths.len() as u128 && ticket.number < self.numbers()
    }

    /// How many requests there may ever be.
    pub(crate) fn numbers(&self) -> u128
        ensures { result ≡ length self.now.shape.widths }
    {
        if self.gauge.lives {
            return self.gauge.numbers;
        }
        self.gauge.widths.len() as u128
    }

    /// The width of a request, by its number.
    pub(crate) fn width_of(&self, request: u128) -> u32
        requires { IsTicket self.now.shape request }
        ensures value { result ≡ width self.now.shape.widths request }
        ensures small { result ≤ max_width }
    {
        if request < self.gauge.widths.len() as u128 {
            return self.gauge.widths[request as usize];
        }
        coded(request)
    }
}

// The width that a number says.
fn coded(request: u128) -> u32
    ensures value { result ≡ coded_width request }
    ensures small { result ≤ max_width }
{
    let code = request / 16384 % 32768;
    if code <= 20_000 {
        code.max(1) as u32
    } else {
        20_000
    }
}

/// The word of the slot of a request, by its number.
pub(crate) fn word_of(request: u128) -> usize
    ensures { result ≡ slot_of request + 1 }
{
    (request % 16384) as usize + 1
}

/// The mark of a request, by its number.
pub(crate) fn mark(request: u128) -> u64
    requires { request < 2 ^ 75 }
    ensures value { result ≡ mark_of request }
    ensures small { result < 2 ^ 61 }
{
    (request / 16384) as u64
}

/// What a level word says.
pub(crate) fn level_in(word: u64) -> LevelWord
    requires { (l : Level) × (word ≡ packed l) × IsInRange l }
    ensures { (l : Level) → word ≡ packed l → IsInRange l → result ≡ l }
{
    match LevelWord::unpack(word) {
        Some(level) => level,
        None => unreachable!(),
    }
}
