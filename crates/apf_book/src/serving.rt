//! The Desk serves the head of a queue.

ghost use Rattle.std.specs.Prelude.{◌≡◌, ◌⊎◌, Some, None};
ghost use Rattle.apf_words.specs.declared.decision.Decision.TheVariants as decisions;
ghost use Rattle.apf_model.specs.World.{width};
ghost use Rattle.apf_gate.specs.declared.record.Service.TheVariants as service_is;
ghost use Rattle.apf_gate.specs.Slots.{IsTicket};
ghost use Rattle.apf_gate.specs.declared.answers.TryGrant.TheVariants as granted;
ghost use Rattle.apf_gate.specs.declared.record.DeskRecord.{DeskRecord};
ghost use Rattle.apf_gate.specs.DeskCalls.{TriesToGrant};
ghost use Rattle.apf_gate.specs.Records.{told_of, service, KnowsMore};
ghost use Rattle.apf_gate.specs.Tokens.{desk_gate};
ghost use Rattle.apf_book.specs.Moves.{Moves, LastFound};
ghost use Rattle.apf_book.specs.Servings.{after_serving};
ghost use Rattle.apf_book.specs.Said.{Says, said_serving};

use apf_gate::{Desk, Gate, TryGrant};
use apf_words::Decision;
use std::alloc::Allocator;

// What became of the head of a queue.
#[derive(Clone, Copy)]
pub enum Served {
    // It executes.
    Dispatched,
    // It is cancelled, and waits no more.
    Struck,
    // It does not fit.
    NoRoom,
    // The level word changed before the exchange.
    Raced,
}

// Tries once to serve a request that waits.
pub fn serve<A: Allocator>(gate: &Gate<A>, desk: &mut Desk, request: u128) -> Served
    requires own { desk_gate desk.old ≡ gate.now }
    requires is_request { IsTicket gate.now.shape request }
    requires waits { service desk.old.desk request ≡ service_is.Waiting }
    requires holds_none { desk.old.desk.held ≡ None }
    ensures gate { desk_gate desk.new ≡ desk_gate desk.old }
    ensures moves { Moves desk.old.desk request (after_serving result) desk.new.desk }
    ensures says { Says (said_serving result request) desk.old.desk.knows desk.new.desk.knows }
    ensures holds_none { desk.new.desk.held ≡ None }
    ensures struck { result ≡ Served.Struck → told_of desk.new.desk.knows.told request ≡ Some decisions.Cancelled }
    ensures no_room { result ≡ Served.NoRoom → LastFound desk.old.desk.knows gate.now.shape.widths request desk.new.desk.knows }
    ensures raced { result ≡ Served.Raced → ((before : DeskRecord) × KnowsMore desk.old.desk.knows before.knows × TriesToGrant before request granted.Raced desk.new.desk) }
{
    if let Some(Decision::Cancelled) = gate.seen(desk, request) {
        gate.leave(desk, request);
        return Served::Struck;
    }
    match gate.try_grant(desk, request) {
        TryGrant::NoRoom => Served::NoRoom,
        TryGrant::Raced => Served::Raced,
        TryGrant::Granted => settle(gate, desk, request),
    }
}

// Lets the request execute whose seats the Desk holds, or gives them back where it is cancelled.
fn settle<A: Allocator>(gate: &Gate<A>, desk: &mut Desk, request: u128) -> Served
    requires own { desk_gate desk.old ≡ gate.now }
    requires holds { desk.old.desk.held ≡ Some request }
    ensures gate { desk_gate desk.new ≡ desk_gate desk.old }
    ensures moves { Moves desk.old.desk request (after_serving result) desk.new.desk }
    ensures says { Says (said_serving result request) desk.old.desk.knows desk.new.desk.knows }
    ensures holds_none { desk.new.desk.held ≡ None }
    ensures settled { (result ≡ Served.Dispatched) ⊎ (result ≡ Served.Struck) }
    ensures struck { result ≡ Served.Struck → told_of desk.new.desk.knows.told request ≡ Some decisions.Cancelled }
{
    if let Decision::Execute = gate.settle(desk) {
        return Served::Dispatched;
    }
    gate.give_back(desk);
    Served::Struck
}
