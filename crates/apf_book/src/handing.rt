//! An arrival is handed to the Desk.

ghost use Rattle.std.specs.Prelude.{◌≡◌, ◌≢◌, ◌⊎◌, true, false, Some};
ghost use Rattle.apf_words.specs.declared.decision.Decision.TheVariants as decisions;
ghost use Rattle.apf_model.specs.declared.response.Response.TheVariants.{Queue};
ghost use Rattle.apf_history.specs.declared.events.Status.TheVariants as status_is;
ghost use Rattle.apf_gate.specs.declared.record.State.TheVariants.{InLine};
ghost use Rattle.apf_gate.specs.Records.{told_own, service};
ghost use Rattle.apf_gate.specs.Tokens.{pass_gate, desk_gate};
ghost use Rattle.apf_gate.specs.DeskCalls.{MayRefuse, TriesToEnter};
ghost use Rattle.apf_book.specs.BookView.{logged};
ghost use Rattle.apf_book.specs.Moves.{Moves};
ghost use Rattle.apf_book.specs.Said.{Says, said_handing};
ghost use Rattle.apf_book.specs.Arrivals.{after_handing, is_in, IsRefused};
ghost use Rattle.apf_gate.specs.declared.answers.TryEnter.TheVariants as tried;

use apf_gate::{Desk, Gate, Pass, TryEnter};
use apf_words::Decision;
use std::alloc::Allocator;

// What became of a request that was handed to the Desk.
#[derive(Clone, Copy)]
pub enum Handed {
    // It waits.
    Entered,
    // It is refused, as its queue is full.
    Full,
    // It is refused, as the level is closed.
    Closed,
    // It is cancelled.
    Cancelled,
    // The level word changed before the exchange: nothing became of it.
    Raced,
}

// Refuses the request with this decision. Answers what it is decided then.
fn refuse<A: Allocator>(
    gate: &Gate<A>,
    desk: &mut Desk,
    pass: &mut Pass,
    decision: Decision,
) -> Handed
    requires own_desk { desk_gate desk.old ≡ gate.now }
    requires own_pass { pass_gate pass.old ≡ gate.now }
    requires in_line { pass.old.pass.state ≡ InLine }
    requires not_entered { pass.old.pass.entered ≡ false }
    requires is_new { logged (service desk.old.desk pass.old.pass.number) ≡ Some status_is.Away }
    requires refusal { MayRefuse desk.old.desk decision }
    ensures desk { desk_gate desk.new ≡ desk_gate desk.old }
    ensures pass { pass_gate pass.new ≡ pass_gate pass.old }
    ensures number { pass.new.pass.number ≡ pass.old.pass.number }
    ensures in_line { pass.new.pass.state ≡ InLine }
    ensures moves { Moves desk.old.desk pass.old.pass.number (after_handing result) desk.new.desk }
    ensures says { Says (said_handing result pass.old.pass.number) desk.old.desk.knows desk.new.desk.knows }
    ensures held { desk.new.desk.held ≡ desk.old.desk.held }
    ensures told { IsRefused result pass.new.pass desk.old.desk.knows desk.new.desk.knows }
    ensures not_entered { (is_in result ≡ false) × (pass.new.pass.entered ≡ false) }
    ensures full { result ≡ Handed.Full → decision ≡ decisions.QueueFull }
    ensures follows { pass.new.pass.knows.trace ≡ desk.new.desk.knows.trace }
    ensures not_raced { result ≢ Handed.Raced }
{
    match gate.refuse(desk, pass, decision) {
        Decision::QueueFull => Handed::Full,
        Decision::Closed => Handed::Closed,
        Decision::Cancelled => Handed::Cancelled,
        _ => unreachable!(),
    }
}

// Refuses a request whose queue is full: as closed, where the level is closed, else as full.
fn refuse_full<A: Allocator>(gate: &Gate<A>, desk: &mut Desk, pass: &mut Pass) -> Handed
    requires own_desk { desk_gate desk.old ≡ gate.now }
    requires own_pass { pass_gate pass.old ≡ gate.now }
    requires in_line { pass.old.pass.state ≡ InLine }
    requires not_entered { pass.old.pass.entered ≡ false }
    requires is_new { logged (service desk.old.desk pass.old.pass.number) ≡ Some status_is.Away }
    ensures desk { desk_gate desk.new ≡ desk_gate desk.old }
    ensures pass { pass_gate pass.new ≡ pass_gate pass.old }
    ensures number { pass.new.pass.number ≡ pass.old.pass.number }
    ensures in_line { pass.new.pass.state ≡ InLine }
    ensures moves { Moves desk.old.desk pass.old.pass.number (after_handing result) desk.new.desk }
    ensures says { Says (said_handing result pass.old.pass.number) desk.old.desk.knows desk.new.desk.knows }
    ensures held { desk.new.desk.held ≡ desk.old.desk.held }
    ensures told { IsRefused result pass.new.pass desk.old.desk.knows desk.new.desk.knows }
    ensures not_entered { (is_in result ≡ false) × (pass.new.pass.entered ≡ false) }
    ensures stays_closed { desk.old.desk.knows.saw_closed ≡ true → result ≢ Handed.Full }
    ensures follows { pass.new.pass.knows.trace ≡ desk.new.desk.knows.trace }
    ensures not_raced { result ≢ Handed.Raced }
{
    if gate.view(desk).closed() {
        return refuse(gate, desk, pass, Decision::Closed);
    }
    refuse(gate, desk, pass, Decision::QueueFull)
}

// Tries once to hand over a request that is in line and new to the log, whose queue is full or not. `Raced` where the
// exchange by which it would enter found another word than the load before it: it is new still.
pub fn try_hand<A: Allocator>(
    gate: &Gate<A>,
    desk: &mut Desk,
    pass: &mut Pass,
    full: bool,
) -> Handed
    requires own_desk { desk_gate desk.old ≡ gate.now }
    requires own_pass { pass_gate pass.old ≡ gate.now }
    requires has_queues { gate.now.shape.response ≡ Queue }
    requires in_line { pass.old.pass.state ≡ InLine }
    requires not_entered { pass.old.pass.entered ≡ false }
    requires is_new { logged (service desk.old.desk pass.old.pass.number) ≡ Some status_is.Away }
    ensures desk { desk_gate desk.new ≡ desk_gate desk.old }
    ensures pass { pass_gate pass.new ≡ pass_gate pass.old }
    ensures number { pass.new.pass.number ≡ pass.old.pass.number }
    ensures in_line { pass.new.pass.state ≡ InLine }
    ensures moves { Moves desk.old.desk pass.old.pass.number (after_handing result) desk.new.desk }
    ensures says { Says (said_handing result pass.old.pass.number) desk.old.desk.knows desk.new.desk.knows }
    ensures held { desk.new.desk.held ≡ desk.old.desk.held }
    ensures told { IsRefused result pass.new.pass desk.old.desk.knows desk.new.desk.knows }
    ensures entered { pass.new.pass.entered ≡ is_in result }
    ensures told_entering { (result ≡ Handed.Entered) ⊎ (result ≡ Handed.Raced) → told_own pass.new.pass ≡ told_own pass.old.pass }
    ensures is_full { result ≡ Handed.Full → full ≡ true }
    ensures has_room { result ≡ Handed.Entered → full ≡ false }
    ensures stays_closed { desk.old.desk.knows.saw_closed ≡ true → (result ≢ Handed.Entered) × (result ≢ Handed.Full) }
    ensures follows { pass.new.pass.knows.trace ≡ desk.new.desk.knows.trace }
    ensures raced { result ≡ Handed.Raced → TriesToEnter (record { pass = pass.old.pass; desk = desk.old.desk }) tried.Raced (record { pass = pass.new.pass; desk = desk.new.desk }) }
{
    if full {
        return refuse_full(gate, desk, pass);
    }
    match gate.try_enter(desk, pass) {
        TryEnter::Entered => Handed::Entered,
        TryEnter::Closed => refuse(gate, desk, pass, Decision::Closed),
        TryEnter::Raced => Handed::Raced,
    }
}
