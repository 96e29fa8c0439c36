//! The calls of one owner of all tokens of a gate.

ghost use Rattle.std.specs.Prelude.{◌≡◌, [], None};
ghost use Rattle.apf_model.specs.declared.response.Response.TheVariants.{Queue};
ghost use Rattle.apf_gate.specs.declared.record.State.TheVariants.{Fresh};
ghost use Rattle.apf_gate.specs.Slots.{IsTicket};
ghost use Rattle.apf_gate.specs.Tokens.{pass_gate, desk_gate, station_gate};

use crate::asserts::is;
use crate::stations;
use apf_gate::{Cancel, Close, Desk, Gate, Pass, Station, Ticket, TrySetLimit, TryTake};
use apf_model::Response;
use apf_words::Decision;
use std::alloc::Global;
use std::process::Abort;

// The Desk hears from a Station that the level is closed, and refuses the request so. It never looked itself.
fn refuse_as_heard<R: Abort>(
    rt: &R,
    gate: &Gate<Global>,
    desk: &mut Desk,
    pass: &mut Pass,
    station: &mut Station,
)
    requires own_desk { desk_gate desk.old ≡ gate.now }
    requires own_pass { pass_gate pass.old ≡ gate.now }
    requires own_station { station_gate station.old ≡ gate.now }
    requires queues { gate.now.shape.response ≡ Queue }
    requires fresh { pass.old.pass.state ≡ Fresh }
    requires idle { (desk.old.desk.services ≡ []) × (desk.old.desk.held ≡ None) }
{
    let None = gate.ask(pass) else {
        panic!(rt; "undecided")
    };
    is(rt, gate.close(station), Close::First);
    gate.hear_station(desk, station);
    is(
        rt,
        gate.refuse(desk, pass, Decision::Closed),
        Decision::Closed,
    );
    let Some(Decision::Closed) = gate.hear(desk, pass) else {
        panic!(rt; "heard")
    };
}

#[test]
fn the_desk_hears_of_a_close(rt: HostRuntime) {
    let opened = Gate::open(rt.alloc(), 4, &[1], 1, Response::Queue);
    let Ok((gate, mut desk, mut passes, mut stations)) = opened else {
        panic!(rt; "opens")
    };
    let (Some(mut pass), Some(mut station)) = (passes.pop(), stations.pop()) else {
        panic!(rt; "tokens")
    };
    refuse_as_heard(&rt, &gate, &mut desk, &mut pass, &mut station);
}

// A hearing changes no word: the level is what each of two Stations and a Pass made it.
#[test]
fn a_hearing_changes_no_word(rt: HostRuntime) {
    let opened = Gate::open(rt.alloc(), 4, &[3], 2, Response::Queue);
    let Ok((gate, mut desk, mut passes, mut stations)) = opened else {
        panic!(rt; "opens")
    };
    let (Some(mut pass), Some(mut second), Some(mut first)) = (
        passes.pop(),
        stations.pop(),
        stations.pop(),
    ) else {
        panic!(rt; "tokens")
    };
    let TryTake::Taken = gate.try_take(&mut pass) else {
        panic!(rt; "takes")
    };
    stations::tell(&gate, &mut first, &mut desk);
    is(
        &rt,
        stations::set_limit(&gate, &mut first, 9),
        TrySetLimit::Set(4, false),
    );
    stations::tell(&gate, &mut first, &mut desk);
    stations::tell(&gate, &mut second, &mut desk);
    is(
        &rt,
        stations::set_limit(&gate, &mut second, 7),
        TrySetLimit::Set(9, false),
    );
    stations::tell(&gate, &mut second, &mut desk);
    let level = gate.view(&mut desk);
    is(&rt, level.limit(), 7);
    is(&rt, level.seats(), 3);
    is(&rt, level.waiters(), 0);
    assert!(rt; !level.closed());
}

// The Station cancels the request, and wakes nobody. It is answered so.
fn cancels_quietly<R: Abort>(
    rt: &R,
    gate: &Gate<Global>,
    station: &mut Station,
    ticket: Ticket,
    answer: Cancel,
)
    requires own { station_gate station.old ≡ gate.now }
    requires is_request { IsTicket gate.now.shape ticket.number }
    ensures { station_gate station.new ≡ gate.now }
{
    is(rt, gate.cancel_without_wake(station, ticket), answer);
}

// Who wakes nobody is answered as who does.
#[test]
fn a_cancel_wakes_nobody(rt: HostRuntime) {
    let opened = Gate::open_for_life(rt.alloc(), 4, &[1, 1], 1, Response::Queue);
    let Ok((gate, _desk, mut passes, mut stations)) = opened else {
        panic!(rt; "opens")
    };
    let (Some(mut pass), Some(mut station)) = (passes.pop(), stations.pop()) else {
        panic!(rt; "tokens")
    };
    let ticket = pass.ticket();
    let cancelled = Cancel::Is(Decision::Cancelled);
    cancels_quietly(&rt, &gate, &mut station, ticket, cancelled);
    cancels_quietly(&rt, &gate, &mut station, ticket, cancelled);
    is(&rt, gate.cancel(&mut station, ticket), cancelled);
    gate.renew(&mut pass, 2, 7, 20);
    cancels_quietly(&rt, &gate, &mut station, ticket, Cancel::Other);
}

// All tokens of a gate are handed in while it goes on. The Desk is there afterwards.
#[test]
fn all_tokens_are_here(rt: HostRuntime) {
    let opened = Gate::open(rt.alloc(), 5, &[3, 2], 2, Response::Queue);
    let Ok((gate, mut desk, passes, stations)) = opened else {
        panic!(rt; "opens")
    };
    gate.all_are_here(&mut desk, passes, stations);
    is(&rt, gate.view(&mut desk).limit(), 5);
}
