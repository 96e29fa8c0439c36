//! Slots that are used again.

ghost use Rattle.std.specs.Prelude.{◌≡◌, ◌≤◌, [], None};
ghost use Rattle.apf_words.specs.Limits.{max_width};
ghost use Rattle.apf_model.specs.declared.response.Response.TheVariants.{Queue};
ghost use Rattle.apf_gate.specs.declared.record.State.TheVariants.{Fresh};
ghost use Rattle.apf_gate.specs.Slots.{IsTicket};
ghost use Rattle.apf_gate.specs.Tokens.{pass_gate, desk_gate, station_gate};

use crate::asserts::is;
use crate::requests::Request;
use crate::stations;
use apf_gate::{Cancel, Desk, Gate, Pass, Read, Renew, Station, Ticket, TryEnter, TryTake};
use apf_model::Response;
use apf_words::Decision;
use std::alloc::Global;
use std::process::Abort;

// A slot of a gate of 4 seats, with the request that holds it, and a Station.
#[derive(Drop)]
struct Slot {
    gate: Gate<Global>,
    request: Request,
    station: Station,
    ghost request_is: { pass_gate request.pass ≡ gate },
    ghost station_is: { station_gate station ≡ gate },
}

impl Slot {
    // The second of two slots, whose first request has the width 2.
    fn open<R: Abort>(rt: &R, alloc: Global) -> Slot {
        let opened = Gate::open_for_life(alloc, 4, &[1, 2], 1, Response::Queue);
        let Ok((gate, _desk, mut passes, mut stations)) = opened else {
            panic!(rt; "opens")
        };
        let (Some(pass), Some(station)) = (passes.pop(), stations.pop()) else {
            panic!(rt; "tokens")
        };
        Slot {
            gate,
            request: Request::new(pass),
            station,
        }
    }

    // The ticket of the request that holds the slot.
    fn ticket(&self) -> Ticket
        ensures { IsTicket self.now.gate.shape result.number }
    {
        self.request.pass.ticket()
    }

    // The Station cancels this request. It is answered so.
    fn cancel<R: Abort>(&mut self, rt: &R, ticket: Ticket, answer: Cancel)
        requires { IsTicket self.old.gate.shape ticket.number }
        ensures { self.new.gate ≡ self.old.gate }
    {
        is(rt, self.gate.cancel(&mut self.station, ticket), answer);
    }

    // The Station reads this request's decision. It is answered so.
    fn read<R: Abort>(&mut self, rt: &R, ticket: Ticket, answer: Read)
        requires { IsTicket self.old.gate.shape ticket.number }
        ensures { self.new.gate ≡ self.old.gate }
    {
        is(rt, self.gate.read(&mut self.station, ticket), answer);
    }

    // This many seats are taken.
    fn has<R: Abort>(&mut self, rt: &R, seats: u32)
        ensures { self.new.gate ≡ self.old.gate }
    {
        let level = stations::look(&self.gate, &mut self.station);
        is(rt, level.seats(), seats);
    }

    // The request takes its seats.
    fn takes<R: Abort>(&mut self, rt: &R)
        ensures { self.new.gate ≡ self.old.gate }
    {
        is(rt, self.request.take(&self.gate), Some(TryTake::Taken));
    }

    // The request writes execute. It is answered so, and gives its seats back.
    fn ends<R: Abort>(&mut self, rt: &R, answer: Decision)
        ensures { self.new.gate ≡ self.old.gate }
    {
        is(rt, self.request.execute(&self.gate), Some(answer));
        is(rt, self.request.release(&self.gate), Some(false));
    }

    // The next request of the slot begins, with this width. It is answered so.
    fn renews<R: Abort>(&mut self, rt: &R, width: u32, answer: Renew)
        requires some { 1 ≤ width }
        requires narrow { width ≤ max_width }
        ensures { self.new.gate ≡ self.old.gate }
    {
        is(rt, self.request.renew(&self.gate, width), Some(answer));
    }
}

// A late cancel, and a late read, of the request before find that another one holds the slot.
#[test]
fn a_late_cancel_misses(rt: HostRuntime) {
    let mut slot = Slot::open(&rt, rt.alloc());
    let first = slot.ticket();
    is(&rt, first, Ticket::of(1));
    slot.takes(&rt);
    slot.has(&rt, 2);
    slot.ends(&rt, Decision::Execute);
    slot.cancel(&rt, first, Cancel::Is(Decision::Execute));
    slot.renews(&rt, 3, Renew::Began(Some(Decision::Execute)));
    slot.cancel(&rt, first, Cancel::Other);
    slot.read(&rt, first, Read::Other);
    let second = slot.ticket();
    is(&rt, second.number, (32_768 + 3) * 16_384 + 1);
    is(&rt, second.slot(), 1);
    slot.read(&rt, second, Read::Is(None));
}

// The next request has its own width and its own decision.
#[test]
fn the_next_request_is_cancelled(rt: HostRuntime) {
    let mut slot = Slot::open(&rt, rt.alloc());
    slot.renews(&rt, 3, Renew::Began(None));
    let second = slot.ticket();
    slot.takes(&rt);
    slot.has(&rt, 3);
    slot.cancel(&rt, second, Cancel::Is(Decision::Cancelled));
    slot.ends(&rt, Decision::Cancelled);
    slot.has(&rt, 0);
    slot.renews(&rt, 1, Renew::Began(Some(Decision::Cancelled)));
    slot.cancel(&rt, second, Cancel::Other);
}

// A slot is used again a million times.
#[test]
fn a_slot_is_renewed_often(rt: HostRuntime) {
    let mut slot = Slot::open(&rt, rt.alloc());
    for _ in 0..1_000_000u32 {
        slot.renews(&rt, 5, Renew::Began(None));
    }
    is(
        &rt,
        slot.ticket().number,
        (1_000_000 * 32_768 + 5) * 16_384 + 1,
    );
    slot.takes(&rt);
    slot.has(&rt, 5);
}

// In a batch no slot is used again, and the request goes on.
#[test]
fn a_batch_is_spent(rt: HostRuntime) {
    let Ok((gate, _desk, mut passes, _stations)) = Gate::open(
        rt.alloc(),
        4,
        &[1, 2],
        0,
        Response::Queue,
    ) else {
        panic!(rt; "opens")
    };
    let Some(pass) = passes.pop() else {
        panic!(rt; "a Pass")
    };
    let mut request = Request::new(pass);
    is(&rt, request.renew(&gate, 3), Some(Renew::Spent));
    is(&rt, request.take(&gate), Some(TryTake::Taken));
}

// A gate knows the tickets of its own slots, up to the last number, and no others.
#[test]
fn a_gate_knows_its_tickets(rt: HostRuntime) {
    let slot = Slot::open(&rt, rt.alloc());
    let last = 1u128 << 75;
    for (number, known) in [
        (0, true),
        (1, true),
        (2, false),
        (16_384, true),
        (16_386, false),
        (last - 16_384, true),
        (last, false),
    ] {
        is(&rt, slot.gate.knows(Ticket { number }), known);
    }
}

// The request waits, is cancelled, and leaves. It hears so, and the next request of its slot begins.
fn strike<R: Abort>(
    rt: &R,
    gate: &Gate<Global>,
    desk: &mut Desk,
    pass: &mut Pass,
    station: &mut Station,
)
    requires own_desk { desk_gate desk.old ≡ gate.now }
    requires own_pass { pass_gate pass.old ≡ gate.now }
    requires own_station { station_gate station.old ≡ gate.now }
    requires queues { gate.now.shape.response ≡ Queue }
    requires fresh { pass.old.pass.state ≡ Fresh }
    requires idle { (desk.old.desk.services ≡ []) × (desk.old.desk.held ≡ None) }
{
    let ticket = pass.ticket();
    let None = gate.ask(pass) else {
        panic!(rt; "undecided")
    };
    let TryEnter::Entered = gate.try_enter(desk, pass) else {
        panic!(rt; "enters")
    };
    is(
        rt,
        gate.cancel(station, ticket),
        Cancel::Is(Decision::Cancelled),
    );
    let Some(Decision::Cancelled) = gate.seen(desk, ticket.number) else {
        panic!(rt; "seen")
    };
    gate.leave(desk, ticket.number);
    let Some(Decision::Cancelled) = gate.hear(desk, pass) else {
        panic!(rt; "heard")
    };
    is(
        rt,
        gate.renew(pass, 1, 7, 20),
        Renew::Began(Some(Decision::Cancelled)),
    );
    is(rt, gate.cancel(station, ticket), Cancel::Other);
    is(rt, gate.look(station).waiters(), 0);
}

#[test]
fn a_struck_request_is_renewed(rt: HostRuntime) {
    let opened = Gate::open_for_life(rt.alloc(), 1, &[1], 1, Response::Queue);
    let Ok((gate, mut desk, mut passes, mut stations)) = opened else {
        panic!(rt; "opens")
    };
    let (Some(mut pass), Some(mut station)) = (passes.pop(), stations.pop()) else {
        panic!(rt; "tokens")
    };
    strike(&rt, &gate, &mut desk, &mut pass, &mut station);
}
