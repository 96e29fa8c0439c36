//! Many requests over a few slots, one after another. Each event is read as it comes, and what requests took is told. The
//! plain programs judge the whole log, of all requests that ever were.

ghost use Rattle.std.specs.Prelude.{◌≡◌, ◌<◌, ◌≤◌, length, All};
ghost use Rattle.apf_model.specs.declared.response.Response.TheVariants.{Queue};
ghost use Rattle.apf_gate.specs.declared.record.State.TheVariants.{Fresh};
ghost use Rattle.apf_gate.specs.Tokens.{pass_gate, station_gate, desk_gate};
ghost use Rattle.apf_book.specs.Life.{sizes_of};
ghost use Rattle.apf_book.specs.LifeCalls.{IsLifeDeskFor};

use crate::life::plainly::{Happening, Plain};
use crate::life::tenant::{Stage, Tenant};
use crate::marks::Mark;
use apf_book::{Config, LifeBook, LifeEvent, Response, Settling};
use apf_flow::Dealer;
use apf_gate::{Cancel, Gate, Opened, Pass, Station, Ticket};
use apf_model::Event;
use apf_plain::{is_fair, is_legal, names_queues, names_requests, stats_of};
use apf_words::Decision;
use std::alloc::Global;
use std::marker::Brand;
use std::process::Abort;
use std::sync::Wait;

const SLOTS: u32 = 5;

const QUEUES: u32 = 3;

const LENGTH: u32 = 1;

// A stream of numbers that look drawn.
#[derive(Clone, Copy)]
struct Draw {
    state: u64,
}

impl Draw {
    // A number below this one.
    fn below(&mut self, most: u32) -> u32
        requires { 0 < most }
        ensures { result < most }
    {
        self.state = self
            .state
            .wrapping_mul(6_364_136_223_846_793_005)
            .wrapping_add(1_442_695_040_888_963_407);
        ((self.state >> 33) as u32) % most
    }
}

// All that ever came: each request's ticket, cost and hand of two queues, by its place among the requests, and the
// log of them, the oldest event first.
#[derive(Drop)]
struct Past {
    tickets: Vec<Ticket>,
    costs: Vec<u32>,
    hands: Vec<u32>,
    log: Vec<Event>,
    // the same, with what requests took
    happened: Vec<Happening>,
    // how many of each kind were told to callers
    executed: u64,
    cancelled: u64,
    full: u64,
}

impl Past {
    fn new(alloc: Global) -> Past {
        Past {
            tickets: Vec::new(alloc),
            costs: Vec::new(alloc),
            hands: Vec::new(alloc),
            log: Vec::new(alloc),
            happened: Vec::new(alloc),
            executed: 0,
            cancelled: 0,
            full: 0,
        }
    }

    // A request more.
    fn comes<R: Abort>(&mut self, rt: &R, ticket: Ticket, cost: u32, hand: &[u32]) {
        let Ok(()) = self.tickets.push(ticket) else {
            panic!(rt; "memory")
        };
        let Ok(()) = self.costs.push(cost) else {
            panic!(rt; "memory")
        };
        let Ok(()) = self.hands.extend_from_slice(hand) else {
            panic!(rt; "memory")
        };
    }

    // The place of a request among all.
    fn place<R: Abort>(&self, rt: &R, ticket: Ticket) -> u32 {
        let Some(place) = self.tickets.iter().position(|one| *one == ticket) else {
            panic!(rt; "an event of nobody")
        };
        let Ok(place) = u32::try_from(place) else {
            panic!(rt; "many requests")
        };
        place
    }

    // The event, of a request by its place.
    fn event<R: Abort>(&self, rt: &R, event: LifeEvent) -> Event {
        match event {
            LifeEvent::Enter(ticket, queue) => Event::Enter(self.place(rt, ticket), queue),
            LifeEvent::Full(ticket, queue) => Event::Full(self.place(rt, ticket), queue),
            LifeEvent::Dispatch(ticket, queue) => Event::Dispatch(self.place(rt, ticket), queue),
            LifeEvent::Strike(ticket, queue) => Event::Strike(self.place(rt, ticket), queue),
        }
    }

    // An event more.
    fn happens<R: Abort>(&mut self, rt: &R, event: LifeEvent) {
        let event = self.event(rt, event);
        let Ok(()) = self.log.push(event) else {
            panic!(rt; "memory")
        };
        self.is_told(rt, Happening::Event(event));
    }

    fn is_told<R: Abort>(&mut self, rt: &R, what: Happening) {
        let Ok(()) = self.happened.push(what) else {
            panic!(rt; "memory")
        };
    }

    // The plain programs judge the log: it is of these requests and queues, legal by their hands, and each choice is by
    // what the queues were charged. Tells whether it is fair by the costs alone, and how many charges were settled and grew.
    fn judge<R: Abort>(&self, rt: &R, alloc: Global) -> (bool, u32, u32) {
        let Ok(mut plain) = Plain::new(alloc, QUEUES, self.costs.as_slice()) else {
            panic!(rt; "memory")
        };
        for what in self.happened.iter() {
            plain.happens(rt, *what);
        }
        (self.is_fair(rt, alloc), plain.settled, plain.grown)
    }

    fn is_fair<R: Abort>(&self, rt: &R, alloc: Global) -> bool {
        let Ok(mut history) = self.log.to_vec(alloc) else {
            panic!(rt; "memory")
        };
        history.reverse();
        let history = history.as_slice();
        let few = history.len() < 1000 && self.costs.len() < 1000;
        assert!(rt; few);
        assert!(rt; names_requests(self.costs.len() as u32, history));
        let of_queues = names_queues(QUEUES, history);
        assert!(rt; of_queues);
        let fair = is_fair(
            alloc,
            QUEUES,
            self.costs.as_slice(),
            self.hands.as_slice(),
            2,
            LENGTH,
            history,
        );
        let hands = self.hands.as_slice();
        let legal = is_legal(alloc, hands, 2, LENGTH, history);
        assert_eq!(rt; legal, Ok(true));
        fair == Ok(true)
    }
}

// A level of the gate that the marker names, with one Station.
#[derive(Drop)]
struct Level<K: Mark> {
    gate: Gate<Global>,
    book: LifeBook<Global>,
    tenants: Vec<Tenant<K>>,
    station: Station,
    dealer: Dealer,
    ghost gate_is: { gate ≡ K.gate },
    ghost has_queues: { K.gate.shape.response ≡ Queue },
    ghost desk_is: { desk_gate book.desk ≡ K.gate },
    ghost sizes_are: { sizes_of book.queues ≡ dealer },
    ghost station_is: { station_gate station ≡ K.gate },
    ghost some_slots: { length tenants.items ≡ 5 },
}

// The tenants of these Passes, in their order.
fn tenants_of<K: Mark, R: Abort>(rt: &R, alloc: Global, mut passes: Vec<Pass>) -> Vec<Tenant<K>>
    requires { All (λ t. (pass_gate t ≡ K.gate) × (t.pass.state ≡ Fresh)) passes.items }
    ensures { length result.items ≡ length passes.items }
{
    let mut tenants = Vec::new(alloc);
    while let Some(pass) = passes.pop() {
        let Ok(()) = tenants.push(Tenant::new(pass)) else {
            panic!(rt; "memory")
        };
    }
    tenants.reverse();
    tenants
}

impl<K: Mark> Level<K> {
    fn of(
        gate: Gate<Global>,
        book: LifeBook<Global>,
        tenants: Vec<Tenant<K>>,
        station: Station,
        dealer: Dealer,
    ) -> Level<K>
        requires gate { gate ≡ K.gate }
        requires has_queues { K.gate.shape.response ≡ Queue }
        requires desk { desk_gate book.desk ≡ K.gate }
        requires sizes { sizes_of book.queues ≡ dealer }
        requires station { station_gate station ≡ K.gate }
        requires slots { length tenants.items ≡ 5 }
    {
        Level {
            gate,
            book,
            tenants,
            station,
            dealer,
        }
    }

    // The slot goes on to its next request, whose width, flow and cost are drawn.
    fn renew(&mut self, draw: &mut Draw, slot: usize) -> Option<Decision>
        requires { slot < 5 }
    {
        let width = 1 + draw.below(3);
        let hash = u64::from(draw.below(1_000_000)).wrapping_mul(0x9E37_79B9_7F4A_7C15);
        let cost = 1 + draw.below(4);
        self.tenants[slot].renew(&self.gate, width, hash, cost)
    }

    // A request of the slot arrives, if it did not. Its hand has two queues.
    fn arrive<R: Wait + Abort>(&mut self, rt: &R, past: &mut Past, draw: &mut Draw, slot: usize)
        requires { slot < 5 }
    {
        if self.tenants[slot].stage() == Stage::Free {
            self.renew(draw, slot);
        }
        if self.tenants[slot].stage() != Stage::Fresh {
            return;
        }
        let (hash, cost) = self.tenants[slot].asks();
        past.comes(
            rt,
            self.tenants[slot].ticket(),
            cost,
            self.dealer.deal(hash).as_slice(),
        );
        let arrived = self.tenants[slot].arrive(rt, &self.gate, &mut self.book, &self.dealer);
        assert!(rt; arrived.is_some());
    }

    // The slot's request has taken so much, if it executes.
    fn has_taken<R: Abort>(&mut self, rt: &R, past: &mut Past, draw: &mut Draw, slot: usize)
        requires { slot < 5 }
    {
        let amount = u64::from(draw.below(9));
        let ticket = self.tenants[slot].ticket();
        if let Some(said) = self.tenants[slot].has_taken(&mut self.book, amount) {
            let request = past.place(rt, ticket);
            past.is_told(rt, Happening::HasTaken(request, amount, said));
        }
    }

    // The slot's request ends, if it executes: one of four is not measured.
    fn ends<R: Abort>(&mut self, rt: &R, past: &mut Past, draw: &mut Draw, slot: usize)
        requires { slot < 5 }
    {
        if draw.below(4) == 0 {
            self.tenants[slot].finish(&self.gate);
            return;
        }
        let amount = u64::from(draw.below(13));
        let ticket = self.tenants[slot].ticket();
        let settled = self.tenants[slot].finish_measured(&self.gate, &mut self.book, amount);
        if let Some(said) = settled {
            let request = past.place(rt, ticket);
            past.is_told(rt, Happening::Took(request, amount, said));
        }
    }

    // Whoever waits in the slot sees its decision, and one that is over is renewed.
    fn goes_on<R: Abort>(&mut self, rt: &R, past: &mut Past, draw: &mut Draw, slot: usize)
        requires { slot < 5 }
    {
        self.tenants[slot].look(&self.gate, &mut self.book);
        if draw.below(2) == 0 {
            self.has_taken(rt, past, draw, slot);
        }
        if draw.below(2) == 0 {
            self.ends(rt, past, draw, slot);
        }
        if !self.tenants[slot].is_over() {
            return;
        }
        match self.renew(draw, slot) {
            Some(Decision::Execute) => past.executed = past.executed.wrapping_add(1),
            Some(Decision::Cancelled) => past.cancelled = past.cancelled.wrapping_add(1),
            Some(Decision::QueueFull) => past.full = past.full.wrapping_add(1),
            _ => panic!(rt; "decided otherwise"),
        }
    }

    // A request is cancelled by its ticket: the slot's present one, or any that was there before.
    fn cancel<R: Abort>(&mut self, rt: &R, past: &Past, draw: &mut Draw, slot: usize)
        requires { slot < 5 }
    {
        let present = self.tenants[slot].ticket();
        let Ok(count) = u32::try_from(past.tickets.len()) else {
            panic!(rt; "many requests")
        };
        if count == 0 || draw.below(2) == 0 {
            self.gate.cancel(&mut self.station, present);
            if draw.below(2) == 0 {
                self.book.strike(&self.gate, present);
            }
            return;
        }
        let Some(ticket) = past.tickets.get(draw.below(count) as usize) else {
            panic!(rt; "no ticket")
        };
        if !self.gate.knows(*ticket) {
            panic!(rt; "a ticket of nobody");
        }
        if ticket.slot() == present.slot() && *ticket != present {
            let answer = self.gate.cancel(&mut self.station, *ticket);
            assert_eq!(rt; answer, Cancel::Other);
        }
    }

    // The events that came since are read, four at a time.
    fn read<R: Abort>(&self, rt: &R, past: &mut Past) {
        let mut room = [LifeEvent::Enter(Ticket::of(0), 0); 4];
        for _turn in 0..10 {
            let from = past.log.len() as u64;
            let copied = self.book.copy_events(from, &mut room);
            assert_eq!(rt; copied.from, from);
            for event in room.iter().take(copied.count) {
                past.happens(rt, *event);
            }
        }
        assert_eq!(rt; self.book.events(), past.log.len() as u64);
    }

    // Who comes too late is told how much it missed: two events of each slot are kept.
    fn read_late<R: Abort>(&self, rt: &R, past: &Past) {
        let mut room = [LifeEvent::Enter(Ticket::of(0), 0); 16];
        let copied = self.book.copy_events(0, &mut room);
        let count = past.log.len();
        assert_eq!(rt; copied.count, count.min(10));
        assert_eq!(rt; copied.from, count.saturating_sub(10) as u64);
        for (place, event) in room.iter().take(copied.count).enumerate() {
            let wanted = past.log.get(count.saturating_sub(10) + place);
            assert_eq!(rt; Some(&past.event(rt, *event)), wanted);
        }
    }

    // The numbers of the book are those that the plain program counts, and add up with what was told.
    fn count<R: Abort>(&self, rt: &R, alloc: Global, past: &Past) {
        let Ok(mut history) = past.log.to_vec(alloc) else {
            panic!(rt; "memory")
        };
        history.reverse();
        let history = history.as_slice();
        let of_queues = history.len() < 1000 && names_queues(QUEUES, history);
        assert!(rt; of_queues);
        let Ok(counted) = stats_of(alloc, QUEUES, history) else {
            panic!(rt; "memory")
        };
        let stats = self.book.stats();
        assert_eq!(rt; stats.entered, counted.entered);
        assert_eq!(rt; stats.dispatched, counted.dispatched);
        assert_eq!(rt; stats.struck, counted.struck);
        assert_eq!(rt; stats.full, counted.full);
        assert_eq!(rt; past.full <= stats.full, true);
        assert_eq!(rt; past.executed <= stats.dispatched, true);
    }

    // One step of one slot, and whoever fits is dispatched.
    fn step<R: Wait + Abort>(&mut self, rt: &R, past: &mut Past, draw: &mut Draw) {
        let slot = draw.below(SLOTS) as usize;
        match draw.below(4) {
            0 | 1 => self.arrive(rt, past, draw, slot),
            2 => self.goes_on(rt, past, draw, slot),
            _ => self.cancel(rt, past, draw, slot),
        }
        self.book.dispatch(rt, &self.gate);
        self.read(rt, past);
    }
}

fn play<K: Mark, R: Wait + Abort>(
    rt: &R,
    alloc: Global,
    config: &Config,
    seed: u32,
    opened: Opened<Global>,
) -> Past
    requires gate { opened.0 ≡ K.gate }
    requires has_queues { opened.0.shape.response ≡ Queue }
    requires desk { (desk_gate opened.1 ≡ opened.0) × IsLifeDeskFor 5 opened.1 }
    requires passes { All (λ t. (pass_gate t ≡ opened.0) × (t.pass.state ≡ Fresh)) opened.2.items }
    requires stations { All (λ t. station_gate t ≡ opened.0) opened.3.items }
    requires counts { (length opened.2.items ≡ 5) × (length opened.3.items ≡ 1) }
{
    let (gate, desk, passes, mut stations) = opened;
    let Some(station) = stations.pop() else {
        unreachable!()
    };
    desk.is_of_a_gate();
    let Ok(book) = LifeBook::new(alloc, config, SLOTS, desk, Settling::Told) else {
        panic!(rt; "no book")
    };
    let Ok(dealer) = Dealer::new(config.queues, config.hand_size) else {
        panic!(rt; "no dealer")
    };
    let mut level = Level::<K>::of(gate, book, tenants_of(rt, alloc, passes), station, dealer);
    let mut past = Past::new(alloc);
    let mut draw = Draw {
        state: u64::from(seed),
    };
    for _step in 0..120 {
        level.step(rt, &mut past, &mut draw);
    }
    level.read_late(rt, &past);
    level.count(rt, alloc, &past);
    past
}

// A level whose numbers are drawn from this seed.
fn run<R: Wait + Abort>(rt: &R, alloc: Global, config: &Config, seed: u32) -> Past {
    let Ok(opened) = Gate::open_for_life(alloc, 3, &[1, 1, 2, 1, 3], 1, Response::Queue) else {
        panic!(rt; "no gate")
    };
    play::<Brand, R>(rt, alloc, config, seed, opened)
}

// Every request of many levels, each of five slots: some wait, are dispatched, struck and refused, and late cancels
// find others. What most of them took is settled, so that some choices are others than by the costs alone.
#[test]
fn the_log_of_all_requests_is_fair(rt: HostRuntime) {
    let alloc = rt.alloc();
    let config = Config {
        limit: 3,
        queues: QUEUES,
        hand_size: 2,
        queue_length_limit: LENGTH,
        limit_response: Response::Queue,
    };
    let mut kinds = [0u32; 7];
    for seed in 0..30 {
        let past = run(&rt, alloc, &config, seed);
        let (fair, settled, grown) = past.judge(&rt, alloc);
        if !fair {
            kinds[4] = kinds[4].wrapping_add(7);
        }
        kinds[5] = kinds[5].wrapping_add(settled);
        kinds[6] = kinds[6].wrapping_add(grown);
        for event in past.log.iter() {
            let kind = match event {
                Event::Enter(_, _) => 0,
                Event::Full(_, _) => 1,
                Event::Dispatch(_, _) => 2,
                Event::Strike(_, _) => 3,
            };
            kinds[kind] = kinds[kind].wrapping_add(1);
        }
    }
    for kind in kinds {
        assert!(&rt; kind > 20, "{kind} of one kind of {kinds:?}");
    }
}
