//! Many requests over a few slots, one after another. Each event is read as it comes, and the plain program judges the
//! whole history, of all requests that ever were.

ghost use Rattle.std.specs.Prelude.{◌≡◌, ◌<◌, length};
ghost use Rattle.apf_session.specs.LifeOpenings.{level_of};

use crate::asserts::is;
use crate::life::past::{HAND, LENGTH, Past, QUEUES};
use apf_book::LifeEvent;
use apf_flow::Dealer;
use apf_gate::{Cancel, Close, Ticket};
use apf_level::life::{Naming, Report};
use apf_model::{Ask, Config, Event, Response};
use apf_session::life::{Answer, Opening, Place, Session};
use apf_words::Decision;
use std::alloc::Global;
use std::marker::Brand;
use std::process::Abort;
use std::sync::Wait;

const SLOTS: u32 = 5;

const STEPS: u32 = 120;

// A stream of numbers that look drawn.
#[derive(Clone, Copy)]
struct Draw {
    state: u64,
}

impl Draw {
    // A number below this one.
    fn below(&mut self, most: u32) -> u32
        requires { 0 < most }
        ensures { result < most }
    {
        self.state = self
            .state
            .wrapping_mul(6_364_136_223_846_793_005)
            .wrapping_add(1_442_695_040_888_963_407);
        ((self.state >> 33) as u32) % most
    }
}

// The next request of a free slot arrives.
fn arrive<K: Naming, R: Wait + Abort>(
    rt: &R,
    session: &mut Session<K>,
    past: &mut Past,
    draw: &mut Draw,
    slot: u32,
)
    requires slots { K.level.gate.shape.slots ≡ 5 }
    requires slot { slot < 5 }
{
    let ask = Ask {
        width: 1 + draw.below(3),
        hash: u64::from(draw.below(7)),
    };
    if session.slots[slot as usize].place() != Place::Free {
        let (answer, event) = session.arrive_with_event(rt, slot, ask);
        is(rt, answer, Answer::Wrong);
        is(rt, event, None);
        return;
    }
    let Ok(dealer) = Dealer::new(QUEUES, HAND) else {
        panic!(rt; "deals")
    };
    let (answer, event) = session.arrive_with_event(rt, slot, ask);
    let ticket = session.ticket(slot);
    past.comes(rt, ticket, ask.width, dealer.deal(ask.hash).as_slice());
    if let Answer::Over(decision) = answer {
        past.hears(decision);
    }
    read(rt, session, past, event);
}

// Whoever waits in the slot sees its decision, and whoever executes may end.
fn go_on<K: Naming, R: Wait + Abort>(
    rt: &R,
    session: &mut Session<K>,
    past: &mut Past,
    ends: bool,
    slot: u32,
)
    requires slots { K.level.gate.shape.slots ≡ 5 }
    requires slot { slot < 5 }
{
    if let Answer::Over(decision) = session.poll(rt, slot) {
        past.hears(decision);
    }
    if ends {
        if let Answer::Released(_) = session.finish(rt, slot) {
            past.hears(Decision::Execute);
        }
    }
    read(rt, session, past, None);
}

// A request is cancelled by its ticket: the slot's present one, or any that was there before.
fn cancel<K: Naming, R: Wait + Abort>(
    rt: &R,
    session: &mut Session<K>,
    past: &mut Past,
    draw: &mut Draw,
    slot: u32,
)
    requires slots { K.level.gate.shape.slots ≡ 5 }
    requires stations { K.level.gate.shape.stations ≡ 1 }
    requires slot { slot < 5 }
{
    let present = session.ticket(slot);
    let Ok(count) = u32::try_from(past.tickets.len()) else {
        panic!(rt; "many requests")
    };
    if count == 0 || draw.below(2) == 0 {
        if session.slots[slot as usize].place() != Place::Free {
            session.cancel(rt, present);
        }
    } else {
        let Some(ticket) = past.tickets.get(draw.below(count) as usize) else {
            panic!(rt; "no ticket")
        };
        if ticket.slot() == slot && *ticket != present && session.level.knows(*ticket) {
            is(rt, session.cancel(rt, *ticket), Cancel::Other);
        }
    }
    read(rt, session, past, None);
}

// The events that came since are read, four at a time. The first of them is that of the arrival, if it had one.
fn read<K: Naming, R: Wait + Abort>(
    rt: &R,
    session: &Session<K>,
    past: &mut Past,
    event: Option<LifeEvent>,
) {
    let mut room = [LifeEvent::Enter(Ticket::of(0), 0); 4];
    let before = past.log.len();
    for _turn in 0..10 {
        let from = past.log.len() as u64;
        let copied = session.level.lock(rt).copy_events(from, &mut room);
        is(rt, copied.from, from);
        for event in room.iter().take(copied.count) {
            past.happens(rt, *event);
        }
    }
    if let Some(event) = event {
        is(rt, past.log.get(before), Some(&past.event(rt, event)));
    }
}

// One step of one slot.
fn step<K: Naming, R: Wait + Abort>(
    rt: &R,
    session: &mut Session<K>,
    past: &mut Past,
    draw: &mut Draw,
)
    requires slots { K.level.gate.shape.slots ≡ 5 }
    requires stations { K.level.gate.shape.stations ≡ 1 }
{
    let slot = draw.below(SLOTS);
    match draw.below(8) {
        0..=3 => arrive(rt, session, past, draw, slot),
        4 | 5 => go_on(rt, session, past, draw.below(2) == 0, slot),
        6 => cancel(rt, session, past, draw, slot),
        _ => {
            session.set_limit(rt, 1 + draw.below(4));
            read(rt, session, past, None);
        }
    }
}

// The requests that are there come to their ends.
fn drain<K: Naming, R: Wait + Abort>(rt: &R, session: &mut Session<K>, past: &mut Past)
    requires slots { K.level.gate.shape.slots ≡ 5 }
{
    for _turn in 0..SLOTS {
        for slot in 0..SLOTS {
            go_on(rt, session, past, true, slot);
        }
    }
    for slot in 0..SLOTS {
        assert!(rt; session.slots[slot as usize].place() == Place::Free);
    }
}

fn play<K: Naming, R: Wait + Abort>(
    rt: &R,
    alloc: Global,
    opening: Opening,
    seed: u32,
    past: &mut Past,
) -> Report
    requires level { K.level ≡ level_of opening.gate opening.config }
    requires slots { opening.gate.shape.slots ≡ 5 }
    requires stations { opening.gate.shape.stations ≡ 1 }
{
    let Ok(mut session) = Session::<K>::open_for_life(rt, alloc, opening) else {
        panic!(rt; "opens")
    };
    let mut draw = Draw {
        state: u64::from(seed),
    };
    for turn in 0..STEPS {
        step(rt, &mut session, past, &mut draw);
        if turn == 100 && seed % 3 == 0 {
            is(rt, session.close(), Close::First);
        }
    }
    drain(rt, &mut session, past);
    let Ok(report) = session.end(rt, alloc) else {
        panic!(rt; "memory")
    };
    report
}

// A level whose requests are drawn from this seed.
fn run<R: Wait + Abort>(rt: &R, alloc: Global, seed: u32, past: &mut Past) -> Report {
    let config = Config {
        limit: 3,
        queues: QUEUES,
        hand_size: HAND,
        queue_length_limit: LENGTH,
        limit_response: Response::Queue,
    };
    let Ok(opening) = Opening::new(alloc, &config, SLOTS as usize, 1) else {
        panic!(rt; "opens")
    };
    play::<Brand, R>(rt, alloc, opening, seed, past)
}

// The report has the numbers that were told, each request is counted once, and the newest events are the log's.
fn check<R: Abort>(rt: &R, report: &Report, past: &Past) {
    let counts = report.words.counts();
    is(rt, counts, past.told);
    let sum = counts
        .executed
        .wrapping_add(counts.queue_full)
        .wrapping_add(counts.closed)
        .wrapping_add(counts.cancelled);
    is(rt, sum, past.tickets.len() as u64);
    is(
        rt,
        (report.words.level().seats(), report.words.level().waiters()),
        (0, 0),
    );
    let first = past.log.len().saturating_sub(10);
    is(rt, report.newest.from, first as u64);
    is(rt, report.newest.events.len(), past.log.len() - first);
    for (place, event) in report.newest.events.iter().enumerate() {
        is(
            rt,
            past.log.get(first + place),
            Some(&past.event(rt, *event)),
        );
    }
}

// Asserts that many came too late, and that each kind of event came often.
fn came_often<R: Abort>(rt: &R, closed: u64, kinds: [u32; 4]) {
    assert!(rt; closed > 20, "{closed} came too late");
    for kind in kinds {
        assert!(rt; kind > 20, "{kind} of one kind of {kinds:?}");
    }
}

// Every request of many levels, each of five slots: some execute at once, some wait, are dispatched, struck and
// refused, some come too late, and late cancels find others.
#[test]
fn the_history_of_all_requests_is_fair(rt: HostRuntime) {
    let alloc = rt.alloc();
    let mut kinds = [0u32; 4];
    let mut closed = 0u64;
    for seed in 0..30 {
        let mut past = Past::new(alloc);
        let report = run(&rt, alloc, seed, &mut past);
        check(&rt, &report, &past);
        past.judge(&rt, alloc);
        closed = closed.wrapping_add(past.told.closed);
        for event in past.log.iter() {
            let kind = match event {
                Event::Enter(_, _) => 0,
                Event::Full(_, _) => 1,
                Event::Dispatch(_, _) => 2,
                Event::Strike(_, _) => 3,
            };
            kinds[kind] = kinds[kind].wrapping_add(1);
        }
    }
    came_often(&rt, closed, kinds);
}
