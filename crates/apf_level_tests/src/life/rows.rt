//! Worked calls over a few slots.

ghost use Rattle.std.specs.Prelude.{◌≡◌, ◌<◌, ◌≤◌, length};
ghost use Rattle.apf_words.specs.Limits.{max_width};
ghost use Rattle.apf_gate.specs.Slots.{IsTicket};
ghost use Rattle.apf_session.specs.LifeOpenings.{level_of, level_settling};

use crate::asserts::is;
use apf_book::LifeEvent;
use apf_gate::{Cancel, Close, Ticket};
use apf_level::life::{Naming, Report};
use apf_model::{Ask, Config, Response};
use apf_session::life::{Answer, Opening, Place, Session, Settling};
use apf_words::Decision;
use std::alloc::Global;
use std::marker::Brand;
use std::process::Abort;
use std::sync::Wait;

const ONE: Ask = Ask { width: 1, hash: 7 };

// One seat and one queue with two places.
fn settings(limit_response: Response) -> Config {
    Config {
        limit: 1,
        queues: 1,
        hand_size: 1,
        queue_length_limit: 2,
        limit_response,
    }
}

// Opens a level of four slots with one operator.
fn open<R: Abort>(rt: &R, alloc: Global, response: Response) -> Opening
    ensures slots { result.gate.shape.slots ≡ 4 }
    ensures stations { result.gate.shape.stations ≡ 1 }
{
    let Ok(opening) = Opening::new(alloc, &settings(response), 4, 1) else {
        panic!(rt; "opens")
    };
    opening
}

fn ended<K: Naming, R: Wait + Abort>(rt: &R, alloc: Global, session: Session<K>) -> Report
    ensures { length result.words.decisions ≡ K.level.gate.shape.slots }
{
    let Ok(report) = session.end(rt, alloc) else {
        panic!(rt; "memory")
    };
    report
}

// The calls of a session, each of which asserts its own answer. Their contracts say no more than when a call may be made,
// so that what one call leaves behind is in no other call's proof.

// The next request of the slot takes a seat at once.
fn runs<K: Naming, R: Wait + Abort>(rt: &R, session: &mut Session<K>, slot: u32, ask: Ask)
    requires is_slot { slot < K.level.gate.shape.slots }
    requires some_width { 1 ≤ ask.width }
    requires narrow { ask.width ≤ max_width }
{
    let answer = session.arrive_with_event(rt, slot, ask);
    is(rt, answer, (Answer::Run, None));
}

// The next request of the slot comes to wait, by the call that tells no event.
fn waits<K: Naming, R: Wait + Abort>(rt: &R, session: &mut Session<K>, slot: u32)
    requires { slot < K.level.gate.shape.slots }
{
    is(rt, session.arrive(rt, slot, ONE), Answer::Waits);
}

// The next request of the slot enters this queue, and its event says so. Tells its ticket.
fn enters<K: Naming, R: Wait + Abort>(
    rt: &R,
    session: &mut Session<K>,
    slot: u32,
    ask: Ask,
    queue: u32,
) -> Ticket
    requires is_slot { slot < K.level.gate.shape.slots }
    requires some_width { 1 ≤ ask.width }
    requires narrow { ask.width ≤ max_width }
    ensures { IsTicket K.level.gate.shape result.number }
{
    let (answer, event) = session.arrive_with_event(rt, slot, ask);
    let ticket = session.ticket(slot);
    is(rt, answer, Answer::Waits);
    is(rt, event, Some(LifeEvent::Enter(ticket, queue)));
    ticket
}

// The next request of the slot is turned away, and the history gets no event by it.
fn refused<K: Naming, R: Wait + Abort>(
    rt: &R,
    session: &mut Session<K>,
    slot: u32,
    decision: Decision,
)
    requires { slot < K.level.gate.shape.slots }
{
    let answer = session.arrive_with_event(rt, slot, ONE);
    is(rt, answer, (Answer::Over(decision), None));
}

// The next request of the slot finds this queue full, and its event says so.
fn finds_full<K: Naming, R: Wait + Abort>(rt: &R, session: &mut Session<K>, slot: u32, queue: u32)
    requires { slot < K.level.gate.shape.slots }
{
    let (answer, event) = session.arrive_with_event(rt, slot, ONE);
    let ticket = session.ticket(slot);
    is(rt, answer, Answer::Over(Decision::QueueFull));
    is(rt, event, Some(LifeEvent::Full(ticket, queue)));
}

// The next request of the slot only tries.
fn tries<K: Naming, R: Wait + Abort>(rt: &R, session: &mut Session<K>, slot: u32, answer: Answer)
    requires { slot < K.level.gate.shape.slots }
{
    is(rt, session.try_arrive(rt, slot, ONE), answer);
}

fn polls<K: Naming, R: Wait + Abort>(rt: &R, session: &mut Session<K>, slot: u32, answer: Answer)
    requires { slot < K.level.gate.shape.slots }
{
    is(rt, session.poll(rt, slot), answer);
}

// The request of the slot gives its seats back. Others waited, or not.
fn ends<K: Naming, R: Wait + Abort>(rt: &R, session: &mut Session<K>, slot: u32, others: bool)
    requires { slot < K.level.gate.shape.slots }
{
    is(rt, session.finish(rt, slot), Answer::Released(others));
}

// The request of the slot ends after this many microseconds.
fn ends_after<K: Naming, R: Wait + Abort>(
    rt: &R,
    session: &mut Session<K>,
    slot: u32,
    micros: u64,
    answer: Answer,
)
    requires { slot < K.level.gate.shape.slots }
{
    is(rt, session.finish_measured(rt, slot, micros), answer);
}

fn cancels<K: Naming, R: Wait + Abort>(
    rt: &R,
    session: &mut Session<K>,
    ticket: Ticket,
    answer: Cancel,
)
    requires is_request { IsTicket K.level.gate.shape ticket.number }
    requires operator { 0 < K.level.gate.shape.stations }
{
    is(rt, session.cancel(rt, ticket), answer);
}

fn closes<K: Naming, R: Wait + Abort>(rt: &R, session: &mut Session<K>)
    requires { 0 < K.level.gate.shape.stations }
{
    is(rt, session.close(), Close::First);
}

// What names the request that holds the slot.
fn ticket_of<K: Naming>(session: &Session<K>, slot: u32) -> Ticket
    requires { slot < K.level.gate.shape.slots }
    ensures { IsTicket K.level.gate.shape result.number }
{
    session.ticket(slot)
}

fn is_free<K: Naming, R: Abort>(rt: &R, session: &Session<K>, slot: u32)
    requires { slot < K.level.gate.shape.slots }
{
    assert!(rt; session.slots[slot as usize].place() == Place::Free);
}

// Copies the events from this number on. It is told from which one on they stand there, and how many.
fn copies<K: Naming, R: Wait + Abort>(
    rt: &R,
    session: &Session<K>,
    from: u64,
    room: &mut [LifeEvent],
    told: (u64, usize),
)
    ensures { length room.new ≡ length room.old }
{
    let copied = session.level.lock(rt).copy_events(from, room);
    is(rt, (copied.from, copied.count), told);
}

// A level of this opening, in which nothing happened yet.
fn begun<K: Naming, R: Wait + Abort>(rt: &R, alloc: Global, opening: Opening) -> Session<K>
    requires { K.level ≡ level_of opening.gate opening.config }
{
    let Ok(session) = Session::<K>::open_for_life(rt, alloc, opening) else {
        panic!(rt; "opens")
    };
    session
}

// The slot 0 is held by three requests, one after another, of which the second one waits and is dispatched. A cancel
// by the ticket of the first one finds another.
fn one_after_another<K: Naming, R: Wait + Abort>(rt: &R, alloc: Global, opening: Opening)
    requires level { K.level ≡ level_of opening.gate opening.config }
    requires slots { opening.gate.shape.slots ≡ 4 }
    requires stations { opening.gate.shape.stations ≡ 1 }
{
    let mut session = begun::<K, R>(rt, alloc, opening);
    runs(rt, &mut session, 0, ONE);
    let first = ticket_of(&session, 0);
    is(rt, first.number, (32_768 + 1) * 16_384);
    ends(rt, &mut session, 0, false);
    runs(rt, &mut session, 1, ONE);
    let wide = Ask { width: 5, hash: 9 };
    let second = enters(rt, &mut session, 0, wide, 0);
    is(rt, second.number, (2 * 32_768 + 5) * 16_384);
    cancels(rt, &mut session, first, Cancel::Other);
    polls(rt, &mut session, 0, Answer::Waits);
    ends(rt, &mut session, 1, true);
    polls(rt, &mut session, 0, Answer::Run);
    ends(rt, &mut session, 0, false);
    runs(rt, &mut session, 0, ONE);
    let report = ended(rt, alloc, session);
    is(rt, report.words.counts().executed, 4);
    is(rt, report.words.decision(0), Some(Decision::Execute));
    is(rt, report.words.decision(3), None);
    let events = [LifeEvent::Enter(second, 0), LifeEvent::Dispatch(second, 0)];
    is(rt, report.newest.events.as_slice(), events.as_slice());
}

// A request that is cancelled while it waits is struck, and its slot goes on. Who comes after the close is told so,
// and whoever finds the queue full.
fn struck_full_and_closed<K: Naming, R: Wait + Abort>(rt: &R, alloc: Global, opening: Opening)
    requires level { K.level ≡ level_of opening.gate opening.config }
    requires slots { opening.gate.shape.slots ≡ 4 }
    requires stations { opening.gate.shape.stations ≡ 1 }
{
    let mut session = begun::<K, R>(rt, alloc, opening);
    runs(rt, &mut session, 0, ONE);
    waits(rt, &mut session, 1);
    waits(rt, &mut session, 2);
    finds_full(rt, &mut session, 3, 0);
    let struck = ticket_of(&session, 1);
    cancels(rt, &mut session, struck, Cancel::Is(Decision::Cancelled));
    polls(rt, &mut session, 1, Answer::Over(Decision::Cancelled));
    waits(rt, &mut session, 1);
    closes(rt, &mut session);
    refused(rt, &mut session, 3, Decision::Closed);
    ends(rt, &mut session, 0, true);
    polls(rt, &mut session, 2, Answer::Run);
    ends(rt, &mut session, 2, true);
    polls(rt, &mut session, 1, Answer::Run);
    let stats = session.level.lock(rt).stats();
    is(
        rt,
        (stats.entered, stats.dispatched, stats.struck, stats.full),
        (3, 2, 1, 1),
    );
    let report = ended(rt, alloc, session);
    let counts = report.words.counts();
    is(
        rt,
        (
            counts.executed,
            counts.queue_full,
            counts.closed,
            counts.cancelled,
        ),
        (3, 1, 1, 1),
    );
}

// A reader that comes too late is told how much it missed: of four slots the newest eight events are kept.
fn late_reader<K: Naming, R: Wait + Abort>(rt: &R, alloc: Global, opening: Opening)
    requires level { K.level ≡ level_of opening.gate opening.config }
    requires slots { opening.gate.shape.slots ≡ 4 }
    requires stations { opening.gate.shape.stations ≡ 1 }
{
    let mut session = begun::<K, R>(rt, alloc, opening);
    for _round in 0..10 {
        runs(rt, &mut session, 0, ONE);
        waits(rt, &mut session, 1);
        ends(rt, &mut session, 0, true);
        polls(rt, &mut session, 1, Answer::Run);
        ends(rt, &mut session, 1, false);
    }
    let mut room = [LifeEvent::Full(Ticket::of(0), 0); 16];
    let newest = ticket_of(&session, 1);
    copies(rt, &session, 3, &mut room, (12, 8));
    is(rt, room[7], LifeEvent::Dispatch(newest, 0));
    copies(rt, &session, 19, &mut room, (19, 1));
    is(rt, room[0], LifeEvent::Dispatch(newest, 0));
    let report = ended(rt, alloc, session);
    is(rt, report.newest.from, 12);
    is(rt, report.words.counts().executed, 20);
}

// On a level without queues nobody waits.
fn rejected<K: Naming, R: Wait + Abort>(rt: &R, alloc: Global, opening: Opening)
    requires level { K.level ≡ level_of opening.gate opening.config }
    requires slots { opening.gate.shape.slots ≡ 4 }
    requires stations { opening.gate.shape.stations ≡ 1 }
{
    let mut session = begun::<K, R>(rt, alloc, opening);
    runs(rt, &mut session, 0, ONE);
    for _round in 0..3 {
        refused(rt, &mut session, 1, Decision::ConcurrencyLimit);
    }
    ends(rt, &mut session, 0, false);
    runs(rt, &mut session, 1, ONE);
    let report = ended(rt, alloc, session);
    let counts = report.words.counts();
    is(rt, (counts.executed, counts.concurrency_limit), (2, 3));
    is(rt, report.newest.events.len(), 0);
}

// One that only tries never waits, and is not counted where it is busy.
fn tried<K: Naming, R: Wait + Abort>(rt: &R, alloc: Global, opening: Opening)
    requires level { K.level ≡ level_of opening.gate opening.config }
    requires slots { opening.gate.shape.slots ≡ 4 }
    requires stations { opening.gate.shape.stations ≡ 1 }
{
    let mut session = begun::<K, R>(rt, alloc, opening);
    tries(rt, &mut session, 0, Answer::Run);
    tries(rt, &mut session, 1, Answer::Busy);
    is_free(rt, &session, 1);
    tries(rt, &mut session, 0, Answer::Wrong);
    ends(rt, &mut session, 0, false);
    closes(rt, &mut session);
    tries(rt, &mut session, 1, Answer::Tried(Decision::Closed, false));
    let report = ended(rt, alloc, session);
    let counts = report.words.counts();
    is(rt, (counts.executed, counts.closed), (1, 1));
    is(rt, counts.cancelled, 0);
}

// One seat and two queues, which two flows enter, two requests each, after one that takes the seat. Where what requests
// take is settled, a long one of the first flow lets both of the other flow go before its flow's next one; else the flows
// take turns. The one that took the seat on arrival is never charged.
fn by_time<K: Naming, R: Wait + Abort>(
    rt: &R,
    alloc: Global,
    opening: Opening,
    settling: Settling,
    third: u32,
)
    requires level { K.level ≡ level_settling opening.gate opening.config settling }
    requires slots { opening.gate.shape.slots ≡ 5 }
    requires stations { opening.gate.shape.stations ≡ 1 }
    requires third { third < 5 }
{
    let Ok(mut session) = Session::<K>::open_settling(rt, alloc, opening, settling) else {
        panic!(rt; "opens")
    };
    let one = Ask { width: 1, hash: 0 };
    let other = Ask { width: 1, hash: 1 };
    ends_after(rt, &mut session, 0, 1, Answer::Wrong);
    runs(rt, &mut session, 0, one);
    for (slot, ask, queue) in [(1, one, 0), (2, one, 0), (3, other, 1), (4, other, 1)] {
        enters(rt, &mut session, slot, ask, queue);
    }
    ends_after(rt, &mut session, 1, 1, Answer::Wrong);
    ends_after(rt, &mut session, 0, 1000, Answer::Released(true));
    polls(rt, &mut session, 1, Answer::Run);
    ends_after(rt, &mut session, 1, 100, Answer::Released(false));
    polls(rt, &mut session, 3, Answer::Run);
    ends_after(rt, &mut session, 3, 3, Answer::Released(false));
    polls(rt, &mut session, third, Answer::Run);
    let report = ended(rt, alloc, session);
    is(rt, report.words.counts().executed, 4);
}

// Opens a level of five slots for that.
fn open_two_queues<R: Abort>(rt: &R, alloc: Global) -> Opening
    ensures slots { result.gate.shape.slots ≡ 5 }
    ensures stations { result.gate.shape.stations ≡ 1 }
{
    let config = Config {
        limit: 1,
        queues: 2,
        hand_size: 1,
        queue_length_limit: 10,
        limit_response: Response::Queue,
    };
    let Ok(opening) = Opening::new(alloc, &config, 5, 1) else {
        panic!(rt; "opens")
    };
    opening
}

// What a level answers to one call after another.
#[derive(Clone, Copy)]
enum Row {
    OneAfterAnother,
    StruckFullAndClosed,
    LateReader,
    Rejected,
    Tried,
    ByTime,
    ByCosts,
}

fn play<R: Wait + Abort>(rt: &R, alloc: Global, row: Row) {
    match row {
        Row::OneAfterAnother => {
            let opening = open(rt, alloc, Response::Queue);
            one_after_another::<Brand, R>(rt, alloc, opening)
        }
        Row::StruckFullAndClosed => {
            let opening = open(rt, alloc, Response::Queue);
            struck_full_and_closed::<Brand, R>(rt, alloc, opening)
        }
        Row::LateReader => {
            let opening = open(rt, alloc, Response::Queue);
            late_reader::<Brand, R>(rt, alloc, opening)
        }
        Row::Rejected => {
            let opening = open(rt, alloc, Response::Reject);
            rejected::<Brand, R>(rt, alloc, opening)
        }
        Row::Tried => {
            let opening = open(rt, alloc, Response::Queue);
            tried::<Brand, R>(rt, alloc, opening)
        }
        Row::ByTime => {
            let opening = open_two_queues(rt, alloc);
            by_time::<Brand, R>(rt, alloc, opening, Settling::Told, 4)
        }
        Row::ByCosts => {
            let opening = open_two_queues(rt, alloc);
            by_time::<Brand, R>(rt, alloc, opening, Settling::Never, 2)
        }
    }
}

#[test]
fn a_slot_goes_from_one_request_to_the_next(rt: HostRuntime) {
    play(&rt, rt.alloc(), Row::OneAfterAnother);
}

#[test]
fn the_struck_the_rejected_and_the_late_are_counted(rt: HostRuntime) {
    play(&rt, rt.alloc(), Row::StruckFullAndClosed);
}

#[test]
fn a_late_reader_is_told_what_it_missed(rt: HostRuntime) {
    play(&rt, rt.alloc(), Row::LateReader);
}

#[test]
fn what_a_request_took_is_settled_with_its_queue(rt: HostRuntime) {
    play(&rt, rt.alloc(), Row::ByTime);
}

#[test]
fn and_is_not_where_nothing_is_settled(rt: HostRuntime) {
    play(&rt, rt.alloc(), Row::ByCosts);
}

#[test]
fn without_queues_nobody_waits(rt: HostRuntime) {
    play(&rt, rt.alloc(), Row::Rejected);
}

#[test]
fn who_only_tries_never_waits(rt: HostRuntime) {
    play(&rt, rt.alloc(), Row::Tried);
}
