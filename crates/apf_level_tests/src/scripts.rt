//! A script with the answers that it is to have, and what the level is to tell at its end.

use crate::debts::Debts;
use crate::endings::Ending;
use crate::scenes::{Scene, run};
use apf_book::{Ask, Config, Stats};
use apf_gate::{Close, TrySetLimit};
use apf_level::{Counts, Naming};
use apf_model::Event;
use apf_session::{Answer, OpenFault, Session};
use apf_words::Decision;
use std::alloc::Global;
use std::process::Abort;
use std::sync::Wait;
use std::thread::Threads;
use std::time::Clock;

/// A call with what it is to answer.
#[derive(Clone, Copy, Debug)]
pub enum Step {
    /// The request tries to be admitted.
    TryAdmit(u32, Answer),
    /// The request arrives.
    Begin(u32, Answer),
    /// The request arrives. Tells the event of its arrival too.
    BeginWithEvent(u32, Answer, Option<Event>),
    /// The request reads its decision.
    Poll(u32, Answer),
    /// The request arrives, and waits until it is decided.
    Admit(u32, Answer),
    /// The request gives its seats back.
    Release(u32, Answer),
    /// The heads that fit are dispatched, this many.
    Dispatch(u32),
    /// The request is struck, or not.
    Strike(u32, bool),
    /// The request is cancelled. Tells its decision.
    Cancel(u32, Decision),
    /// The level is closed.
    Close(Close),
    /// The limit is tried to be set.
    TryLimit(u32, TrySetLimit),
    /// The limit is set. Tells the old one.
    Limit(u32, u32),
    /// The level word: whether it is closed, seats, waiters and the limit.
    Look(bool, [u32; 3]),
    /// Reads the statistics.
    Read(Stats),
    /// Copies the log from this place on into room for this many events, at most four. Tells how many were copied.
    Copy(u32, usize, usize),
}

/// A level with what is done with it, and what it tells at its end.
#[derive(Clone, Copy)]
pub struct Row<'a> {
    pub config: Config,
    pub asks: &'a [Ask],
    pub steps: &'a [Step],
    pub closed: bool,
    pub decisions: &'a [Decision],
    pub log: &'a [Event],
    pub stats: Stats,
    pub counts: Counts,
}

/// The answer of a request that was decided so.
pub fn over(decision: Decision) -> Answer {
    Answer::Over(decision)
}

/// The numbers of a log: entered, dispatched, struck, full and waiting.
pub fn numbers(entered: u32, dispatched: u32, struck: u32, full: u32, waiting: u32) -> Stats {
    Stats {
        entered,
        dispatched,
        struck,
        full,
        waiting,
    }
}

/// Plays the script, and asserts that the answers and the report are the row's.
pub fn run_row<R: Threads + Wait + Abort + Clock + Sync>(
    rt: &R,
    alloc: Global,
    row: &Row<'_>,
) -> Result<(), OpenFault> {
    let script = Script {
        steps: row.steps,
        log: row.log,
    };
    let ended = run(rt, alloc, row.config, row.asks, 1, &[Scene::Script(script)])?;
    let ending = Ending {
        closed: row.closed,
        decisions: row.decisions,
        log: row.log,
        stats: row.stats,
        counts: row.counts,
    };
    ended.is_as(rt, &ending);
    Ok(())
}

/// The steps of a script, and the log at its end, of which each copy has a part.
#[derive(Clone, Copy)]
pub struct Script<'a> {
    steps: &'a [Step],
    log: &'a [Event],
}

impl<'a> Script<'a> {
    /// A script that copies nothing of the log.
    pub fn of(steps: &'a [Step]) -> Script<'a> {
        Script { steps, log: &[] }
    }

    /// Makes the steps. What they make owed is spent when all are made: the steps themselves say when it is dispatched
    /// and who is struck.
    pub fn play<K: Naming, R: Wait + Abort>(
        &self,
        rt: &R,
        alloc: Global,
        session: &mut Session<K>,
    ) {
        let Ok(mut debts) = Debts::new(alloc, self.steps.len()) else {
            panic!(rt; "memory")
        };
        for (place, step) in self.steps.iter().enumerate() {
            follow(rt, session, &mut debts, place, *step, self.log);
        }
        debts.spend(rt, &session.level);
    }
}

// Makes the call, and asserts that it answers so.
fn follow<K: Naming, R: Wait + Abort>(
    rt: &R,
    session: &mut Session<K>,
    debts: &mut Debts<K>,
    place: usize,
    step: Step,
    log: &[Event],
) {
    match step {
        Step::TryAdmit(request, answer)
        | Step::Begin(request, answer)
        | Step::Poll(request, answer)
        | Step::Admit(request, answer)
        | Step::Release(request, answer) => {
            assert_eq!(rt;
                call(rt, session, debts, request, step),
                answer,
                "step {place}"
            );
        }
        Step::BeginWithEvent(request, answer, event) => {
            assert!(rt; (request as usize) < session.requests.len());
            let (told, logged) = session.begin_with_event(rt, request);
            assert_eq!(rt; told, answer, "step {place}");
            assert_eq!(rt; logged, event, "step {place}");
        }
        Step::Dispatch(count) => assert_eq!(rt;
            session.level.lock(rt).dispatch(rt),
            count,
            "step {place}"
        ),
        Step::Strike(request, struck) => {
            assert!(rt; (request as usize) < session.requests.len());
            assert_eq!(rt;
                session.level.lock(rt).strike(rt, request),
                struck,
                "step {place}"
            );
        }
        Step::Read(stats) => {
            assert_eq!(rt; session.stats(rt), stats, "step {place}");
        }
        Step::Copy(from, room, count) => {
            assert!(rt; from as usize <= log.len() || count == 0);
            let rest = log.get(from as usize..).unwrap_or(&[]);
            assert!(rt; count <= rest.len());
            copy(rt, session, place, from, room, &rest[..count]);
        }
        _ => follow_station(rt, session, debts, place, step),
    }
}

// Makes the call of the request.
fn call<K: Naming, R: Wait + Abort>(
    rt: &R,
    session: &mut Session<K>,
    debts: &mut Debts<K>,
    request: u32,
    step: Step,
) -> Answer {
    assert!(rt; (request as usize) < session.requests.len());
    let request = &mut session.requests[request as usize];
    match step {
        Step::TryAdmit(..) => {
            let (answer, owes) = request.try_admit(&session.level);
            debts.keep(rt, &session.level, owes);
            answer
        }
        Step::Begin(..) => request.begin(rt, &session.level),
        Step::Poll(..) => request.poll(rt, &session.level),
        Step::Admit(..) => request.admit(rt, &session.level),
        Step::Release(..) => {
            let (answer, owes) = request.release(&session.level);
            debts.keep(rt, &session.level, owes);
            answer
        }
        _ => Answer::Wrong,
    }
}

// Makes the call of the Station, and asserts that it answers so.
fn follow_station<K: Naming, R: Wait + Abort>(
    rt: &R,
    session: &mut Session<K>,
    debts: &mut Debts<K>,
    place: usize,
    step: Step,
) {
    assert!(rt; !session.operators.is_empty());
    let caller = &mut session.operators[0];
    match step {
        Step::Cancel(request, decision) => {
            assert!(rt; (request as usize) < session.requests.len());
            let (told, owed) = caller.cancel(&session.level, request);
            debts.keep_strike(rt, &session.level, owed);
            assert_eq!(rt; told, decision, "step {place}");
        }
        Step::Close(close) => assert_eq!(rt; caller.close(&session.level), close, "step {place}"),
        Step::TryLimit(limit, answer) => {
            assert!(rt; (1..=10_000).contains(&limit));
            let (told, owes) = caller.try_set_limit(&session.level, limit);
            debts.keep(rt, &session.level, owes);
            assert_eq!(rt; told, answer, "step {place}");
        }
        Step::Limit(limit, old) => {
            assert!(rt; (1..=10_000).contains(&limit));
            assert_eq!(rt;
                caller.set_limit(rt, &session.level, limit),
                old,
                "step {place}"
            );
        }
        Step::Look(closed, numbers) => {
            let word = caller.look(&session.level);
            assert_eq!(rt; word.closed(), closed, "step {place}");
            assert_eq!(rt;
                [word.seats(), word.waiters(), word.limit()],
                numbers,
                "step {place}"
            );
        }
        _ => panic!(rt; "step {place} is of a request"),
    }
}

// Copies the log, and asserts that these events were copied, and that the rest of the room is as it was.
fn copy<K: Naming, R: Wait + Abort>(
    rt: &R,
    session: &mut Session<K>,
    place: usize,
    from: u32,
    room: usize,
    events: &[Event],
) {
    let unused = Event::Full(99, 99);
    let mut into = [unused; 4];
    assert!(rt; room <= 4 && events.len() <= room);
    let count = session.level.lock(rt).copy_events(from, &mut into[..room]);
    assert_eq!(rt; count as usize, events.len(), "step {place}");
    assert_eq!(rt; &into[..events.len()], events, "step {place}");
    for event in &into[events.len()..] {
        assert_eq!(rt; *event, unused, "step {place}");
    }
}
