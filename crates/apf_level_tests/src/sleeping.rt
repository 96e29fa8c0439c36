//! A caller that sleeps until its request is decided is woken by a dispatch and by a cancel of another thread. One
//! dispatch wakes all whom it let in.

ghost use Rattle.std.specs.Prelude.{◌≡◌, ◌<◌, length};

use crate::endings::Ending;
use crate::opening::{ask, settings};
use crate::scenes::{Scene, run};
use crate::scripts::Step::{Begin, Look, Release};
use crate::scripts::{Script, numbers};
use apf_level::{Counts, Level, Naming};
use apf_model::Event;
use apf_rounds::MOST_TURNS;
use apf_session::Answer::{Over, Released, Run};
use apf_session::{Answer, OpenFault, Operator, Request, Session};
use apf_words::Decision;
use std::process::Abort;
use std::sync::atomic::{AtomicU64, Ordering};
use std::sync::{Mutex, Wait};
use std::thread;
use std::thread::Threads;

// How the sleeper is woken.
#[derive(Clone, Copy, Debug, PartialEq, Eq)]
enum Call {
    // The first request gives its seats back, and its thread dispatches.
    Dispatch,
    // The thread of the first request cancels the second one.
    Cancel,
}

/// What the threads of one round share.
#[derive(Drop)]
pub struct Sleepers {
    call: Call,
    // How many sleep.
    count: u32,
    // What each sleeper is told.
    told: Answer,
    // How many woke.
    woken: AtomicU64,
}

impl Sleepers {
    fn new(call: Call, count: u32, told: Answer) -> Sleepers {
        Sleepers {
            call,
            count,
            told,
            woken: AtomicU64::new(0),
        }
    }

    /// All requests but the first sleep until the thread of the first one wakes them.
    pub fn play<K: Naming, R: Threads + Wait + Abort + Sync>(
        &self,
        rt: &R,
        session: &mut Session<K>,
    ) {
        assert!(rt; session.requests.len() > 1);
        let Some(caller) = session.operators.pop() else {
            panic!(rt; "a Station")
        };
        let caller = Mutex::new(caller);
        serve_all(
            rt,
            &session.level,
            self,
            &caller,
            session.requests.as_mut_slice(),
        );
        let Ok(()) = session.operators.push(caller.into_inner()) else {
            panic!(rt; "memory")
        };
    }

    // Waits until all sleepers woke, in at most this many turns. Says whether they did.
    fn wait_for_waking(&self) -> bool {
        for _turn in 0..MOST_TURNS / 10 {
            if self.woken.load(Ordering::SeqCst) >= u64::from(self.count) {
                return true;
            }
            thread::yield_now();
        }
        false
    }
}

// Lets this many requests sleep: waits until they stand in queues, in at most this many turns, and gives them time.
fn let_sleep<K: Naming>(level: &Level<K>, operator: &mut Operator<K>, count: u32) {
    for _turn in 0..MOST_TURNS {
        if operator.look(level).waiters() == count {
            break;
        }
        thread::yield_now();
    }
    for _turn in 0..3000u32 {
        thread::yield_now();
    }
}

// The first request runs. Its thread lets the others sleep, and then wakes them.
fn wake<K: Naming, R: Wait + Abort>(
    rt: &R,
    level: &Level<K>,
    sleepers: &Sleepers,
    caller: &Mutex<Operator<K>>,
    request: &mut Request<K>,
)
    requires { 1 < length K.level.gate.shape.widths }
{
    let_sleep(level, &mut caller.lock(rt), sleepers.count);
    assert_eq!(rt; sleepers.woken.load(Ordering::SeqCst), 0);
    match sleepers.call {
        Call::Dispatch => {
            let (answer, owes) = request.release(level);
            assert_eq!(rt; answer, Answer::Released(true));
            match owes.left() {
                Some(owed) => {
                    assert_eq!(rt; owed.dispatch(rt, &mut level.lock(rt)), sleepers.count);
                }
                None => panic!(rt; "a dispatch is owed"),
            }
        }
        Call::Cancel => {
            let (decision, owed) = caller.lock(rt).cancel(level, 1);
            assert_eq!(rt; decision, Decision::Cancelled);
            assert!(rt; sleepers.wait_for_waking(), "it sleeps on");
            level.strike_if_owed(rt, owed);
        }
    }
    assert!(rt; sleepers.wait_for_waking(), "it sleeps on");
}

// Another request sleeps until it is decided.
fn sleep<K: Naming, R: Wait + Abort>(
    rt: &R,
    level: &Level<K>,
    sleepers: &Sleepers,
    request: &mut Request<K>,
) {
    assert_eq!(rt; request.admit(rt, level), sleepers.told);
    sleepers.woken.fetch_add(1, Ordering::SeqCst);
}

// The first request wakes the others, each in a thread of its own.
fn serve_all<K: Naming, R: Threads + Wait + Abort + Sync>(
    rt: &R,
    level: &Level<K>,
    sleepers: &Sleepers,
    caller: &Mutex<Operator<K>>,
    requests: &mut [Request<K>],
)
    requires { 1 < length K.level.gate.shape.widths }
    ensures { length requests.new ≡ length requests.old }
{
    // a thread for the first request, and one for each sleeper
    let threads = sleepers.count as usize + 1;
    thread::for_each_mut(
        rt,
        requests,
        threads,
        &|place: usize, request: &mut Request<K>|
            requires { 1 < length K.level.gate.shape.widths }
        { serve(rt, level, sleepers, caller, place, request) },
    );
}

fn serve<K: Naming, R: Wait + Abort>(
    rt: &R,
    level: &Level<K>,
    sleepers: &Sleepers,
    caller: &Mutex<Operator<K>>,
    place: usize,
    request: &mut Request<K>,
)
    requires { 1 < length K.level.gate.shape.widths }
{
    if place == 0 {
        wake(rt, level, sleepers, caller, request);
    } else {
        sleep(rt, level, sleepers, request);
    }
}

// The first request gave its seat back, and the sleeper runs.
#[test]
fn a_dispatch_wakes(rt: HostRuntime) -> Result<(), OpenFault> {
    for _round in 0..20u32 {
        let sleepers = Sleepers::new(Call::Dispatch, 1, Run);
        let before = Script::of(&[Begin(0, Run)]);
        let after = Script::of(&[Look(false, [1, 0, 1]), Release(1, Released(false))]);
        let ended = run(
            &rt,
            rt.alloc(),
            settings(1),
            &[ask(1); 2],
            2,
            &[
                Scene::Script(before),
                Scene::Sleep(&sleepers),
                Scene::Script(after),
            ],
        )?;
        assert_eq!(rt; sleepers.woken.load(Ordering::SeqCst), 1);
        let ending = Ending {
            closed: false,
            decisions: &[Decision::Execute; 2],
            log: &[Event::Enter(1, 0), Event::Dispatch(1, 0)],
            stats: numbers(1, 1, 0, 0, 0),
            counts: Counts {
                executed: 2,
                ..Counts::default()
            },
        };
        ended.is_as(&rt, &ending);
    }
    Ok(())
}

// The first request gave two seats back, and both sleepers run by the one dispatch.
#[test]
fn a_dispatch_wakes_two(rt: HostRuntime) -> Result<(), OpenFault> {
    for _round in 0..20u32 {
        let sleepers = Sleepers::new(Call::Dispatch, 2, Run);
        let before = Script::of(&[Begin(0, Run)]);
        let after = Script::of(&[
            Look(false, [2, 0, 2]),
            Release(1, Released(false)),
            Release(2, Released(false)),
        ]);
        let ended = run(
            &rt,
            rt.alloc(),
            settings(2),
            &[ask(2), ask(1), ask(1)],
            2,
            &[
                Scene::Script(before),
                Scene::Sleep(&sleepers),
                Scene::Script(after),
            ],
        )?;
        assert_eq!(rt; sleepers.woken.load(Ordering::SeqCst), 2);
        assert_eq!(rt; ended.report.counts.executed, 3);
        assert_eq!(rt; ended.report.stats, numbers(2, 2, 0, 0, 0));
    }
    Ok(())
}

// The first request still runs, and the sleeper is cancelled.
#[test]
fn a_cancel_wakes(rt: HostRuntime) -> Result<(), OpenFault> {
    for _round in 0..20u32 {
        let sleepers = Sleepers::new(Call::Cancel, 1, Over(Decision::Cancelled));
        let before = Script::of(&[Begin(0, Run)]);
        let after = Script::of(&[Look(false, [1, 0, 1]), Release(0, Released(false))]);
        let ended = run(
            &rt,
            rt.alloc(),
            settings(1),
            &[ask(1); 2],
            2,
            &[
                Scene::Script(before),
                Scene::Sleep(&sleepers),
                Scene::Script(after),
            ],
        )?;
        assert_eq!(rt; sleepers.woken.load(Ordering::SeqCst), 1);
        let ending = Ending {
            closed: false,
            decisions: &[Decision::Execute, Decision::Cancelled],
            log: &[Event::Enter(1, 0), Event::Strike(1, 0)],
            stats: numbers(1, 0, 1, 0, 0),
            counts: Counts {
                executed: 1,
                cancelled: 1,
                ..Counts::default()
            },
        };
        ended.is_as(&rt, &ending);
    }
    Ok(())
}
