//! Eight Stations cancel one request that waits, in threads of their own: all are told the same, and one strikes it.

ghost use Rattle.std.specs.Prelude.{◌≡◌, ◌<◌, length};

use crate::endings::Ending;
use crate::opening::{ask, settings};
use crate::scenes::{Scene, run};
use crate::scripts::Step::{Begin, Look, Poll, Release, Strike};
use crate::scripts::{Script, numbers};
use apf_level::{Counts, Level, Naming};
use apf_model::Event;
use apf_rounds::{Start, pass_time, turns};
use apf_session::Answer::{Over, Released, Run, Waits};
use apf_session::{OpenFault, Operator, Session};
use apf_words::Decision;
use std::process::Abort;
use std::sync::Wait;
use std::sync::atomic::{AtomicU64, Ordering};
use std::thread;
use std::thread::Threads;

/// What the threads of one round share.
#[derive(Drop)]
pub struct Cancellers {
    round: u32,
    start: Start,
    // The Stations that were told that the request is cancelled.
    cancelled: AtomicU64,
    // The Stations whose strike was told to have struck it.
    struck: AtomicU64,
}

impl Cancellers {
    fn new(round: u32) -> Cancellers {
        Cancellers {
            round,
            start: Start::new(),
            cancelled: AtomicU64::new(0),
            struck: AtomicU64::new(0),
        }
    }

    /// Each Station cancels the second request and strikes it, in a thread of its own.
    pub fn play<K: Naming, R: Threads + Wait + Abort + Sync>(
        &self,
        rt: &R,
        session: &mut Session<K>,
    ) {
        assert!(rt; session.requests.len() > 1);
        cancel_all(rt, &session.level, self, session.operators.as_mut_slice());
    }
}

// A Station cancels the second request and strikes it soon after, each at its own time.
fn cancel<K: Naming, R: Wait>(
    rt: &R,
    level: &Level<K>,
    cancellers: &Cancellers,
    thread: usize,
    caller: &mut Operator<K>,
)
    requires { 1 < length K.level.gate.shape.widths }
{
    cancellers.start.wait_for(8);
    pass_time(turns(cancellers.round, thread) / 64);
    let (decision, owed) = caller.cancel(level, 1);
    if decision == Decision::Cancelled {
        cancellers.cancelled.fetch_add(1, Ordering::SeqCst);
    }
    pass_time(turns(cancellers.round.wrapping_add(1), thread) / 64);
    if level.strike_if_owed(rt, owed) {
        cancellers.struck.fetch_add(1, Ordering::SeqCst);
    }
}

// Each Station cancels the second request and strikes it, in a thread of its own.
fn cancel_all<K: Naming, R: Threads + Wait + Sync>(
    rt: &R,
    level: &Level<K>,
    cancellers: &Cancellers,
    callers: &mut [Operator<K>],
)
    requires { 1 < length K.level.gate.shape.widths }
    ensures { length callers.new ≡ length callers.old }
{
    thread::for_each_mut(
        rt,
        callers,
        8,
        &|thread: usize, caller: &mut Operator<K>|
            requires { 1 < length K.level.gate.shape.widths }
        { cancel(rt, level, cancellers, thread, caller) },
    );
}

// All eight are told that it is cancelled, and one that it struck the request. The log has that one strike.
#[test]
fn eight_cancel(rt: HostRuntime) -> Result<(), OpenFault> {
    for round in 0..20u32 {
        let cancellers = Cancellers::new(round);
        let before = Script::of(&[Begin(0, Run), Begin(1, Waits)]);
        let after = Script::of(&[
            Look(false, [1, 0, 1]),
            Strike(1, false),
            Poll(1, Over(Decision::Cancelled)),
            Release(0, Released(false)),
        ]);
        let ended = run(
            &rt,
            rt.alloc(),
            settings(1),
            &[ask(1); 2],
            8,
            &[
                Scene::Script(before),
                Scene::Cancel(&cancellers),
                Scene::Script(after),
            ],
        )?;
        assert_eq!(rt; cancellers.cancelled.load(Ordering::SeqCst), 8);
        assert_eq!(rt; cancellers.struck.load(Ordering::SeqCst), 1);
        let ending = Ending {
            closed: false,
            decisions: &[Decision::Execute, Decision::Cancelled],
            log: &[Event::Enter(1, 0), Event::Strike(1, 0)],
            stats: numbers(1, 0, 1, 0, 0),
            counts: Counts {
                executed: 1,
                cancelled: 1,
                ..Counts::default()
            },
        };
        ended.is_as(&rt, &ending);
    }
    Ok(())
}
