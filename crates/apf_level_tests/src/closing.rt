//! Eight Stations close one level, in threads of their own: one of them is the first.

ghost use Rattle.std.specs.Prelude.{◌≡◌, length};

use crate::endings::Ending;
use crate::opening::{ask, settings};
use crate::scenes::{Scene, run};
use crate::scripts::Step::{Begin, Close as Closes, Look, TryAdmit};
use crate::scripts::{Script, numbers};
use apf_gate::Close;
use apf_level::{Counts, Level, Naming};
use apf_rounds::{ENOUGH, MOST_LEVELS, Start, pass_time, turns};
use apf_session::Answer::{Over, Tried};
use apf_session::{OpenFault, Operator, Session};
use apf_words::Decision;
use std::sync::atomic::{AtomicU64, Ordering};
use std::thread;
use std::thread::Threads;

/// What the threads of one round share.
#[derive(Drop)]
pub struct Closers {
    round: u32,
    start: Start,
    // Where they wait for each other once they looked at the level.
    looked: Start,
    // The Stations whose close was the first.
    first: AtomicU64,
    // Those that were told that the level is closed already.
    already: AtomicU64,
    // Those of them that saw it open just before.
    overtaken: AtomicU64,
}

impl Closers {
    fn new(round: u32) -> Closers {
        Closers {
            round,
            start: Start::new(),
            looked: Start::new(),
            first: AtomicU64::new(0),
            already: AtomicU64::new(0),
            overtaken: AtomicU64::new(0),
        }
    }

    /// Each Station closes the level, in a thread of its own.
    pub fn play<K: Naming, R: Threads + Sync>(&self, rt: &R, session: &mut Session<K>) {
        close_all(rt, &session.level, self, session.operators.as_mut_slice());
    }
}

// A Station looks at the level, waits until the others looked too, and closes it soon after, at its own time.
fn close<K: Naming>(level: &Level<K>, closers: &Closers, thread: usize, caller: &mut Operator<K>) {
    closers.start.wait_for(8);
    let before = caller.look(level);
    closers.looked.wait_for(8);
    pass_time(turns(closers.round, thread) / 64);
    if caller.close(level) == Close::First {
        closers.first.fetch_add(1, Ordering::SeqCst);
        return;
    }
    closers.already.fetch_add(1, Ordering::SeqCst);
    if !before.closed() {
        closers.overtaken.fetch_add(1, Ordering::SeqCst);
    }
}

// Each Station closes the level, in a thread of its own.
fn close_all<K: Naming, R: Threads + Sync>(
    rt: &R,
    level: &Level<K>,
    closers: &Closers,
    callers: &mut [Operator<K>],
)
    ensures { length callers.new ≡ length callers.old }
{
    thread::for_each_mut(
        rt,
        callers,
        8,
        &|thread, caller| close(level, closers, thread, caller),
    );
}

// One is the first of eight, and some find the level closed that they saw open. Who comes later is turned away.
#[test]
fn eight_close(rt: HostRuntime) -> Result<(), OpenFault> {
    let mut overtaken = 0u64;
    for round in 0..MOST_LEVELS {
        let closers = Closers::new(round);
        let later = Script::of(&[
            Look(true, [0, 0, 1]),
            Closes(Close::Already),
            Begin(0, Over(Decision::Closed)),
            TryAdmit(1, Tried(Decision::Closed, false)),
        ]);
        let ended = run(
            &rt,
            rt.alloc(),
            settings(1),
            &[ask(1); 2],
            8,
            &[Scene::Close(&closers), Scene::Script(later)],
        )?;
        assert_eq!(rt; closers.first.load(Ordering::SeqCst), 1);
        assert_eq!(rt; closers.already.load(Ordering::SeqCst), 7);
        let ending = Ending {
            closed: true,
            decisions: &[Decision::Closed; 2],
            log: &[],
            stats: numbers(0, 0, 0, 0, 0),
            counts: Counts {
                closed: 2,
                ..Counts::default()
            },
        };
        ended.is_as(&rt, &ending);
        overtaken = overtaken.saturating_add(closers.overtaken.load(Ordering::SeqCst));
    }
    assert!(rt; overtaken >= ENOUGH, "{overtaken} overtaken");
    Ok(())
}
