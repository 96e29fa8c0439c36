//! Four threads take seats outside the lock.

ghost use Rattle.std.specs.Prelude.{◌≡◌, length};

use crate::crowds::Crowd;
use crate::opening::{ask, settings};
use crate::scenes::{Scene, run};
use apf_level::{Level, Naming};
use apf_rounds::{ENOUGH, MOST_LEVELS, MOST_TURNS};
use apf_session::{Answer, OpenFault, Request, Session};
use std::sync::Wait;
use std::sync::atomic::{AtomicU64, Ordering};
use std::thread;
use std::thread::Threads;

/// What the threads count.
#[derive(Drop)]
pub struct Takers {
    // How many are to run at once before one of them gives its seats back.
    together: u64,
    crowd: Crowd,
    // The requests beside which this many ran.
    met: AtomicU64,
    // The requests that gave their seats back while nobody waited.
    released: AtomicU64,
    // The attempts that were answered busy.
    busy: AtomicU64,
}

impl Takers {
    fn new(together: u64) -> Takers {
        Takers {
            together,
            crowd: Crowd::new(),
            met: AtomicU64::new(0),
            released: AtomicU64::new(0),
            busy: AtomicU64::new(0),
        }
    }

    /// Each request takes its seats and gives them back, in four threads at most.
    pub fn play<K: Naming, R: Threads + Wait + Sync>(&self, rt: &R, session: &mut Session<K>) {
        serve_all(rt, &session.level, self, session.requests.as_mut_slice());
    }
}

// The request runs, and gives its seats back.
fn work<K: Naming, R: Wait>(rt: &R, level: &Level<K>, takers: &Takers, request: &mut Request<K>) {
    if takers.crowd.run(takers.together) {
        takers.met.fetch_add(1, Ordering::SeqCst);
    }
    let (answer, owes) = request.release(level);
    if answer == Answer::Released(false) {
        takers.released.fetch_add(1, Ordering::SeqCst);
    }
    level.dispatch_if_owed(rt, owes);
}

// The request tries to be admitted until it runs, in at most this many turns.
fn serve<K: Naming, R: Wait>(rt: &R, level: &Level<K>, takers: &Takers, request: &mut Request<K>) {
    for _turn in 0..MOST_TURNS {
        let (answer, owes) = request.try_admit(level);
        level.dispatch_if_owed(rt, owes);
        match answer {
            Answer::Run => {
                work(rt, level, takers, request);
                return;
            }
            Answer::Busy => {
                takers.busy.fetch_add(1, Ordering::SeqCst);
                thread::yield_now();
            }
            _ => return,
        }
    }
}

// Each request is served, in four threads at most.
fn serve_all<K: Naming, R: Threads + Wait + Sync>(
    rt: &R,
    level: &Level<K>,
    takers: &Takers,
    requests: &mut [Request<K>],
)
    ensures { length requests.new ≡ length requests.old }
{
    thread::for_each_mut(
        rt,
        requests,
        4,
        &|_, request| serve(rt, level, takers, request),
    );
}

// At most two run at once, and two do. Some are told that there is no room. Nobody waits.
#[test]
fn four_threads_on_two_seats(rt: HostRuntime) -> Result<(), OpenFault> {
    let asks = vec![in rt.alloc(); ask(1); 4000]?;
    let mut is_seen = false;
    for _round in 0..MOST_LEVELS {
        let takers = Takers::new(1);
        let ended = run(
            &rt,
            rt.alloc(),
            settings(2),
            asks.as_slice(),
            0,
            &[Scene::Take(&takers)],
        )?;
        ended.executed(&rt, 4000);
        assert_eq!(rt; ended.report.stats.entered, 0);
        assert_eq!(rt; takers.released.load(Ordering::SeqCst), 4000);
        assert!(rt; takers.crowd.most() <= 2);
        if takers.crowd.most() == 2 && takers.busy.load(Ordering::SeqCst) >= ENOUGH {
            is_seen = true;
            break;
        }
    }
    assert!(rt; is_seen);
    Ok(())
}

// Each of the two runs until the other runs too.
#[test]
fn two_run_at_once(rt: HostRuntime) -> Result<(), OpenFault> {
    for _round in 0..20u32 {
        let takers = Takers::new(2);
        let ended = run(
            &rt,
            rt.alloc(),
            settings(2),
            &[ask(1); 2],
            0,
            &[Scene::Take(&takers)],
        )?;
        ended.executed(&rt, 2);
        assert_eq!(rt; ended.report.stats.entered, 0);
        assert_eq!(rt; takers.met.load(Ordering::SeqCst), 2);
        assert_eq!(rt; takers.released.load(Ordering::SeqCst), 2);
    }
    Ok(())
}
