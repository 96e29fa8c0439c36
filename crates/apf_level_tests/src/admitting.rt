//! Sixty-four threads are admitted one after another on one seat.

ghost use Rattle.std.specs.Prelude.{◌≡◌, length};

use crate::crowds::Crowd;
use crate::opening::{ask, settings};
use crate::scenes::{Scene, run};
use apf_book::Config;
use apf_level::{Level, Naming};
use apf_rounds::{ENOUGH, MOST_LEVELS, Start};
use apf_session::{Answer, OpenFault, Request, Session};
use std::sync::Wait;
use std::sync::atomic::{AtomicU64, Ordering};
use std::thread;
use std::thread::Threads;

/// What the threads of one round share.
#[derive(Drop)]
pub struct Admissions {
    start: Start,
    crowd: Crowd,
    // The requests that were admitted, ran and gave their seats back.
    released: AtomicU64,
}

impl Admissions {
    fn new() -> Admissions {
        Admissions {
            start: Start::new(),
            crowd: Crowd::new(),
            released: AtomicU64::new(0),
        }
    }

    /// Each request is admitted in a thread of its own.
    pub fn play<K: Naming, R: Threads + Wait + Sync>(&self, rt: &R, session: &mut Session<K>) {
        serve_all(rt, &session.level, self, session.requests.as_mut_slice());
    }
}

// The request is admitted, runs, gives its seats back, and dispatches if others wait.
fn serve<K: Naming, R: Wait>(
    rt: &R,
    level: &Level<K>,
    admissions: &Admissions,
    request: &mut Request<K>,
) {
    admissions.start.wait_for(64);
    if request.admit(rt, level) != Answer::Run {
        return;
    }
    admissions.crowd.run(1);
    if let Answer::Released(_waiting) = request.finish(rt, level) {
        admissions.released.fetch_add(1, Ordering::SeqCst);
    }
}

// Each request is admitted in a thread of its own.
fn serve_all<K: Naming, R: Threads + Wait + Sync>(
    rt: &R,
    level: &Level<K>,
    admissions: &Admissions,
    requests: &mut [Request<K>],
)
    ensures { length requests.new ≡ length requests.old }
{
    thread::for_each_mut(
        rt,
        requests,
        64,
        &|_, request| serve(rt, level, admissions, request),
    );
}

// All are executed, one at a time, and some of them waited.
#[test]
fn sixty_four_threads_on_one_seat(rt: HostRuntime) -> Result<(), OpenFault> {
    let config = Config {
        queue_length_limit: 64,
        ..settings(1)
    };
    let mut entered = 0u64;
    for _round in 0..MOST_LEVELS {
        let admissions = Admissions::new();
        let ended = run(
            &rt,
            rt.alloc(),
            config,
            &[ask(1); 64],
            0,
            &[Scene::Admit(&admissions)],
        )?;
        ended.executed(&rt, 64);
        assert_eq!(rt; admissions.released.load(Ordering::SeqCst), 64);
        assert_eq!(rt; admissions.crowd.most(), 1);
        entered = entered.saturating_add(u64::from(ended.report.stats.entered));
        if entered >= ENOUGH {
            break;
        }
    }
    assert!(rt; entered >= ENOUGH, "{entered} entered");
    Ok(())
}
