//! A level from its opening to its end.

ghost use Rattle.std.specs.Prelude.{◌≡◌};
ghost use Rattle.apf_session.specs.Openings.{level_of};

use crate::bench::course::{Callers, Course, REQUESTS, picos_each};
use crate::bench::levelled::serve_all;
use crate::bench::lined::serve_line;
use crate::shared::one_queue;
use apf_book::Ask;
use apf_level::{Naming, Report};
use apf_session::{Opening, Session};
use std::alloc::Global;
use std::marker::Brand;
use std::sync::Wait;
use std::thread::Threads;
use std::time::{Clock, Instant};

/// What the requests of a level do.
#[derive(Clone, Copy)]
pub enum Scene {
    /// Each has room, and these serve them.
    Room(Callers),
    /// Each waits until the one before it has given its seat back.
    Line,
}

impl Scene {
    fn limit(self) -> u32 {
        match self {
            Scene::Room(_callers) => 10_000,
            Scene::Line => 1,
        }
    }

    // How many requests wait.
    fn waiting(self) -> u32 {
        match self {
            Scene::Room(_callers) => 0,
            Scene::Line => REQUESTS - 1,
        }
    }

    // Whether the report is that of a level on which each request executed.
    fn is_report(self, report: &Report) -> bool {
        report.word.seats() == 0
            && report.word.waiters() == 0
            && report.counts.executed == REQUESTS
            && report.stats.entered == self.waiting()
            && report.stats.dispatched == self.waiting()
    }
}

// Plays the scene. Tells how long a request took, in picoseconds.
fn play<K: Naming, R: Threads + Clock + Wait + Sync>(
    rt: &R,
    session: &mut Session<K>,
    scene: Scene,
) -> Option<u64> {
    match scene {
        Scene::Room(callers) => {
            let course = Course::new(rt, callers)?;
            serve_all(
                rt,
                &course,
                &session.level,
                session.requests.as_mut_slice(),
                callers,
            );
            Some(course.picos())
        }
        Scene::Line => {
            let start = Instant::now(rt).ok()?;
            serve_line(rt, &session.level, session.requests.as_mut_slice());
            picos_each(rt, start, REQUESTS)
        }
    }
}

fn run_named<K: Naming, R: Threads + Clock + Wait + Sync>(
    rt: &R,
    alloc: Global,
    opening: Opening<'_>,
    scene: Scene,
) -> Option<u64>
    requires { K.level ≡ level_of opening.gate opening.board.cell opening.config opening.asks.now }
{
    let mut session = Session::<K>::open(rt, alloc, opening).ok()?;
    let picos = play(rt, &mut session, scene);
    let report = session.end(rt, alloc).ok()?;
    if !scene.is_report(&report) {
        return None;
    }
    picos
}

/// How long a request takes by a level's calls, in picoseconds: `None` if there was no memory or clock, or the
/// level's report is not the one that is expected.
pub fn by_level<R: Threads + Clock + Wait + Sync>(
    rt: &R,
    alloc: Global,
    scene: Scene,
) -> Option<u64> {
    let config = one_queue(scene.limit(), 50);
    let asks = vec![in alloc; Ask { width: 1, hash: 7 }; REQUESTS as usize].ok()?;
    let opening = Opening::new(alloc, &config, asks.as_slice(), 0).ok()?;
    run_named::<Brand, R>(rt, alloc, opening, scene)
}
