//! What is played on a level, from its opening to its end.

ghost use Rattle.std.specs.Prelude.{◌≡◌};
ghost use Rattle.apf_session.specs.Openings.{level_of};

use crate::admitting::Admissions;
use crate::cancelling::Cancellers;
use crate::closing::Closers;
use crate::endings::Ended;
use crate::losing::Losers;
use crate::reading::Readings;
use crate::scripts::Script;
use crate::sleeping::Sleepers;
use crate::taking::Takers;
use apf_book::{Ask, Config};
use apf_level::Naming;
use apf_session::{OpenFault, Opening, Session};
use std::alloc::Global;
use std::marker::Brand;
use std::process::Abort;
use std::sync::Wait;
use std::thread::Threads;
use std::time::Clock;

/// What is played. It is an enum, as what a trait's generic method sends to threads is not covered yet.
#[derive(Clone, Copy)]
pub enum Scene<'a> {
    /// By one thread.
    Script(Script<'a>),
    /// Four threads take seats outside the lock.
    Take(&'a Takers),
    /// One thread reads the statistics while four run requests.
    Read(&'a Readings),
    /// Each Station closes the level, in a thread of its own.
    Close(&'a Closers),
    /// Each Station cancels the second request and strikes it, in a thread of its own.
    Cancel(&'a Cancellers),
    /// The second request sleeps until the thread of the first one wakes it.
    Sleep(&'a Sleepers),
    /// Each request is admitted in a thread of its own.
    Admit(&'a Admissions),
    /// Some requests take the seat, and lose their decisions to cancels while others come to wait.
    Lose(&'a Losers),
}

/// Opens a level, plays the scenes on it, one after another, and ends it.
pub fn run<R: Threads + Wait + Abort + Clock + Sync>(
    rt: &R,
    alloc: Global,
    config: Config,
    asks: &[Ask],
    stations: u32,
    scenes: &[Scene<'_>],
) -> Result<Ended, OpenFault> {
    let opening = Opening::new(alloc, &config, asks, stations)?;
    play_named::<Brand, R>(rt, alloc, opening, scenes)
}

fn play_named<K: Naming, R: Threads + Wait + Abort + Clock + Sync>(
    rt: &R,
    alloc: Global,
    opening: Opening<'_>,
    scenes: &[Scene<'_>],
) -> Result<Ended, OpenFault>
    requires { K.level ≡ level_of opening.gate opening.board.cell opening.config opening.asks.now }
{
    let mut session = Session::<K>::open(rt, alloc, opening)?;
    for scene in scenes {
        play(rt, alloc, *scene, &mut session);
    }
    let last = session.stats(rt);
    let report = session.end(rt, alloc)?;
    Ok(Ended { last, report })
}

fn play<K: Naming, R: Threads + Wait + Abort + Clock + Sync>(
    rt: &R,
    alloc: Global,
    scene: Scene<'_>,
    session: &mut Session<K>,
) {
    match scene {
        Scene::Script(script) => script.play(rt, alloc, session),
        Scene::Take(takers) => takers.play(rt, session),
        Scene::Read(readings) => readings.play(rt, session),
        Scene::Close(closers) => closers.play(rt, session),
        Scene::Cancel(cancellers) => cancellers.play(rt, session),
        Scene::Sleep(sleepers) => sleepers.play(rt, session),
        Scene::Admit(admissions) => admissions.play(rt, session),
        Scene::Lose(losers) => losers.play(rt, session),
    }
}
