//! The example of docs/LIBRARY.md: opens a level twice and lets requests of one client in over its two slots, first in one
//! thread that calls for both, and then in a thread for each.
#![tactic(auto)]

ghost use Rattle.std.specs.Prelude.{◌≡◌, ◌<◌, length, IfOk};
ghost use Rattle.apf_session.specs.LifeOpenings.{level_of};

use apf_level::life::{Level, Naming, Report};
use apf_model::{Ask, Config, Response};
use apf_session::life::{Answer, OpenFault, Opening, Request, Session};
use std::alloc::Global;
use std::marker::Brand;
use std::process::ExitCode;
use std::sync::Wait;
use std::thread;
use std::thread::Threads;

const ASK: Ask = Ask { width: 1, hash: 7 };

// One seat, one queue, and two slots: at most two requests are there at once.
fn open(alloc: Global) -> Result<Opening, OpenFault>
    ensures two { IfOk result (λ o. o.gate.shape.slots ≡ 2) }
{
    let config = Config {
        limit: 1,
        queues: 1,
        hand_size: 1,
        queue_length_limit: 10,
        limit_response: Response::Queue,
    };
    Opening::new(alloc, &config, 2, 1)
}

// K names the level of this opening, so no call can mix it up with another level.
fn serve<K: Naming, R: Wait>(rt: &R, alloc: Global, opening: Opening) -> Result<Report, OpenFault>
    requires level { K.level ≡ level_of opening.gate opening.config }
    requires two { opening.gate.shape.slots ≡ 2 }
{
    let mut session = Session::<K>::open_for_life(rt, alloc, opening)?;
    // one request of each slot arrives: the first takes the seat, and the second waits in the queue
    let mut first = session.arrive(rt, 0, ASK);
    let mut second = session.arrive(rt, 1, ASK);
    for _turn in 0..3000 {
        first = go_on(rt, &mut session, 0, first);
        second = go_on(rt, &mut session, 1, second);
    }
    Ok(session.end(rt, alloc)?)
}

// What the slot answered last says which call follows.
fn go_on<K: Naming, R: Wait>(rt: &R, session: &mut Session<K>, slot: u32, answer: Answer) -> Answer
    requires is_slot { slot < K.level.gate.shape.slots }
{
    match answer {
        // here the request is served; then it gives its seat to whoever waits
        Answer::Run => session.finish(rt, slot),
        // it may have been dispatched meanwhile
        Answer::Waits => session.poll(rt, slot),
        // the slot is free, and its next request arrives
        Answer::Over(_) | Answer::Released(_) => session.arrive(rt, slot, ASK),
        other => other,
    }
}

// A thread for each slot. They share the level.
fn serve_in_threads<K: Naming, R: Threads + Wait + Sync>(
    rt: &R,
    alloc: Global,
    opening: Opening,
) -> Result<Report, OpenFault>
    requires level { K.level ≡ level_of opening.gate opening.config }
{
    let mut session = Session::<K>::open_for_life(rt, alloc, opening)?;
    let all = &mut session;
    start(rt, &all.level, all.slots.as_mut_slice());
    Ok(session.end(rt, alloc)?)
}

fn start<K: Naming, R: Threads + Wait + Sync>(rt: &R, level: &Level<K>, slots: &mut [Request<K>])
    ensures { length slots.new ≡ length slots.old }
{
    thread::for_each_mut(
        rt,
        slots,
        2,
        &|_place, request| serve_slot(rt, level, request),
    );
}

// The requests of one slot, one after another.
fn serve_slot<K: Naming, R: Wait>(rt: &R, level: &Level<K>, request: &mut Request<K>) {
    for _round in 0..1000 {
        // the thread sleeps until its request is decided
        match request.admit(rt, level, ASK) {
            // here the request is served; then it gives its seat to whoever waits
            Answer::Run => {
                let _released = request.finish(rt, level);
            }
            // it was rejected or cancelled, and its client is told so
            Answer::Over(_decision) => {}
            // the slot is used up
            _ => return,
        }
    }
}

fn run<R: Threads + Wait + Sync>(rt: &R, alloc: Global) -> Result<(Report, Report), OpenFault> {
    let first = serve::<Brand, R>(rt, alloc, open(alloc)?)?;
    let second = serve_in_threads::<Brand, R>(rt, alloc, open(alloc)?)?;
    Ok((first, second))
}

fn main(rt: HostRuntime) -> ExitCode {
    let Ok((first, second)) = run(&rt, rt.alloc()) else {
        return ExitCode::from(3);
    };
    let counts = first.words.counts();
    let stats = first.newest.stats;
    let of_threads = second.words.counts();
    match println!(rt; "{counts:?}\n{stats:?}\n{of_threads:?}") {
        Ok(()) => ExitCode::SUCCESS,
        Err(_) => ExitCode::from(1),
    }
}
