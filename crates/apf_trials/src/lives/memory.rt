//! The calls of one level, one after another in one thread. `tests/kit/life.py` refuses this course each allocation in
//! turn: only the opening and the end of the level ask for memory.
//!
//! It writes nothing before all calls are made: then a line for each, and one for the end of the level. Where memory
//! is refused it says so on standard error, and ends with status 3.

ghost use Rattle.std.specs.Prelude.{◌≡◌, ◌<◌};
ghost use Rattle.apf_session.specs.LifeOpenings.{level_of};

use crate::shared::{one_queue, tell_end, tell_fault};
use apf_book::{LifeEvent, LifeStats};
use apf_gate::{Cancel, Close, Counts, Ticket};
use apf_level::life::Naming;
use apf_model::Ask;
use apf_session::life::{Answer, OpenFault, Opening, Session};
use std::alloc::{AllocError, Global};
use std::io;
use std::marker::Brand;
use std::sync::Wait;

/// What one call answers. It is copied, so that it can be told after all calls.
#[derive(Clone, Copy, Debug)]
enum Told {
    // What became of a request.
    Is(Answer),
    // What became of an arrival, and its event.
    Came(Answer, Option<LifeEvent>),
    // What a cancel answered.
    Cancelled(Cancel),
    // The limit before.
    Limit(u32),
    // How many events were copied, from which place on, and the first of them.
    Copied(u64, usize, LifeEvent),
    // The numbers of the events.
    Numbers(LifeStats),
    // What the close found.
    Closed(Close),
}

const CALLS: usize = 19;

// The calls of a level that was opened, and what its end told.
struct Course {
    told: [Told; CALLS],
    end: Result<Counts, AllocError>,
}

// What became of an arrival in the slot.
fn came<K: Naming, R: Wait>(rt: &R, session: &mut Session<K>, slot: u32) -> Told
    requires slots { K.level.gate.shape.slots ≡ 3 }
    requires slot { slot < 3 }
{
    let (answer, event) = session.arrive_with_event(rt, slot, Ask { width: 1, hash: 7 });
    Told::Came(answer, event)
}

// The events from the second one on.
fn copied<K: Naming, R: Wait>(rt: &R, session: &Session<K>) -> Told {
    let mut room = [LifeEvent::Full(Ticket::of(0), 0); 4];
    let copied = session.level.lock(rt).copy_events(1, &mut room);
    Told::Copied(copied.from, copied.count, room[0])
}

// How many events there were of each kind. The lock is given back at the end.
fn numbers<K: Naming, R: Wait>(rt: &R, session: &Session<K>) -> Told {
    Told::Numbers(session.level.lock(rt).stats())
}

// The calls, one after another.
fn make<K: Naming, R: Wait>(rt: &R, session: &mut Session<K>) -> [Told; CALLS]
    requires slots { K.level.gate.shape.slots ≡ 3 }
    requires stations { K.level.gate.shape.stations ≡ 1 }
{
    let first = session.ticket(1);
    [
        Told::Is(session.try_arrive(rt, 0, Ask { width: 1, hash: 7 })),
        came(rt, session, 1),
        came(rt, session, 2),
        came(rt, session, 2),
        Told::Cancelled(session.cancel(rt, first)),
        cancelled(rt, session, 1),
        Told::Is(session.poll(rt, 1)),
        came(rt, session, 1),
        Told::Is(session.finish(rt, 0)),
        Told::Is(session.poll(rt, 2)),
        Told::Limit(session.set_limit(rt, 2)),
        Told::Is(session.poll(rt, 1)),
        copied(rt, session),
        numbers(rt, session),
        Told::Is(session.finish(rt, 2)),
        Told::Is(session.finish(rt, 1)),
        Told::Is(session.finish(rt, 1)),
        Told::Closed(session.close()),
        came(rt, session, 0),
    ]
}

// What a cancel of the slot's newest request answered.
fn cancelled<K: Naming, R: Wait>(rt: &R, session: &mut Session<K>, slot: u32) -> Told
    requires slots { K.level.gate.shape.slots ≡ 3 }
    requires stations { K.level.gate.shape.stations ≡ 1 }
    requires slot { slot < 3 }
{
    let ticket = session.ticket(slot);
    Told::Cancelled(session.cancel(rt, ticket))
}

fn run_named<K: Naming, R: Wait>(
    rt: &R,
    alloc: Global,
    opening: Opening,
) -> Result<Course, OpenFault>
    requires level { K.level ≡ level_of opening.gate opening.config }
    requires slots { opening.gate.shape.slots ≡ 3 }
    requires stations { opening.gate.shape.stations ≡ 1 }
{
    let mut session = Session::<K>::open_for_life(rt, alloc, opening)?;
    let told = make(rt, &mut session);
    let end = session.end(rt, alloc).map(|report| report.words.counts());
    Ok(Course { told, end })
}

// Opens a level of one seat and one queue, makes the calls, and ends it.
fn open<R: Wait>(rt: &R, alloc: Global) -> Result<Course, OpenFault> {
    let config = one_queue(1, 10);
    let opening = Opening::new(alloc, &config, 3, 1)?;
    run_named::<Brand, R>(rt, alloc, opening)
}

/// Makes the calls, tells what became of the level, and answers the program's status.
///
/// # Errors
///
/// Why it could not be written.
pub fn call<R: Wait>(rt: &HostRuntime, runner: &R) -> io::Result<u8> {
    match open(runner, rt.alloc()) {
        Ok(course) => {
            let Course { told, end } = course;
            for answer in told {
                println!(rt; "{answer:?}")?;
            }
            tell_end(rt, end)
        }
        Err(fault) => tell_fault(rt, fault),
    }
}
