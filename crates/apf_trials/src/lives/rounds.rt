//! Rounds of many requests over 64 slots, whose book adds up. `tests/kit/life.py` compares the memory of few rounds with
//! that of many.

ghost use Rattle.std.specs.Prelude.{◌≡◌};
ghost use Rattle.apf_session.specs.LifeOpenings.{level_of};

use crate::shared::tell_fault;
use apf_gate::Counts;
use apf_level::life::Naming;
use apf_model::{Ask, Config, Response};
use apf_session::life::{Answer, OpenFault, Opening, Session};
use std::alloc::Global;
use std::io;
use std::marker::Brand;
use std::sync::Wait;

const SLOTS: u32 = 64;

// A request arrives in each slot: half of them find seats, and the others wait.
fn arrive<K: Naming, R: Wait>(rt: &R, session: &mut Session<K>, round: u64)
    requires slots { K.level.gate.shape.slots ≡ 64 }
{
    for slot in 0..SLOTS {
        let ask = Ask {
            width: 1,
            hash: round
                .wrapping_mul(u64::from(SLOTS))
                .wrapping_add(u64::from(slot)),
        };
        // `finish` below asks of each slot where its request is
        let _ = session.arrive(rt, slot, ask);
    }
}

// Whoever waits reads its decision, and whoever executes gives its seats back. Says whether a slot is still held.
fn finish<K: Naming, R: Wait>(rt: &R, session: &mut Session<K>) -> bool
    requires slots { K.level.gate.shape.slots ≡ 64 }
{
    let mut held = false;
    for slot in 0..SLOTS {
        if session.poll(rt, slot) == Answer::Waits {
            held = true;
        }
        // of one that does not execute it answers Wrong
        let _ = session.finish(rt, slot);
    }
    held
}

// One round: all arrive, and come to their ends.
fn play<K: Naming, R: Wait>(rt: &R, session: &mut Session<K>, round: u64)
    requires slots { K.level.gate.shape.slots ≡ 64 }
{
    arrive(rt, session, round);
    for _turn in 0..SLOTS {
        if !finish(rt, session) {
            break;
        }
    }
}

fn run_named<K: Naming, R: Wait>(
    rt: &R,
    alloc: Global,
    opening: Opening,
    rounds: u64,
) -> Result<Counts, OpenFault>
    requires level { K.level ≡ level_of opening.gate opening.config }
    requires slots { opening.gate.shape.slots ≡ 64 }
{
    let mut session = Session::<K>::open_for_life(rt, alloc, opening)?;
    for round in 0..rounds {
        play(rt, &mut session, round);
    }
    let report = session.end(rt, alloc)?;
    Ok(report.words.counts())
}

// Opens a level of 32 seats, with the queues and hands of the API's defaults, makes the rounds, and ends it.
fn open<R: Wait>(rt: &R, alloc: Global, rounds: u64) -> Result<Counts, OpenFault> {
    let config = Config {
        limit: 32,
        queues: 64,
        hand_size: 8,
        queue_length_limit: 50,
        limit_response: Response::Queue,
    };
    let opening = Opening::new(alloc, &config, SLOTS as usize, 0)?;
    run_named::<Brand, R>(rt, alloc, opening, rounds)
}

/// Makes this many rounds, writes the counts of all requests, and answers the program's status.
///
/// # Errors
///
/// Why it could not be written.
pub fn call<R: Wait>(rt: &HostRuntime, runner: &R, rounds: u64) -> io::Result<u8> {
    match open(runner, rt.alloc(), rounds) {
        Ok(counts) => {
            println!(rt; "{counts:?}")?;
            Ok(0)
        }
        Err(fault) => tell_fault(rt, fault),
    }
}
