//! Requests that take seats, execute and give them back, by the gate's steps.

ghost use Rattle.std.specs.Prelude.{◌≡◌, All};
ghost use Rattle.apf_gate.specs.declared.record.State.TheVariants.{Fresh};
ghost use Rattle.apf_gate.specs.Tokens.{pass_gate};

use crate::bench::course::{Callers, Course, REQUESTS};
use apf_gate::{Gate, Pass, TryTake};
use apf_model::Response;
use apf_words::Decision;
use std::alloc::Global;
use std::thread;
use std::thread::Threads;
use std::time::Clock;

/// What a request does beside taking its seats, executing and giving them back.
#[derive(Clone, Copy, PartialEq, Eq)]
pub enum Beside {
    /// Nothing.
    Nothing,
    /// It reads its decision first, as a level does.
    Reading,
    /// Its slot is renewed for the next request.
    Renewal,
}

// Serves a request for which there is room, in at most this many turns.
fn serve(course: &Course, gate: &Gate<Global>, pass: &mut Pass, beside: Beside)
    requires own { pass_gate pass.old ≡ gate.now }
    requires fresh { pass.old.pass.state ≡ Fresh }
{
    for _turn in 0..1_000_000u32 {
        if beside == Beside::Reading && gate.told(pass).is_some() {
            return;
        }
        match gate.try_take(pass) {
            TryTake::Taken => {
                gate.decide(pass, Decision::Execute);
                gate.release(pass);
                if beside == Beside::Renewal {
                    gate.renew(pass, 1, 0, 1);
                }
                return;
            }
            TryTake::Raced => course.wait(),
            TryTake::Waiters | TryTake::NoRoom | TryTake::Closed => return,
        }
    }
}

fn serve_timed<R: Clock>(
    rt: &R,
    course: &Course,
    gate: &Gate<Global>,
    request: usize,
    pass: &mut Pass,
    beside: Beside,
)
    requires own { pass_gate pass.old ≡ gate.now }
    requires fresh { pass.old.pass.state ≡ Fresh }
{
    course.begin(rt, request);
    serve(course, gate, pass, beside);
    course.end(rt, request);
}

fn serve_all<R: Threads + Clock + Sync>(
    rt: &R,
    course: &Course,
    gate: &Gate<Global>,
    passes: &mut [Pass],
    callers: Callers,
    beside: Beside,
)
    requires { All (λ t. (pass_gate t ≡ gate.now) × (t.pass.state ≡ Fresh)) passes.old }
{
    thread::for_each_mut(
        rt,
        passes,
        callers.threads.max(1) as usize,
        &|request, pass| { serve_timed(rt, course, gate, request, pass, beside) },
    );
}

/// How long a request takes by the gate's steps, in picoseconds: `None` if there was no memory or clock,
/// or seats are taken at the end.
pub fn gated<R: Threads + Clock + Sync>(
    rt: &R,
    alloc: Global,
    callers: Callers,
    beside: Beside,
) -> Option<u64> {
    let widths = vec![in alloc; 1u32; REQUESTS as usize].ok()?;
    let widths = widths.as_slice();
    let opened = match beside {
        Beside::Nothing | Beside::Reading => Gate::open(alloc, 10_000, widths, 0, Response::Queue),
        Beside::Renewal => Gate::open_for_life(alloc, 10_000, widths, 0, Response::Queue),
    };
    let (gate, mut desk, mut passes, _stations) = opened.ok()?;
    let course = Course::new(rt, callers)?;
    serve_all(rt, &course, &gate, passes.as_mut_slice(), callers, beside);
    if gate.view(&mut desk).seats() != 0 {
        return None;
    }
    Some(course.picos())
}
