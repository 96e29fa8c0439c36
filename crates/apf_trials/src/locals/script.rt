//! The steps of the trial.

use apf_gate::{Cancel, Close};
use apf_local::{Answer, Ask, LocalLevel, Place};

/// What is done with a slot of a level, or with the level.
#[derive(Clone, Copy, Debug)]
pub enum Step {
    /// Its next request arrives, of this many seats.
    Arrive(usize, u32),
    /// The same, but it never enters a queue.
    Try(usize, u32),
    /// It gives its seats back.
    Finish(usize),
    /// Where it is.
    Place(usize),
    /// It is cancelled.
    Cancel(usize),
    Close,
    SetLimit(u32),
}

/// What was answered.
#[derive(Clone, Copy, Debug)]
pub enum Told {
    Answer(Answer),
    Place(Place),
    Cancel(Cancel),
    Close(Close),
    Limit(u32),
    /// There is no such slot, or a number is out of range.
    Nothing,
}

/// The level of each step, and the step.
pub const SCRIPT: [(usize, Step); 32] = [
    (0, Step::Arrive(0, 1)),
    (1, Step::Arrive(0, 2)),
    (2, Step::Arrive(0, 1)),
    (0, Step::Arrive(1, 1)),
    (1, Step::Arrive(1, 1)),
    (2, Step::Arrive(1, 2)),
    (0, Step::Arrive(2, 1)),
    (1, Step::Try(2, 1)),
    (2, Step::Finish(0)),
    (0, Step::Finish(0)),
    (0, Step::Place(1)),
    (0, Step::Try(0, 1)),
    (1, Step::Cancel(1)),
    (1, Step::Place(1)),
    (1, Step::Close),
    (1, Step::Close),
    (1, Step::Arrive(1, 1)),
    (0, Step::SetLimit(2)),
    (0, Step::Try(0, 1)),
    (0, Step::Arrive(0, 1)),
    (2, Step::Finish(1)),
    (0, Step::Finish(0)),
    (0, Step::Finish(1)),
    (1, Step::Finish(0)),
    (2, Step::Finish(3)),
    (3, Step::Arrive(0, 1)),
    (3, Step::Arrive(1, 1)),
    (3, Step::Try(2, 1)),
    (3, Step::Finish(0)),
    (3, Step::Arrive(1, 1)),
    (2, Step::Arrive(0, 3)),
    (2, Step::Arrive(1, 1)),
];

/// Takes one step.
pub fn take_step(level: &mut LocalLevel, step: Step) -> Told {
    let slots = level.slots();
    match step {
        Step::Arrive(slot, width) if slot < slots && 1 <= width && width <= 20_000 => {
            let ask = Ask {
                width,
                hash: 7,
                cost: 1,
            };
            let (answer, _event) = level.arrive(slot, ask);
            Told::Answer(answer)
        }
        Step::Try(slot, width) if slot < slots && 1 <= width && width <= 20_000 => {
            let ask = Ask {
                width,
                hash: 7,
                cost: 1,
            };
            Told::Answer(level.try_arrive(slot, ask))
        }
        Step::Finish(slot) if slot < slots => Told::Answer(level.finish(slot)),
        Step::Place(slot) if slot < slots => Told::Place(level.place(slot)),
        Step::Cancel(slot) if slot < slots => {
            let request = level.ticket(slot);
            Told::Cancel(level.cancel(request))
        }
        Step::Close => Told::Close(level.close()),
        Step::SetLimit(limit) if 1 <= limit && limit <= 10_000 => {
            Told::Limit(level.set_limit(limit))
        }
        _ => Told::Nothing,
    }
}
