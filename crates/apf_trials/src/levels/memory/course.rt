//! From the opening of the level to its end.

ghost use Rattle.std.specs.Prelude.{◌≡◌, length};
ghost use Rattle.apf_session.specs.Openings.{level_of};

use crate::levels::answers::Answer;
use crate::levels::memory::calls::{CALLS, make};
use crate::shared::one_queue;
use apf_book::Ask;
use apf_level::{Counts, Naming};
use apf_session::{OpenFault, Opening, Session};
use std::alloc::{AllocError, Global};
use std::marker::Brand;
use std::sync::Wait;

/// The calls of a level that was opened, and what its end told.
#[derive(Clone, Copy)]
pub struct Course {
    pub answers: [Answer; CALLS],
    pub end: Result<Counts, AllocError>,
}

fn run_named<K: Naming, R: Wait>(
    rt: &R,
    alloc: Global,
    opening: Opening<'_>,
) -> Result<Course, OpenFault>
    requires level { K.level ≡ level_of opening.gate opening.board.cell opening.config opening.asks.now }
    requires requests { length opening.gate.shape.widths ≡ 4 }
    requires one { opening.gate.shape.stations ≡ 1 }
{
    let mut session = Session::<K>::open(rt, alloc, opening)?;
    let answers = make(rt, &mut session);
    let end = session.end(rt, alloc).map(|report| report.counts);
    Ok(Course { answers, end })
}

/// Opens a level of one seat and one queue, makes the calls, and ends it.
///
/// # Errors
///
/// Why the level was not opened. Then no call was made.
pub fn run<R: Wait>(rt: &R, alloc: Global) -> Result<Course, OpenFault> {
    let config = one_queue(1, 10);
    let asks = [Ask { width: 1, hash: 7 }; 4];
    let opening = Opening::new(alloc, &config, &asks, 1)?;
    run_named::<Brand, R>(rt, alloc, opening)
}
