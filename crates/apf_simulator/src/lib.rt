//! Runs the requests of a trace, as they come, on one level or on two, and tells what became of them.
//!
//! - `asked`: what the request of a line asks for. `charge`: what requests are charged where nobody says it.
//! - `lane`: a level with what its requests came to. `lanes`: one or two of them, on which the same requests run.
//! - `listener`: who is told what runs on a lane. `held`: requests that came, with what became of those that were told.
//! - `telling`: tells what became of each request, in the order in which they came. `fates`: the lines of that.
//! - `timeline`: the script of the calls. `listed`: the requests that were there in a stretch of the run,
//!   with what became of each, in the order of their lines.
//! - `progress`: who is told how far the run is.
//! - `sides`: the line of both sides of the bound.
//! - `counting`: each request that is told is counted.
//! - `feeding`: runs each request of a trace on the lanes. `fault`: why a trace is not simulated.
//! - `running`: runs a trace on a level, and lets one listen. `simulating`: prints what its flows came to. `comparing`: runs it on
//!   two levels.
#![tactic(auto)]

mod asked;
mod charge;
mod comparing;
mod counting;
mod fates;
mod fault;
mod feeding;
mod held;
mod lane;
mod lanes;
mod listed;
mod listener;
mod progress;
mod running;
mod sides;
mod simulating;
mod telling;
mod timeline;

pub use comparing::compare;
pub use fault::SimulatorFault;
pub use held::TimeWindow;
pub use lane::{Lane, MOST_SLOTS};
pub use lanes::Lanes;
pub use listed::{Listed, MOST_LISTED};
pub use progress::Progress;
pub use running::{Terms, list, write_fates, write_timeline};
pub use simulating::simulate;
