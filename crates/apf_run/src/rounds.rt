//! Runs requests by workers, in rounds: each slot of a level is given again and again, to the same request.
//!
//! - `plan`: which level, which requests and how many rounds a run is of.
//! - `newest`: which request holds a slot now, as its worker notes it.
//! - `operator`: a worker's Station, and `worker` a worker with its share of the slots. `crew`: all workers,
//!   dealt out, started and joined. `finished`: what they gave back. `watch`: who looks at a run meanwhile.
//! - `running`: runs requests by workers, in rounds. `book`: writes what such a run reports.

mod book;
mod crew;
mod finished;
mod newest;
mod operator;
mod plan;
mod running;
mod watch;
mod worker;

pub use apf_level::life::{Executing, Report};
pub use book::write_book;
pub use running::run_rounds;
pub use watch::{Nobody, Watch};
pub use worker::Work;
