//! Runs the requests of an audit log, as they come, on the levels of a cluster, and tells what became of them.
//!
//! - `shape`: what a level is opened with. `fault`: why a log is not simulated.
//! - `asking`: the request of an event, and the level that it is of.
//! - `late`: the rows of those requests that come from a time on.
//! - `drawn`: what is drawn of a level over time.
//! - `lanes`: a lane for each level. `feeding`: each request of a log arrives on the lane of its level.
//! - `demand`: for how many seats the requests of a level ask. `lending`: the seats are divided anew at the end of each period.
//! - `limits`: the limits of a level. `beside`: a request arrives on a second cluster. `both`: a whole log on two clusters.
//! - `closing`: what the requests of each level came to. `running`: a whole log. `tracing`: the requests of a level, as a trace.
//! - `laws`: what is true of every run of a log.
#![tactic(auto)]

mod asking;
mod beside;
mod both;
mod closing;
mod demand;
mod drawn;
mod fault;
mod feeding;
mod lanes;
mod late;
mod laws;
mod lending;
mod limits;
mod running;
mod shape;
mod tracing;

pub use both::{BothFault, BothTables, run_both};
pub use fault::ClusterFault;
pub use laws::every_request_is_counted_once;
pub use running::{ClusterTerms, run_log};
pub use tracing::{TraceFault, write_trace};
