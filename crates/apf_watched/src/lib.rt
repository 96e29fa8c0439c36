//! A priority level as one plain value, whose log both sides of the bound in seat-time follow.
//!
//! - `note`: what is noted of a request that entered a queue. `telling`: tells an event of the log.
//! - `watch`: what is kept of a log. `level`: a level whose calls are followed.
#![tactic(auto)]

mod level;
mod note;
mod telling;
mod watch;

pub use level::WatchedLevel;
pub use note::Note;
pub use watch::Watch;
