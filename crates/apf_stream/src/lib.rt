//! Runs requests that come in the order of their times on a priority level, in one thread, over slots that are used again.
//!
//! Only who is there takes room: a request holds a slot from its arrival until it is over, and is told then.
//!
//! - `asked`: what a request asks for, and what is noted of it while it is there. `ended`: what became of it.
//! - `deed`: what is done with a request.
//! - `stream`: a level, a calendar of its slots, and what is noted of who is there. `fault`: why a stream does not go on.
//! - `reading`: what a request that waits reads. `acting`: the calls of the level, and what follows of them.
//! - `laws`: what is true of every run.
#![tactic(auto)]

mod acting;
mod asked;
mod deed;
mod ended;
mod fault;
mod laws;
mod reading;
mod stream;

pub use asked::{Asked, Hold};
pub use deed::{Deed, NewLimit};
pub use ended::Ended;
pub use fault::StreamFault;
pub use laws::{
    every_end_is_in_time, every_request_is_honoured, every_request_is_told_once, every_run_goes_on,
    every_told_request_came,
};
pub use stream::Stream;
