//! The front door of a level for a server's whole life: one call opens its gate, one makes the level, and one ends it.
//!
//! A level is named by a type, K, so that no call can mix up two levels. Its gate is opened first, and then a function
//! of one's own, generic over K, makes the level and uses it. A level has slots, each for one request after another:
//!
//! ```
//! let config = Config {
//!     limit: 1,
//!     queues: 1,
//!     hand_size: 1,
//!     queue_length_limit: 10,
//!     limit_response: Response::Queue,
//! };
//! // at most two requests are there at once; one operator
//! let opening = Opening::new(alloc, &config, 2, 1)?;
//! ```
//!
//! ```
//! let mut session = Session::<K>::open_for_life(rt, alloc, opening)?;
//! let ask = Ask { width: 1, hash: 7 };
//! let mut answer = session.arrive(rt, 0, ask);
//! // what the slot answered last says which call follows
//! answer = match answer {
//!     // here the request is served; then it gives its seat to whoever waits
//!     Answer::Run => session.finish(rt, 0),
//!     // it may have been dispatched meanwhile
//!     Answer::Waits => session.poll(rt, 0),
//!     // the slot is free, and its next request arrives
//!     Answer::Over(_) | Answer::Released(_) => session.arrive(rt, 0, ask),
//!     other => other,
//! };
//! ```
//!
//! `apf_example` has this as a program, and the same with a thread for each slot.
//!
//! - `opening`: the gate of a level.
//! - `token`: what a slot holds. `answer`: what its calls answer. `request`: a slot, whose requests come one after
//!   another.
//! - `operator`: cancels, closes, reads the level word and sets the limit.
//! - `session`: a level with all of these, from its opening to its end.

mod answer;
mod opening;
mod operator;
mod request;
mod session;
mod token;

pub use crate::fault::OpenFault;
pub use answer::{Answer, Place};
pub use apf_book::Settling;
pub use apf_level::life::{Owed, OwedStrike, Owes};
pub use opening::Opening;
pub use operator::Operator;
pub use request::{Request, release};
pub use session::Session;
pub use token::Token;
