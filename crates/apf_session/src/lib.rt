//! The front door of a priority level: one call opens its gate, one makes the level, and one ends it.
//!
//! A level is named by a type, K, so that no call can mix up two levels. Its gate is opened first, and then a function
//! of one's own, generic over K, makes the level and uses it:
//!
//! ```
//! // one seat, two requests of one flow, and one operator
//! pub fn serve<R: Wait>(rt: &R, alloc: Global) -> Result<Report, OpenFault> {
//!     let config = Config {
//!         limit: 1,
//!         queues: 1,
//!         hand_size: 1,
//!         queue_length_limit: 10,
//!         limit_response: Response::Queue,
//!     };
//!     let asks = [Ask { width: 1, hash: 7 }; 2];
//!     let opening = Opening::new(alloc, &config, &asks, 1)?;
//!     serve_named::<Brand, R>(rt, alloc, opening)
//! }
//!
//! fn serve_named<K: Naming, R: Wait>(
//!     rt: &R,
//!     alloc: Global,
//!     opening: Opening<'_>,
//! ) -> Result<Report, OpenFault>
//!     requires { K.level ≡ level_of opening.gate opening.board.cell opening.config opening.asks.now }
//!     requires { length opening.gate.shape.widths ≡ 2 }
//! {
//!     let mut session = Session::<K>::open(rt, alloc, opening)?;
//!     let mut answers = [session.begin(rt, 0), session.begin(rt, 1)];
//!     for request in [0, 1, 1] {
//!         // what a request answered last says which call follows
//!         answers[request as usize] = match answers[request as usize] {
//!             Answer::Run => session.finish(rt, request),
//!             Answer::Waits => session.poll(rt, request),
//!             other => other,
//!         };
//!     }
//!     Ok(session.end(rt, alloc)?)
//! }
//! ```
//!
//! The first request executes, the second one waits, and is dispatched when the first one finishes. The report has
//! the decisions, the log and the counts. That K names the level of this opening is said in the proof of `serve`, in
//! one line, as `apf_example` has it of a level for life.
//!
//! - `opening`: the gate of a level. `fault`: why a level was not opened.
//! - `token`: what a request holds. `answer`: what its calls answer. `request`: one request, from its arrival to its
//!   end.
//! - `operator`: cancels, closes, reads the level word and sets the limit.
//! - `session`: a level with all of these, from its opening to its end.
//! - `follower`: one reader of a level's log.
//! - `life`: the front door of a level for a server's whole life.
#![tactic(auto)]

mod answer;
mod fault;
mod follower;
pub mod life;
mod opening;
mod operator;
mod request;
mod session;
mod token;

pub use answer::{Answer, Place};
pub use apf_level::{Owed, OwedStrike, Owes};
pub use fault::OpenFault;
pub use follower::Follower;
pub use opening::Opening;
pub use operator::Operator;
pub use request::{Request, release};
pub use session::Session;
pub use token::Token;
