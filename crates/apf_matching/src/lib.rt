//! Which schema of a cluster a request is of, and the limits of its levels.
//!
//! - `request`: what is known of a request.
//! - `texts`: lists of texts in which `*` stands for everything.
//! - `subject`: whose requests a subject is about.
//! - `miss`: the first thing of a schema that a request does not match.
//! - `first`: the first schema that a request matches.
//! - `limits`: the nominal, least and largest limit of a level.
//! - `laws`: what holds of every cluster.
#![tactic(auto)]

mod first;
mod laws;
mod limits;
mod miss;
mod request;
mod subject;
mod texts;

pub use first::{distinguisher_of, schema_among, schema_for};
pub use laws::every_nominal_sum;
pub use limits::{LevelLimits, MAX_SEATS, limits_of, sum_of_shares};
pub use miss::{Miss, matches, miss_of};
pub use request::{Request, Target};
