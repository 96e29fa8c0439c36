//! Which schema of a cluster the request of an audit event is of.
//!
//! - `said`: the texts of an event.
//! - `routing`: the place of the schema.
#![tactic(auto)]

mod routing;
mod said;

pub use routing::{place_in, schema_of_event};
pub use said::text_or_empty;
