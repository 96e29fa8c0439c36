//! The value of a line of JSON, and what stands in it, with nothing copied of most lines.
//!
//! - `usual`: which texts are usual: those that `serde_json` reads as the tape does.
//! - `node`: a value within the line, and what is looked up in it.
//! - `texts`: the texts of an array.
//! - `line`: the value of a line, read into room that is kept.
#![tactic(auto)]

mod line;
mod node;
mod texts;
mod usual;

pub use line::{LineValue, Room};
pub use node::Node;
pub use texts::texts_at;
