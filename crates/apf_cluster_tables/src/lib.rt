//! What is printed of the levels of a cluster whose requests were simulated, and of their flows.
//!
//! - `level_table`: what the requests of a level came to. `limits`: the limit of a level that holds requests back.
//! - `side`: one of two clusters that stand side by side.
//! - `order`: the flows that waited or were turned away, in the order in which they are told. `flows`: the flows of a cluster, and
//!   where each stands by its names. `pairs`: the flows of two clusters in pairs, in the order in which they are told.
//! - `units`: numbers as people read them. `tables`: what is printed of a cluster for people. `beside`: two texts of columns, one
//!   beside the other. `both`: what is printed of two clusters for people. `fault`: why that is not written.
//! - `json`: what is printed for programs, of one cluster or of two.
#![tactic(auto)]

mod beside;
mod both;
mod fault;
mod flows;
mod json;
mod level_table;
mod limits;
mod order;
mod pairs;
mod side;
mod tables;
mod units;

pub use both::write_both_tables;
pub use fault::TablesFault;
pub use flows::FlowAt;
pub use json::{write_both_objects, write_objects};
pub use level_table::LevelTable;
pub use limits::limit_of;
pub use order::{FlowPlace, flows_in_order};
pub use pairs::{FlowPair, pairs_in_order};
pub use side::{Side, level_named};
pub use tables::write_tables;
