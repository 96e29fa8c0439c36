//! What the requests of each flow came to, kept while they end.
//!
//! - `sums`: counts and sums of requests. `account`: those, and how long the executed ones waited.
//! - `row`: one flow's account, with its names. `rows`: all flows, each request in one row.
//! - `table`: the rows in the order of the flows' first lines, and what they print. `comparison`: two tables of one trace,
//!   side by side.
#![tactic(auto)]

mod account;
mod comparison;
mod laws;
mod row;
mod rows;
mod sums;
mod table;

pub use account::{Account, Figures};
pub use comparison::{Place, order_of, write_comparison};
pub use laws::{every_flow_is_met, every_sum_is_an_area, every_table_adds_up};
pub use row::Row;
pub use rows::{MOST_FLOWS, Rows};
pub use sums::Sums;
pub use table::{Line, Table};
