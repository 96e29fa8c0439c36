//! Reads a line that a kube-apiserver logs of a request, as klog writes it with `-v=3`.
//!
//! - `fault`: why a line is not read.
//! - `key`: the keys that are read.
//! - `pairs`: the pairs of a key and its value, and the value of a key.
//! - `texts`: what a text between quotes says.
//! - `numbers`: numbers in decimal digits.
//! - `times`: how long something took, as Go writes it.
//! - `line`: what a line says of a request.
#![tactic(auto)]

mod fault;
mod key;
mod line;
mod numbers;
mod pairs;
mod texts;
mod times;

pub use fault::RequestLineFault;
pub use key::Key;
pub use line::{LONGEST_RUN, MOST_SEATS, RequestLine, read_line, written_at};
