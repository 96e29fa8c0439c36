//! The tests of what is read and written, by the public calls of its crates alone, of what no run of the program shows: values that no
//! file has and no command prints, texts that no command prints, calls behind one that failed, and writers that fail in the middle of
//! a line that the program holds whole. What a run shows is tested by the scripts of `tests/`.
//!
//! They stand in a crate of their own, as a crate with tests is proved twice, and in one crate, as each one loads the libraries.
//!
//! - `asserts`: an assertion as a call.
//! - `traces`, `trace_reader`, `picture`, `protocol`, `request_lines`, `explain`, `audit`: the tests of the crate of that name.
#![tactic(auto)]

#[cfg(test)]
mod asserts;
#[cfg(test)]
mod audit;
#[cfg(test)]
mod explain;
#[cfg(test)]
mod picture;
#[cfg(test)]
mod protocol;
#[cfg(test)]
mod request_lines;
#[cfg(test)]
mod trace_reader;
#[cfg(test)]
mod traces;
