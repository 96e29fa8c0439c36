//! The tests of `apf_trace_reader`, by its public calls alone, of what no run of the program shows: windows of few requests, and calls
//! behind one that failed. `tests/pieces.py` and `tests/drawn.py` test the rest with the window of the program.
//!
//! - `calls`: what the others call.
//! - `windows`: requests in the order of their arrivals.
//! - `failures`: the next call behind a fault, behind an input that failed, and behind memory that was refused.

mod calls;
mod failures;
mod windows;
