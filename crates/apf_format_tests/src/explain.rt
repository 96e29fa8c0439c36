//! The tests of `apf_explain`, and of `apf_files`, whose faults it explains, of what no run of the program shows. A command writes a
//! line to memory before it prints it, and explains the faults that a reader answered. `tests/explain.py` and `tests/messages.py` test
//! all lines of those.
//!
//! - `calls`: what the others call.
//! - `rooms`: writers that fail in the middle of a line.
//! - `others`: faults that are not those of the bytes, and calls without memory.
//! - `parsed`: what is read of files.

mod calls;
mod others;
mod parsed;
mod rooms;
