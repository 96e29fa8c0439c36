//! The tests of a level for a server's whole life, by the public calls of `life` of `apf_session` and `apf_level` alone.
//!
//! In one thread:
//!
//! - `rows`: worked calls over a few slots.
//! - `past`: all that ever came to a level, and what the plain program says of it. `histories`: many requests over a
//!   few slots, one after another, whose whole history it judges.
//!
//! In many threads:
//!
//! - `crowds`: many requests over eight slots, with cancels by tickets that are late or not. Every second one
//!   sleeps until it is decided.

mod crowds;
mod histories;
mod past;
mod rows;
