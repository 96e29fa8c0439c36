//! The tests of a book for life over a gate whose slots are used again, by the public calls of both alone.
//!
//! - `tenant`: a slot's Pass with how far its request is.
//! - `plainly`: what each queue was charged, and the choice by it, in plain lists.
//! - `lives`: many requests over a few slots, one after another, whose whole log the plain programs judge.

mod lives;
mod plainly;
mod tenant;
