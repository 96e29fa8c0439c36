//! Draws what became of the priority levels of a cluster over the time of a log as one SVG.
//!
//! Each level has a strip: the seats in use as an area below the limit, the requests that wait as an area on a scale of their own,
//! and a mark for each bin in which requests were rejected. Where a second cluster stands beside the first, a level has two strips.
//! What is drawn of an amount is the mean of each bin, in thousandths, by integers alone.
//!
//! - `level`: what is drawn of a level.
//! - `means`: the means of bins, the greatest of them, and how high they are drawn.
//! - `columns`: the paths of areas, lines and marks.
//! - `facts`: the numbers of a strip in words.
//! - `strip`: one strip.
//! - `head`: the title, the description and what stands above the strips.
//! - `style`: the colours.
//! - `picture`: the whole.
#![tactic(auto)]

mod columns;
mod facts;
mod head;
mod level;
mod means;
mod picture;
mod strip;
mod style;

pub use level::LevelStrip;
pub use picture::write_picture;
