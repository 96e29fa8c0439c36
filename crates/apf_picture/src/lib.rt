//! Draws a simulated run as one SVG.
//!
//! - `scene`: what a picture is made of.
//! - `scale`: where a value lies on a scale, and the marks of the axis of time.
//! - `rank`: which flows have a row of their own.
//! - `life`: what is drawn of one request.
//! - `span`: what there is from a time until another one.
//! - `totals`: changes by their times, and how much they are together until a time.
//! - `timeline`: how much there is of spans at a time, and the most that there ever is.
//! - `columns`: the seats in use and the lengths of the queues, at the time of each column and at most.
//! - `label`: what a row is called, and the schema that all flows share.
//! - `cutting`: how the names are cut, so that the rows are told apart.
//! - `row`: the requests of one row, and their numbers.
//! - `words`: numbers and times in words.
//! - `names`: names, of long ones the beginning and the end.
//! - `style`: the colours.
//! - `head`: the title, the description and what stands above the parts.
//! - `axis`, `seats`, `queues`, `requests`: the parts of the picture.
//! - `picture`: the whole.
//! - `laws`: what holds of every name.
#![tactic(auto)]

mod axis;
mod columns;
mod cutting;
mod head;
mod label;
mod laws;
mod life;
mod names;
mod picture;
mod queues;
mod rank;
mod requests;
mod row;
mod scale;
mod scene;
mod seats;
mod span;
mod style;
mod timeline;
mod totals;
mod words;

pub use axis::write_axis;
pub use laws::every_name_is_escaped;
pub use names::write_character;
pub use picture::Picture;
pub use scale::{Unit, scaled, step};
pub use scene::{Outcome, Scene};
pub use words::{write_counted, write_tenths, write_time};
