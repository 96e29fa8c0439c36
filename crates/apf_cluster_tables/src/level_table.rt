//! What the requests of a level came to, or those that came from a time on.

use apf_rows::Table;
use apf_strips::Strip;

/// What the requests of a level came to, or those that came from a time on.
#[derive(Drop)]
pub struct LevelTable {
    /// From when on requests are counted, in microseconds. Those that came before are left out.
    pub since: u64,
    /// The nominal limit of the level.
    pub nominal: u64,
    /// The least limit that it had from then on, and the greatest.
    pub least: u32,
    pub greatest: u32,
    /// What its flows came to.
    pub table: Table,
    /// How many of these requests the server of the log turned away.
    pub turned_away: u64,
    /// When the last of all that came was over, in microseconds, or 0.
    pub last: u64,
    /// What is drawn of all that came, if that is asked for.
    pub strip: Option<Strip>,
}
