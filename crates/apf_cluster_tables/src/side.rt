//! One of two clusters that stand side by side.

ghost use Rattle.std.specs.Prelude.{◌≡◌, ◌<◌, IfSome, length, map};
ghost use Rattle.apf_objects.specs.Levels.{level_view};
ghost use Rattle.apf_cluster_tables.specs.Sides as spec;

use crate::level_table::LevelTable;
use apf_objects::Level;

/// The levels of a cluster, and what the requests of each came to, in the same order.
#[derive(Clone, Copy)]
pub struct Side<'a> {
    pub levels: &'a [Level],
    pub tables: &'a [LevelTable],
}

/// The place of the level of this name.
pub fn level_named(levels: &[Level], name: &str) -> Option<usize>
    ensures value { result ≡ spec.level_named name.now (map level_view levels.now) }
    ensures within { IfSome result (λ i. i < length levels.now) }
{
    for (i, level) in levels.iter().enumerate() {
        if level.name.as_str() == name {
            return Some(i);
        }
    }
    None
}
