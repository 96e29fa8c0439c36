//! Which level a type is of.

use std::marker::Brand;

/// Stands for the identity of one level: its gate, the log that it began with, and the cell of its statistics. Types that name the
/// same one are of the same level, with no test at run time.
pub trait Naming: Send + Sync {
    ghost use Rattle.apf_level.specs.Levels.{LevelId};

    ghost level: { LevelId };
}

impl Naming for Brand {
    ghost use Rattle.apf_level.specs.Nobody.{no_level};

    ghost level = { no_level };
}
