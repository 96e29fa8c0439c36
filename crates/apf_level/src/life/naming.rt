//! Which level a type is of.

use std::marker::Brand;

/// Stands for the identity of one level: its gate, and the settings of its queues. Types that name the same one are of
/// the same level, with no test at run time.
pub trait Naming: Send + Sync {
    ghost use Rattle.apf_line.specs.Levels.{LifeId};

    ghost level: { LifeId };
}

impl Naming for Brand {
    ghost use Rattle.apf_level.specs.LifeNobody.{no_level};

    ghost level = { no_level };
}
