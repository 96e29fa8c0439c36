//! Why a change is refused.

ghost use Rattle.std.specs.Prelude.{◌≡◌};
ghost use Rattle.apf_changes.specs.Faults.{change_fault_number};

use thiserror::Error;

/// What may stand behind the `=` of a change.
#[derive(Clone, Copy, Debug, PartialEq, Eq)]
pub enum Wanted {
    /// A whole number below 2^32, or one behind `*` or `+`.
    Number,
    /// The same, or `none`.
    NumberOrNone,
    /// `Queue` or `Reject`.
    Response,
    /// `user`, `namespace` or `none`.
    Distinguisher,
    /// `0`, a whole number below 2^32 with `x` behind it, or one behind `*` or `+`.
    Rate,
}

/// The least and the largest number that may stand somewhere.
#[derive(Clone, Copy, Debug, PartialEq, Eq)]
pub struct Bounds {
    pub low: u32,
    pub high: u32,
}

/// Why a change was refused: the first fault. The text is judged before the cluster, its key before its value, and of the cluster
/// what is named before the number.
#[derive(Clone, Copy, Debug, PartialEq, Eq, Error)]
pub enum ChangeFault {
    /// 1: the text has no `=`.
    #[error("no value")]
    NoValue,
    /// 2: what stands before the last `=` is no key.
    #[error("unknown key")]
    UnknownKey,
    /// 3: what stands behind it is not what may stand there.
    #[error("bad value")]
    BadValue(Wanted),
    /// 4: no level has the name.
    #[error("no such level")]
    NoLevel,
    /// 5: no schema has the name.
    #[error("no such schema")]
    NoSchema,
    /// 6: the schema dangles, since its level is not there. Nothing else of it can be changed.
    #[error("dangling schema")]
    Dangling,
    /// 7: the level is exempt, and has no such setting.
    #[error("exempt level")]
    Exempt,
    /// 8: the level has no queues, since it rejects.
    #[error("no queues")]
    NoQueues,
    /// 9: no number stands there that could be multiplied or added to.
    #[error("no number")]
    NoNumber,
    /// 10: the number that is meant, and the bounds that it is not within.
    #[error("out of bounds")]
    OutOfBounds(u64, Bounds),
    /// 11: memory was refused.
    #[error("out of memory")]
    NoMemory,
}

impl ChangeFault {
    /// The fault's number, 1 to 11.
    pub fn number(&self) -> u8
        ensures { result ≡ change_fault_number self.now }
    {
        match self {
            ChangeFault::NoValue => 1,
            ChangeFault::UnknownKey => 2,
            ChangeFault::BadValue(_) => 3,
            ChangeFault::NoLevel => 4,
            ChangeFault::NoSchema => 5,
            ChangeFault::Dangling => 6,
            ChangeFault::Exempt => 7,
            ChangeFault::NoQueues => 8,
            ChangeFault::NoNumber => 9,
            ChangeFault::OutOfBounds(_, _) => 10,
            ChangeFault::NoMemory => 11,
        }
    }
}
