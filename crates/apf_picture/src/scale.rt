//! Where a value lies on a scale, and the marks of the axis of time.

ghost use Rattle.std.specs.Prelude.{◌≡◌, ◌<◌, ◌≤◌, ◌+◌, ◌*◌};
ghost use Rattle.apf_picture.specs.Scales.{scaled_of, IsStep};

/// How wide the plots are: this many columns, of one pixel each.
pub(crate) const COLUMNS: u64 = 880;

/// Where a value lies on a scale of this size, on which the whole is at the end. What is more than the whole is there, too.
pub fn scaled(value: u64, whole: u64, size: u64) -> u64
    ensures place { result ≡ scaled_of value whole size }
    ensures within { result ≤ size }
{
    if whole == 0 {
        return 0;
    }
    (u128::from(value.min(whole)) * u128::from(size) / u128::from(whole)) as u64
}

/// A unit of time.
#[derive(Clone, Copy)]
pub enum Unit {
    Microseconds,
    Milliseconds,
    Seconds,
    Minutes,
    Hours,
    Days,
}

impl Unit {
    ghost use Rattle.apf_picture.specs.Scales.{unit_of, unit_by, unit_length, unit_name};

    /// The longest unit of which the time has four at least. Microseconds, if it has four of none.
    pub fn of(time: u64) -> Unit
        ensures { result ≡ unit_of time }
    {
        Unit::longest(time / 4)
    }

    /// The longest unit of which the time has one at least: the first one of its text.
    pub(crate) fn longest(time: u64) -> Unit
        ensures { result ≡ unit_by time }
    {
        match time {
            86_400_000_000.. => Unit::Days,
            3_600_000_000.. => Unit::Hours,
            60_000_000.. => Unit::Minutes,
            1_000_000.. => Unit::Seconds,
            1_000.. => Unit::Milliseconds,
            _ => Unit::Microseconds,
        }
    }

    /// In microseconds.
    pub fn length(self) -> u64
        ensures { result ≡ unit_length self }
    {
        match self {
            Unit::Microseconds => 1,
            Unit::Milliseconds => 1_000,
            Unit::Seconds => 1_000_000,
            Unit::Minutes => 60_000_000,
            Unit::Hours => 3_600_000_000,
            Unit::Days => 86_400_000_000,
        }
    }

    /// As XML has it.
    pub(crate) fn name(self) -> &'static str
        ensures { result.now ≡ unit_name self }
    {
        match self {
            Unit::Microseconds => "&#181;s",
            Unit::Milliseconds => "ms",
            Unit::Seconds => "s",
            Unit::Minutes => "min",
            Unit::Hours => "h",
            Unit::Days => "d",
        }
    }
}

// A tenth of the time, rounded up.
fn tenth(time: u64) -> u64
    ensures enough { time ≤ result * 10 }
    ensures small { result * 10 < time + 10 }
{
    if time % 10 == 0 {
        return time / 10;
    }
    time / 10 + 1
}

/// The distance of the axis' marks: 1, 2 or 5 times a power of ten of units, and the least one with eleven marks at most.
pub fn step(end: u64, unit: u64) -> u64
    requires { 0 < unit × unit ≤ 86400000000 }
    ensures step { IsStep end unit result }
    ensures some { 0 < result }
{
    let least = tenth(end);
    let mut one = unit;
    while 5 * one < least {
        one *= 10;
    }
    if one >= least {
        one
    } else if 2 * one >= least {
        2 * one
    } else {
        5 * one
    }
}
