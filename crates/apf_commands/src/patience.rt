//! How long something takes, as a command line says it: how long a request waits before it gives up, and times of a run.

ghost use Rattle.std.specs.Prelude.{◌≡◌, ◌<◌, ◌≤◌, ◌^◌, ◌*◌, ◌⊎◌, ℕ, IfSome, IfNone, length, true};
ghost use Rattle.std.specs.List.{list_all, position_or_len, before_first, after_first};
ghost use Rattle.apf_commands.specs.Patience.{is_digit, is_point, most_patience, most_time, most_digits, IsTime, IsNoTime, IsTimeIn, IsNoTimeIn, IsAmountIn, IsNoAmountIn, IsWholeIn, IsNoWholeIn, IsDecimalIn, IsNoDecimalIn, IsPartIn, IsNoPartIn};

/// The longest patience, in microseconds.
const MOST_PATIENCE: u64 = 1_000_000_000;

/// The latest time, in microseconds: nothing of a run is later.
const MOST_TIME: u64 = 200_000_000_000_000;

/// The unit of a time.
#[derive(Clone, Copy)]
pub(crate) enum Unit {
    /// No unit is named: microseconds.
    Plain,
    Microseconds,
    Milliseconds,
    Seconds,
    Minutes,
}

impl Unit {
    ghost use Rattle.std.specs.Prelude.{◌*◌};
    ghost use Rattle.apf_commands.specs.Patience.{microseconds_of, name_of};

    // What stands behind the number.
    fn name(self) -> &'static str
        ensures { result.now ≡ name_of self }
    {
        match self {
            Unit::Plain => "",
            Unit::Microseconds => "us",
            Unit::Milliseconds => "ms",
            Unit::Seconds => "s",
            Unit::Minutes => "m",
        }
    }

    // This many of it, in microseconds.
    fn times(self, count: u64) -> u128
        ensures value { result ≡ count * microseconds_of self }
        ensures within { result ≤ 18446744073709551615 * 60000000 }
    {
        match self {
            Unit::Plain | Unit::Microseconds => u128::from(count),
            Unit::Milliseconds => u128::from(count) * 1000,
            Unit::Seconds => u128::from(count) * 1_000_000,
            Unit::Minutes => u128::from(count) * 60_000_000,
        }
    }
}

// The time, if it is at most the longest one.
fn bounded(time: u128, most: u64) -> Option<u64>
    ensures some { IfSome result (λ same. (same ≡ time) × (time ≤ most)) }
    ensures none { IfNone result (most < time) }
{
    if time <= u128::from(most) {
        Some(time as u64)
    } else {
        None
    }
}

// The time of a whole number in this unit, in microseconds.
fn whole_in(unit: Unit, digits: &str, most: u64) -> Option<u64>
    ensures some { IfSome result (IsWholeIn most unit digits.now) }
    ensures none { IfNone result (IsNoWholeIn most unit digits.now) }
{
    let Ok(number) = digits.parse::<u64>() else {
        return None;
    };
    bounded(unit.times(number), most)
}

fn are_digits(bytes: &[u8]) -> bool
    ensures { result ≡ list_all is_digit bytes.now }
{
    bytes.iter().all(|byte| matches!(byte, b'0'..=b'9'))
}

// 10 to the power of a count of digits, which may stand behind a point.
fn power(digits: usize) -> Option<u64>
    ensures some { IfSome result (λ power. (power ≡ 10 ^ digits) × (1 ≤ digits) × (digits ≤ most_digits)) }
    ensures positive { IfSome result (λ power. 1 ≤ power) }
    ensures none { IfNone result ((digits ≡ 0) ⊎ (most_digits < digits)) }
{
    match digits {
        1 => Some(10),
        2 => Some(100),
        3 => Some(1000),
        4 => Some(10_000),
        5 => Some(100_000),
        6 => Some(1_000_000),
        _ => None,
    }
}

// The one number by which the other one was multiplied, if there is one.
#[tactic(auto, using(crate::proofs::Parts::divides, crate::proofs::Parts::no_multiple))]
fn divided(product: u128, power: u64) -> Option<u128>
    requires { 1 ≤ power }
    ensures some { IfSome result (λ rest. product ≡ rest * power) }
    ensures small { IfSome result (λ rest. rest ≤ product) }
    ensures none { IfNone result ((rest : ℕ) → product ≡ rest * power → ⊥) }
{
    let power = u128::from(power);
    if product % power == 0 {
        Some(product / power)
    } else {
        None
    }
}

// The microseconds of what stands behind a point, where this unit makes whole ones of it.
fn part_in(unit: Unit, digits: &str) -> Option<u128>
    ensures some { IfSome result (IsPartIn unit digits.now) }
    ensures small { IfSome result (λ rest. rest ≤ 18446744073709551615 * 60000000) }
    ensures none { IfNone result (IsNoPartIn unit digits.now) }
{
    let Some(power) = power(digits.len()) else {
        return None;
    };
    if !are_digits(digits.as_bytes()) {
        return None;
    }
    let Ok(number) = digits.parse::<u32>() else {
        return None;
    };
    divided(unit.times(u64::from(number)), power)
}

// What stands before the first point of a text, and behind it.
fn around_point(text: &str) -> Option<(&str, &str)>
    ensures some { IfSome result (λ parts. (position_or_len is_point text.now < length text.now)
        × (parts.0.now ≡ before_first is_point text.now) × (parts.1.now ≡ after_first is_point text.now)) }
    ensures none { IfNone result (position_or_len is_point text.now ≡ length text.now) }
{
    text.split_once('.')
}

// The time of a number with a point, in a unit that is named, in microseconds.
fn decimal_in(unit: Unit, digits: &str, most: u64) -> Option<u64>
    ensures some { IfSome result (IsDecimalIn most unit digits.now) }
    ensures none { IfNone result (IsNoDecimalIn most unit digits.now) }
{
    if matches!(unit, Unit::Plain) {
        return None;
    }
    let Some((whole, part)) = around_point(digits) else {
        return None;
    };
    let Ok(count) = whole.parse::<u64>() else {
        return None;
    };
    let Some(rest) = part_in(unit, part) else {
        return None;
    };
    let Some(time) = bounded(unit.times(count) + rest, most) else {
        return None;
    };
    Some(time)
}

// The time of a number in this unit, in microseconds.
fn amount_in(unit: Unit, digits: &str, most: u64) -> Option<u64>
    ensures some { IfSome result (IsAmountIn most unit digits.now) }
    ensures none { IfNone result (IsNoAmountIn most unit digits.now) }
{
    if let Some(time) = whole_in(unit, digits, most) {
        return Some(time);
    }
    let Some(time) = decimal_in(unit, digits, most) else {
        return None;
    };
    Some(time)
}

// The time of a text in this unit, in microseconds.
fn time_in(unit: Unit, text: &str, most: u64) -> Option<u64>
    ensures some { IfSome result (IsTimeIn most unit text.now) }
    ensures none { IfNone result (IsNoTimeIn most unit text.now) }
{
    let Some(digits) = text.strip_suffix(unit.name()) else {
        return None;
    };
    let Some(time) = amount_in(unit, digits, most) else {
        return None;
    };
    Some(time)
}

// The time of a text, in microseconds, if it is at most the longest one.
fn time_of(text: &str, most: u64) -> Option<u64>
    ensures some { IfSome result (IsTime most text.now) }
    ensures most { IfSome result (λ time. time ≤ most) }
    ensures none { IfNone result (IsNoTime most text.now) }
{
    if let Some(time) = time_in(Unit::Plain, text, most) {
        return Some(time);
    }
    if let Some(time) = time_in(Unit::Microseconds, text, most) {
        return Some(time);
    }
    if let Some(time) = time_in(Unit::Milliseconds, text, most) {
        return Some(time);
    }
    if let Some(time) = time_in(Unit::Seconds, text, most) {
        return Some(time);
    }
    let Some(time) = time_in(Unit::Minutes, text, most) else {
        return None;
    };
    Some(time)
}

/// How long a request waits before it gives up, in microseconds: a decimal number with `us`, `ms`, `s` or `m` behind it,
/// as `1.5s`, or a whole number alone. `None` for another text, for one that is no whole number of microseconds, for more
/// than six digits behind the point, and for more than 1,000,000,000 microseconds.
pub fn read_patience(text: &str) -> Option<u32>
    ensures some { IfSome result (IsTime most_patience text.now) }
    ensures most { IfSome result (λ patience. patience ≤ 1000000000) }
    ensures none { IfNone result (IsNoTime most_patience text.now) }
{
    let Some(patience) = time_of(text, MOST_PATIENCE) else {
        return None;
    };
    Some(patience as u32)
}

/// A time of a run, in microseconds from its beginning: a text as of a patience, but up to 200,000,000 seconds.
pub fn read_time(text: &str) -> Option<u64>
    ensures some { IfSome result (IsTime most_time text.now) }
    ensures none { IfNone result (IsNoTime most_time text.now) }
{
    time_of(text, MOST_TIME)
}
