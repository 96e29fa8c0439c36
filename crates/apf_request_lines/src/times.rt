//! How long something took, as Go writes it.

ghost use Rattle.std.specs.Prelude.{◌≡◌, ◌≤◌, ◌<◌, ◌*◌, ◌^◌, length, drop, IfSome, IsTrue, option_map};
ghost use Rattle.apf_request_lines.specs.Steps.{steps};
ghost use Rattle.apf_request_lines.specs.Times as spec;

use crate::numbers::{is_digit, number_of};

/// The longest time that is read, in nanoseconds: 10,000 seconds, and what is less than a microsecond.
const LONGEST: u128 = 10_000_000_000_999;

/// A part of a unit: so many of this power of ten, and what stands behind its digits.
#[derive(Clone, Copy)]
struct Fraction<'a> {
    number: u64,
    power: u64,
    rest: &'a [u8],
}

/// Whether this name stands in front.
pub(crate) fn begins(bytes: &[u8], name: &[u8]) -> bool
    ensures value { result ≡ spec.begins bytes.now name.now }
    ensures within { IsTrue result → length name.now ≤ length bytes.now }
{
    bytes.starts_with(name)
}

// The unit whose name stands in front: its nanoseconds, and how many bytes the name has.
fn unit_at(bytes: &[u8]) -> Option<(u64, usize)>
    ensures value { result ≡ spec.unit_at bytes.now }
    ensures most { IfSome result (λ unit. unit.0 ≤ 3600000000000) }
    ensures within { IfSome result (λ unit. unit.1 ≤ length bytes.now) }
{
    if begins(bytes, b"ns") {
        Some((1, 2))
    } else if begins(bytes, b"us") {
        Some((1_000, 2))
    } else if begins(bytes, b"\xc2\xb5s") {
        Some((1_000, 3))
    } else if begins(bytes, b"\xce\xbcs") {
        Some((1_000, 3))
    } else if begins(bytes, b"ms") {
        Some((1_000_000, 2))
    } else if begins(bytes, b"s") {
        Some((1_000_000_000, 1))
    } else if begins(bytes, b"m") {
        Some((60_000_000_000, 1))
    } else if begins(bytes, b"h") {
        Some((3_600_000_000_000, 1))
    } else {
        None
    }
}

// How many digits stand in front.
fn count_digits(bytes: &[u8]) -> usize
    ensures count { result ≡ spec.digits bytes.now }
    ensures within { result ≤ length bytes.now }
{
    let mut count = 0;
    let mut rest = bytes;
    while let [first, others @ ..] = rest {
        if !is_digit(*first) {
            return count;
        }
        count += 1;
        rest = others;
    }
    count
}

// 10 to the power of a count of digits.
fn power_of_ten(digits: usize) -> u64
    requires { digits ≤ 9 }
    ensures value { result ≡ 10 ^ digits }
    ensures some { 1 ≤ result }
{
    match digits {
        0 => 1,
        1 => 10,
        2 => 100,
        3 => 1_000,
        4 => 10_000,
        5 => 100_000,
        6 => 1_000_000,
        7 => 10_000_000,
        8 => 100_000_000,
        _ => 1_000_000_000,
    }
}

// The digits behind a point, one to nine of them.
#[tactic(auto, unfolding(crate::specs::Times::fraction_behind))]
fn fraction_behind(bytes: &[u8]) -> Option<Fraction<'_>>
    ensures value { option_map spec.fraction result ≡ spec.fraction_behind bytes.now }
    ensures below { IfSome result (λ part. part.number < 10 ^ 18) }
    ensures some { IfSome result (λ part. 1 ≤ part.power) }
{
    let digits = count_digits(bytes);
    if digits > 9 {
        return None;
    }
    let Some(number) = number_of(&bytes[..digits]) else {
        return None;
    };
    Some(Fraction {
        number,
        power: power_of_ten(digits),
        rest: &bytes[digits..],
    })
}

// The point in front with its digits; without a point no part.
#[tactic(auto, unfolding(crate::specs::Times::fraction_at))]
fn fraction_at(bytes: &[u8]) -> Option<Fraction<'_>>
    ensures value { option_map spec.fraction result ≡ spec.fraction_at bytes.now }
    ensures below { IfSome result (λ part. part.number < 10 ^ 18) }
    ensures some { IfSome result (λ part. 1 ≤ part.power) }
{
    if begins(bytes, b".") {
        return fraction_behind(&bytes[1..]);
    }
    Some(Fraction {
        number: 0,
        power: 1,
        rest: bytes,
    })
}

// So many of a unit of so many nanoseconds.
fn nanoseconds(count: u64, unit: u64) -> u128
    requires few { count < 10 ^ 18 }
    requires short { unit ≤ 3600000000000 }
    ensures value { result ≡ count * unit }
    ensures below { result ≤ 10 ^ 18 * 3600000000000 }
{
    u128::from(count) * u128::from(unit)
}

// A number in front with its unit, in nanoseconds rounded down, and what stands behind it.
#[tactic(auto, unfolding(crate::specs::Times::amount_at))]
fn amount_at(bytes: &[u8]) -> Option<(u128, &[u8])>
    ensures value { option_map (λ amount. (amount.0, amount.1.now)) result ≡ spec.amount_at bytes.now }
    ensures below { IfSome result (λ amount. amount.0 ≤ 2 * (10 ^ 18 * 3600000000000)) }
{
    let digits = count_digits(bytes);
    let Some(whole) = number_of(&bytes[..digits]) else {
        return None;
    };
    let Some(part) = fraction_at(&bytes[digits..]) else {
        return None;
    };
    let Some((unit, length)) = unit_at(part.rest) else {
        return None;
    };
    let time = nanoseconds(whole, unit) + nanoseconds(part.number, unit) / u128::from(part.power);
    Some((time, &part.rest[length..]))
}

// A time with one more amount behind it, and what stands behind that.
fn with_amount(so_far: u64, bytes: &[u8]) -> Option<(u64, &[u8])>
    requires { so_far ≤ spec.longest }
    ensures value { option_map (λ more. (more.0, more.1.now)) result ≡ spec.with_amount so_far bytes.now }
    ensures most { IfSome result (λ more. more.0 ≤ spec.longest) }
{
    let Some((amount, rest)) = amount_at(bytes) else {
        return None;
    };
    let time = u128::from(so_far) + amount;
    if time > LONGEST {
        return None;
    }
    Some((time as u64, rest))
}

// The time of all of these amounts.
fn amounts(bytes: &[u8]) -> Option<u64>
    ensures value { result ≡ steps spec.with_amount (length bytes.now) 0 bytes.now }
    ensures most { IfSome result (λ time. time ≤ spec.longest) }
{
    let mut time = 0;
    let mut rest = bytes;
    for _ in 0..bytes.len() {
        if rest.is_empty() {
            return Some(time);
        }
        let Some((more, others)) = with_amount(time, rest) else {
            return None;
        };
        time = more;
        rest = others;
    }
    if rest.is_empty() { Some(time) } else { None }
}

/// The time of a text of amounts, at least one, in nanoseconds: up to 10,000 seconds, and what is less than a microsecond.
#[tactic(auto, unfolding(crate::specs::Times::time_of))]
pub(crate) fn time_of(bytes: &[u8]) -> Option<u64>
    ensures value { result ≡ spec.time_of bytes.now }
    ensures most { IfSome result (λ time. time ≤ spec.longest) }
{
    if bytes.is_empty() {
        return None;
    }
    amounts(bytes)
}
