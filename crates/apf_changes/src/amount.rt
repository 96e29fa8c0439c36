//! The numbers of a text, and what they are where another number stands.

ghost use Rattle.std.specs.Prelude.{◌≡◌, ◌≤◌, IfOk};
ghost use Rattle.std.specs.Char.{is_ascii_digit};
ghost use Rattle.std.specs.List.{list_all};
ghost use Rattle.apf_changes.specs.Amounts as spec;

use crate::change::Amount;
use crate::fault::{Bounds, ChangeFault};
use crate::texts::{ahead, behind};

fn are_digits(bytes: &[u8]) -> bool
    ensures { result ≡ list_all is_ascii_digit bytes.now }
{
    bytes.iter().all(|byte| byte.is_ascii_digit())
}

// The whole number that a text is: decimal digits, and nothing else. It is below 2^32.
fn number_of(text: &str) -> Option<u32>
    ensures { result ≡ spec.number_of text.now }
{
    if !are_digits(text.as_bytes()) {
        return None;
    }
    text.parse::<u32>().ok()
}

// The number behind `*` or `+`.
fn relative_of(text: &str) -> Option<Amount>
    ensures { result ≡ spec.relative_of text.now }
{
    if let Some(times) = behind("*", text) {
        return number_of(times).map(Amount::Times);
    }
    number_of(behind("+", text)?).map(Amount::Plus)
}

/// The amount that a text is.
pub(crate) fn amount_of(text: &str) -> Option<Amount>
    ensures { result ≡ spec.amount_of text.now }
{
    match relative_of(text) {
        Some(amount) => Some(amount),
        None => number_of(text).map(Amount::Exactly),
    }
}

/// The rate that a text is: how often each request comes.
pub(crate) fn rate_of(text: &str) -> Option<Amount>
    ensures { result ≡ spec.rate_of text.now }
{
    if text == "0" {
        return Some(Amount::Exactly(0));
    }
    match ahead("x", text) {
        Some(times) => number_of(times).map(Amount::Exactly),
        None => relative_of(text),
    }
}

impl Amount {
    // The number that is meant where this one stands. None if one is needed and none stands there.
    fn from(self, stands: Option<u32>) -> Option<u64>
        ensures { result ≡ spec.amount_from self stands }
    {
        match (self, stands) {
            (Amount::Exactly(number), _) => Some(u64::from(number)),
            (Amount::Times(times), Some(number)) => Some(u64::from(number) * u64::from(times)),
            (Amount::Plus(more), Some(number)) => Some(u64::from(number) + u64::from(more)),
            (_, None) => None,
        }
    }
}

/// The number that is meant where this one stands, if it is within these bounds.
#[tactic(auto, unfolding(crate::specs::Amounts::judged))]
pub(crate) fn judged(
    amount: Amount,
    stands: Option<u32>,
    bounds: Bounds,
) -> Result<u32, ChangeFault>
    ensures value { result ≡ spec.judged amount stands bounds }
    ensures within { IfOk result (λ n. (bounds.low ≤ n) × (n ≤ bounds.high)) }
{
    let number = amount.from(stands).ok_or(ChangeFault::NoNumber)?;
    if u64::from(bounds.low) <= number && number <= u64::from(bounds.high) {
        Ok(number as u32)
    } else {
        Err(ChangeFault::OutOfBounds(number, bounds))
    }
}
