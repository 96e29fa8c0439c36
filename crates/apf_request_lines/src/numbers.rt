//! Numbers in digits.

ghost use Rattle.std.specs.Prelude.{◌≡◌, ◌<◌, ◌^◌, IfSome};
ghost use Rattle.apf_request_lines.specs.Numbers as spec;

/// Whether a byte is one of the digits 0 to 9.
pub(crate) fn is_digit(byte: u8) -> bool
    ensures { result ≡ spec.is_digit byte }
{
    byte >= b'0' && byte <= b'9'
}

// A number with one more digit behind it, where it was below 10^17.
fn with_digit(number: u64, byte: u8) -> Option<u64>
    ensures value { result ≡ spec.with_digit number byte }
    ensures below { IfSome result (λ n. n < 10 ^ 18) }
{
    if is_digit(byte) && number < 100_000_000_000_000_000 {
        Some(10 * number + u64::from(byte - b'0'))
    } else {
        None
    }
}

/// The number of these digits, at least one, where it is below 10^18.
#[tactic(auto, unfolding(crate::specs::Numbers::number_from))]
pub(crate) fn number_of(digits: &[u8]) -> Option<u64>
    ensures value { result ≡ spec.number_of digits.now }
    ensures below { IfSome result (λ n. n < 10 ^ 18) }
{
    if digits.is_empty() {
        return None;
    }
    let mut number = 0;
    let mut rest = digits;
    while let [first, others @ ..] = rest {
        let Some(more) = with_digit(number, *first) else {
            return None;
        };
        number = more;
        rest = others;
    }
    Some(number)
}

/// What a hexadecimal digit counts.
pub(crate) fn hex_digit(byte: u8) -> Option<u8>
    ensures value { result ≡ spec.hex_digit byte }
    ensures below { IfSome result (λ n. n < 16) }
{
    if byte >= b'0' && byte <= b'9' {
        Some(byte - b'0')
    } else if byte >= b'a' && byte <= b'f' {
        Some(byte - b'a' + 10)
    } else if byte >= b'A' && byte <= b'F' {
        Some(byte - b'A' + 10)
    } else {
        None
    }
}

// A number with one more hexadecimal digit behind it, where it was below 2^28.
fn with_hex(number: u32, byte: u8) -> Option<u32>
    ensures { result ≡ spec.with_hex number byte }
{
    let Some(digit) = hex_digit(byte) else {
        return None;
    };
    if number < 268_435_456 {
        Some(16 * number + u32::from(digit))
    } else {
        None
    }
}

/// The number of these hexadecimal digits, where it is below 2^32.
#[tactic(auto, unfolding(crate::specs::Numbers::hex_from))]
pub(crate) fn hex_number(digits: &[u8]) -> Option<u32>
    ensures { result ≡ spec.hex_from 0 digits.now }
{
    let mut number = 0;
    let mut rest = digits;
    while let [first, others @ ..] = rest {
        let Some(more) = with_hex(number, *first) else {
            return None;
        };
        number = more;
        rest = others;
    }
    Some(number)
}
