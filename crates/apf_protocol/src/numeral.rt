//! The numbers of a line.

ghost use Rattle.std.specs.Prelude.{◌≡◌, ◌&&◌, nat_le, true, option_map};
ghost use Rattle.std.specs.List.{list_all};
ghost use Rattle.apf_files.specs.ScriptFile.{decimal};
ghost use Rattle.apf_protocol.specs.Numerals.{numeral as numeral_of, is_numeral as is_numeral_of, told};

fn are_digits(bytes: &[u8]) -> bool
    ensures { result ≡ list_all (λ d. nat_le 48 d && nat_le d 57) bytes.now }
{
    bytes.iter().all(|byte| b'0' <= *byte && *byte <= b'9')
}

// Whether decimal digits stand there, with no zero before another.
fn is_numeral(bytes: &[u8]) -> bool
    ensures { result ≡ is_numeral_of bytes.now }
{
    !bytes.is_empty() && are_digits(bytes) && (bytes.len() == 1 || bytes[0] != b'0')
}

// The number, or the largest of 64 bits where it is larger.
fn value(numeral: &[u8]) -> u64
    requires { is_numeral_of numeral.now ≡ true }
    ensures { result ≡ told (decimal numeral.now) }
{
    let mut number: u64 = 0;
    for digit in numeral {
        number = number
            .saturating_mul(10)
            .saturating_add(u64::from(*digit - b'0'));
    }
    number
}

/// The number that decimal digits say, or the largest of 64 bits where it is larger. None where something else stands
/// there, or a zero before another digit.
#[tactic(auto, unfolding(crate::specs::Numerals::numeral))]
pub(crate) fn numeral(bytes: &[u8]) -> Option<u64>
    ensures { result ≡ option_map told (numeral_of bytes.now) }
{
    if is_numeral(bytes) {
        Some(value(bytes))
    } else {
        None
    }
}
