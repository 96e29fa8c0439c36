//! One line of a script.

ghost use Rattle.std.specs.Prelude.{◌≡◌, ◌&&◌, nat_le, true};
ghost use Rattle.std.specs.List.{list_all};
ghost use Rattle.apf_files.specs.ScriptFile.{command_of, numeral as numeral_of, is_numeral as is_numeral_of, decimal};

use crate::script::Command;

const MAX_DIGITS: usize = 5;

fn are_digits(bytes: &[u8]) -> bool
    ensures { result ≡ list_all (λ d. nat_le 48 d && nat_le d 57) bytes.now }
{
    bytes.iter().all(|byte| b'0' <= *byte && *byte <= b'9')
}

// Whether one to five decimal digits stand there, with no zero before another.
fn is_numeral(bytes: &[u8]) -> bool
    ensures { result ≡ is_numeral_of bytes.now }
{
    !bytes.is_empty()
        && bytes.len() <= MAX_DIGITS
        && are_digits(bytes)
        && (bytes.len() == 1 || bytes[0] != b'0')
}

fn value(numeral: &[u8]) -> u32
    requires { is_numeral_of numeral.now ≡ true }
    ensures { result ≡ decimal numeral.now }
{
    let mut number = 0;
    for digit in numeral {
        number = 10 * number + u32::from(*digit - b'0');
    }
    number
}

#[tactic(auto, unfolding(crate::specs::ScriptFile::numeral))]
fn numeral(bytes: &[u8]) -> Option<u32>
    ensures { result ≡ numeral_of bytes.now }
{
    if is_numeral(bytes) {
        Some(value(bytes))
    } else {
        None
    }
}

/// The command that a line of a script writes, which comes without its LF. None for a line of no form. Which requests
/// there are, and which limits a level may have, is not asked.
#[tactic(auto, unfolding(crate::specs::ScriptFile::command_of))]
pub(crate) fn command_of_line(line: &[u8]) -> Option<Command>
    ensures { result ≡ command_of line.now }
{
    if let Some(digits) = line.strip_prefix(b"arrive ".as_slice()) {
        return numeral(digits).map(Command::Arrive);
    }
    if let Some(digits) = line.strip_prefix(b"finish ".as_slice()) {
        return numeral(digits).map(Command::Finish);
    }
    if let Some(digits) = line.strip_prefix(b"cancel ".as_slice()) {
        return numeral(digits).map(Command::Cancel);
    }
    if let Some(digits) = line.strip_prefix(b"limit ".as_slice()) {
        return numeral(digits).map(Command::Limit);
    }
    if line == b"close".as_slice() {
        return Some(Command::Close);
    }
    None
}
