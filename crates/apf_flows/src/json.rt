//! A text as JSON has it.

ghost use Rattle.std.specs.Prelude.{◌≡◌, ◌<◌, ◌/◌, ◌%◌, get_or, option_map, IfOk, OnOk};
ghost use Rattle.std.specs.Io.KnownBytes.{Appends};
ghost use Rattle.apf_flows.specs.Json.{digit_of, letter_of, escape_of, is_within, obeyed_by, number_text, shown_by, more_of, escapes_from, escapes_of, json_text};

use std::io;
use std::io::Write;

const BACKSPACE: u8 = 8;

const FORM_FEED: u8 = 12;

// A digit of a hexadecimal number.
fn digit(value: u8) -> u8
    requires { value < 16 }
    ensures { result ≡ digit_of value }
{
    if value < 10 {
        b'0' + value
    } else {
        b'a' + (value - 10)
    }
}

// The letter that stands after a backslash for a byte, where JSON has one.
fn letter(byte: u8) -> Option<u8>
    ensures { result ≡ letter_of byte }
{
    match byte {
        b'"' => Some(b'"'),
        b'\\' => Some(b'\\'),
        b'\n' => Some(b'n'),
        b'\r' => Some(b'r'),
        b'\t' => Some(b't'),
        BACKSPACE => Some(b'b'),
        FORM_FEED => Some(b'f'),
        _ => None,
    }
}

// Writes a byte of a text, as it stands between the quotes.
fn write_byte<W: Write>(out: &mut W, byte: u8) -> io::Result<()>
    ensures { OnOk result (Appends (W.contents out.old) (W.contents out.new) (escape_of byte)) }
{
    match letter(byte) {
        Some(letter) => out.write_all(&[b'\\', letter]),
        None if byte < b' ' => {
            let high = digit(byte / 16);
            let low = digit(byte % 16);
            out.write_all(&[b'\\', b'u', b'0', b'0', high, low])
        }
        None => out.write_all(&[byte]),
    }
}

// Whether the byte is one from `low` to `high`.
fn is_in(low: u8, high: u8, byte: u8) -> bool
    ensures { result ≡ is_within low high byte }
{
    low <= byte && byte <= high
}

// A character that a terminal obeys: its number, and how many bytes it has behind its first.
#[derive(Clone, Copy)]
struct Obeyed {
    number: u16,
    more: usize,
}

// The character that begins with these three bytes, if a terminal would obey it.
fn character_of(first: u8, second: u8, third: u8) -> Option<Obeyed>
    ensures { option_map (λ obeyed. (obeyed.number, obeyed.more)) result ≡ obeyed_by first second third }
{
    if first == 127 {
        return Some(Obeyed {
            number: 127,
            more: 0,
        });
    }
    if first == 194 && is_in(128, 159, second) {
        return Some(Obeyed {
            number: u16::from(second),
            more: 1,
        });
    }
    if first == 216 && second == 156 {
        return Some(Obeyed {
            number: 0x061c,
            more: 1,
        });
    }
    if first == 226 && second == 128 && (is_in(142, 143, third) || is_in(170, 174, third)) {
        return Some(Obeyed {
            number: 0x2000 + u16::from(third - 128),
            more: 2,
        });
    }
    if first == 226 && second == 129 && is_in(166, 169, third) {
        return Some(Obeyed {
            number: 0x2040 + u16::from(third - 128),
            more: 2,
        });
    }
    None
}

// A digit of a number of four hexadecimal digits, by the power of 16 that it counts.
fn digit_at(number: u16, power: u16) -> u8
    requires { 0 < power }
    ensures { result ≡ digit_of (number / power % 16) }
{
    digit((number / power % 16) as u8)
}

// Writes a character by its number.
fn write_number<W: Write>(out: &mut W, number: u16) -> io::Result<()>
    ensures { OnOk result (Appends (W.contents out.old) (W.contents out.new) (number_text number)) }
{
    let first = digit_at(number, 4096);
    let second = digit_at(number, 256);
    let third = digit_at(number, 16);
    let fourth = digit((number % 16) as u8);
    out.write_all(&[b'\\', b'u', first, second, third, fourth])
}

// The byte at a place, or 0 behind the end.
fn byte_at(bytes: &[u8], place: usize) -> u8
    ensures { result ≡ get_or bytes.now place 0 }
{
    match bytes.get(place) {
        Some(byte) => *byte,
        None => 0,
    }
}

// Writes the character that begins with this byte, as it stands between the quotes: the whole, or its first byte. Answers how many bytes of the
// further ones were its own.
fn write_character<W: Write>(out: &mut W, byte: u8, further: &[u8]) -> io::Result<usize>
    ensures text { OnOk result (Appends (W.contents out.old) (W.contents out.new)
        (shown_by (obeyed_by byte (get_or further.now 0 0) (get_or further.now 1 0)) byte)) }
    ensures more { IfOk result (λ more. more ≡ more_of (obeyed_by byte (get_or further.now 0 0) (get_or further.now 1 0))) }
{
    match character_of(byte, byte_at(further, 0), byte_at(further, 1)) {
        Some(character) => {
            write_number(out, character.number)?;
            Ok(character.more)
        }
        None => {
            write_byte(out, byte)?;
            Ok(0)
        }
    }
}

// Writes the bytes of a text, as they stand between the quotes.
fn write_bytes<W: Write>(out: &mut W, bytes: &[u8]) -> io::Result<()>
    ensures { OnOk result (Appends (W.contents out.old) (W.contents out.new) (escapes_of bytes.now)) }
{
    let mut rest = bytes;
    let mut passed = 0;
    while let Some((byte, further)) = rest.split_first() {
        if passed > 0 {
            passed -= 1;
        } else {
            passed = write_character(out, *byte, further)?;
        }
        rest = further;
    }
    Ok(())
}

/// Writes a text as it stands between the quotes of [`write_text`].
///
/// # Errors
///
/// The writer's. Then nothing is known of how much was written.
pub fn write_escaped<W: Write>(out: &mut W, text: &str) -> io::Result<()>
    ensures { OnOk result (Appends (W.contents out.old) (W.contents out.new) (escapes_of text.now)) }
{
    write_bytes(out, text.as_bytes())
}

/// Writes a text between quotes, escaped where JSON must, and where a terminal would obey a character: U+007F to U+009F,
/// and those that turn the direction of writing.
///
/// # Errors
///
/// The writer's. Then nothing is known of how much was written.
#[tactic(auto, unfolding(crate::specs::Json::json_text))]
pub fn write_text<W: Write>(out: &mut W, text: &str) -> io::Result<()>
    ensures { OnOk result (Appends (W.contents out.old) (W.contents out.new) (json_text text.now)) }
{
    out.write_all(b"\"")?;
    write_escaped(out, text)?;
    out.write_all(b"\"")
}
