//! What a text between quotes says.

ghost use Rattle.std.specs.Prelude.{◌≡◌, ◌∷◌, [], ◌++◌, length, IfOk, OnOk, option_map};
ghost use Rattle.apf_request_lines.specs.Pairs.{written};
ghost use Rattle.apf_request_lines.specs.Steps.{steps};
ghost use Rattle.apf_request_lines.specs.Texts as spec;

use crate::numbers::{hex_digit, hex_number};
use crate::pairs::Written;
use std::alloc::{AllocError, Global};

/// A piece of a text.
#[derive(Clone, Copy)]
enum Piece {
    /// A byte.
    Byte(u8),
    /// A character, which is several bytes in UTF-8.
    Character(char),
}

// What a letter behind a backslash stands for.
fn escaped(letter: u8) -> Option<u8>
    ensures { result ≡ spec.escaped letter }
{
    match letter {
        b'a' => Some(7),
        b'b' => Some(8),
        b't' => Some(9),
        b'n' => Some(10),
        b'v' => Some(11),
        b'f' => Some(12),
        b'r' => Some(13),
        b'"' | b'\'' | b'\\' => Some(letter),
        _ => None,
    }
}

// Behind \x: a byte by its two hexadecimal digits, and what stands behind it.
fn byte_at(bytes: &[u8]) -> Option<(Piece, &[u8])>
    ensures { option_map (λ piece. (piece.0, piece.1.now)) result ≡ spec.byte_at bytes.now }
{
    let [first, second, rest @ ..] = bytes else {
        return None;
    };
    let Some(high) = hex_digit(*first) else {
        return None;
    };
    let Some(low) = hex_digit(*second) else {
        return None;
    };
    Some((Piece::Byte(16 * high + low), rest))
}

// The character of this number.
fn character(code: u32) -> Option<char>
    ensures { result ≡ spec.character code }
{
    char::from_u32(code)
}

// Behind \u or \U: a character by its number in so many hexadecimal digits, and what stands behind it.
#[tactic(auto, unfolding(crate::specs::Texts::character_at))]
fn character_at(count: usize, bytes: &[u8]) -> Option<(Piece, &[u8])>
    ensures { option_map (λ piece. (piece.0, piece.1.now)) result ≡ spec.character_at count bytes.now }
{
    if bytes.len() < count {
        return None;
    }
    let Some(code) = hex_number(&bytes[..count]) else {
        return None;
    };
    let Some(character) = character(code) else {
        return None;
    };
    Some((Piece::Character(character), &bytes[count..]))
}

// A letter that stands for a byte, and what stands behind it.
fn letter_at(letter: u8, bytes: &[u8]) -> Option<(Piece, &[u8])>
    ensures { option_map (λ piece. (piece.0, piece.1.now)) result ≡ spec.letter_at letter bytes.now }
{
    let Some(byte) = escaped(letter) else {
        return None;
    };
    Some((Piece::Byte(byte), bytes))
}

// Behind a backslash: the piece that it begins, and what stands behind it.
#[tactic(auto, unfolding(crate::specs::Texts::escape_at))]
fn escape_at(bytes: &[u8]) -> Option<(Piece, &[u8])>
    ensures { option_map (λ piece. (piece.0, piece.1.now)) result ≡ spec.escape_at bytes.now }
{
    let [letter, rest @ ..] = bytes else {
        return None;
    };
    if *letter == b'x' {
        return byte_at(rest);
    }
    if *letter == b'u' {
        return character_at(4, rest);
    }
    if *letter == b'U' {
        return character_at(8, rest);
    }
    letter_at(*letter, rest)
}

// The first piece, and what stands behind it.
#[tactic(auto, unfolding(crate::specs::Texts::piece_at))]
fn piece_at(bytes: &[u8]) -> Option<(Piece, &[u8])>
    ensures { option_map (λ piece. (piece.0, piece.1.now)) result ≡ spec.piece_at bytes.now }
{
    let [first, rest @ ..] = bytes else {
        return None;
    };
    if *first == b'\\' {
        return escape_at(rest);
    }
    Some((Piece::Byte(*first), rest))
}

// Puts a piece behind a text.
fn push(text: &mut Vec<u8>, piece: Piece) -> Result<(), AllocError>
    ensures { OnOk result (text.new.items ≡ text.old.items ++ spec.bytes_of piece) }
{
    match piece {
        Piece::Byte(byte) => {
            text.push(byte)?;
            Ok(())
        }
        Piece::Character(character) => {
            let mut room = [0; 4];
            text.extend_from_slice(character.encode_utf8(&mut room).as_bytes())?;
            Ok(())
        }
    }
}

// What all of these pieces say.
fn pieces(alloc: Global, bytes: &[u8]) -> Result<Option<Vec<u8>>, AllocError>
    ensures { IfOk result (λ text. option_map (λ text. text.items) text ≡ steps spec.with_piece (length bytes.now) [] bytes.now) }
{
    let mut text = Vec::new(alloc);
    let mut rest = bytes;
    for _ in 0..bytes.len() {
        if rest.is_empty() {
            return Ok(Some(text));
        }
        let Some((piece, others)) = piece_at(rest) else {
            return Ok(None);
        };
        push(&mut text, piece)?;
        rest = others;
    }
    if rest.is_empty() {
        Ok(Some(text))
    } else {
        Ok(None)
    }
}

/// What a value says: between quotes by its pieces, and else as it stands.
#[tactic(auto, unfolding(crate::specs::Texts::text_of))]
pub(crate) fn said(alloc: Global, value: &Written<'_>) -> Result<Option<Vec<u8>>, AllocError>
    ensures { IfOk result (λ text. option_map (λ text. text.items) text ≡ spec.said (written value.now)) }
{
    if value.is_quoted {
        return pieces(alloc, value.bytes);
    }
    Ok(Some(Vec::from_slice(alloc, value.bytes)?))
}
