//! Two texts of columns, one beside the other.

ghost use Rattle.std.specs.Prelude.{◌≡◌, ◌≤◌, drop, length, OnOk};
ghost use Rattle.std.specs.Io.KnownBytes.{Appends};
ghost use Rattle.apf_cluster_tables.specs.Beside as spec;

use std::io;
use std::io::Write;

// The place of the first blank, and the end where there is none.
fn blank_of(text: &[u8]) -> usize
    ensures is { result ≡ spec.blank_of text.now }
    ensures within { result ≤ length text.now }
{
    for (place, byte) in text.iter().enumerate() {
        if *byte == b' ' {
            return place;
        }
    }
    text.len()
}

// The text without its first byte.
fn without_first(text: &[u8]) -> &[u8]
    ensures { result.now ≡ drop 1 text.now }
{
    match text.split_first() {
        Some((_, rest)) => rest,
        None => &[],
    }
}

// What stands before the first blank.
fn word_of(text: &[u8]) -> &[u8]
    ensures { result.now ≡ spec.word_of text.now }
{
    &text[..blank_of(text)]
}

// What stands from the first blank on.
fn rest_of(text: &[u8]) -> &[u8]
    ensures { result.now ≡ spec.rest_of text.now }
{
    &text[blank_of(text)..]
}

// Writes two words: one of them where they are the same.
#[tactic(auto, unfolding(crate::specs::Beside::beside))]
fn write_beside<W: Write>(out: &mut W, one: &[u8], other: &[u8]) -> io::Result<()>
    ensures { OnOk result (Appends (W.contents out.old) (W.contents out.new) (spec.beside one.now other.now)) }
{
    out.write_all(one)?;
    if one == other {
        return Ok(());
    }
    out.write_all(b">")?;
    out.write_all(other)
}

// Writes a column of two texts that begin with it, one beside the other, with a blank before it.
#[tactic(auto, unfolding(crate::specs::Beside::column_beside))]
fn write_column<W: Write>(out: &mut W, one: &[u8], other: &[u8]) -> io::Result<()>
    ensures { OnOk result (Appends (W.contents out.old) (W.contents out.new) (spec.column_beside one.now other.now)) }
{
    out.write_all(b" ")?;
    write_beside(out, word_of(one), word_of(other))
}

/// Writes this many columns of two texts, in each of which a blank stands before each column: each beside that of the other text.
pub(crate) fn write_columns<W: Write>(
    out: &mut W,
    columns: usize,
    one: &[u8],
    other: &[u8],
) -> io::Result<()>
    ensures { OnOk result (Appends (W.contents out.old) (W.contents out.new) (spec.columns_beside columns one.now other.now)) }
{
    let mut first = one;
    let mut second = other;
    for _column in 0..columns {
        let begun = without_first(first);
        let begun_2 = without_first(second);
        write_column(out, begun, begun_2)?;
        first = rest_of(begun);
        second = rest_of(begun_2);
    }
    Ok(())
}
