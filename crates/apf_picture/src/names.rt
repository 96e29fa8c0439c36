//! Names, as XML has them. A long one is cut in its middle.

ghost use Rattle.std.specs.Prelude.{◌≡◌, ◌<◌, ◌≤◌, ◌+◌, ◌*◌, ◌^◌, length, take, drop, OnOk};
ghost use Rattle.std.specs.Io.KnownBytes.{Appends};
ghost use Rattle.apf_picture.specs.Names.{is_marked as the_is_marked, character_text, escaped, columns_of, width_of, front_of, back_of, whole_name, cut_name, name_cut_at, name_text, number_text, distinguisher_text, both_text, label_text, whole_label};
ghost use Rattle.apf_picture.specs.Labels.{called};

use crate::cutting::Cutting;
use crate::label::Label;
use crate::words::write_counted;
use apf_flows::write_hash;
use std::io;
use std::io::Write;

/// This many columns are shown of a distinguisher that stands alone.
pub(crate) const ALONE: usize = 36;

/// This many of a schema, and of the distinguisher beside it.
pub(crate) const SCHEMA: usize = 14;

pub(crate) const DISTINGUISHER: usize = 20;

/// Whether a mark stands for the character: it is a control character, it turns the direction of writing, or XML does not
/// allow it.
pub(crate) fn is_marked(character: char) -> bool
    ensures { result ≡ the_is_marked character }
{
    matches!(
        character,
        '\0'..='\u{1f}'
            | '\u{7f}'..='\u{9f}'
            | '\u{61c}'
            | '\u{200e}'
            | '\u{200f}'
            | '\u{202a}'..='\u{202e}'
            | '\u{2066}'..='\u{2069}'
            | '\u{fffe}'
            | '\u{ffff}'
    )
}

/// Writes a character as XML has it. The mark is U+FFFD.
pub fn write_character<W: Write>(out: &mut W, character: char) -> io::Result<()>
    ensures { OnOk result (Appends (W.contents out.old) (W.contents out.new) (character_text character)) }
{
    match character {
        '&' => out.write_all(b"&amp;"),
        '<' => out.write_all(b"&lt;"),
        '>' => out.write_all(b"&gt;"),
        '"' => out.write_all(b"&quot;"),
        _ if is_marked(character) => out.write_all(b"&#65533;"),
        _ => write!(out, "{character}"),
    }
}

// Writes a text.
fn write_text<W: Write>(out: &mut W, text: &[char]) -> io::Result<()>
    ensures { OnOk result (Appends (W.contents out.old) (W.contents out.new) (escaped text.now)) }
{
    for character in text {
        write_character(out, *character)?;
    }
    Ok(())
}

// How many columns a character takes: the wide ones two, and control characters, too.
fn columns(character: char) -> usize
    ensures { result ≡ columns_of character }
{
    match character {
        '%' | '@' | 'M' | 'W' | 'm' | 'w' | '\0'..='\u{1f}' | '\u{7f}'.. => 2,
        _ => 1,
    }
}

/// How many columns a name takes.
pub(crate) fn width(name: &[char]) -> usize
    requires { length name.now < 2 ^ 62 }
    ensures { result ≡ width_of name.now }
{
    let mut width = 0;
    for character in name {
        width += columns(*character);
    }
    width
}

/// How many characters of the beginning there is room for.
pub(crate) fn front(name: &[char], room: usize) -> usize
    ensures front { take result name.now ≡ front_of room name.now }
    ensures within { result ≤ length name.now }
{
    let mut left = room;
    for (place, character) in name.iter().enumerate() {
        let columns = columns(*character);
        if columns > left {
            return place;
        }
        left -= columns;
    }
    name.len()
}

/// How many characters stand before the end that there is room for.
pub(crate) fn back(name: &[char], room: usize) -> usize
    requires { length name.now < 2 ^ 62 }
    ensures back { drop result name.now ≡ back_of room name.now }
    ensures within { result ≤ length name.now }
{
    let mut left = width(name);
    for (place, character) in name.iter().enumerate() {
        if left <= room {
            return place;
        }
        left -= columns(*character);
    }
    name.len()
}

/// Writes a whole name. An empty one is two quotes.
pub(crate) fn write_whole_name<W: Write>(out: &mut W, name: &[char]) -> io::Result<()>
    ensures { OnOk result (Appends (W.contents out.old) (W.contents out.new) (whole_name name.now)) }
{
    if name.is_empty() {
        return out.write_all(b"&quot;&quot;");
    }
    write_text(out, name)
}

// Writes the beginning and the end of a name, each in as many columns as are given, and an ellipsis between them.
#[tactic(auto, unfolding(crate::specs::Names::cut_name))]
fn write_cut<W: Write>(out: &mut W, name: &[char], place: usize, rest: usize) -> io::Result<()>
    requires { length name.now < 2 ^ 62 }
    ensures { OnOk result (Appends (W.contents out.old) (W.contents out.new) (cut_name place rest name.now)) }
{
    write_text(out, &name[..front(name, place)])?;
    out.write_all(b"&#8230;")?;
    write_text(out, &name[back(name, rest)..])
}

// Writes a name in a number of columns. The ellipsis of a cut one takes two, and stands at the place.
fn write_name_cut_at<W: Write>(
    out: &mut W,
    name: &[char],
    place: usize,
    most: usize,
) -> io::Result<()>
    requires name { length name.now < 2 ^ 62 }
    requires most { 2 ≤ most }
    ensures { OnOk result (Appends (W.contents out.old) (W.contents out.new) (name_cut_at place most name.now)) }
{
    if width(name) <= most {
        return write_whole_name(out, name);
    }
    write_cut(out, name, place, (most - 2).saturating_sub(place))
}

/// Writes a name in a number of columns, cut in its middle.
pub(crate) fn write_name<W: Write>(out: &mut W, name: &[char], most: usize) -> io::Result<()>
    requires name { length name.now < 2 ^ 62 }
    requires most { 2 ≤ most }
    ensures { OnOk result (Appends (W.contents out.old) (W.contents out.new) (name_text most name.now)) }
{
    write_name_cut_at(out, name, most / 2 - 1, most)
}

/// The name without this many characters of its beginning.
pub(crate) fn rest(name: &[char], left_out: usize) -> &[char]
    ensures { result.now ≡ drop left_out name.now }
{
    if left_out > name.len() {
        return &name[name.len()..];
    }
    &name[left_out..]
}

// Writes the number of a row before its name, if the rows need one.
fn write_number<W: Write>(out: &mut W, has_numbers: bool, number: u32) -> io::Result<()>
    ensures { OnOk result (Appends (W.contents out.old) (W.contents out.new) (number_text has_numbers number)) }
{
    if !has_numbers {
        return Ok(());
    }
    let place = u64::from(number) + 1;
    write!(out, "{place}: ")
}

// Writes the distinguisher of a row, that stands alone or beside its schema.
#[tactic(auto, unfolding(crate::specs::Names::distinguisher_text))]
fn write_distinguisher<W: Write>(
    out: &mut W,
    cutting: Cutting,
    name: &[char],
    most: usize,
) -> io::Result<()>
    requires name { length name.now < 2 ^ 62 }
    requires most { 2 ≤ most }
    ensures { OnOk result (Appends (W.contents out.old) (W.contents out.new) (distinguisher_text cutting most name.now)) }
{
    write_name_cut_at(out, rest(name, cutting.left_out), cutting.place, most)
}

// Writes both names of a row.
#[tactic(auto, unfolding(crate::specs::Names::both_text))]
fn write_both<W: Write>(
    out: &mut W,
    cutting: Cutting,
    schema: &[char],
    distinguisher: &[char],
) -> io::Result<()>
    requires schema { length schema.now < 2 ^ 62 }
    requires distinguisher { length distinguisher.now < 2 ^ 62 }
    ensures { OnOk result (Appends (W.contents out.old) (W.contents out.new) (both_text cutting schema.now distinguisher.now)) }
{
    write_name(out, schema, SCHEMA)?;
    out.write_all(b" / ")?;
    write_distinguisher(out, cutting, distinguisher, DISTINGUISHER)
}

/// Writes what the row of this number is called.
pub(crate) fn write_label<W: Write>(
    out: &mut W,
    label: &Label,
    number: u32,
    cutting: Cutting,
) -> io::Result<()>
    ensures { OnOk result (Appends (W.contents out.old) (W.contents out.new) (label_text cutting number (called label.now))) }
{
    match label {
        Label::Name(distinguisher) => {
            write_number(out, cutting.has_numbers, number)?;
            write_distinguisher(out, cutting, distinguisher.as_slice(), ALONE)
        }
        Label::Names {
            schema,
            distinguisher,
        } => {
            write_number(out, cutting.has_numbers, number)?;
            write_both(out, cutting, schema.as_slice(), distinguisher.as_slice())
        }
        Label::Hash(hash) => write_hash(out, *hash),
        Label::Others(flows) => write_counted(out, u64::from(*flows), "other flow"),
    }
}

/// Writes what a row is called, with whole names.
pub(crate) fn write_whole_label<W: Write>(out: &mut W, label: &Label) -> io::Result<()>
    ensures { OnOk result (Appends (W.contents out.old) (W.contents out.new) (whole_label (called label.now))) }
{
    match label {
        Label::Name(distinguisher) => write_whole_name(out, distinguisher.as_slice()),
        Label::Names {
            schema,
            distinguisher,
        } => {
            write_whole_name(out, schema.as_slice())?;
            out.write_all(b" / ")?;
            write_whole_name(out, distinguisher.as_slice())
        }
        Label::Hash(hash) => write_hash(out, *hash),
        Label::Others(flows) => write_counted(out, u64::from(*flows), "other flow"),
    }
}
