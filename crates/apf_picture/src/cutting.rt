//! How the names of a picture are cut, so that its rows are told apart.

ghost use Rattle.std.specs.Prelude.{◌≡◌, ◌<◌, ◌≤◌, ◌+◌, ◌*◌, ◌^◌, ◌++◌, length, vec_len, map, take, drop, count_by, IfOk, OnOk, bytes_eq};
ghost use Rattle.std.specs.List.{list_all};
ghost use Rattle.apf_picture.specs.Labels.{called};
ghost use Rattle.apf_picture.specs.Rows.{label_in};
ghost use Rattle.apf_picture.specs.Names.{visible_of};
ghost use Rattle.apf_picture.specs.Cuttings.{common as the_common, common_with as the_common_with, common_to_all as the_common_to_all, is_separator as the_is_separator, behind_separator as the_behind_separator, fits as the_fits, beginning_by, shared_beginning as the_beginning, room_by, room_of, place_at as the_place_at, seen_name, seen_label, are_alike as the_are_alike, clashes as the_clashes, candidate_clashes, IsBest, IsCutting};

use crate::label::Label;
use crate::names::{ALONE, DISTINGUISHER, SCHEMA, back, front, is_marked, rest, width};
use crate::row::Row;
use std::alloc::{AllocError, Global};

/// How the names of the rows are cut.
#[derive(Clone, Copy)]
pub(crate) struct Cutting {
    /// This many characters are left out, which all names have at their beginning.
    pub(crate) left_out: usize,
    /// This many columns of a cut name stand before the ellipsis.
    pub(crate) place: usize,
    /// The number of its row stands before each name.
    pub(crate) has_numbers: bool,
}

// How many characters two names share at their beginning.
fn common(one: &[char], other: &[char]) -> usize
    ensures common { result ≡ the_common one.now other.now }
    ensures within { result ≤ length one.now }
{
    for (place, character) in one.iter().enumerate() {
        if place >= other.len() || other[place] != *character {
            return place;
        }
    }
    one.len()
}

// How many the name shares with that of a row. The row of the other flows has all of it, and one without a name nothing.
fn common_with(first: &[char], label: &Label) -> usize
    ensures common { result ≡ the_common_with first.now (called label.now) }
    ensures within { result ≤ length first.now }
{
    match label {
        Label::Name(name) => common(first, name.as_slice()),
        Label::Names { distinguisher, .. } => common(first, distinguisher.as_slice()),
        Label::Hash(_) => 0,
        Label::Others(_) => first.len(),
    }
}

// How many it shares with those of all rows.
fn common_to_all(first: &[char], rows: &[Row]) -> usize
    ensures common { result ≡ the_common_to_all first.now (map label_in rows.now) }
    ensures within { result ≤ length first.now }
{
    let mut common = first.len();
    for row in rows {
        common = common_with(first, &row.label).min(common);
    }
    common
}

// Whether a part of a name ends with the character.
fn is_separator(character: char) -> bool
    ensures { result ≡ the_is_separator character }
{
    matches!(character, ':' | '/' | '.' | '-' | '_')
}

// How many characters there are up to the last separator.
fn behind_separator(text: &[char]) -> usize
    ensures behind { result ≡ the_behind_separator text.now }
    ensures within { result ≤ length text.now }
{
    let mut behind = 0;
    for (place, character) in text.iter().enumerate() {
        if is_separator(*character) {
            behind = place + 1;
        }
    }
    behind
}

// Whether there is room for the whole name of a row.
fn fits(label: &Label) -> bool
    ensures { result ≡ the_fits (called label.now) }
{
    match label {
        Label::Name(name) => width(name.as_slice()) <= ALONE,
        Label::Names { distinguisher, .. } => width(distinguisher.as_slice()) <= DISTINGUISHER,
        Label::Hash(_) | Label::Others(_) => true,
    }
}

// Whether there is room for all.
fn all_fit(rows: &[Row]) -> bool
    ensures { result ≡ list_all the_fits (map label_in rows.now) }
{
    for row in rows {
        if !fits(&row.label) {
            return false;
        }
    }
    true
}

// A copy of the characters.
fn copied(alloc: Global, text: &[char]) -> Result<Vec<char>, AllocError>
    ensures { IfOk result (λ copy. copy.items ≡ text.now) }
{
    let mut copy = Vec::new(alloc);
    for character in text {
        copy.push(*character)?;
    }
    Ok(copy)
}

// What the names of all rows have at their beginning, if the first one is this: up to a separator, and nothing if there is room for each name.
fn beginning(alloc: Global, first: &[char], rows: &[Row]) -> Result<Vec<char>, AllocError>
    ensures { IfOk result (λ beginning. beginning.items ≡ beginning_by first.now (map label_in rows.now)) }
{
    if rows.len() < 2 || all_fit(rows) {
        return Ok(Vec::new(alloc));
    }
    let common = &first[..common_to_all(first, rows)];
    copied(alloc, &common[..behind_separator(common)])
}

/// What the names of all rows have at their beginning and is left out of each.
pub(crate) fn shared_beginning(alloc: Global, rows: &[Row]) -> Result<Vec<char>, AllocError>
    ensures { IfOk result (λ beginning. beginning.items ≡ the_beginning (map label_in rows.now)) }
{
    let Some(first) = rows.first() else {
        return Ok(Vec::new(alloc));
    };
    match &first.label {
        Label::Name(name) => beginning(alloc, name.as_slice(), rows),
        Label::Names { distinguisher, .. } => beginning(alloc, distinguisher.as_slice(), rows),
        Label::Hash(_) | Label::Others(_) => Ok(Vec::new(alloc)),
    }
}

// The character as it is drawn.
fn visible(character: char) -> char
    ensures { result ≡ visible_of character }
{
    if is_marked(character) {
        '\u{fffd}'
    } else {
        character
    }
}

// Adds characters as they are drawn.
fn push_text(out: &mut Vec<char>, text: &[char]) -> Result<(), AllocError>
    ensures { OnOk result (out.new.items ≡ out.old.items ++ map visible_of text.now) }
{
    for character in text {
        out.push(visible(*character))?;
    }
    Ok(())
}

// Adds a name as it is drawn, cut at this place in this many columns.
fn push_name(
    out: &mut Vec<char>,
    name: &[char],
    place: usize,
    most: usize,
) -> Result<(), AllocError>
    requires { 2 ≤ most }
    ensures { OnOk result (out.new.items ≡ out.old.items ++ seen_name place most name.now) }
{
    if width(name) > most {
        push_text(out, &name[..front(name, place)])?;
        out.push('\u{2026}')?;
        return push_text(out, &name[back(name, (most - 2).saturating_sub(place))..]);
    }
    if name.is_empty() {
        out.push('"')?;
        out.push('"')?;
        return Ok(());
    }
    push_text(out, name)
}

// Adds the names of a row as they are drawn.
fn push_label(
    out: &mut Vec<char>,
    label: &Label,
    left_out: usize,
    place: usize,
) -> Result<(), AllocError>
    ensures { OnOk result (out.new.items ≡ out.old.items ++ seen_label left_out place (called label.now)) }
{
    match label {
        Label::Name(name) => push_name(out, rest(name.as_slice(), left_out), place, ALONE),
        Label::Names {
            schema,
            distinguisher,
        } => {
            push_name(out, schema.as_slice(), SCHEMA / 2 - 1, SCHEMA)?;
            out.push(' ')?;
            out.push('/')?;
            out.push(' ')?;
            push_name(
                out,
                rest(distinguisher.as_slice(), left_out),
                place,
                DISTINGUISHER,
            )
        }
        Label::Hash(_) | Label::Others(_) => Ok(()),
    }
}

// Whether the names of two rows look the same.
fn are_alike(
    alloc: Global,
    one: &Label,
    other: &Label,
    left_out: usize,
    place: usize,
) -> Result<bool, AllocError>
    ensures { IfOk result (λ alike. alike ≡ the_are_alike left_out place (called one.now) (called other.now)) }
{
    let mut seen = Vec::new(alloc);
    push_label(&mut seen, one, left_out, place)?;
    let mut other_seen = Vec::new(alloc);
    push_label(&mut other_seen, other, left_out, place)?;
    Ok(!seen.is_empty() && seen.as_slice() == other_seen.as_slice())
}

// How many rows have names that look like those of the label.
fn count_alike(
    alloc: Global,
    rows: &[Row],
    label: &Label,
    left_out: usize,
    place: usize,
) -> Result<usize, AllocError>
    ensures count { IfOk result (λ count. count ≡ count_by (the_are_alike left_out place (called label.now)) (map label_in rows.now)) }
    ensures within { IfOk result (λ count. count ≤ length rows.now) }
{
    let mut count = 0;
    for row in rows {
        if are_alike(alloc, label, &row.label, left_out, place)? {
            count += 1;
        }
    }
    Ok(count)
}

// How many pairs of rows have names that look the same.
fn clashes(alloc: Global, rows: &[Row], left_out: usize, place: usize) -> Result<usize, AllocError>
    requires { length rows.now ≤ 13 }
    ensures { IfOk result (λ clashes. clashes ≡ the_clashes left_out place (map label_in rows.now)) }
{
    let mut clashes = 0;
    for (number, row) in rows.iter().enumerate() {
        clashes += count_alike(alloc, &rows[number + 1..], &row.label, left_out, place)?;
    }
    Ok(clashes)
}

// This many columns a cut name has beside the ellipsis.
fn room(rows: &[Row]) -> usize
    ensures room { result ≡ room_of (map label_in rows.now) }
    ensures within { result ≤ 34 }
{
    match rows.first() {
        Some(row) => match row.label {
            Label::Name(_) => ALONE - 2,
            Label::Names { .. } | Label::Hash(_) | Label::Others(_) => DISTINGUISHER - 2,
        },
        None => DISTINGUISHER - 2,
    }
}

// The place of a candidate: from the middle to the end, and from the beginning to the middle.
fn place_at(room: usize, candidate: usize) -> usize
    requires room { room ≤ 34 }
    requires candidate { candidate ≤ room }
    ensures { result ≡ the_place_at room candidate }
{
    (room / 2 + candidate) % (room + 1)
}

// The first candidate of those with fewest pairs of rows whose names look the same.
fn best(alloc: Global, rows: &[Row], left_out: usize, room: usize) -> Result<usize, AllocError>
    requires few { length rows.now ≤ 13 }
    requires room { room ≤ 34 }
    ensures { IfOk result (IsBest (candidate_clashes (map label_in rows.now) left_out room) (room + 1)) }
{
    let mut best = 0;
    let mut least = clashes(alloc, rows, left_out, place_at(room, 0))?;
    for candidate in 1..room + 1 {
        if least > 0 {
            let clashes = clashes(alloc, rows, left_out, place_at(room, candidate))?;
            if clashes < least {
                best = candidate;
                least = clashes;
            }
        }
    }
    Ok(best)
}

impl Cutting {
    /// Of the names of these rows, of which this many characters are left out.
    pub(crate) fn of(alloc: Global, rows: &[Row], left_out: usize) -> Result<Cutting, AllocError>
        requires { length rows.now ≤ 13 }
        ensures { IfOk result (IsCutting (map label_in rows.now) left_out) }
    {
        let room = room(rows);
        let best = best(alloc, rows, left_out, room)?;
        let place = place_at(room, best);
        let clashes = clashes(alloc, rows, left_out, place)?;
        Ok(Cutting {
            left_out,
            place,
            has_numbers: clashes > 0,
        })
    }
}
