//! Why bytes are no JSON.

ghost use Rattle.std.specs.Prelude.{◌≡◌, IfOk, IfErr, option_map};
ghost use Rattle.apf_explain.specs.Reasons.{begins_utf16 as begins_utf16_of, mark_text, cause_text, line_mark_text, first_text, IsSaid, IsWhy};

use crate::fault::ExplainFault;
use crate::likeness::begins_as_trace;
use apf_traces::first_line;
use serde_json::{Error, Value};
use std::alloc::Global;

/// Why bytes are no JSON, by what their reader says of them.
#[derive(Clone, Copy)]
pub(crate) enum Cause {
    /// Nothing is known.
    Unknown,
    /// They are the front of a JSON text.
    Early,
    NotUtf8,
    /// Too many arrays and objects stand in one another.
    TooDeep,
    /// They begin as YAML does.
    Yaml,
    /// A number is too large.
    LargeNumber,
}

impl Cause {
    // What is said of it.
    fn text(self) -> &'static str
        ensures { result.now ≡ cause_text self }
    {
        match self {
            Cause::Unknown => "",
            Cause::Early => ": the text ends too early",
            Cause::NotUtf8 => ": the bytes here are not UTF-8",
            Cause::TooDeep => ": more than 127 arrays and objects stand in one another",
            Cause::Yaml => ": the bytes begin as YAML does: write them as JSON",
            Cause::LargeNumber => ": the number here is too large",
        }
    }
}

// This many arrays and objects may stand in one another.
const DEEPEST: u32 = 127;

// Where the first array or object stands that is too deep: its line and column, both from 1.
fn too_deep(bytes: &[u8]) -> Option<(usize, usize)> {
    let mut place = (1usize, 0usize);
    let mut deep = 0u32;
    let mut in_text = false;
    let mut is_escaped = false;
    for byte in bytes {
        if *byte == b'\n' {
            place = (place.0.saturating_add(1), 0);
        } else {
            place = (place.0, place.1.saturating_add(1));
        }
        match *byte {
            _ if is_escaped => is_escaped = false,
            b'\\' if in_text => is_escaped = true,
            b'"' => in_text = !in_text,
            b'[' | b'{' if !in_text && deep == DEEPEST => return Some(place),
            b'[' | b'{' if !in_text => deep = deep.saturating_add(1),
            b']' | b'}' if !in_text => deep = deep.saturating_sub(1),
            _ => {}
        }
    }
    None
}

// Whether the reader stopped at an array or object that is too deep, and not before it.
fn is_too_deep(bytes: &[u8], error: &Error) -> bool {
    match too_deep(bytes) {
        Some((line, column)) => {
            error.line() > line || (error.line() == line && error.column() >= column)
        }
        None => false,
    }
}

// Whether fewer than four bytes stand behind the last `\u`, and one of them is no hexadecimal digit. The reader of JSON
// asks for four bytes there before it looks at one.
fn ends_in_bad_escape(bytes: &[u8]) -> bool {
    let mut behind = 4u32;
    let mut is_bad = false;
    let mut is_escaped = false;
    for byte in bytes {
        if is_escaped && *byte == b'u' {
            behind = 0;
            is_bad = false;
        } else {
            behind = behind.saturating_add(1);
            is_bad = is_bad || !byte.is_ascii_hexdigit();
        }
        is_escaped = !is_escaped && *byte == b'\\';
    }
    behind < 4 && is_bad
}

// Whether the line begins as one of YAML does: with `---`, or with a word and a colon.
fn is_of_yaml(line: &[u8]) -> bool {
    if line.starts_with(b"---") {
        return true;
    }
    let mut has_letter = false;
    for byte in line {
        match *byte {
            b'A'..=b'Z' | b'a'..=b'z' => has_letter = true,
            b':' => return has_letter,
            _ => return false,
        }
    }
    false
}

// Whether the first line that is neither empty nor a comment begins as one of YAML does.
fn begins_yaml(bytes: &[u8]) -> bool {
    let mut rest = bytes;
    while !rest.is_empty() {
        let first = first_line(rest);
        if !first.line.is_empty() && !first.line.starts_with(b"#") {
            return is_of_yaml(first.line);
        }
        rest = first.rest;
    }
    false
}

// Whether the bytes, which are no UTF-8, are the front of a JSON text that is cut inside a character.
fn is_cut_inside(alloc: Global, bytes: &[u8], whole: usize) -> Result<bool, ExplainFault>
    ensures { IfErr result (λ fault. fault ≡ ExplainFault.NoMemory) }
{
    let Ok(mut front) = Vec::from_slice(alloc, bytes.get(..whole).unwrap_or(b"")) else {
        return Err(ExplainFault::NoMemory);
    };
    // some character in the place of the one that is cut
    if front.push(0xc3).is_err() || front.push(0xa9).is_err() {
        return Err(ExplainFault::NoMemory);
    }
    match Value::from_slice(alloc, front.as_slice()) {
        Ok(_) => Ok(false),
        Err(e) if e.is_memory() => Err(ExplainFault::NoMemory),
        Err(e) => Ok(e.is_eof() && !ends_in_bad_escape(front.as_slice())),
    }
}

// Whether the bytes begin as UTF-16 does: with its mark of byte order, or with a bracket of two bytes.
fn begins_utf16(bytes: &[u8]) -> bool
    ensures { result ≡ begins_utf16_of bytes.now }
{
    bytes.starts_with(b"\xff\xfe")
        || bytes.starts_with(b"\xfe\xff")
        || bytes.starts_with(b"[\0")
        || bytes.starts_with(b"{\0")
        || bytes.starts_with(b"\0[")
        || bytes.starts_with(b"\0{")
}

/// What is said of bytes that begin with a mark of byte order, as UTF-16 does or as gzip does.
pub(crate) fn mark(bytes: &[u8]) -> Option<&'static str>
    ensures { option_map (λ why. why.now) result ≡ mark_text bytes.now }
{
    if bytes.starts_with(b"\xef\xbb\xbf") {
        return Some(": the bytes begin with a mark of byte order (BOM): take it away");
    }
    if begins_utf16(bytes) {
        return Some(": the bytes begin as UTF-16 does: they must be UTF-8");
    }
    if bytes.starts_with(b"\x1f\x8b") {
        return Some(": the bytes begin as gzip does: unpack them first");
    }
    None
}

// What is said of a line that begins so, or begins an array.
fn line_mark(bytes: &[u8]) -> Option<&'static str>
    ensures { option_map (λ why. why.now) result ≡ line_mark_text bytes.now }
{
    if let Some(why) = mark(bytes) {
        return Some(why);
    }
    if bytes.starts_with(b"[") {
        return Some(": an array begins here: write one object on each line");
    }
    None
}

// Why bytes are no JSON, by what their reader says.
fn cause_of(alloc: Global, bytes: &[u8], error: &Error) -> Result<Cause, ExplainFault>
    ensures { IfErr result (λ fault. fault ≡ ExplainFault.NoMemory) }
{
    if let Err(e) = std::str::from_utf8(bytes) {
        if e.error_len().is_none() && is_cut_inside(alloc, bytes, e.valid_up_to())? {
            return Ok(Cause::Early);
        }
        return Ok(Cause::NotUtf8);
    }
    if is_too_deep(bytes, error) {
        return Ok(Cause::TooDeep);
    }
    if begins_yaml(bytes) {
        return Ok(Cause::Yaml);
    }
    if error.is_eof() && !ends_in_bad_escape(bytes) {
        return Ok(Cause::Early);
    }
    let Ok(said) = format!(in alloc; "{error}") else {
        return Err(ExplainFault::NoMemory);
    };
    if said.starts_with("number out of range") {
        return Ok(Cause::LargeNumber);
    }
    Ok(Cause::Unknown)
}

/// What is said of a file that is not of its kind.
#[derive(Clone, Copy)]
pub(crate) struct Strange {
    /// Of one that begins with this bracket.
    pub(crate) bracket: u8,
    pub(crate) why: &'static str,
    /// Of one that begins as a trace does.
    pub(crate) why_trace: &'static str,
}

/// What is known of why the bytes of a file are no JSON: by how they begin, by what their reader says, or else by the
/// file that they are like.
pub(crate) fn file_reason(
    alloc: Global,
    bytes: &[u8],
    error: &Error,
    strange: Strange,
) -> Result<&'static str, ExplainFault>
    ensures why { IfOk result (λ why. IsSaid (mark_text bytes.now) why.now) }
    ensures memory { IfErr result (λ fault. fault ≡ ExplainFault.NoMemory) }
{
    if let Some(why) = mark(bytes) {
        return Ok(why);
    }
    match cause_of(alloc, bytes, error)? {
        Cause::Unknown => {}
        cause => return Ok(cause.text()),
    }
    if begins_as_trace(alloc, bytes)? {
        return Ok(strange.why_trace);
    }
    if bytes.first() == Some(&strange.bracket) {
        return Ok(strange.why);
    }
    Ok("")
}

/// What is known of why the bytes of a line are no JSON: by how they begin, by what is said of their file, or else by
/// what their reader says.
pub(crate) fn line_reason_in(
    alloc: Global,
    bytes: &[u8],
    error: &Error,
    file: Option<&'static str>,
) -> Result<&'static str, ExplainFault>
    ensures why { IfOk result (λ why. IsWhy (first_text (line_mark_text bytes.now) (option_map (λ said. said.now) file.entry)) why.now) }
    ensures memory { IfErr result (λ fault. fault ≡ ExplainFault.NoMemory) }
{
    match (line_mark(bytes), file) {
        (Some(why), _) => Ok(why),
        (None, Some(said)) => Ok(said),
        (None, None) => Ok(cause_of(alloc, bytes, error)?.text()),
    }
}

/// The same where nothing is said of their file.
pub fn line_reason(alloc: Global, bytes: &[u8], error: &Error) -> Result<&'static str, ExplainFault>
    ensures why { IfOk result (λ why. IsSaid (line_mark_text bytes.now) why.now) }
    ensures memory { IfErr result (λ fault. fault ≡ ExplainFault.NoMemory) }
{
    line_reason_in(alloc, bytes, error, None)
}
