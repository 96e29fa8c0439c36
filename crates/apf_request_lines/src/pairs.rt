//! The pairs of a key and its value, and the value of a key.

ghost use Rattle.std.specs.Prelude.{◌≡◌, ◌≤◌, ◌<◌, length, drop, bytes_eq, false, option_map, IfSome};
ghost use Rattle.apf_request_lines.specs.Faults.{Reads};
ghost use Rattle.apf_request_lines.specs.Pairs as spec;
ghost use Rattle.apf_request_lines.specs.Pairs.{before, blanks, pair, pair_at, pair_behind, pair_of, text_end, value_of, written};

use crate::fault::RequestLineFault;

/// How a value is written.
#[derive(Clone, Copy)]
pub(crate) struct Written<'a> {
    /// Whether it stands between quotes.
    pub(crate) is_quoted: bool,
    /// What stands between them, or up to the next blank.
    pub(crate) bytes: &'a [u8],
}

/// A pair of a key and its value, and what stands behind it.
#[derive(Clone, Copy)]
pub(crate) struct Pair<'a> {
    pub(crate) key: &'a [u8],
    pub(crate) value: Written<'a>,
    pub(crate) rest: &'a [u8],
}

/// How many bytes stand before the first one of this value, or all where there is none.
pub(crate) fn count_before(byte: u8, bytes: &[u8]) -> usize
    ensures place { result ≡ before byte bytes.now }
    ensures within { result ≤ length bytes.now }
{
    let mut count = 0;
    let mut rest = bytes;
    while let [first, others @ ..] = rest {
        if *first == byte {
            return count;
        }
        count += 1;
        rest = others;
    }
    count
}

// How many blanks stand in front.
fn count_blanks(bytes: &[u8]) -> usize
    ensures count { result ≡ blanks bytes.now }
    ensures within { result ≤ length bytes.now }
{
    let mut count = 0;
    let mut rest = bytes;
    while let [b' ', others @ ..] = rest {
        count += 1;
        rest = others;
    }
    count
}

/// What stands behind so many bytes.
pub(crate) fn behind(count: usize, bytes: &[u8]) -> &[u8]
    requires { count ≤ length bytes.now }
    ensures { result.now ≡ drop count bytes.now }
{
    &bytes[count..]
}

// Whether a byte is this one, and no backslash takes it.
fn is_free(is_taken: bool, byte: u8, wanted: u8) -> bool
    ensures { result ≡ spec.is_free is_taken byte wanted }
{
    !is_taken && byte == wanted
}

// How many bytes of a text stand before the quote that ends it.
#[tactic(auto, unfolding(crate::specs::Pairs::text_end))]
fn end_of_text(bytes: &[u8]) -> Option<usize>
    ensures end { result ≡ text_end 0 false bytes.now }
    ensures within { IfSome result (λ end. end < length bytes.now) }
{
    let mut is_taken = false;
    let mut place = 0;
    let mut rest = bytes;
    while let [first, others @ ..] = rest {
        if is_free(is_taken, *first, b'"') {
            return Some(place);
        }
        is_taken = is_free(is_taken, *first, b'\\');
        place += 1;
        rest = others;
    }
    None
}

// The pair of this key, whose value stands in front of these bytes.
#[tactic(auto, unfolding(crate::specs::Pairs::pair_of))]
fn pair_with<'a>(key: &'a [u8], bytes: &'a [u8]) -> Result<Pair<'a>, RequestLineFault>
    ensures { Reads pair result (pair_of key.now bytes.now) }
{
    if !bytes.starts_with(b"\"") {
        let end = count_before(b' ', bytes);
        return Ok(Pair {
            key,
            value: Written {
                is_quoted: false,
                bytes: &bytes[..end],
            },
            rest: &bytes[end..],
        });
    }
    let text = behind(1, bytes);
    let Some(end) = end_of_text(text) else {
        return Err(RequestLineFault::Unended);
    };
    Ok(Pair {
        key,
        value: Written {
            is_quoted: true,
            bytes: &text[..end],
        },
        rest: &text[end + 1..],
    })
}

// The first pair, which stands in front.
#[tactic(auto, unfolding(crate::specs::Pairs::pair_behind))]
fn first_pair(bytes: &[u8]) -> Result<Option<Pair<'_>>, RequestLineFault>
    ensures { Reads (option_map pair) result (pair_behind bytes.now) }
{
    let end = count_before(b'=', bytes);
    if end == bytes.len() {
        return Ok(None);
    }
    let pair = pair_with(&bytes[..end], &bytes[end + 1..])?;
    Ok(Some(pair))
}

// The first pair, behind the blanks in front of it.
#[tactic(auto, unfolding(crate::specs::Pairs::pair_at))]
fn next_pair(bytes: &[u8]) -> Result<Option<Pair<'_>>, RequestLineFault>
    ensures { Reads (option_map pair) result (pair_at bytes.now) }
{
    first_pair(behind(count_blanks(bytes), bytes))
}

// Whether these are the same bytes.
fn are_same(some: &[u8], others: &[u8]) -> bool
    ensures { result ≡ bytes_eq some.now others.now }
{
    some == others
}

/// The value of the first pair that has this key.
pub(crate) fn find<'a>(key: &str, bytes: &'a [u8]) -> Result<Option<Written<'a>>, RequestLineFault>
    ensures { Reads (option_map written) result (value_of key.now bytes.now) }
{
    let mut rest = bytes;
    for _ in 0..bytes.len() {
        let pair = match next_pair(rest) {
            Ok(Some(pair)) => pair,
            Ok(None) => return Ok(None),
            Err(fault) => return Err(fault),
        };
        if are_same(pair.key, key.as_bytes()) {
            return Ok(Some(pair.value));
        }
        rest = pair.rest;
    }
    Ok(None)
}
