//! Reads the words of a line.

ghost use Rattle.std.specs.Prelude.{◌≡◌, ℕ, ◌<◌, ◌≤◌, IfOk, IfErr, IfSome, Ok, Err, option_map};
ghost use Rattle.apf_words.specs.Limits.{max_limit};
ghost use Rattle.apf_protocol.specs.Lines.{form_of, behind_word as behind_word_of, word_of, number_of, limit_of, time_of, most_ran, ending_of, spending_of, object_text as object_text_of, arrival_of, alone as alone_words, words, IsHeadInRange};

use crate::cut::cut_at_blank;
use crate::fault::FaultKind;
use crate::head::Head;
use crate::numeral::numeral;
use apf_traces::MAX_BYTES;
use apf_words::MAX_LIMIT;

/// The longest that a request is said to have run, in microseconds.
pub const MOST_RAN: u64 = 1_000_000_000_000;

/// The words of a line, and the text of its object.
#[derive(Clone, Copy, Debug)]
pub struct Form<'a> {
    /// The words.
    pub head: Head,
    /// The text of the object behind an arrival's number, and no text behind other words.
    pub object: &'a str,
}

// The command that one word is.
#[tactic(auto, unfolding(crate::specs::Lines::word_of))]
fn word(line: &[u8]) -> Option<Head>
    ensures value { result ≡ word_of line.now }
    ensures ranges { IfSome result (λ head. (slots : ℕ) → IsHeadInRange slots head) }
{
    if line == b"close".as_slice() {
        return Some(Head::Close);
    }
    if line == b"book".as_slice() {
        return Some(Head::Book);
    }
    if line == b"queues".as_slice() {
        return Some(Head::Queues);
    }
    if line == b"metrics".as_slice() {
        return Some(Head::Metrics);
    }
    None
}

// The number of a request, which is below `slots`.
#[tactic(auto, unfolding(crate::specs::Lines::number_of))]
fn number(digits: &[u8], slots: u32) -> Result<u32, FaultKind>
    ensures value { result ≡ number_of slots digits.now }
    ensures below { IfOk result (λ n. n < slots) }
{
    match numeral(digits) {
        Some(number) if number < u64::from(slots) => Ok(number as u32),
        Some(_) => Err(FaultKind::BadNumber),
        None => Err(FaultKind::BadLine),
    }
}

// The limit of a level.
#[tactic(auto, unfolding(crate::specs::Lines::limit_of))]
fn limit(digits: &[u8]) -> Result<u32, FaultKind>
    ensures value { result ≡ limit_of digits.now }
    ensures within { IfOk result (λ n. (1 ≤ n) × (n ≤ max_limit)) }
{
    match numeral(digits) {
        Some(limit) if 1 <= limit && limit <= u64::from(MAX_LIMIT) => Ok(limit as u32),
        Some(_) => Err(FaultKind::BadLimit),
        None => Err(FaultKind::BadLine),
    }
}

// How long a request ran, where digits say that at all.
fn time(micros: u64) -> Result<u64, FaultKind>
    ensures value { result ≡ time_of micros }
    ensures within { IfOk result (λ n. n ≤ most_ran) }
{
    if micros <= MOST_RAN {
        Ok(micros)
    } else {
        Err(FaultKind::BadTime)
    }
}

// The number of a request that ends, and how long it ran where a blank and digits say that.
#[tactic(auto, unfolding(crate::specs::Lines::ending_of))]
fn ending(bytes: &[u8], slots: u32) -> Result<Head, FaultKind>
    ensures value { result ≡ ending_of slots bytes.now }
    ensures ranges { IfOk result (λ head. IsHeadInRange slots head) }
{
    match cut_at_blank(bytes) {
        None => Ok(Head::Finish(number(bytes, slots)?, None)),
        Some(cut) => {
            let ran = numeral(cut.rest).ok_or(FaultKind::BadLine)?;
            let number = number(cut.front, slots)?;
            Ok(Head::Finish(number, Some(time(ran)?)))
        }
    }
}

// The number of a request that executes still, and behind a blank how long it ran so far.
#[tactic(auto, unfolding(crate::specs::Lines::spending_of))]
fn spending(bytes: &[u8], slots: u32) -> Result<Head, FaultKind>
    ensures value { result ≡ spending_of slots bytes.now }
    ensures ranges { IfOk result (λ head. IsHeadInRange slots head) }
{
    let cut = cut_at_blank(bytes).ok_or(FaultKind::BadLine)?;
    let ran = numeral(cut.rest).ok_or(FaultKind::BadLine)?;
    let number = number(cut.front, slots)?;
    Ok(Head::Spent(number, time(ran)?))
}

// The text of an object.
#[tactic(auto, unfolding(crate::specs::Lines::object_text))]
fn object_text(bytes: &[u8]) -> Option<&str>
    ensures { option_map (λ text. text.now) result ≡ object_text_of bytes.now }
{
    if !bytes.starts_with(b"{") {
        return None;
    }
    std::str::from_utf8(bytes).ok()
}

// The number of a request, and the text of an object behind one blank.
#[tactic(auto, unfolding(crate::specs::Lines::arrival_of))]
fn arrival(bytes: &[u8], slots: u32) -> Result<(u32, &str), FaultKind>
    ensures ok { IfOk result (λ a. arrival_of slots bytes.now ≡ Ok (a.0, a.1.now)) }
    ensures below { IfOk result (λ a. a.0 < slots) }
    ensures err { IfErr result (λ fault. arrival_of slots bytes.now ≡ Err fault) }
{
    let cut = cut_at_blank(bytes).ok_or(FaultKind::BadLine)?;
    let object = object_text(cut.rest).ok_or(FaultKind::BadLine)?;
    let number = number(cut.front, slots)?;
    Ok((number, object))
}

// Words without an object.
fn alone(head: Head) -> Form<'static>
    ensures words { words result ≡ alone_words head }
    ensures head { result.head ≡ head }
{
    Form { head, object: "" }
}

// The form of a line of this word, a blank and these bytes.
#[tactic(auto, unfolding(crate::specs::Lines::behind_word))]
fn behind_word<'a>(word: &[u8], rest: &'a [u8], slots: u32) -> Result<Form<'a>, FaultKind>
    ensures ok { IfOk result (λ form. behind_word_of slots word.now rest.now ≡ Ok (words form)) }
    ensures ranges { IfOk result (λ form. IsHeadInRange slots form.head) }
    ensures err { IfErr result (λ fault. behind_word_of slots word.now rest.now ≡ Err fault) }
{
    if word == b"arrive".as_slice() {
        let (number, object) = arrival(rest, slots)?;
        return Ok(Form {
            head: Head::Arrive(number),
            object,
        });
    }
    if word == b"try".as_slice() {
        let (number, object) = arrival(rest, slots)?;
        return Ok(Form {
            head: Head::Try(number),
            object,
        });
    }
    if word == b"finish".as_slice() {
        return Ok(alone(ending(rest, slots)?));
    }
    if word == b"spent".as_slice() {
        return Ok(alone(spending(rest, slots)?));
    }
    if word == b"cancel".as_slice() {
        return Ok(alone(Head::Cancel(number(rest, slots)?)));
    }
    if word == b"limit".as_slice() {
        return Ok(alone(Head::Limit(limit(rest)?)));
    }
    Err(FaultKind::BadLine)
}

/// Reads the words of a line, whose bytes come without its LF, on a level with this many slots.
///
/// A line is `arrive N OBJECT`, `try N OBJECT`, `finish N`, `finish N T`, `spent N T`, `cancel N`, `limit L`, `close`, `book`, `queues` or
/// `metrics`, with one blank between its words and nothing else. N, T and L are decimal digits with no zero before another.
/// An object begins with a brace and is UTF-8; what else it says is not asked here.
///
/// # Errors
///
/// The first of `TooLong`, over 65,536 bytes; `BadLine`, none of these forms; `BadNumber`, N is `slots` or more;
/// `BadTime`, T is above 10^12; and `BadLimit`, L is outside 1 to 10,000.
#[tactic(auto, unfolding(crate::specs::Lines::form_of))]
pub fn read_form(line: &[u8], slots: u32) -> Result<Form<'_>, FaultKind>
    ensures ok { IfOk result (λ form. form_of slots line.now ≡ Ok (words form)) }
    ensures ranges { IfOk result (λ form. IsHeadInRange slots form.head) }
    ensures err { IfErr result (λ fault. form_of slots line.now ≡ Err fault) }
{
    if line.len() > MAX_BYTES {
        return Err(FaultKind::TooLong);
    }
    match cut_at_blank(line) {
        Some(cut) => behind_word(cut.front, cut.rest, slots),
        None => Ok(alone(word(line).ok_or(FaultKind::BadLine)?)),
    }
}
