//! What has to stand at a key.

use std::fmt;

/// What has to stand at a key.
#[derive(Clone, Copy, Debug, PartialEq, Eq)]
pub enum Wanted {
    /// A whole number, not below the first one and not above the second one.
    Whole(u64, u64),
    /// A whole number of microseconds, not above this one.
    Micros(u64),
    /// The number of a request, at most this one.
    Request(u64),
    /// The name of a response.
    Response,
    /// A text.
    Text,
    /// A text of at most this many bytes.
    Name(u64),
    /// The text of an instant.
    Instant,
    /// The text of a wait in a queue.
    Wait,
    /// True or false.
    Flag,
}

impl fmt::Display for Wanted {
    ghost use Rattle.std.specs.Prelude.{Some};
    ghost use Rattle.apf_explain.specs.Wanted.{wanted_text};

    ghost output = { λ wanted. Some (wanted_text wanted) };

    fn fmt<W: fmt::Write>(&self, f: &mut fmt::Formatter<W>) -> fmt::Result {
        match self {
            Wanted::Whole(low, high) => write!(f, "a whole number from {low} to {high}"),
            Wanted::Micros(high) => { write!(f, "a whole number of microseconds from 0 to {high}") }
            Wanted::Request(last) => write!(f, "the number of a request, 0 to {last}"),
            Wanted::Response => f.write_str("\"Queue\" or \"Reject\""),
            Wanted::Text => f.write_str("a text"),
            Wanted::Name(most) => write!(f, "a text of at most {most} bytes"),
            Wanted::Instant => f.write_str(
                "an instant from 1970 on, as \"2026-01-31T12:00:00.000000Z\"",
            ),
            Wanted::Wait => f.write_str("a duration from 0 to 10000 s, as \"1.5s\""),
            Wanted::Flag => f.write_str("true or false"),
        }
    }
}
