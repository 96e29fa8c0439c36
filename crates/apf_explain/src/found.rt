//! What stands in a file, as a person reads it.

ghost use Rattle.std.specs.Prelude.{◌≡◌, nat_le, length};

use serde_json::Value;
use std::fmt;

// The longest text that is shown, in bytes.
const LONGEST: usize = 64;

/// A text of a file. One of at most 64 bytes stands between quotes, as Rust's `{:?}` has it: what does not print is
/// escaped. Of a longer one its length is said.
#[derive(Clone, Copy)]
pub(crate) struct Quoted<'a> {
    /// What a longer one is called.
    pub(crate) what: &'static str,
    pub(crate) text: &'a str,
}

impl Quoted<'_> {
    /// Whether the text itself is shown.
    pub(crate) fn is_whole(&self) -> bool
        ensures { result ≡ nat_le (length self.now.text.now) 64 }
    {
        self.text.len() <= LONGEST
    }
}

impl fmt::Display for Quoted<'_> {
    ghost use Rattle.apf_explain.specs.Found.{quoted_text};

    ghost output = { λ quoted. quoted_text quoted.what.now quoted.text.now };

    #[tactic(auto, unfolding(crate::specs::Found::quoted_text))]
    fn fmt<W: fmt::Write>(&self, f: &mut fmt::Formatter<W>) -> fmt::Result {
        let text = self.text;
        if text.len() <= LONGEST {
            return write!(f, "{text:?}");
        }
        let what = self.what;
        let count = text.len();
        write!(f, "{what} of {count} bytes")
    }
}

/// The value that stands at a place of a file, if one was found there.
#[derive(Clone, Copy)]
pub(crate) struct Found<'a>(pub(crate) Option<&'a Value>);

impl fmt::Display for Found<'_> {
    ghost use Rattle.apf_explain.specs.Found.{found_text};
    ghost use Rattle.std.specs.Prelude.{option_map};
    ghost use Rattle.serde_json.specs.View.{view};

    ghost output = { λ found. found_text (option_map (λ value. view value.now) found.0) };

    fn fmt<W: fmt::Write>(&self, f: &mut fmt::Formatter<W>) -> fmt::Result {
        let Some(value) = self.0 else {
            return f.write_str("something else");
        };
        match value {
            Value::Null => f.write_str("null"),
            Value::Bool(is_so) => write!(f, "{is_so}"),
            Value::Number(number) => match number.as_i128() {
                Some(whole) => write!(f, "{whole}"),
                None => write!(f, "{number}"),
            },
            Value::String(text) => {
                let text = text.as_str();
                let quoted = Quoted {
                    what: "a text",
                    text,
                };
                write!(f, "{quoted}")
            }
            Value::Array(_) => f.write_str("an array"),
            Value::Object(_) => f.write_str("an object"),
        }
    }
}
