//! A text that the server of a log wrote.

ghost use Rattle.std.specs.Prelude.{◌≡◌, OnOk, option_map};
ghost use Rattle.std.specs.Io.KnownBytes.{Appends};
ghost use Rattle.apf_cluster_text.specs.Said as spec;

use apf_flows::write_text;
use std::io;
use std::io::Write;

// The longest text that is shown, in bytes.
const LONGEST: usize = 256;

// The text, if it is short and UTF-8.
fn shown(bytes: &[u8]) -> Option<&str>
    ensures { option_map (λ text. text.now) result ≡ spec.shown_of bytes.now }
{
    if bytes.len() > LONGEST {
        return None;
    }
    std::str::from_utf8(bytes).ok()
}

// Writes how long a text is.
fn write_length<W: Write>(out: &mut W, bytes: &[u8]) -> io::Result<()>
    ensures { OnOk result (Appends (W.contents out.old) (W.contents out.new) (spec.length_text bytes.now)) }
{
    let count = bytes.len();
    write!(out, "a text of {count} bytes")
}

/// Writes a text of at most 256 bytes between quotes, escaped as [`write_text`] does it, and of a longer one, or one that is not
/// UTF-8, how long it is.
///
/// # Errors
///
/// The writer's.
#[tactic(auto, unfolding(crate::specs::Said::said_text))]
pub(crate) fn write_said<W: Write>(out: &mut W, bytes: &[u8]) -> io::Result<()>
    ensures { OnOk result (Appends (W.contents out.old) (W.contents out.new) (spec.said_text bytes.now)) }
{
    match shown(bytes) {
        Some(text) => write_text(out, text),
        None => write_length(out, bytes),
    }
}
