//! Which texts are usual: their numbers are whole, and they nest no deeper than `serde_json` lets a text nest.

ghost use Rattle.std.specs.Prelude.{◌≡◌, ◌≤◌, ℕ, List, map, option_and_then};
ghost use Rattle.json.specs.Tape.{node_token};
ghost use Rattle.serde_json.specs.Find.{as_u64};
ghost use Rattle.serde_json.specs.Read.{number_of};
ghost use Rattle.apf_values.specs.Usual as spec;

use fast_float::Numeral;
use json::Node;

// How deep a text may nest.
const MAX_DEPTH: u8 = 127;

/// The whole number below 2^64 that this text writes without a sign, a point and an exponent, if it is one.
pub(crate) fn whole_number(text: &str) -> Option<u64>
    ensures { result ≡ spec.whole_of_text text.now }
{
    let bytes = text.as_bytes();
    if bytes.starts_with(b"-") {
        return None;
    }
    Numeral::scan(bytes).to_u64()
}

/// Whether the nodes are those of a usual text.
#[tactic(auto, unfolding(crate::specs::Usual::are_usual))]
pub(crate) fn are_usual(nodes: &[Node<'_>]) -> bool
    ensures { result ≡ spec.are_usual 127 (map node_token nodes.now) }
{
    let mut left = MAX_DEPTH;
    for node in nodes {
        match *node {
            Node::Object(_) | Node::Array(_) => {
                if left == 0 {
                    return false;
                }
                left -= 1;
            }
            Node::EndObject | Node::EndArray => {
                if left >= MAX_DEPTH {
                    return false;
                }
                left += 1;
            }
            Node::Number(text) => {
                if whole_number(text).is_none() {
                    return false;
                }
            }
            Node::Key(_) | Node::String(_) | Node::Bool(_) | Node::Null => {}
        }
    }
    true
}
