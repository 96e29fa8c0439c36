//! A value within a line, and what is looked up in it.

ghost use Rattle.std.specs.Prelude.{◌≡◌, Some, true, option_map, is_some};
ghost use Rattle.serde_json.specs.Find.{get, as_str};
ghost use Rattle.serde_json.specs.View.{view};
ghost use Rattle.apf_files.specs.JsonFile.{text_at as text_at_key, whole_of};
ghost use Rattle.apf_values.specs.Flat.{data_at, or_null};
ghost use Rattle.apf_values.specs.Held.{held_data, is_held};

use crate::usual::whole_number;
use json::Element;
use serde_json::Value;

/// Where the value stands: in a tree, or on the tape of a usual text.
#[derive(Drop)]
pub(crate) enum Held<'a> {
    Tree(&'a Value),
    Tape(Element<'a, 'a>),
}

/// A value within a line.
#[derive(Drop)]
pub struct Node<'a> {
    pub(crate) held: Held<'a>,
    ghost is_held: { is_held held ≡ true },
}

impl<'a> Node<'a> {
    /// The value in a tree.
    pub fn of_tree(value: &'a Value) -> Node<'a>
        ensures { held_data result.held ≡ view value.now }
    {
        Node {
            held: Held::Tree(value),
        }
    }

    /// The value on a tape.
    pub(crate) fn of_tape(element: Element<'a, 'a>) -> Node<'a>
        requires { is_some (data_at element) ≡ true }
        ensures { data_at element.entry ≡ Some (held_data result.held) }
    {
        Node {
            held: Held::Tape(element),
        }
    }
}

// The member of that name, in a tree.
fn in_tree<'a>(value: &'a Value, key: &str) -> Option<Node<'a>>
    ensures { option_map (λ node. held_data node.held) result ≡ get key.now (view value.now) }
{
    match value.get(key) {
        Some(found) => Some(Node::of_tree(found)),
        None => None,
    }
}

// The member of that name, on a tape.
fn on_tape<'a>(element: &Element<'a, 'a>, key: &str) -> Option<Node<'a>>
    requires { is_some (data_at element.now) ≡ true }
    ensures { option_map (λ node. held_data node.held) result ≡ get key.now (or_null (data_at element.now)) }
{
    match element.get(key) {
        Some(found) => Some(Node::of_tape(found)),
        None => None,
    }
}

impl<'a> Node<'a> {
    /// The value at a key, the last of that name, if there is one.
    pub fn get(&self, key: &str) -> Option<Node<'a>>
        ensures { option_map (λ node. held_data node.held) result ≡ get key.now (held_data self.now.held) }
    {
        match &self.held {
            Held::Tree(value) => in_tree(value, key),
            Held::Tape(element) => on_tape(element, key),
        }
    }

    /// The text that the value is, if it is one.
    pub fn as_str(&self) -> Option<&'a str>
        ensures { option_map (λ text. text.now) result ≡ as_str (held_data self.now.held) }
    {
        match &self.held {
            Held::Tree(value) => value.as_str(),
            Held::Tape(element) => element.as_str(),
        }
    }

    /// The whole number below 2^64 that the value is, if it is one.
    pub fn as_u64(&self) -> Option<u64>
        ensures { result ≡ whole_of (held_data self.now.held) }
    {
        match &self.held {
            Held::Tree(value) => value.as_u64(),
            Held::Tape(element) => match element.as_number() {
                Some(text) => whole_number(text),
                None => None,
            },
        }
    }

    /// The text at a key, if there is one.
    #[tactic(auto, unfolding(apf_files::specs::JsonFile::text_at))]
    pub fn text_at(&self, key: &str) -> Option<&'a str>
        ensures { option_map (λ text. text.now) result ≡ text_at_key key.now (held_data self.now.held) }
    {
        self.get(key)?.as_str()
    }
}
