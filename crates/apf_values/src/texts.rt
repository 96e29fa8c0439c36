//! The texts of an array.

ghost use Rattle.std.specs.Prelude.{◌≡◌, Some, IfOk};
ghost use Rattle.json.specs.Find.{InItems};
ghost use Rattle.json.specs.Json as json;
ghost use Rattle.serde_json.specs.Data.{Items as DataItems};
ghost use Rattle.serde_json.specs.Find.{as_array};
ghost use Rattle.serde_json.specs.Read.{of_items};
ghost use Rattle.serde_json.specs.View.{items_view};
ghost use Rattle.apf_values.specs.Texts as spec;
ghost use Rattle.apf_values.specs.Views.{data_of};

use crate::node::{Held, Node};
use json::Items;
use serde_json::Value;
use std::alloc::{AllocError, Global};

// The texts among these values of a tree.
fn in_tree<'a>(alloc: Global, items: &'a [Value]) -> Result<Vec<&'a str>, AllocError>
    ensures { IfOk result (λ texts. spec.texts_read texts.items ≡ spec.texts_of (items_view items.now)) }
{
    let mut texts = Vec::new(alloc);
    for item in items {
        if let Some(text) = item.as_str() {
            texts.push(text)?;
        }
    }
    Ok(texts)
}

// The texts among these values of a tape.
fn on_tape<'a>(alloc: Global, items: Items<'a, 'a>) -> Result<Vec<&'a str>, AllocError>
    ensures { IfOk result (λ texts. (js : json.Items) (ds : DataItems) → InItems items.entry js → of_items js ≡ Some ds → spec.texts_read texts.items ≡ spec.texts_of ds) }
{
    let mut items = items;
    let mut texts = Vec::new(alloc);
    'items: while let Some(item) = items.next() {
        match item.as_str() {
            Some(text) => texts.push(text)?,
            None => {}
        }
    }
    Ok(texts)
}

// The texts among the members, where the value is an array.
fn texts_in<'a>(alloc: Global, array: &Node<'a>) -> Result<Vec<&'a str>, AllocError>
    ensures { IfOk result (λ texts. spec.texts_read texts.items ≡ spec.texts_in (as_array (data_of array.now))) }
{
    match &array.held {
        Held::Tree(value) => match value.as_array() {
            Some(items) => in_tree(alloc, items.as_slice()),
            None => Ok(Vec::new(alloc)),
        },
        Held::Tape(element) => match element.items() {
            Some(items) => on_tape(alloc, items),
            None => Ok(Vec::new(alloc)),
        },
    }
}

/// The texts among the members of the array at a key.
///
/// # Errors
///
/// `AllocError` if memory was refused.
#[tactic(auto, unfolding(crate::specs::Texts::texts_at))]
pub fn texts_at<'a>(alloc: Global, node: &Node<'a>, key: &str) -> Result<Vec<&'a str>, AllocError>
    ensures { IfOk result (λ texts. spec.texts_read texts.items ≡ spec.texts_at key.now (data_of node.now)) }
{
    match node.get(key) {
        Some(array) => texts_in(alloc, &array),
        None => Ok(Vec::new(alloc)),
    }
}
