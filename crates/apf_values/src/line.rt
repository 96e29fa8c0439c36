//! The value of a line, read into room that is kept.

ghost use Rattle.std.specs.Prelude.{◌≡◌, true, is_some, option_map, IfOk, IfSome};
ghost use Rattle.serde_json.specs.Read.{read};
ghost use Rattle.apf_files.specs.JsonFile.{value_of as value_of_bytes};
ghost use Rattle.apf_values.specs.Flat.{data_at};
ghost use Rattle.apf_values.specs.Held.{held_data};
ghost use Rattle.apf_values.specs.Lines.{is_read, read_data};

use crate::node::Node;
use crate::usual::are_usual;
use apf_files::value_of;
use json::{Scratch, Tape};
use serde_json::Value;
use std::alloc::{AllocError, Global};
use std::marker::Model;

/// What a line was read into: a tree, or the tape of a usual text.
#[derive(Drop)]
pub(crate) enum Read<'a> {
    Tree(Value),
    Tape(Tape<'a>),
}

/// The value of a line.
#[derive(Drop)]
pub struct LineValue<'a> {
    pub(crate) read: Read<'a>,
    ghost is_read: { is_read read ≡ true },
}

impl LineValue<'_> {
    /// The value, to look into.
    pub fn node(&self) -> Node<'_>
        ensures { held_data result.held ≡ read_data self.now.read }
    {
        match &self.read {
            Read::Tree(value) => Node::of_tree(value),
            Read::Tape(tape) => Node::of_tape(tape.root()),
        }
    }
}

// The tape of a text, if it is usual and memory was not refused.
fn usual_tape<'a>(alloc: Global, text: &'a str, scratch: &'a mut Scratch) -> Option<Tape<'a>>
    ensures held { IfSome result (λ tape. is_some (data_at tape) ≡ true) }
    ensures value { IfSome result (λ tape. read text.now ≡ data_at tape) }
{
    let Ok(tape) = Tape::parse(text, scratch, Vec::new(alloc)) else {
        return None;
    };
    if !are_usual(tape.nodes()) {
        return None;
    }
    Some(tape)
}

/// Room to read lines into, which is kept from line to line.
#[derive(Drop)]
pub struct Room {
    alloc: Global,
    scratch: Scratch,
}

impl Model for Room {
    ghost use Rattle.std.specs.Prelude.{ℕ};

    ghost Value = { ℕ };

    // Nothing of it matters to whoever reads by it.
    ghost view = { λ _. 0 };
}

impl Room {
    /// It takes no memory yet.
    pub fn new(alloc: Global) -> Room {
        Room {
            alloc,
            scratch: Scratch::new(alloc),
        }
    }

    /// What memory comes from.
    pub fn alloc(&self) -> Global {
        self.alloc
    }

    /// The value of a JSON text in UTF-8, or none where the bytes are no such text, as `value_of` answers it.
    ///
    /// # Errors
    ///
    /// Only where memory was refused.
    pub fn read<'a>(&'a mut self, bytes: &'a [u8]) -> Result<Option<LineValue<'a>>, AllocError>
        ensures { IfOk result (λ value. option_map (λ line. read_data line.read) value ≡ value_of_bytes bytes.now) }
    {
        let alloc = self.alloc;
        if let Ok(text) = str::from_utf8(bytes) {
            if let Some(tape) = usual_tape(alloc, text, &mut self.scratch) {
                return Ok(Some(LineValue {
                    read: Read::Tape(tape),
                }));
            }
        }
        match value_of(alloc, bytes)? {
            Some(value) => Ok(Some(LineValue {
                read: Read::Tree(value),
            })),
            None => Ok(None),
        }
    }
}
