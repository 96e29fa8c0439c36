//! Reads one object after another, and keeps what makes the next one cheaper.

ghost use Rattle.std.specs.Prelude.{◌≡◌, Some, IfSome, codes};
ghost use Rattle.serde_json.specs.Find.{get};
ghost use Rattle.serde_json.specs.Read.{read as read_text};
ghost use Rattle.serde_json.specs.View.{view};
ghost use Rattle.apf_files.specs.RequestsFile.{flow_of as flow_of_members};

use crate::flat::flat_object;
use crate::newest::Newest;
use json::Scratch;
use serde_json::Value;
use std::alloc::Global;
use std::marker::Model;

/// What reads one object after another. It keeps the room that it needed, and the hashes of the newest flows' names.
#[derive(Drop)]
pub struct ObjectReader {
    pub(crate) alloc: Global,
    pub(crate) scratch: Scratch,
    pub(crate) newest: Newest,
}

impl Model for ObjectReader {
    ghost use Rattle.std.specs.Prelude.{ℕ};

    ghost Value = { ℕ };

    // Nothing of it matters to whoever reads by it.
    ghost view = { λ _. 0 };
}

impl ObjectReader {
    /// It takes no memory yet.
    pub fn new(alloc: Global) -> ObjectReader {
        ObjectReader {
            alloc,
            scratch: Scratch::new(alloc),
            newest: Newest::new(alloc),
        }
    }

    /// Where its memory comes from.
    pub fn alloc(&self) -> Global {
        self.alloc
    }

    /// The value of this text, if it is one object whose members are texts and whole numbers below 2^64, as most are. None of
    /// any other text, and where memory was refused.
    pub fn flat(&mut self, text: &str) -> Option<Value>
        ensures { IfSome result (λ value. read_text text.now ≡ Some (view value)) }
    {
        match flat_object(self.alloc, text, &mut self.scratch) {
            Ok(value) => Some(value),
            Err(_) => None,
        }
    }

    /// The hash of the flow that an object names, as `flow_of` of `apf_files` answers it.
    pub fn flow_of(&mut self, value: &Value) -> Option<u64>
        ensures { result ≡ flow_of_members (get (codes "hash") (view value.now))
            (get (codes "schema") (view value.now)) (get (codes "distinguisher") (view value.now)) }
    {
        self.newest.flow_of(value)
    }
}
