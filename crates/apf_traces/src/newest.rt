//! The hashes of the newest flows, so that they are not computed again for each line. They take some 2 MB at most.

ghost use Rattle.std.specs.Prelude.{◌≡◌, ◌<◌, IfSome, codes, string_bytes};
ghost use Rattle.serde_json.specs.Find.{get};
ghost use Rattle.serde_json.specs.View.{view};
ghost use Rattle.apf_flow.specs.Flow.{flow_hash_of};
ghost use Rattle.apf_files.specs.RequestsFile.{flow_of as flow_of_members};

use apf_flow::flow_hash;
use serde_json::Value;
use std::alloc::{AllocError, Global};

// How many hashes are kept at most.
const PLACES: u32 = 4_096;

// How many bytes the names of a flow may have together whose hash is kept.
const MOST_BYTES: usize = 512;

// The names of a flow, and their hash.
#[derive(Drop)]
struct Known {
    schema: String,
    distinguisher: String,
    hash: u64,
    ghost hashed: { hash ≡ flow_hash_of (string_bytes schema) (string_bytes distinguisher) },
}

/// The hashes of flows whose names came lately, each at its place.
#[derive(Drop)]
pub(crate) struct Newest {
    alloc: Global,
    known: Vec<Option<Known>>,
}

// Where the hash of a flow of this distinguisher stands, by the hash FNV-1a of its bytes.
fn place_of(distinguisher: &str) -> usize
    ensures { result < 4096 }
{
    let mut sum = 2_166_136_261u32;
    for byte in distinguisher.as_bytes() {
        sum = (sum ^ u32::from(*byte)).wrapping_mul(16_777_619);
    }
    (sum / 65_536 % PLACES) as usize
}

impl Newest {
    /// It knows no hash, and takes no memory.
    pub(crate) fn new(alloc: Global) -> Newest {
        Newest {
            alloc,
            known: Vec::new(alloc),
        }
    }

    // The hash of the flow of these names, if it stands at this place.
    fn known_hash(&self, place: usize, schema: &str, distinguisher: &str) -> Option<u64>
        ensures { IfSome result (λ hash. hash ≡ flow_hash_of schema.now distinguisher.now) }
    {
        let Some(Some(known)) = self.known.get(place) else {
            return None;
        };
        if known.schema.as_str() == schema && known.distinguisher.as_str() == distinguisher {
            Some(known.hash)
        } else {
            None
        }
    }

    // Keeps the hash of the flow of these names at this place.
    fn keep(
        &mut self,
        place: usize,
        schema: &str,
        distinguisher: &str,
        hash: u64,
    ) -> Result<(), AllocError>
        requires place { place < 4096 }
        requires hash { hash ≡ flow_hash_of schema.now distinguisher.now }
    {
        let known = Known {
            schema: String::from_str(self.alloc, schema)?,
            distinguisher: String::from_str(self.alloc, distinguisher)?,
            hash,
        };
        for _ in self.known.len()..=place {
            self.known.push(None)?;
        }
        if let Some(slot) = self.known.get_mut(place) {
            *slot = Some(known);
        }
        Ok(())
    }

    // The hash of the flow of these names. Where memory is refused to keep it, it is computed again the next time.
    fn hash(&mut self, schema: &str, distinguisher: &str) -> u64
        ensures { result ≡ flow_hash_of schema.now distinguisher.now }
    {
        let place = place_of(distinguisher);
        if let Some(hash) = self.known_hash(place, schema, distinguisher) {
            return hash;
        }
        let hash = flow_hash(schema, distinguisher);
        if schema.len().saturating_add(distinguisher.len()) <= MOST_BYTES {
            let _ = self.keep(place, schema, distinguisher, hash);
        }
        hash
    }

    /// The hash of the flow that an object names, as `flow_of` of `apf_files` answers it.
    pub(crate) fn flow_of(&mut self, value: &Value) -> Option<u64>
        ensures { result ≡ flow_of_members (get (codes "hash") (view value.now))
            (get (codes "schema") (view value.now)) (get (codes "distinguisher") (view value.now)) }
    {
        match (
            value.get("hash"),
            value.get("schema"),
            value.get("distinguisher"),
        ) {
            (Some(hash), None, None) => hash.as_u64(),
            (None, Some(schema), Some(distinguisher)) => {
                Some(self.hash(schema.as_str()?, distinguisher.as_str()?))
            }
            _ => None,
        }
    }
}
