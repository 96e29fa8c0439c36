//! The lines that are held, by their ids.

ghost use Rattle.std.specs.Prelude.{◌≡◌, ◌∷◌, ℕ, map, IfOk, IfSome, IfNone, IsPermutation};
ghost use Rattle.apf_request_halves.specs.Held.{placed};
ghost use Rattle.apf_request_halves.specs.Reading.{AreFalling, IsHeld, IsWithout, max_held};

use apf_request_lines::RequestLine;
use lru::LruCache;
use std::alloc::{AllocFailed, Global};

/// What is held of a line, beside its id.
#[derive(Drop)]
pub(crate) struct Held {
    /// The number of the line, counted from 1.
    pub(crate) number: u64,
    pub(crate) schema: Option<Vec<u8>>,
    pub(crate) level: Option<Vec<u8>>,
    pub(crate) seats: u32,
    pub(crate) runs_for: Option<u64>,
}

/// The lines that are held, by their ids.
pub(crate) type Store = LruCache<Vec<u8>, Held>;

/// Holds a line of this id, in front of the others. Tells whether another one had to go: the one that had the same id, or the
/// one that was held the longest where there is no room.
pub(crate) fn hold(
    store: &mut Store,
    id: Vec<u8>,
    held: Held,
) -> Result<bool, AllocFailed<(Vec<u8>, Held)>>
    requires { store.old.cap ≡ max_held }
    ensures held { IfOk result (λ is_gone. IsHeld (placed (id, held)) (map placed store.old.entries) is_gone (map placed store.new.entries)) }
    ensures cap { store.new.cap ≡ store.old.cap }
{
    let before = store.len();
    store.push(id, held)?;
    Ok(store.len() == before)
}

/// Takes the line of this id out, if it is held.
pub(crate) fn take(store: &mut Store, id: &[u8]) -> Option<(Vec<u8>, Held)>
    ensures some { IfSome result (λ line. IsPermutation (map placed store.old.entries) (placed line ∷ map placed store.new.entries)) }
    ensures id { IfSome result (λ line. line.0.items ≡ id.now) }
    ensures order { (top : ℕ) → AreFalling top (map placed store.old.entries) → AreFalling top (map placed store.new.entries) }
    ensures none { IfNone result ((store.new ≡ store.old) × IsWithout id.now (map placed store.old.entries)) }
    ensures cap { store.new.cap ≡ store.old.cap }
{
    store.pop_entry(id)
}
