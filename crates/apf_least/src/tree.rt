//! Numbers in places, the least of them, and where it stands first.
//!
//! The numbers are the leaves of a binary tree in one list: node 1 is its root, the nodes 2i and 2i + 1
//! stand under node i, and each node that has two under it holds the least of them. There are as many
//! leaves as the next power of two, so that the leaves stand in the order of the places.

ghost use Rattle.std.specs.Prelude.{◌≡◌, ◌≢◌, ℕ, ◌+◌, ◌*◌, ◌^◌, ◌<◌, ◌≤◌, length, drop, slice_index, slice_set, IfOk, IfSome, IfNone};
ghost use Rattle.std.specs.Int.{IsPowerOfTwo};
ghost use Rattle.apf_least.specs.Least.{no_number, AreLeast, IsOver, IsFirstUnder, IsFirstRound, IsFirstLeastFrom};

use std::alloc::{AllocError, Allocator};
use std::marker::Model;

/// What stands in a place that has no number: above each number.
pub const NO_NUMBER: u128 = u128::MAX;

/// Numbers in places, and the least of them.
#[derive(Drop)]
pub struct LeastTree<A: Allocator> {
    leaves: usize,
    least: Vec<u128, A>,
}

// Clauses see the numbers alone, and not what the tree holds of them.
impl<A: Allocator> Model for LeastTree<A> {
    ghost use Rattle.std.specs.Prelude.{ℕ, List, drop};
    ghost use Rattle.apf_least.specs.Least.{AreLeast};

    ghost Value = { List ℕ };

    ghost view = { λ s. drop s.leaves s.least.items };

    ghost invariant = { λ s. AreLeast s.leaves s.least.items };
}

// How many leaves serve this many places: a power of two.
fn leaf_count(places: u32) -> usize
    requires few { places ≤ 2 ^ 31 }
    ensures power { IsPowerOfTwo result }
    ensures room { places ≤ result }
    ensures few { result < 2 ^ 32 }
{
    (places as usize).next_power_of_two()
}

// Puts the number at the leaf, and sets the nodes above it as far as their least changes.
fn put(least: &mut [u128], leaves: usize, leaf: usize, number: u128)
    requires least { AreLeast leaves least.old }
    requires is_leaf { leaves ≤ leaf }
    requires is_node { leaf < 2 * leaves }
    ensures least { AreLeast leaves least.new }
    ensures leaves { drop leaves least.new ≡ drop leaves (slice_set least.old leaf number) }
{
    least[leaf] = number;
    let mut node = leaf;
    while node > 1 {
        node /= 2;
        let lower = least[2 * node].min(least[2 * node + 1]);
        if least[node] == lower {
            return;
        }
        least[node] = lower;
    }
}

// The first leaf under the node that holds what the node holds.
fn first_under(least: &[u128], leaves: usize, node: usize) -> usize
    requires least { AreLeast leaves least.now }
    requires above { 1 ≤ node }
    requires is_node { node < 2 * leaves }
    ensures { (h : ℕ) → IsOver leaves h node → IsFirstUnder least.now h node result }
{
    if node >= leaves {
        return node;
    }
    if least[2 * node] == least[node] {
        first_under(least, leaves, 2 * node)
    } else {
        first_under(least, leaves, 2 * node + 1)
    }
}

// The first leaf that holds what the root holds, counting round from the first leaf under the node.
//
// Where none does under the node, the count goes on at the leaf after these: the first one under the
// next node, or under the one above it if that begins there too. After the last leaf of all the
// number of the next node is that of one which begins at the first leaf.
fn first_round(least: &[u128], leaves: usize, node: usize) -> usize
    requires least { AreLeast leaves least.now }
    requires above { 1 ≤ node }
    requires is_node { node < 2 * leaves }
    ensures { (h : ℕ) → IsOver leaves h node → IsFirstRound least.now leaves (node * 2 ^ h) result }
{
    if least[node] == least[1] {
        first_under(least, leaves, node)
    } else {
        first_round(least, leaves, (node + 1) / 2)
    }
}

impl<A: Allocator> LeastTree<A> {
    /// This many places at least, none of which has a number. All memory is taken here.
    ///
    /// # Errors
    ///
    /// `AllocError` if memory was refused.
    pub fn new(alloc: A, places: u32) -> Result<LeastTree<A>, AllocError>
        requires few { places ≤ 2 ^ 31 }
        ensures room { IfOk result (λ s. places ≤ length s) }
        ensures empty { IfOk result (λ s. (q : ℕ) → q < length s → slice_index s q ≡ no_number) }
    {
        let leaves = leaf_count(places);
        Ok(LeastTree {
            leaves,
            least: vec![in alloc; NO_NUMBER; 2 * leaves]?,
        })
    }
}

impl<A: Allocator> LeastTree<A> {
    /// The number of the place is this one from now on, or [`NO_NUMBER`].
    pub fn set(&mut self, place: u32, number: u128)
        requires { place < length self.old }
        ensures { self.new ≡ slice_set self.old place number }
    {
        let leaf = self.leaves + place as usize;
        put(&mut self.least, self.leaves, leaf, number);
    }

    /// The place of the least number, and among equals the first one when counting round from this place,
    /// or `None` if no place has a number.
    pub fn first_least(&self, from: u32) -> Option<u32>
        requires { from < length self.now }
        ensures none { IfNone result ((q : ℕ) → q < length self.now → no_number ≤ slice_index self.now q) }
        ensures some { IfSome result (IsFirstLeastFrom self.now from) }
    {
        let least: &[u128] = &self.least;
        if least[1] >= NO_NUMBER {
            return None;
        }
        let leaf = first_round(least, self.leaves, self.leaves + from as usize);
        Some((leaf - self.leaves) as u32)
    }
}
