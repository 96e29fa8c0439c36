//! Changes by their times, and how much they are together until a time.

ghost use Rattle.std.specs.Prelude.{◌≡◌, ◌<◌, ◌≤◌, ◌^◌, length, vec_len, IfOk, IsPermutation};
ghost use Rattle.std.specs.List.Sorted.{IsNonDecreasingBy};
ghost use Rattle.apf_picture.specs.Changes.{sum_until, sum_of_first, AreSums};

use std::alloc::{AllocError, Global};
use std::marker::Model;

/// So much begins or ends at a time.
#[derive(Clone, Copy)]
pub(crate) struct Change {
    pub(crate) time: u64,
    pub(crate) amount: u32,
}

/// Changes in the order of their times. To a contract they are the list of these.
#[derive(Drop)]
pub(crate) struct Totals {
    changes: Vec<Change>,
    // At each place the sum of this many changes, the first ones.
    sums: Vec<u64>,
}

impl Model for Totals {
    ghost use Rattle.std.specs.Prelude.{List};
    ghost use Rattle.std.specs.List.Sorted.{IsNonDecreasingBy};
    ghost use Rattle.apf_picture.specs.declared.totals.Change.{Change};
    ghost use Rattle.apf_picture.specs.Changes.{AreSums};

    ghost Value = { List Change };

    ghost view = { λ it. it.changes.items };

    ghost invariant = { λ it. IsNonDecreasingBy (λ (change : Change). change.time) it.changes.items × AreSums it.changes.items it.sums.items };
}

// Puts changes into the order of their times.
fn put_in_order(changes: &mut Vec<Change>)
    ensures same { IsPermutation changes.old.items changes.new.items }
    ensures count { vec_len changes.new ≡ vec_len changes.old }
    ensures in_order { IsNonDecreasingBy (λ change. change.time) changes.new.items }
{
    changes.sort_unstable_by_key(|change| change.time);
}

// The sum of none of the changes, of the first one, of the first two, and so on.
fn sums(alloc: Global, changes: &[Change]) -> Result<Vec<u64>, AllocError>
    requires { length changes.now < 2 ^ 31 }
    ensures { IfOk result (λ sums. AreSums changes.now sums.items) }
{
    let mut sums = Vec::new(alloc);
    let mut total = 0;
    sums.push(total)?;
    for change in changes {
        total += u64::from(change.amount);
        sums.push(total)?;
    }
    Ok(sums)
}

// How many of the changes come until the time.
fn count_until(changes: &[Change], time: u64) -> usize
    requires { IsNonDecreasingBy (λ change. change.time) changes.now }
    ensures count { sum_of_first changes.now result ≡ sum_until time changes.now }
    ensures within { result ≤ length changes.now }
{
    changes.partition_point(|change| change.time <= time)
}

impl Totals {
    /// Of these changes.
    pub(crate) fn of(alloc: Global, mut changes: Vec<Change>) -> Result<Totals, AllocError>
        requires { vec_len changes < 2 ^ 31 }
        ensures { IfOk result (IsPermutation changes.items) }
    {
        put_in_order(&mut changes);
        let sums = sums(alloc, changes.as_slice())?;
        Ok(Totals { changes, sums })
    }

    /// How much the changes until the time are together.
    pub(crate) fn until(&self, time: u64) -> u64
        ensures { result ≡ sum_until time self.now }
    {
        self.sums[count_until(self.changes.as_slice(), time)]
    }
}
