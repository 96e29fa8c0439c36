//! What became of the Dones is heard under the lock, before a level ends.

ghost use Rattle.std.specs.Prelude.{◌≡◌, [], map, IfOk, All};
ghost use Rattle.apf_gate.specs.Tokens.{desk_gate, pass_gate};
ghost use Rattle.apf_level.specs.Levels.{IsBookOf};
ghost use Rattle.apf_level.specs.UnderLock.{desk_in, IsUnderLockOf};
ghost use Rattle.apf_level.specs.Tokens.{IsDone};
ghost use Rattle.apf_level.specs.Heard.{IsHeard, StaysHeard, GoesOnFrom, GoOnFrom, outcome_of};

use crate::naming::Naming;
use crate::tokens::Done;
use apf_book::{Book, every_book_is_kept};
use apf_gate::{Desk, Gate, Pass};
use std::alloc::{AllocError, Global};

// Whoever decided under the lock: the book of a level with queues, or the Desk of one without.
#[derive(Drop)]
pub enum UnderLock {
    Book(Book<Global>),
    Desk(Desk),
}

// The book hears the decision of a Pass's request, and strikes it if it still stands in a queue.
fn hear_in_book<K: Naming>(gate: &Gate<Global>, book: &mut Book<Global>, pass: &mut Pass)
    requires own { gate.now ≡ K.level.gate }
    requires own_book { IsBookOf K.level book.old }
    requires own_pass { pass_gate pass.old ≡ K.level.gate }
    requires done { IsDone pass.old }
    ensures book { IsBookOf K.level book.new }
    ensures same { outcome_of pass.new ≡ outcome_of pass.old }
    ensures done { IsDone pass.new }
    ensures heard { IsHeard book.new.desk.desk pass.new }
    ensures stays { StaysHeard book.old.desk.desk book.new.desk.desk }
    ensures goes_on { GoesOnFrom pass.old pass.new }
{
    every_book_is_kept();
    book.hear(gate, pass);
    let _struck = book.strike(gate, pass.number() as u32);
}

// The Desk, which served nobody, hears the decision of a Pass's request.
fn hear_unqueued(gate: &Gate<Global>, desk: &mut Desk, pass: &mut Pass)
    requires own { desk_gate desk.old ≡ gate.now }
    requires served_none { desk.old.desk.services ≡ [] }
    requires own_pass { pass_gate pass.old ≡ gate.now }
    requires done { IsDone pass.old }
    ensures gate { desk_gate desk.new ≡ desk_gate desk.old }
    ensures served { (desk.new.desk.services ≡ desk.old.desk.services) × (desk.new.desk.held ≡ desk.old.desk.held) }
    ensures same { outcome_of pass.new ≡ outcome_of pass.old }
    ensures done { IsDone pass.new }
    ensures heard { IsHeard desk.new.desk pass.new }
    ensures stays { StaysHeard desk.old.desk desk.new.desk }
    ensures goes_on { GoesOnFrom pass.old pass.new }
{
    gate.hear(desk, pass);
    let _request = pass.number();
}

// Hears what became of a Done's request. It stands in no queue then.
fn hear<K: Naming>(gate: &Gate<Global>, under_lock: &mut UnderLock, done: Done) -> Pass
    requires own { gate.now ≡ K.level.gate }
    requires own_keeper { IsUnderLockOf K.level under_lock.old }
    requires own_pass { pass_gate done ≡ K.level.gate }
    ensures under_lock { IsUnderLockOf K.level under_lock.new }
    ensures same { outcome_of result ≡ outcome_of done }
    ensures done { IsDone result }
    ensures heard { IsHeard (desk_in under_lock.new).desk result }
    ensures stays { StaysHeard (desk_in under_lock.old).desk (desk_in under_lock.new).desk }
    ensures goes_on { GoesOnFrom done result }
{
    let mut pass = done.into_pass();
    match under_lock {
        UnderLock::Book(book) => hear_in_book::<K>(gate, book, &mut pass),
        UnderLock::Desk(desk) => hear_unqueued(gate, desk, &mut pass),
    }
    pass
}

// The Passes of the Dones, once it is heard of each what became of its request.
pub fn gather<K: Naming>(
    alloc: Global,
    gate: &Gate<Global>,
    under_lock: &mut UnderLock,
    dones: Vec<Done>,
) -> Result<Vec<Pass>, AllocError>
    requires own { gate.now ≡ K.level.gate }
    requires own_keeper { IsUnderLockOf K.level under_lock.old }
    requires own_passes { All (λ t. pass_gate t ≡ K.level.gate) dones.items }
    ensures under_lock { IsUnderLockOf K.level under_lock.new }
    ensures same { IfOk result (λ ps. map outcome_of ps.items ≡ map outcome_of dones.items) }
    ensures done { IfOk result (λ ps. All IsDone ps.items) }
    ensures heard { IfOk result (λ ps. All (IsHeard (desk_in under_lock.new).desk) ps.items) }
    ensures go_on { IfOk result (λ ps. GoOnFrom dones.items ps.items []) }
{
    let mut passes = Vec::with_capacity(alloc, dones.len())?;
    for done in dones {
        let pass = hear::<K>(gate, under_lock, done);
        passes.push(pass)?;
    }
    Ok(passes)
}
