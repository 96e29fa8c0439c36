//! What a request that waits reads.

ghost use Rattle.std.specs.Prelude.{◌≡◌, ◌≢◌, ◌<◌, length};
ghost use Rattle.apf_book.specs.Life.{LifeView};
ghost use Rattle.apf_book.specs.LifeBook.{IsLifeKept};
ghost use Rattle.apf_line.specs.Tokens.{IsInLine};
ghost use Rattle.apf_local.specs.Worlds.{IsDecidedIn};
ghost use Rattle.apf_local.specs.Owners.{SameOwner, Moves, IsSlotOf};
ghost use Rattle.apf_local.specs.Levels.{GoesOn};
ghost use Rattle.apf_local.specs.Tries.{Places};

use crate::answer::Place;
use crate::owner::Owner;
use apf_words::Decision;

/// Where the slot's request is, which waits as far as its Pass knows: it reads its decision. One that is cancelled leaves
/// its queue. One that is decided, as far as the Desk knows, does not wait.
pub fn read_place(owner: &mut Owner, slot: usize) -> Place
    requires is_slot { slot < length owner.old.passes }
    requires waits { IsSlotOf owner.old.passes slot IsInLine }
    ensures same { SameOwner owner.old owner.new }
    ensures reads { Moves slot owner.old.passes owner.new.passes (Places result) }
    ensures operators { owner.new.stations ≡ owner.old.stations }
    ensures decided { IsSlotOf owner.old.passes slot (λ t. IsDecidedIn owner.old.book t.pass.number → result ≢ Place.Waits) }
    ensures history { (v : LifeView) → IsLifeKept v owner.old.book → GoesOn v owner.new.book }
{
    match owner.read(slot) {
        None => Place::Waits,
        Some(Decision::Execute) => Place::Runs,
        Some(_decision) => {
            owner.withdraw(slot);
            Place::Free
        }
    }
}
