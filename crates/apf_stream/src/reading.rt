//! What a request that waits reads.

ghost use Rattle.std.specs.Prelude.{◌≡◌, ◌≢◌, ◌<◌, ◌≤◌, length, slice_get, Some, IfOk};
ghost use Rattle.apf_local.specs.declared.answer.Place.TheVariants as places;
ghost use Rattle.apf_local.specs.Owners.{IsSlotOf};
ghost use Rattle.apf_local.specs.Worlds.{IsDecidedIn};
ghost use Rattle.apf_stream.specs.States.{state_of};
ghost use Rattle.apf_stream.specs.Runs.{ReadsAs};
ghost use Rattle.apf_stream.specs.Ties.{AreTied, WaitsAt};
ghost use Rattle.apf_stream.specs.Measures.{left};

use crate::ended::{Ended, tell};
use crate::fault::StreamFault;
use crate::stream::Stream;
use apf_local::Place;
use apf_words::Decision;

impl Stream {
    // The request of the slot, which waits, reads its decision. It is given its seats now if it executes, and is told if it is
    // over.
    pub(crate) fn read(&mut self, slot: u32, ends: &mut Vec<Ended>) -> Result<Place, StreamFault>
        requires waits { WaitsAt (state_of self.old) slot }
        ensures reads { IfOk result (λ place. ReadsAs slot place (state_of self.old) ends.old.items (state_of self.new) ends.new.items) }
        ensures tied { IfOk result (λ place. place ≢ places.Waits → AreTied (state_of self.new)) }
        ensures still { IfOk result (λ place. AreTied (state_of self.old) → AreTied (state_of self.new)) }
        ensures fewer { IfOk result (λ place. place ≢ places.Waits → left self.new.calendar.slots < left self.old.calendar.slots) }
        ensures no_more { IfOk result (λ place. left self.new.calendar.slots ≤ left self.old.calendar.slots) }
        ensures time { IfOk result (λ place. self.new.calendar.time ≡ self.old.calendar.time) }
        ensures decided { IfOk result (λ place. IsSlotOf self.old.level.level.owner.passes slot (λ t. IsDecidedIn self.old.level.level.owner.book t.pass.number → place ≢ places.Waits)) }
    {
        let place = self.level.place(slot as usize);
        match place {
            Place::Waits => {}
            Place::Runs => self.calendar.start(slot)?,
            Place::Free => {
                let over_at = self.calendar.time();
                let hold = self.holds[slot as usize];
                self.calendar.leave(slot);
                let ended = Ended {
                    hold,
                    decision: Decision::Cancelled,
                    since: None,
                    over_at,
                };
                tell(ends, ended)?;
            }
            Place::Fresh(_) => unreachable!(),
        }
        Ok(place)
    }
}
