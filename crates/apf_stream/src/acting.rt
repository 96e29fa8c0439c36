//! The calls of the level for what is due, and what follows of them.

ghost use Rattle.std.specs.Prelude.{◌≡◌, ◌<◌, ◌≤◌, ◌∷◌, ℕ, [], true, false, IfOk, OnOk, if◌then◌else◌};
ghost use Rattle.apf_words.specs.Limits.{max_limit};
ghost use Rattle.apf_times.specs.Limits.{max_wait};
ghost use Rattle.apf_calendar.specs.Guests.{IsFree, NothingBy};
ghost use Rattle.apf_stream.specs.States.{IsAsked, state_of};
ghost use Rattle.apf_stream.specs.Deeds.{SetsLimit, queue_in as the_queue_in};
ghost use Rattle.apf_stream.specs.Measures.{left};
ghost use Rattle.apf_stream.specs.Runs.{ArrivesAs, CallsAs, CancelsAs, HasRun, HasRunUnder, ReturnsAs};
ghost use Rattle.apf_stream.specs.Ties.{AreTied, IsCallDue, IsReturning, WaitsAt};

use crate::asked::{Asked, Hold};
use crate::deed::NewLimit;
use crate::ended::{Ended, tell};
use crate::fault::StreamFault;
use crate::stream::Stream;
use apf_book::LifeEvent;
use apf_calendar::{Carried, Stay};
use apf_local::{Answer, Ask, Place};
use apf_words::Decision;

// The queue that a request entered by this event, if it entered one.
fn queue_in(event: Option<LifeEvent>) -> Option<u32>
    ensures { result ≡ the_queue_in event }
{
    match event {
        Some(LifeEvent::Enter(_, queue)) => Some(queue),
        _ => None,
    }
}

impl Stream {
    // The request that finished gives its seats back, and is told.
    fn finish(
        &mut self,
        carried: Carried,
        since: u64,
        ends: &mut Vec<Ended>,
    ) -> Result<(), StreamFault>
        requires returning { IsReturning (state_of self.old) carried.slot carried.guest }
        ensures returns { OnOk result (ReturnsAs carried since (state_of self.old) ends.old.items (state_of self.new) ends.new.items) }
        ensures tied { OnOk result (AreTied (state_of self.new)) }
        ensures calendar { OnOk result (self.new.calendar ≡ self.old.calendar) }
    {
        let slot = carried.slot as usize;
        let hold = self.holds[slot];
        let runs_for = carried.guest.times.runs_for;
        self.level.finish(slot, runs_for);
        self.charges.learn(hold.asked.hash, runs_for);
        let ended = Ended {
            hold,
            decision: Decision::Execute,
            since: Some(since),
            over_at: carried.at,
        };
        tell(ends, ended)?;
        Ok(())
    }

    // The request of the slot, whose patience ended as it waited, is cancelled, and reads that.
    fn give_up(&mut self, slot: u32, ends: &mut Vec<Ended>) -> Result<(), StreamFault>
        requires leaving { WaitsAt (state_of self.old) slot }
        ensures cancels { OnOk result (CancelsAs slot (state_of self.old) ends.old.items (state_of self.new) ends.new.items) }
        ensures tied { OnOk result (AreTied (state_of self.new)) }
        ensures no_more { OnOk result (left self.new.calendar.slots ≤ left self.old.calendar.slots) }
        ensures time { OnOk result (self.new.calendar.time ≡ self.old.calendar.time) }
    {
        let ticket = self.level.ticket(slot as usize);
        self.level.cancel(ticket);
        self.read(slot, ends)?;
        Ok(())
    }

    // A request that was dispatched or struck by this event reads its decision, if it waits still.
    fn hear(&mut self, event: LifeEvent, ends: &mut Vec<Ended>) -> Result<(), StreamFault>
        requires tied { AreTied (state_of self.old) }
        ensures tied { OnOk result (AreTied (state_of self.new)) }
        ensures run { OnOk result (HasRun [] (state_of self.old) ends.old.items (state_of self.new) ends.new.items) }
        ensures no_more { OnOk result (left self.new.calendar.slots ≤ left self.old.calendar.slots) }
        ensures time { OnOk result (self.new.calendar.time ≡ self.old.calendar.time) }
    {
        let (LifeEvent::Dispatch(ticket, _) | LifeEvent::Strike(ticket, _)) = event else {
            return Ok(());
        };
        let slot = ticket.slot();
        if slot as usize >= self.level.slots() || self.level.held(slot as usize) != Place::Waits {
            return Ok(());
        }
        self.read(slot, ends)?;
        Ok(())
    }

    // Reads the new events. Each request that was dispatched or struck reads its decision.
    fn follow(&mut self, ends: &mut Vec<Ended>) -> Result<(), StreamFault>
        requires tied { AreTied (state_of self.old) }
        ensures tied { OnOk result (AreTied (state_of self.new)) }
        ensures run { OnOk result (HasRun [] (state_of self.old) ends.old.items (state_of self.new) ends.new.items) }
        ensures no_more { OnOk result (left self.new.calendar.slots ≤ left self.old.calendar.slots) }
        ensures time { OnOk result (self.new.calendar.time ≡ self.old.calendar.time) }
    {
        let room = self.room.as_mut_slice();
        let copied = self.level.copy_events(self.seen, room);
        let count = copied.count.min(self.room.len());
        self.seen = copied.from.saturating_add(count as u64);
        for place in 0..count {
            if place < self.room.len() {
                let event = self.room[place];
                self.hear(event, ends)?;
            }
        }
        Ok(())
    }

    // Makes the call for what was just carried out.
    fn call(&mut self, carried: Carried, ends: &mut Vec<Ended>) -> Result<(), StreamFault>
        requires due { IsCallDue (state_of self.old) carried.slot carried.guest carried.guest.stay }
        ensures calls { OnOk result (CallsAs carried carried.guest.stay (state_of self.old) ends.old.items (state_of self.new) ends.new.items) }
        ensures tied { OnOk result (AreTied (state_of self.new)) }
        ensures no_more { OnOk result (left self.new.calendar.slots ≤ left self.old.calendar.slots) }
        ensures time { OnOk result (self.new.calendar.time ≡ self.old.calendar.time) }
    {
        match carried.guest.stay {
            Stay::Holds(since) => self.finish(carried, since, ends),
            Stay::Waits => self.give_up(carried.slot, ends),
            Stay::Impatient => unreachable!(),
        }
    }

    // Carries out what is due first, if it is due up to this time, and makes the call for it. Says whether something was.
    fn step(&mut self, by: u64, ends: &mut Vec<Ended>) -> Result<bool, StreamFault>
        requires tied { AreTied (state_of self.old) }
        ensures tied { OnOk result (AreTied (state_of self.new)) }
        ensures run { OnOk result (HasRun [] (state_of self.old) ends.old.items (state_of self.new) ends.new.items) }
        ensures fewer { IfOk result (λ more. more ≡ true → left self.new.calendar.slots < left self.old.calendar.slots) }
        ensures over { IfOk result (λ more. more ≡ false → NothingBy self.new.calendar by) }
        ensures in_time { IfOk result (λ more. more ≡ true → self.new.calendar.time ≤ by) }
        ensures still { IfOk result (λ more. more ≡ false → self.new.calendar.time ≡ self.old.calendar.time) }
        ensures forward { OnOk result (self.old.calendar.time ≤ self.new.calendar.time) }
    {
        let Some(carried) = self.calendar.next_by(by) else {
            return Ok(false);
        };
        self.call(carried, ends)?;
        self.follow(ends)?;
        Ok(true)
    }

    /// Carries out all that is due up to this time, in its order: by the time, then finishes before the ends of patience, each
    /// by their lines. Whoever is over is put behind those that were told before.
    ///
    /// # Errors
    ///
    /// `NoMemory`, or `TooFar` if a request would finish later than anything is carried out. Then nothing is known of the
    /// stream but that it can be let go.
    pub fn advance(&mut self, by: u64, ends: &mut Vec<Ended>) -> Result<(), StreamFault>
        requires tied { AreTied (state_of self.old) }
        ensures tied { OnOk result (AreTied (state_of self.new)) }
        ensures run { OnOk result (HasRun [] (state_of self.old) ends.old.items (state_of self.new) ends.new.items) }
        ensures over { OnOk result (NothingBy self.new.calendar by) }
        ensures in_time { OnOk result (self.old.calendar.time ≤ by → self.new.calendar.time ≤ by) }
    {
        while self.step(by, ends)? {}
        Ok(())
    }

    // The request arrives in this free slot. It is given its cost, and its seats if it executes; one that is rejected is told.
    fn take(&mut self, slot: u32, asked: Asked, ends: &mut Vec<Ended>) -> Result<(), StreamFault>
        requires tied { AreTied (state_of self.old) }
        requires range { IsAsked asked }
        requires free { IsFree self.old.calendar slot }
        requires forward { self.old.calendar.time ≤ asked.times.arrives_at }
        requires over { NothingBy self.old.calendar asked.times.arrives_at }
        ensures arrives { OnOk result (ArrivesAs slot asked (state_of self.old) ends.old.items (state_of self.new) ends.new.items) }
        ensures tied { OnOk result (AreTied (state_of self.new)) }
        ensures time { OnOk result (self.new.calendar.time ≡ asked.times.arrives_at) }
    {
        let cost = self.charges.cost_of(asked.hash, asked.width, asked.cost);
        let ask = Ask {
            width: asked.width,
            hash: asked.hash,
            cost,
        };
        self.calendar.arrive(slot, asked.line, asked.times);
        let runs_for = asked.times.runs_for;
        let (answer, event) = self.level.arrive(slot as usize, ask, runs_for);
        let hold = Hold {
            asked,
            cost,
            queue: queue_in(event),
        };
        self.holds[slot as usize] = hold;
        match answer {
            Answer::Run => {
                self.calendar.start(slot)?;
                Ok(())
            }
            Answer::Waits => Ok(()),
            Answer::Over(decision) => {
                let over_at = asked.times.arrives_at;
                self.calendar.leave(slot);
                let ended = Ended {
                    hold,
                    decision,
                    since: None,
                    over_at,
                };
                tell(ends, ended)?;
                Ok(())
            }
            Answer::Spent => Err(StreamFault::UsedUp),
            Answer::Busy | Answer::Released | Answer::Wrong => unreachable!(),
        }
    }

    /// A request arrives, no earlier than anything that was carried out. Before that all is carried out that is due up to its
    /// arrival. Whoever is over is put behind those that were told before. Says whether it arrived: it does not if all slots
    /// are taken then.
    ///
    /// # Errors
    ///
    /// `UsedUp` if its slot was given to as many requests as it can be, and those of `advance`. Then nothing is known of the
    /// stream but that it can be let go.
    pub fn arrive(&mut self, asked: Asked, ends: &mut Vec<Ended>) -> Result<bool, StreamFault>
        requires tied { AreTied (state_of self.old) }
        requires range { IsAsked asked }
        requires forward { self.old.calendar.time ≤ asked.times.arrives_at }
        ensures tied { OnOk result (AreTied (state_of self.new)) }
        ensures run { IfOk result (λ came. HasRun (if came then asked ∷ [] else []) (state_of self.old) ends.old.items (state_of self.new) ends.new.items) }
        ensures forward { OnOk result (self.new.calendar.time ≤ asked.times.arrives_at) }
        ensures full { IfOk result (λ came. came ≡ false → (i : ℕ) → IsFree self.new.calendar i → ⊥) }
        ensures over { IfOk result (λ came. came ≡ false → NothingBy self.new.calendar asked.times.arrives_at) }
    {
        self.advance(asked.times.arrives_at, ends)?;
        let Some(slot) = self.calendar.free_slot() else {
            return Ok(false);
        };
        self.take(slot, asked, ends)?;
        self.follow(ends)?;
        Ok(true)
    }

    // The limit is set, now that nothing else is due up to then.
    fn set_now(&mut self, new: NewLimit)
        requires tied { AreTied (state_of self.old) }
        requires low { new.at ≤ max_wait }
        requires some_limit { 1 ≤ new.limit }
        requires small_limit { new.limit ≤ max_limit }
        requires forward { self.old.calendar.time ≤ new.at }
        requires over { NothingBy self.old.calendar new.at }
        ensures sets { SetsLimit new (state_of self.old) (state_of self.new) [] }
        ensures tied { AreTied (state_of self.new) }
        ensures time { self.new.calendar.time ≡ new.at }
    {
        self.calendar.go_on(new.at);
        self.level.set_limit(new.limit);
    }

    /// The limit is set, no earlier than anything that was carried out. Before that all is carried out that is due up to then.
    /// Behind it who waits and fits now is dispatched, and has its seats from then on. Whoever is over is put behind those that
    /// were told before.
    ///
    /// # Errors
    ///
    /// Those of `advance`. Then nothing is known of the stream but that it can be let go.
    pub fn set_limit(&mut self, new: NewLimit, ends: &mut Vec<Ended>) -> Result<(), StreamFault>
        requires tied { AreTied (state_of self.old) }
        requires low { new.at ≤ max_wait }
        requires some_limit { 1 ≤ new.limit }
        requires small_limit { new.limit ≤ max_limit }
        requires forward { self.old.calendar.time ≤ new.at }
        ensures tied { OnOk result (AreTied (state_of self.new)) }
        ensures run { OnOk result (HasRunUnder (new ∷ []) [] (state_of self.old) ends.old.items (state_of self.new) ends.new.items) }
        ensures time { OnOk result (self.new.calendar.time ≡ new.at) }
    {
        self.advance(new.at, ends)?;
        self.set_now(new);
        self.follow(ends)?;
        Ok(())
    }
}
