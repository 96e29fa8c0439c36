//! What follows of the events of the queues: who left a queue reads its decision, and is counted so.

ghost use Rattle.std.specs.Prelude.{◌≡◌, ◌≢◌, ◌+◌, ◌^◌, ◌<◌, ◌≤◌, length};
ghost use Rattle.apf_local.specs.declared.answer.Place.TheVariants as places;
ghost use Rattle.apf_service.specs.Tallies.{IsTallied, decided_in, after_poll as after_place};
ghost use Rattle.apf_service.specs.Kept.{state_of, charged_by, Leaves, Follows, FollowsAll};

use crate::queues::count;
use crate::state::ServiceState;
use crate::tally::Tally;
use apf_book::LifeEvent;
use apf_local::{LocalLevel, Place};
use apf_words::Decision;

// Counts that a request of this width, which waited, read its decision: where it is now. One that is over was cancelled.
fn after_poll(tally: Tally, width: u32, place: Place) -> Tally
    requires few { decided_in tally.counts < 2 ^ 63 }
    requires running { tally.running < 2 ^ 31 }
    requires seats { tally.seats + width < 2 ^ 32 }
    requires waiting { 1 ≤ tally.waiting }
    ensures { result ≡ after_place width place tally }
{
    match place {
        Place::Runs => tally.leave().start(width),
        Place::Free => tally.leave().end(Decision::Cancelled),
        Place::Fresh(_) | Place::Waits => tally,
    }
}

// The request of this slot reads its decision, if it waits, and is counted so.
fn leave(level: &mut LocalLevel, notes: &mut ServiceState, slot: u32)
    requires tallied { IsTallied level.old notes.old.tally }
    ensures tallied { IsTallied level.new notes.new.tally }
    ensures count { length level.new.places ≡ length level.old.places }
    ensures seen { notes.new.seen ≡ notes.old.seen }
    ensures leaves { Leaves slot (state_of level.old notes.old) (state_of level.new notes.new) }
{
    if slot as usize >= level.slots() {
        return;
    }
    if level.held(slot as usize) != Place::Waits {
        return;
    }
    let width = level.ticket(slot as usize).width();
    let place = level.place(slot as usize);
    notes.tally = after_poll(notes.tally, width, place);
}

// What a queue is charged by the event.
fn charge(notes: &ServiceState, event: LifeEvent) -> u32
    ensures { result ≡ charged_by notes.now.charges notes.now.asked.items event }
{
    let LifeEvent::Dispatch(request, _) = event else {
        return 0;
    };
    let cost = match notes.asked.get(request.slot() as usize) {
        Some(asked) => asked.cost,
        None => 0,
    };
    notes.charges.charge_of(request.width(), cost)
}

// What follows of one event.
fn follow(level: &mut LocalLevel, notes: &mut ServiceState, event: LifeEvent)
    requires tallied { IsTallied level.old notes.old.tally }
    ensures tallied { IsTallied level.new notes.new.tally }
    ensures count { length level.new.places ≡ length level.old.places }
    ensures seen { notes.new.seen ≡ notes.old.seen }
    ensures follows { Follows event (state_of level.old notes.old) (state_of level.new notes.new) }
{
    let charge = charge(notes, event);
    count(notes.queues.as_mut_slice(), event, charge);
    match event {
        LifeEvent::Enter(..) | LifeEvent::Full(..) => {}
        LifeEvent::Dispatch(request, _) | LifeEvent::Strike(request, _) => {
            leave(level, notes, request.slot());
        }
    }
}

/// What follows of these events, the oldest first.
pub fn follow_all(level: &mut LocalLevel, notes: &mut ServiceState, log: &[LifeEvent])
    requires tallied { IsTallied level.old notes.old.tally }
    ensures tallied { IsTallied level.new notes.new.tally }
    ensures count { length level.new.places ≡ length level.old.places }
    ensures seen { notes.new.seen ≡ notes.old.seen }
    ensures follows { FollowsAll log.now (state_of level.old notes.old) (state_of level.new notes.new) }
{
    for event in log {
        follow(level, notes, *event);
    }
}
