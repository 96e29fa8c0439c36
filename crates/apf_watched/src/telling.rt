//! Tells the events of a log to both sides of the bound.

ghost use Rattle.std.specs.Prelude.{◌≡◌, ◌∷◌, ℕ, List, true};
ghost use Rattle.apf_history.specs.declared.events.LogEntry.{LogEntry};
ghost use Rattle.apf_history.specs.declared.events.LogEntry.TheVariants.{Happens};
ghost use Rattle.apf_history.specs.declared.events.Event.TheVariants.{Enter, Dispatch};
ghost use Rattle.apf_book.specs.RecentEvents.{event_of};
ghost use Rattle.apf_bound.specs.Kept.{IsKeptOf, queues_of};
ghost use Rattle.apf_watched.specs.Followed.{TellsEvents};
ghost use Rattle.apf_watched.specs.Notes.{AreOf};

use crate::note::{Note, note_of};
use apf_book::LifeEvent;
use apf_bound::Bound;
use apf_gate::Ticket;

// The request entered the queue. Says whether that was told: it is noted, and the queue is there.
fn tell_enter(bound: &mut Bound, notes: &[Option<Note>], ticket: Ticket, queue: u32) -> bool
    ensures queues { queues_of bound.new ≡ queues_of bound.old }
    ensures told { result ≡ true → (costs : List ℕ) (measure : ℕ → ℕ) (hands : ℕ → List ℕ) (limit : ℕ) (l : List LogEntry)
        → AreOf costs measure notes.now → IsKeptOf costs measure hands limit l bound.old → IsKeptOf costs measure hands limit (Happens (Enter ticket.number queue) ∷ l) bound.new }
{
    match note_of(notes, ticket) {
        Some(note) if queue < bound.queues() => {
            bound.enter(queue, note.cost);
            true
        }
        _ => false,
    }
}

// The same of a request that was dispatched.
fn tell_dispatch(bound: &mut Bound, notes: &[Option<Note>], ticket: Ticket, queue: u32) -> bool
    ensures queues { queues_of bound.new ≡ queues_of bound.old }
    ensures told { result ≡ true → (costs : List ℕ) (measure : ℕ → ℕ) (hands : ℕ → List ℕ) (limit : ℕ) (l : List LogEntry)
        → AreOf costs measure notes.now → IsKeptOf costs measure hands limit l bound.old → IsKeptOf costs measure hands limit (Happens (Dispatch ticket.number queue) ∷ l) bound.new }
{
    match note_of(notes, ticket) {
        Some(note) if queue < bound.queues() => {
            bound.dispatch(queue, note.cost, note.takes);
            true
        }
        _ => false,
    }
}

// The event came to the log. Says whether it was told.
fn tell(bound: &mut Bound, notes: &[Option<Note>], event: LifeEvent) -> bool
    ensures queues { queues_of bound.new ≡ queues_of bound.old }
    ensures told { result ≡ true → (costs : List ℕ) (measure : ℕ → ℕ) (hands : ℕ → List ℕ) (limit : ℕ) (l : List LogEntry)
        → AreOf costs measure notes.now → IsKeptOf costs measure hands limit l bound.old → IsKeptOf costs measure hands limit (Happens (event_of event) ∷ l) bound.new }
{
    match event {
        LifeEvent::Enter(ticket, queue) => tell_enter(bound, notes, ticket, queue),
        LifeEvent::Dispatch(ticket, queue) => tell_dispatch(bound, notes, ticket, queue),
        LifeEvent::Strike(_, queue) if queue < bound.queues() => {
            bound.strike(queue);
            true
        }
        LifeEvent::Strike(..) => false,
        LifeEvent::Full(..) => {
            bound.refuse();
            true
        }
    }
}

/// These events came to the log, the oldest first. Says whether all were told: the requests that entered a queue or were dispatched
/// are noted, and the queues are there.
pub(crate) fn tell_all(bound: &mut Bound, notes: &[Option<Note>], events: &[LifeEvent]) -> bool
    ensures { result ≡ true → TellsEvents notes.now events.now bound.old bound.new }
{
    for event in events {
        if !tell(bound, notes, *event) {
            return false;
        }
    }
    true
}
