//! What is kept of a log, and how far it was read.

ghost use Rattle.std.specs.Prelude.{◌≡◌, ◌≤◌, ℕ, [], true, List, Some, None, replicate, IfOk, IfSome};
ghost use Rattle.apf_words.specs.Limits.{max_queues};
ghost use Rattle.apf_bound.specs.Kept.{IsKeptOf, queues_of};
ghost use Rattle.apf_local.specs.Levels.{LocalView};
ghost use Rattle.apf_watched.specs.Followed.{AreSidesIn, HasNoted, IsFollowed, IsFollowedBy, IsSettled, ReadsAll, TellsSettlement};

use crate::note::{Note, entered, note_of, take_note};
use crate::telling::tell_all;
use apf_book::LifeEvent;
use apf_bound::{Bound, Sides};
use apf_gate::Ticket;
use apf_local::{LocalLevel, Settlement};
use apf_words::MAX_QUEUES;
use std::alloc::{AllocError, Global};

/// Both sides of the bound of a log, what is noted of its requests, and how far it was read.
#[derive(Drop)]
pub struct Watch {
    pub(crate) bound: Bound,
    // of each slot the newest request that entered a queue
    pub(crate) notes: Vec<Option<Note>>,
    // the events that were read last, and how many were read in all
    pub(crate) room: Vec<LifeEvent>,
    pub(crate) seen: u64,
}

impl Watch {
    /// Nothing came to the log yet. All memory is taken here.
    ///
    /// # Errors
    ///
    /// `AllocError` if memory was refused.
    pub(crate) fn new(alloc: Global, queues: u32, slots: usize) -> Result<Watch, AllocError>
        requires { queues ≤ max_queues }
        ensures queues { IfOk result (λ w. queues_of w.bound ≡ queues) }
        ensures notes { IfOk result (λ w. w.notes.items ≡ replicate slots None) }
        ensures seen { IfOk result (λ w. w.seen ≡ 0) }
        ensures kept { IfOk result (λ w. (costs : List ℕ) (measure : ℕ → ℕ) (hands : ℕ → List ℕ) (limit : ℕ) → IsKeptOf costs measure hands limit [] w.bound) }
    {
        let bound = Bound::new(alloc, queues)?;
        let notes = vec![in alloc; None; slots]?;
        let room = vec![in alloc; LifeEvent::Enter(Ticket::of(0), 0); slots.saturating_mul(2)]?;
        Ok(Watch {
            bound,
            notes,
            room,
            seen: 0,
        })
    }

    // Tells what was settled of this request. Says whether it was: the request is noted, and took what its note says.
    fn settle(&mut self, ticket: Ticket, settlement: Settlement) -> bool
        ensures { result ≡ true → TellsSettlement ticket settlement self.old self.new }
    {
        let Settlement { charge, took } = settlement;
        match note_of(self.notes.as_slice(), ticket) {
            Some(note) if note.takes == took && charge.queue < self.bound.queues() => {
                self.bound.settle(charge.queue, charge.amount, took);
                true
            }
            _ => false,
        }
    }

    /// Both sides of the bound, of all that was told.
    pub(crate) fn sides(&self) -> Sides
        ensures { (l : LocalView) → IsFollowedBy l self.now → AreSidesIn l result }
    {
        self.bound.sides()
    }

    // Reads all that came to the log since it was read last, and tells it. Says whether that could be done: nothing of it
    // was missed, and all of its requests are noted.
    fn read(&mut self, level: &LocalLevel) -> bool
        ensures { result ≡ true → ReadsAll level.now self.old self.new }
    {
        let copied = level.copy_events(self.seen, self.room.as_mut_slice());
        let all = level.events();
        if copied.from != self.seen || self.seen.checked_add(copied.count as u64) != Some(all) {
            return false;
        }
        let Some(events) = self.room.as_slice().get(..copied.count) else {
            return false;
        };
        self.seen = all;
        tell_all(&mut self.bound, self.notes.as_slice(), events)
    }
}

/// What is kept of the log of a level from its beginning on. Nothing, if something happened to it already.
///
/// # Errors
///
/// `AllocError` if memory was refused.
pub(crate) fn watch_of(
    alloc: Global,
    level: &LocalLevel,
    queues: u32,
) -> Result<Option<Watch>, AllocError>
    requires { queues ≡ level.now.sizes.deck }
    ensures { IfOk result (IsFollowed level.now) }
{
    if level.events() != 0 || queues > MAX_QUEUES {
        return Ok(None);
    }
    level.has_queues();
    level.has_a_history();
    let watch = Watch::new(alloc, queues, level.slots())?;
    Ok(Some(watch))
}

/// What is kept once the request that entered a queue by this event was noted, if one did.
pub(crate) fn noting(
    watch: Option<Watch>,
    event: Option<LifeEvent>,
    cost: u32,
    takes: u64,
) -> Option<Watch>
    ensures { IfSome result (λ after. (before : Watch) × (watch ≡ Some before) × HasNoted event cost takes before after) }
{
    let mut watch = watch?;
    take_note(&mut watch.notes, entered(event), cost, takes);
    Some(watch)
}

/// What is kept once this was settled of the request, if it could be told; as it was, where nothing was settled.
pub(crate) fn settling(
    watch: Option<Watch>,
    ticket: Ticket,
    settlement: Option<Settlement>,
) -> Option<Watch>
    ensures { IfSome result (λ after. (before : Watch) × (watch ≡ Some before) × IsSettled ticket settlement before after) }
{
    let mut watch = watch?;
    let Some(settlement) = settlement else {
        return Some(watch);
    };
    if !watch.settle(ticket, settlement) {
        return None;
    }
    Some(watch)
}

/// What is kept once all that came to the log was read, if it could be.
pub(crate) fn following(watch: Option<Watch>, level: &LocalLevel) -> Option<Watch>
    ensures { IfSome result (λ after. (before : Watch) × (watch ≡ Some before) × ReadsAll level.now before after) }
{
    let mut watch = watch?;
    if !watch.read(level) {
        return None;
    }
    Some(watch)
}
