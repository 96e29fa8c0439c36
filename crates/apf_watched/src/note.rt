//! What is noted of a request that entered a queue.

ghost use Rattle.std.specs.Prelude.{◌≡◌, IfSome};
ghost use Rattle.apf_watched.specs.Notes.{IsNoteOf, entered_by, with_note};

use apf_book::LifeEvent;
use apf_gate::Ticket;

/// What is noted of a request that entered a queue.
#[derive(Clone, Copy, Debug, PartialEq, Eq)]
pub struct Note {
    pub ticket: Ticket,
    /// What its dispatch is charged.
    pub cost: u32,
    /// What it will take, in microseconds of a seat.
    pub takes: u64,
}

/// What is noted of the request of this ticket, in its slot.
pub(crate) fn note_of(notes: &[Option<Note>], ticket: Ticket) -> Option<Note>
    ensures { IfSome result (IsNoteOf notes.now ticket) }
{
    match notes.get(ticket.slot() as usize) {
        Some(Some(note)) if note.ticket == ticket => Some(*note),
        _ => None,
    }
}

/// The request that entered a queue by this event, if one did.
pub(crate) fn entered(event: Option<LifeEvent>) -> Option<Ticket>
    ensures { result ≡ entered_by event }
{
    match event {
        Some(LifeEvent::Enter(ticket, _)) => Some(ticket),
        _ => None,
    }
}

/// The request is noted in its slot, if there is one.
#[tactic(auto, using(crate::proofs::Told::set_beyond))]
pub(crate) fn take_note(
    notes: &mut Vec<Option<Note>>,
    request: Option<Ticket>,
    cost: u32,
    takes: u64,
)
    ensures { notes.new.items ≡ with_note request cost takes notes.old.items }
{
    let Some(ticket) = request else {
        return;
    };
    let slot = ticket.slot() as usize;
    if slot < notes.len() {
        notes[slot] = Some(Note {
            ticket,
            cost,
            takes,
        });
    }
}
