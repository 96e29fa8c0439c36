//! The numbers of virtual time.

ghost use Rattle.std.specs.Prelude.{◌≡◌, ℕ, ◌+◌, ◌<◌, ◌≤◌, ◌^◌, ◌↔◌, length, slice_index, IfOk, OnOk, IsTrue};
ghost use Rattle.apf_history.specs.Fair.{Numbers as VirtualNumbers, numbers, after_enter, after_dispatch, after_event};
ghost use Rattle.apf_history.specs.History.{NamesQueues, queue_of};
ghost use Rattle.apf_plain.specs.Histories.{AreNumbers};

use crate::waiting;
use apf_model::Event;
use std::alloc::{AllocError, Global};

/// The numbers of virtual time, in seats.
#[derive(Debug, Drop)]
pub struct Numbers {
    /// Each queue's own virtual time.
    pub next: Vec<u64>,
    /// The level's virtual time, R.
    pub virtual_time: u64,
    /// The queue that was dispatched from last.
    pub robin: u32,
}

// The queue, in which these requests wait, is entered: one that stops being empty starts no earlier
// than the level's virtual time.
fn enter(numbers: &mut Numbers, queue: u32, requests: &[u32])
    requires { queue < length numbers.old.next.items }
    ensures { (queues : ℕ) (v : VirtualNumbers) → AreNumbers queues v numbers.old
        → AreNumbers queues (after_enter queue requests.now v) numbers.new }
{
    match requests {
        [] => {
            let next = numbers.next[queue as usize];
            numbers.next[queue as usize] = next.max(numbers.virtual_time);
        }
        [_, ..] => {}
    }
}

// A request of this width is dispatched.
fn dispatch(numbers: &mut Numbers, queue: u32, width: u32)
    requires is_queue { queue < length numbers.old.next.items }
    requires fits { slice_index numbers.old.next.items queue + width < 2 ^ 64 }
    ensures { (queues : ℕ) (v : VirtualNumbers) → AreNumbers queues v numbers.old
        → AreNumbers queues (after_dispatch queue width v) numbers.new }
{
    let next = numbers.next[queue as usize];
    numbers.virtual_time = numbers.virtual_time.max(next);
    numbers.next[queue as usize] = next + u64::from(width);
    numbers.robin = queue;
}

// An event comes after a history.
fn follow(
    alloc: Global,
    numbers: &mut Numbers,
    widths: &[u32],
    before: &[Event],
    newest: Event,
) -> Result<(), AllocError>
    requires is_queue { queue_of newest < length numbers.old.next.items }
    requires small { (q : ℕ) → slice_index numbers.old.next.items q ≤ 2 ^ 52 }
    ensures { OnOk result ((queues : ℕ) (v : VirtualNumbers) → AreNumbers queues v numbers.old
        → AreNumbers queues (after_event widths.now before.now newest v) numbers.new) }
{
    match newest {
        Event::Enter(_, queue) => {
            let requests = waiting(alloc, before, queue)?;
            enter(numbers, queue, requests.as_slice());
        }
        Event::Dispatch(request, queue) => {
            let width = widths.get(request as usize).copied().unwrap_or(0);
            dispatch(numbers, queue, width);
        }
        Event::Full(..) | Event::Strike(..) => {}
    }
    Ok(())
}

/// Whether each event of the history names one of this many queues.
pub fn names_queues(queues: u32, history: &[Event]) -> bool
    ensures { IsTrue result ↔ NamesQueues queues history.now }
{
    let Some((newest, before)) = history.split_first() else {
        return true;
    };
    let (Event::Enter(_, queue)
    | Event::Full(_, queue)
    | Event::Dispatch(_, queue)
    | Event::Strike(_, queue)) = *newest;
    queue < queues && names_queues(queues, before)
}

/// The numbers of a history over this many queues, all of whose events name one of them.
pub fn numbers_of(
    alloc: Global,
    queues: u32,
    widths: &[u32],
    history: &[Event],
) -> Result<Numbers, AllocError>
    requires names_queues { NamesQueues queues history.now }
    requires short { length history.now < 2 ^ 20 }
    ensures numbers { IfOk result (AreNumbers queues (numbers queues widths.now history.now)) }
    ensures small { IfOk result (λ n. (q : ℕ) → slice_index n.next.items q ≤ 2 ^ 52) }
{
    let Some((newest, before)) = history.split_first() else {
        return Ok(Numbers {
            next: vec![in alloc; 0; queues as usize]?,
            virtual_time: 0,
            robin: queues.saturating_sub(1),
        });
    };
    let mut numbers = numbers_of(alloc, queues, widths, before)?;
    follow(alloc, &mut numbers, widths, before, *newest)?;
    Ok(numbers)
}
