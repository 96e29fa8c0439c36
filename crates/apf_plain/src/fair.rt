//! Whether a history is fair.

ghost use Rattle.std.specs.Prelude.{◌≡◌, ◌↔◌, ◌<◌, ◌^◌, length, IfOk, IsTrue};
ghost use Rattle.apf_history.specs.History.{NamesQueues, waiting};
ghost use Rattle.apf_history.specs.Fair.{numbers, IsChoice, DispatchesChoices, IsFair};
ghost use Rattle.apf_plain.specs.Histories.{hand_in};

use crate::{choice, is_legal};
use apf_model::Event;
use std::alloc::{AllocError, Global};

// Whether the queue is the choice.
fn is_choice(
    alloc: Global,
    queues: u32,
    widths: &[u32],
    history: &[Event],
    queue: u32,
) -> Result<bool, AllocError>
    requires names_queues { NamesQueues queues history.now }
    requires short { length history.now < 2 ^ 20 }
    ensures { IfOk result (λ b. IsTrue b ↔ IsChoice queues widths.now (waiting history.now) (numbers queues widths.now history.now) queue) }
{
    match choice(alloc, queues, widths, history)? {
        Some(found) => Ok(found == queue),
        None => Ok(false),
    }
}

// Whether each Dispatch names the choice.
fn dispatches_choices(
    alloc: Global,
    queues: u32,
    widths: &[u32],
    history: &[Event],
) -> Result<bool, AllocError>
    requires names_queues { NamesQueues queues history.now }
    requires short { length history.now < 2 ^ 20 }
    ensures { IfOk result (λ b. IsTrue b ↔ DispatchesChoices queues widths.now history.now) }
{
    let Some((newest, before)) = history.split_first() else {
        return Ok(true);
    };
    let rest = dispatches_choices(alloc, queues, widths, before)?;
    match *newest {
        Event::Dispatch(_, queue) => Ok(is_choice(alloc, queues, widths, before, queue)? && rest),
        Event::Enter(..) | Event::Full(..) | Event::Strike(..) => Ok(rest),
    }
}

/// Whether the history is fair: legal, and each Dispatch names the choice. Hands and length limit are
/// those of [`is_legal`].
pub fn is_fair(
    alloc: Global,
    queues: u32,
    widths: &[u32],
    hands: &[u32],
    hand_size: u32,
    length_limit: u32,
    history: &[Event],
) -> Result<bool, AllocError>
    requires names_queues { NamesQueues queues history.now }
    requires short { length history.now < 2 ^ 20 }
    ensures { IfOk result (λ b. IsTrue b ↔ IsFair queues widths.now (hand_in hands.now hand_size) length_limit history.now) }
{
    let legal = is_legal(alloc, hands, hand_size, length_limit, history)?;
    Ok(legal && dispatches_choices(alloc, queues, widths, history)?)
}
