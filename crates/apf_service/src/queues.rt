//! What each queue was given.

ghost use Rattle.std.specs.Prelude.{◌≡◌, IfOk};
ghost use Rattle.apf_service.specs.Kept.{none_given, recharged, with_event};

use apf_book::{Charge, LifeEvent};
use apf_protocol::Given;
use std::alloc::{AllocError, Global};

/// This many queues, which were given nothing.
///
/// # Errors
///
/// `AllocError` if memory was refused.
pub fn no_queues(alloc: Global, queues: u32) -> Result<Vec<Given>, AllocError>
    ensures { IfOk result (λ v. v.items ≡ none_given queues) }
{
    (0..queues)
        .map(|queue| Given {
            queue,
            waiting: 0,
            entered: 0,
            service: 0,
        })
        .collect(alloc)
}

/// A queue is charged this for a request in place of what it was charged for it.
pub fn recharge(queues: &mut [Given], charge: Charge, took: u64)
    ensures { queues.new ≡ recharged charge took queues.old }
{
    if (charge.queue as usize) < queues.len() {
        let given = queues[charge.queue as usize];
        queues[charge.queue as usize] = Given {
            queue: given.queue,
            waiting: given.waiting,
            entered: given.entered,
            service: given
                .service
                .saturating_sub(charge.amount)
                .saturating_add(took),
        };
    }
}

/// One event more is counted of its queue, which is charged this by it.
pub fn count(queues: &mut [Given], event: LifeEvent, charge: u32)
    ensures { queues.new ≡ with_event charge event queues.old }
{
    match event {
        LifeEvent::Enter(_, queue) => {
            if (queue as usize) < queues.len() {
                let given = queues[queue as usize];
                queues[queue as usize] = Given {
                    queue: given.queue,
                    waiting: given.waiting.saturating_add(1),
                    entered: given.entered.saturating_add(1),
                    service: given.service,
                };
            }
        }
        LifeEvent::Full(..) => {}
        LifeEvent::Dispatch(_, queue) => {
            if (queue as usize) < queues.len() {
                let given = queues[queue as usize];
                queues[queue as usize] = Given {
                    queue: given.queue,
                    waiting: given.waiting.saturating_sub(1),
                    entered: given.entered,
                    service: given.service.saturating_add(u64::from(charge)),
                };
            }
        }
        LifeEvent::Strike(_, queue) => {
            if (queue as usize) < queues.len() {
                let given = queues[queue as usize];
                queues[queue as usize] = Given {
                    queue: given.queue,
                    waiting: given.waiting.saturating_sub(1),
                    entered: given.entered,
                    service: given.service,
                };
            }
        }
    }
}
