//! What a level's calls do under its lock, by its response.

ghost use Rattle.apf_line.specs.Attempts.{HasQueuesIf};

use crate::naming::Naming;
use crate::queued::QueuedLock;
use crate::unqueued::UnqueuedLock;
use std::sync::Wait;

/// The lock of a level with queues, or of one without.
#[derive(Drop)]
pub enum Shared<K: Naming> {
    Queued(QueuedLock<K>),
    Unqueued(UnqueuedLock<K>),
}

impl<K: Naming> Shared<K> {
    // Whether the level has queues.
    pub(crate) fn has_queues(&self) -> bool
        ensures { HasQueuesIf result K.level.gate.shape.response }
    {
        match self {
            Shared::Queued(_queued) => true,
            Shared::Unqueued(_unqueued) => false,
        }
    }

    /// Somebody may sleep from now on until the request is decided.
    pub fn will_sleep<R: Wait>(&self, rt: &R, request: u32) {
        match self {
            Shared::Queued(queued) => queued.lock.lock(rt).will_sleep(request),
            Shared::Unqueued(_unqueued) => {}
        }
    }
}
