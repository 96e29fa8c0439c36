//! What stands under the lock of a level without queues.

ghost use Rattle.std.specs.Prelude.{◌≡◌};
ghost use Rattle.apf_model.specs.declared.response.Response.TheVariants.{Reject};
ghost use Rattle.apf_line.specs.Levels.{IsIdleOf};

use crate::life::naming::Naming;
use apf_gate::Desk;
use std::marker::PhantomData;
use std::sync::Mutex;

/// The Desk of K's level, which never serves anybody.
#[derive(Drop)]
pub struct Unqueued<K: Naming> {
    pub desk: Desk,
    pub of: PhantomData<K>,
    ghost tied: { IsIdleOf K.level desk },
}

/// The lock of a level without queues, which nobody takes: a Desk is for one thread at a time.
#[derive(Drop)]
pub struct UnqueuedLock<K: Naming> {
    pub lock: Mutex<Unqueued<K>>,
    ghost no_queues: { K.level.gate.shape.response ≡ Reject },
}
