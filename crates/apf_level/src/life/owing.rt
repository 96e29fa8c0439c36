//! What is owed to those who wait, once room was made for them, and to a request that was cancelled.

ghost use Rattle.std.specs.Prelude.{◌≡◌};
ghost use Rattle.apf_gate.specs.Slots.{IsTicket};
ghost use Rattle.apf_level.specs.LifeLocked.{DispatchesUnder, StrikesUnder};

use crate::Owing;
use crate::life::locked::Locked;
use crate::life::naming::Naming;
use apf_gate::Ticket;
use std::marker::{Model, PhantomData};
use std::sync::Wait;

/// Whether requests waited at the level that K names when room was made there. If so, whoever made it owes them a
/// dispatch. It must be spent, by `Level::dispatch_if_owed` or by `left`, so that nobody forgets the dispatch.
pub type Owes<K> = Owing<Owed<K>>;

/// A dispatch that is owed at the level that K names. It must be spent, and only a dispatch under that level's lock takes
/// it.
pub struct Owed<K: Naming> {
    of: PhantomData<K>,
}

impl<K: Naming> Owed<K> {
    /// Dispatches under the lock while the chosen head fits. Tells how many.
    pub fn dispatch<R: Wait>(self, rt: &R, locked: &mut Locked<'_, K>) -> u64
        ensures answer { DispatchesUnder locked.old result locked.new }
    {
        let Owed { of: _ } = self;
        locked.dispatch(rt)
    }
}

/// Room was made while requests waited, or while nobody did.
pub fn owes_if<K: Naming>(waiting: bool) -> Owes<K>
    ensures { result ≡ waiting }
{
    if waiting {
        Owing::of(Some(Owed { of: PhantomData }))
    } else {
        Owing::nothing()
    }
}

/// The strike of a request of the level that K names, which is owed since the request is cancelled. It must be spent, and
/// only a strike of that request under that level's lock takes it.
pub struct OwedStrike<K: Naming> {
    request: Ticket,
    of: PhantomData<K>,
}

impl<K: Naming> Model for OwedStrike<K> {
    ghost use Rattle.std.specs.Prelude.{ℕ};
    ghost use Rattle.apf_gate.specs.Slots.{IsTicket};

    ghost Value = { ℕ };

    ghost view = { λ o. o.request.number };

    ghost invariant = { λ o. IsTicket K.level.gate.shape o.request.number };
}

impl<K: Naming> OwedStrike<K> {
    // The strike of this request is owed.
    pub(crate) fn of(request: Ticket) -> OwedStrike<K>
        requires { IsTicket K.level.gate.shape request.number }
        ensures { result ≡ request.number }
    {
        OwedStrike {
            request,
            of: PhantomData,
        }
    }

    /// Strikes the request out of its queue under the lock, if it waits, and dispatches then. Says whether it struck.
    pub fn strike<R: Wait>(self, rt: &R, locked: &mut Locked<'_, K>) -> bool
        ensures answer { StrikesUnder locked.old self result locked.new }
    {
        let OwedStrike { request, of: _ } = self;
        locked.strike(rt, request)
    }
}
