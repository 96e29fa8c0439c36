//! What is owed to those who wait, once room was made for them, and to a request that was cancelled.

ghost use Rattle.std.specs.Prelude.{◌≡◌, ◌<◌, length, true, false, is_some, IfNone, IfSome};
ghost use Rattle.apf_level.specs.Locked.{DispatchesUnder, StrikesUnder};

use crate::locked::Locked;
use crate::naming::Naming;
use std::marker::{Model, PhantomData};
use std::sync::Wait;

/// Whether something is owed, and what. It must be spent, by `left`, so that nobody forgets what is owed.
pub struct Owing<O> {
    owed: Option<O>,
}

impl<O> Model for Owing<O> {
    ghost use Rattle.std.specs.Prelude.{Bool, is_some};

    ghost Value = { Bool };

    ghost view = { λ o. is_some o.owed };
}

impl<O> Owing<O> {
    /// This is owed, or nothing is.
    pub fn of(owed: Option<O>) -> Owing<O>
        ensures { result ≡ is_some owed }
    {
        Owing { owed }
    }

    /// Nothing is owed.
    pub fn nothing() -> Owing<O>
        ensures { result ≡ false }
    {
        Owing::of(None)
    }

    /// Whether anything is owed.
    pub fn waits(&self) -> bool
        ensures { result ≡ self.now }
    {
        self.owed.is_some()
    }

    /// What is owed, if anything is.
    pub fn left(self) -> Option<O>
        ensures none { IfNone result (self ≡ false) }
        ensures some { IfSome result (λ _. self ≡ true) }
    {
        let Owing { owed } = self;
        owed
    }
}

/// Whether requests waited at the level that K names when room was made there. If so, whoever made it owes them a
/// dispatch. It must be spent, by `Level::dispatch_if_owed` or by `left`, so that nobody forgets the dispatch.
pub type Owes<K> = Owing<Owed<K>>;

/// A dispatch that is owed at the level that K names. It must be spent, and only a dispatch under that level's lock takes
/// it.
pub struct Owed<K: Naming> {
    of: PhantomData<K>,
}

impl<K: Naming> Owed<K> {
    /// Dispatches under the lock while the chosen head fits. Tells how many.
    pub fn dispatch<R: Wait>(self, rt: &R, locked: &mut Locked<'_, K>) -> u32
        ensures answer { DispatchesUnder locked.old result locked.new }
    {
        let Owed { of: _ } = self;
        locked.dispatch(rt)
    }
}

/// Room was made while requests waited, or while nobody did.
pub fn owes_if<K: Naming>(waiting: bool) -> Owes<K>
    ensures { result ≡ waiting }
{
    if waiting {
        Owing::of(Some(Owed { of: PhantomData }))
    } else {
        Owing::nothing()
    }
}

/// The strike of a request of the level that K names, which is owed since the request is cancelled. It must be spent, and
/// only a strike of that request under that level's lock takes it.
pub struct OwedStrike<K: Naming> {
    request: u32,
    of: PhantomData<K>,
}

impl<K: Naming> Model for OwedStrike<K> {
    ghost use Rattle.std.specs.Prelude.{ℕ, ◌<◌, length};

    ghost Value = { ℕ };

    ghost view = { λ o. o.request };

    ghost invariant = { λ o. o.request < length K.level.gate.shape.widths };
}

impl<K: Naming> OwedStrike<K> {
    // The strike of this request is owed.
    pub(crate) fn of(request: u32) -> OwedStrike<K>
        requires { request < length K.level.gate.shape.widths }
        ensures { result ≡ request }
    {
        OwedStrike {
            request,
            of: PhantomData,
        }
    }

    /// Strikes the request out of its queue under the lock, if it waits, and dispatches then. Says whether it struck.
    pub fn strike<R: Wait>(self, rt: &R, locked: &mut Locked<'_, K>) -> bool
        ensures answer { StrikesUnder locked.old self result locked.new }
    {
        let OwedStrike { request, of: _ } = self;
        locked.strike(rt, request)
    }
}
