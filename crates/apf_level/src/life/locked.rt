//! The level's lock, and the calls that take it and own no Pass.

ghost use Rattle.std.specs.Prelude.{◌≡◌, ◌≤◌, false, Some, IfNone};
ghost use Rattle.apf_words.specs.Limits.{max_limit};
ghost use Rattle.apf_gate.specs.Slots.{IsTicket};
ghost use Rattle.apf_words.specs.declared.decision.Decision.TheVariants.{Execute};
ghost use Rattle.apf_gate.specs.Records.{told_own, own_width};
ghost use Rattle.apf_gate.specs.Tokens.{pass_gate, station_gate};
ghost use Rattle.apf_line.specs.SeatTime.{seat_time_of};
ghost use Rattle.apf_line.specs.Tokens.{IsOf, IsRunning, IsDone};
ghost use Rattle.apf_level.specs.LifeReleases.{GivesBack};
ghost use Rattle.apf_level.specs.Limits.{LastSet};
ghost use Rattle.apf_level.specs.LifeLocked.{DispatchesUnder, SettlesUnder, StrikesUnder, CopiesUnder, AreStatsUnder};
ghost use Rattle.apf_level.specs.LifeSections.{IsCopied, AreStatsOf};

use crate::life::level::Level;
use crate::life::naming::Naming;
use crate::life::owing::{OwedStrike, Owes};
use crate::life::queued::Queued;
use crate::life::shared::Shared;
use apf_book::{Copied, LifeEvent, LifeStats};
use apf_gate::{Gate, Pass, Station, Ticket, TrySetLimit};
use apf_line::{every_level_has_histories, seat_time};
use std::alloc::Global;
use std::marker::Model;
use std::sync::{MutexGuard, Wait};

/// The level's lock while it is held. Nobody else dispatches, strikes or enters a queue before it is dropped, so its calls
/// can say what they did to the book that stands under it.
///
/// A level without queues has nothing under its lock.
#[derive(Drop)]
pub struct Locked<'a, K: Naming> {
    gate: &'a Gate<Global>,
    queued: Option<MutexGuard<'a, Queued<K>>>,
    ghost own: { gate.now ≡ K.level.gate },
}

impl<'a, K: Naming> Model for Locked<'a, K> {
    ghost use Rattle.std.specs.Prelude.{Option, option_map};
    ghost use Rattle.apf_book.specs.LifeBook.{LifeBookView};
    ghost use Rattle.apf_level.specs.LifeLocked.{IsUnder};

    ghost Value = { Option LifeBookView };

    ghost view = { λ l. option_map (λ guard. guard.value.book) l.queued };

    ghost invariant = { λ l. IsUnder K.level (option_map (λ guard. guard.value.book) l.queued) };
}

impl<'a, K: Naming> Locked<'a, K> {
    /// Dispatches from the queues while the chosen head fits, and strikes cancelled heads. Tells how many
    /// were dispatched: 0 on a level without queues.
    pub fn dispatch<R: Wait>(&mut self, rt: &R) -> u64
        ensures answer { DispatchesUnder self.old result self.new }
    {
        match &mut self.queued {
            Some(queued) => queued.dispatch(rt, self.gate),
            None => 0,
        }
    }

    /// Strikes the request out of its queue, if it waits and is cancelled, and dispatches then. Says whether it
    /// struck: never on a level without queues.
    pub fn strike<R: Wait>(&mut self, rt: &R, request: Ticket) -> bool
        requires is_request { IsTicket K.level.gate.shape request.number }
        ensures answer { StrikesUnder self.old request.number result self.new }
    {
        match &mut self.queued {
            Some(queued) => queued.strike(rt, self.gate, request),
            None => false,
        }
    }

    /// A request that executes, and ran this many microseconds, gives its seats back, by one step. Before that, what it took
    /// is settled, on a level that was opened so: if it was dispatched from a queue, that queue is charged its width times
    /// this time, 1 to 2^46 microseconds of a seat, in place of what it was charged for it. After it, others are
    /// dispatched. Says whether requests waited as the seats went back. The slot's Pass stays in its place, that of a
    /// request that is over.
    pub fn finish<R: Wait>(&mut self, rt: &R, pass: &mut Pass, micros: u64) -> bool
        requires own_pass { pass_gate pass.old ≡ K.level.gate }
        requires runs { IsRunning pass.old }
        ensures done { IsDone pass.new }
        ensures same { IsOf pass.old pass.new }
        ensures told { told_own pass.new.pass ≡ Some Execute }
        ensures answer { GivesBack pass.old.pass result pass.new.pass }
        ensures settles { SettlesUnder self.old pass.old.pass.number (seat_time_of (own_width pass.old.pass) micros) self.new }
    {
        match &mut self.queued {
            Some(queued) => {
                let amount = seat_time(pass.width(), micros);
                queued.finish(rt, self.gate, pass, amount)
            }
            None => self.gate.release(pass),
        }
    }

    /// Copies events of the queues from this place on, of all that there ever were, the oldest first, as many as there
    /// is room for. The newest are kept, two for each slot. Tells from which place on it copied, so that a reader that
    /// comes too late knows how many it missed. There are none on a level without queues.
    pub fn copy_events(&self, from: u64, into: &mut [LifeEvent]) -> Copied
        ensures copied { CopiesUnder self.now from into.old result into.new }
        ensures of_level { IsCopied K.level from into.old result into.new }
    {
        every_level_has_histories();
        match &self.queued {
            Some(queued) => queued.copy_events(from, into),
            None => Copied { from, count: 0 },
        }
    }

    /// How many events of the queues there ever were of each kind.
    pub fn stats(&self) -> LifeStats
        ensures stats { AreStatsUnder self.now result }
        ensures of_level { AreStatsOf K.level result }
    {
        every_level_has_histories();
        match &self.queued {
            Some(queued) => queued.stats(),
            None => LifeStats {
                entered: 0,
                dispatched: 0,
                struck: 0,
                full: 0,
            },
        }
    }
}

impl<K: Naming> Level<K> {
    /// Takes the level's lock. A level without queues takes none.
    ///
    /// It is given back where the `Locked` is dropped. A thread that holds it must not take it once more before: it would
    /// wait for itself for ever. `arrive`, `arrive_and_wait`, `read_decision` and `set_limit` take it too, and so do `begin`,
    /// `admit` and `poll`.
    pub fn lock<R: Wait>(&self, rt: &R) -> Locked<'_, K> {
        let queued = match &self.shared {
            Shared::Queued(queued) => Some(queued.lock.lock(rt)),
            Shared::Unqueued(_unqueued) => None,
        };
        Locked {
            gate: &self.gate,
            queued,
        }
    }

    /// Dispatches, if that is owed. It takes the lock only then.
    pub fn dispatch_if_owed<R: Wait>(&self, rt: &R, owes: Owes<K>) {
        if let Some(owed) = owes.left() {
            owed.dispatch(rt, &mut self.lock(rt));
        }
    }

    /// Strikes the request out of its queue, if that is owed and it waits, and dispatches then. Says whether it struck. It
    /// takes the lock only where a strike is owed.
    pub fn strike_if_owed<R: Wait>(&self, rt: &R, owed: Option<OwedStrike<K>>) -> bool
        ensures none { IfNone owed (result ≡ false) }
    {
        match owed {
            Some(owed) => owed.strike(rt, &mut self.lock(rt)),
            None => false,
        }
    }

    /// Sets the limit, in seats, and then dispatches, if requests wait. Answers the old limit. A lost exchange is tried
    /// again.
    pub fn set_limit<R: Wait>(&self, rt: &R, station: &mut Station, limit: u32) -> u32
        requires own { station_gate station.old ≡ K.level.gate }
        requires some_limit { 1 ≤ limit }
        requires small_limit { limit ≤ max_limit }
        ensures gate { station_gate station.new ≡ station_gate station.old }
        ensures answer { LastSet station.old.station limit result station.new.station }
    {
        for _ in rt.forever() {
            let (tried, owes) = self.try_set_limit(station, limit);
            self.dispatch_if_owed(rt, owes);
            if let TrySetLimit::Set(old, _waiting) = tried {
                return old;
            }
        }
        unreachable!()
    }
}
