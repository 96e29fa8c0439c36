//! The level's lock, and the calls that take it and own no Pass.

ghost use Rattle.std.specs.Prelude.{◌≡◌, ◌+◌, ◌<◌, ◌≤◌, length, reverse, false, None, IfNone, option_map};
ghost use Rattle.apf_words.specs.Limits.{max_limit};
ghost use Rattle.apf_gate.specs.Tokens.{station_gate};
ghost use Rattle.apf_stats.specs.Numbers.{numbers_of, IsBelow};
ghost use Rattle.apf_stats.specs.Traces.{shown, IsNext};
ghost use Rattle.apf_level.specs.Copies.{Copies, IsCopied};
ghost use Rattle.apf_level.specs.Limits.{LastSet};
ghost use Rattle.apf_level.specs.Locked.{log_under, DispatchesUnder, StrikesUnder};

use crate::level::Level;
use crate::naming::Naming;
use crate::owing::{OwedStrike, Owes};
use crate::queued::{Queued, copy};
use crate::shared::Shared;
use apf_book::Stats;
use apf_gate::{Gate, Station, TrySetLimit};
use apf_model::Event;
use apf_stats::StatsPass;
use std::alloc::Global;
use std::marker::Model;
use std::sync::{MutexGuard, Wait};

/// The level's lock while it is held. Nobody else dispatches, strikes or enters a queue before it is dropped, so its calls
/// can say what they did to the log that stands under it.
///
/// A level without queues has nothing under its lock.
#[derive(Drop)]
pub struct Locked<'a, K: Naming> {
    gate: &'a Gate<Global>,
    queued: Option<MutexGuard<'a, Queued<K>>>,
    ghost own: { gate.now ≡ K.level.gate },
}

impl<'a, K: Naming> Model for Locked<'a, K> {
    ghost use Rattle.std.specs.Prelude.{Option, option_map};
    ghost use Rattle.apf_book.specs.BookView.{BookView};
    ghost use Rattle.apf_level.specs.Locked.{IsUnder};

    ghost Value = { Option BookView };

    ghost view = { λ l. option_map (λ guard. guard.value.book) l.queued };

    ghost invariant = { λ l. IsUnder K.level (option_map (λ guard. guard.value.book) l.queued) };
}

impl<'a, K: Naming> Locked<'a, K> {
    /// Dispatches from the queues while the chosen head fits, and strikes cancelled heads. Tells how many
    /// were dispatched: 0 on a level without queues.
    pub fn dispatch<R: Wait>(&mut self, rt: &R) -> u32
        ensures answer { DispatchesUnder self.old result self.new }
    {
        match &mut self.queued {
            Some(queued) => queued.dispatch(rt, self.gate),
            None => 0,
        }
    }

    /// Strikes the request out of its queue, if it waits and is cancelled, and dispatches then. Says whether it
    /// struck: never on a level without queues.
    pub fn strike<R: Wait>(&mut self, rt: &R, request: u32) -> bool
        requires is_request { request < length K.level.gate.shape.widths }
        ensures answer { StrikesUnder self.old request result self.new }
    {
        match &mut self.queued {
            Some(queued) => queued.strike(rt, self.gate, request),
            None => false,
        }
    }

    /// Copies as much of the log as fits, from this place on, the oldest event first. Tells how many events:
    /// none on a level without queues.
    pub fn copy_events(&self, from: u32, into: &mut [Event]) -> u32
        ensures copied { Copies (reverse (log_under self.now)) from into.old result into.new }
        ensures of_level { IsCopied K.level from into.old result into.new }
    {
        match &self.queued {
            Some(queued) => queued.copy_events(from, into),
            None => copy(&[], from, into),
        }
    }
}

impl<K: Naming> Level<K> {
    /// Takes the level's lock. A level without queues takes none.
    ///
    /// It is given back where the `Locked` is dropped. A thread that holds it must not take it once more before: it would
    /// wait for itself for ever. `arrive`, `arrive_and_wait`, `read_decision` and `set_limit` take it too, and so do `begin`,
    /// `admit` and `poll`.
    pub fn lock<R: Wait>(&self, rt: &R) -> Locked<'_, K> {
        let queued = match &self.shared {
            Shared::Queued(queued) => Some(queued.lock.lock(rt)),
            Shared::Unqueued(_unqueued) => None,
        };
        Locked {
            gate: &self.gate,
            queued,
        }
    }

    /// Dispatches, if that is owed. It takes the lock only then.
    pub fn dispatch_if_owed<R: Wait>(&self, rt: &R, owes: Owes<K>) {
        if let Some(owed) = owes.left() {
            owed.dispatch(rt, &mut self.lock(rt));
        }
    }

    /// Strikes the request out of its queue, if that is owed and it waits, and dispatches then. Says whether it struck. It
    /// takes the lock only where a strike is owed.
    pub fn strike_if_owed<R: Wait>(&self, rt: &R, owed: Option<OwedStrike<K>>) -> bool
        ensures none { IfNone owed (result ≡ false) }
    {
        match owed {
            Some(owed) => owed.strike(rt, &mut self.lock(rt)),
            None => false,
        }
    }

    /// Sets the limit, in seats, and then dispatches, if requests wait. Answers the old limit. A lost exchange is tried
    /// again.
    pub fn set_limit<R: Wait>(&self, rt: &R, station: &mut Station, limit: u32) -> u32
        requires own { station_gate station.old ≡ K.level.gate }
        requires some_limit { 1 ≤ limit }
        requires small_limit { limit ≤ max_limit }
        ensures gate { station_gate station.new ≡ station_gate station.old }
        ensures answer { LastSet station.old.station limit result station.new.station }
    {
        for _ in rt.forever() {
            let (tried, owes) = self.try_set_limit_owing(station, limit);
            self.dispatch_if_owed(rt, owes);
            if let TrySetLimit::Set(old, _waiting) = tried {
                return old;
            }
        }
        unreachable!()
    }

    /// The numbers of the log as they were published last, by one reading of the level's cell. It takes no lock of the
    /// queues.
    pub fn stats<R: Wait>(&self, rt: &R, pass: &mut StatsPass) -> Stats
        requires own { pass.old.cell ≡ self.now.cell }
        ensures own_cell { self.now.cell ≡ K.level.cell }
        ensures cell { pass.new.cell ≡ pass.old.cell }
        ensures number { pass.new.number ≡ pass.old.number }
        ensures one_reading { IsNext pass.old.number None pass.old.trace pass.new.trace }
        ensures found { shown pass.new.trace ≡ numbers_of result }
        ensures never_back { IsBelow (shown pass.old.trace) (numbers_of result) }
        ensures sum { result.entered ≡ result.dispatched + result.struck + result.waiting }
    {
        self.window.stats(rt, pass)
    }
}
