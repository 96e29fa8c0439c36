//! A level whose calls are followed by both sides of the bound.

ghost use Rattle.std.specs.Prelude.{◌≡◌, ◌≢◌, ◌≤◌, ◌<◌, ◌^◌, ℕ, None, length, slice_get, Some, IfOk, IfErr, IfSome, OnOk};
ghost use Rattle.apf_words.specs.Limits.{max_limit, max_width, max_cost};
ghost use Rattle.apf_flow.specs.Deal.{hand_of};
ghost use Rattle.apf_gate.specs.Slots.{IsTicket};
ghost use Rattle.apf_gate.specs.StationCalls.{TriesToCancel};
ghost use Rattle.apf_book.specs.Life.{LifeView};
ghost use Rattle.apf_book.specs.LifeBook.{IsLifeKept};
ghost use Rattle.apf_book.specs.RecentEvents.{AreLifeStats, CopiesLate};
ghost use Rattle.apf_words.specs.declared.decision.Decision.{Decision};
ghost use Rattle.apf_local.specs.declared.answer.Place.TheVariants as places;
ghost use Rattle.apf_local.specs.Worlds.{IsDecidedIn};
ghost use Rattle.apf_local.specs.Levels.{SameLocal, GoesOn, EndsFrom, IsArrival, IsFinish, SettlesSlot};
ghost use Rattle.apf_local.specs.Openings.{IsOpened, CanOpen, IsOpenFault, line_of};
ghost use Rattle.apf_local.specs.Owners.{IsSlotOf, Sets, Steps};
ghost use Rattle.apf_local.specs.Seats.{AreSeatedIn, EndsSeated};
ghost use Rattle.apf_local.specs.Tries.{IsReading, SlotsStay};
ghost use Rattle.apf_watched.specs.Followed.{AreSidesIn};

use crate::watch::{Watch, following, noting, settling, watch_of};
use apf_book::{Copied, LifeEvent, LifeStats};
use apf_bound::Sides;
use apf_gate::{Cancel, Ticket};
use apf_line::{Report, seat_time};
use apf_local::{Answer, Ask, LocalLevel, OpenFault, Place, Settlement, Settling};
use apf_model::{Config, Response};
use std::alloc::{AllocError, Global};
use std::marker::Model;

/// A level as one plain value, whose log both sides of the bound follow from `watch` on.
#[derive(Drop)]
pub struct WatchedLevel {
    level: LocalLevel,
    // how many queues it has
    queues: u32,
    watch: Option<Watch>,
}

impl Model for WatchedLevel {
    ghost use Rattle.std.specs.Prelude.{◌≡◌};
    ghost use Rattle.apf_watched.specs.Followed.{IsFollowed};
    ghost use Rattle.apf_watched.specs.Watched.{WatchedView};

    ghost Value = { WatchedView };

    ghost view = { λ w. record { level = w.level; watch = w.watch } };

    ghost invariant = { λ w. (w.queues ≡ w.level.sizes.deck) × IsFollowed w.level w.watch };
}

// How many queues a level of this config has.
fn queues_of(config: &Config) -> u32
    ensures { result ≡ (line_of config.now).queues }
{
    match config.limit_response {
        Response::Queue => config.queues,
        Response::Reject => 1,
    }
}

impl WatchedLevel {
    /// A level as `LocalLevel::open_settling` opens it. Nothing follows its log.
    ///
    /// # Errors
    ///
    /// As there.
    pub fn open(
        alloc: Global,
        config: &Config,
        slots: u32,
        settling: Settling,
    ) -> Result<WatchedLevel, OpenFault>
        ensures opened { IfOk result (λ w. IsOpened config.now slots settling w.level) }
        ensures unwatched { IfOk result (λ w. w.watch ≡ None) }
        ensures settings { OnOk result (CanOpen config.now slots) }
        ensures fault { IfErr result (IsOpenFault config.now slots) }
    {
        let level = LocalLevel::open_settling(alloc, config, slots, settling)?;
        Ok(WatchedLevel {
            level,
            queues: queues_of(config),
            watch: None,
        })
    }

    /// Both sides of the bound follow the log from now on, if nothing happened to the level yet.
    ///
    /// # Errors
    ///
    /// `AllocError` if memory was refused. Then nothing follows it.
    pub fn watch(&mut self, alloc: Global) -> Result<(), AllocError>
        ensures { self.new.level ≡ self.old.level }
    {
        self.watch = watch_of(alloc, &self.level, self.queues)?;
        Ok(())
    }

    /// Both sides of the bound, of all that happened, if they follow its log still: the memory of its newest events was large enough
    /// for each call.
    pub fn sides(&self) -> Option<Sides>
        ensures { IfSome result (AreSidesIn self.now.level) }
    {
        match &self.watch {
            Some(watch) => Some(watch.sides()),
            None => None,
        }
    }

    /// As `LocalLevel::slots`.
    pub fn slots(&self) -> usize
        ensures { result ≡ length self.now.level.places }
    {
        self.level.slots()
    }

    /// As `LocalLevel::held`.
    pub fn held(&self, slot: usize) -> Place
        requires { slot < length self.now.level.places }
        ensures { slice_get self.now.level.places slot ≡ Some result }
    {
        self.level.held(slot)
    }

    /// As `LocalLevel::ticket`.
    pub fn ticket(&self, slot: usize) -> Ticket
        requires { slot < length self.now.level.places }
        ensures number { IsSlotOf self.now.level.owner.passes slot (λ t. result.number ≡ t.pass.number) }
        ensures is_ticket { IsTicket self.now.level.owner.gate.shape result.number }
    {
        self.level.ticket(slot)
    }

    /// As `LocalLevel::stats`.
    pub fn stats(&self) -> LifeStats
        ensures { (v : LifeView) → IsLifeKept v self.now.level.owner.book → length v.history < 2 ^ 64 → AreLifeStats result v.history }
    {
        self.level.stats()
    }

    /// As `LocalLevel::copy_events`.
    pub fn copy_events(&self, from: u64, into: &mut [LifeEvent]) -> Copied
        ensures { (v : LifeView) → IsLifeKept v self.now.level.owner.book → length v.history < 2 ^ 64 → CopiesLate self.now.level.owner.book.notes.capacity v.history from into.old result into.new }
    {
        self.level.copy_events(from, into)
    }

    /// As `LocalLevel::arrive`, of a request that will run this many microseconds.
    pub fn arrive(&mut self, slot: usize, ask: Ask, micros: u64) -> (Answer, Option<LifeEvent>)
        requires is_slot { slot < length self.old.level.places }
        requires some_width { 1 ≤ ask.width }
        requires narrow { ask.width ≤ max_width }
        requires some_cost { 1 ≤ ask.cost }
        requires low_cost { ask.cost ≤ max_cost }
        ensures same { SameLocal self.old.level self.new.level }
        ensures operators { self.new.level.owner.stations ≡ self.old.level.owner.stations }
        ensures arrives { IsArrival slot ask (hand_of self.old.level.sizes ask.hash) self.old.level result.0 result.1 self.new.level }
    {
        let (answer, event) = self.level.arrive(slot, ask);
        let takes = seat_time(ask.width, micros);
        let watch = noting(self.watch.take(), event, ask.cost, takes);
        self.watch = following(watch, &self.level);
        (answer, event)
    }

    /// As `LocalLevel::finish_measured`.
    pub fn finish(&mut self, slot: usize, micros: u64) -> (Answer, Option<Settlement>)
        requires is_slot { slot < length self.old.level.places }
        ensures same { SameLocal self.old.level self.new.level }
        ensures operators { self.new.level.owner.stations ≡ self.old.level.owner.stations }
        ensures finishes { IsFinish slot self.old.level result.0 self.new.level }
        ensures settles { result.0 ≡ Answer.Released → SettlesSlot slot micros result.1 self.old.level self.new.level }
    {
        let ticket = self.level.ticket(slot);
        let (answer, settlement) = self.level.finish_measured(slot, micros);
        let watch = settling(self.watch.take(), ticket, settlement);
        self.watch = following(watch, &self.level);
        (answer, settlement)
    }

    /// As `LocalLevel::place`.
    pub fn place(&mut self, slot: usize) -> Place
        requires is_slot { slot < length self.old.level.places }
        ensures same { SameLocal self.old.level self.new.level }
        ensures operators { self.new.level.owner.stations ≡ self.old.level.owner.stations }
        ensures reads { IsReading slot self.old.level result self.new.level }
        ensures decided { IsSlotOf self.old.level.owner.passes slot (λ t. IsDecidedIn self.old.level.owner.book t.pass.number → result ≢ places.Waits) }
        ensures history { (v : LifeView) → IsLifeKept v self.old.level.owner.book → GoesOn v self.new.level.owner.book }
    {
        let place = self.level.place(slot);
        self.watch = following(self.watch.take(), &self.level);
        place
    }

    /// As `LocalLevel::cancel`.
    pub fn cancel(&mut self, request: Ticket) -> Cancel
        requires { IsTicket self.old.level.owner.gate.shape request.number }
        ensures same { SameLocal self.old.level self.new.level }
        ensures slots { SlotsStay self.old.level self.new.level }
        ensures cancels { Steps self.old.level.owner.stations self.new.level.owner.stations (λ station station'. TriesToCancel station request.number result station') }
        ensures decides { (d : Decision) → result ≡ Cancel.Is d → IsDecidedIn self.new.level.owner.book request.number }
        ensures ends { (i : ℕ) → slice_get self.old.level.places i ≡ Some places.Waits → IsSlotOf self.old.level.owner.passes i (λ t. t.pass.number ≡ request.number → IsDecidedIn self.new.level.owner.book request.number) }
        ensures history { (v : LifeView) → IsLifeKept v self.old.level.owner.book → GoesOn v self.new.level.owner.book }
    {
        let answer = self.level.cancel(request);
        self.watch = following(self.watch.take(), &self.level);
        answer
    }

    /// As `LocalLevel::set_limit`.
    pub fn set_limit(&mut self, limit: u32) -> u32
        requires some_limit { 1 ≤ limit }
        requires small_limit { limit ≤ max_limit }
        ensures same { SameLocal self.old.level self.new.level }
        ensures slots { SlotsStay self.old.level self.new.level }
        ensures sets { Steps self.old.level.owner.stations self.new.level.owner.stations (Sets limit result) }
        ensures history { (v : LifeView) → IsLifeKept v self.old.level.owner.book → GoesOn v self.new.level.owner.book }
    {
        let old = self.level.set_limit(limit);
        self.watch = following(self.watch.take(), &self.level);
        old
    }

    /// As `LocalLevel::end`.
    ///
    /// # Errors
    ///
    /// `AllocError` if memory was refused. Then everything is given up.
    pub fn end(self, alloc: Global) -> Result<Report, AllocError>
        ensures ended { IfOk result (EndsFrom self.level) }
        ensures seated { IfOk result (λ r. (v : LifeView) → IsLifeKept v self.level.owner.book → AreSeatedIn self.level v.log → EndsSeated self.level v r) }
    {
        let WatchedLevel {
            level,
            queues: _,
            watch: _,
        } = self;
        level.end(alloc)
    }
}
