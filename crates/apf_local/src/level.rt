//! A priority level as one plain value.

ghost use Rattle.std.specs.Prelude.{◌≡◌, ◌≢◌, ◌↔◌, ◌≤◌, ◌<◌, ◌^◌, ℕ, length, slice_get, slice_set, true, false, All, Some, None, IfOk, IfErr, OnOk, IsTrue};
ghost use Rattle.apf_words.specs.Limits.{max_width, max_cost, max_limit};
ghost use Rattle.apf_flow.specs.Deal.{hand_of};
ghost use Rattle.apf_gate.specs.Slots.{IsTicket};
ghost use Rattle.apf_gate.specs.StationCalls.{TriesToCancel, ClosesTo};
ghost use Rattle.apf_gate.specs.StationSteps.{StationLoadsLevel};
ghost use Rattle.apf_book.specs.Life.{LifeView, charge_in};
ghost use Rattle.apf_book.specs.LifeBook.{IsLifeKept, IsLived};
ghost use Rattle.apf_book.specs.RecentEvents.{AreLifeStats, CopiesLate};
ghost use Rattle.apf_queue.specs.View.{queue_count};
ghost use Rattle.apf_line.specs.Reports.{Ended, EndedAs, EndedBy};
ghost use Rattle.apf_local.specs.declared.answer.Place.TheVariants as places;
ghost use Rattle.apf_words.specs.declared.decision.Decision.{Decision};
ghost use Rattle.apf_local.specs.Worlds.{IsDecidedIn};
ghost use Rattle.apf_local.specs.Levels.{id_of, SameLocal, GoesOn, EndsFrom, IsArrival, IsRenewal, IsArrivalOfRenewed, IsFinish, SettlesSlot, SpendsSlot};
ghost use Rattle.apf_local.specs.Owners.{IsSlotOf, Steps, Sets};
ghost use Rattle.apf_local.specs.Seats.{AreSeatedIn, EndsSeated, HeldSlot, KeepsSeats};
ghost use Rattle.apf_local.specs.Tries.{IsTry, IsReading, SlotsStay};
ghost use Rattle.apf_local.specs.Openings.{IsOpened, CanOpen, IsOpenFault};

use crate::admitting::{admit, come};
use crate::answer::{Answer, Ask, Place, Settlement};
use crate::fault::OpenFault;
use crate::owner::Owner;
use crate::reading::read_place;
use apf_book::{Charge, Copied, LifeEvent, LifeStats, Settling};
use apf_flow::Dealer;
use apf_gate::{Cancel, Close, Ticket};
use apf_line::{Report, every_level_has_histories, seat_time};
use apf_model::Config;
use apf_words::LevelWord;
use std::alloc::{AllocError, Global};
use std::marker::Model;

/// A priority level for one thread, with all that belongs to it. A slot is for one request after another.
///
/// After each call nobody waits, or who is dispatched next does not fit the level word.
#[derive(Drop)]
pub struct LocalLevel {
    owner: Owner,
    dealer: Dealer,
    places: Vec<Place>,
}

impl Model for LocalLevel {
    ghost use Rattle.apf_local.specs.Levels.{LocalView, IsLocal};

    ghost Value = { LocalView };

    ghost view = { λ l. record { owner = l.owner; sizes = l.dealer; places = l.places.items } };

    ghost invariant = { λ l. IsLocal (record { owner = l.owner; sizes = l.dealer; places = l.places.items }) };
}

impl LocalLevel {
    /// A level of this many slots, at most 10,000, all of them free. All memory is taken here, that of the newest events
    /// too: two for each slot. A level without queues rejects a request that finds no seats.
    ///
    /// A queue is charged the cost of each request that is dispatched from it, and that stays: see `open_settling`.
    ///
    /// # Errors
    ///
    /// The gate's fault, the dealer's, or the queues', the first of these, and `NoMemory` whenever memory was refused. The
    /// settings of queues have no fault where the level has none.
    pub fn open(alloc: Global, config: &Config, slots: u32) -> Result<LocalLevel, OpenFault>
        ensures opened { IfOk result (IsOpened config.now slots Settling.Never) }
        ensures settings { OnOk result (CanOpen config.now slots) }
        ensures fault { IfErr result (IsOpenFault config.now slots) }
    {
        LocalLevel::open_settling(alloc, config, slots, Settling::Never)
    }

    /// The same, and says whether what requests take is settled. If so, `finish_measured` and `spend` do that; else they
    /// settle nothing.
    ///
    /// # Errors
    ///
    /// As of `open`.
    pub fn open_settling(
        alloc: Global,
        config: &Config,
        slots: u32,
        settling: Settling,
    ) -> Result<LocalLevel, OpenFault>
        ensures opened { IfOk result (IsOpened config.now slots settling) }
        ensures settings { OnOk result (CanOpen config.now slots) }
        ensures fault { IfErr result (IsOpenFault config.now slots) }
    {
        let (owner, dealer) = Owner::open(alloc, config, slots, settling)?;
        let places = vec![in alloc; Place::Free; slots as usize]?;
        Ok(LocalLevel {
            owner,
            dealer,
            places,
        })
    }

    /// How many slots there are.
    pub fn slots(&self) -> usize
        ensures { result ≡ length self.now.places }
    {
        self.places.len()
    }

    /// Each slot has its Pass. It makes no step: the contract is the law.
    pub fn each_slot_has_a_pass(&self)
        ensures { length self.now.places ≡ length self.now.owner.passes }
    {
        let _ = &self.owner;
    }

    /// Its queues are those that its dealer deals. It makes no step: the contract is the law.
    pub fn has_queues(&self)
        ensures { queue_count self.now.owner.book.queues.queues ≡ self.now.sizes.deck }
    {
        let _ = &self.owner;
    }

    /// Whether there may be a request of this ticket: a ticket that came from outside is tested so.
    pub fn knows(&self, ticket: Ticket) -> bool
        ensures { IsTrue result ↔ IsTicket self.now.owner.gate.shape ticket.number }
    {
        self.owner.knows(ticket)
    }

    /// The next request of a free slot arrives: it takes its seats, or enters a queue, or is decided otherwise. Answers
    /// `Run`, `Waits` or `Over`, or `Spent`, and the event that the history got by the arrival: the request's Enter or
    /// Full, which name its queue, or none. `Wrong` of a slot that is not free.
    pub fn arrive(&mut self, slot: usize, ask: Ask) -> (Answer, Option<LifeEvent>)
        requires is_slot { slot < length self.old.places }
        requires some_width { 1 ≤ ask.width }
        requires narrow { ask.width ≤ max_width }
        requires some_cost { 1 ≤ ask.cost }
        requires low_cost { ask.cost ≤ max_cost }
        ensures same { SameLocal self.old self.new }
        ensures operators { self.new.owner.stations ≡ self.old.owner.stations }
        ensures arrives { IsArrival slot ask (hand_of self.old.sizes ask.hash) self.old result.0 result.1 self.new }
    {
        every_level_has_histories();
        self.owner.has_a_history();
        match self.places[slot] {
            Place::Free => {}
            Place::Fresh(_) | Place::Waits | Place::Runs => return (Answer::Wrong, None),
        }
        let Some((admitted, event)) = admit(&mut self.owner, &self.dealer, slot, ask) else {
            return (Answer::Spent, None);
        };
        self.places[slot] = admitted.place();
        self.owner.dispatch();
        (admitted.answer(), event)
    }

    /// A free slot goes on to its next request, which asks for this. It is there from then on: it may be cancelled, and it
    /// arrives by `arrive_renewed`. Then requests that wait are dispatched. Answers whether it is there: no, if the slot is not
    /// free or its numbers are used up, and then nothing was done.
    pub fn renew(&mut self, slot: usize, ask: Ask) -> bool
        requires is_slot { slot < length self.old.places }
        requires some_width { 1 ≤ ask.width }
        requires narrow { ask.width ≤ max_width }
        requires some_cost { 1 ≤ ask.cost }
        requires low_cost { ask.cost ≤ max_cost }
        ensures same { SameLocal self.old self.new }
        ensures operators { self.new.owner.stations ≡ self.old.owner.stations }
        ensures renews { IsRenewal slot ask self.old result self.new }
        ensures history { (v : LifeView) → IsLifeKept v self.old.owner.book → GoesOn v self.new.owner.book }
    {
        every_level_has_histories();
        self.owner.has_a_history();
        match self.places[slot] {
            Place::Free => {}
            Place::Fresh(_) | Place::Waits | Place::Runs => return false,
        }
        if !self.owner.renew(slot, ask) {
            return false;
        }
        self.places[slot] = Place::Fresh(ask);
        self.owner.dispatch();
        true
    }

    /// The request of a slot arrives, which is there since `renew`: as `arrive` otherwise. `Wrong` of a slot whose request
    /// came before, or that has none.
    pub fn arrive_renewed(&mut self, slot: usize) -> (Answer, Option<LifeEvent>)
        requires is_slot { slot < length self.old.places }
        ensures same { SameLocal self.old self.new }
        ensures operators { self.new.owner.stations ≡ self.old.owner.stations }
        ensures arrives { IsArrivalOfRenewed slot self.old result.0 result.1 self.new }
    {
        every_level_has_histories();
        self.owner.has_a_history();
        let ask = match self.places[slot] {
            Place::Fresh(ask) => ask,
            Place::Free | Place::Waits | Place::Runs => return (Answer::Wrong, None),
        };
        self.owner.hear(slot, ask);
        let (admitted, event) = come(&mut self.owner, &self.dealer, slot, ask);
        self.places[slot] = admitted.place();
        self.owner.dispatch();
        (admitted.answer(), event)
    }

    /// A request that executes gives its seats back, by one step. Then requests that wait are dispatched. Answers
    /// `Released`, or `Wrong` of a slot whose request does not execute. It held its seats when all had happened that the
    /// history had before.
    pub fn finish(&mut self, slot: usize) -> Answer
        requires is_slot { slot < length self.old.places }
        ensures same { SameLocal self.old self.new }
        ensures operators { self.new.owner.stations ≡ self.old.owner.stations }
        ensures finishes { IsFinish slot self.old result self.new }
        ensures history { (v : LifeView) → IsLifeKept v self.old.owner.book → GoesOn v self.new.owner.book }
        ensures held { result ≡ Answer.Released → HeldSlot slot self.old self.new }
    {
        every_level_has_histories();
        self.owner.has_a_history();
        match self.places[slot] {
            Place::Runs => {}
            Place::Free | Place::Fresh(_) | Place::Waits => return Answer::Wrong,
        }
        self.owner.give_back(slot);
        self.places[slot] = Place::Free;
        self.owner.dispatch();
        Answer::Released
    }

    /// Which queue is charged for the slot's newest request, and how many microseconds of a seat. `None` if that is not kept:
    /// where nothing is settled at all, of a request that was not dispatched from a queue, and of one that is settled.
    pub fn charge(&self, slot: usize) -> Option<Charge>
        requires { slot < length self.now.places }
        ensures { IsSlotOf self.now.owner.passes slot (λ t. result ≡ charge_in self.now.owner.book.queues t.pass.number) }
    {
        self.owner.charge(slot)
    }

    /// As `finish`, of a request that ran this many microseconds. Before it gives its seats back, what it took is settled: if
    /// it was dispatched from a queue, that queue is charged its width times this time, 1 to 2^46 microseconds of a seat,
    /// in place of what it was charged for it. A request that took its seats on arrival was never charged. What was settled
    /// is told, if anything was.
    pub fn finish_measured(&mut self, slot: usize, micros: u64) -> (Answer, Option<Settlement>)
        requires is_slot { slot < length self.old.places }
        ensures same { SameLocal self.old self.new }
        ensures operators { self.new.owner.stations ≡ self.old.owner.stations }
        ensures finishes { IsFinish slot self.old result.0 self.new }
        ensures settles { result.0 ≡ Answer.Released → SettlesSlot slot micros result.1 self.old self.new }
        ensures nothing { result.0 ≡ Answer.Wrong → result.1 ≡ None }
        ensures held { result.0 ≡ Answer.Released → HeldSlot slot self.old self.new }
    {
        every_level_has_histories();
        self.owner.has_a_history();
        match self.places[slot] {
            Place::Runs => {}
            Place::Free | Place::Fresh(_) | Place::Waits => return (Answer::Wrong, None),
        }
        let amount = seat_time(self.owner.width(slot), micros);
        let settled = self.owner.settle(slot, amount);
        self.owner.has_a_history();
        self.owner.give_back(slot);
        let place = &mut self.places[slot];
        *place = Place::Free;
        self.owner.dispatch();
        (Answer::Released, settled)
    }

    /// The slot's request, which executes still, has run this many microseconds. If it was dispatched from a queue, and that
    /// queue was charged less for it than its width times this time, the queue is charged that from now on. Then requests
    /// that wait are dispatched. Says whether the slot's request executes: if not, nothing was done.
    pub fn spend(&mut self, slot: usize, micros: u64) -> bool
        requires is_slot { slot < length self.old.places }
        ensures same { SameLocal self.old self.new }
        ensures slots { SlotsStay self.old self.new }
        ensures operators { self.new.owner.stations ≡ self.old.owner.stations }
        ensures executes { IsTrue result ↔ (slice_get self.old.places slot ≡ Some places.Runs) }
        ensures nothing { result ≡ false → self.new ≡ self.old }
        ensures spends { result ≡ true → SpendsSlot slot micros self.old self.new }
    {
        every_level_has_histories();
        self.owner.has_a_history();
        match self.places[slot] {
            Place::Runs => {}
            Place::Free | Place::Fresh(_) | Place::Waits => return false,
        }
        let amount = seat_time(self.owner.width(slot), micros);
        self.owner.spend(slot, amount);
        self.owner.has_a_history();
        self.owner.dispatch();
        true
    }

    /// The next request of a free slot takes its seats, if nobody waits and they fit. It never enters a queue. Answers
    /// `Run`, `Over` or `Busy`, or `Spent`. `Wrong` of a slot that is not free.
    pub fn try_arrive(&mut self, slot: usize, ask: Ask) -> Answer
        requires is_slot { slot < length self.old.places }
        requires some_width { 1 ≤ ask.width }
        requires narrow { ask.width ≤ max_width }
        ensures same { SameLocal self.old self.new }
        ensures operators { self.new.owner.stations ≡ self.old.owner.stations }
        ensures tries { IsTry slot ask self.old result self.new }
        ensures history { (v : LifeView) → IsLifeKept v self.old.owner.book → GoesOn v self.new.owner.book }
    {
        every_level_has_histories();
        self.owner.has_a_history();
        match self.places[slot] {
            Place::Free => {}
            Place::Fresh(_) | Place::Waits | Place::Runs => return Answer::Wrong,
        }
        let Some(tried) = self.owner.begin(slot, ask) else {
            return Answer::Spent;
        };
        self.places[slot] = Place::of_try(tried);
        self.owner.dispatch();
        Answer::of_try(tried)
    }

    /// Where the slot's request is. One that waits reads its decision, and one that is cancelled leaves its queue. Then
    /// requests that wait are dispatched. One that was cancelled does not wait any more.
    pub fn place(&mut self, slot: usize) -> Place
        requires is_slot { slot < length self.old.places }
        ensures same { SameLocal self.old self.new }
        ensures operators { self.new.owner.stations ≡ self.old.owner.stations }
        ensures reads { IsReading slot self.old result self.new }
        ensures decided { IsSlotOf self.old.owner.passes slot (λ t. IsDecidedIn self.old.owner.book t.pass.number → result ≢ places.Waits) }
        ensures history { (v : LifeView) → IsLifeKept v self.old.owner.book → GoesOn v self.new.owner.book }
    {
        every_level_has_histories();
        self.owner.has_a_history();
        match self.places[slot] {
            Place::Waits => {}
            Place::Free => return Place::Free,
            Place::Fresh(ask) => return Place::Fresh(ask),
            Place::Runs => return Place::Runs,
        }
        let place = read_place(&mut self.owner, slot);
        self.places[slot] = place;
        self.owner.dispatch();
        place
    }

    /// Where the slot's request is, as far as the level's calls told. It makes no step: one that waits may be decided.
    pub fn held(&self, slot: usize) -> Place
        requires { slot < length self.now.places }
        ensures { slice_get self.now.places slot ≡ Some result }
    {
        self.places[slot]
    }

    /// There is a history that the level's book is of. It makes no step: the contract is the law.
    pub fn has_a_history(&self)
        ensures { IsLived self.now.owner.book }
    {
        self.owner.has_a_history();
    }

    /// What names the slot's newest request for ever.
    pub fn ticket(&self, slot: usize) -> Ticket
        requires { slot < length self.now.places }
        ensures number { IsSlotOf self.now.owner.passes slot (λ t. result.number ≡ t.pass.number) }
        ensures is_ticket { IsTicket self.now.owner.gate.shape result.number }
    {
        self.owner.ticket(slot)
    }

    /// Cancels a request, if it is undecided and holds its slot. One that waits is struck out of its queue, and then
    /// requests that wait are dispatched. Answers its decision, or `Other`: another request holds the slot, so that this
    /// one is over.
    pub fn cancel(&mut self, request: Ticket) -> Cancel
        requires { IsTicket self.old.owner.gate.shape request.number }
        ensures same { SameLocal self.old self.new }
        ensures slots { SlotsStay self.old self.new }
        ensures cancels { Steps self.old.owner.stations self.new.owner.stations (λ station station'. TriesToCancel station request.number result station') }
        ensures decides { (d : Decision) → result ≡ Cancel.Is d → IsDecidedIn self.new.owner.book request.number }
        ensures ends { (i : ℕ) → slice_get self.old.places i ≡ Some places.Waits → IsSlotOf self.old.owner.passes i (λ t. t.pass.number ≡ request.number → IsDecidedIn self.new.owner.book request.number) }
        ensures history { (v : LifeView) → IsLifeKept v self.old.owner.book → GoesOn v self.new.owner.book }
    {
        every_level_has_histories();
        self.owner.has_a_history();
        let answer = self.owner.cancel(request);
        self.owner.dispatch();
        answer
    }

    /// Closes the level: no request enters a queue or takes seats on arrival any more. Says whether this close was the
    /// first.
    pub fn close(&mut self) -> Close
        ensures same { SameLocal self.old self.new }
        ensures slots { SlotsStay self.old self.new }
        ensures closes { Steps self.old.owner.stations self.new.owner.stations (λ station station'. ClosesTo station result station') }
        ensures history { (v : LifeView) → IsLifeKept v self.old.owner.book → GoesOn v self.new.owner.book }
    {
        every_level_has_histories();
        self.owner.has_a_history();
        let answer = self.owner.close();
        self.owner.dispatch();
        answer
    }

    /// Reads the level word.
    pub fn look(&mut self) -> LevelWord
        ensures same { SameLocal self.old self.new }
        ensures slots { SlotsStay self.old self.new }
        ensures looks { Steps self.old.owner.stations self.new.owner.stations (λ station station'. StationLoadsLevel station result station') }
        ensures history { (v : LifeView) → IsLifeKept v self.old.owner.book → GoesOn v self.new.owner.book }
    {
        every_level_has_histories();
        self.owner.has_a_history();
        let word = self.owner.look();
        self.owner.dispatch();
        word
    }

    /// Sets the limit, 1 to 10,000 seats. Then requests that wait are dispatched. Answers the old limit.
    pub fn set_limit(&mut self, limit: u32) -> u32
        requires some_limit { 1 ≤ limit }
        requires small_limit { limit ≤ max_limit }
        ensures same { SameLocal self.old self.new }
        ensures slots { SlotsStay self.old self.new }
        ensures sets { Steps self.old.owner.stations self.new.owner.stations (Sets limit result) }
        ensures history { (v : LifeView) → IsLifeKept v self.old.owner.book → GoesOn v self.new.owner.book }
    {
        every_level_has_histories();
        self.owner.has_a_history();
        let old = self.owner.set_limit(limit);
        self.owner.dispatch();
        old
    }

    /// How many events there ever were of each kind, of fewer than 2^64.
    pub fn stats(&self) -> LifeStats
        ensures { (v : LifeView) → IsLifeKept v self.now.owner.book → length v.history < 2 ^ 64 → AreLifeStats result v.history }
    {
        self.owner.stats()
    }

    /// How many events there ever were, of fewer than 2^64.
    pub fn events(&self) -> u64
        ensures { (v : LifeView) → IsLifeKept v self.now.owner.book → length v.history < 2 ^ 64 → result ≡ length v.history }
    {
        self.owner.events()
    }

    /// Copies events from this place on, of all that there ever were, the oldest first, as many as there is room for.
    /// Those that are no longer kept are missed, and it tells from which place on it copied.
    pub fn copy_events(&self, from: u64, into: &mut [LifeEvent]) -> Copied
        ensures { (v : LifeView) → IsLifeKept v self.now.owner.book → length v.history < 2 ^ 64 → CopiesLate self.now.owner.book.notes.capacity v.history from into.old result into.new }
    {
        self.owner.copy_events(from, into)
    }

    /// Whether all slots are free, so that the level may end.
    pub fn is_idle(&self) -> bool
        ensures { IsTrue result ↔ All (λ p. p ≡ places.Free) self.now.places }
    {
        self.places.iter().all(|place| *place == Place::Free)
    }

    /// Ends the level, and tells what its words and its history say of all requests that ever held a slot. Before that each
    /// request that waits is cancelled, and then each that executes gives its seats back. Each request of its log that was
    /// settled, or charged more while it ran, held its seats then: see `every_call_keeps_seats`.
    ///
    /// # Errors
    ///
    /// `AllocError` if memory was refused. Then everything is given up.
    pub fn end(self, alloc: Global) -> Result<Report, AllocError>
        ensures ended { IfOk result (EndsFrom self) }
        ensures idle { All (λ p. p ≡ places.Free) self.places → IfOk result (Ended (id_of self) self.owner.passes self.owner.stations) }
        ensures idle_of_each { All (λ p. p ≡ places.Free) self.places → IfOk result (λ r. (v : LifeView) → IsLifeKept v self.owner.book → EndedAs (id_of self) v self.owner.passes self.owner.stations r) }
        ensures seated { IfOk result (λ r. (v : LifeView) → IsLifeKept v self.owner.book → AreSeatedIn self v.log → EndsSeated self v r) }
    {
        let mut level = self;
        level.give_up_all();
        level.end_idle(alloc)
    }

    // No request waits or executes then.
    fn give_up_all(&mut self)
        ensures same { SameLocal self.old self.new }
        ensures free { All (λ p. p ≡ places.Free) self.new.places }
        ensures idle { All (λ p. p ≡ places.Free) self.old.places → self.new ≡ self.old }
        ensures history { (v : LifeView) → IsLifeKept v self.old.owner.book → GoesOn v self.new.owner.book }
        ensures seats { KeepsSeats self.old self.new }
    {
        self.cancel_waiting();
        for slot in 0..self.places.len() {
            self.give_up(slot);
        }
    }

    // Each request that waits is cancelled, so that none of them executes as seats are given back.
    fn cancel_waiting(&mut self)
        ensures same { SameLocal self.old self.new }
        ensures count { length self.new.places ≡ length self.old.places }
        ensures idle { All (λ p. p ≡ places.Free) self.old.places → self.new ≡ self.old }
        ensures history { (v : LifeView) → IsLifeKept v self.old.owner.book → GoesOn v self.new.owner.book }
        ensures seats { KeepsSeats self.old self.new }
    {
        for slot in 0..self.places.len() {
            self.cancel_at(slot);
        }
    }

    // The slot's request is cancelled, if it waits.
    fn cancel_at(&mut self, slot: usize)
        requires is_slot { slot < length self.old.places }
        ensures same { SameLocal self.old self.new }
        ensures count { length self.new.places ≡ length self.old.places }
        ensures idle { slice_get self.old.places slot ≡ Some places.Free → self.new ≡ self.old }
        ensures history { (v : LifeView) → IsLifeKept v self.old.owner.book → GoesOn v self.new.owner.book }
        ensures seats { KeepsSeats self.old self.new }
    {
        match self.places[slot] {
            Place::Free | Place::Fresh(_) | Place::Runs => {}
            Place::Waits => self.stop_waiting(slot),
        }
    }

    // The slot's request is over then: one that waits is cancelled, and one that executes gives its seats back.
    fn give_up(&mut self, slot: usize)
        requires is_slot { slot < length self.old.places }
        ensures same { SameLocal self.old self.new }
        ensures frees { self.new.places ≡ slice_set self.old.places slot places.Free }
        ensures idle { slice_get self.old.places slot ≡ Some places.Free → self.new ≡ self.old }
        ensures history { (v : LifeView) → IsLifeKept v self.old.owner.book → GoesOn v self.new.owner.book }
        ensures seats { KeepsSeats self.old self.new }
    {
        self.has_a_history();
        match self.places[slot] {
            Place::Free => {}
            Place::Fresh(ask) => self.leave(slot, ask),
            Place::Waits => self.stop_waiting(slot),
            Place::Runs => {
                self.finish(slot);
            }
        }
    }

    // The slot's request never came, and leaves it.
    fn leave(&mut self, slot: usize, ask: Ask)
        requires fresh { slice_get self.old.places slot ≡ Some (places.Fresh ask) }
        ensures same { SameLocal self.old self.new }
        ensures frees { self.new.places ≡ slice_set self.old.places slot places.Free }
        ensures history { (v : LifeView) → IsLifeKept v self.old.owner.book → GoesOn v self.new.owner.book }
        ensures seats { KeepsSeats self.old self.new }
    {
        let _ = ask;
        self.places[slot] = Place::Free;
    }

    // The slot's request, which waits, is cancelled. Where it executes already it gives its seats back.
    fn stop_waiting(&mut self, slot: usize)
        requires waits { slice_get self.old.places slot ≡ Some places.Waits }
        ensures same { SameLocal self.old self.new }
        ensures frees { self.new.places ≡ slice_set self.old.places slot places.Free }
        ensures history { (v : LifeView) → IsLifeKept v self.old.owner.book → GoesOn v self.new.owner.book }
        ensures seats { KeepsSeats self.old self.new }
    {
        let request = self.ticket(slot);
        self.cancel(request);
        if self.place(slot) == Place::Runs {
            self.finish(slot);
        }
    }

    // Ends a level whose slots are all free.
    fn end_idle(self, alloc: Global) -> Result<Report, AllocError>
        requires free { All (λ p. p ≡ places.Free) self.places }
        ensures { IfOk result (λ r. (v : LifeView) → IsLifeKept v self.owner.book → EndedBy self.owner.book.desk.desk (id_of self) v self.owner.passes self.owner.stations r) }
    {
        self.owner.has_a_history();
        let LocalLevel {
            owner,
            dealer: _,
            places,
        } = self;
        owner.end(alloc, places.len())
    }
}
