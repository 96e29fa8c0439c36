//! The book of a level whose slots are used again: its queues and its notes, with the Desk.

ghost use Rattle.std.specs.Prelude.{◌≡◌, ◌⊎◌, ℕ, ◌^◌, ◌<◌, ◌≤◌, length, map, take, vec_capacity, true, false, Some, All, Contains, IfSome, IfNone};
ghost use Rattle.apf_words.specs.declared.decision.Decision.TheVariants.{Cancelled};
ghost use Rattle.apf_model.specs.declared.response.Response.TheVariants.{Queue};
ghost use Rattle.apf_gate.specs.Slots.{IsTicket};
ghost use Rattle.apf_words.specs.Level.{Level};
ghost use Rattle.apf_gate.specs.Ends.{IsEnded};
ghost use Rattle.apf_gate.specs.Records.{told_own, service, KnowsMore};
ghost use Rattle.apf_gate.specs.Tokens.{pass_gate, desk_gate, station_gate};
ghost use Rattle.apf_gate.specs.Traces.{GoesOn};
ghost use Rattle.apf_gate.specs.declared.record.Actor.TheVariants.{OfStation};
ghost use Rattle.apf_book.specs.BookResults.{SameRequest};
ghost use Rattle.apf_book.specs.Life.{IsAskedBy, sizes_of, how_many, charge_in, LifeView};
ghost use Rattle.apf_book.specs.RecentEvents.{event_of, IsSmall, AreLifeStats, CopiesLate};
ghost use Rattle.apf_book.specs.Servings.{Strikes};
ghost use Rattle.apf_model.specs.History.{waiting};
ghost use Rattle.apf_gate.specs.declared.record.Service.TheVariants.{Waiting};
ghost use Rattle.apf_queue.specs.View.{max_charge};
ghost use Rattle.apf_book.specs.LifeBook.{IsLifeKept, IsLived, HoldsSeats, TurnsLife, ServesLife, StrikesLife, SettlesLife, SpendsLife};
ghost use Rattle.apf_book.specs.Tries.{IsNewTo, RacesArrival, LosesGrant, ServesUntil};
ghost use Rattle.apf_book.specs.LifeCalls.{HeardAll, IsLifeDeskFor, MakesLifeBook, AreOfLife, IsAsk, SameLifeBook, AnswersLifeArrival, AfterLifeArrival, HearsLife};

use crate::arrived::Arrived;
use crate::dispatching::TryDispatch;
use crate::fault::BookFault;
use crate::handing::{Handed, try_hand};
use crate::histories::legal_histories_are_in_order;
use crate::life::LifeLedger;
use crate::life_event::LifeEvent;
use crate::life_stats::LifeStats;
use crate::recent_events::{Copied, RecentEvents};
use crate::serving::{Served, serve};
use crate::settling::Settling;
use apf_gate::{Desk, Gate, Pass, Station, Ticket};
use apf_history::Charge;
use apf_model::{Config, Event};
use apf_queue::QueueFault;
use apf_words::Decision;
use std::alloc::Allocator;
use std::marker::Model;
use std::sync::Wait;

/// The queues of a level whose slots are used again, with the Desk, the newest events, and the numbers of all.
///
/// The history is stored nowhere: each call says what becomes of every history that the book is of. Whenever no call
/// of it runs there is one: it is legal and fair, each queue has the slots of those that wait by it, it says of each
/// request what the Desk did with it, and the events that are kept are its newest.
#[derive(Drop)]
pub struct LifeBook<A: Allocator> {
    desk: Desk,
    ledger: LifeLedger<A>,
    notes: RecentEvents<A>,
}

impl<A: Allocator> Model for LifeBook<A> {
    ghost use Rattle.apf_book.specs.LifeBook.{LifeBookView, IsLived};

    ghost Value = { LifeBookView };

    ghost view = { λ s. record { desk = s.desk; queues = s.ledger; notes = s.notes } };

    ghost invariant = { λ s. IsLived (record { desk = s.desk; queues = s.ledger; notes = s.notes }) };
}

impl<A: Allocator + Copy> LifeBook<A> {
    /// A book in which nothing happened yet. All memory is taken here, that of the newest events too: two for each
    /// slot.
    ///
    /// Where what requests take is settled, it keeps for each slot what a queue is charged for the request that holds it.
    ///
    /// The Desk is as `Gate::open_for_life` gave it, for the slots. At a gate without queues nothing ever happens to a
    /// book: no request arrives in it.
    ///
    /// # Errors
    ///
    /// The queues' fault, and `NoMemory` if memory was refused, the first of these.
    pub fn new(
        alloc: A,
        config: &Config,
        slots: u32,
        desk: Desk,
        settling: Settling,
    ) -> Result<LifeBook<A>, BookFault>
        requires begins { IsLifeDeskFor slots desk }
        ensures { MakesLifeBook config.now slots desk settling false result }
    {
        LifeBook::made(alloc, config, slots, desk, false, settling)
    }

    /// As `new`, over the gate of a batch: it is known beforehand what each request asks for, and nothing is settled.
    ///
    /// # Errors
    ///
    /// As of `new`.
    pub fn of_batch(
        alloc: A,
        config: &Config,
        slots: u32,
        desk: Desk,
    ) -> Result<LifeBook<A>, BookFault>
        requires begins { IsLifeDeskFor slots desk }
        ensures { MakesLifeBook config.now slots desk Settling.Never true result }
    {
        LifeBook::made(alloc, config, slots, desk, true, Settling::Never)
    }

    fn made(
        alloc: A,
        config: &Config,
        slots: u32,
        desk: Desk,
        known: bool,
        settling: Settling,
    ) -> Result<LifeBook<A>, BookFault>
        requires begins { IsLifeDeskFor slots desk }
        ensures { MakesLifeBook config.now slots desk settling known result }
    {
        legal_histories_are_in_order();
        desk.is_of_a_gate();
        let ledger = match LifeLedger::new(
            alloc,
            config.queues,
            config.queue_length_limit,
            slots,
            config.hand_size,
            known,
            settling,
        ) {
            Ok(ledger) => ledger,
            Err(QueueFault::BadShape) => return Err(BookFault::Queues(QueueFault::BadShape)),
            Err(QueueFault::NoMemory) => return Err(BookFault::NoMemory),
        };
        Ok(LifeBook {
            desk,
            ledger,
            notes: RecentEvents::new(alloc, slots)?,
        })
    }
}

impl<A: Allocator> LifeBook<A> {
    /// The request arrives, with its hand of queues and what its dispatch is charged, 1 to 4,294,967,295. In this
    /// order: it is cancelled; the level is closed, and it is rejected; the shortest queue of its hand is full, and it
    /// is rejected; it enters that queue. A lost exchange is tried again.
    ///
    /// A rejection, and that it is cancelled, is what the Desk's last step in this call was told, and its Pass.
    pub fn arrive<R: Wait, G: Allocator>(
        &mut self,
        rt: &R,
        gate: &Gate<G>,
        pass: &mut Pass,
        dealt: &[u32],
        cost: u32,
    ) -> Arrived
        requires own { AreOfLife gate.now self.old pass.old }
        requires is_new { IsNewTo self.old pass.old }
        requires ask { IsAsk self.old dealt.now cost }
        requires asked { self.old.queues.known ≡ false → IsAskedBy (sizes_of self.old.queues) pass.old.pass.knows.trace dealt.now cost pass.old.pass.number }
        requires has_queues { gate.now.shape.response ≡ Queue }
        ensures same { SameLifeBook self.old self.new }
        ensures same_request { SameRequest pass.old pass.new }
        ensures answer { AnswersLifeArrival self.old pass.old dealt.now cost result self.new pass.new }
        ensures after { AfterLifeArrival self.old pass.old result pass.new }
        ensures heard { HeardAll pass.old self.new }
    {
        for _ in rt.forever() {
            if let Some(arrived) = self.try_arrive(gate, pass, dealt, cost) {
                return arrived;
            }
        }
        unreachable!()
    }

    /// As `arrive`, but it makes one try. `None` where the exchange by which the request would enter found another
    /// level word than the load before it: then the histories are as they were, and the request is new still.
    pub fn try_arrive<G: Allocator>(
        &mut self,
        gate: &Gate<G>,
        pass: &mut Pass,
        dealt: &[u32],
        cost: u32,
    ) -> Option<Arrived>
        requires own { AreOfLife gate.now self.old pass.old }
        requires is_new { IsNewTo self.old pass.old }
        requires ask { IsAsk self.old dealt.now cost }
        requires asked { self.old.queues.known ≡ false → IsAskedBy (sizes_of self.old.queues) pass.old.pass.knows.trace dealt.now cost pass.old.pass.number }
        requires has_queues { gate.now.shape.response ≡ Queue }
        ensures same { SameLifeBook self.old self.new }
        ensures same_request { SameRequest pass.old pass.new }
        ensures answer { IfSome result (λ a. AnswersLifeArrival self.old pass.old dealt.now cost a self.new pass.new) }
        ensures after { IfSome result (λ a. AfterLifeArrival self.old pass.old a pass.new) }
        ensures heard { HeardAll pass.old self.new }
        ensures follows { pass.new.pass.knows.trace ≡ self.new.desk.desk.knows.trace }
        ensures raced { IfNone result (RacesArrival self.old pass.old self.new pass.new) }
    {
        legal_histories_are_in_order();
        self.desk.is_of_a_gate();
        let request = pass.number();
        let found = gate.hear(&mut self.desk, pass);
        if found == Some(Decision::Cancelled) {
            return Some(Arrived::Cancelled);
        }
        let queue = self.ledger.shortest(dealt);
        let full = self.ledger.is_full(queue);
        match try_hand(gate, &mut self.desk, pass, full) {
            Handed::Entered => {
                self.ledger.enter(request, queue, cost);
                self.notes
                    .note(LifeEvent::Enter(Ticket { number: request }, queue));
                Some(Arrived::Queued(queue))
            }
            Handed::Full => {
                self.ledger.refuse(request, queue);
                self.notes
                    .note(LifeEvent::Full(Ticket { number: request }, queue));
                Some(Arrived::Full(queue))
            }
            Handed::Closed => Some(Arrived::Closed),
            Handed::Cancelled => Some(Arrived::Cancelled),
            Handed::Raced => None,
        }
    }

    /// Dispatches the chosen heads of the queues while they fit, and strikes those that are cancelled. Tells how
    /// many were dispatched. A lost exchange is tried again.
    ///
    /// On return nothing waits, or the chosen head did not fit the level word that the Desk's last step, made in
    /// this call, found.
    pub fn dispatch<R: Wait, G: Allocator>(&mut self, rt: &R, gate: &Gate<G>) -> u64
        requires own { desk_gate self.old.desk ≡ gate.now }
        ensures same { SameLifeBook self.old self.new }
        ensures answer { (v : LifeView) → IsLifeKept v self.old → ServesLife v self.old result self.new }
    {
        let mut count: u64 = 0;
        for _ in rt.forever() {
            match self.try_dispatch(gate) {
                TryDispatch::Stopped(more) => return count.wrapping_add(more),
                TryDispatch::Raced(more) => count = count.wrapping_add(more),
            }
        }
        unreachable!()
    }

    /// As `dispatch`, but it ends where an exchange is lost, which it answers then: the exchange that would grant the
    /// chosen head its seats found another level word than the load before it.
    pub fn try_dispatch<G: Allocator>(&mut self, gate: &Gate<G>) -> TryDispatch
        requires own { desk_gate self.old.desk ≡ gate.now }
        ensures same { SameLifeBook self.old self.new }
        ensures answer { (v : LifeView) → IsLifeKept v self.old → ServesUntil v self.old result self.new }
        ensures raced { (count : ℕ) → result ≡ TryDispatch.Raced count → LosesGrant self.old self.new }
    {
        let mut count: u64 = 0;
        loop {
            match self.serve_head_once(gate) {
                None => return TryDispatch::Stopped(count),
                Some(Served::NoRoom) => return TryDispatch::Stopped(count),
                Some(Served::Raced) => return TryDispatch::Raced(count),
                Some(Served::Dispatched) => count = count.wrapping_add(1),
                Some(Served::Struck) => {}
            }
        }
    }

    /// Strikes the request out of its queue, where it waits and is seen cancelled. Says whether it did; else nothing
    /// changes but what the Desk knows.
    pub fn strike<G: Allocator>(&mut self, gate: &Gate<G>, request: Ticket) -> bool
        requires own { desk_gate self.old.desk ≡ gate.now }
        requires is_request { IsTicket gate.now.shape request.number }
        ensures same { SameLifeBook self.old self.new }
        ensures answer { (v : LifeView) → IsLifeKept v self.old → StrikesLife v self.old request.number result self.new }
    {
        legal_histories_are_in_order();
        if !self.ledger.waits(request.number) {
            return false;
        }
        self.strike_seen(gate, request)
    }

    /// As `strike`, but the request's word is read also where it does not wait, which is for a request that waits, or for
    /// one of a batch.
    pub(crate) fn strike_seen<G: Allocator>(&mut self, gate: &Gate<G>, request: Ticket) -> bool
        requires own { desk_gate self.old.desk ≡ gate.now }
        requires is_request { IsTicket gate.now.shape request.number }
        requires has_slot { (service self.old.desk.desk request.number ≡ Waiting) ⊎ (length gate.now.shape.widths ≡ gate.now.shape.slots) }
        ensures same { SameLifeBook self.old self.new }
        ensures answer { (v : LifeView) → IsLifeKept v self.old → StrikesLife v self.old request.number result self.new }
        ensures reads { (v : LifeView) → IsLifeKept v self.old → Strikes self.old.desk.desk request.number result ((q : ℕ) × Contains (waiting v.history q) request.number) self.new.desk.desk }
    {
        legal_histories_are_in_order();
        self.desk.is_of_a_gate();
        if gate.seen(&mut self.desk, request.number) != Some(Decision::Cancelled) {
            return false;
        }
        let Some(queue) = self.ledger.strike(request.number) else {
            return false;
        };
        gate.leave(&mut self.desk, request.number);
        self.notes.note(LifeEvent::Strike(request, queue));
        true
    }

    /// The Desk hears the decision of the Pass's request, and the Pass whether its request left. It makes one load,
    /// with the tokens joined.
    pub fn hear<G: Allocator>(&mut self, gate: &Gate<G>, pass: &mut Pass)
        requires own { AreOfLife gate.now self.old pass.old }
        ensures same { SameLifeBook self.old self.new }
        ensures same_request { SameRequest pass.old pass.new }
        ensures answer { HearsLife self.old pass.old self.new pass.new }
        ensures follows { pass.new.pass.knows.trace ≡ self.new.desk.desk.knows.trace }
    {
        gate.hear(&mut self.desk, pass);
    }

    /// The Desk and a Station hear every step of each other. They make one load, with the tokens joined. What the Station
    /// hears is steps of others alone.
    pub fn hear_station<G: Allocator>(&mut self, gate: &Gate<G>, station: &mut Station)
        requires own { desk_gate self.old.desk ≡ gate.now }
        requires own_station { station_gate station.old ≡ gate.now }
        ensures same { SameLifeBook self.old self.new }
        ensures same_station { (station_gate station.new ≡ station_gate station.old) × (station.new.station.number ≡ station.old.station.number) × KnowsMore station.old.station.knows station.new.station.knows }
        ensures of_others { GoesOn station.new.station.knows.trace (OfStation station.old.station.number) station.old.station.knows.trace }
        ensures history { (v : LifeView) → IsLifeKept v self.old → IsLifeKept v self.new }
        ensures follows { station.new.station.knows.trace ≡ self.new.desk.desk.knows.trace }
    {
        gate.hear_station(&mut self.desk, station);
    }

    /// One account has the records of the Desk and of all these tokens, which are all that the gate has beside it.
    ///
    /// It gives up the Passes and the Stations, and changes nothing of the book.
    pub fn all_are_here<G: Allocator>(
        &mut self,
        gate: &Gate<G>,
        passes: Vec<Pass, G>,
        stations: Vec<Station, G>,
    )
        requires own { desk_gate self.old.desk ≡ gate.now }
        requires own_passes { All (λ t. pass_gate t ≡ gate.now) passes.items }
        requires own_stations { All (λ t. station_gate t ≡ gate.now) stations.items }
        requires all_passes { length passes.items ≡ gate.now.shape.slots }
        requires all_stations { length stations.items ≡ gate.now.shape.stations }
        ensures same { self.new ≡ self.old }
        ensures here { (level : Level) × IsEnded gate.now self.old.desk.desk passes.items stations.items level }
    {
        gate.all_are_here(&mut self.desk, passes, stations);
    }

    /// The Pass's request, which entered and was told cancelled, is struck out of its queue if it waits there
    /// still, and its Pass hears that it left: it may be renewed then. Says whether it was struck now; a dispatch
    /// may have struck it before.
    pub fn withdraw<G: Allocator>(&mut self, gate: &Gate<G>, pass: &mut Pass) -> bool
        requires own { AreOfLife gate.now self.old pass.old }
        requires entered { pass.old.pass.entered ≡ true }
        requires cancelled { told_own pass.old.pass ≡ Some Cancelled }
        ensures same { SameLifeBook self.old self.new }
        ensures same_request { SameRequest pass.old pass.new }
        ensures answer { (v : LifeView) → IsLifeKept v self.old → StrikesLife v self.old pass.old.pass.number result self.new }
        ensures left { pass.new.pass.left ≡ true }
        ensures state { pass.new.pass.state ≡ pass.old.pass.state }
        ensures told { told_own pass.new.pass ≡ Some Cancelled }
        ensures follows { pass.new.pass.knows.trace ≡ self.new.desk.desk.knows.trace }
    {
        legal_histories_are_in_order();
        self.hear(gate, pass);
        self.has_a_history();
        let struck = self.strike(gate, pass.ticket());
        self.hear(gate, pass);
        struck
    }

    /// Which queue is charged for the Pass's request, and how much. `None` if that is not kept: where nothing is settled at
    /// all, of a request that was not dispatched from a queue, and of one that is settled. It makes no step.
    pub fn charge(&self, pass: &Pass) -> Option<Charge>
        requires { pass_gate pass.now ≡ desk_gate self.now.desk }
        ensures { result ≡ charge_in self.now.queues pass.now.pass.number }
    {
        self.ledger.charge(pass.number())
    }

    /// The Pass's request, which executes and holds its seats still, has run, and took so much, at most 2^46 in the unit of
    /// costs. If it was dispatched from a queue, that queue is charged this in place of what it was charged for the
    /// request, once and for all. Says whether it was.
    ///
    /// It is not, and nothing changes, where nothing is settled at all; nor if the request took its seats on arrival, or
    /// was settled before; nor past 2^126 of virtual time. It makes no step.
    pub fn settle(&mut self, pass: &Pass, amount: u64) -> bool
        requires own { pass_gate pass.now ≡ desk_gate self.old.desk }
        requires executes { HoldsSeats pass.now }
        requires low { amount ≤ max_charge }
        ensures same { SameLifeBook self.old self.new }
        ensures desk { self.new.desk ≡ self.old.desk }
        ensures notes { self.new.notes ≡ self.old.notes }
        ensures answer { (v : LifeView) → IsLifeKept v self.old → SettlesLife v self.old pass.now.pass.number amount result self.new }
    {
        self.ledger.settle(pass.number(), amount)
    }

    /// The Pass's request, which executes still, has run so long that it took so much, at most 2^46 in the unit of costs. If
    /// it was dispatched from a queue, and that queue was charged less for it, the queue is charged this from now on. Says
    /// whether it is: see `settle`. It makes no step.
    pub fn spend(&mut self, pass: &Pass, amount: u64) -> bool
        requires own { pass_gate pass.now ≡ desk_gate self.old.desk }
        requires executes { HoldsSeats pass.now }
        requires low { amount ≤ max_charge }
        ensures same { SameLifeBook self.old self.new }
        ensures desk { self.new.desk ≡ self.old.desk }
        ensures notes { self.new.notes ≡ self.old.notes }
        ensures answer { (v : LifeView) → IsLifeKept v self.old → SpendsLife v self.old pass.now.pass.number amount result self.new }
    {
        self.ledger.spend(pass.number(), amount)
    }

    /// There is a history that the book is of.
    ///
    /// It makes no step: the contract is the law.
    pub fn has_a_history(&self)
        ensures { IsLived self.now }
    {
        let _ = &self.desk;
    }

    /// How many events there ever were of each kind, of fewer than 2^64.
    pub fn stats(&self) -> LifeStats
        ensures { (v : LifeView) → IsLifeKept v self.now → length v.history < 2 ^ 64 → AreLifeStats result v.history }
    {
        self.notes.stats()
    }

    /// How many events there ever were, of fewer than 2^64.
    pub fn events(&self) -> u64
        ensures { (v : LifeView) → IsLifeKept v self.now → length v.history < 2 ^ 64 → result ≡ length v.history }
    {
        self.notes.count()
    }

    /// Copies events from this place on, of all that there ever were, the oldest first, as many as there is room
    /// for. Those that are no longer kept are missed, and it tells from which place on it copied.
    pub fn copy_events(&self, from: u64, into: &mut [LifeEvent]) -> Copied
        ensures { (v : LifeView) → IsLifeKept v self.now → length v.history < 2 ^ 64 → CopiesLate self.now.notes.capacity v.history from into.old result into.new }
    {
        self.notes.copy(from, into)
    }

    /// Appends to a log that begins as the events that are kept do, those that it does not have, the oldest first.
    pub(crate) fn append_newer<L: Allocator>(&self, log: &mut Vec<Event, L>)
        requires begun { log.old.items ≡ take (length log.old.items) (map event_of self.now.notes.newest) }
        requires room { length self.now.notes.newest ≤ vec_capacity log.old }
        requires small { All IsSmall self.now.notes.newest }
        ensures whole { log.new.items ≡ map event_of self.now.notes.newest }
        ensures capacity { vec_capacity log.new ≡ vec_capacity log.old }
    {
        self.notes.append_newer(log);
    }

    /// The Desk. The rest is given up.
    pub fn end(self) -> Desk
        ensures desk { result ≡ self.desk }
        ensures lived { IsLived self }
    {
        let LifeBook {
            desk,
            ledger: _,
            notes: _,
        } = self;
        desk
    }

    // Tries once to serve the chosen head, if any waits.
    fn serve_head_once<G: Allocator>(&mut self, gate: &Gate<G>) -> Option<Served>
        requires own { desk_gate self.old.desk ≡ gate.now }
        ensures same { SameLifeBook self.old self.new }
        ensures turns { (v : LifeView) → IsLifeKept v self.old → TurnsLife result v self.old self.new }
        ensures fewer { (result ≡ Some Served.Dispatched) ⊎ (result ≡ Some Served.Struck) → how_many self.new.queues.queues < how_many self.old.queues.queues }
        ensures raced { result ≡ Some Served.Raced → LosesGrant self.old self.new }
    {
        legal_histories_are_in_order();
        self.desk.is_of_a_gate();
        let Some(chosen) = self.ledger.choose() else {
            return None;
        };
        let request = self.ledger.holder(chosen.request);
        match serve(gate, &mut self.desk, request) {
            Served::Dispatched => {
                self.ledger.dispatch(chosen);
                self.notes.note(LifeEvent::Dispatch(Ticket { number: request }, chosen.queue));
                Some(Served::Dispatched)
            }
            Served::Struck => {
                let Some(queue) = self.ledger.strike(request) else {
                    unreachable!()
                };
                self.notes
                    .note(LifeEvent::Strike(Ticket { number: request }, queue));
                Some(Served::Struck)
            }
            Served::NoRoom => Some(Served::NoRoom),
            Served::Raced => Some(Served::Raced),
        }
    }
}
