//! A gate, its book and all of its tokens in one hand.

ghost use Rattle.std.specs.Prelude.{ℕ, ◌≡◌, ◌↔◌, ◌≢◌, ◌≤◌, ◌<◌, ◌*◌, ◌^◌, length, slice_get, true, false, All, None, IfSome, IfNone, IfOk, IfErr, OnOk, IsTrue};
ghost use Rattle.apf_words.specs.Level.{Level};
ghost use Rattle.apf_words.specs.Limits.{max_width, max_cost, max_limit};
ghost use Rattle.apf_words.specs.declared.decision.Decision.{Decision};
ghost use Rattle.apf_words.specs.declared.decision.Decision.TheVariants.{Execute, Cancelled};
ghost use Rattle.apf_gate.specs.Ends.{IsEnded};
ghost use Rattle.apf_gate.specs.Slots.{IsTicket};
ghost use Rattle.apf_gate.specs.Tokens.{PassToken, pass_gate, desk_gate, station_gate};
ghost use Rattle.apf_gate.specs.StationCalls.{TriesToCancel, ClosesTo};
ghost use Rattle.apf_gate.specs.StationSteps.{StationLoadsLevel};
ghost use Rattle.apf_book.specs.Life.{LifeView, IsAskedBy, charge_in, sizes_of};
ghost use Rattle.apf_book.specs.LifeBook.{IsLifeKept, IsLived, ServesLife, StrikesLife, SpendsLife};
ghost use Rattle.apf_model.specs.World.{width};
ghost use Rattle.apf_book.specs.LifeCalls.{IsAsk};
ghost use Rattle.apf_line.specs.Tokens.{IsDone, IsInLine, IsRunning};
ghost use Rattle.apf_queue.specs.View.{queue_count, max_charge};
ghost use Rattle.apf_book.specs.RecentEvents.{AreLifeStats, CopiesLate};
ghost use Rattle.apf_line.specs.Attempts.{HasQueuesIf};
ghost use Rattle.apf_line.specs.Levels.{LifeId};
ghost use Rattle.apf_line.specs.Reports.{EndedBy};
ghost use Rattle.apf_line.specs.Seats.{HeldSeats};
ghost use Rattle.apf_line.specs.Stopped.{IsStopped};
ghost use Rattle.apf_local.specs.Openings.{line_of, IsNewOwner, CanOpen, IsOpenFault, HasQueuesOf};
ghost use Rattle.apf_local.specs.Worlds.{HasComeIn, IsDecidedIn};
ghost use Rattle.apf_local.specs.Owners.{SameOwner, Moves, Stay, Begins, Renews, Comes, IsFresh, StaysFresh, HasHeard, IsBlocked, IsUsedUp, Enters, GivesBack, Reads, IsToldOff, Leaves, SettlesTold, StrikesOne, Steps, Sets, IsSlotOf};

use crate::answer::{Ask, Settlement};
use crate::fault::OpenFault;
use apf_book::{
    Arrived, BookFault, Charge, Copied, LifeBook, LifeEvent, LifeStats, Settling, TryDispatch,
};
use apf_flow::Dealer;
use apf_gate::{
    Cancel, Close, Gate, Pass, Renew, Station, Ticket, TrySetLimit, no_exchange_is_lost,
};
use apf_line::attempts::{Tried, take};
use apf_line::{Report, close_book, end_level, every_level_has_histories};
use apf_model::{Config, Response};
use apf_words::{Decision, LevelWord};
use std::alloc::{AllocError, Global};
use std::marker::Model;
use std::mem;

/// A gate, what becomes of a request that finds no seats, the book of its queues, and all of its tokens. The Desk, which the book has, has seen as much as any other: it
/// hears each step of the others. So no exchange is ever lost.
#[derive(Drop)]
pub struct Owner {
    alloc: Global,
    gate: Gate<Global>,
    response: Response,
    book: LifeBook<Global>,
    passes: Vec<Pass>,
    stations: Vec<Station>,
}

impl Model for Owner {
    ghost use Rattle.apf_local.specs.Owners.{OwnerView, IsOwner};
    ghost use Rattle.apf_queue.specs.View.{queue_count};

    ghost Value = { OwnerView };

    ghost view = { λ o. record { gate = o.gate; response = o.response; book = o.book; passes = o.passes.items; stations = o.stations.items } };

    ghost invariant = { λ o. IsOwner (record { gate = o.gate; response = o.response; book = o.book; passes = o.passes.items; stations = o.stations.items }) };
}

// The settings of a level's queues. A level without queues has one of one request, which nobody enters.
fn settings(config: &Config) -> Config
    ensures { result ≡ line_of config.now }
{
    match config.limit_response {
        Response::Queue => *config,
        Response::Reject => Config {
            limit: config.limit,
            queues: 1,
            queue_length_limit: 1,
            hand_size: 1,
            limit_response: Response::Reject,
        },
    }
}

// Whether a level of this response has queues.
fn has_queues(response: Response) -> bool
    ensures { HasQueuesIf result response }
{
    match response {
        Response::Queue => true,
        Response::Reject => false,
    }
}

// One account has all of these tokens, which are given up.
fn gather(
    alloc: Global,
    gate: &Gate<Global>,
    book: &mut LifeBook<Global>,
    passes: &mut Vec<Pass>,
    stations: &mut Vec<Station>,
)
    requires own_desk { desk_gate book.old.desk ≡ gate.now }
    requires own_passes { All (λ t. pass_gate t ≡ gate.now) passes.old.items }
    requires own_stations { All (λ t. station_gate t ≡ gate.now) stations.old.items }
    requires all_passes { length passes.old.items ≡ gate.now.shape.slots }
    requires all_stations { length stations.old.items ≡ gate.now.shape.stations }
    ensures here { (level : Level) × IsEnded gate.now book.old.desk.desk passes.old.items stations.old.items level }
{
    let all = mem::replace(passes, Vec::new(alloc));
    let rest = mem::replace(stations, Vec::new(alloc));
    book.all_are_here(gate, all, rest);
}

impl Owner {
    /// A gate of this many slots and one Station, a book in which nothing happened yet, and the dealer of its queues. All
    /// memory is taken here.
    ///
    /// # Errors
    ///
    /// The first of these: the gate's fault, the dealer's, the queues', and `NoMemory` whenever memory was refused. The
    /// settings of queues have no fault at a gate without queues.
    pub fn open(
        alloc: Global,
        config: &Config,
        slots: u32,
        settling: Settling,
    ) -> Result<(Owner, Dealer), OpenFault>
        ensures opened { IfOk result (λ o. IsNewOwner config.now slots settling o.0) }
        ensures sizes { IfOk result (λ o. o.1 ≡ record { deck = (line_of config.now).queues; hand = (line_of config.now).hand_size }) }
        ensures deck { IfOk result (λ o. queue_count o.0.book.queues.queues ≡ (line_of config.now).queues) }
        ensures hand { IfOk result (λ o. o.0.book.queues.hand ≡ (line_of config.now).hand_size) }
        ensures stopped { IfOk result (λ o. IsStopped o.0.book) }
        ensures settings { OnOk result (CanOpen config.now slots) }
        ensures fault { IfErr result (IsOpenFault config.now slots) }
    {
        every_level_has_histories();
        let widths = vec![in alloc; 1; slots as usize]?;
        let (gate, desk, passes, stations) = Gate::open_for_life(
            alloc,
            config.limit,
            widths.as_slice(),
            1,
            config.limit_response,
        )?;
        desk.is_of_a_gate();
        let line = settings(config);
        let dealer = match Dealer::new(line.queues, line.hand_size) {
            Ok(dealer) => dealer,
            Err(fault) => return Err(OpenFault::Level(BookFault::Dealer(fault))),
        };
        let book = LifeBook::new(alloc, &line, slots, desk, settling)?;
        let owner = Owner {
            alloc,
            gate,
            response: config.limit_response,
            book,
            passes,
            stations,
        };
        Ok((owner, dealer))
    }

    /// What names the slot's newest request for ever.
    pub fn ticket(&self, slot: usize) -> Ticket
        requires { slot < length self.now.passes }
        ensures number { IsSlotOf self.now.passes slot (λ t. result.number ≡ t.pass.number) }
        ensures is_ticket { IsTicket self.now.gate.shape result.number }
    {
        self.passes[slot].ticket()
    }

    /// How many events there ever were of each kind, of fewer than 2^64.
    pub fn stats(&self) -> LifeStats
        ensures { (v : LifeView) → IsLifeKept v self.now.book → length v.history < 2 ^ 64 → AreLifeStats result v.history }
    {
        self.book.stats()
    }

    /// How many events there ever were, of fewer than 2^64.
    pub fn events(&self) -> u64
        ensures { (v : LifeView) → IsLifeKept v self.now.book → length v.history < 2 ^ 64 → result ≡ length v.history }
    {
        self.book.events()
    }

    /// Copies events from this place on, of all that there ever were, the oldest first, as many as there is room for.
    pub fn copy_events(&self, from: u64, into: &mut [LifeEvent]) -> Copied
        ensures { (v : LifeView) → IsLifeKept v self.now.book → length v.history < 2 ^ 64 → CopiesLate self.now.book.notes.capacity v.history from into.old result into.new }
    {
        self.book.copy_events(from, into)
    }

    /// Whether there may be a request of this ticket.
    pub fn knows(&self, ticket: Ticket) -> bool
        ensures { IsTrue result ↔ IsTicket self.now.gate.shape ticket.number }
    {
        self.gate.knows(ticket)
    }

    /// There is a history that the book is of. It makes no step: the contract is the law.
    pub fn has_a_history(&self)
        ensures { IsLived self.now.book }
    {
        self.book.has_a_history();
    }

    /// Ends the level, of which no request waits or executes.
    ///
    /// # Errors
    ///
    /// `AllocError` if memory was refused. Then everything is given up.
    pub fn end(self, alloc: Global, slots: usize) -> Result<Report, AllocError>
        requires done { All IsDone self.passes }
        requires slots { slots ≡ length self.passes }
        ensures { IfOk result (λ r. (k : LifeId) (v : LifeView) → k.gate ≡ self.gate → HasQueuesOf k self.book → IsLifeKept v self.book → EndedBy self.book.desk.desk k v self.passes self.stations r) }
    {
        let Owner {
            alloc: _,
            gate,
            response: _,
            book,
            passes,
            stations,
        } = self;
        let closing = close_book(alloc, book, slots)?;
        end_level(alloc, gate, closing, passes, stations)
    }

    /// The slot goes on to its next request, which asks for this. It did not arrive then. Answers whether it did: no, if the
    /// slot's numbers are used up, and then nothing was done.
    pub fn renew(&mut self, slot: usize, ask: Ask) -> bool
        requires is_slot { slot < length self.old.passes }
        requires free { IsSlotOf self.old.passes slot IsDone }
        requires some_width { 1 ≤ ask.width }
        requires narrow { ask.width ≤ max_width }
        ensures same { SameOwner self.old self.new }
        ensures spent { result ≡ false → self.new ≡ self.old }
        ensures used_up { result ≡ false → IsSlotOf self.old.passes slot (IsUsedUp self.old.gate ask.width) }
        ensures renews { result ≡ true → Moves slot self.old.passes self.new.passes (Renews ask) }
        ensures heard { result ≡ true → HasHeard slot self.new }
        ensures operators { self.new.stations ≡ self.old.stations }
        ensures history { (v : LifeView) → IsLifeKept v self.old.book → IsLifeKept v self.new.book }
    {
        match self
            .gate
            .renew(&mut self.passes[slot], ask.width, ask.hash, ask.cost)
        {
            Renew::Spent => return false,
            Renew::Began(_decision) => {}
        }
        self.book.hear(&self.gate, &mut self.passes[slot]);
        true
    }

    /// The slot's request, which did not arrive, hears what the Desk knows.
    pub fn hear(&mut self, slot: usize, ask: Ask)
        requires is_slot { slot < length self.old.passes }
        requires fresh { IsSlotOf self.old.passes slot (IsFresh ask) }
        ensures same { SameOwner self.old self.new }
        ensures hears { Moves slot self.old.passes self.new.passes (StaysFresh ask) }
        ensures heard { HasHeard slot self.new }
        ensures operators { self.new.stations ≡ self.old.stations }
        ensures history { (v : LifeView) → IsLifeKept v self.old.book → IsLifeKept v self.new.book }
    {
        let _ = ask;
        self.book.hear(&self.gate, &mut self.passes[slot]);
    }

    /// The slot's request, which did not arrive and heard what the Desk knows, takes its seats if the level is open, nobody
    /// waits and they fit.
    pub fn take_seats(&mut self, slot: usize, ask: Ask) -> Tried
        requires is_slot { slot < length self.old.passes }
        requires fresh { IsSlotOf self.old.passes slot (IsFresh ask) }
        requires heard { HasHeard slot self.old }
        ensures same { SameOwner self.old self.new }
        ensures takes { Moves slot self.old.passes self.new.passes (Comes ask result) }
        ensures operators { self.new.stations ≡ self.old.stations }
        ensures history { (v : LifeView) → IsLifeKept v self.old.book → IsLifeKept v self.new.book }
    {
        let _ = ask;
        let tried = take(
            &self.gate,
            has_queues(self.response),
            &mut self.passes[slot],
        );
        if tried == Tried::Raced {
            gather(
                self.alloc,
                &self.gate,
                &mut self.book,
                &mut self.passes,
                &mut self.stations,
            );
            no_exchange_is_lost();
            unreachable!();
        }
        self.book.hear(&self.gate, &mut self.passes[slot]);
        tried
    }

    /// The slot goes on to its next request, which takes its seats if the level is open, nobody waits and they fit. `None`
    /// if the slot's numbers are used up: then nothing was done.
    pub fn begin(&mut self, slot: usize, ask: Ask) -> Option<Tried>
        requires is_slot { slot < length self.old.passes }
        requires free { IsSlotOf self.old.passes slot IsDone }
        requires some_width { 1 ≤ ask.width }
        requires narrow { ask.width ≤ max_width }
        ensures same { SameOwner self.old self.new }
        ensures spent { IfNone result (self.new ≡ self.old) }
        ensures used_up { IfNone result (IsSlotOf self.old.passes slot (IsUsedUp self.old.gate ask.width)) }
        ensures begins { IfSome result (λ tried. Moves slot self.old.passes self.new.passes (Begins ask tried)) }
        ensures operators { self.new.stations ≡ self.old.stations }
        ensures history { (v : LifeView) → IsLifeKept v self.old.book → IsLifeKept v self.new.book }
    {
        if !self.renew(slot, ask) {
            return None;
        }
        Some(self.take_seats(slot, ask))
    }

    /// The slot's request, which took no seats, arrives in the line, with its hand of queues and what its dispatch is
    /// charged.
    pub fn enter(&mut self, slot: usize, dealt: &[u32], cost: u32) -> Arrived
        requires is_slot { slot < length self.old.passes }
        requires blocked { IsSlotOf self.old.passes slot (IsBlocked (sizes_of self.old.book.queues) dealt.now cost) }
        requires ask { IsAsk self.old.book dealt.now cost }
        ensures same { SameOwner self.old self.new }
        ensures enters { Moves slot self.old.passes self.new.passes (Enters self.old.book dealt.now cost result self.new.book) }
        ensures operators { self.new.stations ≡ self.old.stations }
    {
        self.book.has_a_history();
        self.gate.ask(&mut self.passes[slot]);
        match self
            .book
            .try_arrive(&self.gate, &mut self.passes[slot], dealt, cost)
        {
            Some(arrived) => arrived,
            None => {
                gather(
                    self.alloc,
                    &self.gate,
                    &mut self.book,
                    &mut self.passes,
                    &mut self.stations,
                );
                no_exchange_is_lost();
                unreachable!()
            }
        }
    }

    /// Dispatches the chosen heads of the queues while they fit, and strikes those that are cancelled. Tells how many
    /// were dispatched.
    pub fn dispatch(&mut self) -> u64
        ensures same { SameOwner self.old self.new }
        ensures stay { Stay self.old self.new }
        ensures served { (v : LifeView) → IsLifeKept v self.old.book → ServesLife v self.old.book result self.new.book }
    {
        match self.book.try_dispatch(&self.gate) {
            TryDispatch::Stopped(count) => count,
            TryDispatch::Raced(_count) => {
                gather(
                    self.alloc,
                    &self.gate,
                    &mut self.book,
                    &mut self.passes,
                    &mut self.stations,
                );
                no_exchange_is_lost();
                unreachable!()
            }
        }
    }

    /// How many seats the slot's newest request takes.
    pub fn width(&self, slot: usize) -> u32
        requires { slot < length self.now.passes }
        ensures width { IsSlotOf self.now.passes slot (λ t. result ≡ width self.now.gate.shape.widths t.pass.number) }
        ensures small { result ≤ max_width }
    {
        self.passes[slot].width()
    }

    /// Which queue is charged for the slot's newest request, and how much, if that is kept.
    pub fn charge(&self, slot: usize) -> Option<Charge>
        requires { slot < length self.now.passes }
        ensures { IsSlotOf self.now.passes slot (λ t. result ≡ charge_in self.now.book.queues t.pass.number) }
    {
        self.book.charge(&self.passes[slot])
    }

    /// The slot's request, which executes, has run, and took so much. If it was dispatched from a queue, that queue is
    /// charged this in place of what it was charged for the request, once and for all. Tells what was settled.
    pub fn settle(&mut self, slot: usize, amount: u64) -> Option<Settlement>
        requires is_slot { slot < length self.old.passes }
        requires runs { IsSlotOf self.old.passes slot IsRunning }
        requires low { amount ≤ max_charge }
        ensures same { SameOwner self.old self.new }
        ensures stay { Stay self.old self.new }
        ensures settles { IsSlotOf self.old.passes slot (λ t. (v : LifeView) → IsLifeKept v self.old.book → SettlesTold v self.old.book t.pass.number amount result self.new.book) }
    {
        let charge = self.charge(slot)?;
        if !self.book.settle(&self.passes[slot], amount) {
            return None;
        }
        Some(Settlement {
            charge,
            took: amount,
        })
    }

    /// The slot's request, which executes still, has taken so much so far. If it was dispatched from a queue, and that
    /// queue was charged less for it, the queue is charged this from now on. Says whether it is.
    pub fn spend(&mut self, slot: usize, amount: u64) -> bool
        requires is_slot { slot < length self.old.passes }
        requires runs { IsSlotOf self.old.passes slot IsRunning }
        requires low { amount ≤ max_charge }
        ensures same { SameOwner self.old self.new }
        ensures stay { Stay self.old self.new }
        ensures spends { IsSlotOf self.old.passes slot (λ t. (v : LifeView) → IsLifeKept v self.old.book → SpendsLife v self.old.book t.pass.number amount result self.new.book) }
    {
        self.book.spend(&self.passes[slot], amount)
    }

    /// The slot's request hears what the Desk knows, and gives its seats back. Says whether requests waited then. It held its
    /// seats when all had happened that the histories of the book have.
    pub fn give_back(&mut self, slot: usize) -> bool
        requires is_slot { slot < length self.old.passes }
        requires runs { IsSlotOf self.old.passes slot IsRunning }
        ensures same { SameOwner self.old self.new }
        ensures gives { Moves slot self.old.passes self.new.passes (GivesBack result) }
        ensures operators { self.new.stations ≡ self.old.stations }
        ensures history { (v : LifeView) → IsLifeKept v self.old.book → IsLifeKept v self.new.book }
        ensures held { IsSlotOf self.old.passes slot (λ t. (v : LifeView) → IsLifeKept v self.old.book → HeldSeats self.new.gate.shape self.new.book.desk.desk.knows.trace v.history t.pass.number) }
    {
        self.book.hear(&self.gate, &mut self.passes[slot]);
        let waiting = self.gate.release(&mut self.passes[slot]);
        self.book.hear(&self.gate, &mut self.passes[slot]);
        waiting
    }

    /// Reads the decision of the slot's request, which waits. It finds one that the Desk knows of.
    pub fn read(&mut self, slot: usize) -> Option<Decision>
        requires is_slot { slot < length self.old.passes }
        requires waits { IsSlotOf self.old.passes slot IsInLine }
        ensures same { SameOwner self.old self.new }
        ensures reads { Moves slot self.old.passes self.new.passes (Reads result) }
        ensures operators { self.new.stations ≡ self.old.stations }
        ensures decided { IsSlotOf self.old.passes slot (λ t. IsDecidedIn self.old.book t.pass.number → result ≢ None) }
        ensures history { (v : LifeView) → IsLifeKept v self.old.book → IsLifeKept v self.new.book }
    {
        self.book.hear(&self.gate, &mut self.passes[slot]);
        let found = self.gate.told(&mut self.passes[slot]);
        self.book.hear(&self.gate, &mut self.passes[slot]);
        found
    }

    /// The slot's request, which waits and was told that it does not execute, is cancelled. It is struck out of its
    /// queue, if it waits there still.
    pub fn withdraw(&mut self, slot: usize)
        requires is_slot { slot < length self.old.passes }
        requires told { IsSlotOf self.old.passes slot IsToldOff }
        ensures same { SameOwner self.old self.new }
        ensures leaves { Moves slot self.old.passes self.new.passes Leaves }
        ensures operators { self.new.stations ≡ self.old.stations }
        ensures history { (v : LifeView) → IsLifeKept v self.old.book → (r : ℕ) × StrikesOne r v self.new.book }
    {
        // the Desk, which let it enter, knows that it is decided by nobody else
        self.book.hear(&self.gate, &mut self.passes[slot]);
        self.book.withdraw(&self.gate, &mut self.passes[slot]);
    }

    // Cancels a request, if it is undecided and holds its slot. It stays in its queue.
    fn decide_cancelled(&mut self, ticket: Ticket) -> Cancel
        requires is_request { IsTicket self.old.gate.shape ticket.number }
        requires operator { 0 < length self.old.stations }
        ensures same { SameOwner self.old self.new }
        ensures passes { self.new.passes ≡ self.old.passes }
        ensures cancels { Steps self.old.stations self.new.stations (λ station station'. TriesToCancel station ticket.number result station') }
        ensures decides { (d : Decision) → result ≡ Cancel.Is d → IsDecidedIn self.new.book ticket.number }
        ensures ends { HasComeIn self.old.book ticket.number → IsDecidedIn self.new.book ticket.number }
        ensures history { (v : LifeView) → IsLifeKept v self.old.book → IsLifeKept v self.new.book }
    {
        self.book.hear_station(&self.gate, &mut self.stations[0]);
        let answer = self.gate.cancel_without_wake(&mut self.stations[0], ticket);
        self.book.hear_station(&self.gate, &mut self.stations[0]);
        answer
    }

    /// Cancels a request, if it is undecided and holds its slot, and strikes it out of its queue. Answers its decision,
    /// or `Other`: another request holds the slot, so that this one is over.
    pub fn cancel(&mut self, ticket: Ticket) -> Cancel
        requires is_request { IsTicket self.old.gate.shape ticket.number }
        requires operator { 0 < length self.old.stations }
        ensures same { SameOwner self.old self.new }
        ensures passes { self.new.passes ≡ self.old.passes }
        ensures cancels { Steps self.old.stations self.new.stations (λ station station'. TriesToCancel station ticket.number result station') }
        ensures decides { (d : Decision) → result ≡ Cancel.Is d → IsDecidedIn self.new.book ticket.number }
        ensures ends { HasComeIn self.old.book ticket.number → IsDecidedIn self.new.book ticket.number }
        ensures history { (v : LifeView) → IsLifeKept v self.old.book → StrikesOne ticket.number v self.new.book }
    {
        let answer = self.decide_cancelled(ticket);
        if answer == Cancel::Is(Decision::Cancelled) {
            self.book.strike(&self.gate, ticket);
        }
        answer
    }

    /// Closes the level. Says whether this close was the first.
    pub fn close(&mut self) -> Close
        requires operator { 0 < length self.old.stations }
        ensures same { SameOwner self.old self.new }
        ensures passes { self.new.passes ≡ self.old.passes }
        ensures closes { Steps self.old.stations self.new.stations (λ station station'. ClosesTo station result station') }
        ensures history { (v : LifeView) → IsLifeKept v self.old.book → IsLifeKept v self.new.book }
    {
        self.book.hear_station(&self.gate, &mut self.stations[0]);
        let answer = self.gate.close(&mut self.stations[0]);
        self.book.hear_station(&self.gate, &mut self.stations[0]);
        answer
    }

    /// Reads the level word.
    pub fn look(&mut self) -> LevelWord
        requires operator { 0 < length self.old.stations }
        ensures same { SameOwner self.old self.new }
        ensures passes { self.new.passes ≡ self.old.passes }
        ensures looks { Steps self.old.stations self.new.stations (λ station station'. StationLoadsLevel station result station') }
        ensures history { (v : LifeView) → IsLifeKept v self.old.book → IsLifeKept v self.new.book }
    {
        self.book.hear_station(&self.gate, &mut self.stations[0]);
        let word = self.gate.look(&mut self.stations[0]);
        self.book.hear_station(&self.gate, &mut self.stations[0]);
        word
    }

    /// Sets the limit, in seats. Answers the old one.
    pub fn set_limit(&mut self, limit: u32) -> u32
        requires operator { 0 < length self.old.stations }
        requires some_limit { 1 ≤ limit }
        requires small_limit { limit ≤ max_limit }
        ensures same { SameOwner self.old self.new }
        ensures passes { self.new.passes ≡ self.old.passes }
        ensures sets { Steps self.old.stations self.new.stations (λ station station'. Sets limit result station station') }
        ensures history { (v : LifeView) → IsLifeKept v self.old.book → IsLifeKept v self.new.book }
    {
        self.book.hear_station(&self.gate, &mut self.stations[0]);
        match self.gate.try_set_limit(&mut self.stations[0], limit) {
            TrySetLimit::Set(old, _waiting) => {
                self.book.hear_station(&self.gate, &mut self.stations[0]);
                old
            }
            TrySetLimit::Raced => {
                gather(
                    self.alloc,
                    &self.gate,
                    &mut self.book,
                    &mut self.passes,
                    &mut self.stations,
                );
                no_exchange_is_lost();
                unreachable!()
            }
        }
    }
}
