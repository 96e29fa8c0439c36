//! The book of a level: its queues and its log, with the Desk.

ghost use Rattle.std.specs.Prelude.{◌≡◌, ◌+◌, ◌<◌, false, length, map, reverse, IfOk, IsOkAnd, OnOk, IfErr};
ghost use Rattle.apf_model.specs.Outcome.{stats_of};
ghost use Rattle.apf_gate.specs.declared.record.State.TheVariants.{InLine};
ghost use Rattle.apf_gate.specs.Tokens.{desk_gate};
ghost use Rattle.apf_book.specs.Opening.{opening_ledger, opening_ledger_with, AreSettings, IsFaultOf};
ghost use Rattle.apf_book.specs.Stopped.{IsStopped};
ghost use Rattle.apf_model.specs.History.{has_arrived};
ghost use Rattle.apf_book.specs.LedgerKept.{AreStats};
ghost use Rattle.apf_book.specs.BookView.{IsKept};
ghost use Rattle.apf_book.specs.BookCalls.{IsDeskFor, AreCostsFor, MakesBook, AreOf, AnswersArrival, Dispatches, StrikesOut, Hears};
ghost use Rattle.apf_book.specs.BookResults.{SameBook, SameRequest, AfterArrive, AfterStrike, AfterHear, IsLogOfBook};

use crate::arrived::Arrived;
use crate::fault::BookFault;
use crate::histories::{
    fair_histories_are_balanced, fair_histories_isolate, legal_histories_are_in_order,
    unsettled_logs_are_fair, waits_are_bounded,
};
use crate::life_book::LifeBook;
use crate::stats::Stats;
use apf_flow::Dealer;
use apf_gate::{Desk, Gate, Pass, Ticket};
use apf_model::{Ask, Config, Event};
use std::alloc::{AllocError, Allocator};
use std::marker::Model;
use std::sync::Wait;

/// The queues and the log of a level whose response is Queue, with the Desk.
///
/// Whenever no call of it runs, the log is legal and fair, each queue is the waiting of the log, the
/// log says of each request what the Desk did with it, and the Desk holds nothing.
///
/// It is a book for life of which what each request asks for is known beforehand, and which forgets no event.
#[derive(Drop)]
pub struct Book<A: Allocator> {
    book: LifeBook<A>,
    dealer: Dealer,
    costs: Vec<u32, A>,
    hashes: Vec<u64, A>,
    // whether a request entered or was refused as full
    arrived: Vec<bool, A>,
    // the oldest event stands first
    log: Vec<Event, A>,
}

impl<A: Allocator> Model for Book<A> {
    ghost use Rattle.std.specs.Prelude.{vec_capacity};
    ghost use Rattle.apf_book.specs.BookView.{BookView};
    ghost use Rattle.apf_book.specs.Batch.{IsBatchBook, ledger_with};

    ghost Value = { BookView };

    ghost view = { λ s. record { desk = s.book.desk; ledger = ledger_with s.book s.dealer s.costs.items s.hashes.items s.log.items } };

    ghost invariant = { λ s. IsBatchBook (ledger_with s.book s.dealer s.costs.items s.hashes.items s.log.items) s.book s.arrived.items (vec_capacity s.log) };
}

impl<A: Allocator + Copy> Book<A> {
    /// A book in which nothing happened yet, and a dispatch is charged the request's width. All memory is
    /// taken here, the log's too: two events for each request.
    ///
    /// The Desk is as `Gate::open` gave it, for the widths of the asks and the response Queue.
    ///
    /// # Errors
    ///
    /// The first of these: the dealer's fault, the queues', and `NoMemory` if memory was refused.
    pub fn new(alloc: A, config: &Config, asks: &[Ask], desk: Desk) -> Result<Book<A>, BookFault>
        requires begins { IsDeskFor asks.now desk }
        ensures { MakesBook config.now asks.now desk (opening_ledger config.now asks.now) result }
    {
        Book::made(alloc, config, asks, widths_of(alloc, asks), desk)
    }

    /// As `new`, but a dispatch is charged the request's cost: its queue's next and the level's virtual
    /// time go on by it. Seats are taken by the width, as ever.
    ///
    /// There is one cost for each request, 1 to 4,294,967,295, in a unit of the caller's: its width, or an
    /// estimate of its seats times the time that it holds them.
    ///
    /// # Errors
    ///
    /// As `new`.
    pub fn with_costs(
        alloc: A,
        config: &Config,
        asks: &[Ask],
        costs: &[u32],
        desk: Desk,
    ) -> Result<Book<A>, BookFault>
        requires begins { IsDeskFor asks.now desk }
        requires costs { AreCostsFor asks.now costs.now }
        ensures { MakesBook config.now asks.now desk (opening_ledger_with config.now asks.now costs.now) result }
    {
        Book::made(alloc, config, asks, Vec::from_slice(alloc, costs), desk)
    }

    // With an empty log, which has room for two events of each request. Where the costs found no memory, that is the last
    // fault.
    fn made(
        alloc: A,
        config: &Config,
        asks: &[Ask],
        costs: Result<Vec<u32, A>, AllocError>,
        desk: Desk,
    ) -> Result<Book<A>, BookFault>
        requires begins { IsDeskFor asks.now desk }
        requires charged { IfOk costs (λ v. AreCostsFor asks.now v.items) }
        ensures desk { IfOk result (λ b. b.desk ≡ desk) }
        ensures ledger { IfOk result (λ b. IsOkAnd costs (λ v. b.ledger ≡ opening_ledger_with config.now asks.now v.items)) }
        ensures stopped { IfOk result (λ b. IsStopped b.ledger b.desk.desk.knows) }
        ensures settings { OnOk result (AreSettings config.now asks.now) }
        ensures fault { IfErr result (IsFaultOf config.now asks.now) }
    {
        legal_histories_are_in_order();
        desk.is_of_a_gate();
        let dealer = match Dealer::new(config.queues, config.hand_size) {
            Ok(dealer) => dealer,
            Err(fault) => return Err(BookFault::Dealer(fault)),
        };
        let requests = asks.len();
        let book = LifeBook::of_batch(alloc, config, requests as u32, desk)?;
        Ok(Book {
            book,
            dealer,
            costs: costs?,
            hashes: hashes_of(alloc, asks)?,
            arrived: vec![in alloc; false; requests]?,
            log: Vec::with_capacity(alloc, 2 * requests)?,
        })
    }
}

// The width of each request.
fn widths_of<A: Allocator>(alloc: A, asks: &[Ask]) -> Result<Vec<u32, A>, AllocError>
    ensures { IfOk result (λ v. v.items ≡ map (λ a. a.width) asks.now) }
{
    asks.iter().map(|ask| ask.width).collect(alloc)
}

// The hash of each request.
fn hashes_of<A: Allocator>(alloc: A, asks: &[Ask]) -> Result<Vec<u64, A>, AllocError>
    ensures { IfOk result (λ v. v.items ≡ map (λ a. a.hash) asks.now) }
{
    asks.iter().map(|ask| ask.hash).collect(alloc)
}

impl<A: Allocator> Book<A> {
    /// The request arrives. In this order: it arrived before, and nothing changes; it is cancelled; the
    /// level is closed, and it is rejected; the shortest queue of its hand is full, and it is rejected;
    /// it enters that queue. A lost exchange is tried again.
    ///
    /// A rejection, and that it is cancelled, is what the Desk's last step in this call was told, and
    /// its Pass.
    pub fn arrive<R: Wait, G: Allocator>(
        &mut self,
        rt: &R,
        gate: &Gate<G>,
        pass: &mut Pass,
    ) -> Arrived
        requires own { AreOf gate.now self.old pass.old }
        requires in_line { pass.old.pass.state ≡ InLine }
        ensures same { SameBook self.old self.new }
        ensures same_request { SameRequest pass.old pass.new }
        ensures answer { AnswersArrival self.old pass.old result self.new pass.new }
        ensures after { AfterArrive self.old pass.old result self.new pass.new }
    {
        legal_histories_are_in_order();
        unsettled_logs_are_fair();
        self.book.hear(gate, pass);
        let request = pass.number() as usize;
        if self.arrived[request] {
            return Arrived::Again;
        }
        let hand = self.dealer.deal(self.hashes[request]);
        let arrived = self
            .book
            .arrive(rt, gate, pass, hand.as_slice(), self.costs[request]);
        self.book.append_newer(&mut self.log);
        self.arrived[request] = arrived.is_logged();
        arrived
    }

    /// Dispatches the chosen heads of the queues while they fit, and strikes those that are cancelled.
    /// Tells how many were dispatched. A lost exchange is tried again.
    ///
    /// On return nothing waits, or the chosen head did not fit the level word that the Desk's last
    /// step, made in this call, found.
    pub fn dispatch<R: Wait, G: Allocator>(&mut self, rt: &R, gate: &Gate<G>) -> u32
        requires own { desk_gate self.old.desk ≡ gate.now }
        ensures same { SameBook self.old self.new }
        ensures answer { Dispatches self.old result self.new }
    {
        legal_histories_are_in_order();
        unsettled_logs_are_fair();
        let count = self.book.dispatch(rt, gate);
        self.book.append_newer(&mut self.log);
        count as u32
    }

    /// Strikes the request out of its queue, where it waits and is seen cancelled. Says whether it did;
    /// else nothing changes but what the Desk knows.
    pub fn strike<G: Allocator>(&mut self, gate: &Gate<G>, request: u32) -> bool
        requires own { desk_gate self.old.desk ≡ gate.now }
        requires is_request { request < length gate.now.shape.widths }
        ensures same { SameBook self.old self.new }
        ensures answer { StrikesOut self.old request result self.new }
        ensures after { AfterStrike self.old request result self.new }
    {
        legal_histories_are_in_order();
        unsettled_logs_are_fair();
        let ticket = Ticket {
            number: u128::from(request),
        };
        let struck = self.book.strike_seen(gate, ticket);
        self.book.append_newer(&mut self.log);
        struck
    }

    /// The Desk hears the decision of the Pass's request, which is the one that the Pass was told, if it
    /// was, and answers nothing. Queues and log stay. It makes one load, with the tokens joined.
    pub fn hear<G: Allocator>(&mut self, gate: &Gate<G>, pass: &mut Pass)
        requires own { AreOf gate.now self.old pass.old }
        ensures same { SameBook self.old self.new }
        ensures same_request { SameRequest pass.old pass.new }
        ensures answer { Hears self.old pass.old self.new pass.new }
        ensures after { AfterHear pass.old self.new pass.new }
    {
        legal_histories_are_in_order();
        unsettled_logs_are_fair();
        self.book.hear(gate, pass);
    }

    /// The numbers of the log, kept beside it.
    pub fn stats(&self) -> Stats
        ensures stats { AreStats result (stats_of self.now.ledger.sizes.deck self.now.ledger.history) }
        ensures sum { result.entered ≡ result.dispatched + result.struck + result.waiting }
    {
        legal_histories_are_in_order();
        let stats = self.book.stats();
        let entered = stats.entered as u32;
        let dispatched = stats.dispatched as u32;
        let struck = stats.struck as u32;
        Stats {
            entered,
            dispatched,
            struck,
            full: stats.full as u32,
            waiting: entered - dispatched - struck,
        }
    }

    /// The log, the oldest event first.
    ///
    /// A queue's service in a stretch of it is the sum of the costs of those dispatched from it there;
    /// these are widths in a book that was made by `new`. In every stretch in which two queues are never
    /// empty, both ends included, their services differ by at most twice the largest cost. In which one
    /// queue is never empty, no other is served more than that one and so much, whether it was empty in
    /// between or not. While a request waits, its own queue is served at most the costs of those before it,
    /// and each other queue at most these and twice the largest cost.
    pub fn log(&self) -> &[Event]
        ensures { IsLogOfBook self.now result.now }
    {
        fair_histories_are_balanced();
        fair_histories_isolate();
        waits_are_bounded();
        unsettled_logs_are_fair();
        self.log.as_slice()
    }

    /// The Desk, and the log, the oldest event first. The rest is given up.
    pub fn end(self) -> (Desk, Vec<Event, A>)
        ensures desk { result.0 ≡ self.desk }
        ensures log { reverse result.1.items ≡ self.ledger.history }
        ensures kept { IsKept self.desk.desk self.ledger }
    {
        unsettled_logs_are_fair();
        let Book {
            book,
            dealer: _,
            costs: _,
            hashes: _,
            arrived: _,
            log,
        } = self;
        (book.end(), log)
    }
}
