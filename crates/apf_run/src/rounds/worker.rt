//! A worker of a run in rounds: its Station, and its share of the slots.

ghost use Rattle.std.specs.Prelude.{◌≡◌, ◌+◌, ◌*◌, ◌<◌, ◌≤◌, [], ◌∷◌, ◌++◌, length, slice_get, true, Some, Contains, All, IfOk, IfSome, OnOk};
ghost use Rattle.apf_gate.specs.Slots.{IsTicket, slot_of, round_of, number_of};
ghost use Rattle.apf_gate.specs.Tokens.{pass_gate};
ghost use Rattle.apf_gate.specs.Traces.{asked_in};
ghost use Rattle.apf_line.specs.Tokens.{IsDone};
ghost use Rattle.apf_level.specs.LifeArrivals.{TraceGoesOn};
ghost use Rattle.apf_line.specs.Attempts.{IsFreshPass};
ghost use Rattle.apf_session.specs.LifeOpenings.{IsFirstOf};
ghost use Rattle.apf_run.specs.RoundsPlans.{HasWidth, IsNamedIn, AreOrders};
ghost use Rattle.apf_run.specs.RoundsWorkers.{IsInRound, KeepsKnowing, IsKnown, HasAsked, IsLoadOf, IsReady, IsThrough};

use crate::rounds::newest::Newest;
use crate::rounds::operator::Operator;
use crate::rounds::plan::Plan;
use apf_files::Request;
use apf_gate::{Pass, Station, Ticket};
use apf_level::life::{Begun, Done, Executing, Level};
use apf_model::Ask;
use std::alloc::{AllocError, Global};
use std::marker::Model;
use std::sync::Wait;
use std::sync::atomic::AtomicU32;
use std::sync::atomic::Ordering::SeqCst;

/// What the requests of a run do while they execute. All workers share it.
pub trait Work: Sync {
    /// Does this many units of work for the request that executes. It is lent what says so: its seats stand.
    fn work(&self, executing: &Executing<'_>, units: u32);
}

/// A worker of the level that K names, with its share of the slots.
#[derive(Drop)]
pub struct Worker<K: Plan> {
    operator: Operator<K>,
    // the Passes of its slots, which stay in their places
    slots: Vec<Pass>,
}

impl<K: Plan> Model for Worker<K> {
    ghost use Rattle.apf_run.specs.RoundsWorkers.{Load, IsLoadOf};

    ghost Value = { Load };

    ghost view = { λ w. record { station = w.operator; slots = w.slots.items } };

    ghost invariant = { λ w. IsLoadOf K.level.gate K.requests K.rounds (record { station = w.operator; slots = w.slots.items }) };
}

/// What all workers of the level that K names share.
#[derive(Drop)]
pub struct Job<'a, K: Plan, W: Work> {
    level: &'a Level<K>,
    requests: &'a [Request],
    newest: &'a Newest<K>,
    work: &'a W,
    // how many workers came to their ends
    ended: AtomicU32,
}

impl<'a, K: Plan, W: Work> Model for Job<'a, K, W> {
    ghost use Rattle.std.specs.Prelude.{List};
    ghost use Rattle.apf_files.specs.declared.requests.Request.{Request};
    ghost use Rattle.apf_run.specs.RoundsPlans.{AreOrders};

    ghost Value = { List Request };

    ghost view = { λ j. j.requests.now };

    ghost invariant = { λ j. AreOrders K.level.gate K.requests K.rounds j.requests.now j.newest.now };
}

impl<'a, K: Plan, W: Work> Job<'a, K, W> {
    /// This work, of these requests, at the level, with a place for each slot's newest request.
    pub fn new(
        level: &'a Level<K>,
        requests: &'a [Request],
        newest: &'a Newest<K>,
        work: &'a W,
    ) -> Job<'a, K, W>
        requires { AreOrders K.level.gate K.requests K.rounds requests.now newest.now }
    {
        Job {
            level,
            requests,
            newest,
            work,
            ended: AtomicU32::new(0),
        }
    }

    /// A worker came to its end.
    pub fn end(&self) {
        self.ended.fetch_add(1, SeqCst);
    }

    /// Whether so many workers came to their ends.
    pub fn are_ended(&self, workers: u32) -> bool {
        self.ended.load(SeqCst) >= workers
    }

    /// How many requests came until now, of all rounds.
    pub fn came(&self) -> u64
        ensures { result ≤ length K.requests * K.rounds }
    {
        self.newest.came()
    }

    /// How many requests wait now. It takes the level's lock.
    pub fn waiting<R: Wait>(&self, rt: &R) -> u64 {
        let stats = self.level.lock(rt).stats();
        stats
            .entered
            .saturating_sub(stats.dispatched)
            .saturating_sub(stats.struck)
    }

    // What is asked in the slot.
    fn asked(&self, slot: u32) -> Request
        requires { slot < K.level.gate.shape.slots }
        ensures is { slice_get K.requests slot ≡ Some result }
        ensures planned { Contains K.requests result }
        ensures width { HasWidth result }
    {
        self.requests[slot as usize]
    }

    // The request that holds the slot that this one names, if it names one and a request of that came.
    fn named_by(&self, request: Request) -> Option<Ticket>
        requires planned { Contains K.requests request }
        ensures is_request { IfSome result (λ t. IsTicket K.level.gate.shape t.number) }
        ensures named { IfSome result (λ t. IsNamedIn K.requests K.rounds t.number) }
    {
        let other = request.cancels?;
        if other as usize >= self.requests.len() {
            return None;
        }
        self.newest
            .ticket(other, self.requests[other as usize].width)
    }

    // The slot goes on to its request of this round, and its worker notes that.
    fn next(&self, slot: &mut Pass, request: Request, round: u32)
        requires own { pass_gate slot.old ≡ K.level.gate }
        requires done { IsDone slot.old }
        requires width { HasWidth request }
        requires before { round_of slot.old.pass.number + 1 ≡ round }
        requires in_rounds { round ≤ K.rounds }
        ensures fresh { IsFreshPass K.level.gate slot.new }
        ensures number { slot.new.pass.number ≡ number_of (slot_of slot.old.pass.number) round request.width }
        ensures asked { asked_in slot.new.pass.knows.trace slot.new.pass.number ≡ Some (record { hash = request.hash; cost = request.width }) }
        ensures goes_on { TraceGoesOn slot.old slot.new }
    {
        let ask = Ask {
            width: request.width,
            hash: request.hash,
        };
        if !self.level.renew_slot(slot, ask, request.width) {
            // a slot has more numbers than a run has rounds
            unreachable!();
        }
        self.newest.note(slot.ticket().slot(), round);
    }
}

// Closes the level, if the request says so.
fn close_as_said<K: Plan>(level: &Level<K>, operator: &mut Operator<K>, request: Request)
    requires planned { Contains K.requests request }
    ensures closed { request.closes ≡ true → operator.new.station.knows.saw_closed ≡ true }
    ensures knows { KeepsKnowing operator.old operator.new }
{
    if request.closes {
        operator.close(level);
    }
}

// Waits until the slot's request is decided. If it executes, it does its work, cancels and strikes whoever holds the slot
// that it names, gives its seats back, and dispatches where requests wait.
fn finish<K: Plan, W: Work, R: Wait>(
    rt: &R,
    job: &Job<'_, K, W>,
    operator: &mut Operator<K>,
    request: Request,
    slot: &mut Pass,
)
    requires fresh { IsFreshPass K.level.gate slot.old }
    requires planned { Contains K.requests request }
    requires width { HasWidth request }
    requires asked { asked_in slot.old.pass.knows.trace slot.old.pass.number ≡ Some (record { hash = request.hash; cost = request.width }) }
    ensures own { pass_gate slot.new ≡ K.level.gate }
    ensures done { IsDone slot.new }
    ensures same { slot.new.pass.number ≡ slot.old.pass.number }
    ensures goes_on { TraceGoesOn slot.old slot.new }
    ensures knows { KeepsKnowing operator.old operator.new }
{
    let (begun, _entered) = job
        .level
        .arrive_and_wait(rt, slot, request.hash, request.width);
    match begun {
        Begun::Run => {
            job.work.work(&Executing::of(slot), request.work);
            if let Some(other) = job.named_by(request) {
                let (_answer, owed) = operator.cancel(job.level, other);
                job.level.strike_if_owed(rt, owed);
            }
            let owes = job.level.give_back(slot);
            job.level.dispatch_if_owed(rt, owes);
        }
        Begun::Over(_decision) => {}
        Begun::Waits => unreachable!(),
    }
}

// Brings the slot's request of this round to its end, and hears how it was decided. It closes the level first, if the
// request says so.
fn handle<K: Plan, W: Work, R: Wait>(
    rt: &R,
    job: &Job<'_, K, W>,
    operator: &mut Operator<K>,
    slot: &mut Pass,
    round: u32,
)
    requires own { pass_gate slot.old ≡ K.level.gate }
    requires done { IsDone slot.old }
    requires before { round_of slot.old.pass.number + 1 ≡ round }
    requires in_rounds { round ≤ K.rounds }
    requires known { IsKnown K.requests operator.old slot.old }
    requires asked { HasAsked K.requests slot.old }
    ensures own { pass_gate slot.new ≡ K.level.gate }
    ensures done { IsDone slot.new }
    ensures round { round_of slot.new.pass.number ≡ round }
    ensures known { IsKnown K.requests operator.new slot.new }
    ensures asked { HasAsked K.requests slot.new }
    ensures knows { KeepsKnowing operator.old operator.new }
{
    let request = job.asked(slot.ticket().slot());
    close_as_said(job.level, operator, request);
    job.next(slot, request, round);
    let ticket = slot.ticket();
    finish(rt, job, operator, request, slot);
    operator.hear(rt, job.level, ticket);
}

impl<K: Plan> Worker<K> {
    /// A worker with this Station, and memory for this many slots.
    ///
    /// # Errors
    ///
    /// `AllocError` if memory was refused.
    pub fn new(alloc: Global, operator: Operator<K>, share: usize) -> Result<Worker<K>, AllocError>
        ensures { IfOk result (λ w. w.slots ≡ []) }
    {
        Ok(Worker {
            operator,
            slots: Vec::with_capacity(alloc, share)?,
        })
    }

    /// Gives the worker a slot, which goes behind those that it has.
    ///
    /// # Errors
    ///
    /// `AllocError` if memory was refused.
    pub fn add(&mut self, slot: Done) -> Result<(), AllocError>
        requires first { IsFirstOf K.level.gate slot }
        ensures slots { OnOk result (self.new.slots ≡ self.old.slots ++ slot ∷ []) }
    {
        self.slots.push(slot.into_pass())?;
        Ok(())
    }

    // Goes through its slots once more, which it did this many times before.
    fn go_round<W: Work, R: Wait>(self, rt: &R, job: &Job<'_, K, W>, before: u32) -> Worker<K>
        requires before { All (IsInRound before) self.slots }
        requires in_rounds { before < K.rounds }
        requires fits { before < u32.MAX }
        ensures count { length result.slots ≡ length self.slots }
        ensures after { All (IsInRound (before + 1)) result.slots }
    {
        let Worker {
            mut operator,
            mut slots,
        } = self;
        for place in 0..slots.len() {
            handle(rt, job, &mut operator, &mut slots[place], before + 1);
            operator.is_faithful();
        }
        Worker { operator, slots }
    }

    /// Goes through its slots this many times, in their order each time.
    pub fn work<W: Work, R: Wait>(self, rt: &R, job: &Job<'_, K, W>, rounds: u32) -> Worker<K>
        requires ready { IsReady self }
        requires rounds { rounds ≤ K.rounds }
        ensures { IsThrough rounds (length self.slots) result }
    {
        let mut worker = self;
        for before in 0..rounds {
            worker = worker.go_round(rt, job, before);
        }
        worker
    }

    /// How many slots it has.
    pub fn share(&self) -> usize
        ensures { result ≡ length self.now.slots }
    {
        self.slots.len()
    }

    /// The Station, and the Passes of the slots.
    pub fn into_parts(self) -> (Station, Vec<Pass>)
        ensures station { result.0 ≡ self.station }
        ensures slots { result.1.items ≡ self.slots }
        ensures load { IsLoadOf K.level.gate K.requests K.rounds self }
    {
        let Worker { operator, slots } = self;
        (operator.into_station(), slots)
    }
}
