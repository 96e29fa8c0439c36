//! A level with what its requests came to.

ghost use Rattle.std.specs.Prelude.{◌≡◌, ◌↔◌, ◌+◌, ◌-◌, ◌^◌, ◌<◌, ◌≤◌, [], ◌∷◌, ◌++◌, List, length, count_by, IfSome, IfOk, IfErr, IsTrue, OnOk};
ghost use Rattle.apf_book.specs.Life.{LifeView};
ghost use Rattle.apf_book.specs.LifeBook.{IsLifeKept};
ghost use Rattle.apf_model.specs.Outcome.{is_enter, is_dispatch, is_strike};
ghost use Rattle.apf_words.specs.Limits.{max_limit};
ghost use Rattle.apf_times.specs.Limits.{max_patience, max_wait};
ghost use Rattle.apf_times.specs.declared.window.Arrival.{Arrival as ArrivalOf};
ghost use Rattle.apf_traces.specs.declared.request.TraceRequest.{TraceRequest as RequestOf};
ghost use Rattle.apf_traces.specs.TraceValue.{IsRequestInRange};
ghost use Rattle.apf_stream.specs.declared.deed.NewLimit.{NewLimit as NewLimitOf};
ghost use Rattle.apf_stream.specs.declared.ended.Ended.{Ended as EndedOf};
ghost use Rattle.apf_stream.specs.Runs.{HasRun};
ghost use Rattle.apf_stream.specs.States.{IsAsked, State, state_of};
ghost use Rattle.apf_stream.specs.Ties.{AreTied};
ghost use Rattle.apf_calendar.specs.Guests.{NothingBy};
ghost use Rattle.apf_local.specs.Levels.{EndsFrom};
ghost use Rattle.apf_local.specs.Openings.{CanOpen, IsOpenFault};
ghost use Rattle.apf_rows.specs.Tables.{IsTable};
ghost use Rattle.apf_watched.specs.Followed.{AreSidesIn};
ghost use Rattle.apf_simulator.specs.Books.{AreOfBook};
ghost use Rattle.apf_simulator.specs.Faults.{IsOfRun, RefusesArrival, RefusesAsked, RefusesClose, RefusesEnd};
ghost use Rattle.apf_simulator.specs.Lanes.{GoesOn, GoesOnUnder, IsLane, IsLaneUnder, IsLived, IsOpening, most_slots};

use crate::asked::asked_of;
use crate::counting::{are_countable, count_all};
use crate::fault::SimulatorFault;
use apf_bound::Sides;
use apf_calendar::MOST_TIME;
use apf_charges::ChargedBy;
use apf_gate::Counts;
use apf_line::Report;
use apf_local::OpenFault;
use apf_model::Config;
use apf_rows::{Rows, Sums, Table};
use apf_stream::{Asked, Ended, NewLimit, Stream, every_run_goes_on};
use apf_times::Arrival;
use apf_traces::TraceRequest;
use std::alloc::{AllocError, Global};
use std::marker::Model;

/// How many requests may be there at once, at most.
pub const MOST_SLOTS: u32 = 10_000;

/// A level that requests come to, with what they came to.
#[derive(Drop)]
pub struct Lane {
    stream: Stream,
    rows: Rows,
    // who was told by the last call
    ends: Vec<Ended>,
    // how many came
    came: u64,
}

impl Model for Lane {
    ghost use Rattle.apf_stream.specs.States.{state_of};
    ghost use Rattle.apf_simulator.specs.Lanes.{LaneView};

    ghost Value = { LaneView };

    ghost view = { λ l. record { state = state_of l.stream; rows = l.rows; ends = l.ends.items; came = l.came } };
}

// The request arrives, if a slot is free then.
fn arrive(stream: &mut Stream, asked: Asked, ends: &mut Vec<Ended>) -> Result<(), SimulatorFault>
    requires tied { AreTied (state_of stream.old) }
    requires range { IsAsked asked }
    requires forward { stream.old.calendar.time ≤ asked.times.arrives_at }
    ensures tied { OnOk result (AreTied (state_of stream.new)) }
    ensures run { OnOk result (HasRun (asked ∷ []) (state_of stream.old) ends.old.items (state_of stream.new) ends.new.items) }
    ensures forward { OnOk result (stream.new.calendar.time ≤ asked.times.arrives_at) }
    ensures fault { IfErr result (RefusesAsked asked (state_of stream.old) ends.old.items) }
{
    match stream.arrive(asked, ends)? {
        true => Ok(()),
        false => Err(SimulatorFault::Crowded(asked.line, asked.times.arrives_at)),
    }
}

// Whether just as many requests were executed, rejected and cancelled by the rows as by the book.
fn are_of_book(sums: &Sums, counts: &Counts) -> bool
    ensures { IsTrue result ↔ AreOfBook sums.now counts.now }
{
    let full = u128::from(counts.queue_full);
    let closed = u128::from(counts.closed);
    let without_room = u128::from(counts.concurrency_limit);
    sums.executed == counts.executed
        && u128::from(sums.rejected) == full + closed + without_room
        && sums.cancelled == counts.cancelled
}

impl Lane {
    /// The level of this config, to which nobody came, for as many requests at once as it has slots, 1 to 10,000. A request that
    /// waits as long as `patience` in microseconds gives up, or never at 0.
    ///
    /// # Errors
    ///
    /// The level's fault, or `NoMemory`. Then everything is given up.
    pub fn open(
        alloc: Global,
        config: &Config,
        slots: u32,
        patience: u64,
        by: ChargedBy,
    ) -> Result<Lane, OpenFault>
        requires some { 1 ≤ slots }
        requires few { slots ≤ most_slots }
        requires patience { patience ≤ max_patience }
        ensures opened { IfOk result (λ l. IsOpening config.now slots patience by l.state) }
        ensures nobody { IfOk result (λ l. IsLane l.state [] [] l) }
        ensures time { IfOk result (λ l. l.state.slots.time ≡ 0) }
        ensures settings { OnOk result (CanOpen config.now slots) }
        ensures fault { IfErr result (IsOpenFault config.now slots) }
    {
        let stream = Stream::open(alloc, config, slots, patience, by)?;
        Ok(Lane {
            stream,
            rows: Rows::new(alloc),
            ends: Vec::new(alloc),
            came: 0,
        })
    }

    /// Keeps both sides of the bound from now on, if nobody came yet.
    ///
    /// # Errors
    ///
    /// `AllocError` if memory was refused. Then they are not kept.
    pub fn watch(&mut self, alloc: Global) -> Result<(), AllocError>
        ensures { self.new ≡ self.old }
    {
        self.stream.watch(alloc)
    }

    /// Both sides of the bound of all that was carried out, if they are kept.
    pub fn sides(&self) -> Option<Sides>
        ensures { IfSome result (AreSidesIn self.now.state.level) }
    {
        self.stream.sides()
    }

    /// When the last request was over that was told, in microseconds, or 0.
    pub fn last(&self) -> u64
        ensures { result ≡ self.now.rows.all.sums.last }
    {
        self.rows.sums().last
    }

    /// How many requests came.
    pub fn came(&self) -> u64
        ensures { result ≡ self.now.came }
    {
        self.came
    }

    /// The time of what was carried out last, in microseconds.
    pub fn time(&self) -> u64
        ensures { result ≡ self.now.state.slots.time }
    {
        self.stream.time()
    }

    /// How many requests wait in the queues.
    pub fn waiting(&self) -> u64
        ensures { (v : LifeView) → IsLifeKept v self.now.state.level.owner.book → length v.history < 2 ^ 64
            → result ≡ count_by is_enter v.history - count_by is_dispatch v.history - count_by is_strike v.history }
    {
        self.stream.waiting()
    }

    /// Who was told by the last call.
    pub fn ends(&self) -> &[Ended]
        ensures { result.now ≡ self.now.ends }
    {
        self.ends.as_slice()
    }

    /// A request arrives, no earlier than anything that was carried out. Before that all is carried out that is due up to its
    /// arrival. Whoever is over is counted.
    ///
    /// # Errors
    ///
    /// `Crowded` if all slots are taken then, `NoMemory`, `TooFar` or `TooMany`. Then nothing is known of the lane but that it
    /// can be let go.
    pub fn arrive(&mut self, came: &Arrival<TraceRequest>) -> Result<(), SimulatorFault>
        requires range { IsRequestInRange came.now.item }
        requires forward { self.old.state.slots.time ≤ came.now.item.arrives_at }
        requires lived { IsLived self.old }
        ensures goes { OnOk result (GoesOn (came.now ∷ []) self.old self.new) }
        ensures time { OnOk result (self.new.state.slots.time ≤ came.now.item.arrives_at) }

        // All slots are taken then only where it is so, and no other fault is told.
        ensures fault { IfErr result (RefusesArrival came.now self.old) }
    {
        every_run_goes_on();
        if self.came == u64::MAX {
            return Err(SimulatorFault::TooMany);
        }
        let asked = asked_of(came);
        self.ends.clear();
        self.rows.meet(came)?;
        arrive(&mut self.stream, asked, &mut self.ends)?;
        are_countable(&self.stream, &self.rows, self.ends.as_slice());
        count_all(&mut self.rows, self.ends.as_slice())?;
        self.came += 1;
        Ok(())
    }

    /// Carries out all that is due up to this time, in microseconds. Whoever is over is counted.
    ///
    /// # Errors
    ///
    /// `NoMemory`, `TooFar` or `TooMany`. Then nothing is known of the lane but that it can be let go.
    pub fn advance(&mut self, by: u64) -> Result<(), SimulatorFault>
        requires lived { IsLived self.old }
        ensures goes { OnOk result (GoesOn [] self.old self.new) }
        ensures over { OnOk result (NothingBy self.new.state.slots by) }
        ensures in_time { OnOk result (self.old.state.slots.time ≤ by → self.new.state.slots.time ≤ by) }
        ensures fault { IfErr result IsOfRun }
    {
        every_run_goes_on();
        self.ends.clear();
        self.stream.advance(by, &mut self.ends)?;
        are_countable(&self.stream, &self.rows, self.ends.as_slice());
        count_all(&mut self.rows, self.ends.as_slice())?;
        Ok(())
    }

    /// The limit is set, no earlier than anything that was carried out. Before that all is carried out that is due up to then.
    /// Behind it who waits and fits now is dispatched. Whoever is over is counted.
    ///
    /// # Errors
    ///
    /// Those of `advance`. Then nothing is known of the lane but that it can be let go.
    pub fn set_limit(&mut self, new: NewLimit) -> Result<(), SimulatorFault>
        requires lived { IsLived self.old }
        requires low { new.at ≤ max_wait }
        requires some_limit { 1 ≤ new.limit }
        requires small_limit { new.limit ≤ max_limit }
        requires forward { self.old.state.slots.time ≤ new.at }
        ensures goes { OnOk result (GoesOnUnder new self.old self.new) }
        ensures time { OnOk result (self.new.state.slots.time ≡ new.at) }
        ensures fault { IfErr result IsOfRun }
    {
        every_run_goes_on();
        self.ends.clear();
        self.stream.set_limit(new, &mut self.ends)?;
        are_countable(&self.stream, &self.rows, self.ends.as_slice());
        count_all(&mut self.rows, self.ends.as_slice())?;
        Ok(())
    }

    /// Nobody arrives any more: all that is due is carried out. Whoever is over is counted, so that all are.
    ///
    /// # Errors
    ///
    /// `NoMemory`, `TooFar` or `TooMany`, or `StillWaits` if somebody is not over. Then nothing is known of the lane but that it
    /// can be let go.
    pub fn finish(&mut self) -> Result<(), SimulatorFault>
        requires lived { IsLived self.old }
        ensures goes { OnOk result (GoesOn [] self.old self.new) }
        ensures over { OnOk result (NothingBy self.new.state.slots max_wait) }
        ensures all { OnOk result (self.new.rows.all.sums.requests ≡ self.new.came) }

        // Somebody is not over only where it is so, and no other fault is told.
        ensures fault { IfErr result (RefusesEnd self.old) }
    {
        self.advance(MOST_TIME)?;
        if self.rows.sums().requests != self.came {
            return Err(SimulatorFault::StillWaits);
        }
        Ok(())
    }

    /// Ends the level: what all flows came to, and what the level told. Just as many requests were executed, rejected and cancelled
    /// by the one as by the other.
    ///
    /// # Errors
    ///
    /// `NoMemory`, or `OtherBook` if the two have other numbers. Then everything is given up.
    pub fn close(self, alloc: Global) -> Result<(Table, Report), SimulatorFault>
        ensures table { IfOk result (λ o. (under : List NewLimitOf) (opening : State) (came : List (ArrivalOf RequestOf)) (told : List EndedOf) → IsLaneUnder under opening came told self → IsTable came told o.0) }
        ensures report { IfOk result (λ o. EndsFrom self.state.level o.1) }
        ensures book { IfOk result (λ o. AreOfBook o.0.all.sums o.1.words.counts) }

        // The two have other numbers only where it is so, and no other fault is told.
        ensures fault { IfErr result (RefusesClose self) }
    {
        let Lane {
            stream,
            rows,
            ends: _,
            came: _,
        } = self;
        let table = rows.close()?;
        let report = stream.end(alloc)?;
        if !are_of_book(&table.all.sums, &report.words.counts()) {
            return Err(SimulatorFault::OtherBook);
        }
        Ok((table, report))
    }
}
