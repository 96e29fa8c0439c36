//! All flows, each request in one row.

ghost use Rattle.std.specs.Prelude.{◌≡◌, ◌+◌, ◌-◌, ◌^◌, ◌<◌, [], ◌∷◌, ◌++◌, List, IfOk, OnOk, false, length};
ghost use Rattle.apf_times.specs.declared.window.Arrival.{Arrival as ArrivalOf};
ghost use Rattle.apf_traces.specs.declared.request.TraceRequest.{TraceRequest as RequestOf};
ghost use Rattle.apf_stream.specs.declared.ended.Ended.{Ended as EndedOf};
ghost use Rattle.apf_rows.specs.Accounts.{IsInReach};
ghost use Rattle.apf_rows.specs.Tables.{IsTable};
ghost use Rattle.apf_rows.specs.Rows.{AreRows, HaveMet, IsMet, is_among, max_flows};

use crate::account::Account;
use crate::row::Row;
use crate::sums::Sums;
use crate::table::Table;
use apf_stream::Ended;
use apf_times::Arrival;
use apf_traces::TraceRequest;
use indexmap::IndexSet;
use std::alloc::{AllocError, Global};
use std::marker::Model;

/// The most flows that have a row of their own.
pub const MOST_FLOWS: usize = 100_000;

/// What the requests of each flow came to. The first 100,000 flows that come have a row each, and all others have one
/// together.
#[derive(Drop)]
pub struct Rows {
    alloc: Global,
    flows: IndexSet<u64>,
    rows: Vec<Row>,
    others: Account,
    all: Account,
}

impl Model for Rows {
    ghost use Rattle.apf_rows.specs.Rows.{AreRowsKept, RowsView};

    ghost Value = { RowsView };

    ghost view = { λ r. record { flows = r.flows.keys; rows = r.rows.items; others = r.others; all = r.all } };

    ghost invariant = { λ r. AreRowsKept (record { flows = r.flows.keys; rows = r.rows.items; others = r.others; all = r.all }) };
}

impl Rows {
    /// Nobody came, and nobody was told. No memory is taken.
    pub fn new(alloc: Global) -> Rows
        ensures met { HaveMet [] result }
        ensures rows { AreRows [] result }
    {
        Rows {
            alloc,
            flows: IndexSet::new(alloc),
            rows: Vec::new(alloc),
            others: Account::new(alloc),
            all: Account::new(alloc),
        }
    }

    /// The counts and sums of all requests that were told.
    pub fn sums(&self) -> Sums
        ensures { result ≡ self.now.all.sums }
    {
        self.all.sums()
    }

    // The first request of a flow came, which has no row, where there is room for one.
    fn begin(&mut self, came: &Arrival<TraceRequest>) -> Result<(), AllocError>
        requires absent { is_among self.old.flows came.now.item.hash ≡ false }
        requires room { length self.old.flows < max_flows }
        ensures met { OnOk result ((before : List (ArrivalOf RequestOf)) → HaveMet before self.old → HaveMet (before ++ came.now ∷ []) self.new) }
        ensures rows { (told : List EndedOf) → AreRows told self.old → AreRows told self.new }
        ensures all { self.new.all ≡ self.old.all }
    {
        self.rows.reserve(1)?;
        let row = Row::of(self.alloc, came)?;
        self.flows.insert(came.item.hash)?;
        self.rows.push(row)?;
        Ok(())
    }

    /// A request came. The first one of a flow gives it a row, while there is room. The names of a flow are those of its lowest
    /// line.
    ///
    /// # Errors
    ///
    /// `AllocError` if memory was refused. Then no request is counted otherwise than before.
    pub fn meet(&mut self, came: &Arrival<TraceRequest>) -> Result<(), AllocError>
        ensures met { OnOk result ((before : List (ArrivalOf RequestOf)) → HaveMet before self.old → HaveMet (before ++ came.now ∷ []) self.new) }
        ensures rows { (told : List EndedOf) → AreRows told self.old → AreRows told self.new }
        ensures all { self.new.all ≡ self.old.all }
    {
        match self.flows.get_index_of(&came.item.hash) {
            Some(place) => {
                self.rows[place].meet(came)?;
                Ok(())
            }
            None if self.flows.len() < MOST_FLOWS => self.begin(came),
            None => Ok(()),
        }
    }

    /// A request was told, whose flow came. There are at most 2^64 - 1.
    ///
    /// # Errors
    ///
    /// `AllocError` if memory was refused. Then nothing is known of the rows but that they can be let go.
    pub fn add(&mut self, ended: &Ended) -> Result<(), AllocError>
        requires reach { IsInReach ended.now }
        requires met { IsMet self.old ended.now.hold.asked.hash }
        requires room { self.old.all.sums.requests < 2 ^ 64 - 1 }
        ensures added { OnOk result ((told : List EndedOf) → AreRows told self.old → AreRows (told ++ ended.now ∷ []) self.new) }
        ensures met { (came : List (ArrivalOf RequestOf)) → HaveMet came self.old → HaveMet came self.new }
        ensures flows { self.new.flows ≡ self.old.flows }
        ensures all { OnOk result (self.new.all.sums.requests ≡ self.old.all.sums.requests + 1) }
    {
        self.all.add(ended)?;
        match self.flows.get_index_of(&ended.hold.asked.hash) {
            Some(place) => self.rows[place].account.add(ended)?,
            None => self.others.add(ended)?,
        }
        Ok(())
    }

    /// What all flows came to, in numbers.
    ///
    /// # Errors
    ///
    /// `AllocError` if memory was refused.
    pub fn close(self) -> Result<Table, AllocError>
        ensures { IfOk result (λ t. (came : List (ArrivalOf RequestOf)) (told : List EndedOf) → HaveMet came self → AreRows told self → IsTable came told t) }
    {
        let Rows {
            alloc,
            flows: _,
            rows,
            mut others,
            mut all,
        } = self;
        let others = others.figures();
        let all = all.figures();
        Ok(Table::of(alloc, rows, others, all)?)
    }
}
