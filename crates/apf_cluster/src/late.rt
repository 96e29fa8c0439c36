//! The rows of those requests that come from a time on.

ghost use Rattle.std.specs.Prelude.{◌≡◌, ◌≤◌, ◌+◌, ◌-◌, ◌^◌, ◌<◌, [], ◌∷◌, ◌++◌, List, All, IfOk, OnOk};
ghost use Rattle.apf_times.specs.Limits.{max_wait};
ghost use Rattle.apf_times.specs.declared.window.Arrival.{Arrival as ArrivalOf};
ghost use Rattle.apf_traces.specs.declared.request.TraceRequest.{TraceRequest as RequestOf};
ghost use Rattle.apf_stream.specs.declared.ended.Ended.{Ended as EndedOf};
ghost use Rattle.apf_rows.specs.Accounts.{IsInReach};
ghost use Rattle.apf_rows.specs.Rows.{AreRows, HaveMet, IsMet};
ghost use Rattle.apf_cluster.specs.Late as spec;
ghost use Rattle.apf_cluster.specs.Runs.{IsAhead};

use crate::fault::ClusterFault;
use apf_calendar::MOST_TIME;
use apf_rows::{Rows, Table, every_flow_is_met};
use apf_simulator::Lane;
use apf_stream::{Ended, every_end_is_in_time, every_told_request_came};
use apf_times::Arrival;
use apf_traces::TraceRequest;
use std::alloc::{AllocError, Global};

/// From when on requests are counted.
#[derive(Drop)]
pub(crate) struct Late {
    /// That time, in microseconds.
    pub(crate) since: u64,
    /// Their rows, where that is not the beginning.
    pub(crate) rows: Option<Rows>,
}

// Counts a request that was told.
fn count_in(rows: &mut Rows, ended: &Ended) -> Result<(), ClusterFault>
    requires reach { IsInReach ended.now }
    requires met { IsMet rows.old ended.now.hold.asked.hash }
    ensures added { OnOk result ((told : List EndedOf) → AreRows told rows.old → AreRows (told ++ ended.now ∷ []) rows.new) }
    ensures met { (came : List (ArrivalOf RequestOf)) → HaveMet came rows.old → HaveMet came rows.new }
    ensures flows { rows.new.flows ≡ rows.old.flows }
{
    if rows.sums().requests == u64::MAX {
        return Err(ClusterFault::TooMany);
    }
    rows.add(ended)?;
    Ok(())
}

// Who was told by the last call of a lane can be counted: each is one of those that came.
//
// It runs no code of its own: the contract is the laws of streams, at this one.
fn are_countable(_lane: &Lane, _late: &Late)
    requires ahead { IsAhead _lane.now _late.now }
    requires low { _lane.now.state.slots.time ≤ max_wait }
    ensures { All (spec.CanCount _late.now) _lane.now.ends }
{
    every_told_request_came();
    every_end_is_in_time();
    every_flow_is_met();
}

impl Late {
    /// Nobody came.
    pub(crate) fn new(alloc: Global, since: u64) -> Late
        ensures since { result.since ≡ since }
        ensures nobody { spec.AreCounted [] [] result }
    {
        let rows = if since == 0 {
            None
        } else {
            Some(Rows::new(alloc))
        };
        Late { since, rows }
    }

    /// A request came.
    ///
    /// # Errors
    ///
    /// `NoMemory`.
    pub(crate) fn meet(&mut self, came: &Arrival<TraceRequest>) -> Result<(), ClusterFault>
        ensures since { self.new.since ≡ self.old.since }
        ensures counts { OnOk result (spec.CountsToo came.now self.old self.new) }
    {
        if came.item.arrives_at < self.since {
            return Ok(());
        }
        if let Some(rows) = &mut self.rows {
            rows.meet(came)?;
        }
        Ok(())
    }

    // A request was told.
    fn add(&mut self, ended: &Ended) -> Result<(), ClusterFault>
        requires can { spec.CanCount self.old ended.now }
        ensures since { self.new.since ≡ self.old.since }
        ensures counts { OnOk result (spec.CountsTold (ended.now ∷ []) self.old self.new) }
        ensures still { OnOk result ((e : EndedOf) → spec.CanCount self.old e → spec.CanCount self.new e) }
    {
        if ended.hold.asked.times.arrives_at < self.since {
            return Ok(());
        }
        if let Some(rows) = &mut self.rows {
            count_in(rows, ended)?;
        }
        Ok(())
    }

    // These were told.
    fn add_all(&mut self, ends: &[Ended]) -> Result<(), ClusterFault>
        requires can { All (spec.CanCount self.old) ends.now }
        ensures since { self.new.since ≡ self.old.since }
        ensures counts { OnOk result (spec.CountsTold ends.now self.old self.new) }
    {
        for ended in ends {
            self.add(ended)?;
        }
        Ok(())
    }

    /// Who was told by the last call of the lane is counted.
    ///
    /// # Errors
    ///
    /// `NoMemory`, `TooMany`, or `Untimely` if time went on too far.
    pub(crate) fn hear(&mut self, lane: &Lane) -> Result<(), ClusterFault>
        requires ahead { IsAhead lane.now self.old }
        ensures since { self.new.since ≡ self.old.since }
        ensures counts { OnOk result (spec.CountsTold lane.now.ends self.old self.new) }
    {
        if lane.time() > MOST_TIME {
            return Err(ClusterFault::Untimely);
        }
        are_countable(lane, self);
        self.add_all(lane.ends())?;
        Ok(())
    }

    /// What those that are counted came to, where this is what all came to.
    ///
    /// # Errors
    ///
    /// `AllocError` if memory was refused.
    pub(crate) fn close(self, whole: Table) -> Result<Table, AllocError>
        ensures { IfOk result (spec.IsTableSince self whole) }
    {
        match self.rows {
            Some(rows) => rows.close(),
            None => Ok(whole),
        }
    }
}
