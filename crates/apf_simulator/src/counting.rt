//! Each request that is told is counted.

ghost use Rattle.std.specs.Prelude.{◌≡◌, [], ◌∷◌, ◌++◌, List, All, IfErr, OnOk};
ghost use Rattle.apf_times.specs.declared.window.Arrival.{Arrival as ArrivalOf};
ghost use Rattle.apf_traces.specs.declared.request.TraceRequest.{TraceRequest as RequestOf};
ghost use Rattle.apf_stream.specs.declared.ended.Ended.{Ended as EndedOf};
ghost use Rattle.apf_stream.specs.States.{state_of};
ghost use Rattle.apf_rows.specs.Rows.{AreRows, HaveMet};
ghost use Rattle.apf_simulator.specs.Faults.{IsOfRun};
ghost use Rattle.apf_simulator.specs.Lanes.{IsCounted, IsTold};

use crate::fault::SimulatorFault;
use apf_rows::{Rows, every_flow_is_met};
use apf_stream::{Ended, Stream, every_end_is_in_time, every_told_request_came};

/// Who is told can be counted: each is one of those that came, in the ranges of its numbers and in time.
///
/// It runs no code of its own: the contract is the laws of streams, at this one.
pub(crate) fn are_countable(stream: &Stream, _rows: &Rows, _ends: &[Ended])
    requires { IsTold (state_of stream.now) _rows.now _ends.now }
    ensures { All (IsCounted _rows.now) _ends.now }
{
    every_told_request_came();
    every_end_is_in_time();
    every_flow_is_met();
    let _time = stream.time();
}

// Counts a request that was told.
fn count(rows: &mut Rows, ended: &Ended) -> Result<(), SimulatorFault>
    requires { IsCounted rows.old ended.now }
    ensures added { OnOk result ((told : List EndedOf) → AreRows told rows.old → AreRows (told ++ ended.now ∷ []) rows.new) }
    ensures met { (came : List (ArrivalOf RequestOf)) → HaveMet came rows.old → HaveMet came rows.new }
    ensures flows { rows.new.flows ≡ rows.old.flows }
    ensures fault { IfErr result IsOfRun }
{
    if rows.sums().requests == u64::MAX {
        return Err(SimulatorFault::TooMany);
    }
    rows.add(ended)?;
    Ok(())
}

/// Counts these requests, which were told.
pub(crate) fn count_all(rows: &mut Rows, ends: &[Ended]) -> Result<(), SimulatorFault>
    requires { All (IsCounted rows.old) ends.now }
    ensures added { OnOk result ((told : List EndedOf) → AreRows told rows.old → AreRows (told ++ ends.now) rows.new) }
    ensures met { (came : List (ArrivalOf RequestOf)) → HaveMet came rows.old → HaveMet came rows.new }
    ensures fault { IfErr result IsOfRun }
{
    for ended in ends {
        count(rows, ended)?;
    }
    Ok(())
}
