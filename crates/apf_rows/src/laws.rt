//! What is true of all rows.

ghost use Rattle.std.specs.Prelude.{ℕ, List, Contains};
ghost use Rattle.std.specs.List.{AllByRecursion};
ghost use Rattle.apf_times.specs.declared.window.Arrival.{Arrival};
ghost use Rattle.apf_traces.specs.declared.request.TraceRequest.{TraceRequest};
ghost use Rattle.apf_stream.specs.declared.ended.Ended.{Ended};
ghost use Rattle.apf_stream.specs.Runs.{IsHonoured};
ghost use Rattle.apf_rows.specs.Accounts.{AreSums};
ghost use Rattle.apf_rows.specs.Areas.{AreAreas};
ghost use Rattle.apf_rows.specs.Columns.{AddUp};
ghost use Rattle.apf_rows.specs.declared.sums.Sums.{Sums};
ghost use Rattle.apf_rows.specs.declared.table.Table.{Table};
ghost use Rattle.apf_rows.specs.Rows.{HaveMet, IsMet, RowsView};
ghost use Rattle.apf_rows.specs.Tables.{IsTable};

/// A flow that came has a row, or there is no room for more.
///
/// It runs no code: the contract is the law.
pub fn every_flow_is_met()
    ensures { (came : List (Arrival TraceRequest)) (v : RowsView) (x : Arrival TraceRequest) → HaveMet came v → Contains came x → IsMet v x.item.hash }
{}

/// How long all requests waited is the area under the number of those that wait, and their seat-time that under the seats in
/// use: of requests that get their seats within a patience, or none (`every_request_is_honoured`).
///
/// It runs no code: the contract is the law.
pub fn every_sum_is_an_area()
    ensures { (patience : ℕ) (told : List Ended) (s : Sums) → AllByRecursion (IsHonoured patience) told → AreSums told s → AreAreas told s }
{}

/// Each column of a table sums to the number of the whole: each request is in one line.
///
/// It runs no code: the contract is the law.
pub fn every_table_adds_up()
    ensures { (came : List (Arrival TraceRequest)) (told : List Ended) (t : Table) → IsTable came told t → AddUp t }
{}
