//! What is true of every book.

ghost use Rattle.std.specs.Prelude.{◌≡◌, List, reverse};
ghost use Rattle.apf_history.specs.declared.events.Event.{Event};
ghost use Rattle.apf_gate.specs.declared.record.DeskRecord.{DeskRecord};
ghost use Rattle.apf_gate.specs.Tokens.{GateId, DeskToken, PassToken, StationToken, desk_gate};
ghost use Rattle.apf_gate.specs.Ends.{WordsView, EndsWith};
ghost use Rattle.apf_book.specs.LedgerView.{LedgerView, IsLogOf, AreSmall};
ghost use Rattle.apf_book.specs.BookView.{IsKept};
ghost use Rattle.apf_book.specs.Laws.{DeskAgreesWithLog, LogAgrees};
ghost use Rattle.apf_book.specs.Dispatched.{AreDispatchesBounded};
ghost use Rattle.apf_book.specs.Stopped.{NoRequestIsForgotten};

use crate::histories::{legal_histories_are_in_order, waits_are_bounded};
use apf_gate::{every_end_agrees, no_dispatch_is_lost};

/// The Desk and the log of every book say the same, whenever no call of the book runs: which requests
/// wait, were dispatched, and were refused as full; and the Desk holds nothing, and was told of each
/// struck request that it is cancelled.
///
/// It runs no code: the contract is the law.
pub fn every_book_is_kept()
    ensures { (desk : DeskRecord) (v : LedgerView) → IsKept desk v → DeskAgreesWithLog desk v }
{
    legal_histories_are_in_order();
}

/// The log of every book whose gate ended agrees with the decisions that the gate's words say.
///
/// It runs no code: the contract is the law.
pub fn every_ended_book_agrees()
    ensures { (gate : GateId) (desk : DeskToken) (v : LedgerView) (passes : List PassToken) (stations : List StationToken) (words : WordsView)
        → desk_gate desk ≡ gate → IsKept desk.desk v → EndsWith gate desk.desk passes stations words → LogAgrees gate v passes stations words }
{
    legal_histories_are_in_order();
    every_book_is_kept();
    every_end_agrees();
}

/// No chosen request is forgotten: of every state of a gate whose Desk's book is stopped.
///
/// Nothing waits; or the chosen head does not fit the level word; or others gave seats back or set the limit since
/// the Desk found that it does not fit. Each of them found requests waiting, and so owes a dispatch. It says nothing of a
/// request behind the chosen one, which may fit and wait.
///
/// It runs no code: the contract is the law.
pub fn no_request_is_forgotten()
    ensures { NoRequestIsForgotten }
{
    legal_histories_are_in_order();
    no_dispatch_is_lost();
}

/// The wait of every request that was dispatched was bounded, in the log of every book and of every report.
///
/// Between its Enter and its Dispatch its own queue was charged at most the costs of those that stood before it, and
/// each other queue at most these and twice the largest cost. Where no costs were given, a cost is a width in seats.
///
/// It runs no code: the contract is the law.
pub fn every_dispatched_wait_is_bounded()
    ensures { (v : LedgerView) (log : List Event) → IsLogOf v → reverse log ≡ v.history → AreDispatchesBounded v.sizes.deck v.costs log }
{
    legal_histories_are_in_order();
    waits_are_bounded();
}

/// In the log of every book no number of virtual time and no finish is above 10,000 times the largest cost. Where no costs
/// were given, none is above 200,000,000 seats.
///
/// It runs no code: the contract is the law.
pub fn no_virtual_time_is_large()
    ensures { (v : LedgerView) → IsLogOf v → AreSmall v }
{
    legal_histories_are_in_order();
}
