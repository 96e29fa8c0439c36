//! What is true of every report.

ghost use Rattle.std.specs.Prelude.{◌≡◌, ℕ, List, Option, length, reverse};
ghost use Rattle.apf_words.specs.Level.{Level};
ghost use Rattle.apf_words.specs.declared.decision.Decision.{Decision};
ghost use Rattle.apf_history.specs.declared.events.Event.{Event};
ghost use Rattle.apf_gate.specs.Gauges.{IsShape};
ghost use Rattle.apf_gate.specs.Tokens.{PassToken, StationToken};
ghost use Rattle.apf_book.specs.Dispatched.{AreDispatchesBounded};
ghost use Rattle.apf_level.specs.declared.report.Counts.{Counts};
ghost use Rattle.apf_level.specs.Levels.{LevelId};
ghost use Rattle.apf_level.specs.Promises.{KeepsPromises};
ghost use Rattle.apf_level.specs.Reports.{AreSums, Ended};

use apf_book::every_dispatched_wait_is_bounded;
use apf_history::{
    every_fair_history_isolates, every_fair_history_stands, every_legal_history_is_in_order,
    every_settled_log_balances, every_settled_log_isolates, every_settled_wait_is_bounded,
    every_unsettled_log_is_fair, every_wait_is_bounded,
};
use apf_model::every_schedule_is_safe;

/// The wait of every request that was dispatched was bounded, in the log of every report.
///
/// Between its Enter and its Dispatch its own queue was charged at most the costs of those that stood before it, and
/// each other queue at most these and twice the largest cost. Where no costs were given, a cost is a width in seats.
///
/// It runs no code: the contract is the law.
pub fn every_reported_wait_is_bounded()
    ensures { (k : LevelId) (level : Level) (decision : ℕ → Option Decision) (log : List Event) (passes : List PassToken) (stations : List StationToken)
        → Ended k level decision (reverse log) passes stations → AreDispatchesBounded k.opening.sizes.deck k.opening.costs log }
{
    every_dispatched_wait_is_bounded();
}

/// Every report keeps the promises: of any batch that ended, whose gate is of a shape that a gate may have, and of the
/// steps that made its words and its log.
///
/// They are those of `apf_line::every_report_keeps_the_promises`, word for word.
///
/// It runs no code: the contract is the law.
pub fn every_report_keeps_the_promises()
    ensures { (k : LevelId) (level : Level) (decision : ℕ → Option Decision) (h : List Event) (passes : List PassToken) (stations : List StationToken) (counts : Counts)
        → IsShape k.gate.shape → length k.opening.costs ≡ length k.gate.shape.widths → Ended k level decision h passes stations → AreSums counts decision (length k.gate.shape.widths)
        → KeepsPromises k level h passes stations counts }
{
    every_schedule_is_safe();
    every_legal_history_is_in_order();
    every_fair_history_stands();
    every_fair_history_isolates();
    every_wait_is_bounded();
    every_unsettled_log_is_fair();
    every_settled_log_balances();
    every_settled_log_isolates();
    every_settled_wait_is_bounded();
}
