//! The laws: of legal histories, closed to searches, and of both sides of the bound.

ghost use Rattle.std.specs.Prelude.{◌+◌, ◌*◌, ◌≤◌, ℕ, List, IfSome};
ghost use Rattle.apf_history.specs.declared.events.LogEntry.{LogEntry};
ghost use Rattle.apf_history.specs.Charged.{IsSettled, AreMeasures};
ghost use Rattle.apf_bound.specs.declared.bound.Sides.{Sides};
ghost use Rattle.apf_bound.specs.Bounds.{AreSides};
ghost use Rattle.apf_bound.specs.Kept.{CountLaw};

use apf_history::{every_legal_history_is_in_order, every_settled_log_isolates};

// As many entered a queue as left it, or wait in it.
pub(crate) fn histories_are_counted()
    ensures { CountLaw }
{
    every_legal_history_is_in_order();
}

/// Both sides of every settled log meet the bound: no queue came further ahead of one that was never empty than twice the
/// largest cost of those that entered a queue, and three times what requests that execute were misjudged by.
///
/// It runs no code: the contract is the law.
pub fn every_bound_is_met()
    ensures { (queues : ℕ) (costs : List ℕ) (measure : ℕ → ℕ) (hands : ℕ → List ℕ) (limit : ℕ) (l : List LogEntry) (s : Sides)
        → IsSettled queues costs hands limit l → AreMeasures measure l → AreSides queues costs measure l s
        → IfSome s.furthest (λ f. f.ahead ≤ 2 * s.largest_cost + 3 * s.slack) }
{
    every_settled_log_isolates();
}
