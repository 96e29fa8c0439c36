//! The laws of histories, closed to searches.
//!
//! A law with for-all statements is tried at each goal of the function that calls it. These say the laws
//! in a word that no search looks into; a proof that needs one opens it by a lemma.

ghost use Rattle.apf_book.specs.Histories.{LegalLaws, FairLaw, IsolationLaw, WaitLaws, StandingLaw, UnsettledLaw};

use apf_history::{
    every_charge_is_of_one_that_executes, every_settled_log_balances, every_settled_log_stands,
    every_unsettled_log_is_fair,
};
use apf_model::{
    every_fair_history_is_balanced, every_fair_history_isolates, every_legal_history_is_in_order,
    every_wait_is_bounded,
};

// The laws of every legal history.
pub fn legal_histories_are_in_order()
    ensures { LegalLaws }
{
    every_legal_history_is_in_order();
}

// The law of every fair history.
pub fn fair_histories_are_balanced()
    ensures { FairLaw }
{
    every_fair_history_is_balanced();
}

// The law of every fair history, of a queue that is never empty and another.
pub fn fair_histories_isolate()
    ensures { IsolationLaw }
{
    every_fair_history_isolates();
}

// The laws of a request that entered and waits still.
pub fn waits_are_bounded()
    ensures { WaitLaws }
{
    every_wait_is_bounded();
}

// The laws of every settled log, of requests that it does not name and of charges.
pub fn settled_logs_stand()
    ensures { StandingLaw }
{
    every_settled_log_stands();
    every_charge_is_of_one_that_executes();
    every_settled_log_balances();
}

// The law of a log in which nothing is settled.
pub fn unsettled_logs_are_fair()
    ensures { UnsettledLaw }
{
    every_unsettled_log_is_fair();
}
