//! What is true of every gate.

ghost use Rattle.std.specs.Prelude.{List};
ghost use Rattle.apf_gate.specs.declared.record.DeskRecord.{DeskRecord};
ghost use Rattle.apf_gate.specs.declared.record.Record.{Record};
ghost use Rattle.apf_gate.specs.declared.record.Shape.{Shape};
ghost use Rattle.apf_gate.specs.Explained.{IsExplained};
ghost use Rattle.apf_gate.specs.Rule.{IsRuled};
ghost use Rattle.atomic_table.specs.Table.{State};
ghost use Rattle.apf_gate.specs.Tokens.{GateId, PassToken, StationToken};
ghost use Rattle.apf_gate.specs.Ends.{WordsView, EndsWith, EndAgrees};
ghost use Rattle.apf_gate.specs.LifeEnds.{LifeView, LifeEndsWith, LifeAgrees};
ghost use Rattle.apf_gate.specs.Hidden.{NothingIsHidden, NobodyCame};
ghost use Rattle.apf_gate.specs.Lost.{NoneIsLost};
ghost use Rattle.apf_gate.specs.Owing.{NoDispatchIsLost};
ghost use Rattle.apf_gate.specs.Same.{AllAreToldTheSame};

use apf_model::every_world_adds_up;

/// Every gate that ended agrees with its tokens: of any tokens that `Gate::end` was handed, and the words
/// that it answered.
///
/// It runs no code: the contract is the law.
pub fn every_end_agrees()
    ensures { (gate : GateId) (desk : DeskRecord) (passes : List PassToken) (stations : List StationToken) (words : WordsView)
        → EndsWith gate desk passes stations words → EndAgrees gate desk passes stations words }
{}

/// Every gate that ended whose slots were used again agrees with its tokens, on each request that ever held a slot:
/// of any tokens that `Gate::end_for_life` was handed, and the words that it answered.
///
/// Of all requests that were ever decided, each once, the executed, the rejected and the cancelled sum up. Who is
/// undecided when all Passes are back never began.
///
/// It runs no code: the contract is the law.
pub fn every_end_for_life_agrees()
    ensures { (gate : GateId) (desk : DeskRecord) (passes : List PassToken) (stations : List StationToken) (words : LifeView)
        → LifeEndsWith gate desk passes stations words → LifeAgrees gate desk passes stations words }
{}

/// Every state under the rule of a gate is explained: between any two atomic steps, of any number of threads.
///
/// One trace of steps, which is a schedule, says what the words are and makes true what every token knows. It runs no
/// code: the contract is the law.
pub fn every_state_is_explained()
    ensures { (s : Shape) (t : State (Unit {0}) (List Record)) → IsRuled s t → IsExplained s t }
{}

/// No step of a gate is hidden: between two states under its rule.
///
/// It runs no code: the contract is the law.
pub fn no_step_is_hidden()
    ensures { NothingIsHidden }
{}

/// No dispatch is lost: of every state under the rule of a gate in which a request waits, and of any place in its
/// trace after which the Desk made no step but loads.
///
/// Where nobody gave seats back and nobody set the limit since that place, seats and limit of the level word are
/// still those of that place. Each Release and each SetLimit since then found requests waiting, which its caller
/// was told.
///
/// It runs no code: the contract is the law.
pub fn no_dispatch_is_lost()
    ensures { NoDispatchIsLost }
{
    every_world_adds_up();
}

/// All are told the same: of every request that ever held a slot, any two tokens that were told its decision were
/// told one.
///
/// It runs no code: the contract is the law.
pub fn all_are_told_the_same()
    ensures { AllAreToldTheSame }
{}

/// Nobody came between two steps of a token, where no other has seen more than it had after the first one.
///
/// It runs no code: the contract is the law.
pub fn nobody_came_between()
    ensures { NobodyCame }
{}

/// No exchange is lost, where one account has the records of all tokens and its token had seen as much as any other.
///
/// It runs no code: the contract is the law.
pub fn no_exchange_is_lost()
    ensures { NoneIsLost }
{}
