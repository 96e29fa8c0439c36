//! What each step tells, by its token, its operation and its word, and how a token's part goes from one
//! seat to another.

use crate::record::Record;
use atomic_table::{Join, Play, Split};
use std::collections::LinkedList;
use std::marker::{Brand, PhantomData};

/// A Pass loads the level word.
pub(crate) struct PassLoadLevel;

impl Play<(), LinkedList<Record>> for PassLoadLevel {
    ghost use Rattle.apf_gate.specs.Steps.{ByPass, OnLevel};
    ghost use Rattle.apf_gate.specs.PassSteps.{PassLoadsLevel};

    ghost then = { λ _. ByPass (OnLevel PassLoadsLevel) };
}

/// A Pass exchanges the level word for one with its seats.
pub(crate) struct PassExchangeLevel;

impl Play<(), LinkedList<Record>> for PassExchangeLevel {
    ghost use Rattle.apf_gate.specs.Steps.{ByPass, OnLevelIf};
    ghost use Rattle.apf_gate.specs.PassSteps.{PassExchangesLevel, PassMissesLevel};

    ghost then = { λ s. ByPass (OnLevelIf s.first PassExchangesLevel PassMissesLevel) };
}

/// A Pass subtracts its seats from the level word.
pub(crate) struct PassSubtractLevel;

impl Play<(), LinkedList<Record>> for PassSubtractLevel {
    ghost use Rattle.apf_gate.specs.Steps.{ByPass, OnLevel};
    ghost use Rattle.apf_gate.specs.PassSteps.{PassSubtractsLevel};

    ghost then = { λ _. ByPass (OnLevel PassSubtractsLevel) };
}

/// A Pass loads its decision word.
pub(crate) struct PassLoadDecision;

impl Play<(), LinkedList<Record>> for PassLoadDecision {
    ghost use Rattle.apf_gate.specs.Steps.{ByPass, OnDecision};
    ghost use Rattle.apf_gate.specs.PassSteps.{own_mark, PassLoadsDecision};

    ghost then = { λ _. ByPass (OnDecision own_mark PassLoadsDecision) };
}

/// A Pass loads its decision word, and is in line if it was fresh.
pub(crate) struct PassAskDecision;

impl Play<(), LinkedList<Record>> for PassAskDecision {
    ghost use Rattle.apf_gate.specs.Steps.{ByPass, OnDecision};
    ghost use Rattle.apf_gate.specs.PassSteps.{own_mark, PassAsksDecision};

    ghost then = { λ _. ByPass (OnDecision own_mark PassAsksDecision) };
}

/// A Pass exchanges its decision word, where it is undecided, for the code of a decision.
pub(crate) struct PassExchangeDecision;

impl Play<(), LinkedList<Record>> for PassExchangeDecision {
    ghost use Rattle.apf_gate.specs.Steps.{ByPass, OnDecisionIf, Writing};
    ghost use Rattle.apf_gate.specs.PassSteps.{own_mark, PassExchangesDecision, PassMissesDecision};

    ghost then = { λ s. ByPass (Writing own_mark s.second (λ decision. OnDecisionIf own_mark (PassExchangesDecision decision) (PassMissesDecision decision))) };
}

/// Names the request that a step is about, where its word does not. A call picks it.
pub(crate) trait Chosen {
    ghost use Rattle.std.specs.Prelude.{ℕ};

    ghost request: { ℕ };
}

impl Chosen for Brand {
    ghost request = { 0 };
}

/// Names the request that a Pass begins, and what that asks for. A call picks them.
pub(crate) trait Asking {
    ghost use Rattle.std.specs.Prelude.{ℕ};
    ghost use Rattle.apf_gate.specs.declared.record.Asked.{Asked};

    ghost request: { ℕ };

    ghost ask: { Asked };
}

impl Asking for Brand {
    ghost request = { 0 };

    ghost ask = { record { hash = 0; cost = 0 } };
}

/// A Pass leaves its request, and begins the chosen one of its slot, which asks for this.
pub(crate) struct PassRenew<J: Asking>(PhantomData<J>);

impl<J: Asking> Play<(), LinkedList<Record>> for PassRenew<J> {
    ghost use Rattle.apf_gate.specs.Steps.{ByPass, OnDecision};
    ghost use Rattle.apf_gate.specs.PassSteps.{own_mark, PassRenews};

    ghost then = { λ _. ByPass (OnDecision own_mark (PassRenews J.request J.ask)) };
}

/// A Station loads the level word.
pub(crate) struct StationLoadLevel;

impl Play<(), LinkedList<Record>> for StationLoadLevel {
    ghost use Rattle.apf_gate.specs.Steps.{ByStation, OnLevel};
    ghost use Rattle.apf_gate.specs.StationSteps.{StationLoadsLevel};

    ghost then = { λ _. ByStation (OnLevel StationLoadsLevel) };
}

/// A Station exchanges the level word for one with its limit.
pub(crate) struct StationExchangeLevel;

impl Play<(), LinkedList<Record>> for StationExchangeLevel {
    ghost use Rattle.apf_gate.specs.Steps.{ByStation, OnLevelIf, Setting};
    ghost use Rattle.apf_gate.specs.StationSteps.{StationExchangesLevel, StationLoadsLevel};

    ghost then = { λ s. ByStation (Setting s.second (λ limit. OnLevelIf s.first (StationExchangesLevel limit) StationLoadsLevel)) };
}

/// A Station sets the bit of a closed level.
pub(crate) struct StationCloseLevel;

impl Play<(), LinkedList<Record>> for StationCloseLevel {
    ghost use Rattle.apf_gate.specs.Steps.{ByStation, OnLevel};
    ghost use Rattle.apf_gate.specs.StationSteps.{StationClosesLevel};

    ghost then = { λ _. ByStation (OnLevel StationClosesLevel) };
}

/// A Station loads a decision word.
pub(crate) struct StationLoadDecision<J: Chosen>(PhantomData<J>);

impl<J: Chosen> Play<(), LinkedList<Record>> for StationLoadDecision<J> {
    ghost use Rattle.apf_gate.specs.Steps.{ByStation, OnTicket};
    ghost use Rattle.apf_gate.specs.StationSteps.{StationLoadsDecision, StationFindsOther};

    ghost then = { λ _. ByStation (OnTicket J.request (StationLoadsDecision J.request) (StationFindsOther J.request)) };
}

/// A Station exchanges a decision word, where it is undecided, for the code of cancelled.
pub(crate) struct StationExchangeDecision<J: Chosen>(PhantomData<J>);

impl<J: Chosen> Play<(), LinkedList<Record>> for StationExchangeDecision<J> {
    ghost use Rattle.apf_gate.specs.Steps.{ByStation, OnTicketIf};
    ghost use Rattle.apf_gate.specs.StationSteps.{StationExchangesDecision, StationLoadsDecision, StationFindsOther};

    ghost then = { λ _. ByStation (OnTicketIf J.request (StationExchangesDecision J.request) (StationLoadsDecision J.request) (StationFindsOther J.request)) };
}

/// The Desk loads the level word.
pub(crate) struct DeskLoadLevel;

impl Play<(), LinkedList<Record>> for DeskLoadLevel {
    ghost use Rattle.apf_gate.specs.Steps.{ByDesk, OnLevel};
    ghost use Rattle.apf_gate.specs.DeskSteps.{DeskLoadsLevel};

    ghost then = { λ _. ByDesk (OnLevel DeskLoadsLevel) };
}

/// The Desk exchanges the level word for one with a request granted.
pub(crate) struct DeskExchangeLevel<J: Chosen>(PhantomData<J>);

impl<J: Chosen> Play<(), LinkedList<Record>> for DeskExchangeLevel<J> {
    ghost use Rattle.apf_gate.specs.Steps.{ByDesk, OnLevelIf};
    ghost use Rattle.apf_gate.specs.DeskSteps.{DeskExchangesLevel, DeskLoadsLevel};

    ghost then = { λ s. ByDesk (OnLevelIf s.first (DeskExchangesLevel J.request) DeskLoadsLevel) };
}

/// The Desk subtracts the seats that it holds from the level word.
pub(crate) struct DeskSubtractSeats<J: Chosen>(PhantomData<J>);

impl<J: Chosen> Play<(), LinkedList<Record>> for DeskSubtractSeats<J> {
    ghost use Rattle.apf_gate.specs.Steps.{ByDesk, OnLevel};
    ghost use Rattle.apf_gate.specs.DeskSteps.{DeskSubtractsSeats};

    ghost then = { λ _. ByDesk (OnLevel (DeskSubtractsSeats J.request)) };
}

/// The Desk subtracts a cancelled request from those that wait in the level word.
pub(crate) struct DeskSubtractWaiter<J: Chosen>(PhantomData<J>);

impl<J: Chosen> Play<(), LinkedList<Record>> for DeskSubtractWaiter<J> {
    ghost use Rattle.apf_gate.specs.Steps.{ByDesk, OnLevel};
    ghost use Rattle.apf_gate.specs.DeskSteps.{DeskSubtractsWaiter};

    ghost then = { λ _. ByDesk (OnLevel (DeskSubtractsWaiter J.request)) };
}

/// The Desk loads a decision word.
pub(crate) struct DeskLoadDecision<J: Chosen>(PhantomData<J>);

impl<J: Chosen> Play<(), LinkedList<Record>> for DeskLoadDecision<J> {
    ghost use Rattle.apf_gate.specs.Slots.{mark_of};
    ghost use Rattle.apf_gate.specs.Steps.{ByDesk, OnDecision};
    ghost use Rattle.apf_gate.specs.DeskSteps.{DeskLoadsDecision};

    ghost then = { λ _. ByDesk (OnDecision (λ _. mark_of J.request) (DeskLoadsDecision J.request)) };
}

/// The Desk exchanges a decision word, where it is undecided, for the code of execute.
pub(crate) struct DeskExchangeDecision<J: Chosen>(PhantomData<J>);

impl<J: Chosen> Play<(), LinkedList<Record>> for DeskExchangeDecision<J> {
    ghost use Rattle.apf_gate.specs.Slots.{mark_of};
    ghost use Rattle.apf_gate.specs.Steps.{ByDesk, OnDecisionIf};
    ghost use Rattle.apf_gate.specs.DeskSteps.{DeskExchangesDecision, DeskMissesDecision};

    ghost then = { λ _. ByDesk (OnDecisionIf (λ _. mark_of J.request) (DeskExchangesDecision J.request) (DeskMissesDecision J.request)) };
}

/// The Desk, with a Pass joined, loads the level word.
pub(crate) struct JoinedLoadLevel;

impl Play<(), LinkedList<Record>> for JoinedLoadLevel {
    ghost use Rattle.apf_gate.specs.Steps.{ByBoth, OnLevel};
    ghost use Rattle.apf_gate.specs.JoinedSteps.{JoinedLoadsLevel};

    ghost then = { λ _. ByBoth (OnLevel JoinedLoadsLevel) };
}

/// The Desk, with a Pass joined, exchanges the level word for one with one waiter more.
pub(crate) struct JoinedExchangeLevel;

impl Play<(), LinkedList<Record>> for JoinedExchangeLevel {
    ghost use Rattle.apf_gate.specs.Steps.{ByBoth, OnLevelIf};
    ghost use Rattle.apf_gate.specs.JoinedSteps.{JoinedExchangesLevel, JoinedLoadsLevel};

    ghost then = { λ s. ByBoth (OnLevelIf s.first JoinedExchangesLevel JoinedLoadsLevel) };
}

/// The Desk, with a Pass joined, loads the decision word.
pub(crate) struct JoinedLoadDecision;

impl Play<(), LinkedList<Record>> for JoinedLoadDecision {
    ghost use Rattle.apf_gate.specs.Steps.{ByBoth, OnDecision};
    ghost use Rattle.apf_gate.specs.JoinedSteps.{both_mark, JoinedLoadsDecision};

    ghost then = { λ _. ByBoth (OnDecision both_mark JoinedLoadsDecision) };
}

/// The Desk, with a Pass joined, exchanges the decision word, where it is undecided, for the code of a
/// refusal.
pub(crate) struct JoinedExchangeDecision;

impl Play<(), LinkedList<Record>> for JoinedExchangeDecision {
    ghost use Rattle.apf_gate.specs.Steps.{ByBoth, OnDecisionIf, Writing};
    ghost use Rattle.apf_gate.specs.JoinedSteps.{both_mark, JoinedExchangesDecision, JoinedMissesDecision};

    ghost then = { λ s. ByBoth (Writing both_mark s.second (λ decision. OnDecisionIf both_mark (JoinedExchangesDecision decision) JoinedMissesDecision)) };
}

/// The Desk, with a Station joined, loads the level word.
pub(crate) struct StationJoinedLoadLevel;

impl Play<(), LinkedList<Record>> for StationJoinedLoadLevel {
    ghost use Rattle.apf_gate.specs.Steps.{OnLevel};
    ghost use Rattle.apf_gate.specs.StationJoined.{ByStationAndDesk, StationAndDeskLoadLevel};

    ghost then = { λ _. ByStationAndDesk (OnLevel StationAndDeskLoadLevel) };
}

/// The first token's part of a seat goes to a seat of its own, or is joined in front of another's.
pub(crate) struct FirstRecord;

impl Split<LinkedList<Record>> for FirstRecord {
    ghost use Rattle.apf_gate.specs.Rule.{without_first, first_alone};

    ghost left = { without_first };

    ghost right = { first_alone };
}

impl Join<LinkedList<Record>> for FirstRecord {
    ghost use Rattle.std.specs.Prelude.{[], ◌++◌};

    ghost both = { λ v w. w ++ v };

    ghost spent = { [] };
}

/// All that the tokens of a seat know together, of whom the Desk is the last: a load that nobody notes.
pub(crate) struct LoadAll;

impl Play<(), LinkedList<Record>> for LoadAll {
    ghost use Rattle.apf_gate.specs.Whole.{TellsAll};

    ghost then = { λ _. TellsAll };
}

/// The last token's part of a seat goes to a seat of its own.
pub(crate) struct Last;

impl Split<LinkedList<Record>> for Last {
    ghost use Rattle.apf_gate.specs.Rule.{without_last, last_alone};

    ghost left = { without_last };

    ghost right = { last_alone };
}
