//! What is true of every history of a level.

ghost use Rattle.std.specs.Prelude.{◌≡◌, ◌⊎◌, ◌+◌, ◌*◌, ◌<◌, ◌≤◌, ◌++◌, [], ◌∷◌, ℕ, List, length, map, slice_get, Contains, Some};
ghost use Rattle.apf_history.specs.declared.events.Event.{Event};
ghost use Rattle.apf_history.specs.declared.events.Event.TheVariants.{Enter};
ghost use Rattle.apf_history.specs.declared.events.LogEntry.{LogEntry};
ghost use Rattle.apf_history.specs.declared.events.LogEntry.TheVariants.{Happens};
ghost use Rattle.apf_history.specs.Standing.{EachNames};
ghost use Rattle.apf_history.specs.Waits.{total_width, total_time};
ghost use Rattle.apf_model.specs.World.{width, IsStanding};
ghost use Rattle.apf_model.specs.Schedule.{IsSchedule};
ghost use Rattle.apf_model.specs.History.{waiting};
ghost use Rattle.apf_model.specs.Fair.{IsNeverEmpty, service, widest};
ghost use Rattle.apf_model.specs.Charged.{events, log_of, seat_time, AreMeasures, AreJudged, IsNeverEmptyIn, SpendsWithin, HaveSeats, IsAmong, runs};
ghost use Rattle.apf_book.specs.Life.{LifeView};
ghost use Rattle.apf_book.specs.Said.{saying, sayings};
ghost use Rattle.apf_flow.specs.Deal.{hand_of};
ghost use Rattle.apf_gate.specs.declared.record.Asked.{Asked};
ghost use Rattle.apf_gate.specs.declared.record.Entry.{Entry};
ghost use Rattle.apf_gate.specs.Gauges.{IsShape};
ghost use Rattle.apf_gate.specs.Traces.{opening_of, moves, world_of, asked_in};
ghost use Rattle.apf_gate.specs.Tokens.{PassToken, StationToken};
ghost use Rattle.apf_line.specs.declared.report.Report.{Report};
ghost use Rattle.apf_line.specs.Levels.{LifeId, IsHistoryOf};
ghost use Rattle.apf_line.specs.Promises.{KeepsPromises};
ghost use Rattle.apf_line.specs.Reports.{EndedAs};
ghost use Rattle.apf_line.specs.Seats.{AreSeated, AreAllMeasured};
ghost use Rattle.apf_line.specs.Stopped.{NoRequestIsForgotten};
ghost use Rattle.apf_line.specs.Laws.{LevelHistories};

use apf_gate::no_dispatch_is_lost;
use apf_history::{
    every_fair_history_isolates, every_fair_history_stands, every_legal_history_is_in_order,
    every_settled_log_balances, every_settled_log_isolates, every_settled_log_stands,
    every_settled_wait_is_bounded, every_unsettled_log_is_fair, every_wait_is_bounded,
};
use apf_model::every_schedule_is_safe;

/// Every history of a level in which nothing was settled isolates its queues: in every stretch of it in which a queue is never empty, both ends
/// included, no other queue is charged more than that one and twice the largest cost.
///
/// Costs are those of the requests that arrived. What the others would cost is anybody's choice, as of nothing: so the
/// largest cost is that of those that arrived. It runs no code: the contract is the law.
pub fn every_life_history_isolates()
    ensures { (k : LifeId) (trace : List Entry) (v : LifeView) (costs : List ℕ) (later stretch earlier : List Event) (q other : ℕ)
        → IsHistoryOf k trace v → v.log ≡ log_of v.history → EachNames (λ r. width costs r ≡ width v.costs r) v.history
        → v.history ≡ later ++ (stretch ++ earlier) → q < v.queues → other < v.queues
        → IsNeverEmpty (stretch ++ earlier) (length stretch) q
        → service costs stretch other ≤ service costs stretch q + 2 * widest costs }
{
    every_unsettled_log_is_fair();
    every_fair_history_stands();
    every_fair_history_isolates();
}

/// Every log of a level isolates its queues, whatever was settled: in every stretch of it in which a queue is never
/// empty, both ends included, the measured seat-time of the requests dispatched from another queue is at most that of
/// those dispatched from this one, twice the largest cost, and three times what executing requests are misjudged by; which
/// is at most the level's seats times the longest run.
///
/// A request's measure is what it takes, as far as it is settled, in the unit of costs. A request that is never settled is
/// measured by what it is charged, if nothing else is known of it: then it is not misjudged. Costs are those of the requests
/// that arrived, as in `every_life_history_isolates`. It runs no code: the contract is the law.
pub fn every_life_log_isolates()
    ensures isolated { (k : LifeId) (trace : List Entry) (v : LifeView) (costs : List ℕ) (measure : ℕ → ℕ) (slack : ℕ)
        (later stretch earlier : List LogEntry) (q other : ℕ)
        → IsHistoryOf k trace v → EachNames (λ r. width costs r ≡ width v.costs r) v.history
        → v.log ≡ later ++ (stretch ++ earlier) → AreMeasures measure (stretch ++ earlier)
        → AreJudged slack costs measure (stretch ++ earlier)
        → q < v.queues → other < v.queues
        → IsNeverEmptyIn (stretch ++ earlier) (length stretch) q
        → seat_time measure stretch other ≤ seat_time measure stretch q + 2 * widest costs + 3 * slack }
    ensures by_seats { (k : LifeId) (trace : List Entry) (v : LifeView) (costs : List ℕ) (wide measure : ℕ → ℕ)
        (seats longest : ℕ) (later stretch earlier : List LogEntry) (q other : ℕ)
        → IsHistoryOf k trace v → EachNames (λ r. width costs r ≡ width v.costs r) v.history
        → v.log ≡ later ++ (stretch ++ earlier) → AreMeasures measure (stretch ++ earlier)
        → ((r : ℕ) → width costs r ≤ wide r * longest) → ((r : ℕ) → measure r ≤ wide r * longest)
        → SpendsWithin longest wide (stretch ++ earlier) → HaveSeats seats wide measure costs (stretch ++ earlier)
        → q < v.queues → other < v.queues
        → IsNeverEmptyIn (stretch ++ earlier) (length stretch) q
        → seat_time measure stretch other ≤ seat_time measure stretch q + 2 * widest costs + 3 * (seats * longest) }
{
    every_settled_log_stands();
    every_settled_log_balances();
    every_settled_log_isolates();
}

/// Every wait on a level on which nothing was settled is bounded. Let a request have entered a queue after the earlier events, and wait in it still
/// after the stretch that followed. In that stretch its own queue was charged at most the costs of those that waited in
/// it when the request entered. Each other queue was charged at most these and twice the largest cost.
///
/// Costs are those of the requests that arrived, as in `every_life_history_isolates`. It runs no code: the contract is
/// the law.
pub fn every_life_wait_is_bounded()
    ensures own { (k : LifeId) (trace : List Entry) (v : LifeView) (costs : List ℕ) (later stretch earlier : List Event) (q r : ℕ)
        → IsHistoryOf k trace v → v.log ≡ log_of v.history → EachNames (λ i. width costs i ≡ width v.costs i) v.history
        → v.history ≡ later ++ (stretch ++ Enter r q ∷ earlier)
        → Contains (waiting (stretch ++ Enter r q ∷ earlier) q) r
        → service costs stretch q ≤ total_width costs (waiting earlier q) }
    ensures others { (k : LifeId) (trace : List Entry) (v : LifeView) (costs : List ℕ) (later stretch earlier : List Event) (q r other : ℕ)
        → IsHistoryOf k trace v → v.log ≡ log_of v.history → EachNames (λ i. width costs i ≡ width v.costs i) v.history
        → v.history ≡ later ++ (stretch ++ Enter r q ∷ earlier)
        → Contains (waiting (stretch ++ Enter r q ∷ earlier) q) r
        → q < v.queues → other < v.queues
        → service costs stretch other ≤ total_width costs (waiting earlier q) + 2 * widest costs }
{
    every_unsettled_log_is_fair();
    every_fair_history_stands();
    every_wait_is_bounded();
}

/// Every wait on a level is bounded in measured seat-time, whatever was settled. Let a request have entered a queue after
/// the earlier entries of its log, and wait in it still after the stretch that followed. In that stretch the requests
/// dispatched from its own queue take at most what those take that waited in it when the request entered. Those
/// dispatched from any other queue take at most that, twice the largest cost, and three times what executing requests are
/// misjudged by; which is at most the level's seats times the longest run.
///
/// Measures and costs are as in `every_life_log_isolates`. It runs no code: the contract is the law.
pub fn every_life_wait_is_bounded_in_seat_time()
    ensures own { (k : LifeId) (trace : List Entry) (v : LifeView) (costs : List ℕ) (measure : ℕ → ℕ)
        (later stretch earlier : List LogEntry) (q r : ℕ)
        → IsHistoryOf k trace v → EachNames (λ i. width costs i ≡ width v.costs i) v.history
        → v.log ≡ later ++ (stretch ++ Happens (Enter r q) ∷ earlier)
        → Contains (waiting (events (stretch ++ Happens (Enter r q) ∷ earlier)) q) r
        → seat_time measure stretch q ≤ total_time measure (waiting (events earlier) q) }
    ensures others { (k : LifeId) (trace : List Entry) (v : LifeView) (costs : List ℕ) (measure : ℕ → ℕ) (slack : ℕ)
        (later stretch earlier : List LogEntry) (q r other : ℕ)
        → IsHistoryOf k trace v → EachNames (λ i. width costs i ≡ width v.costs i) v.history
        → v.log ≡ later ++ (stretch ++ Happens (Enter r q) ∷ earlier)
        → AreMeasures measure (stretch ++ Happens (Enter r q) ∷ earlier)
        → AreJudged slack costs measure (stretch ++ Happens (Enter r q) ∷ earlier)
        → Contains (waiting (events (stretch ++ Happens (Enter r q) ∷ earlier)) q) r
        → q < v.queues → other < v.queues
        → seat_time measure stretch other ≤ total_time measure (waiting (events earlier) q) + 2 * widest costs + 3 * slack }
    ensures by_seats { (k : LifeId) (trace : List Entry) (v : LifeView) (costs : List ℕ) (wide measure : ℕ → ℕ)
        (seats longest : ℕ) (later stretch earlier : List LogEntry) (q r other : ℕ)
        → IsHistoryOf k trace v → EachNames (λ i. width costs i ≡ width v.costs i) v.history
        → v.log ≡ later ++ (stretch ++ Happens (Enter r q) ∷ earlier)
        → AreMeasures measure (stretch ++ Happens (Enter r q) ∷ earlier)
        → ((i : ℕ) → width costs i ≤ wide i * longest) → ((i : ℕ) → measure i ≤ wide i * longest)
        → SpendsWithin longest wide (stretch ++ Happens (Enter r q) ∷ earlier)
        → HaveSeats seats wide measure costs (stretch ++ Happens (Enter r q) ∷ earlier)
        → Contains (waiting (events (stretch ++ Happens (Enter r q) ∷ earlier)) q) r
        → q < v.queues → other < v.queues
        → seat_time measure stretch other ≤ total_time measure (waiting (events earlier) q) + 2 * widest costs + 3 * (seats * longest) }
{
    every_settled_log_stands();
    every_settled_log_balances();
    every_settled_wait_is_bounded();
}

/// At each place of a log of a level, those who execute from queues and are charged something else than they take hold
/// their seats. So together they have no more than the largest limit so far, or than the widest request, if that is wider.
///
/// It is said of any steps of the level's gate that say the log's history, if each request that was settled, or charged
/// more while it ran, held its seats then or later. Who was never settled holds them still, or takes what it is charged.
/// Costs are those of the requests that arrived, as in `every_life_history_isolates`. It runs no code: the contract is the
/// law.
pub fn every_seated_log_has_its_seats()
    ensures { (k : LifeId) (known trace : List Entry) (v : LifeView) (costs : List ℕ) (measure : ℕ → ℕ) (seats : ℕ)
        → IsHistoryOf k known v → IsShape k.gate.shape → IsSchedule (opening_of k.gate.shape) (moves trace)
        → map saying v.history ≡ sayings trace → AreSeated k.gate.shape trace v.log
        → EachNames (λ r. width costs r ≡ width v.costs r) v.history
        → ((r charge q : ℕ) → IsAmong r charge (runs costs v.log q) → IsStanding (world_of k.gate.shape trace) r ⊎ (charge ≡ measure r))
        → (world_of k.gate.shape trace).largest ≤ seats → EachNames (λ r. width k.gate.shape.widths r ≤ seats) v.history
        → HaveSeats seats (width k.gate.shape.widths) measure costs v.log }
{
    every_schedule_is_safe();
    every_legal_history_is_in_order();
    every_settled_log_stands();
}

/// A level that ended shared its seats by time, whatever was settled and whatever its requests were charged before. While a
/// queue is never empty, the requests of another one take at most as much seat-time as its own, twice the largest cost, and
/// three times what the level gives in its longest run: its seats times that time. While a request waits, those of another
/// queue take at most as much more than those ahead of it.
///
/// The level's seats are any number that neither the largest limit so far nor the width of a request of its queues
/// passes. No request ran longer than the longest run, and none was charged for a longer one. It is said of a log in which
/// each request that was settled held its seats then or later, by the steps that the level's Desk knew. Measures are what
/// requests took; of one that was never settled, what its queue was charged for it. It runs no code: the contract is the
/// law.
pub fn every_ended_level_shares_seat_time()
    ensures never_empty { (k : LifeId) (v : LifeView) (slots : List PassToken) (stations : List StationToken) (r : Report) (e : EndedAs k v slots stations r)
        (costs : List ℕ) (measure : ℕ → ℕ) (seats longest : ℕ) (later stretch earlier : List LogEntry) (q other : ℕ)
        → AreSeated k.gate.shape e.desk.knows.trace v.log → AreAllMeasured measure costs v.log
        → EachNames (λ i. width costs i ≡ width v.costs i) v.history
        → (world_of k.gate.shape e.words_agree.trace).largest ≤ seats → EachNames (λ i. width k.gate.shape.widths i ≤ seats) v.history
        → ((i : ℕ) → width costs i ≤ width k.gate.shape.widths i * longest) → ((i : ℕ) → measure i ≤ width k.gate.shape.widths i * longest)
        → SpendsWithin longest (width k.gate.shape.widths) v.log
        → v.log ≡ later ++ (stretch ++ earlier) → q < v.queues → other < v.queues
        → IsNeverEmptyIn (stretch ++ earlier) (length stretch) q
        → seat_time measure stretch other ≤ seat_time measure stretch q + 2 * widest costs + 3 * (seats * longest) }
    ensures waits { (k : LifeId) (v : LifeView) (slots : List PassToken) (stations : List StationToken) (r : Report) (e : EndedAs k v slots stations r)
        (costs : List ℕ) (measure : ℕ → ℕ) (seats longest : ℕ) (later stretch earlier : List LogEntry) (q one other : ℕ)
        → AreSeated k.gate.shape e.desk.knows.trace v.log → AreAllMeasured measure costs v.log
        → EachNames (λ i. width costs i ≡ width v.costs i) v.history
        → (world_of k.gate.shape e.words_agree.trace).largest ≤ seats → EachNames (λ i. width k.gate.shape.widths i ≤ seats) v.history
        → ((i : ℕ) → width costs i ≤ width k.gate.shape.widths i * longest) → ((i : ℕ) → measure i ≤ width k.gate.shape.widths i * longest)
        → SpendsWithin longest (width k.gate.shape.widths) v.log
        → v.log ≡ later ++ (stretch ++ Happens (Enter one q) ∷ earlier)
        → Contains (waiting (events (stretch ++ Happens (Enter one q) ∷ earlier)) q) one
        → q < v.queues → other < v.queues
        → seat_time measure stretch other ≤ total_time measure (waiting (events earlier) q) + 2 * widest costs + 3 * (seats * longest) }
{
    every_schedule_is_safe();
    every_seated_log_has_its_seats();
    every_life_log_isolates();
    every_life_wait_is_bounded_in_seat_time();
}

/// No chosen request is forgotten: of every state of a gate whose Desk's book is at rest, as a level's is whenever its
/// lock is free.
///
/// Nothing waits; or who is dispatched next does not fit the level word; or others gave seats back or set the limit
/// since the Desk found that it does not fit, and each of them found requests waiting, and so owes a dispatch. It says
/// nothing of a request behind the chosen one, which may fit and wait.
///
/// It runs no code: the contract is the law.
pub fn no_life_request_is_forgotten()
    ensures { NoRequestIsForgotten }
{
    every_legal_history_is_in_order();
    no_dispatch_is_lost();
}

/// By what a trace says that a request asked for, a history in which it entered a queue at last says that the queue is
/// of the hand of its flow: not any queue is.
///
/// It runs no code: the contract is the law.
pub fn every_queue_was_dealt()
    ensures { (k : LifeId) (trace : List Entry) (v : LifeView) (r q : ℕ) (older : List Event) (ask : Asked)
        → asked_in trace r ≡ Some ask → IsHistoryOf k trace (record v { history = Enter r q ∷ older })
        → (place : ℕ) × (slice_get (hand_of k.sizes ask.hash) place ≡ Some q) }
{}

/// Every report keeps the promises: of any level that ended, by a history that it was of, and of the steps by which its
/// words agree with its tokens.
///
/// Each request's decision was written once at most, and everybody was told that one. Each queue served its requests in
/// order, each once. Once it was closed, none took seats or entered. The seats never passed the limit, but for one wide
/// request alone. The numbers of the report sum to the requests. No queue starved, and nobody is left waiting.
///
/// It runs no code: the contract is the law.
pub fn every_report_keeps_the_promises()
    ensures { (k : LifeId) (v : LifeView) (slots : List PassToken) (stations : List StationToken) (r : Report)
        → EndedAs k v slots stations r → KeepsPromises k v slots stations r }
{
    every_schedule_is_safe();
    every_legal_history_is_in_order();
    every_life_history_isolates();
    every_life_log_isolates();
    every_life_wait_is_bounded();
    every_life_wait_is_bounded_in_seat_time();
}

/// What a level's book is of is a history of the level. A book in which nothing happened yet is at rest, and so is one
/// that was served until nothing waited or the chosen head did not fit.
///
/// It runs no code: the contract is the law.
pub fn every_level_has_histories()
    ensures { LevelHistories }
{}
