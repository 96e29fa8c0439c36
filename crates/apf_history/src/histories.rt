//! What every legal history keeps, and every fair one.

ghost use Rattle.std.specs.Prelude.{ℕ, ◌≡◌, ◌≢◌, ◌+◌, ◌-◌, ◌*◌, ◌<◌, ◌≤◌, List, ◌∷◌, ◌++◌, length, Contains, Some, None};
ghost use Rattle.apf_history.specs.declared.events.Event.{Event};
ghost use Rattle.apf_history.specs.declared.events.Event.TheVariants.{Enter};
ghost use Rattle.apf_history.specs.History.{waiting, MayFollow, IsLegal};
ghost use Rattle.apf_history.specs.Fair.{IsFair, service, IsNeverEmpty, widest, DifferAtMost};
ghost use Rattle.apf_history.specs.Waits.{total_width, total_time, granted};
ghost use Rattle.apf_history.specs.Numbered.{width};
ghost use Rattle.apf_history.specs.Standing.{EachNames};
ghost use Rattle.apf_history.specs.declared.events.Charge.{Charge};
ghost use Rattle.apf_history.specs.declared.events.LogEntry.{LogEntry};
ghost use Rattle.apf_history.specs.declared.events.LogEntry.TheVariants.{Happens};
ghost use Rattle.apf_history.specs.Fair.{numbers};
ghost use Rattle.apf_history.specs.Charged.{events, log_of, charged_numbers, true_next, runs, charge_of, charged, taken, seat_time, IsAmong, IsSettled, AreMeasures, AreJudged, IsNeverEmptyIn, HaveSeats, SpendsWithin, settles_in};
ghost use Rattle.apf_history.specs.Order.{AreInOrder, AreStatuses, AreCounted, Follows};

/// Every legal history is in order: for any hands of the requests, any length limit, and events that
/// each may follow those before it.
///
/// For each queue, the requests that entered it, in order, with the struck ones left out, are those
/// that were dispatched from it, in order, followed by those that wait in it. Nobody enters or is
/// dispatched twice; who waits stands once and in one queue; no queue is above its limit
/// (`AreInOrder`). What became of a request is what the history has of it (`AreStatuses`), and who
/// entered was dispatched, was struck or waits (`AreCounted`). An event that may follow finds its
/// request away, or waiting, and changes its own queue alone (`Follows`).
///
/// Each beginning of a legal history is legal, so all of this holds at every place of it. It runs no
/// code: the contract is the law.
pub fn every_legal_history_is_in_order()
    ensures beginnings { (hands : ℕ → List ℕ) (limit : ℕ) (later earlier : List Event)
        → IsLegal hands limit (later ++ earlier) → IsLegal hands limit earlier }
    ensures order { (hands : ℕ → List ℕ) (limit : ℕ) (h : List Event)
        → IsLegal hands limit h → AreInOrder limit h }
    ensures statuses { (hands : ℕ → List ℕ) (limit : ℕ) (h : List Event)
        → IsLegal hands limit h → AreStatuses h }
    ensures numbers { (hands : ℕ → List ℕ) (limit : ℕ) (h : List Event)
        → IsLegal hands limit h → AreCounted h }
    ensures follows { (hands : ℕ → List ℕ) (limit : ℕ) (h : List Event) (e : Event)
        → IsLegal hands limit h → MayFollow hands limit h e → Follows h e }
{}

/// Every fair history is balanced: in every stretch of it in which two queues are never empty, both
/// ends included, their services differ by at most twice the largest width of the requests.
///
/// The stretch stands between what came later and what came earlier. The two queues are among those
/// that the choice goes over. Each beginning of a fair history is fair. It runs no code: the contract
/// is the law.
pub fn every_fair_history_is_balanced()
    ensures beginnings { (queues : ℕ) (widths : List ℕ) (hands : ℕ → List ℕ) (limit : ℕ) (later earlier : List Event)
        → IsFair queues widths hands limit (later ++ earlier) → IsFair queues widths hands limit earlier }
    ensures balanced { (queues : ℕ) (widths : List ℕ) (hands : ℕ → List ℕ) (limit : ℕ)
        (later stretch earlier : List Event) (a b : ℕ)
        → IsFair queues widths hands limit (later ++ (stretch ++ earlier)) → a < queues → b < queues
        → IsNeverEmpty (stretch ++ earlier) (length stretch) a
        → IsNeverEmpty (stretch ++ earlier) (length stretch) b
        → DifferAtMost (2 * widest widths) (service widths stretch a) (service widths stretch b) }
{}

/// Every fair history isolates its queues: in every stretch of it in which a queue is never empty, both
/// ends included, no other queue is served more than that one and twice the largest width of the requests,
/// whether the other was empty in between or not.
///
/// It runs no code: the contract is the law.
pub fn every_fair_history_isolates()
    ensures isolated { (queues : ℕ) (widths : List ℕ) (hands : ℕ → List ℕ) (limit : ℕ)
        (later stretch earlier : List Event) (q other : ℕ)
        → IsFair queues widths hands limit (later ++ (stretch ++ earlier)) → q < queues → other < queues
        → IsNeverEmpty (stretch ++ earlier) (length stretch) q
        → service widths stretch other ≤ service widths stretch q + 2 * widest widths }
{}

/// In every fair history every wait is bounded. Let a request have entered a queue after the earlier events,
/// and wait in it still after the stretch that followed. In that stretch its own queue was served at most the
/// widths of those that waited in it when the request entered, the seats before it. Each other queue was
/// served at most these and twice the largest width of the requests; and all queues together at most so much
/// for each.
///
/// So a request is served after a number of seats that its own queue and the number of queues bound, whatever
/// arrives elsewhere. It runs no code: the contract is the law.
pub fn every_wait_is_bounded()
    ensures own { (queues : ℕ) (widths : List ℕ) (hands : ℕ → List ℕ) (limit : ℕ)
        (later stretch earlier : List Event) (q r : ℕ)
        → IsFair queues widths hands limit (later ++ (stretch ++ Enter r q ∷ earlier))
        → Contains (waiting (stretch ++ Enter r q ∷ earlier) q) r
        → service widths stretch q ≤ total_width widths (waiting earlier q) }
    ensures others { (queues : ℕ) (widths : List ℕ) (hands : ℕ → List ℕ) (limit : ℕ)
        (later stretch earlier : List Event) (q r : ℕ)
        → IsFair queues widths hands limit (later ++ (stretch ++ Enter r q ∷ earlier))
        → Contains (waiting (stretch ++ Enter r q ∷ earlier) q) r
        → q < queues → (other : ℕ) → other < queues
        → service widths stretch other ≤ total_width widths (waiting earlier q) + 2 * widest widths }
    ensures all { (queues : ℕ) (widths : List ℕ) (hands : ℕ → List ℕ) (limit : ℕ)
        (later stretch earlier : List Event) (q r : ℕ)
        → IsFair queues widths hands limit (later ++ (stretch ++ Enter r q ∷ earlier))
        → Contains (waiting (stretch ++ Enter r q ∷ earlier) q) r
        → q < queues
        → granted queues widths stretch ≤ total_width widths (waiting earlier q)
        + (queues - 1) * (total_width widths (waiting earlier q) + 2 * widest widths) }
{}

/// A fair history stays fair if the hand or the width of a request changes that no event of it names.
///
/// So what is known of a request only when it arrives changes nothing of what happened before. It runs no
/// code: the contract is the law.
pub fn every_fair_history_stands()
    ensures { (queues : ℕ) (widths widths' : List ℕ) (hands hands' : ℕ → List ℕ) (limit : ℕ) (h : List Event)
        → EachNames (λ r. hands' r ≡ hands r) h → EachNames (λ r. width widths' r ≡ width widths r) h
        → IsFair queues widths hands limit h → IsFair queues widths' hands' limit h }
{}

/// The books of every settled log balance: what a queue was charged, and what its requests that execute will have
/// taken, is what it would have been charged by measure alone, and what is charged for those that execute. What a request
/// that executes is charged is part of its queue's number, so that settling it never takes that below 0.
///
/// Each beginning of a settled log is settled. It runs no code: the contract is the law.
pub fn every_settled_log_balances()
    ensures beginnings { (queues : ℕ) (costs : List ℕ) (hands : ℕ → List ℕ) (limit : ℕ) (later earlier : List LogEntry)
        → IsSettled queues costs hands limit (later ++ earlier) → IsSettled queues costs hands limit earlier }
    ensures books { (queues : ℕ) (costs : List ℕ) (measure : ℕ → ℕ) (hands : ℕ → List ℕ) (limit : ℕ) (l : List LogEntry) (q : ℕ)
        → IsSettled queues costs hands limit l → AreMeasures measure l
        → (charged_numbers queues costs l).next q + taken costs measure l q ≡ true_next queues costs measure l q + charged costs l q }
    ensures covered { (queues : ℕ) (costs : List ℕ) (hands : ℕ → List ℕ) (limit : ℕ) (l : List LogEntry) (q r k : ℕ)
        → IsSettled queues costs hands limit l → IsAmong r k (runs costs l q)
        → k ≤ (charged_numbers queues costs l).next q }
    ensures once { (queues : ℕ) (costs : List ℕ) (hands : ℕ → List ℕ) (limit : ℕ) (l : List LogEntry) (r q : ℕ)
        → IsSettled queues costs hands limit l → settles_in r q l ≤ 1 }
{}

/// Every settled log isolates its queues: in every stretch of it in which a queue is never empty, both ends
/// included, the measured seat-time of the requests dispatched from another queue is at most that of those dispatched
/// from this one, twice the largest cost, and three times what executing requests are misjudged by; which is
/// at most the level's seats times the longest run. Two queues that are never empty differ by no more.
///
/// It runs no code: the contract is the law.
pub fn every_settled_log_isolates()
    ensures isolated { (slack queues : ℕ) (costs : List ℕ) (measure : ℕ → ℕ) (hands : ℕ → List ℕ) (limit : ℕ)
        (stretch earlier : List LogEntry) (q other : ℕ)
        → IsSettled queues costs hands limit (stretch ++ earlier) → AreMeasures measure (stretch ++ earlier)
        → AreJudged slack costs measure (stretch ++ earlier)
        → q < queues → other < queues
        → IsNeverEmptyIn (stretch ++ earlier) (length stretch) q
        → seat_time measure stretch other ≤ seat_time measure stretch q + 2 * widest costs + 3 * slack }
    ensures balanced { (slack queues : ℕ) (costs : List ℕ) (measure : ℕ → ℕ) (hands : ℕ → List ℕ) (limit : ℕ)
        (stretch earlier : List LogEntry) (a b : ℕ)
        → IsSettled queues costs hands limit (stretch ++ earlier) → AreMeasures measure (stretch ++ earlier)
        → AreJudged slack costs measure (stretch ++ earlier)
        → a < queues → b < queues
        → IsNeverEmptyIn (stretch ++ earlier) (length stretch) a
        → IsNeverEmptyIn (stretch ++ earlier) (length stretch) b
        → DifferAtMost (2 * widest costs + 3 * slack) (seat_time measure stretch a) (seat_time measure stretch b) }
    ensures by_seats { (seats longest queues : ℕ) (wide measure : ℕ → ℕ) (costs : List ℕ) (hands : ℕ → List ℕ) (limit : ℕ)
        (stretch earlier : List LogEntry) (q other : ℕ)
        → ((r : ℕ) → width costs r ≤ wide r * longest) → ((r : ℕ) → measure r ≤ wide r * longest)
        → IsSettled queues costs hands limit (stretch ++ earlier) → AreMeasures measure (stretch ++ earlier)
        → SpendsWithin longest wide (stretch ++ earlier) → HaveSeats seats wide measure costs (stretch ++ earlier)
        → q < queues → other < queues
        → IsNeverEmptyIn (stretch ++ earlier) (length stretch) q
        → seat_time measure stretch other ≤ seat_time measure stretch q + 2 * widest costs + 3 * (seats * longest) }
{}

/// In every settled log every wait is bounded, whatever was settled. Let a request have entered a queue after the
/// earlier entries, and wait in it still after the stretch that followed. In that stretch the requests dispatched from
/// its own queue take at most what those take that waited in it when the request entered. Those dispatched from any
/// other queue take at most that, twice the largest cost, and three times what executing requests are misjudged by;
/// which is at most the level's seats times the longest run.
///
/// What a request takes is its measure, in the unit of costs. It runs no code: the contract is the law.
pub fn every_settled_wait_is_bounded()
    ensures own { (queues : ℕ) (costs : List ℕ) (measure : ℕ → ℕ) (hands : ℕ → List ℕ) (limit : ℕ)
        (stretch earlier : List LogEntry) (q r : ℕ)
        → IsSettled queues costs hands limit (stretch ++ Happens (Enter r q) ∷ earlier)
        → Contains (waiting (events (stretch ++ Happens (Enter r q) ∷ earlier)) q) r
        → seat_time measure stretch q ≤ total_time measure (waiting (events earlier) q) }
    ensures others { (slack queues : ℕ) (costs : List ℕ) (measure : ℕ → ℕ) (hands : ℕ → List ℕ) (limit : ℕ)
        (stretch earlier : List LogEntry) (q r other : ℕ)
        → IsSettled queues costs hands limit (stretch ++ Happens (Enter r q) ∷ earlier)
        → AreMeasures measure (stretch ++ Happens (Enter r q) ∷ earlier)
        → AreJudged slack costs measure (stretch ++ Happens (Enter r q) ∷ earlier)
        → Contains (waiting (events (stretch ++ Happens (Enter r q) ∷ earlier)) q) r
        → q < queues → other < queues
        → seat_time measure stretch other ≤ total_time measure (waiting (events earlier) q) + 2 * widest costs + 3 * slack }
    ensures by_seats { (seats longest queues : ℕ) (wide measure : ℕ → ℕ) (costs : List ℕ) (hands : ℕ → List ℕ) (limit : ℕ)
        (stretch earlier : List LogEntry) (q r other : ℕ)
        → ((i : ℕ) → width costs i ≤ wide i * longest) → ((i : ℕ) → measure i ≤ wide i * longest)
        → IsSettled queues costs hands limit (stretch ++ Happens (Enter r q) ∷ earlier)
        → AreMeasures measure (stretch ++ Happens (Enter r q) ∷ earlier)
        → SpendsWithin longest wide (stretch ++ Happens (Enter r q) ∷ earlier)
        → HaveSeats seats wide measure costs (stretch ++ Happens (Enter r q) ∷ earlier)
        → Contains (waiting (events (stretch ++ Happens (Enter r q) ∷ earlier)) q) r
        → q < queues → other < queues
        → seat_time measure stretch other ≤ total_time measure (waiting (events earlier) q) + 2 * widest costs + 3 * (seats * longest) }
{}

/// A log in which nothing is settled is its history, and has its numbers; it is settled exactly if that is fair.
///
/// It runs no code: the contract is the law.
pub fn every_unsettled_log_is_fair()
    ensures same { (h : List Event) → events (log_of h) ≡ h }
    ensures numbers { (queues : ℕ) (costs : List ℕ) (h : List Event) → charged_numbers queues costs (log_of h) ≡ numbers queues costs h }
    ensures fair { (queues : ℕ) (costs : List ℕ) (hands : ℕ → List ℕ) (limit : ℕ) (h : List Event)
        → IsSettled queues costs hands limit (log_of h) → IsFair queues costs hands limit h }
    ensures settled { (queues : ℕ) (costs : List ℕ) (hands : ℕ → List ℕ) (limit : ℕ) (h : List Event)
        → IsFair queues costs hands limit h → IsSettled queues costs hands limit (log_of h) }
{}

/// What a log has that a queue is charged for a request is charged for one that executes from that queue, which is one
/// of the level's. There is none for a request that no event names.
///
/// It runs no code: the contract is the law.
pub fn every_charge_is_of_one_that_executes()
    ensures among { (costs : List ℕ) (l : List LogEntry) (r : ℕ) (c : Charge)
        → charge_of costs l r ≡ Some c → IsAmong r c.amount (runs costs l c.queue) }
    ensures from_queue { (queues : ℕ) (costs : List ℕ) (hands : ℕ → List ℕ) (limit : ℕ) (l : List LogEntry) (r k q : ℕ)
        → IsSettled queues costs hands limit l → IsAmong r k (runs costs l q) → q < queues }
    ensures unnamed { (queues : ℕ) (costs : List ℕ) (hands : ℕ → List ℕ) (limit : ℕ) (l : List LogEntry) (r : ℕ)
        → IsSettled queues costs hands limit l → EachNames (λ j. j ≢ r) (events l) → charge_of costs l r ≡ None }
{}

/// A settled log stays settled, with the same numbers, if the hand or the cost of a request changes that no event of it names.
///
/// It runs no code: the contract is the law.
pub fn every_settled_log_stands()
    ensures stands { (queues : ℕ) (costs costs' : List ℕ) (hands hands' : ℕ → List ℕ) (limit : ℕ) (l : List LogEntry)
        → EachNames (λ r. hands' r ≡ hands r) (events l) → EachNames (λ r. width costs' r ≡ width costs r) (events l)
        → IsSettled queues costs hands limit l → IsSettled queues costs' hands' limit l }
    ensures numbers { (queues : ℕ) (costs costs' : List ℕ) (l : List LogEntry) → EachNames (λ r. width costs' r ≡ width costs r) (events l)
        → charged_numbers queues costs' l ≡ charged_numbers queues costs l }
    ensures running { (queues : ℕ) (costs costs' : List ℕ) (l : List LogEntry) → EachNames (λ r. width costs' r ≡ width costs r) (events l)
        → (q : ℕ) → runs costs' l q ≡ runs costs l q }
    ensures charges { (costs costs' : List ℕ) (l : List LogEntry) → EachNames (λ r. width costs' r ≡ width costs r) (events l)
        → (r : ℕ) → charge_of costs' l r ≡ charge_of costs l r }
{}
