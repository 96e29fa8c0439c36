//! What is true of every run of a stream.

ghost use Rattle.std.specs.Prelude.{◌≡◌, ◌+◌, ◌++◌, ◌≤◌, ℕ, List, [], Contains};
ghost use Rattle.std.specs.List.{AllByRecursion};
ghost use Rattle.apf_stream.specs.declared.asked.Asked.{Asked};
ghost use Rattle.apf_stream.specs.declared.deed.Deed.{Deed};
ghost use Rattle.apf_stream.specs.declared.deed.NewLimit.{NewLimit};
ghost use Rattle.apf_stream.specs.declared.ended.Ended.{Ended};
ghost use Rattle.apf_stream.specs.States.{State};
ghost use Rattle.apf_stream.specs.Runs.{AreOf, HasRunUnder, IsHonoured, IsOverBy, IsRun, arrivals, came_of, there_of, told_of};
ghost use Rattle.apf_stream.specs.Ties.{AreTied};

/// Each request that came, or was there, is told once or is there still, and nobody else: of each line, as many were told and
/// are there as came and were there. Who is in a slot by the calendar stays where the level says.
///
/// It runs no code: the contract is the law.
pub fn every_request_is_told_once()
    ensures tied { (deeds : List Deed) (s s' : State) (told : List Ended) → IsRun deeds s s' told → AreTied s → AreTied s' }
    ensures once { (deeds : List Deed) (s s' : State) (told : List Ended) → IsRun deeds s s' told → AreTied s
        → (line : ℕ) → told_of line told + there_of line s'.slots.slots ≡ came_of line (arrivals deeds) + there_of line s.slots.slots }
{}

/// Who is told is one of those that came, and so is who is there still.
///
/// It runs no code: the contract is the law.
pub fn every_told_request_came()
    ensures told { (came : List Asked) (deeds : List Deed) (s s' : State) (told : List Ended) → IsRun deeds s s' told → AreTied s → AreOf came s
        → AllByRecursion (λ e. Contains (came ++ arrivals deeds) e.hold.asked) told }
    ensures there { (came : List Asked) (deeds : List Deed) (s s' : State) (told : List Ended) → IsRun deeds s s' told → AreTied s → AreOf came s
        → AreOf (came ++ arrivals deeds) s' }
{}

/// Time never goes back. Who is told was over by then, and was given its seats before that, if it was given any.
///
/// It runs no code: the contract is the law.
pub fn every_end_is_in_time()
    ensures forward { (deeds : List Deed) (s s' : State) (told : List Ended) → IsRun deeds s s' told → s.slots.time ≤ s'.slots.time }
    ensures over { (deeds : List Deed) (s s' : State) (told : List Ended) → IsRun deeds s s' told → AllByRecursion (IsOverBy s'.slots.time) told }
{}

/// On a level to which nobody had come before, a request gets its seats within its patience, or it gets none: it is executed
/// exactly if it got them, and is then over once it has run.
///
/// It runs no code: the contract is the law.
pub fn every_request_is_honoured()
    ensures { (deeds : List Deed) (s s' : State) (told : List Ended) → IsRun deeds s s' told → AreTied s → AreOf [] s
        → AllByRecursion (IsHonoured s.slots.patience) told }
{}

/// A run goes on: who came in both came, the limits of both were set, and what was told in both is told.
///
/// It runs no code: the contract is the law.
pub fn every_run_goes_on()
    ensures { (under further : List NewLimit) (came more : List Asked) (a b c : State) (first second third : List Ended)
        → HasRunUnder under came a first b second → HasRunUnder further more b second c third → HasRunUnder (under ++ further) (came ++ more) a first c third }
{}
