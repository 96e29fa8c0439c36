//! What is true of every percentile, of every kept wait, and of every window.

ghost use Rattle.std.specs.Prelude.{◌≡◌, ℕ, ◌+◌, ◌*◌, ◌^◌, ◌<◌, ◌≤◌, List, [], ◌++◌, true, false, length, map, IsPermutation};
ghost use Rattle.apf_times.specs.Percentiles.{IsPercentile};
ghost use Rattle.apf_times.specs.Waits.{AreKept, WaitsView, shortened};
ghost use Rattle.apf_times.specs.declared.window.Arrival.{Arrival};
ghost use Rattle.apf_times.specs.declared.window.Place.{Place};
ghost use Rattle.apf_times.specs.WindowRuns.{AllPushed, AreInPlace, Call, HaveOwnLines, IsWindowRun, all_came, all_out, number_behind};
ghost use Rattle.apf_times.specs.Windows.{WindowView, is_late};
ghost use Rattle.std.specs.List.{AllByRecursion};

/// Waits have at most one percentile.
///
/// It runs no code: the contract is the law.
pub fn every_percentile_is_one()
    ensures one { (percent : ℕ) (waits : List ℕ) (a b : ℕ) → IsPercentile percent waits a → IsPercentile percent waits b → a ≡ b }
{}

/// Waits in any order are kept alike, and have a percentile.
///
/// A wait that is shortened has its first eight binary digits, and zeros behind them. It is no longer than
/// the wait, and shorter by less than a 128th of itself, or by less than a microsecond. A wait below 256
/// stays. A longer wait is not shortened to less. So the shortened percentile of some waits is the
/// percentile of the shortened waits.
///
/// It runs no code: the contract is the law.
pub fn every_wait_is_kept()
    ensures some { (percent : ℕ) (waits : List ℕ) → 1 ≤ percent → percent ≤ 100 → 0 < length waits → (wait : ℕ) × IsPercentile percent waits wait }
    ensures order { (waits others : List ℕ) (v : WaitsView) → IsPermutation waits others → AreKept waits v → AreKept others v }
    ensures shorter { (wait : ℕ) → wait < 2 ^ 64 → shortened wait ≤ wait }
    ensures near { (wait : ℕ) → wait < 2 ^ 64 → 128 * wait < 129 * shortened wait + 128 }
    ensures exact { (wait : ℕ) → wait < 256 → shortened wait ≡ wait }
    ensures rising { (wait longer : ℕ) → wait ≤ longer → longer < 2 ^ 64 → shortened wait ≤ shortened longer }
    ensures alike { (percent : ℕ) (waits : List ℕ) (wait : ℕ) → AllByRecursion (λ w. w < 2 ^ 64) waits → IsPercentile percent waits wait
        → IsPercentile percent (map shortened waits) (shortened wait) }
{}

/// What a window hands out is in the order of its places, and nothing is lost. Two lists of the same in that
/// order are the same, if each has a line of its own. So at the end a window has handed out all that came,
/// in the one order of it.
///
/// While all calls bring something, what comes is late exactly if more than the window's size of those that
/// came before it are behind its place.
///
/// It runs no code: the contract is the law.
pub fn every_window_is_in_order<T: Drop>()
    ensures same { (size : ℕ) (calls : List (Call T)) (v : WindowView T)
        → IsWindowRun size calls v → IsPermutation (all_came calls) (all_out calls ++ v.held) }
    ensures order { (size : ℕ) (calls : List (Call T)) (v : WindowView T) → IsWindowRun size calls v → AreInPlace (all_out calls) }
    ensures one { (xs ys : List (Arrival T)) → AreInPlace xs → AreInPlace ys → IsPermutation xs ys → HaveOwnLines xs → xs ≡ ys }
    ensures whole { (size : ℕ) (calls : List (Call T)) (v : WindowView T) (ordered : List (Arrival T))
        → IsWindowRun size calls v → v.held ≡ [] → HaveOwnLines (all_came calls) → AreInPlace ordered → IsPermutation (all_came calls) ordered → all_out calls ≡ ordered }
    ensures few { (size : ℕ) (calls : List (Call T)) (v : WindowView T) → IsWindowRun size calls v → length v.held ≤ size }
    ensures late { (size : ℕ) (calls : List (Call T)) (v : WindowView T) (place : Place) → IsWindowRun size calls v → AllPushed calls
        → is_late place v.last ≡ true → size < number_behind place (all_came calls) }
    ensures in_time { (size : ℕ) (calls : List (Call T)) (v : WindowView T) (place : Place) → IsWindowRun size calls v → AllPushed calls
        → is_late place v.last ≡ false → number_behind place (all_came calls) ≤ size }
{}
