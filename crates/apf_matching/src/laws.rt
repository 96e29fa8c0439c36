//! What holds of every cluster.

ghost use Rattle.std.specs.Prelude.{◌≡◌, ℕ, suc, ◌+◌, ◌<◌, ◌≤◌, List, length};
ghost use Rattle.apf_objects.specs.Levels.{LevelSaid};
ghost use Rattle.apf_matching.specs.Limits.{sum_of_shares, sum_of_nominal};

/// The law of nominal limits. Where the levels have shares, their nominal limits together are at least the server's
/// seats, and less than these and the number of levels. It runs no code: the contract is the law.
pub fn every_nominal_sum()
    ensures { (seats n : ℕ) (levels : List LevelSaid) → sum_of_shares levels ≡ suc n
        → (seats ≤ sum_of_nominal seats levels) × (sum_of_nominal seats levels < seats + length levels) }
{}
