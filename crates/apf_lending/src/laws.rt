//! What holds of every division.

ghost use Rattle.std.specs.Prelude.{◌≡◌, ℕ, ◌+◌, ◌*◌, ◌<◌, ◌≤◌, ◌⊎◌, List, All, length, sum};
ghost use Rattle.apf_lending.specs.declared.claim.Claim.{Claim as ClaimOf};
ghost use Rattle.apf_lending.specs.Claims.{IsClaim, sum_of_min, sum_of_current};
ghost use Rattle.apf_lending.specs.Shares.{sum_of_reach};
ghost use Rattle.apf_lending.specs.Divisions.{IsDivision, AreWithin};

/// The law of bounds. Each limit is at least the level's least one, and at most its greatest. It runs no code: the contract is the
/// law.
pub fn every_division_is_within_bounds()
    ensures { (seats : ℕ) (claims : List ClaimOf) (limits : List ℕ) → All IsClaim claims → IsDivision seats claims limits
        → AreWithin claims limits }
{}

/// The law of the one answer. Whoever divides the same seats among the same claims comes to the same limits. It runs no code: the
/// contract is the law.
pub fn every_division_has_one_answer()
    ensures { (seats : ℕ) (claims : List ClaimOf) (some other : List ℕ) → All IsClaim claims → IsDivision seats claims some → IsDivision seats claims other
        → some ≡ other }
{}

/// The law of the sum. Where the seats are enough for the least limits, and the greatest ones allow it, all seats are given out, but
/// for half a seat a level by which limits are rounded. It runs no code: the contract is the law.
pub fn every_division_is_of_all_seats()
    ensures { (seats : ℕ) (claims : List ClaimOf) (limits : List ℕ) → All IsClaim claims → IsDivision seats claims limits
        → sum_of_min claims ≤ seats → (seats ≤ sum_of_current claims) ⊎ (seats ≤ sum_of_reach claims)
        → (2 * sum limits ≤ 2 * seats + length claims) × (2 * seats ≤ 2 * sum limits + length claims) }
{}
