//! The word of a request: its mark and the code of its decision.

ghost use Rattle.std.specs.Prelude.{◌≡◌, ◌^◌, ◌<◌, ◌/◌, ℕ, Option, Some, None};
ghost use Rattle.apf_words.specs.Codes.{marked};
ghost use Rattle.apf_words.specs.declared.decision.Decision.{Decision};

use crate::decision::Decision;

/// The word of an undecided request of this mark. A mark is below 2^61.
#[tactic(auto, unfolding(crate::specs::Codes::marked))]
pub fn undecided(mark: u64) -> u64
    requires { mark < 2 ^ 61 }
    ensures { result ≡ marked mark None }
{
    8 * mark
}

/// The word of a request of this mark that is decided so.
#[tactic(auto, unfolding(crate::specs::Codes::marked))]
pub fn decided(mark: u64, decision: Decision) -> u64
    requires { mark < 2 ^ 61 }
    ensures { result ≡ marked mark (Some decision) }
{
    8 * mark + decision.code()
}

/// The mark in the word of a request.
#[tactic(auto, unfolding(crate::specs::Codes::marked))]
pub fn mark_in(word: u64) -> u64
    ensures value { result ≡ word / 8 }
    ensures round_trip { (mark : ℕ) (d : Option Decision) → word ≡ marked mark d → result ≡ mark }
{
    word / 8
}

/// The decision in the word of a request.
#[tactic(auto, unfolding(crate::specs::Codes::marked))]
pub fn decision_in(word: u64) -> Option<Decision>
    ensures { (mark : ℕ) (d : Option Decision) → word ≡ marked mark d → result ≡ d }
{
    Decision::of_code(word % 8)
}
