//! What is true of the bins of some spans.

ghost use Rattle.std.specs.Prelude.{◌≡◌, ℕ, ◌<◌, List, length, slice_index, sum, IsPermutation};
ghost use Rattle.apf_strips.specs.Limits.{bin_count};
ghost use Rattle.apf_strips.specs.Spans.{AreBins, Span, SeriesView};

/// Spans in any order have the same bins, and no time of theirs is lost: the bins together have the amounts times their times.
///
/// It runs no code: the contract is the law.
pub fn every_order_has_the_same_bins()
    ensures order { (spans others : List Span) (v : SeriesView) → IsPermutation spans others → AreBins spans v → AreBins others v }
    ensures one { (spans : List Span) (u v : SeriesView) → AreBins spans u → AreBins spans v → u.doublings ≡ v.doublings
        → (bin : ℕ) → bin < bin_count → slice_index u.bins bin ≡ slice_index v.bins bin }
    ensures all { (spans : List Span) (v : SeriesView) → AreBins spans v → length v.bins ≡ bin_count → sum v.bins ≡ v.total }
{}
