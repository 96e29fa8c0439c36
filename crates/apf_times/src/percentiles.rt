//! A percentile of waits.

ghost use Rattle.std.specs.Prelude.{◌≡◌, ◌≤◌, ◌<◌, length, IsPermutation};
ghost use Rattle.std.specs.List.Sorted.{IsNonDecreasing};
ghost use Rattle.apf_times.specs.Percentiles.{IsPercentile};

/// A percentile of waits, by the nearest rank: the least of the waits that at least `percent` of a
/// hundred are not above. It is 0 if there are no waits. `percent` is 1 to 100, and 100 gives the
/// greatest wait.
///
/// It sorts the waits where they stand, and allocates nothing.
pub fn percentile(waits: &mut [u64], percent: u32) -> u64
    requires some { 1 ≤ percent }
    requires at_most_all { percent ≤ 100 }
    ensures none { length waits.old ≡ 0 → result ≡ 0 }
    ensures nearest { 0 < length waits.old → IsPercentile percent waits.old result }
    ensures same { IsPermutation waits.old waits.new }
    ensures sorted { IsNonDecreasing waits.new }
{
    waits.sort_unstable();
    let count = waits.len();
    if count == 0 {
        return 0;
    }
    let rank = (percent as u128 * count as u128).div_ceil(100) as usize;
    waits[rank - 1]
}
