//! Adds a span to bins, and makes one bin of each two.

ghost use Rattle.std.specs.Prelude.{◌≡◌, ℕ, ◌+◌, ◌*◌, ◌^◌, ◌%◌, ◌<◌, ◌≤◌, length, slice_index};
ghost use Rattle.apf_strips.specs.Spans.{overlap as the_overlap, part_of};

// How much of the time from one time until another lies in a bin that begins at this time.
#[tactic(auto, unfolding(crate::specs::Spans::overlap))]
fn overlap(from: u64, to: u64, low: u64, width: u64) -> u64
    requires { low + width < 2 ^ 64 }
    ensures { result ≡ the_overlap from to low (low + width) }
{
    to.min(low + width).saturating_sub(from.max(low))
}

// What a bin has of a span.
#[tactic(auto, unfolding(crate::specs::Spans::part_of))]
fn part(amount: u64, from: u64, to: u64, width: u64, bin: u64) -> u128
    requires { bin * width + width < 2 ^ 64 }
    ensures { result ≡ part_of width bin (record { amount = amount; from = from; to = to }) }
{
    u128::from(amount) * u128::from(overlap(from, to, bin * width, width))
}

/// Adds a span to the bins of this width.
pub(crate) fn add_span(bins: &mut [u128], width: u64, amount: u64, from: u64, to: u64)
    requires some { 0 < width }
    requires few { length bins.old * width < 2 ^ 63 }
    requires in_order { from ≤ to }
    requires inside { to ≤ length bins.old * width }
    requires fits { (bin : ℕ) → bin < length bins.old → slice_index bins.old bin + part_of width bin (record { amount = amount; from = from; to = to }) < 2 ^ 128 }
    ensures count { length bins.new ≡ length bins.old }
    ensures added { (bin : ℕ) → bin < length bins.old → slice_index bins.new bin ≡ slice_index bins.old bin + part_of width bin (record { amount = amount; from = from; to = to }) }
{
    for bin in from / width..to.div_ceil(width) {
        bins[bin as usize] += part(amount, from, to, width, bin);
    }
}

// The sum of a pair of bins. There are none behind the last one.
fn pair(bins: &[u128], place: usize) -> u128
    requires few { length bins.now < 2 ^ 32 }
    requires even { length bins.now % 2 ≡ 0 }
    requires inside { place < length bins.now }
    requires fits { slice_index bins.now (2 * place) + slice_index bins.now (2 * place + 1) < 2 ^ 128 }
    ensures { result ≡ slice_index bins.now (2 * place) + slice_index bins.now (2 * place + 1) }
{
    if 2 * place + 1 < bins.len() {
        return bins[2 * place] + bins[2 * place + 1];
    }
    0
}

/// Makes one bin of each two. Behind these the bins are empty.
pub(crate) fn make_pairs(bins: &mut [u128])
    requires few { length bins.old < 2 ^ 32 }
    requires even { length bins.old % 2 ≡ 0 }
    requires fits { (bin : ℕ) → slice_index bins.old (2 * bin) + slice_index bins.old (2 * bin + 1) < 2 ^ 128 }
    ensures count { length bins.new ≡ length bins.old }
    ensures pairs { (bin : ℕ) → bin < length bins.old → slice_index bins.new bin ≡ slice_index bins.old (2 * bin) + slice_index bins.old (2 * bin + 1) }
{
    for place in 0..bins.len() {
        bins[place] = pair(bins, place);
    }
}
