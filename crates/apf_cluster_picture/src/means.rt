//! The means of bins, the greatest of them, and how high they are drawn.

ghost use Rattle.std.specs.Prelude.{◌≡◌, ◌≤◌, ◌<◌, OnOk};
ghost use Rattle.std.specs.Io.KnownBytes.{Appends};
ghost use Rattle.apf_cluster_picture.specs.Means.{greatest as the_greatest, mean_of, peak_of, pixel_of, height_of, mean_text};

use apf_strips::Series;
use std::io;
use std::io::Write;

// The greatest of these.
fn greatest(sums: &[u128]) -> u128
    ensures { result ≡ the_greatest sums.now }
{
    let mut most = 0;
    for sum in sums {
        most = (*sum).max(most);
    }
    most
}

/// The mean of a bin of this width, in thousandths.
#[tactic(auto, unfolding(crate::specs::Means::mean_of))]
pub(crate) fn mean(width: u64, sum: u128) -> u128
    ensures { result ≡ mean_of width sum }
{
    sum / u128::from((width / 1_000).max(1))
}

/// The greatest mean of a bin.
#[tactic(auto, unfolding(crate::specs::Means::peak_of))]
pub(crate) fn peak(series: &Series) -> u128
    ensures { result ≡ peak_of series.now }
{
    mean(series.width(), greatest(series.bins()))
}

/// How many thousandths a pixel has where the greatest mean is not higher than this.
#[tactic(auto, unfolding(crate::specs::Means::pixel_of))]
pub(crate) fn pixel(most: u128, full: u64) -> u128
    requires { 1 < full }
    ensures { result ≡ pixel_of most full }
{
    most / u128::from(full) + 1
}

/// How high a mean is drawn.
#[tactic(auto, unfolding(crate::specs::Means::height_of))]
pub(crate) fn height(pixel: u128, full: u64, mean: u128) -> u64
    ensures is { result ≡ height_of pixel full mean }
    ensures within { result ≤ full }
{
    (mean / pixel.max(1)).min(u128::from(full)) as u64
}

/// Writes a mean with one digit after the point.
#[tactic(auto, unfolding(crate::specs::Means::mean_text))]
pub(crate) fn write_mean<W: Write>(out: &mut W, mean: u128) -> io::Result<()>
    ensures { OnOk result (Appends (W.contents out.old) (W.contents out.new) (mean_text mean)) }
{
    let whole = mean / 1_000;
    let tenth = mean % 1_000 / 100;
    write!(out, "{whole}.{tenth}")
}
